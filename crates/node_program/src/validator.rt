//! `tmnode run`.

ghost use Rattle.std.specs.Prelude.{◌≡◌, ◌<◌, ◌≤◌, IfOk, length};
ghost use Rattle.protocol.specs.Tags.{Validator};
ghost use Rattle.status_words.specs.Seen.{opened as opened_at};
ghost use Rattle.status_words.specs.Ends.{opened_table, opened_words};
ghost use Rattle.protocol.specs.State.{Node as ProtocolNode};
ghost use Rattle.node_core.specs.Core.{Stands};
ghost use Rattle.locked_node.specs.Locked.{count_of};
ghost use Rattle.node_settings.specs.Lawful.{IsLawfulRun};
ghost use Rattle.node_program.specs.Manners.{keeping_of};
ghost use Rattle.node_program.specs.Opening.{IsOpenedInFile};

use crate::metrics::report_until_end;
use crate::opening::{open_core, unopened};
use crate::printing::{Printout, Span, print_until_end};
use crate::telling::{listen, tell_until_end};
use authenticators::{KeyRing, Party};
use counted_links::{CountedLinks, OpenLinks};
use journal_file::FileStore;
use key_files::{memory_or, read_rings};
use leveled_runtime::Leveled;
use locked_node::{LockedNode, Subscription, words_for};
use log::{Log, info, warn};
use metered_store::MeteredStore;
use node_core::{Config, NodeCore};
use node_meters::Meters;
use node_settings::{Failure, RunSettings};
use peer_core::{Keeping, Manner};
use peer_threads::{Bell, Ending, Pace, serve_at_pace};
use powers::Powers;
use proposer_turns::Turns;
use status_words::{Node, Opened};
use std::alloc::{AllocError, Global};
use std::fs::File;
use std::io::Write;
use std::marker::Brand;
use std::net::{Net, TcpListener, TcpStream};
use std::rt::Files;
use std::sync::Wait;
use std::thread;
use std::thread::Threads;
use std::time::Clock;
use tcp_links::{HostClock, TcpLinks};
use timeouts::Plan;
use vote_journal::Store;

/// How many delivered items wait to be printed at most.
const WAITING_ITEMS: usize = 1_024;

/// From so many turns in a row on the log says that a validator has many.
const MANY_TURNS: u32 = 16;

/// How the validator serves: where, at which pace, for how long, and what it tells meanwhile.
#[derive(Drop)]
struct Service<'a, N> {
    links: TcpLinks<'a, N>,
    pace: Pace,
    /// The position from which on it prints the delivered list.
    from: u64,
    /// Where it tells how far it is.
    status: Option<TcpListener>,
    /// Where it answers requests for metrics.
    metrics: Option<TcpListener>,
    /// What its threads count.
    meters: &'a Meters,
}

/// Runs a validator until it ends. Answers the exit status 0.
pub(crate) fn run<
    R: Eprint
        + Threads
        + Wait
        + Clock
        + Net<Stream = TcpStream, Listener = TcpListener>
        + Files<File = File>
        + AllocGlobal
        + Sync,
    W: Write + Send + Drop,
>(rt: &R, settings: RunSettings<'_>, out: W) -> Result<u8, Failure>
    requires { IsLawfulRun settings }
    ensures { IfOk result (λ status. status ≡ 0) }
{
    let logged = Leveled {
        rt,
        level: settings.level,
    };
    let meters = Meters::new();
    let (core, keys) = validator_of(rt, &settings, &meters)?;
    info!(&logged;
        "validator {} is at height {}, with {} decisions in its journal",
        settings.me,
        core.height(),
        core.delivered().len()
    );
    warn_of_turns(&logged, &settings.powers);
    let Ok(opened) = words_for(rt.alloc(), &core) else {
        return Err(Failure::OutOfMemory);
    };
    let service = service_of(&logged, &settings, &meters)?;
    serve_core::<MeteredStore<'_, FileStore, R>, Brand, W, Leveled<'_, R>>(
        &logged, core, keys, opened, service, out,
    )
}

/// Says where a validator has many turns in a row: while it is gone a height may take as many rounds.
fn warn_of_turns<R: Log>(rt: &R, powers: &Powers) {
    let mut most = 0u32;
    for validator in 0..powers.count() {
        most = most.max(powers.power_of(validator).unwrap_or(0));
    }
    if most >= MANY_TURNS {
        warn!(rt; "a validator has {most} turns in a row: while it is gone a height may take as many rounds");
    }
}

/// The validator of these settings, which comes back over the journal in its file, and its keys. The syncs of the file are counted.
fn validator_of<'a, R: Files<File = File> + Clock + AllocGlobal>(
    rt: &'a R,
    settings: &RunSettings<'_>,
    meters: &'a Meters,
) -> Result<(NodeCore<MeteredStore<'a, FileStore, R>>, KeyRing), Failure>
    requires { IsLawfulRun settings.now }
    ensures { IfOk result (λ opened. IsOpenedInFile settings.now.powers settings.now.me opened.0) }
{
    let alloc = rt.alloc();
    let Ok(powers) = settings.powers.copy(alloc) else {
        return Err(Failure::OutOfMemory);
    };
    let me = settings.me;
    let (ring, keys) = read_rings(rt, settings.keys, Party::Validator(me), powers.count())?;
    let file = FileStore::open(rt, settings.journal).map_err(unopened)?;
    let store = MeteredStore::new(file, meters, rt);
    let core = open_metered(alloc, Config { me, powers }, ring, store)?;
    Ok((core, keys))
}

/// The validator that comes back over the journal in a file whose syncs are counted.
fn open_metered<'a, R: Clock>(
    alloc: Global,
    config: Config,
    ring: KeyRing,
    store: MeteredStore<'a, FileStore, R>,
) -> Result<NodeCore<MeteredStore<'a, FileStore, R>>, Failure>
    requires owner { ring.me ≡ Validator config.me }
    requires count { ring.count ≡ length config.powers }
    requires me { config.me < length config.powers }
    requires unfailed { store.store.failures ≡ 0 }
    ensures opened { IfOk result (λ core. IsOpenedInFile config.powers config.me core) }
{
    open_core(alloc, config, ring, store)
}

/// Listens on the own address, and makes ready what serving takes.
fn service_of<'a, R: Log + Net<Stream = TcpStream, Listener = TcpListener> + AllocGlobal>(
    rt: &'a R,
    settings: &RunSettings<'a>,
    meters: &'a Meters,
) -> Result<Service<'a, R>, Failure>
    requires { IsLawfulRun settings.now }
{
    let alloc = rt.alloc();
    let links = TcpLinks::bind(alloc, rt, &settings.peers, settings.me as usize).map_err(
        |error| memory_or(&error, Failure::CannotListen),
    )?;
    let status = listener_at(rt, settings.status)?;
    let metrics = listener_at(rt, settings.metrics)?;
    let Ok(plan) = Plan::new(alloc, settings.start, settings.delta) else {
        return Err(Failure::OutOfMemory);
    };
    Ok(Service {
        links,
        status,
        metrics,
        meters,
        pace: Pace {
            plan,
            manner: manner_of(settings),
            stop: settings.stop,
        },
        from: settings.from,
    })
}

/// How its edge behaves.
fn manner_of(settings: &RunSettings<'_>) -> Manner
    ensures keeping { result.keeping ≡ keeping_of settings.now.keeping }
    ensures times { (result.idle ≡ settings.now.idle) × (result.rest ≡ settings.now.rest) × (result.redial ≡ settings.now.redial) }
{
    Manner {
        keeping: keeping_of(settings.keeping),
        idle: settings.idle,
        rest: settings.rest,
        redial: settings.redial,
        turns: Turns::of(&settings.powers, settings.me),
    }
}

/// How it keeps its links.
fn keeping_of(keeping: node_settings::Keeping) -> Keeping
    ensures { result ≡ keeping_of keeping }
{
    match keeping {
        node_settings::Keeping::Open => Keeping::Open,
        node_settings::Keeping::Guarded => Keeping::Guarded,
    }
}

/// Listens at this address, if there is one.
fn listener_at<N: Net<Stream = TcpStream, Listener = TcpListener>>(
    net: &N,
    address: Option<&str>,
) -> Result<Option<TcpListener>, Failure> {
    match address {
        Some(address) => match listen(net, address) {
            Ok(listener) => Ok(Some(listener)),
            Err(error) => Err(memory_or(&error, Failure::CannotListen)),
        },
        None => Ok(None),
    }
}

/// Serves as this node, and prints what it delivers.
fn serve_core<
    S: Store + Send + Drop,
    J: Node + Send + Sync,
    W: Write + Send + Drop,
    R: Log
        + Threads
        + Wait
        + Clock
        + Net<Stream = TcpStream, Listener = TcpListener>
        + AllocGlobal
        + Sync,
>(
    rt: &R,
    core: NodeCore<S>,
    keys: KeyRing,
    opened: Opened,
    service: Service<'_, R>,
    out: W,
) -> Result<u8, Failure>
    requires named { opened_table opened ≡ J.table }
    requires words { opened_words opened ≡ opened_at core.machine.state.height (count_of core) }
    requires stands { (n : ProtocolNode) × Stands n core }
    ensures { IfOk result (λ status. status ≡ 0) }
{
    let node = LockedNode::<S, J>::new(rt.alloc(), opened, core, keys);
    let delivered = node.status(&mut node.seat(rt)).delivered;
    let span = Span {
        taken: service.from.min(delivered),
        first: service.from,
        end: service.pace.stop.unwrap_or(u64::MAX),
    };
    let Ok(subscription) = node.subscribe(rt, span.taken, WAITING_ITEMS) else {
        return Err(Failure::OutOfMemory);
    };
    let Ok(printout) = Printout::new(rt.alloc(), out, span) else {
        return Err(Failure::OutOfMemory);
    };
    let (printed, ended) = serve_beside(rt, &node, service, subscription, printout);
    status_after(ended, printed)
}

/// Serves in one thread and prints in another.
fn serve_beside<
    S: Store + Send + Drop,
    J: Node + Send + Sync,
    W: Write + Send + Drop,
    R: Log
        + Threads
        + Wait
        + Clock
        + Net<Stream = TcpStream, Listener = TcpListener>
        + AllocGlobal
        + Sync,
>(
    rt: &R,
    node: &LockedNode<S, J>,
    service: Service<'_, R>,
    subscription: Subscription,
    printout: Printout<W>,
) -> (Result<(), AllocError>, Ending) {
    let bell = Bell::new();
    let clock = HostClock::new();
    thread::join(
        rt,
        || print_until_end(rt, node, subscription, &bell, &clock, printout),
        || serve_and_tell(rt, node, service, &clock, &bell),
    )
}

/// Serves in one thread, and reports beside it how far it is.
fn serve_and_tell<
    S: Store + Send + Drop,
    J: Node + Send + Sync,
    R: Log
        + Threads
        + Wait
        + Clock
        + Net<Stream = TcpStream, Listener = TcpListener>
        + AllocGlobal
        + Sync,
>(
    rt: &R,
    node: &LockedNode<S, J>,
    service: Service<'_, R>,
    clock: &HostClock,
    bell: &Bell,
) -> Ending {
    let Service {
        links,
        pace,
        from: _,
        status,
        metrics,
        meters,
    } = service;
    let open = OpenLinks::new();
    let counted = CountedLinks { links, open: &open };
    let reported = Reported {
        status,
        metrics,
        meters,
        open: &open,
    };
    // (where no thread can be made the first one runs behind the second, which then lacks threads of its own and ends)
    let ((), ended) = thread::join(
        rt,
        || report_beside(rt, node, reported, clock, bell),
        || {
            let ended = serve_at_pace(rt, rt.alloc(), node, counted, clock, pace, bell, meters);
            bell.end(rt);
            ended
        },
    );
    ended
}

/// What is reported, and where.
#[derive(Drop)]
struct Reported<'a> {
    status: Option<TcpListener>,
    metrics: Option<TcpListener>,
    meters: &'a Meters,
    open: &'a OpenLinks,
}

/// Reports how far the validator is, and where it has an address for metrics answers requests for them in one more thread.
fn report_beside<
    S: Store + Send + Drop,
    J: Node + Send + Sync,
    R: Log + Threads + Wait + Clock + AllocGlobal + Sync,
>(rt: &R, node: &LockedNode<S, J>, reported: Reported<'_>, clock: &HostClock, bell: &Bell) {
    let Reported {
        status,
        metrics,
        meters,
        open,
    } = reported;
    let report_status = || {
        if let Some(listener) = &status {
            tell_until_end(rt, rt.alloc(), node, listener, open, bell);
        }
    };
    let Some(listener) = &metrics else {
        report_status();
        return;
    };
    thread::join(rt, report_status, || {
        report_until_end(rt, rt.alloc(), node, meters, listener, clock, bell);
    });
}

/// The exit status after serving and printing.
fn status_after(ended: Ending, printed: Result<(), AllocError>) -> Result<u8, Failure>
    ensures { IfOk result (λ status. status ≡ 0) }
{
    match ended {
        Ending::Halted => Err(Failure::Halted),
        Ending::OutOfMemory => Err(Failure::OutOfMemory),
        Ending::Stopped | Ending::Ended => match printed {
            Ok(()) => Ok(0),
            Err(_) => Err(Failure::OutOfMemory),
        },
    }
}
