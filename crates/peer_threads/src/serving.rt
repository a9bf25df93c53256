//! The threads of a node, from their start to their end.

ghost use denote.Param.Send.{IsSend, IsSync};

use crate::desk::Desk;
use crate::outlets::{OpenLink, Outlets, Queue};
use crate::shared::{Ending, Shared};
use edge_frames::LinkId;
use locked_node::LockedNode;
use log::{Log, info, warn};
use node_meters::Meters;
use peer_core::{Manner, OpenFault, PeerCore};
use peer_links::{Bell, Clock, Dialed, Dialer, Link, Links, Next, Peer, Way};
use status_words::{Node, Seat};
use std::alloc::Global;
use std::sync::{Mutex, Wait};
use std::thread::{Scope, Threads};
use std::{thread, time};
use timeouts::Plan;
use vote_journal::Store;

/// How long it waits for links to end, in milliseconds at a time.
const TURN_MS: u64 = 10;

/// Why a link is closed where the system starts no further thread.
const NO_THREAD: &str = "no thread can be started";

/// How long the dialer waits where nobody is to be dialed, in milliseconds.
const DIAL_TURN_MS: u64 = 250;

/// When the timers of a node go, how it keeps its links, and when it ends.
#[derive(Drop)]
pub struct Pace {
    /// The timeouts that wait, and how long each lasts.
    pub plan: Plan,
    pub manner: Manner,
    /// After how many delivered items it ends.
    pub stop: Option<u64>,
}

/// Serves peers until `stop` items are delivered (`Stopped`), the source of peers has none any more
/// and every link has ended (`Ended`), a call of the node answered 17 or 15 (`Halted`), or there is no
/// memory for the dialer, no thread for it or none for the time (`OutOfMemory`).
///
/// The node settles first, and each other validator is dialed once. Each peer has a thread that reads and hands in whole frames, and one that
/// sends what its queue holds. What the node releases goes to every link, and a reply to the link that
/// the transaction came on. At the end what was released by then is written to the links first: what the
/// system hasn't sent when a connection is shut may be lost. A link that ends,
/// fails, or names a length above 1,048,576 is closed and logged, and nothing of a frame that isn't
/// whole is handed in; so is one more than 384.
pub fn serve<
    S: Store + Drop + Send,
    J: Node + Send + Sync,
    C: Clock + Sync,
    L: Links + Drop,
    R: Threads + Wait + time::Clock + Log + Sync,
>(
    rt: &R,
    alloc: Global,
    node: &LockedNode<S, J>,
    links: L,
    clock: &C,
    plan: Plan,
    stop: Option<u64>,
) -> Ending {
    let pace = Pace {
        plan,
        manner: Manner::PLAIN,
        stop,
    };
    let (bell, meters) = (Bell::new(), Meters::new());
    serve_at_pace(rt, alloc, node, links, clock, pace, &bell, &meters)
}

/// Serves peers as [`serve`] does, in a manner of its own. The bell is rung where the node has moved to another height, and the meters
/// count what happens.
pub fn serve_at_pace<
    S: Store + Drop + Send,
    J: Node + Send + Sync,
    C: Clock + Sync,
    L: Links + Drop,
    R: Threads + Wait + time::Clock + Log + Sync,
>(
    rt: &R,
    alloc: Global,
    node: &LockedNode<S, J>,
    mut links: L,
    clock: &C,
    pace: Pace,
    bell: &Bell,
    meters: &Meters,
) -> Ending {
    let now = clock.now_ms(rt);
    meters.decided(now);
    let Pace { plan, manner, stop } = pace;
    let core = PeerCore::new(alloc, links.me(), links.validators(), manner, plan, now);
    let desk = Desk::new(alloc, core, Outlets::new(alloc), now);
    let shared = Shared {
        alloc,
        node,
        clock,
        bell,
        alarm: Bell::new(),
        meters,
        stop,
        desk: Mutex::new(desk),
        ending: Mutex::new(None),
    };
    shared.run(rt, &mut links)
}

impl<'n, S: Store + Drop + Send, J: Node + Send + Sync, C: Clock + Sync> Shared<'n, S, J, C> {
    /// Settles, runs the threads, and says why they ended.
    fn run<L: Links, R: Threads + Wait + time::Clock + Log + Sync>(
        &self,
        rt: &R,
        links: &mut L,
    ) -> Ending {
        let mut seat = self.node.seat(rt);
        self.settle(rt, &mut seat);
        self.run_threads(rt, &mut seat, links);
        (*self.ending.lock(rt)).unwrap_or(Ending::Ended)
    }

    /// The timer, the dialer and the peers, in one scope.
    fn run_threads<L: Links, R: Threads + Wait + time::Clock + Log + Sync>(
        &self,
        rt: &R,
        seat: &mut Seat<J>,
        links: &mut L,
    ) {
        let Ok(dialer) = links.dialer() else {
            self.end(rt, Ending::OutOfMemory);
            return;
        };
        thread::scope(
            thread::scope_env(),
            rt,
            |scope|
                requires links { IsSend L.Link.row }
                requires dialer { IsSend L.Dialer.row }
                requires store { IsSend S.row }
                requires words { IsSend J.row }
                requires clock { IsSync C.row }
                requires runtime { IsSync R.row }
            {
                let timer = scope.spawn(move || self.run_timer(rt));
                let dialing = scope.spawn(move || self.run_dialer(rt, dialer));
                if timer.is_err() || dialing.is_err() {
                    self.end(rt, Ending::OutOfMemory);
                }
                for _ in rt.forever() {
                    if self.has_ended(rt) || !self.take_peer(rt, scope, links) {
                        break;
                    }
                    self.look(rt, seat);
                }
                self.wait_for_links(rt);
                self.end(rt, Ending::Ended);
            },
        );
    }

    /// Dials whom it is time to dial, until nobody is any more, or all is to end.
    fn run_dialer<D: Dialer + Drop, R: Wait + time::Clock>(&self, rt: &R, mut dialer: D) {
        for _ in rt.forever() {
            if self.has_ended(rt) || !self.dial_next(rt, &mut dialer) {
                break;
            }
        }
    }

    /// Dials the next validator, or waits for a moment, and returns whether anybody is to be dialed any more.
    fn dial_next<D: Dialer, R: Wait + time::Clock>(&self, rt: &R, dialer: &mut D) -> bool {
        let now = self.clock.now_ms(rt);
        let next = self.desk.lock(rt).core.next_dial(now);
        let Some(validator) = next else {
            self.clock.wait_ms(rt, DIAL_TURN_MS);
            return self.desk.lock(rt).core.dials_again();
        };
        let is_reached = dialer.dial(rt, validator) == Dialed::Reached;
        let now = self.clock.now_ms(rt);
        self.desk.lock(rt).core.dialed(validator, is_reached, now);
        true
    }

    /// Waits until every link has ended, or all is to end.
    fn wait_for_links<R: Wait + time::Clock>(&self, rt: &R) {
        for _ in rt.forever() {
            if self.has_ended(rt) || self.desk.lock(rt).outlets.is_empty() {
                break;
            }
            self.clock.wait_ms(rt, TURN_MS);
        }
    }

    /// Takes the next peer, and starts its threads: false where none comes any more.
    fn take_peer<'s, E, L: Links, R: Threads + Wait + time::Clock + Log + Sync + 's>(
        &'s self,
        rt: &'s R,
        scope: &Scope<'s, E>,
        links: &mut L,
    ) -> bool
    where
        S: 's,
        J: 's,
        C: 's,
        L::Link: 's,
    {
        match links.next(rt) {
            Next::Peer(peer) => {
                self.start(rt, scope, peer);
                true
            }
            Next::Idle => true,
            Next::None => false,
        }
    }

    /// Starts a peer's threads.
    fn start<'s, E, L: Link + Send + Drop + 's, R: Threads + Wait + time::Clock + Log + Sync + 's>(
        &'s self,
        rt: &'s R,
        scope: &Scope<'s, E>,
        peer: Peer<L>,
    )
    where
        S: 's,
        J: 's,
        C: 's,
    {
        let Peer {
            reader,
            writer,
            name,
            way,
        } = peer;
        match self.open(rt, way) {
            Ok(OpenLink { link, queue }) => {
                if self.may_log(rt) {
                    info!(rt; "link {}: {name}", link.0);
                }
                self.alarm.ring(rt);
                self.start_reader(rt, scope, link, reader);
                self.start_writer(rt, scope, link, queue, writer);
            }
            Err(fault) => {
                if self.may_log(rt) {
                    warn!(rt; "{name}: closed: {fault}");
                }
            }
        }
    }

    /// Finds a place for a link.
    fn open<R: Wait + time::Clock>(&self, rt: &R, way: Way) -> Result<OpenLink, OpenFault> {
        let now = self.clock.now_ms(rt);
        let mut desk = self.desk.lock(rt);
        let opened = desk.outlets.open()?;
        if let Err(fault) = desk.core.opened(opened.link, way, now) {
            desk.outlets.forget(opened.link);
            return Err(fault);
        }
        Ok(opened)
    }

    fn start_reader<
        's,
        E,
        L: Link + Send + Drop + 's,
        R: Threads + Wait + time::Clock + Log + Sync + 's,
    >(&'s self, rt: &'s R, scope: &Scope<'s, E>, link: LinkId, half: L) {
        let started = scope.spawn(move || self.read_link(rt, link, half));
        if started.is_err() {
            self.log_closed(rt, link, NO_THREAD);
            self.leave(rt, link);
        }
    }

    fn start_writer<
        's,
        E,
        L: Link + Send + Drop + 's,
        R: Threads + Wait + time::Clock + Log + Sync + 's,
    >(&'s self, rt: &'s R, scope: &Scope<'s, E>, link: LinkId, queue: Queue, half: L) {
        let started = scope.spawn(move || self.write_link(rt, link, queue, half));
        if started.is_err() {
            self.log_closed(rt, link, NO_THREAD);
            self.leave(rt, link);
        }
    }
}
