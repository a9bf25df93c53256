//! A node that serves links in memory.

ghost use Rattle.std.specs.Prelude.{◌≡◌};
ghost use Rattle.status_words.specs.Seen.{opened as opened_at};
ghost use Rattle.status_words.specs.Ends.{opened_table, opened_words};
ghost use Rattle.protocol.specs.State.{Node as ProtocolNode};
ghost use Rattle.node_core.specs.Core.{Stands};
ghost use Rattle.locked_node.specs.Locked.{count_of};

use super::{core_of, ring_of};
use locked_node::{LockedNode, words_for};
use log::Log;
use node_core::NodeCore;
use peer_links::{MemoryClock, MemoryLink, MemoryLinks, Peer, Step, Way, Wire};
use peer_threads::{Ending, serve};
use status_words::{Node, Opened, Status};
use std::alloc::Global;
use std::marker::Brand;
use std::process::Abort;
use std::sync::{Arc, Wait};
use std::thread::Threads;
use std::time::Clock;
use timeouts::Plan;
use vote_journal::MemoryStore;

/// After how many turns in which nothing came a link fails.
pub(super) const TURNS: u64 = 10_000;

/// The links of one run, and what is sent on each.
#[derive(Drop)]
pub(super) struct Peers {
    alloc: Global,
    links: MemoryLinks,
    wires: Vec<Arc<Wire>>,
}

impl Peers {
    pub(super) fn new(rt: &impl Abort, alloc: Global) -> Peers {
        let links = MemoryLinks::new(alloc, 0).expect(rt, "no memory");
        Peers {
            alloc,
            links: links.among(3, 4),
            wires: Vec::new(alloc),
        }
    }

    /// A new link's wire.
    pub(super) fn wire(&mut self, rt: &impl Abort) -> Arc<Wire> {
        let wire = Arc::new(self.alloc, Wire::new(self.alloc)).expect(rt, "no memory");
        self.wires.push(shared(rt, &wire)).expect(rt, "no memory");
        wire
    }

    /// The half of a link that is read, in pieces of so many bytes at most.
    pub(super) fn half(&self, rt: &impl Abort, wire: &Arc<Wire>, piece: usize) -> MemoryLink {
        self.half_of_turns(rt, wire, piece, TURNS)
    }

    /// The same, which fails after so many turns in which nothing came.
    pub(super) fn half_of_turns(
        &self,
        rt: &impl Abort,
        wire: &Arc<Wire>,
        piece: usize,
        turns: u64,
    ) -> MemoryLink {
        MemoryLink::new(self.alloc, shared(rt, wire), piece, turns)
    }

    /// Adds a link whose half that is read is this one.
    pub(super) fn add(&mut self, rt: &impl Abort, wire: Arc<Wire>, reader: MemoryLink) {
        let peer = Peer {
            reader,
            writer: MemoryLink::new(self.alloc, wire, 1, TURNS),
            name: format!(in self.alloc; "memory").expect(rt, "no memory"),
            way: Way::Accepted,
        };
        self.links.add(peer).expect(rt, "no memory");
    }

    /// Adds a link that brings these steps.
    pub(super) fn add_steps<const N: usize>(
        &mut self,
        rt: &impl Abort,
        wire: Arc<Wire>,
        steps: [Step; N],
    ) {
        let mut half = self.half(rt, &wire, 4_096);
        for step in Vec::from_array(self.alloc, steps).expect(rt, "no memory") {
            add_step(rt, &mut half, step);
        }
        self.add(rt, wire, half);
    }
}

/// The same wire once more.
fn shared(rt: &impl Abort, wire: &Arc<Wire>) -> Arc<Wire> {
    Arc::try_clone(wire).expect(rt, "no memory")
}

/// Adds what a link brings next.
pub(super) fn add_step(rt: &impl Abort, half: &mut MemoryLink, step: Step) {
    half.add(step).expect(rt, "no memory");
}

/// A hold until this frame was sent so often on this wire.
pub(super) fn held(
    rt: &impl Abort,
    alloc: Global,
    wire: &Arc<Wire>,
    frame: &[u8],
    count: usize,
) -> Step {
    Step::Hold {
        wire: shared(rt, wire),
        bytes: frame.to_vec(alloc).expect(rt, "no memory"),
        count,
    }
}

/// How a run ended, where the node then is, and what was sent on each link.
#[derive(Drop)]
pub(super) struct Told {
    pub(super) ending: Ending,
    pub(super) status: Status,
    pub(super) wires: Vec<Arc<Wire>>,
}

/// What a run is made with.
#[derive(Clone, Copy, Debug)]
pub(super) struct Course {
    /// How long a timeout lasts, in milliseconds.
    pub(super) start: u64,
    /// By how much each wait moves the clock.
    pub(super) step: u64,
    pub(super) stop: Option<u64>,
    /// The number of the store's call that fails, 0 for none.
    pub(super) failing: u64,
}

/// No clock moves, and nothing fails.
pub(super) const STILL: Course = Course {
    start: 1_000,
    step: 0,
    stop: None,
    failing: 0,
};

fn serve_peers<J: Node + Send + Sync, R: Abort + Threads + Wait + Clock + Log + Sync>(
    rt: &R,
    alloc: Global,
    node: &LockedNode<MemoryStore, J>,
    peers: Peers,
    course: Course,
) -> Told {
    let Peers { links, wires, .. } = peers;
    let clock = MemoryClock::moving(0, course.step);
    let plan = Plan::new(alloc, course.start, 0).expect(rt, "a plan");
    let ending = serve(rt, alloc, node, links, &clock, plan, course.stop);
    let mut seat = node.seat(rt);
    // A call publishes what stands.
    let _ = node.settle(rt, &mut seat);
    Told {
        ending,
        status: node.status(&mut seat),
        wires,
    }
}

fn named<J: Node + Send + Sync, R: Abort + Threads + Wait + Clock + Log + Sync>(
    rt: &R,
    alloc: Global,
    opened: Opened,
    core: NodeCore<MemoryStore>,
    peers: Peers,
    course: Course,
) -> Told
    requires named { opened_table opened ≡ J.table }
    requires words { opened_words opened ≡ opened_at core.machine.state.height (count_of core) }
    requires stands { (n : ProtocolNode) × Stands n core }
{
    let node = LockedNode::<MemoryStore, J>::new(alloc, opened, core, ring_of(rt, alloc));
    serve_peers(rt, alloc, &node, peers, course)
}

/// Serves the peers by a node that has not begun.
pub(super) fn run<R: Abort + Threads + Wait + Clock + Log + Sync>(
    rt: &R,
    alloc: Global,
    peers: Peers,
    course: Course,
) -> Told {
    let core = core_of(rt, alloc, course.failing);
    let opened = words_for(alloc, &core).expect(rt, "no memory");
    named::<Brand, _>(rt, alloc, opened, core, peers, course)
}

/// How often a frame was sent on a link.
pub(super) fn count<R: Wait>(rt: &R, told: &Told, link: usize, frame: &[u8]) -> usize {
    match told.wires.get(link) {
        Some(wire) => wire.count(rt, frame),
        None => 0,
    }
}

/// What a link was sent.
pub(super) fn sent_on<R: Abort + Wait>(rt: &R, alloc: Global, told: &Told, link: usize) -> Vec<u8> {
    match told.wires.get(link) {
        Some(wire) => wire.bytes(rt).expect(rt, "no memory"),
        None => Vec::new(alloc),
    }
}
