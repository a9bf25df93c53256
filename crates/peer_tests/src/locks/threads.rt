//! Threads that hand in frames, and one that takes what they deliver.

ghost use Rattle.std.specs.Prelude.{◌≡◌};
ghost use Rattle.status_words.specs.Seen.{opened as opened_at};
ghost use Rattle.status_words.specs.Ends.{opened_table, opened_words};
ghost use Rattle.protocol.specs.State.{Node as ProtocolNode};
ghost use Rattle.node_core.specs.Core.{Stands};
ghost use Rattle.locked_node.specs.Locked.{count_of};

use super::frames::bundle;
use super::sharing::subscribe;
use super::{MEMORY, assert_same, core_of, ring_of};
use locked_node::{LockedNode, Subscription, words_for};
use node_core::NodeCore;
use status_words::{Node, Opened, Status};
use std::alloc::{AllocError, Global};
use std::marker::Brand;
use std::process::Abort;
use std::sync::Wait;
use std::thread;
use std::thread::Threads;
use subscriber_ring::Delivered;
use vote_journal::MemoryStore;

/// How often a thread tries at most.
const TURNS: u32 = 1_000_000;

/// Hands in each frame until the node takes it in: whether it took in all.
fn hand_in<J: Node, R: Wait>(
    rt: &R,
    node: &LockedNode<MemoryStore, J>,
    frames: &[Vec<u8>],
) -> bool {
    let mut seat = node.seat(rt);
    let mut next = 0;
    for _ in 0..TURNS {
        let Some(frame) = frames.get(next) else {
            return true;
        };
        if node.handle(rt, &mut seat, frame).answer().is_ok() {
            next += 1;
        } else {
            thread::yield_now();
        }
    }
    false
}

/// Takes items, and has the ring filled where it is empty, until there are so many: whether they came.
fn take<J: Node, R: Wait>(
    rt: &R,
    node: &LockedNode<MemoryStore, J>,
    subscription: &mut Subscription,
    taken: &mut Vec<Delivered>,
    count: usize,
) -> bool {
    for _ in 0..TURNS {
        if taken.len() >= count {
            return true;
        }
        if !take_one(rt, subscription, taken) {
            let _ = node.fill(rt, subscription);
            thread::yield_now();
        }
    }
    false
}

/// Whether an item was there.
fn take_one<R: Wait>(rt: &R, subscription: &mut Subscription, taken: &mut Vec<Delivered>) -> bool {
    match subscription.try_take(rt) {
        Some(delivered) => taken.push(delivered).is_ok(),
        None => false,
    }
}

/// What the two threads tell that hand in frames.
fn hand_in_both<J: Node + Send + Sync, R: Threads + Wait + Sync>(
    rt: &R,
    node: &LockedNode<MemoryStore, J>,
    even: &[Vec<u8>],
    odd: &[Vec<u8>],
) -> (bool, bool) {
    thread::join(rt, || hand_in(rt, node, even), || hand_in(rt, node, odd))
}

/// What the three threads tell.
fn beside<J: Node + Send + Sync, R: Threads + Wait + Sync>(
    rt: &R,
    node: &LockedNode<MemoryStore, J>,
    even: &[Vec<u8>],
    odd: &[Vec<u8>],
    subscription: &mut Subscription,
    taken: &mut Vec<Delivered>,
) -> ((bool, bool), bool) {
    thread::join(
        rt,
        || hand_in_both(rt, node, even, odd),
        || take(rt, node, subscription, taken, 5),
    )
}

/// The bundles of these heights.
fn bundles(rt: &impl Abort, alloc: Global, heights: &[u8]) -> Vec<Vec<u8>> {
    let mut frames = Vec::new(alloc);
    for height in heights {
        assert!(rt; frames.push(bundle(rt, alloc, *height)).is_ok());
    }
    frames
}

/// Five heights, whose bundles two threads hand in by turns, and a ring with room for two.
fn shares<J: Node + Send + Sync, R: Abort + Threads + Wait + Sync>(
    rt: &R,
    alloc: Global,
    node: &LockedNode<MemoryStore, J>,
) {
    let mut seat = node.seat(rt);
    assert_same(rt, &node.settle(rt, &mut seat).answer(), &Ok(()));
    let even = bundles(rt, alloc, &[0, 2, 4]);
    let odd = bundles(rt, alloc, &[1, 3]);
    let mut subscription = subscribe(rt, node, 0);
    let mut taken = Vec::new(alloc);
    let told = beside(rt, node, &even, &odd, &mut subscription, &mut taken);
    assert_same(rt, &told, &((true, true), true));
    assert!(rt; node.meet(rt, &taken).yes());
}

fn with_threads<J: Node + Send + Sync, R: Abort + Threads + Wait + Sync>(
    rt: &R,
    alloc: Global,
    opened: Opened,
    core: NodeCore<MemoryStore>,
)
    requires named { opened_table opened ≡ J.table }
    requires words { opened_words opened ≡ opened_at core.machine.state.height (count_of core) }
    requires stands { (n : ProtocolNode) × Stands n core }
{
    let node = LockedNode::<MemoryStore, J>::new(alloc, opened, core, ring_of(rt, alloc));
    shares(rt, alloc, &node);
}

#[test]
fn what_a_thread_takes_is_met(rt: HostRuntime) {
    let alloc = rt.alloc();
    let core = core_of(&rt, alloc);
    let opened = words_for(alloc, &core).expect(&rt, MEMORY);
    with_threads::<Brand, _>(&rt, alloc, opened, core);
}

/// How many heights eight threads decide, an item each.
const HEIGHTS: usize = 100;

/// Subscribes from the beginning on, and takes an item of each height: whether they came, and are the delivered list's
/// beginning.
fn follows<J: Node, R: Wait>(rt: &R, alloc: Global, node: &LockedNode<MemoryStore, J>) -> bool {
    let Ok(mut subscription) = node.subscribe(rt, 0, 7) else {
        return false;
    };
    let mut taken = Vec::new(alloc);
    let all = take(rt, node, &mut subscription, &mut taken, HEIGHTS);
    all && node.meet(rt, &taken).yes()
}

/// What eight threads tell: a thread for each of these lists hands its frames in, and the others subscribe.
fn eight<J: Node + Send + Sync, R: Threads + Wait + Sync>(
    rt: &R,
    alloc: Global,
    node: &LockedNode<MemoryStore, J>,
    lists: &[Vec<Vec<u8>>],
) -> Result<Vec<bool>, AllocError> {
    thread::map_indices(
        rt,
        alloc,
        8,
        &|place: usize| match lists.get(place) {
            Some(frames) => hand_in(rt, node, frames),
            None => follows(rt, alloc, node),
        },
    )
}

/// The bundles of each fourth height from this one on, 25 of them.
fn each_fourth(rt: &impl Abort, alloc: Global, first: u8) -> Vec<Vec<u8>> {
    let mut frames = Vec::new(alloc);
    for turn in 0..25u8 {
        let height = turn.saturating_mul(4).saturating_add(first);
        assert!(rt; frames.push(bundle(rt, alloc, height)).is_ok());
    }
    frames
}

/// A hundred heights, whose bundles four threads hand in by turns, and four subscribers beside them.
fn shares_among_eight<J: Node + Send + Sync, R: Abort + Threads + Wait + Sync>(
    rt: &R,
    alloc: Global,
    node: &LockedNode<MemoryStore, J>,
) {
    let mut seat = node.seat(rt);
    assert_same(rt, &node.settle(rt, &mut seat).answer(), &Ok(()));
    let lists = vec![in alloc;
        each_fourth(rt, alloc, 0),
        each_fourth(rt, alloc, 1),
        each_fourth(rt, alloc, 2),
        each_fourth(rt, alloc, 3),
    ]
    .expect(rt, MEMORY);
    let told = eight(rt, alloc, node, &lists).expect(rt, MEMORY);
    assert_same(rt, &told.iter().filter(|did| **did).count(), &8);
    let all = Status {
        height: 100,
        delivered: 100,
    };
    assert_same(rt, &node.status(&mut seat), &all);
}

fn with_eight_threads<J: Node + Send + Sync, R: Abort + Threads + Wait + Sync>(
    rt: &R,
    alloc: Global,
    opened: Opened,
    core: NodeCore<MemoryStore>,
)
    requires named { opened_table opened ≡ J.table }
    requires words { opened_words opened ≡ opened_at core.machine.state.height (count_of core) }
    requires stands { (n : ProtocolNode) × Stands n core }
{
    let node = LockedNode::<MemoryStore, J>::new(alloc, opened, core, ring_of(rt, alloc));
    shares_among_eight(rt, alloc, &node);
}

#[test]
fn a_hundred_heights_among_eight_threads(rt: HostRuntime) {
    let alloc = rt.alloc();
    let core = core_of(&rt, alloc);
    let opened = words_for(alloc, &core).expect(&rt, MEMORY);
    with_eight_threads::<Brand, _>(&rt, alloc, opened, core);
}
