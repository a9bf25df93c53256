//! What readers and subscribers see.

ghost use Rattle.std.specs.Prelude.{◌≡◌};
ghost use Rattle.status_words.specs.Seen.{opened as opened_at};
ghost use Rattle.status_words.specs.Ends.{opened_table, opened_words};
ghost use Rattle.protocol.specs.State.{Node as ProtocolNode};
ghost use Rattle.node_core.specs.Core.{Stands};
ghost use Rattle.locked_node.specs.Locked.{count_of};

use super::frames::{bundle, close, next_session, own_bodies, proposal, vote};
use super::leaving::Shown;
use super::taking::{assert_first, next_of};
use super::{MEMORY, assert_same, core_of, ring_of};
use locked_node::{Event, LockedNode, SubscribeFault, Subscription, words_for};
use messages::{Step as VoteStep, spell_body};
use node_core::NodeCore;
use protocol::{Step, Timeout};
use status_words::{Node, Opened, Seat, Status};
use std::alloc::Global;
use std::marker::Brand;
use std::process::Abort;
use std::sync::Wait;
use subscriber_ring::{Delivered, Nothing};
use vote_journal::MemoryStore;

const NOTHING: Status = Status {
    height: 0,
    delivered: 0,
};

const ONE: Status = Status {
    height: 1,
    delivered: 1,
};

/// Each call with a first seat answers `Ok`, and a second one, which no call has, sees what was published too.
fn follows<J: Node, R: Abort + Wait>(rt: &R, alloc: Global, node: &LockedNode<MemoryStore, J>) {
    let mut first = node.seat(rt);
    let mut second = node.seat(rt);
    assert_same(rt, &node.status(&mut first), &NOTHING);
    takes(rt, node, &mut first, &proposal(rt, alloc));
    for (step, sender, key) in [
        (VoteStep::Prevote, 0, 0x00),
        (VoteStep::Prevote, 1, 0x11),
        (VoteStep::Precommit, 0, 0x00),
        (VoteStep::Precommit, 1, 0x11),
    ] {
        takes(rt, node, &mut first, &vote(rt, alloc, step, sender, key));
    }
    assert_same(rt, &node.status(&mut first), &ONE);
    assert_same(rt, &node.status(&mut second), &ONE);
    is_at_its_beginning(rt, node);
    releases(rt, alloc, node, &mut first);
}

/// It is in the first step of round 0, and no transaction waits.
fn is_at_its_beginning<J: Node, R: Abort + Wait>(rt: &R, node: &LockedNode<MemoryStore, J>) {
    let gauges = node.gauges(rt);
    assert!(rt; gauges.round == 0 && gauges.step == Step::Propose);
    assert!(rt; gauges.queued == 0);
}

fn takes<J: Node, R: Abort + Wait>(
    rt: &R,
    node: &LockedNode<MemoryStore, J>,
    seat: &mut Seat<J>,
    frame: &[u8],
) {
    assert_same(rt, &node.handle(rt, seat, frame).answer(), &Ok(()));
}

/// A ring that was there before the first call is offered what they deliver.
fn follows_with_a_ring<J: Node, R: Abort + Wait>(
    rt: &R,
    alloc: Global,
    node: &LockedNode<MemoryStore, J>,
) {
    let mut subscription = subscribe(rt, node, 0);
    follows(rt, alloc, node);
    let delivered = next_of(rt, &mut subscription);
    assert_first(rt, &delivered);
}

/// Of a node that decided height 0: two votes, one more after its timeout, which is shown as that call goes on, an ask, and the last vote
/// again.
fn releases<J: Node, R: Abort + Wait>(
    rt: &R,
    alloc: Global,
    node: &LockedNode<MemoryStore, J>,
    seat: &mut Seat<J>,
) {
    assert_same(rt, &node.settle(rt, seat).answer(), &Ok(()));
    let shown = Shown::new(alloc);
    times_out(rt, node, seat, &shown);
    assert_same(rt, &node.ask(rt, seat).answer(), &Ok(()));
    assert_same(rt, &node.resend(rt, seat).answer(), &Ok(()));
    let frames = node.hold(rt).take_released().frames;
    are_own(rt, alloc, &frames);
    assert!(rt; shown.has_one(rt, frames.get(2)));
    assert_same(rt, &node.take_outgoing(rt).len(), &0);
}

/// The proposal of height 1 is due, in a call whose frames are shown.
fn times_out<J: Node, R: Abort + Wait>(
    rt: &R,
    node: &LockedNode<MemoryStore, J>,
    seat: &mut Seat<J>,
    shown: &Shown,
) {
    let due = Timeout {
        kind: Step::Propose,
        height: 1,
        round: 0,
    };
    let done = node.hold(rt).call(rt, shown, seat, Event::Timeout(due));
    assert_same(rt, &done.answer(), &Ok(()));
}

/// The frames are those of what the validator says, in this order.
fn are_own(rt: &impl Abort, alloc: Global, frames: &[Vec<u8>]) {
    assert_same(rt, &frames.len(), &5);
    for (frame, body) in frames.iter().zip(own_bodies(rt, alloc).iter()) {
        let spelled = spell_body(alloc, body).expect(rt, "it has a spelling");
        assert!(rt; frame.len() > 4 && frame[4..].starts_with(&spelled));
    }
}

fn with_status<J: Node, R: Abort + Wait>(
    rt: &R,
    alloc: Global,
    opened: Opened,
    core: NodeCore<MemoryStore>,
)
    requires named { opened_table opened ≡ J.table }
    requires words { opened_words opened ≡ opened_at core.machine.state.height (count_of core) }
    requires stands { (n : ProtocolNode) × Stands n core }
{
    let node = LockedNode::<MemoryStore, J>::new(alloc, opened, core, ring_of(rt, alloc));
    follows_with_a_ring(rt, alloc, &node);
}

#[test]
fn each_seat_sees_what_is_published(rt: HostRuntime) {
    let alloc = rt.alloc();
    let core = core_of(&rt, alloc);
    let opened = words_for(alloc, &core).expect(&rt, MEMORY);
    with_status::<Brand, _>(&rt, alloc, opened, core);
}

/// Five heights are decided, an item each.
fn delivers_five<J: Node, R: Abort + Wait>(
    rt: &R,
    alloc: Global,
    node: &LockedNode<MemoryStore, J>,
) {
    let mut seat = node.seat(rt);
    assert_same(rt, &node.settle(rt, &mut seat).answer(), &Ok(()));
    for height in 0..5u8 {
        takes(rt, node, &mut seat, &bundle(rt, alloc, height));
    }
}

/// The position of the next item, where its number is the next one.
fn taken<R: Wait>(rt: &R, subscription: &mut Subscription) -> Option<u64> {
    let delivered = subscription.try_take(rt)?;
    if delivered.position < 100 && delivered.item.number == delivered.position + 1 {
        Some(delivered.position)
    } else {
        Some(1_000)
    }
}

/// A ring of two from this position on.
pub(super) fn subscribe<J: Node, R: Abort + Wait>(
    rt: &R,
    node: &LockedNode<MemoryStore, J>,
    from: u64,
) -> Subscription {
    node.subscribe(rt, from, 2).expect(rt, "there is a ring")
}

/// The ring is filled with so many items.
fn fills<J: Node, R: Abort + Wait>(
    rt: &R,
    node: &LockedNode<MemoryStore, J>,
    subscription: &Subscription,
    items: u64,
) {
    let filled = node.fill(rt, subscription).expect(rt, MEMORY);
    assert_same(rt, &filled, &items);
}

/// A ring of two that is filled as it is emptied.
fn fills_from_the_beginning<J: Node, R: Abort + Wait>(rt: &R, node: &LockedNode<MemoryStore, J>) {
    let mut subscription = subscribe(rt, node, 0);
    fills(rt, node, &subscription, 2);
    for position in 0..3 {
        assert_same(rt, &taken(rt, &mut subscription), &Some(position));
        fills(rt, node, &subscription, 1);
    }
    assert_same(rt, &taken(rt, &mut subscription), &Some(3));
    let Some(last) = subscription.take_or_learn::<Nothing, R>(rt) else {
        panic!(rt; "an item waits");
    };
    assert_same(rt, &last.position, &4);
    fills(rt, node, &subscription, 0);
    assert!(rt; subscription.take_or_learn::<Nothing, R>(rt).is_none());
}

/// A ring that begins within the list.
fn fills_from_within<J: Node, R: Abort + Wait>(rt: &R, node: &LockedNode<MemoryStore, J>) {
    let mut subscription = subscribe(rt, node, 3);
    fills(rt, node, &subscription, 2);
    let mut two = [
        next_of(rt, &mut subscription),
        next_of(rt, &mut subscription),
    ];
    are_met(rt, node, &mut two);
    assert_same(rt, &taken(rt, &mut subscription), &None);
    fills(rt, node, &subscription, 0);
}

/// The items of positions 3 and 4 are a piece of the delivered list, and with another number or another session for the
/// second they are none.
fn are_met<J: Node, R: Abort + Wait>(
    rt: &R,
    node: &LockedNode<MemoryStore, J>,
    two: &mut [Delivered; 2],
) {
    assert_same(rt, &(two[0].position, two[1].position), &(3, 4));
    assert!(rt; node.meet(rt, &*two).yes());
    assert!(rt; node.meet(rt, &[]).yes());
    assert_same(rt, &two[1].item.number, &5);
    two[1].item.number = 6;
    assert!(rt; !node.meet(rt, &*two).yes());
    two[1].item.number = 5;
    assert_same(rt, &two[1].item.session, &0);
    two[1].item.session = 1;
    assert!(rt; !node.meet(rt, &*two).yes());
}

/// The client's close is decided, and its first item of the next session, which is none of the session before.
fn sees_the_next_session<J: Node, R: Abort + Wait>(
    rt: &R,
    alloc: Global,
    node: &LockedNode<MemoryStore, J>,
) {
    let mut seat = node.seat(rt);
    takes(rt, node, &mut seat, &close(rt, alloc));
    takes(rt, node, &mut seat, &next_session(rt, alloc));
    let mut subscription = subscribe(rt, node, 5);
    fills(rt, node, &subscription, 2);
    let mut two = [
        next_of(rt, &mut subscription),
        next_of(rt, &mut subscription),
    ];
    assert_same(rt, &(two[0].item.session, two[0].item.number), &(0, 6));
    assert_same(rt, &(two[1].item.session, two[1].item.number), &(1, 1));
    assert!(rt; node.meet(rt, &two).yes());
    two[1].item.session = 0;
    assert!(rt; !node.meet(rt, &two).yes());
}

/// Rings at the list's end, behind it, and of no capacity.
fn refuses_rings<J: Node, R: Abort + Wait>(rt: &R, node: &LockedNode<MemoryStore, J>) {
    let subscription = subscribe(rt, node, 5);
    fills(rt, node, &subscription, 0);
    assert_same(rt, &fault_of(rt, node, 6, 0), &Some((1, Some(5))));
    assert_same(rt, &fault_of(rt, node, 0, 0), &Some((3, None)));
    assert_same(rt, &SubscribeFault::OutOfMemory.number(), &2);
}

/// The number of the fault of such a ring, and where it lies ahead how many items were delivered.
fn fault_of<J: Node, R: Wait>(
    rt: &R,
    node: &LockedNode<MemoryStore, J>,
    from: u64,
    capacity: usize,
) -> Option<(u8, Option<u64>)> {
    let fault = node.subscribe(rt, from, capacity).err()?;
    let delivered = match &fault {
        SubscribeFault::FromAhead(ahead) => Some(ahead.delivered()),
        SubscribeFault::OutOfMemory | SubscribeFault::BadCapacity => None,
    };
    Some((fault.number(), delivered))
}

fn with_rings<J: Node, R: Abort + Wait>(
    rt: &R,
    alloc: Global,
    opened: Opened,
    core: NodeCore<MemoryStore>,
)
    requires named { opened_table opened ≡ J.table }
    requires words { opened_words opened ≡ opened_at core.machine.state.height (count_of core) }
    requires stands { (n : ProtocolNode) × Stands n core }
{
    let node = LockedNode::<MemoryStore, J>::new(alloc, opened, core, ring_of(rt, alloc));
    delivers_five(rt, alloc, &node);
    fills_from_the_beginning(rt, &node);
    fills_from_within(rt, &node);
    refuses_rings(rt, &node);
    sees_the_next_session(rt, alloc, &node);
}

#[test]
fn rings_are_filled(rt: HostRuntime) {
    let alloc = rt.alloc();
    let core = core_of(&rt, alloc);
    let opened = words_for(alloc, &core).expect(&rt, MEMORY);
    with_rings::<Brand, _>(&rt, alloc, opened, core);
}
