//! What no contract says: that the calls of both ends get on.

ghost use Rattle.std.specs.Prelude.{◌≡◌, true, [], ◌∷◌};
ghost use Rattle.protocol.specs.Values.{fifo};
ghost use Rattle.subscriber_ring.specs.Order.{items_of};

use super::assert_same;
use std::alloc::{AllocError, Global};
use std::process::Abort;
use std::sync::Wait;
use std::thread;
use std::thread::Threads;
use subscriber_ring::{Delivered, Feeder, OfferFault, RingFault, Subscription, ring};
use transactions::{Data, Item, Op};

/// What came of an offer, with the position of an item that was given back.
#[derive(Clone, Copy, Debug, PartialEq, Eq)]
enum Answer {
    Taken,
    Full(u64),
    Gone(u64),
    OutOfMemory,
    /// The ring begins at 0, or the position is 1,000 or above: such items this test doesn't make.
    NotMade,
}

/// The item of this position: two bytes of client 7.
fn item_at(alloc: Global, position: u64) -> Result<Item, AllocError> {
    Ok(Item {
        client: 7,
        session: 0,
        number: position,
        op: Op::Bytes(Data::from_slice(alloc, b"ab")?),
    })
}

/// Offers the next item.
fn offer_next<R: Wait>(rt: &R, alloc: Global, feeder: &mut Feeder) -> Answer {
    match item_at(alloc, feeder.next()) {
        Ok(item) => offer_item(rt, feeder, item),
        Err(_) => Answer::OutOfMemory,
    }
}

/// Offers an item at the next position.
fn offer_item<R: Wait>(rt: &R, feeder: &mut Feeder, item: Item) -> Answer {
    let position = feeder.next();
    if feeder.first() == 0 || position >= 1000 {
        return Answer::NotMade;
    }
    match feeder.offer(rt, Delivered { position, item }) {
        Ok(()) => Answer::Taken,
        Err(OfferFault::Full(back)) => Answer::Full(back.position),
        Err(gone) => Answer::Gone(gone.into_item().position),
    }
}

/// The position of the item that is taken, where its number is right.
fn take_next<R: Wait>(rt: &R, subscription: &mut Subscription) -> Option<u64> {
    let delivered = subscription.try_take(rt)?;
    if delivered.item.number == delivered.position {
        Some(delivered.position)
    } else {
        None
    }
}

/// The faults of rings of these capacities.
fn fault_of(alloc: Global, capacity: usize) -> Option<RingFault> {
    ring(alloc, 0, capacity).err()
}

/// Fills and empties a ring of two places from position 5 on.
fn assert_in_turn<R: Wait + Abort>(
    rt: &R,
    alloc: Global,
    feeder: &mut Feeder,
    subscription: &mut Subscription,
) {
    assert_same(rt, &take_next(rt, subscription), &None);
    assert_same(rt, &offer_next(rt, alloc, feeder), &Answer::Taken);
    assert_same(rt, &offer_next(rt, alloc, feeder), &Answer::Taken);
    assert_same(rt, &offer_next(rt, alloc, feeder), &Answer::Full(7));
    assert_same(rt, &take_next(rt, subscription), &Some(5));
    assert_same(rt, &offer_next(rt, alloc, feeder), &Answer::Taken);
    assert_same(rt, &take_next(rt, subscription), &Some(6));
    assert_same(rt, &take_next(rt, subscription), &Some(7));
    assert_same(rt, &take_next(rt, subscription), &None);
}

#[test]
fn items_come_in_order(rt: HostRuntime) {
    let (mut feeder, subscription) = ring(rt.alloc(), 5, 2).expect(&rt, "no ring");
    let mut subscription = subscription.beside(&mut feeder);
    assert_in_turn(&rt, rt.alloc(), &mut feeder, &mut subscription);
    assert_same(&rt, &feeder.first(), &5);
    assert_same(&rt, &feeder.next(), &8);
    assert_same(&rt, &feeder.capacity(), &2);
    assert_same(&rt, &subscription.next(), &8);
}

/// The first item of client 7, which closes.
#[tactic(auto, unfolding(protocol::specs::Values::fifo))]
fn first_item() -> Delivered
    ensures place { result.position ≡ 0 }
    ensures order { fifo (items_of (result ∷ [])) ≡ true }
{
    let item = Item {
        client: 7,
        session: 0,
        number: 1,
        op: Op::Close,
    };
    Delivered { position: 0, item }
}

/// Client 7's close of this session.
fn close_of(session: u32) -> Item {
    Item {
        client: 7,
        session,
        number: 1,
        op: Op::Close,
    }
}

/// The next item that comes, with its position.
fn assert_comes<R: Wait + Abort>(rt: &R, subscription: &mut Subscription, wanted: &Delivered) {
    let delivered = subscription.try_take(rt).expect(rt, "no item waits");
    assert_same(rt, &delivered, wanted);
}

#[test]
fn items_of_many_sessions(rt: HostRuntime) {
    let (mut feeder, mut subscription) = ring(rt.alloc(), 5, 3).expect(&rt, "no ring");
    for session in [0, 1, u32::MAX] {
        let answer = offer_item(&rt, &mut feeder, close_of(session));
        assert_same(&rt, &answer, &Answer::Taken);
    }
    for (position, session) in [(5, 0), (6, 1), (7, u32::MAX)] {
        let item = close_of(session);
        assert_comes(&rt, &mut subscription, &Delivered { position, item });
    }
}

#[test]
fn the_first_item_of_all(rt: HostRuntime) {
    let (mut feeder, mut subscription) = ring(rt.alloc(), 0, 1).expect(&rt, "no ring");
    assert!(rt; feeder.offer(&rt, first_item()).is_ok());
    assert_comes(&rt, &mut subscription, &first_item());
}

#[test]
fn capacities(rt: HostRuntime) {
    assert_same(&rt, &fault_of(rt.alloc(), 0), &Some(RingFault::BadCapacity));
    assert_same(
        &rt,
        &fault_of(rt.alloc(), 65_537),
        &Some(RingFault::BadCapacity),
    );
    assert_same(&rt, &fault_of(rt.alloc(), 65_536), &None);
    assert_same(&rt, &fault_of(rt.alloc(), 1), &None);
}

#[test]
fn numbers_of_faults(rt: HostRuntime) {
    assert_same(&rt, &(RingFault::BadCapacity as u8), &1);
    assert_same(&rt, &(RingFault::OutOfMemory as u8), &2);
}

#[test]
fn an_offer_to_nobody(rt: HostRuntime) {
    let (mut feeder, subscription) = ring(rt.alloc(), 5, 2).expect(&rt, "no ring");
    assert_same(
        &rt,
        &offer_next(&rt, rt.alloc(), &mut feeder),
        &Answer::Taken,
    );
    assert!(rt; !feeder.is_gone());
    drop(subscription);
    assert_same(
        &rt,
        &offer_next(&rt, rt.alloc(), &mut feeder),
        &Answer::Gone(6),
    );
    assert!(rt; feeder.is_gone());
}

#[test]
fn items_outlast_their_feeder(rt: HostRuntime) {
    let (mut feeder, mut subscription) = ring(rt.alloc(), 5, 2).expect(&rt, "no ring");
    assert_same(
        &rt,
        &offer_next(&rt, rt.alloc(), &mut feeder),
        &Answer::Taken,
    );
    drop(feeder);
    assert_same(&rt, &take_next(&rt, &mut subscription), &Some(5));
    assert_same(&rt, &take_next(&rt, &mut subscription), &None);
}

/// Offers so many items, each until it is taken in or can't be; how many were taken in.
fn feed<R: Wait>(rt: &R, alloc: Global, feeder: &mut Feeder, count: u64) -> u64 {
    let mut offered = 0;
    for _ in rt.forever() {
        if offered >= count {
            break;
        }
        match offer_next(rt, alloc, feeder) {
            Answer::Taken => offered += 1,
            Answer::Full(_) => thread::yield_now(),
            _ => break,
        }
    }
    offered
}

/// Takes until so many items came after the first position; how many of them followed the one before.
fn follow<R: Wait>(rt: &R, subscription: &mut Subscription, first: u64, count: u64) -> u64 {
    let mut followed = 0u64;
    for _ in rt.forever() {
        let next = subscription.next();
        if next.saturating_sub(first) >= count {
            break;
        }
        match take_next(rt, subscription) {
            Some(position) if position == next => followed = followed.saturating_add(1),
            Some(_) => {}
            None => thread::yield_now(),
        }
    }
    followed
}

/// So many items, of which the first has position 1, from one thread to another: how many were offered, and how many came in order.
fn relayed<R: Threads + Wait + Sync>(
    rt: &R,
    alloc: Global,
    feeder: &mut Feeder,
    subscription: &mut Subscription,
    count: u64,
) -> (u64, u64) {
    thread::join(
        rt,
        || feed(rt, alloc, feeder, count),
        || follow(rt, subscription, 1, count),
    )
}

/// Offers the next item so many times: how often it was given back because the ring was full.
fn times_full<R: Wait>(rt: &R, alloc: Global, feeder: &mut Feeder, count: u32) -> u32 {
    let mut full = 0u32;
    for _ in 0..count {
        if matches!(offer_next(rt, alloc, feeder), Answer::Full(_)) {
            full = full.saturating_add(1);
        }
    }
    full
}

#[test]
fn a_full_ring_loses_nothing(rt: HostRuntime) {
    let (mut feeder, mut subscription) = ring(rt.alloc(), 1, 8).expect(&rt, "no ring");
    assert_same(&rt, &feed(&rt, rt.alloc(), &mut feeder, 8), &8);
    assert_same(
        &rt,
        &times_full(&rt, rt.alloc(), &mut feeder, 1_000),
        &1_000,
    );
    assert_same(&rt, &feeder.times_full(), &1_000);
    assert_same(&rt, &feeder.next(), &9);
    assert_same(&rt, &follow(&rt, &mut subscription, 1, 8), &8);
    assert_same(&rt, &take_next(&rt, &mut subscription), &None);
}

#[test]
fn two_threads(rt: HostRuntime) {
    let (mut feeder, mut subscription) = ring(rt.alloc(), 1, 8).expect(&rt, "no ring");
    let (offered, followed) = relayed(&rt, rt.alloc(), &mut feeder, &mut subscription, 100);
    assert_same(&rt, &offered, &100);
    assert_same(&rt, &followed, &100);
}
