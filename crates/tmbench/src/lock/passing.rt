//! Items that pass through a ring, from one thread to another.

use crate::fault::BenchFault;
use crate::framing::op;
use std::alloc::Global;
use std::rt::Clock;
use std::sync::Wait;
use std::thread;
use std::thread::Threads;
use std::time::{Duration, Instant};
use subscriber_ring::{Delivered, Feeder, OfferFault, Subscription, ring};
use transactions::Item;

/// How many items the ring holds at most.
const CAPACITY: usize = 1_024;

/// The position of its first item. At a ring from position 0 on the items' order would matter.
const FIRST: u64 = 1;

/// How often a thread tries at most.
const TRIES: u64 = 1_000_000_000;

/// How long it takes so many items, of 64 bytes each, to pass from the thread that offers them to the one that takes them.
pub(crate) fn passing<R: Clock + Threads + Wait + Sync>(
    rt: &R,
    alloc: Global,
    items: u64,
) -> Result<Duration, BenchFault> {
    let Ok((mut feeder, mut subscription)) = ring(alloc, FIRST, CAPACITY) else {
        return Err(BenchFault::OutOfMemory);
    };
    let start = Instant::now(rt)?;
    let passed = pass(rt, alloc, &mut feeder, &mut subscription, items);
    let took = start.elapsed(rt)?;
    match passed {
        (true, true) => Ok(took),
        _ => Err(BenchFault::NoItem),
    }
}

/// Whether so many items were offered, and whether they were taken.
fn pass<R: Threads + Wait + Sync>(
    rt: &R,
    alloc: Global,
    feeder: &mut Feeder,
    subscription: &mut Subscription,
    items: u64,
) -> (bool, bool) {
    thread::join(
        rt,
        || offer(rt, alloc, feeder, items),
        || take(rt, subscription, items),
    )
}

/// Offers so many items: whether they were offered.
fn offer<R: Wait>(rt: &R, alloc: Global, feeder: &mut Feeder, items: u64) -> bool {
    let mut offered = 0;
    for _ in 0..TRIES {
        if offered >= items {
            return true;
        }
        match offer_next(rt, alloc, feeder) {
            Some(true) => offered += 1,
            Some(false) => thread::yield_now(),
            None => return false,
        }
    }
    false
}

/// Whether the next item was offered, and not refused by a full ring. None, where no more can be.
fn offer_next<R: Wait>(rt: &R, alloc: Global, feeder: &mut Feeder) -> Option<bool> {
    let position = feeder.next();
    if feeder.first() == 0 || position == u64::MAX {
        return None;
    }
    let item = Item {
        client: 7,
        session: 0,
        number: position,
        op: op(alloc).ok()?,
    };
    match feeder.offer(rt, Delivered { position, item }) {
        Ok(()) => Some(true),
        Err(OfferFault::Full(_)) => Some(false),
        Err(OfferFault::Gone(_)) => None,
    }
}

/// Takes so many items: whether they came.
fn take<R: Wait>(rt: &R, subscription: &mut Subscription, items: u64) -> bool {
    let mut taken = 0;
    for _ in 0..TRIES {
        if taken >= items {
            return true;
        }
        match subscription.try_take(rt) {
            Some(_) => taken += 1,
            None => thread::yield_now(),
        }
    }
    false
}
