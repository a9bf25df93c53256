//! Offering delivered items to a ring.

ghost use Rattle.std.specs.Prelude.{◌≡◌, ◌<◌, true, IfSome, IfNone, length};
ghost use Rattle.protocol.specs.Values.{fifo};
ghost use Rattle.node_core.specs.Core.{delivered_in};
ghost use Rattle.locked_node.specs.Feeding.{IsFed, AreFed, answered, IsStop, IsOneMore, IsOffered, AreOffered, HasFilled};

use crate::place::{Place, Uncopied, item_of, normal, tx_at};
use messages::Bundle;
use std::alloc::{AllocError, Global};
use std::sync::Wait;
use subscriber_ring::{Delivered, Feeder, OfferFault};

/// Why the offering to a ring stopped.
#[derive(Debug, Drop)]
pub enum Stop {
    /// Nothing was offered yet.
    Unoffered,
    /// The ring answered that it is full.
    Full,
    /// The ring answered that its subscription is gone.
    Gone,
    /// Each delivered item that has a position was offered.
    NoneLeft,
    /// A copy of an item was refused memory.
    OutOfMemory(Uncopied),
}

/// A ring, and how far it was offered the delivered list.
#[derive(Drop)]
pub(crate) struct Fed {
    pub(crate) feeder: Feeder,
    pub(crate) place: Place,
    pub(crate) stopped: Stop,
}

/// Offers the next item, or says why none was.
fn offer_next<R: Wait>(rt: &R, alloc: Global, fed: &mut Fed, decisions: &[Bundle]) -> Option<Stop>
    requires fed { IsFed decisions.now fed.old }
    requires order { fifo (delivered_in decisions.now) ≡ true }
    ensures fed { IsFed decisions.now fed.new }
    ensures more { IfNone result (IsOneMore fed.old fed.new) }
    ensures answered { IfSome result (λ stop. fed.new.feeder ≡ answered stop fed.old.feeder) }
    ensures stop { IfSome result (λ stop. IsStop decisions.now fed.new stop) }
{
    fed.place = normal(decisions, fed.place);
    let position = fed.feeder.next();
    if position == u64::MAX {
        return Some(Stop::NoneLeft);
    }
    let Some(tx) = tx_at(decisions, fed.place) else {
        return Some(Stop::NoneLeft);
    };
    let item = match item_of(alloc, tx) {
        Ok(item) => item,
        Err(cause) => return Some(Stop::OutOfMemory(cause)),
    };
    match fed.feeder.offer(rt, Delivered { position, item }) {
        Ok(()) => {
            fed.place.index += 1;
            None
        }
        Err(OfferFault::Full(_)) => Some(Stop::Full),
        Err(OfferFault::Gone(_)) => Some(Stop::Gone),
    }
}

/// Offers the items that follow those offered, until the ring is full, its subscription is gone, none is
/// left, or a copy is refused memory.
pub(crate) fn feed<R: Wait>(rt: &R, alloc: Global, fed: &mut Fed, decisions: &[Bundle])
    requires fed { IsFed decisions.now fed.old }
    requires order { fifo (delivered_in decisions.now) ≡ true }
    ensures fed { IsFed decisions.now fed.new }
    ensures offered { IsOffered decisions.now fed.old fed.new }
{
    for _ in rt.forever() {
        if let Some(stop) = offer_next(rt, alloc, fed, decisions) {
            fed.stopped = stop;
            break;
        }
    }
}

/// `feed` for all rings.
pub(crate) fn feed_all<R: Wait>(rt: &R, alloc: Global, feeders: &mut Vec<Fed>, decisions: &[Bundle])
    requires fed { AreFed decisions.now feeders.old.items }
    requires order { fifo (delivered_in decisions.now) ≡ true }
    ensures fed { AreFed decisions.now feeders.new.items }
    ensures offered { AreOffered decisions.now (length feeders.old.items) feeders.old.items feeders.new.items }
{
    for fed in feeders.iter_mut() {
        feed(rt, alloc, fed, decisions);
    }
}

/// `feed` for the ring at this place, and how many items it offered.
pub(crate) fn fill_at<R: Wait>(
    rt: &R,
    alloc: Global,
    feeders: &mut Vec<Fed>,
    place: usize,
    decisions: &[Bundle],
) -> Result<u64, AllocError>
    requires place { place < length feeders.old.items }
    requires fed { AreFed decisions.now feeders.old.items }
    requires order { fifo (delivered_in decisions.now) ≡ true }
    ensures fed { AreFed decisions.now feeders.new.items }
    ensures filled { HasFilled decisions.now place feeders.old.items feeders.new.items result }
{
    let fed = &mut feeders[place];
    let before = fed.feeder.next();
    feed(rt, alloc, fed, decisions);
    if matches!(fed.stopped, Stop::OutOfMemory(_)) {
        return Err(AllocError);
    }
    Ok(fed.feeder.next() - before)
}
