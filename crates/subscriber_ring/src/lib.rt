//! A ring from a node's feeder to one subscriber.
//!
//! The feeder stands with the node, under its lock, and offers the items of the delivered list in
//! order. The subscription belongs to another thread, which takes them. Neither end waits for the
//! node's lock: an offer to a full ring is refused, and so is a take from an empty one. Each call
//! may wait for a step of the other end to finish.
//!
//! What was taken followed by what is queued is what was offered, in any schedule of the threads.
//! That a thread gets on is not claimed, nor when the channel tells that its other end is gone.
#![tactic(auto)]

mod delivered;
mod ends;
mod fault;
mod rule;

pub use delivered::Delivered;
pub use ends::{Feeder, MOST_ITEMS, Subscription, ring};
pub use fault::{OfferFault, RingFault};
pub use rule::{Hand, InOrder, Nothing};
