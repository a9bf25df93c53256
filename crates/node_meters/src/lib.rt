//! What the threads around a node count, for who watches it.
//!
//! Each meter is one word, so nobody waits for another to count or to read. What is read of several meters at once may be of
//! moments that differ a little.
#![tactic(auto)]

mod meters;
mod sample;

pub use meters::{MOST_REFUSALS, Meters};
pub use sample::{Links, Refused, Sample, Syncs, Traffic};
