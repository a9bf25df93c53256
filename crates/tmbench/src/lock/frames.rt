//! The frames that are handed in: each client's next transactions.

use crate::fault::BenchFault;
use crate::framing::{framed, tx};
use messages::Body;
use std::alloc::Global;

/// How many clients there are.
pub(crate) const CLIENTS: u16 = 64;

/// How many transactions of each client come: as many as may wait.
pub(crate) const OF_EACH: u16 = 64;

/// The clients' frames: those of one client, in order of their numbers, after those of another.
pub(crate) fn frames(alloc: Global) -> Result<Vec<Vec<u8>>, BenchFault> {
    let mut frames = Vec::new(alloc);
    for place in 0..CLIENTS * OF_EACH {
        let number = u64::from(place % OF_EACH) + 1;
        let tx = tx(alloc, place / OF_EACH, number)?;
        frames.push(framed(alloc, &Body::Tx(tx))?.bytes)?;
    }
    Ok(frames)
}
