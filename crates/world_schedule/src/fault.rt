//! Why a run ends early.

use crate::report::Told;
use thiserror::Error;
use transactions::Seq;
use world_parties::FaultNumber;

/// An event that can't happen ends its run. The events before it stand, and what was told of them is told here.
#[derive(Debug, Drop, Error)]
#[error("event {event}: fault {}", *.number as u8)]
pub struct RunFault {
    /// The event, from 1 on; 0 where the world couldn't be opened.
    pub event: u64,
    pub number: FaultNumber,
    pub told: Seq<Told>,
}
