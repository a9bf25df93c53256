//! What meters show.

use crate::meters::MOST_REFUSALS;
use protocol::Step;

/// What went over links.
#[derive(Clone, Copy, Debug, PartialEq, Eq)]
pub struct Traffic {
    pub frames_received: u64,
    pub bytes_received: u64,
    /// How many frames were taken from their links' queues to be written.
    pub frames_sent: u64,
    pub bytes_sent: u64,
    /// How many times a frame had no room in a link's queue.
    pub frames_dropped: u64,
}

/// How many links there are, by who is behind them.
#[derive(Clone, Copy, Debug, PartialEq, Eq)]
pub struct Links {
    pub validators: u64,
    pub clients: u64,
    /// Those on which nobody has shown yet.
    pub strangers: u64,
}

/// What the journal's syncs took.
#[derive(Clone, Copy, Debug, PartialEq, Eq)]
pub struct Syncs {
    pub count: u64,
    pub nanoseconds: u64,
}

/// How many calls of the node were refused with a number.
#[derive(Clone, Copy, Debug, PartialEq, Eq)]
pub struct Refused {
    /// From 1 to 17.
    pub number: usize,
    pub count: u64,
}

/// What the meters of a node show at a moment.
#[derive(Clone, Copy, Debug, PartialEq, Eq)]
pub struct Sample {
    pub round: u32,
    pub step: Step,
    /// How many transactions wait to be proposed.
    pub queued: u64,
    /// How many frames of the height are kept, to be sent again or passed on.
    pub kept: u64,
    pub links: Links,
    pub traffic: Traffic,
    pub syncs: Syncs,
    pub timeouts: u64,
    /// The refusals, in order of their numbers.
    pub refusals: [Refused; MOST_REFUSALS],
    /// When the node moved to its height, in milliseconds of the clock of who counts.
    pub decided: u64,
}
