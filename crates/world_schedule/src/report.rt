//! What is told of a run.

use messages::Body;
use transactions::{Id, Item, Seq};

/// What was told at each event, in order, and how the correct validators end.
#[derive(Debug, Drop)]
pub struct Report {
    pub told: Seq<Told>,
    /// One for each correct validator, in order of number.
    pub ends: Seq<End>,
}

/// One thing that is told.
#[derive(Debug, Drop)]
pub struct Told {
    /// The event, from 1 on in each run; 0 is the opening of the validators.
    pub event: u64,
    /// None where a client is told of.
    pub validator: Option<u16>,
    pub what: What,
}

/// What is told of a call: its answer first, then what its validator decided, then what it released.
#[derive(Debug, Drop)]
pub enum What {
    Answered(Answer),
    Decided(Decision),
    Released(Release),
}

/// The answer of a call.
#[derive(Clone, Copy, Debug, PartialEq, Eq)]
pub struct Answer {
    /// The number of the refusal, or 0 where all went well.
    pub number: u8,
    /// The number of what refused a transaction or a bundle, else 0.
    pub inner: u8,
}

/// A decision.
#[derive(Clone, Copy, Debug, PartialEq, Eq)]
pub struct Decision {
    pub height: u64,
    /// The round in which its quorum precommitted.
    pub round: u32,
    /// The id of its value.
    pub id: Id,
}

/// A body that was released for the first time.
#[derive(Debug, Drop)]
pub struct Release {
    /// The number of the message, from 0 on over the whole of a world's runs.
    pub number: u64,
    pub body: Body,
}

/// How a validator ends.
#[derive(Debug, Drop)]
pub struct End {
    pub validator: u16,
    pub height: u64,
    /// 0 where none has begun.
    pub round: u32,
    pub delivered: Seq<Item>,
}
