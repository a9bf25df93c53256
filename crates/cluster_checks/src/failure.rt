//! What a run finds wrong.

use std::alloc::{AllocError, AllocFailed};
use thiserror::Error;
use transactions::Fault;
use world_parties::FaultNumber;

/// What is wrong, and where.
#[derive(Clone, Copy, Debug, Error, PartialEq, Eq)]
pub enum Failure {
    /// Two correct validators delivered different items at one place of their lists.
    #[error("validator {validator} delivers another item at place {place} than one before it (height {height})")]
    Disagreement {
        validator: u16,
        height: u64,
        place: u64,
    },
    /// A client's items aren't in order: a number or a session was left out, came again, or stands behind a close.
    #[error("validator {validator} delivers client {client}'s session {session}, number {number} out of order (height {height})")]
    OutOfOrder {
        validator: u16,
        height: u64,
        client: u16,
        session: u32,
        number: u64,
    },
    /// A correct client never sent this, or something else before it.
    #[error("validator {validator} delivers client {client}'s session {session}, number {number}, which it didn't send next (height {height})")]
    NotSent {
        validator: u16,
        height: u64,
        client: u16,
        session: u32,
        number: u64,
    },
    /// A correct validator said two things in one step.
    #[error("validator {validator} says two things at height {height}, round {round}, as a {kind}")]
    SaidTwice {
        validator: u16,
        height: u64,
        round: u32,
        kind: &'static str,
    },
    /// A frame left a correct validator whose message isn't in its journal.
    #[error("validator {validator} says what it hasn't saved at height {height}, round {round}, as a {kind}")]
    NotSaved {
        validator: u16,
        height: u64,
        round: u32,
        kind: &'static str,
    },
    /// A validator that came back has fewer items than before.
    #[error("validator {validator} comes back at height {height}, and was at height {before}")]
    CameBackBehind {
        validator: u16,
        height: u64,
        before: u64,
    },
    /// The journal of a validator isn't one.
    #[error("validator {validator}'s journal is no journal")]
    BadJournal {
        validator: u16,
    },
    /// A journal lost records that were synced.
    #[error("validator {validator}'s journal lost what was synced")]
    JournalShrank {
        validator: u16,
    },
    /// An accepted transaction isn't delivered in time.
    #[error("validator {validator} lacks client {client}'s session {session}, number {number}, accepted {waited} ms ago by validator {by}")]
    NotDelivered {
        validator: u16,
        client: u16,
        session: u32,
        number: u64,
        by: u16,
        waited: u64,
    },
    /// Heights stay apart.
    #[error("validator {validator} is at height {height}, and another one at height {highest}")]
    HeightsApart {
        validator: u16,
        height: u64,
        highest: u64,
    },
    /// A frame that came before its height wasn't handed in when that came.
    #[error("validator {validator} forgets a {kind} that came too early on link {link} (height {height})")]
    EarlyFrameLost {
        validator: u16,
        link: u32,
        height: u64,
        kind: &'static str,
    },
    /// A validator dialed a link and said nothing on it, though it has said something at its height.
    #[error("validator {validator} dials link {link} and doesn't say on it what it said (height {height})")]
    NotGreeted {
        validator: u16,
        link: u32,
        height: u64,
    },
    /// A validator replied on another link than the one on which it was asked.
    #[error("validator {validator} replies on link {link}, on which nothing came")]
    ReplyAstray {
        validator: u16,
        link: u32,
    },
    /// A validator's edge wants to be woken later than at its next tick.
    #[error("validator {validator} wants to sleep for {pause} ms")]
    SleepsLong {
        validator: u16,
        pause: u64,
    },
    /// A validator proposed at a height that was over, and the next one too.
    #[error("validator {validator} proposes at height {over}, round {round}, and is at height {height}")]
    ProposalOutdated {
        validator: u16,
        over: u64,
        round: u32,
        height: u64,
    },
    /// A validator stays in a round though more than a third of the power is in a later one.
    #[error("validator {validator} stays in round {round}, and more than a third are in round {later} (height {height})")]
    RoundNotSkipped {
        validator: u16,
        height: u64,
        round: u32,
        later: u32,
    },
    /// More than half of what was accepted in calm took long to be delivered everywhere.
    #[error("of {looked_at} transactions that were accepted in calm {late} took more than {most} ms to be delivered everywhere")]
    Slow {
        looked_at: u64,
        late: u64,
        most: u64,
    },
    /// A correct validator doesn't run, long after faults ceased.
    #[error("validator {validator} doesn't run")]
    NotRunning {
        validator: u16,
    },
    /// A validator's edge always has something to do.
    #[error("validator {validator} has no end of duties")]
    EndlessDuties {
        validator: u16,
    },
    /// The settings are those of no run.
    #[error("there is no such run")]
    Usage,
    /// The simulator itself has no memory left.
    #[error("out of memory")]
    OutOfMemory,
}

impl From<AllocError> for Failure {
    fn from(_e: AllocError) -> Failure {
        Failure::OutOfMemory
    }
}

impl<T: Drop> From<AllocFailed<T>> for Failure {
    fn from(_e: AllocFailed<T>) -> Failure {
        Failure::OutOfMemory
    }
}

impl From<Fault> for Failure {
    fn from(fault: Fault) -> Failure {
        match fault {
            Fault::OutOfMemory => Failure::OutOfMemory,
            _ => Failure::Usage,
        }
    }
}

impl From<FaultNumber> for Failure {
    fn from(fault: FaultNumber) -> Failure {
        match fault {
            FaultNumber::OutOfMemory => Failure::OutOfMemory,
            _ => Failure::Usage,
        }
    }
}

/// What is wrong, and at which event.
#[derive(Clone, Copy, Debug, Error, PartialEq, Eq)]
#[error("at event {event}, {at} ms: {failure}")]
pub struct Failed {
    pub failure: Failure,
    /// The number of the event, from 1.
    pub event: u64,
    /// The virtual time, in milliseconds.
    pub at: u64,
}
