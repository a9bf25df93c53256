//! Why an event of a world cannot happen.

use std::alloc::{AllocError, AllocFailed};
use thiserror::Error;
use transactions::Fault;

/// Why an event can't happen. Of two causes the one of the smaller number is told.
#[derive(Clone, Copy, Debug, Error, PartialEq, Eq)]
pub enum FaultNumber {
    /// No message has been given this number.
    #[error("no such message")]
    NoSuchMessage = 1,
    /// No such validator or client; a liar where a correct validator is wanted, or the other way.
    #[error("no such party")]
    NoSuchParty = 2,
    /// The client has sent its close.
    #[error("the client has closed")]
    ClientClosed = 3,
    /// What it is about has no encoding: a value or a transaction above a limit, or a field out of its range.
    #[error("it cannot be spelled")]
    TooLong = 4,
    /// A growth was refused memory.
    #[error("out of memory")]
    OutOfMemory = 5,
    /// The client has a session in which it has not sent its close.
    #[error("the client has not closed")]
    NotClosed = 6,
}

impl From<AllocError> for FaultNumber {
    ghost use Rattle.std.specs.Prelude.{◌≡◌};
    ghost use Rattle.world_parties.specs.declared.fault.FaultNumber.TheVariants.{OutOfMemory};

    ghost from_gives = { λ _ e. e ≡ OutOfMemory };

    fn from(_e: AllocError) -> FaultNumber {
        FaultNumber::OutOfMemory
    }
}

impl<T: Drop> From<AllocFailed<T>> for FaultNumber {
    ghost use Rattle.std.specs.Prelude.{◌≡◌};
    ghost use Rattle.world_parties.specs.declared.fault.FaultNumber.TheVariants.{OutOfMemory};

    ghost from_gives = { λ _ e. e ≡ OutOfMemory };

    fn from(_e: AllocFailed<T>) -> FaultNumber {
        FaultNumber::OutOfMemory
    }
}

impl From<Fault> for FaultNumber {
    ghost use Rattle.std.specs.Prelude.{◌≡◌};
    ghost use Rattle.world_parties.specs.Faults.{of_spelling};

    ghost from_gives = { λ fault e. e ≡ of_spelling fault };

    /// What has no spelling is too long, or out of its range.
    fn from(fault: Fault) -> FaultNumber {
        match fault {
            Fault::OutOfMemory => FaultNumber::OutOfMemory,
            _ => FaultNumber::TooLong,
        }
    }
}
