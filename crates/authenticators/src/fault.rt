//! Why a key file gives no ring.

ghost use Rattle.std.specs.Prelude.{◌≡◌};
ghost use Rattle.authenticators.specs.declared.fault.KeysFault.TheVariants.{OutOfMemory};

use std::alloc::{AllocError, AllocFailed};
use thiserror::Error;

/// The first fault of a key file, by its lines in turn, or that it can't be kept.
#[derive(Clone, Copy, Debug, PartialEq, Eq, Error)]
pub enum KeysFault {
    /// A line has another form, or isn't about the ring's party, or names a number out of range.
    #[error("a line is no key line of this party")]
    BadLine = 1,
    /// At the end, the key of the party with some validator is absent.
    #[error("a key is missing")]
    Missing = 2,
    /// An earlier line has the same sender and receiver.
    #[error("a key comes twice")]
    Repeated = 3,
    /// No memory is left.
    #[error("out of memory")]
    OutOfMemory = 4,
}

impl From<AllocError> for KeysFault {
    ghost from_gives = { λ _ fault. fault ≡ OutOfMemory };

    fn from(_error: AllocError) -> KeysFault {
        KeysFault::OutOfMemory
    }
}

impl<T: Drop> From<AllocFailed<T>> for KeysFault {
    ghost from_gives = { λ _ fault. fault ≡ OutOfMemory };

    fn from(_error: AllocFailed<T>) -> KeysFault {
        KeysFault::OutOfMemory
    }
}
