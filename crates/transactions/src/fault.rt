//! Why bytes can't be read, or a thing can't be spelled.

ghost use Rattle.std.specs.Prelude.{◌≡◌};
ghost use Rattle.transactions.specs.declared.fault.Fault.TheVariants.{OutOfMemory};

use std::alloc::{AllocError, AllocFailed};
use thiserror::Error;

/// The first fault in the order of the fields, and its number.
///
/// Where memory runs out, `OutOfMemory` may come in place of what stands behind the first thing that
/// memory is taken for. A fault before that is told, as is each one of a call that takes no memory.
#[derive(Clone, Copy, Debug, Error, PartialEq, Eq)]
pub enum Fault {
    /// 1: the bytes end before the field ends.
    #[error("the bytes end within a field")]
    Truncated = 1,
    /// 2: a count or a length is above its limit, or a value has more than 500,000 bytes.
    #[error("a count, a length or a total is above its limit")]
    TooLong = 2,
    /// 3: another field is outside its range, or bytes stand after the end.
    #[error("a field is outside its range")]
    BadSpelling = 3,
    /// 4: there is no memory for what is read or written.
    #[error("out of memory")]
    OutOfMemory = 4,
    /// 5: the first byte of a message's body names no kind.
    #[error("no such kind of message")]
    BadKind = 5,
}

impl From<AllocError> for Fault {
    ghost from_gives = { λ _ e. e ≡ OutOfMemory };

    fn from(_e: AllocError) -> Fault {
        Fault::OutOfMemory
    }
}

impl<T: Drop> From<AllocFailed<T>> for Fault {
    ghost from_gives = { λ _ e. e ≡ OutOfMemory };

    fn from(_e: AllocFailed<T>) -> Fault {
        Fault::OutOfMemory
    }
}
