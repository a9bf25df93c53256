//! Why a journal can't be opened, or a record can't be saved.

ghost use Rattle.std.specs.Prelude.{◌≡◌};
ghost use Rattle.vote_journal.specs.declared.fault.JournalFault.TheVariants.{OutOfMemory};

use std::alloc::AllocError;
use thiserror::Error;

/// Why a journal can't be opened, or a record can't be saved.
#[derive(Clone, Copy, Debug, Error, PartialEq, Eq)]
pub enum JournalFault {
    /// 1: a call of the store failed for its device.
    #[error("the store failed")]
    Failed = 1,
    /// 2: there is no memory; nothing was appended.
    #[error("out of memory")]
    OutOfMemory = 2,
    /// 3: the bytes are no journal of this validator, cut short or not. It comes in opening alone.
    #[error("the bytes are no journal of this validator")]
    BadRecord = 3,
}

impl From<AllocError> for JournalFault {
    ghost from_gives = { λ _ e. e ≡ OutOfMemory };

    fn from(_e: AllocError) -> JournalFault {
        JournalFault::OutOfMemory
    }
}
