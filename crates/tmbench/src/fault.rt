//! Why nothing was measured.

use journal_file::FileFault;
use protocol::Refusal;
use std::alloc::{AllocError, AllocFailed};
use std::io;
use thiserror::Error;
use transactions::Fault;
use vote_journal::{DeviceFailed, JournalFault, StoreFault};

/// Why nothing was measured.
#[derive(Debug, Drop, Error)]
pub(crate) enum BenchFault {
    #[error("{0} is missing; `tmbench --help` prints the usage")]
    Missing(&'static str),
    #[error("`{0}` comes where {1} should; `tmbench --help` prints the usage")]
    Wrong(String, &'static str),
    #[error("out of memory")]
    OutOfMemory,
    #[error("the clock, the words or the memory can't be read")]
    Host(#[from] io::Error),
    #[error("a message or a record has no spelling: {0}")]
    Unspelled(#[from] Fault),
    #[error("the node can't be opened")]
    NoNode,
    #[error("a frame is refused: {0}")]
    Refused(#[from] Refusal),
    #[error("the hashing took no time")]
    NoTime,
    #[error("a frame was refused to a thread")]
    RefusedInThread,
    #[error("an item didn't come")]
    NoItem,
    #[error("the file can't be opened: {0}")]
    File(#[from] FileFault),
    #[error("the journal can't be used: {0}")]
    Journal(#[from] JournalFault),
    #[error("the store can't be used: {0}")]
    Store(#[from] StoreFault),
    #[error("the store can't be synced: {0}")]
    Unsynced(#[from] DeviceFailed),
    #[error("the system doesn't tell what memory is taken")]
    NoMemoryTold,
}

impl From<AllocError> for BenchFault {
    fn from(_e: AllocError) -> BenchFault {
        BenchFault::OutOfMemory
    }
}

impl<T: Drop> From<AllocFailed<T>> for BenchFault {
    fn from(_e: AllocFailed<T>) -> BenchFault {
        BenchFault::OutOfMemory
    }
}
