//! Why a frame is not kept.

ghost use Rattle.std.specs.Prelude.{◌≡◌};

use std::alloc::AllocFailed;
use thiserror::Error;

/// Why an early frame is not kept.
#[derive(Clone, Copy, Debug, Error, PartialEq, Eq)]
pub enum KeepFault {
    /// Behind the link's kept frames of its height and of lower ones it has no room.
    #[error("the link has no room for the frame")]
    LinkFull,
    /// The link has none yet, and as many others have as may.
    #[error("too many links have early frames")]
    TooManyLinks,
    /// A growth was refused memory. The same frame may come again.
    #[error("out of memory")]
    OutOfMemory,
}

impl<T: Drop> From<AllocFailed<T>> for KeepFault {
    ghost use Rattle.edge_frames.specs.declared.fault.KeepFault.TheVariants.{OutOfMemory};

    ghost from_gives = { λ _ e. e ≡ OutOfMemory };

    fn from(_e: AllocFailed<T>) -> KeepFault {
        KeepFault::OutOfMemory
    }
}

/// Why a frame is not kept to be passed on.
#[derive(Clone, Copy, Debug, Error, PartialEq, Eq)]
pub enum PassFault {
    /// As much is kept of the sender as may.
    #[error("the sender has no room for the frame")]
    SenderFull,
    /// The sender is above 127, and so no validator.
    #[error("no validator has the sender's number")]
    UnknownSender,
    /// A growth was refused memory. The same frame may come again.
    #[error("out of memory")]
    OutOfMemory,
}

impl<T: Drop> From<AllocFailed<T>> for PassFault {
    ghost use Rattle.edge_frames.specs.declared.fault.PassFault.TheVariants.{OutOfMemory};

    ghost from_gives = { λ _ e. e ≡ OutOfMemory };

    fn from(_e: AllocFailed<T>) -> PassFault {
        PassFault::OutOfMemory
    }
}
