//! Why there is no ring, and why an item isn't taken into one.

ghost use Rattle.std.specs.Prelude.{◌≡◌};
ghost use Rattle.subscriber_ring.specs.Ends.{given_back};

use crate::delivered::Delivered;
use std::alloc::AllocError;
use thiserror::Error;

/// Why there is no ring.
#[derive(Clone, Copy, Debug, Error, PartialEq, Eq)]
pub enum RingFault {
    /// 1: the capacity is 0 or above 65,536.
    #[error("the capacity is 0 or above 65,536")]
    BadCapacity = 1,
    /// 2: a growth was refused memory.
    #[error("out of memory")]
    OutOfMemory = 2,
}

impl From<AllocError> for RingFault {
    ghost use Rattle.subscriber_ring.specs.declared.fault.RingFault.TheVariants.{OutOfMemory};

    ghost from_gives = { λ _ e. e ≡ OutOfMemory };

    fn from(_e: AllocError) -> RingFault {
        RingFault::OutOfMemory
    }
}

/// Why an item was not taken into a ring, with that item.
#[derive(Debug, Drop, Error)]
pub enum OfferFault {
    /// The ring was full at one moment of the call.
    #[error("the ring is full")]
    Full(Delivered),
    /// The channel answers that the subscription is gone.
    #[error("the subscription is gone")]
    Gone(Delivered),
}

impl OfferFault {
    /// The item that was offered.
    pub fn into_item(self) -> Delivered
        ensures { result ≡ given_back self }
    {
        match self {
            OfferFault::Full(delivered) | OfferFault::Gone(delivered) => delivered,
        }
    }
}
