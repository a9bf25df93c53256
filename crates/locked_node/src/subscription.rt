//! A subscriber's end of a ring, and why there is none.

ghost use Rattle.std.specs.Prelude.{ℕ, ◌≡◌, ◌++◌, ◌∷◌, [], IfSome, IfNone};
ghost use Rattle.crossbeam_channel.specs.Fifo.{Held, Learns};
ghost use Rattle.subscriber_ring.specs.Order.{IsInOrder};
ghost use Rattle.subscriber_ring.specs.Rule.{taking, Relayed};
ghost use Rattle.locked_node.specs.Subscribing.{fault_number, of_ring};

use crate::lent::Ahead;
use crossbeam_channel::protocol::Lesson;
use std::alloc::AllocError;
use std::sync::Wait;
use subscriber_ring::{Delivered, Hand, RingFault};
use thiserror::Error;

/// Why there is no ring.
#[derive(Debug, Drop, Error)]
pub enum SubscribeFault {
    /// 1: the first position is above the number of delivered items.
    #[error("the first position lies ahead of the delivered list")]
    FromAhead(Ahead),
    /// 2: a growth was refused memory.
    #[error("out of memory")]
    OutOfMemory,
    /// 3: the capacity is 0 or above 65,536.
    #[error("the capacity is 0 or above 65,536")]
    BadCapacity,
}

impl SubscribeFault {
    /// The number of the cause.
    pub fn number(&self) -> u8
        ensures { result ≡ fault_number self.now }
    {
        match self {
            SubscribeFault::FromAhead(_) => 1,
            SubscribeFault::OutOfMemory => 2,
            SubscribeFault::BadCapacity => 3,
        }
    }
}

impl From<AllocError> for SubscribeFault {
    ghost use Rattle.locked_node.specs.declared.subscription.SubscribeFault.TheVariants.{OutOfMemory};

    ghost from_gives = { λ _ e. e ≡ OutOfMemory };

    fn from(_e: AllocError) -> SubscribeFault {
        SubscribeFault::OutOfMemory
    }
}

impl From<RingFault> for SubscribeFault {
    ghost from_gives = { λ cause e. e ≡ of_ring cause };

    fn from(cause: RingFault) -> SubscribeFault {
        match cause {
            RingFault::BadCapacity => SubscribeFault::BadCapacity,
            RingFault::OutOfMemory => SubscribeFault::OutOfMemory,
        }
    }
}

/// The end at which a subscriber takes delivered items. It belongs to the subscriber's thread.
#[derive(Drop)]
pub struct Subscription {
    pub(crate) ring: subscriber_ring::Subscription,
    pub(crate) place: usize,
}

impl Subscription {
    /// Takes the item that follows those taken. At none nothing is taken: that the ring was then empty at one moment of the
    /// call is a clause of `take_or_learn` alone. It takes no memory, and waits for the node's lock at no time.
    pub fn try_take<R: Wait>(&mut self, rt: &R) -> Option<Delivered>
        ensures some { IfSome result (λ d. self.new.ring ≡ record self.old.ring { taken = self.old.ring.taken ++ d ∷ [] }) }
        ensures none { IfNone result (self.new.ring ≡ self.old.ring) }
        ensures place { self.new.place ≡ self.old.place }
        ensures order { IsInOrder self.new.ring.first self.new.ring.taken }
    {
        self.ring.try_take(rt)
    }

    /// `try_take`, which tells at none what `L` learns of an empty ring: the ring was empty at one
    /// moment of the call.
    pub fn take_or_learn<L: Lesson<Delivered, Hand>, R: Wait>(
        &mut self,
        rt: &R,
    ) -> Option<Delivered>
        requires lesson { (place : ℕ) → Learns Relayed place (taking self.old.ring.first self.old.ring.taken) (L.fact (taking self.old.ring.first self.old.ring.taken)) }
        ensures some { IfSome result (λ d. self.new.ring ≡ record self.old.ring { taken = self.old.ring.taken ++ d ∷ [] }) }
        ensures none { IfNone result ((self.new.ring ≡ self.old.ring) × Held 0 (L.fact (taking self.old.ring.first self.old.ring.taken))) }
        ensures place { self.new.place ≡ self.old.place }
        ensures order { IsInOrder self.new.ring.first self.new.ring.taken }
    {
        self.ring.take_or_learn::<L, R>(rt)
    }
}
