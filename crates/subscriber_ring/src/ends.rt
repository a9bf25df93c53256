//! The two ends of a ring.

ghost use Rattle.std.specs.Prelude.{ℕ, ◌≡◌, ◌+◌, ◌≤◌, ◌<◌, ◌^◌, true, false, [], ◌∷◌, ◌++◌, length, cond, IfOk, IfErr, IfSome, IfNone, MatchResult};
ghost use Rattle.crossbeam_channel.specs.Fifo.{Held, Learns};
ghost use Rattle.protocol.specs.Values.{fifo};
ghost use Rattle.subscriber_ring.specs.Order.{items_of, IsInOrder};
ghost use Rattle.subscriber_ring.specs.Rule.{offering, taking, BeginsWith, Relayed};
ghost use Rattle.subscriber_ring.specs.Ends.{given_back, is_capacity, refused_by, IsFullRing};

use crate::delivered::Delivered;
use crate::fault::{OfferFault, RingFault};
use crate::rule::{
    Between, Hand, InOrder, Meeting, Nothing, Offers, Parting, PartingAgain, Queued, Start, Takes,
};
use crossbeam_channel::protocol::Lesson;
use crossbeam_channel::{Pass, RuledReceiver, RuledSender, TrySendError, bounded_with};
use std::alloc::{AllocError, Global};
use std::marker::{Brand, Model};
use std::sync::Wait;

/// The greatest capacity of a ring, in items.
pub const MOST_ITEMS: usize = 65_536;

/// The end at which items are offered. It stands with the node, under its lock.
#[derive(Drop)]
pub struct Feeder {
    first: u64,
    offered: u64,
    capacity: usize,
    times_full: u64,
    gone: bool,
    sender: RuledSender<Delivered, Hand, InOrder>,
    pass: Pass<Delivered, Hand>,
}

impl Model for Feeder {
    ghost use Rattle.std.specs.Prelude.{◌≡◌, length};
    ghost use Rattle.crossbeam_channel.specs.Claims.{IsSeatAt};
    ghost use Rattle.crossbeam_channel.specs.Ends.{sends_on, ruled_capacity};
    ghost use Rattle.subscriber_ring.specs.Order.{IsInOrder};
    ghost use Rattle.subscriber_ring.specs.Rule.{offering};
    ghost use Rattle.subscriber_ring.specs.Ends.{Feed, known, name_of};

    ghost Value = { Feed };

    ghost view = { λ a. record { ring = name_of (sends_on a.sender); first = a.first; capacity = a.capacity; offered = (known a.pass).offered; times_full = a.times_full; gone = a.gone } };

    ghost invariant = { λ a. (a.offered ≡ length (known a.pass).offered) × IsSeatAt (sends_on a.sender) a.pass × (ruled_capacity (sends_on a.sender) ≡ a.capacity) × (known a.pass ≡ offering a.first (known a.pass).offered) × IsInOrder a.first (known a.pass).offered };
}

/// The end at which items are taken, in the order in which they were offered. It belongs to the
/// subscriber's thread.
#[derive(Drop)]
pub struct Subscription {
    first: u64,
    taken: u64,
    receiver: RuledReceiver<Delivered, Hand, InOrder>,
    pass: Pass<Delivered, Hand>,
}

impl Model for Subscription {
    ghost use Rattle.std.specs.Prelude.{◌≡◌, length};
    ghost use Rattle.crossbeam_channel.specs.Claims.{IsSeatAt};
    ghost use Rattle.crossbeam_channel.specs.Ends.{receives_on};
    ghost use Rattle.subscriber_ring.specs.Order.{IsInOrder};
    ghost use Rattle.subscriber_ring.specs.Rule.{taking};
    ghost use Rattle.subscriber_ring.specs.Ends.{Taken, known, name_of};

    ghost Value = { Taken };

    ghost view = { λ a. record { ring = name_of (receives_on a.receiver); first = a.first; taken = (known a.pass).taken } };

    ghost invariant = { λ a. (a.taken ≡ length (known a.pass).taken) × IsSeatAt (receives_on a.receiver) a.pass × (known a.pass ≡ taking a.first (known a.pass).taken) × IsInOrder a.first (known a.pass).taken };
}

/// A ring whose first item has this position, and which holds at most so many items at a time:
/// its two ends. The faults are `BadCapacity` (1), for 0 and for more than 65,536 items, and
/// `OutOfMemory` (2).
pub fn ring(alloc: Global, first: u64, capacity: usize) -> Result<(Feeder, Subscription), RingFault>
    ensures feeder { IfOk result (λ ends. ends.0 ≡ record { ring = ends.1.ring; first = first; capacity = capacity; offered = []; times_full = 0; gone = false }) }
    ensures subscription { IfOk result (λ ends. ends.1 ≡ record { ring = ends.0.ring; first = first; taken = [] }) }
    ensures capacity { IfOk result (λ ends. is_capacity capacity ≡ true) }
    ensures fault { IfErr result (λ e. e ≡ cond (is_capacity capacity) RingFault.OutOfMemory RingFault.BadCapacity) }
{
    if capacity == 0 || capacity > MOST_ITEMS {
        return Err(RingFault::BadCapacity);
    }
    Ok(parted::<Brand>(alloc, first, capacity)?)
}

/// The two ends of a new ring, whose first position proofs call `S`.
fn parted<S: Start>(
    alloc: Global,
    first: u64,
    capacity: usize,
) -> Result<(Feeder, Subscription), AllocError>
    requires capacity { 0 < capacity }
    requires first { first ≡ S.start }
    ensures feeder { IfOk result (λ ends. ends.0 ≡ record { ring = ends.1.ring; first = first; capacity = capacity; offered = []; times_full = 0; gone = false }) }
    ensures subscription { IfOk result (λ ends. ends.1 ≡ record { ring = ends.0.ring; first = first; taken = [] }) }
{
    let (sender, receiver, mut pass) = bounded_with::<Delivered, Hand, InOrder, Global>(
        alloc, capacity,
    )?;
    let reader = sender.another::<Parting<S>>(&mut pass);
    let feeder = Feeder {
        first,
        offered: 0,
        capacity,
        times_full: 0,
        gone: false,
        sender,
        pass,
    };
    let subscription = Subscription {
        first,
        taken: 0,
        receiver,
        pass: reader,
    };
    Ok((feeder, subscription))
}

impl Feeder {
    /// The position of the ring's first item.
    pub fn first(&self) -> u64
        ensures { result ≡ self.now.first }
    {
        self.first
    }

    /// The position of the item that is to be offered next.
    pub fn next(&self) -> u64
        ensures { result ≡ self.now.first + length self.now.offered }
    {
        self.offered + self.first
    }

    /// How many items the ring holds at most, from 1 to 65,536.
    pub fn capacity(&self) -> usize
        ensures { result ≡ self.now.capacity }
    {
        self.capacity
    }

    /// How often an offer was answered that the ring is full, modulo 2^64.
    pub fn times_full(&self) -> u64
        ensures { result ≡ self.now.times_full }
    {
        self.times_full
    }

    /// Whether an offer was answered that the subscription is gone.
    pub fn is_gone(&self) -> bool
        ensures { result ≡ self.now.gone }
    {
        self.gone
    }

    /// Offers the item that is next, or gives it back: as `Full`, or as `Gone` where the channel
    /// answers that the subscription is gone. The feeder notes which. It takes no memory, and the lock
    /// of nobody.
    pub fn offer<R: Wait>(&mut self, rt: &R, delivered: Delivered) -> Result<(), OfferFault>
        requires next { delivered.position ≡ self.old.first + length self.old.offered }
        requires last { delivered.position + 1 < 2 ^ 64 }
        requires order { self.old.first ≡ 0 → fifo (items_of (self.old.offered ++ delivered ∷ [])) ≡ true }
        ensures answer { MatchResult result
            (λ _. self.new ≡ record self.old { offered = self.old.offered ++ delivered ∷ [] })
            (λ e. (self.new ≡ refused_by e self.old) × (given_back e ≡ delivered) × (IsFullRing e → self.old.capacity ≤ length self.old.offered)) }
    {
        self.offer_or_learn::<Queued, R>(rt, delivered)
    }

    /// `offer`, which tells at `Full` what `L` learns of a full ring: the ring held as many items as
    /// it can at one moment of the call.
    pub fn offer_or_learn<L: Lesson<Delivered, Hand>, R: Wait>(
        &mut self,
        rt: &R,
        delivered: Delivered,
    ) -> Result<(), OfferFault>
        requires next { delivered.position ≡ self.old.first + length self.old.offered }
        requires last { delivered.position + 1 < 2 ^ 64 }
        requires order { self.old.first ≡ 0 → fifo (items_of (self.old.offered ++ delivered ∷ [])) ≡ true }
        requires lesson { (place : ℕ) → Learns Relayed place (offering self.old.first self.old.offered) (L.fact (offering self.old.first self.old.offered)) }
        ensures answer { MatchResult result
            (λ _. self.new ≡ record self.old { offered = self.old.offered ++ delivered ∷ [] })
            (λ e. (self.new ≡ refused_by e self.old) × (given_back e ≡ delivered) × (IsFullRing e → Held self.old.capacity (L.fact (offering self.old.first self.old.offered)))) }
    {
        match self
            .sender
            .try_send_as::<Offers<L>, R>(rt, &mut self.pass, delivered)
        {
            Ok(()) => {
                self.offered += 1;
                Ok(())
            }
            Err(TrySendError::Full(delivered)) => {
                self.times_full = self.times_full.wrapping_add(1);
                Err(OfferFault::Full(delivered))
            }
            Err(e) => {
                self.gone = true;
                Err(OfferFault::Gone(e.into_inner()))
            }
        }
    }
}

impl Subscription {
    /// The position of the item that is to be taken next.
    pub fn next(&self) -> u64
        ensures next { result ≡ self.now.first + length self.now.taken }
        ensures order { IsInOrder self.now.first self.now.taken }
    {
        self.taken + self.first
    }

    /// Takes the item that follows those taken. At none nothing is taken: that the ring was then empty at one moment of the
    /// call is the channel's, and a clause of `take_or_learn` alone. It takes no memory, and the lock of nobody.
    pub fn try_take<R: Wait>(&mut self, rt: &R) -> Option<Delivered>
        ensures some { IfSome result (λ d. self.new ≡ record self.old { taken = self.old.taken ++ d ∷ [] }) }
        ensures none { IfNone result (self.new ≡ self.old) }
        ensures order { IsInOrder self.new.first self.new.taken }
    {
        self.take_or_learn::<Nothing, R>(rt)
    }

    /// `try_take`, which tells at none what `L` learns of an empty ring: the ring was empty at one
    /// moment of the call.
    pub fn take_or_learn<L: Lesson<Delivered, Hand>, R: Wait>(
        &mut self,
        rt: &R,
    ) -> Option<Delivered>
        requires lesson { (place : ℕ) → Learns Relayed place (taking self.old.first self.old.taken) (L.fact (taking self.old.first self.old.taken)) }
        ensures some { IfSome result (λ d. self.new ≡ record self.old { taken = self.old.taken ++ d ∷ [] }) }
        ensures none { IfNone result ((self.new ≡ self.old) × Held 0 (L.fact (taking self.old.first self.old.taken))) }
        ensures order { IsInOrder self.new.first self.new.taken }
    {
        let delivered = self
            .receiver
            .try_recv_as::<Takes<L>, R>(rt, &mut self.pass)
            .ok()?;
        self.taken += 1;
        Some(delivered)
    }

    /// Lays the ends of one ring side by side, which shows what the ring's rule is: what was taken
    /// followed by what is queued is what was offered. Nothing changes. It is for whoever has both
    /// ends in one thread.
    pub fn beside(self, feeder: &mut Feeder) -> Subscription
        requires one_ring { (self.ring ≡ feeder.old.ring) × (self.first ≡ feeder.old.first) }
        ensures same { (result ≡ self) × (feeder.new ≡ feeder.old) }
        ensures relayed { BeginsWith feeder.old.offered self.taken }
    {
        let Subscription {
            first,
            taken,
            receiver,
            pass,
        } = self;
        feeder.sender.absorb::<Meeting>(&mut feeder.pass, pass);
        feeder.sender.learn_as::<Between>(&mut feeder.pass);
        let pass = feeder.sender.another::<PartingAgain>(&mut feeder.pass);
        Subscription {
            first,
            taken,
            receiver,
            pass,
        }
    }
}
