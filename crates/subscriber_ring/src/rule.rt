//! The rule of a ring: what was taken followed by what is queued is what was offered.
//!
//! It is the `Protocol` of the ring's channel. Each step of either end is proved to keep it,
//! whatever the other end did before.

ghost use Rattle.std.specs.Prelude.{ℕ};

use crate::delivered::Delivered;
use crossbeam_channel::protocol::{Join, Lesson, Outcome, Protocol, Split};
use std::collections::LinkedList;
use std::marker::{Brand, PhantomData};

/// What an end of a ring may do and knows: the first position, and what it offered or took.
///
/// Only proofs speak of it; no value of it is made.
pub struct Hand {
    pub offers: bool,
    pub takes: bool,
    pub first: u64,
    pub offered: LinkedList<Delivered>,
    pub taken: LinkedList<Delivered>,
}

/// The rule of every ring.
pub struct InOrder;

impl Protocol<Delivered, Hand> for InOrder {
    ghost use Rattle.std.specs.Prelude.{true, []};
    ghost use Rattle.subscriber_ring.specs.Rule.{hand, Relayed};

    ghost holds = { Relayed };

    ghost first = { hand true true 0 [] [] };
}

/// The position of a ring's first item, which the caller picks.
pub trait Start {
    ghost start: { ℕ };
}

impl Start for Brand {
    ghost start = { 0 };
}

/// Parts the two ends of a new ring.
pub struct Parting<S: Start>(PhantomData<S>);

impl<S: Start> Split<Hand> for Parting<S> {
    ghost use Rattle.std.specs.Prelude.{[]};
    ghost use Rattle.subscriber_ring.specs.Rule.{offering, taking};

    ghost left = { λ v. offering S.start [] };

    ghost right = { λ v. taking S.start [] };
}

/// The two ends of one ring come together.
pub struct Meeting;

impl Join<Hand> for Meeting {
    ghost use Rattle.subscriber_ring.specs.Rule.{both_ends, idle};

    ghost both = { both_ends };

    ghost spent = { idle };
}

/// Parts them again.
pub struct PartingAgain;

impl Split<Hand> for PartingAgain {
    ghost use Rattle.subscriber_ring.specs.Rule.{offering, taking};

    ghost left = { λ v. offering v.first v.offered };

    ghost right = { λ v. taking v.first v.taken };
}

/// An offer; `L` says what is learned of a full ring.
pub struct Offers<L>(PhantomData<L>);

impl<L: Lesson<Delivered, Hand>> Outcome<Delivered, Hand> for Offers<L> {
    ghost use Rattle.std.specs.Prelude.{◌≡◌};
    ghost use Rattle.subscriber_ring.specs.Rule.{with_offered};

    ghost then = { λ v d w. w ≡ with_offered v d };
}

impl<L: Lesson<Delivered, Hand>> Lesson<Delivered, Hand> for Offers<L> {
    ghost fact = { L.fact };
}

/// A take; `L` says what is learned of an empty ring.
pub struct Takes<L>(PhantomData<L>);

impl<L: Lesson<Delivered, Hand>> Outcome<Delivered, Hand> for Takes<L> {
    ghost use Rattle.subscriber_ring.specs.Rule.{Took};

    ghost then = { Took };
}

impl<L: Lesson<Delivered, Hand>> Lesson<Delivered, Hand> for Takes<L> {
    ghost fact = { L.fact };
}

/// What is queued is the end of what was offered.
pub struct Queued;

impl Lesson<Delivered, Hand> for Queued {
    ghost use Rattle.subscriber_ring.specs.Rule.{EndsWith};

    ghost fact = { λ v queued. EndsWith v.offered queued };
}

/// What is queued lies between what was taken and what will be offered.
pub struct Between;

impl Lesson<Delivered, Hand> for Between {
    ghost use Rattle.subscriber_ring.specs.Rule.{LiesBetween};

    ghost fact = { LiesBetween };
}

/// Nothing is learned.
pub struct Nothing;

impl Lesson<Delivered, Hand> for Nothing {
    ghost use Rattle.std.specs.Prelude.{⊤};

    ghost fact = { λ v queued. ⊤ };
}
