//! A round in each of its steps (`step_p` of algorithm 1 of arXiv 1807.04938). A vote spends the step that allows it, so there is one in each.

ghost use Rattle.std.specs.Prelude.{◌≡◌, ◌<◌, true};
ghost use Rattle.round_states.specs.Seen.{IsOf, stage_begun, stage_round, stage_step};

use crate::said::Said;
use vote_journal::Saved;

/// The step that waits for a proposal.
#[derive(Drop)]
pub(crate) struct Propose;

/// The step after the own prevote.
#[derive(Drop)]
pub(crate) struct Prevote;

/// The step after the own precommit.
#[derive(Drop)]
pub(crate) struct Precommit;

/// A round of a height at a validator, in the step S.
#[derive(Drop)]
pub(crate) struct Round<S> {
    validator: u16,
    height: u64,
    number: u32,
    step: S,
}

impl Round<Propose> {
    /// A round that begins.
    pub(crate) fn new(validator: u16, height: u64, number: u32) -> Round<Propose>
        ensures { result ≡ record { validator = validator; height = height; number = number; step = record {} } }
    {
        Round {
            validator,
            height,
            number,
            step: Propose,
        }
    }

    /// The proposal that begins this round.
    pub(crate) fn propose(&self, saved: Saved) -> Said
        ensures { result ≡ record { sender = self.now.validator; entry = saved } }
    {
        Said::of(self.validator, saved)
    }

    /// The one prevote of this round.
    pub(crate) fn prevote(self, saved: Saved) -> (Round<Prevote>, Said)
        ensures round { (result.0.validator ≡ self.validator) × (result.0.height ≡ self.height) × (result.0.number ≡ self.number) }
        ensures said { result.1 ≡ record { sender = self.validator; entry = saved } }
    {
        let said = Said::of(self.validator, saved);
        (self.into_step(Prevote), said)
    }
}

impl Round<Prevote> {
    /// The one precommit of this round.
    pub(crate) fn precommit(self, saved: Saved) -> (Round<Precommit>, Said)
        ensures round { (result.0.validator ≡ self.validator) × (result.0.height ≡ self.height) × (result.0.number ≡ self.number) }
        ensures said { result.1 ≡ record { sender = self.validator; entry = saved } }
    {
        let said = Said::of(self.validator, saved);
        (self.into_step(Precommit), said)
    }
}

impl<S: Drop> Round<S> {
    /// The number of the round.
    pub(crate) fn number(&self) -> u32
        ensures { result ≡ self.now.number }
    {
        self.number
    }

    /// A later round of the same height.
    pub(crate) fn next(self, number: u32) -> Round<Propose>
        requires { self.number < number }
        ensures { (result.validator ≡ self.validator) × (result.height ≡ self.height) × (result.number ≡ number) }
    {
        let Round {
            validator,
            height,
            number: _,
            step: _,
        } = self;
        Round {
            validator,
            height,
            number,
            step: Propose,
        }
    }

    fn into_step<T>(self, step: T) -> Round<T>
        ensures { (result.validator ≡ self.validator) × (result.height ≡ self.height) × (result.number ≡ self.number) }
    {
        let Round {
            validator,
            height,
            number,
            step: _,
        } = self;
        Round {
            validator,
            height,
            number,
            step,
        }
    }
}

/// Where a height stands: no round has begun, or the present one is in one of its steps.
#[derive(Drop)]
pub(crate) enum Stage {
    Before,
    Propose(Round<Propose>),
    Prevote(Round<Prevote>),
    Precommit(Round<Precommit>),
}

impl Stage {
    /// The next round of this validator and height, in its first step: a later one than the present.
    pub(crate) fn next(self, validator: u16, height: u64, number: u32) -> Round<Propose>
        requires of { IsOf validator height self }
        requires later { stage_begun self ≡ true → stage_round self < number }
        ensures { (result.validator ≡ validator) × (result.height ≡ height) × (result.number ≡ number) }
    {
        match self {
            Stage::Before => Round::new(validator, height, number),
            Stage::Propose(round) => round.next(number),
            Stage::Prevote(round) => round.next(number),
            Stage::Precommit(round) => round.next(number),
        }
    }

    /// The decision of the height, which ends it.
    pub(crate) fn decide(self, validator: u16, saved: Saved) -> Said
        ensures { result ≡ record { sender = validator; entry = saved } }
    {
        Said::of(validator, saved)
    }

    /// Where a validator stands that comes back: the step of what it said last, as its journal tells. It is the one way to
    /// a step that no vote was spent for.
    pub(crate) fn read_back(validator: u16, height: u64, number: u32, step: protocol::Step) -> Stage
        ensures of { IsOf validator height result }
        ensures stands { (stage_begun result ≡ true) × (stage_round result ≡ number) × (stage_step result ≡ step) }
    {
        match step {
            protocol::Step::Propose => Stage::Propose(Round {
                validator,
                height,
                number,
                step: Propose,
            }),
            protocol::Step::Prevote => Stage::Prevote(Round {
                validator,
                height,
                number,
                step: Prevote,
            }),
            protocol::Step::Precommit => Stage::Precommit(Round {
                validator,
                height,
                number,
                step: Precommit,
            }),
        }
    }

    /// The same stage, for a copy of the whole state. The copy of a state may vote where the state may: whoever
    /// makes one lets only one of the two vote.
    pub(crate) fn copy(&self) -> Stage
        ensures { result ≡ self.now }
    {
        match self {
            Stage::Before => Stage::Before,
            Stage::Propose(round) => Stage::Propose(Round {
                validator: round.validator,
                height: round.height,
                number: round.number,
                step: Propose,
            }),
            Stage::Prevote(round) => Stage::Prevote(Round {
                validator: round.validator,
                height: round.height,
                number: round.number,
                step: Prevote,
            }),
            Stage::Precommit(round) => Stage::Precommit(Round {
                validator: round.validator,
                height: round.height,
                number: round.number,
                step: Precommit,
            }),
        }
    }
}
