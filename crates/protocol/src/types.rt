//! The values of the algorithm that code and definitions share.

ghost use Rattle.std.specs.Prelude.{◌≡◌, IfOk};

use messages::Precommit;
use std::alloc::{AllocError, Global};
use transactions::{Duplicate, Id, Named};

/// Where a validator stands in a round, in the order of the round.
#[derive(Clone, Copy, Debug, PartialEq, Eq)]
pub enum Step {
    Propose,
    Prevote,
    Precommit,
}

/// A value, and the round in which it was locked or found valid.
#[derive(Debug, Drop)]
pub struct ValueAt {
    pub round: u32,
    pub value: Named,
}

/// A precommit for an id that arrived, with the tags that it came with.
#[derive(Debug, Drop)]
pub struct Stamp {
    pub round: u32,
    pub id: Id,
    pub signed: Precommit,
}

/// A timeout of a step, a height and a round.
#[derive(Clone, Copy, Debug, PartialEq, Eq)]
pub struct Timeout {
    pub kind: Step,
    pub height: u64,
    pub round: u32,
}

impl Duplicate for ValueAt {
    fn copy(&self, alloc: Global) -> Result<ValueAt, AllocError> {
        Ok(ValueAt {
            round: self.round,
            value: self.value.copy(alloc)?,
        })
    }
}

impl Duplicate for Stamp {
    fn copy(&self, alloc: Global) -> Result<Stamp, AllocError> {
        Ok(Stamp {
            round: self.round,
            id: self.id,
            signed: self.signed.copy(alloc)?,
        })
    }
}
