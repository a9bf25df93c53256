//! A lane.

ghost use Rattle.std.specs.Prelude.{◌≡◌, ◌≢◌, ◌<◌, ◌+◌, ◌-◌, ◌^◌, Some, min, max};

use std::fmt;

/// Whose a lane is.
#[derive(Clone, Copy, Debug, PartialEq, Eq)]
pub(crate) enum Party {
    Validator(usize),
    Client(u16),
}

impl fmt::Display for Party {
    fn fmt<W: fmt::Write>(&self, f: &mut fmt::Formatter<W>) -> fmt::Result {
        match self {
            Party::Validator(number) => write!(f, "v{number}"),
            Party::Client(number) => write!(f, "c{number}"),
        }
    }
}

/// A lane, and how much of the latest row on it is taken.
#[derive(Clone, Copy, Debug)]
pub(crate) struct Lane {
    pub(crate) party: Party,
    pub(crate) lies: bool,
    /// The latest row with anything on this lane, and how many of its slots are taken.
    latest: Option<usize>,
    taken: usize,
}

impl Lane {
    /// Makes a correct party's lane with nothing on it.
    pub(crate) fn new(party: Party) -> Lane {
        Lane {
            party,
            lies: false,
            latest: None,
            taken: 0,
        }
    }

    /// Goes on to a row, in which nothing is taken yet unless it is the latest.
    fn enter(&mut self, row: usize)
        ensures again { self.old.latest ≡ Some row → self.new.taken ≡ self.old.taken }
        ensures anew { self.old.latest ≢ Some row → self.new.taken ≡ 0 }
        ensures rest { self.new ≡ record self.old { latest = Some row; taken = self.new.taken } }
    {
        if self.latest != Some(row) {
            self.latest = Some(row);
            self.taken = 0;
        }
    }

    /// Takes the next slot of a row: no other has it.
    pub(crate) fn take_slot(&mut self, row: usize) -> usize
        ensures next { self.old.latest ≡ Some row → result ≡ self.old.taken }
        ensures first { self.old.latest ≢ Some row → result ≡ 0 }
        ensures rest { self.new ≡ record self.old { latest = Some row; taken = min (result + 1) (2 ^ 64 - 1) } }
    {
        self.enter(row);
        let slot = self.taken;
        self.taken = slot.saturating_add(1);
        slot
    }

    /// Takes the first slot of a row, which all messages share that come there.
    pub(crate) fn share_slot(&mut self, row: usize) -> usize
        ensures first { result ≡ 0 }
        ensures again { self.old.latest ≡ Some row → self.new.taken ≡ max self.old.taken 1 }
        ensures anew { self.old.latest ≢ Some row → self.new.taken ≡ 1 }
        ensures rest { self.new ≡ record self.old { latest = Some row; taken = self.new.taken } }
    {
        self.enter(row);
        self.taken = self.taken.max(1);
        0
    }
}
