//! What a file was asked to keep, which only clauses read.

ghost use Rattle.std.specs.Prelude.{◌≡◌, List, [], ◌∷◌};
ghost use Rattle.std.specs.Borrow.{ftrue};
ghost use Rattle.journal_file.specs.Asked.{Event, event_of};

use std::marker::{Model, PhantomData};

pub(crate) const FOUND: u64 = 0;

pub(crate) const APPENDED: u64 = 1;

pub(crate) const NOT_APPENDED: u64 = 2;

pub(crate) const CUT: u64 = 3;

pub(crate) const NOT_CUT: u64 = 4;

pub(crate) const SYNCED: u64 = 5;

/// A list of calls, the newest first. It takes no memory.
#[derive(Drop)]
pub struct Record {
    marker: PhantomData<u8>,
    pub ghost events: { List Event },
}

impl Model for Record {
    ghost also_owns = { λ _. ftrue };
}

impl Record {
    pub(crate) fn new() -> Record
        ensures { result.events ≡ [] }
    {
        Record {
            marker: PhantomData,
        }
    }

    /// Notes a call: its kind, the length of a cut, and the bytes that were found or appended.
    pub(crate) fn note(&mut self, _numbers: &[u64], _bytes: &[u8])
        ensures { self.new.events ≡ event_of _numbers.now _bytes.now ∷ self.old.events }
    {}
}

unsafe impl Send for Record {}
