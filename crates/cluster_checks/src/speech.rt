//! What a validator's edge says: to a link that it dialed what it said before, and no proposal of a height that is long over.

ghost use Rattle.std.specs.Prelude.{◌≡◌, [], Some, None, if◌then◌else◌, slice_get, OnOk, OnErr};
ghost use Rattle.std.specs.Ordering.{nat_cmp};
ghost use Rattle.std.specs.BTreeMap.{is_at};
ghost use Rattle.std.specs.BTreeSet.{insert_key};
ghost use Rattle.std.specs.Set.{remove_key};
ghost use Rattle.cluster_checks.specs.Watching.{is_own, is_outdated};

use crate::kinds::{Heading, Kind};
use std::alloc::{AllocError, Global};
use std::collections::BTreeSet;

/// What a validator's edge owes the links that it dialed, and what it said too late.
#[derive(Drop)]
pub struct SpeechWatch {
    /// The number of the validator.
    number: u16,
    /// The height at which the event began.
    began: u64,
    /// The height of the last own message that went out.
    said: Option<u64>,
    /// The links that were dialed and weren't sent anything.
    owed: BTreeSet<u32>,
    /// An own proposal of a height that was over, and the next one too, when the event began.
    outdated: Option<Heading>,
}

impl SpeechWatch {
    /// Nothing was said. It takes no memory.
    pub fn new(alloc: Global, number: u16) -> SpeechWatch
        ensures number { result.number ≡ number }
        ensures nothing { (result.said ≡ None) × (result.outdated ≡ None) × (result.owed.keys ≡ []) }
    {
        SpeechWatch {
            number,
            began: 0,
            said: None,
            owed: BTreeSet::new(alloc),
            outdated: None,
        }
    }

    /// An event begins at this height.
    pub fn begins(&mut self, height: u64)
        ensures { self.new ≡ record self.old { began = height } }
    {
        self.began = height;
    }

    /// A link has opened that was dialed.
    pub fn dialed(&mut self, link: u32) -> Result<(), AllocError>
        ensures ok { OnOk result (self.new.owed.keys ≡ insert_key nat_cmp self.old.owed.keys link) }
        ensures err { OnErr result (self.new.owed.keys ≡ self.old.owed.keys) }
        ensures rest { (self.new.number ≡ self.old.number) × (self.new.began ≡ self.old.began) × (self.new.said ≡ self.old.said) × (self.new.outdated ≡ self.old.outdated) }
    {
        self.owed.insert(link)?;
        Ok(())
    }

    /// Nothing is owed on a link any more: a frame goes out on it, it is closed, or it has ended.
    pub fn forget(&mut self, link: u32)
        ensures owed { self.new.owed.keys ≡ remove_key (is_at (nat_cmp link)) self.old.owed.keys }
        ensures rest { (self.new.number ≡ self.old.number) × (self.new.began ≡ self.old.began) × (self.new.said ≡ self.old.said) × (self.new.outdated ≡ self.old.outdated) }
    {
        self.owed.remove(&link);
    }

    /// Notes a frame that goes out. What a node releases in the call that ends a height is said again at the next one, so a proposal of
    /// the height before isn't outdated.
    pub fn sent(&mut self, heading: Heading)
        ensures { self.new ≡ record self.old {
          said = if is_own self.old.number heading then Some heading.height else self.old.said;
          outdated = if is_outdated self.old.number self.old.began heading then Some heading else self.old.outdated;
        } }
    {
        if !heading.kind.is_of_round() || heading.sender != self.number {
            return;
        }
        self.said = Some(heading.height);
        if heading.kind == Kind::Proposal && heading.height < self.began.saturating_sub(1) {
            self.outdated = Some(heading);
        }
    }

    /// Returns an own proposal that went out more than a height after its own.
    pub fn outdated(&self) -> Option<Heading>
        ensures { result ≡ self.now.outdated }
    {
        self.outdated
    }

    /// Returns a link that was dialed and, after all that was due is done, wasn't sent what was said at this height.
    pub fn owed(&self, height: u64) -> Option<u32>
        ensures said { self.now.said ≡ Some height → result ≡ slice_get self.now.owed.keys 0 }
        ensures unsaid { ¬ (self.now.said ≡ Some height) → result ≡ None }
    {
        if self.said != Some(height) {
            return None;
        }
        self.owed.first().copied()
    }
}
