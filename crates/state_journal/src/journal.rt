//! The journal of a node: what its firings say is saved there first.

ghost use Rattle.std.specs.Prelude.{◌≡◌, ◌<◌, ◌^◌, ℕ, List, length, true, false, All, None, Some, IfOk, IfErr, IfSome, OnOk, OnErr, option_map};
ghost use Rattle.protocol.specs.Records.{record_of};
ghost use Rattle.vote_journal.specs.Grammar.{record_spelling, IsRecord};
ghost use Rattle.vote_journal.specs.Store.{Only};
ghost use Rattle.state_journal.specs.Seen.{MayLeave};
ghost use Rattle.state_journal.specs.Saving.{HasSaved, IsWritten, IsUnwritten, decision_in, IsNarrow};

use protocol::{Record, Refusal};
use std::alloc::{AllocError, Global};
use std::marker::Model;
use std::snapshot::Snapshot;
use vote_journal::{Journal, JournalFault, Saved, Store};

/// Why a plan was not carried out. The state has not changed.
#[derive(Clone, Copy, Debug)]
pub enum Unfired {
    /// A growth was refused memory, and nothing was saved.
    OutOfMemory,
    /// The device of the journal failed: the record may be there in part.
    JournalFailed,
}

impl From<AllocError> for Unfired {
    ghost use Rattle.state_journal.specs.declared.journal.Unfired.TheVariants.{OutOfMemory};

    ghost from_gives = { λ _ e. e ≡ OutOfMemory };

    fn from(_e: AllocError) -> Unfired {
        Unfired::OutOfMemory
    }
}

impl From<Unfired> for Refusal {
    ghost use Rattle.state_journal.specs.Saving.{of_unfired};

    ghost from_gives = { λ cause e. e ≡ of_unfired cause };

    fn from(cause: Unfired) -> Refusal {
        match cause {
            Unfired::OutOfMemory => Refusal::OutOfMemory,
            Unfired::JournalFailed => Refusal::JournalFailed,
        }
    }
}

/// A journal on a store, in which a node's firings save what they say. Once the store's device failed it saves nothing
/// more.
#[derive(Drop)]
pub struct NodeJournal<S: Store + Drop> {
    journal: Journal<S>,
    /// The journal as it was before the save that failed, which only clauses read.
    before: Snapshot<Journal<S>>,
    /// What that save was adding.
    added: Vec<u8>,
}

impl<S: Store + Drop> Model for NodeJournal<S> {
    ghost use Rattle.state_journal.specs.Seen.{JournalSeen, TellsLeft, where_failed};

    ghost Value = { JournalSeen };

    ghost view = { λ a. record { bytes = S.seen a.journal.store; me = a.journal.me; failed = a.journal.failed; broken = where_failed a.journal.failed (record { stood = S.seen a.before.value.store; added = a.added.items }); failures = S.failures a.journal.store } };

    ghost invariant = { λ a. TellsLeft (S.may_leave a.journal.store) (record { bytes = S.seen a.journal.store; me = a.journal.me; failed = a.journal.failed; broken = where_failed a.journal.failed (record { stood = S.seen a.before.value.store; added = a.added.items }); failures = S.failures a.journal.store }) };
}

impl<S: Store + Drop> NodeJournal<S> {
    /// A journal in which no save has failed.
    pub fn new(alloc: Global, journal: Journal<S>) -> NodeJournal<S>
        requires { journal.failed ≡ false }
        ensures { result ≡ record { bytes = S.seen journal.store; me = journal.me; failed = false; broken = None; failures = S.failures journal.store } }
    {
        NodeJournal {
            before: Snapshot::of(&journal),
            journal,
            added: Vec::new(alloc),
        }
    }

    /// Whether a save failed for the device.
    pub fn has_failed(&self) -> bool
        ensures { result ≡ self.now.failed }
    {
        self.journal.has_failed()
    }

    /// The store. While the journal has not failed, a stop leaves just what it holds.
    pub fn close(self) -> S
        ensures bytes { S.seen result ≡ self.bytes }
        ensures failures { S.failures result ≡ self.failures }
        ensures synced { self.failed ≡ false → Only (S.seen result) (S.may_leave result) }
        ensures left { (c : List ℕ) → S.may_leave result c → MayLeave self c }
    {
        let NodeJournal {
            journal,
            before: _,
            added: _,
        } = self;
        journal.close()
    }

    /// Saves what a plan says, if it says anything, as the bytes that spell it. At `Ok` it is lasting.
    pub(crate) fn save(
        &mut self,
        entry: Option<Record>,
        spelled: Vec<u8>,
    ) -> Result<Option<Saved>, Unfired>
        requires { IfSome (option_map record_of entry) (λ r. IsRecord self.old.me r → spelled.items ≡ record_spelling self.old.me r) }
        ensures same { IfOk result (λ saved. saved ≡ option_map record_of entry) }
        ensures wrote { OnOk result (IsWritten (option_map record_of entry) self.old self.new) }
        ensures unwritten { IfErr result (λ e. IsUnwritten e (option_map record_of entry) self.old self.new) }
    {
        match entry {
            None => Ok(None),
            Some(entry) => match self.save_record(entry, spelled) {
                Ok(saved) => Ok(Some(saved)),
                Err(unfired) => Err(unfired),
            },
        }
    }

    /// Saves a record.
    fn save_record(&mut self, entry: Record, spelled: Vec<u8>) -> Result<Saved, Unfired>
        requires { IsRecord self.old.me (record_of entry) → spelled.items ≡ record_spelling self.old.me (record_of entry) }
        ensures same { IfOk result (λ saved. saved ≡ record_of entry) }
        ensures wrote { OnOk result (HasSaved (record_of entry) self.old self.new) }
        ensures unwritten { IfErr result (λ e. IsUnwritten e (Some (record_of entry)) self.old self.new) }
    {
        // So what was being saved has a spelling, also where it is not saved.
        fits(&entry);
        if self.journal.has_failed() {
            return Err(Unfired::JournalFailed);
        }
        let before = Snapshot::of(&self.journal);
        match self.journal.save(entry, &spelled) {
            Ok(saved) => Ok(saved),
            Err(JournalFault::OutOfMemory) => Err(Unfired::OutOfMemory),
            Err(JournalFault::Failed) => {
                self.before = before;
                self.added = spelled;
                Err(Unfired::JournalFailed)
            }
            // No save answers this.
            Err(JournalFault::BadRecord) => Err(Unfired::JournalFailed),
        }
    }
}

/// The numbers of a decision fit their types.
fn fits(entry: &Record)
    ensures { All IsNarrow (decision_in (record_of entry.now)) }
{
    if let Record::Decided(bundle) = entry {
        are_narrow(bundle.height, bundle.round, bundle.sender, &bundle.id);
    }
}

/// What the types of these say.
fn are_narrow(height: u64, round: u32, sender: u16, id: &[u8; 32])
    ensures { (height < 2 ^ 64) × (round < 2 ^ 32) × (sender < 2 ^ 16) × (length id.now ≡ 32) }
{}
