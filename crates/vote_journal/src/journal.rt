//! A journal on a store: what is saved, and when.

ghost use Rattle.std.specs.Prelude.{◌≡◌, ◌++◌, ◌∷◌, [], ℕ, List, IfOk, OnOk, IsErrOf, true, false};
ghost use Rattle.protocol.specs.Records.{record_of};
ghost use Rattle.vote_journal.specs.Grammar.{record_spelling, IsRecord};
ghost use Rattle.vote_journal.specs.Layout.{IsWhole};
ghost use Rattle.vote_journal.specs.Store.{Only, NoMore, Adds, Begun, Grew, Counts, FailsBy};
ghost use Rattle.vote_journal.specs.Saving.{IsSaveFault, CountsSave, IsBeforeOrAfter, LeavesBeforeOrAfter, WhereSaved};
ghost use Rattle.vote_journal.specs.History.{Left, Does, save_of};

use crate::fault::JournalFault;
use crate::store::{Store, StoreFault};
use protocol::Record;
use std::alloc::Global;
use std::marker::Model;

/// A record that is saved. Only a save that answered `Ok` makes one.
#[derive(Drop)]
pub struct Saved {
    entry: Record,
}

impl Model for Saved {
    ghost use Rattle.protocol.specs.Messages.{Record as Entry};

    ghost Value = { Entry };

    ghost use Rattle.protocol.specs.Records.{record_of};

    ghost view = { λ a. record_of a.entry };
}

impl Saved {
    /// What is saved.
    pub fn into_record(self) -> Record
        ensures { record_of result ≡ self }
    {
        self.entry
    }
}

/// The journal of a validator on a store. While it has not failed, all of it is synced.
///
/// It keeps no record in memory.
#[derive(Drop)]
pub struct Journal<S: Store + Drop> {
    pub(crate) alloc: Global,
    pub(crate) store: S,
    pub(crate) me: u16,
    pub(crate) failed: bool,
    ghost settled: { failed ≡ false → Only (S.seen store) (S.may_leave store) },
}

/// Appends and syncs.
fn append_synced<S: Store>(store: &mut S, bytes: &[u8]) -> Result<(), StoreFault>
    ensures done { OnOk result ((S.seen store.new ≡ S.seen store.old ++ bytes.now) × Only (S.seen store.new) (S.may_leave store.new)) }
    ensures began { IsErrOf result StoreFault.Device → Begun (S.seen store.old) bytes.now (S.seen store.new) }
    ensures stop { Adds (Begun (S.seen store.old) bytes.now) (S.may_leave store.old) (S.may_leave store.new) }
    ensures counted { Counts result (S.failures store.old) (S.failures store.new) }
    ensures fault { FailsBy result (Grew (S.failures store.old) (S.failures store.new)) ((S.seen store.new ≡ S.seen store.old) × NoMore (S.may_leave store.old) (S.may_leave store.new)) }
{
    store.append(bytes)?;
    match store.sync() {
        Ok(()) => Ok(()),
        Err(_) => Err(StoreFault::Device),
    }
}

impl<S: Store + Drop> Journal<S> {
    /// Adds a record, as the bytes that `spell_record` gives for it. At `Ok` it is appended and synced: each later stop
    /// leaves it.
    ///
    /// Faults: `Failed` (1) where the store's device failed, and then the journal has failed; `OutOfMemory` (2), and
    /// then nothing was appended. A record that has a spelling and may follow those of the journal keeps it one that can
    /// be opened again.
    pub fn save(&mut self, entry: Record, spelled: &[u8]) -> Result<Saved, JournalFault>
        requires running { self.old.failed ≡ false }
        requires spelled { IsRecord self.old.me (record_of entry) → spelled.now ≡ record_spelling self.old.me (record_of entry) }
        ensures same { IfOk result (λ saved. saved ≡ record_of entry) }
        ensures saved { IsRecord self.old.me (record_of entry) → OnOk result (S.seen self.new.store ≡ S.seen self.old.store ++ record_spelling self.old.me (record_of entry)) }
        ensures synced { OnOk result (Only (S.seen self.new.store) (S.may_leave self.new.store) × (self.new.failed ≡ false)) }
        ensures stop { (c : List ℕ) → S.may_leave self.new.store c → Begun (S.seen self.old.store) spelled.now c }
        // What a stop leaves has the records before, or this one too, and no others.
        ensures whole { WhereSaved self.old.me (S.seen self.old.store) (record_of entry) (λ powers rs. LeavesBeforeOrAfter powers self.old.me (S.may_leave self.new.store) rs (record_of entry)) }
        // So does what stands where the device failed.
        ensures broken { IsErrOf result JournalFault.Failed → WhereSaved self.old.me (S.seen self.old.store) (record_of entry) (λ powers rs. IsBeforeOrAfter powers self.old.me (S.seen self.new.store) rs (record_of entry)) }
        ensures grown { OnOk result (WhereSaved self.old.me (S.seen self.old.store) (record_of entry) (λ powers rs. IsWhole powers self.old.me (S.seen self.new.store) (rs ++ record_of entry ∷ []))) }
        ensures fault { IsSaveFault result (Grew (S.failures self.old.store) (S.failures self.new.store) × (self.new.failed ≡ true))
            ((S.seen self.new.store ≡ S.seen self.old.store) × NoMore (S.may_leave self.old.store) (S.may_leave self.new.store) × (self.new.failed ≡ false)) }
        // The device's failures are counted, and nothing else is.
        ensures counted { CountsSave result (S.failures self.old.store) (S.failures self.new.store) }
        // Of these the laws on journals speak.
        ensures does { (powers : List ℕ) → Does S.seen S.may_leave powers self.old.me (save_of (record_of entry) result) self.old.store self.new.store }
        ensures me { self.new.me ≡ self.old.me }
    {
        match append_synced(&mut self.store, spelled) {
            Ok(()) => Ok(Saved { entry }),
            Err(StoreFault::Device) => {
                self.failed = true;
                Err(JournalFault::Failed)
            }
            Err(StoreFault::OutOfMemory) => Err(JournalFault::OutOfMemory),
        }
    }

    /// Whether a save failed for the device. Such a journal saves nothing more: its store has to be opened again.
    pub fn has_failed(&self) -> bool
        ensures { result ≡ self.now.failed }
    {
        let Journal { failed, .. } = self;
        *failed
    }

    /// The store, which can be opened again. Unless the journal has failed, a stop leaves just what the store holds.
    pub fn close(self) -> S
        ensures store { result ≡ self.store }
        ensures synced { self.failed ≡ false → Only (S.seen result) (S.may_leave result) }
        ensures does { (powers : List ℕ) → Does S.seen S.may_leave powers self.me Left self.store result }
    {
        let Journal {
            alloc: _,
            store,
            me: _,
            failed: _,
        } = self;
        store
    }
}
