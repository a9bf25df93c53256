//! Validators that are opened again over their journals.

ghost use Rattle.std.specs.Prelude.{◌≡◌, ◌∷◌, [], List, ℕ, Some, true, false, reverse, IfOk, IfErr, OnOk};
ghost use Rattle.vote_journal.specs.Layout.{IsJournal};
ghost use Rattle.vote_journal.specs.Saving.{KeepsRecords};
ghost use Rattle.protocol.specs.Tags.{Setting};
ghost use Rattle.protocol.specs.Messages.{Record};
ghost use Rattle.protocol.specs.Restart.{opened as opened_over};
ghost use Rattle.world_parties.specs.Cast.{setting_of, is_validator};
ghost use Rattle.world_schedule.specs.Cores.{AreOwn, StandsIn};
ghost use Rattle.world_schedule.specs.Making.{Scene, Reopens};
ghost use Rattle.world_schedule.specs.Standings.{Holds, Tells};
ghost use Rattle.world_schedule.specs.declared.report.What.TheVariants.{Answered};
ghost use Rattle.world_schedule.specs.Validators.{IsStopped, HasMet};
ghost use Rattle.world_schedule.specs.Restarting.{HasStopped, IsBack, HasReopened, HasRestarted};

use crate::chronicle::Chronicle;
use crate::event::Failing;
use crate::report::{Answer, What};
use crate::seat::Seat;
use crate::validator::{Request, Validator};
use node_core::{Config, NodeCore};
use std::alloc::{AllocError, AllocFailed, Global};
use transactions::{Value, copy_all};
use vote_journal::{Journal, JournalFault, NotOpened, Opened, Strikes, StrikingStore};
use world_parties::{FaultNumber, Parties};

/// What is told of an opening: that all went well, that memory was refused to it, and that the device failed.
const OPENED: Answer = Answer {
    number: 0,
    inner: 0,
};

const REFUSED: Answer = Answer {
    number: 16,
    inner: 0,
};

const FAILED: Answer = Answer {
    number: 17,
    inner: 0,
};

/// A validator whose node has ended: its store, and where it stood.
#[derive(Drop)]
pub(crate) struct Stopped {
    pub(crate) number: u16,
    store: StrikingStore,
    strikes: Strikes,
    decisions_told: usize,
    pub(crate) height: u64,
    pub(crate) round: u32,
    /// The decided values, in order of height.
    pub(crate) delivered: Vec<Value>,
}

/// A validator that was not opened, and why.
#[derive(Drop)]
struct Unopened {
    fault: JournalFault,
    stopped: Stopped,
}

impl Validator {
    /// A call of its store is to fail.
    pub(crate) fn strike(&self, failing: Failing) -> Result<(), AllocError> {
        self.strikes.strike(failing.call, failing.keep as usize)
    }

    /// Ends the node.
    pub(crate) fn stop(self, alloc: Global) -> Result<Stopped, AllocError>
        ensures { (powers : List ℕ) → IfOk result (HasStopped powers self) }
    {
        let Validator {
            number,
            strikes,
            core,
            decisions_told,
            owes: _,
        } = self;
        Ok(Stopped {
            number,
            strikes,
            decisions_told,
            height: core.height(),
            round: core.round(),
            delivered: copy_all(alloc, core.delivered())?,
            store: core.close(),
        })
    }

    /// Tells of an opening that went well.
    fn take_seat(mut self, chronicle: &mut Chronicle) -> Result<Seat, FaultNumber>
        ensures { (c : Setting) (s : Scene) (p : ℕ) → IsBack c s p self → Holds c s.standing.numbered chronicle.old.messages
            → IfOk result (λ seat. HasMet c s Reopens false p seat chronicle.old chronicle.new) }
    {
        self.tell_opening(chronicle)?;
        Ok(Seat::Up(self))
    }

    /// Tells that the validator was opened, and what its journal holds that was never told.
    fn tell_opening(&mut self, chronicle: &mut Chronicle) -> Result<(), FaultNumber>
        ensures { (c : Setting) (s : Scene) (p : ℕ) → IsBack c s p self.old → Holds c s.standing.numbered chronicle.old.messages
            → OnOk result (HasMet c s Reopens false p (Seat.Up self.new) chronicle.old chronicle.new) }
    {
        chronicle.tell(Some(self.number), What::Answered(OPENED))?;
        self.tell_decisions(chronicle)?;
        self.tell_messages(chronicle)?;
        Ok(())
    }
}

impl Stopped {
    /// A call of its store is to fail.
    pub(crate) fn strike(&self, failing: Failing) -> Result<(), AllocError> {
        self.strikes.strike(failing.call, failing.keep as usize)
    }

    /// Opens the validator over its store as it stands, and settles it.
    pub(crate) fn restart(
        self,
        parties: &Parties,
        chronicle: &mut Chronicle,
    ) -> Result<Seat, FaultNumber>
        ensures { (s : Scene) → IsStopped (setting_of parties.now) s self → Holds (setting_of parties.now) s.standing.numbered chronicle.old.messages
            → IfOk result (λ seat. HasRestarted (setting_of parties.now) s self.number seat chronicle.old chronicle.new) }
    {
        let _known = parties.correct_at(u64::from(self.number))?;
        match self.reopen(parties, chronicle)? {
            Seat::Up(mut validator) => {
                validator.turn(Request::Settle, chronicle)?;
                Ok(Seat::Up(validator))
            }
            seat => Ok(seat),
        }
    }

    /// Opens the validator over its store as it stands. Where memory is refused to the opening, it is made once more.
    fn reopen(self, parties: &Parties, chronicle: &mut Chronicle) -> Result<Seat, FaultNumber>
        requires known { is_validator parties.now self.number ≡ true }
        ensures { (s : Scene) → IsStopped (setting_of parties.now) s self → Holds (setting_of parties.now) s.standing.numbered chronicle.old.messages
            → IfOk result (λ seat. HasReopened (setting_of parties.now) s self.number seat chronicle.old chronicle.new) }
    {
        match self.open(chronicle.alloc, parties) {
            Ok(validator) => validator.take_seat(chronicle),
            Err(
                Unopened {
                    fault: JournalFault::OutOfMemory,
                    stopped,
                },
            ) => stopped.insist(parties, chronicle),
            Err(Unopened { fault: _, stopped }) => stopped.close(chronicle),
        }
    }

    /// Tells that memory was refused to an opening, and makes it once more.
    fn insist(self, parties: &Parties, chronicle: &mut Chronicle) -> Result<Seat, FaultNumber>
        requires known { is_validator parties.now self.number ≡ true }
        ensures { (s : Scene) → IsStopped (setting_of parties.now) s self → Holds (setting_of parties.now) s.standing.numbered chronicle.old.messages
            → IfOk result (λ seat. HasReopened (setting_of parties.now) s self.number seat chronicle.old chronicle.new) }
    {
        chronicle.tell(Some(self.number), What::Answered(REFUSED))?;
        match self.open(chronicle.alloc, parties) {
            Ok(validator) => validator.take_seat(chronicle),
            Err(
                Unopened {
                    fault: JournalFault::OutOfMemory,
                    stopped: _,
                },
            ) => Err(FaultNumber::OutOfMemory),
            Err(Unopened { fault: _, stopped }) => stopped.close(chronicle),
        }
    }

    /// Tells that the device failed at an opening.
    fn close(self, chronicle: &mut Chronicle) -> Result<Seat, FaultNumber>
        ensures closed { IfOk result (λ seat. (seat ≡ Seat.Closed self) × Tells (Some self.number) (Answered (record { number = 17; inner = 0 }) ∷ []) chronicle.old chronicle.new) }
        ensures messages { chronicle.new.messages ≡ chronicle.old.messages }
    {
        chronicle.tell(Some(self.number), What::Answered(FAILED))?;
        Ok(Seat::Closed(self))
    }

    /// The validator over its store, with its powers and keys: it stands where it stood as its last record was saved.
    fn open(self, alloc: Global, parties: &Parties) -> Result<Validator, Unopened>
        requires known { is_validator parties.now self.number ≡ true }
        ensures back { (s : Scene) → IsStopped (setting_of parties.now) s self → IfOk result (IsBack (setting_of parties.now) s self.number) }
        ensures stopped { (s : Scene) → IsStopped (setting_of parties.now) s self → IfErr result (λ e. IsStopped (setting_of parties.now) s e.stopped) }
        ensures number { IfErr result (λ e. e.stopped.number ≡ self.number) }
    {
        match core_over(alloc, parties, self.number, self.store) {
            Ok(core) => Ok(Validator {
                number: self.number,
                strikes: self.strikes,
                core,
                decisions_told: self.decisions_told,
                owes: false,
            }),
            Err(refused) => Err(Unopened {
                fault: refused.fault,
                stopped: Stopped {
                    store: refused.store,
                    ..self
                },
            }),
        }
    }
}

/// The core over the journal in a store, which comes back where there is none.
fn core_over(
    alloc: Global,
    parties: &Parties,
    number: u16,
    store: StrikingStore,
) -> Result<NodeCore<StrikingStore>, NotOpened<StrikingStore>>
    requires known { is_validator parties.now number ≡ true }
    ensures stands { (journal : List Record) → IsJournal parties.now.powers number store.store.bytes.items (reverse journal) → AreOwn number journal
        → IfOk result (StandsIn (setting_of parties.now) number (opened_over number journal)) }
    ensures serves { IfOk result (λ core. core.journal.failed ≡ false) }
    ensures released { IfOk result (λ core. core.outgoing ≡ []) }
    ensures kept { IfErr result (λ left. KeepsRecords parties.now.powers number store.store.bytes.items left.store.store.bytes.items) }
{
    let Ok(ring) = parties.ring_of(alloc, number) else {
        return Err(starved(store));
    };
    let Ok(powers) = parties.powers().copy(alloc) else {
        return Err(starved(store));
    };
    // There are 2 to 128 validators.
    let _count = parties.count();
    let opened = Journal::open(alloc, store, number, &powers)?;
    match NodeCore::open(alloc, Config { me: number, powers }, ring, opened) {
        Ok(core) => Ok(core),
        Err(AllocFailed { value }) => Err(starved(store_of(value))),
    }
}

/// Memory was refused, and the store comes back.
fn starved(store: StrikingStore) -> NotOpened<StrikingStore>
    ensures { result ≡ record { fault = JournalFault.OutOfMemory; store = store } }
{
    NotOpened {
        fault: JournalFault::OutOfMemory,
        store,
    }
}

fn store_of(opened: Opened<StrikingStore>) -> StrikingStore
    ensures { result ≡ opened.journal.store }
{
    let Opened {
        journal,
        decisions: _,
        own: _,
    } = opened;
    journal.close()
}
