//! Opening a journal that a stop may have cut short.

ghost use Rattle.std.specs.Prelude.{◌≡◌, ◌<◌, ◌≤◌, ◌+◌, ◌++◌, ℕ, List, [], length, take, OnOk, IfOk, IfErr, IsErrOf, false};
ghost use Rattle.protocol.specs.Messages.{Record as AnyRecord};
ghost use Rattle.vote_journal.specs.Grammar.{header, mark};
ghost use Rattle.vote_journal.specs.Layout.{IsWhole};
ghost use Rattle.vote_journal.specs.Store.{Just, Only, NoMore, Adds, Begun, Shortened, Grew, Counts};
ghost use Rattle.vote_journal.specs.Saving.{added, if_wanted, BegunOpening, HasNoJournal, KeepsEach};
ghost use Rattle.vote_journal.specs.Kept.{Keeps, IsOpened};
ghost use Rattle.vote_journal.specs.Planning.{Comes, IsPlan};
ghost use Rattle.vote_journal.specs.History.{Opened as HasOpened, AsRead, RefusesAsRead};

use crate::fault::JournalFault;
use crate::journal::Journal;
use crate::keeping::Kept;
use crate::memory::MemoryStore;
use crate::stages::{Behind, HEADER, Reading, Stage, same_bytes};
use crate::store::{Store, StoreFault};
use crate::striking::{Strikes, StrikingStore};
use messages::Bundle;
use powers::Powers;
use protocol::OwnMessage;
use std::alloc::{AllocError, Global};

/// The record that marks the form with sessions: its length, its kind, and the number of the form.
const MARK: [u8; 9] = [0, 0, 0, 5, 4, 0, 0, 0, 2];

/// A journal that was opened, and what a restart needs of its records.
#[derive(Drop)]
pub struct Opened<S: Store + Drop> {
    pub journal: Journal<S>,
    /// All decisions, the oldest first: that of each height at the height's place.
    pub decisions: Vec<Bundle>,
    /// The own messages since the last decision, the oldest first.
    pub own: Vec<OwnMessage>,
}

/// A store that was not opened, and why.
#[derive(Drop)]
pub struct NotOpened<S: Drop> {
    pub fault: JournalFault,
    pub store: S,
}

/// What opening keeps of the bytes that it found.
#[derive(Drop)]
struct Plan {
    kept: Kept,
    keep: usize,
    /// How many bytes stand behind those that are kept.
    torn: usize,
    fresh: bool,
    marked: bool,
}

impl Plan {
    fn into_kept(self) -> Kept
        ensures { result ≡ self.kept }
    {
        let Plan {
            kept,
            keep: _,
            torn: _,
            fresh: _,
            marked: _,
        } = self;
        kept
    }
}

/// What an empty journal has: the header and the mark.
fn front(alloc: Global) -> Result<Vec<u8>, AllocError>
    ensures { IfOk result (λ bytes. bytes.items ≡ header ++ mark) }
{
    let mut bytes = HEADER.to_vec(alloc)?;
    bytes.extend_from_slice(&MARK)?;
    Ok(bytes)
}

/// Of fewer bytes than a header has.
fn short_plan(alloc: Global, bytes: &[u8]) -> Result<Plan, JournalFault>
    ensures plan { length bytes.now < 4 → (powers : List ℕ) (me : ℕ) → IsPlan powers me bytes.now result }
    ensures all { IfOk result (λ p. p.keep + p.torn ≡ length bytes.now) }
{
    let begun = HEADER.get(..bytes.len()).unwrap_or(&[]);
    if !same_bytes(bytes, begun) {
        return Err(JournalFault::BadRecord);
    }
    Ok(Plan {
        kept: Kept::new(alloc),
        keep: 0,
        torn: bytes.len(),
        fresh: true,
        marked: false,
    })
}

/// Of a store's bytes, which are read.
fn plan_of(alloc: Global, stage: Result<Stage, JournalFault>) -> Result<Plan, JournalFault>
    ensures plan { (powers : List ℕ) (me : ℕ) (bytes : List ℕ) → Comes powers me bytes stage → IsPlan powers me bytes result }
    ensures all { (powers : List ℕ) (me : ℕ) (bytes : List ℕ) → Comes powers me bytes stage → IfOk result (λ p. p.keep + p.torn ≡ length bytes) }
{
    match stage {
        Ok(Stage::Front(bytes)) => short_plan(alloc, &bytes),
        Ok(Stage::Records(behind)) => Ok(plan_behind(behind)),
        Err(fault) => Err(fault),
    }
}

/// Of a header, and of what was read behind it.
fn plan_behind(behind: Behind) -> Plan
    ensures { result ≡ record { kept = behind.kept; keep = behind.read; torn = length behind.left.items; fresh = false; marked = behind.standing.marked } }
{
    let Behind {
        standing,
        kept,
        read,
        left,
    } = behind;
    Plan {
        kept,
        keep: read,
        torn: left.len(),
        fresh: false,
        marked: standing.is_marked(),
    }
}

/// Keeps the first bytes, adds a header and a mark where each is missing, and syncs.
fn settle<S: Store>(
    store: &mut S,
    keep: usize,
    torn: usize,
    fresh: bool,
    marked: bool,
) -> Result<(), StoreFault>
    requires { keep + torn ≡ length (S.seen store.old) }
    ensures done { OnOk result ((S.seen store.new ≡ take keep (S.seen store.old) ++ added fresh marked) × Only (S.seen store.new) (S.may_leave store.new)) }
    ensures stop { Adds (BegunOpening keep fresh marked (S.seen store.old)) (S.may_leave store.old) (S.may_leave store.new) }
    ensures counted { Counts result (S.failures store.old) (S.failures store.new) }
{
    if torn > 0 {
        shorten(store, keep)?;
    }
    add_front(store, fresh, marked)?;
    match store.sync() {
        Ok(()) => Ok(()),
        Err(_) => Err(StoreFault::Device),
    }
}

/// Adds bytes where they are wanted.
fn add<S: Store>(store: &mut S, wanted: bool, bytes: &[u8]) -> Result<(), StoreFault>
    ensures added { OnOk result (S.seen store.new ≡ S.seen store.old ++ if_wanted wanted bytes.now) }
    ensures stop { Adds (Begun (S.seen store.old) (if_wanted wanted bytes.now)) (S.may_leave store.old) (S.may_leave store.new) }
    ensures cause { Counts result (S.failures store.old) (S.failures store.new) }
{
    if wanted {
        store.append(bytes)?;
    }
    Ok(())
}

/// Adds a header and a mark, where each is missing.
fn add_front<S: Store>(store: &mut S, fresh: bool, marked: bool) -> Result<(), StoreFault>
    ensures added { OnOk result (S.seen store.new ≡ S.seen store.old ++ added fresh marked) }
    ensures stop { Adds (Begun (S.seen store.old) (added fresh marked)) (S.may_leave store.old) (S.may_leave store.new) }
    ensures cause { Counts result (S.failures store.old) (S.failures store.new) }
{
    add(store, fresh, &HEADER)?;
    add(store, !marked, &MARK)
}

fn shorten<S: Store>(store: &mut S, keep: usize) -> Result<(), StoreFault>
    requires { keep ≤ length (S.seen store.old) }
    ensures kept { OnOk result (S.seen store.new ≡ take keep (S.seen store.old)) }
    ensures stop { Adds (Shortened keep (S.seen store.old)) (S.may_leave store.old) (S.may_leave store.new) }
    ensures cause { Counts result (S.failures store.old) (S.failures store.new) }
{
    match store.cut(keep) {
        Ok(()) => Ok(()),
        Err(_) => Err(StoreFault::Device),
    }
}

/// Reads all bytes of a store.
fn read_all<S: Store>(
    alloc: Global,
    store: &mut S,
    me: u16,
    powers: &Powers,
) -> Result<Result<Stage, JournalFault>, StoreFault>
    ensures read { IfOk result (λ stage. Comes powers.now me (S.seen store.new) stage × Just (S.seen store.new) (S.may_leave store.new)) }
    ensures stop { NoMore (S.may_leave store.old) (S.may_leave store.new) }
    ensures cause { Counts result (S.failures store.old) (S.failures store.new) }
{
    let mut reading = Reading::new(alloc, me, powers);
    store.read(alloc, &mut reading)?;
    Ok(reading.into_stage())
}

fn prepare<S: Store>(
    alloc: Global,
    store: &mut S,
    me: u16,
    powers: &Powers,
) -> Result<Kept, JournalFault>
    ensures opened { IfOk result (λ kept. (rs : List AnyRecord) × AsRead S.seen S.may_leave powers.now me (HasOpened rs) store.old store.new × Keeps rs kept.decisions.items kept.own.items) }
    ensures refused { IfErr result (λ fault. RefusesAsRead S.seen S.may_leave powers.now me fault store.old store.new) }
    ensures failed { IsErrOf result JournalFault.Failed → Grew (S.failures store.old) (S.failures store.new) }
    ensures counted { OnOk result (S.failures store.new ≡ S.failures store.old) }
{
    let stage = match read_all(alloc, store, me, powers) {
        Ok(stage) => stage,
        Err(StoreFault::Device) => return Err(JournalFault::Failed),
        Err(StoreFault::OutOfMemory) => return Err(JournalFault::OutOfMemory),
    };
    let plan = plan_of(alloc, stage)?;
    match settle(store, plan.keep, plan.torn, plan.fresh, plan.marked) {
        Ok(()) => Ok(plan.into_kept()),
        Err(StoreFault::Device) => Err(JournalFault::Failed),
        Err(StoreFault::OutOfMemory) => Err(JournalFault::OutOfMemory),
    }
}

impl<S: Store + Drop> Journal<S> {
    /// Opens the journal of validator `me` on a store, as a stop or a `close` left it.
    ///
    /// What a stop left of a record that was cut short is cut away, a header that is missing or cut short is written,
    /// the mark is appended where there is none, and all is synced, whatever was done. What is kept is of the records that
    /// its bytes spell.
    ///
    /// Faults, with the store: `Failed` (1) where its device failed; `OutOfMemory` (2); `BadRecord` (3) where the bytes
    /// are no journal of this validator under these powers, cut short or not: another header, or a fault of a record as
    /// [`read_record`](crate::read_record) has it, a length of 0 or above 1,100,000, or a record that may not follow those
    /// before it. A refusal may have done the cut, and have written the header, and the mark or a part of it; it leaves
    /// every whole record.
    pub fn open(
        alloc: Global,
        mut store: S,
        me: u16,
        powers: &Powers,
    ) -> Result<Opened<S>, NotOpened<S>>
        ensures opened { IfOk result (λ o. IsOpened powers.now me (S.may_leave store) (S.seen o.journal.store) o.decisions.items o.own.items) }
        ensures state { IfOk result (λ o. (o.journal.me ≡ me) × (o.journal.failed ≡ false)) }
        ensures synced { IfOk result (λ o. Only (S.seen o.journal.store) (S.may_leave o.journal.store)) }
        // A stop leaves a journal of the same records, at whichever call it comes.
        ensures stop { IfErr result (λ e. KeepsEach powers.now me (S.may_leave store) (S.may_leave e.store)) }
        ensures bad { IfErr result (λ e. e.fault ≡ JournalFault.BadRecord → HasNoJournal powers.now me (S.may_leave store)) }
        ensures failed { IfErr result (λ e. e.fault ≡ JournalFault.Failed → Grew (S.failures store) (S.failures e.store)) }
        ensures counted { IfOk result (λ o. S.failures o.journal.store ≡ S.failures store) }
        // Of these the laws on journals speak. They are of the store as it was read, of which more may be known than before.
        ensures does { IfOk result (λ o. (rs : List AnyRecord) × AsRead S.seen S.may_leave powers.now me (HasOpened rs) store o.journal.store × Keeps rs o.decisions.items o.own.items) }
        ensures refused { IfErr result (λ e. RefusesAsRead S.seen S.may_leave powers.now me e.fault store e.store) }
    {
        match prepare(alloc, &mut store, me, powers) {
            Ok(Kept { decisions, own }) => Ok(Opened {
                journal: Journal {
                    alloc,
                    store,
                    me,
                    failed: false,
                },
                decisions,
                own,
            }),
            Err(fault) => Err(NotOpened { fault, store }),
        }
    }
}

impl Journal<MemoryStore> {
    /// Validator `me`'s journal without records, over a store in memory of which no call fails: for programs and tests that
    /// outlast no stop. It is refused for want of memory alone.
    pub fn in_memory(alloc: Global, me: u16) -> Result<Journal<MemoryStore>, AllocError>
        ensures state { IfOk result (λ journal. (journal.me ≡ me) × (journal.failed ≡ false)) }
        ensures empty { IfOk result (λ journal. (powers : List ℕ) → IsWhole powers me journal.store.bytes.items []) }
    {
        let header = front(alloc)?;
        Ok(Journal {
            alloc,
            store: MemoryStore::new(header, 0, 0),
            me,
            failed: false,
        })
    }
}

impl Journal<StrikingStore> {
    /// Validator `me`'s journal without records, over a store in memory whose calls these strikes fail. It is refused for
    /// want of memory alone, and makes no call that they count.
    pub fn struck_by(
        alloc: Global,
        me: u16,
        strikes: Strikes,
    ) -> Result<Journal<StrikingStore>, AllocError>
        ensures state { IfOk result (λ journal. (journal.me ≡ me) × (journal.failed ≡ false)) }
        ensures empty { IfOk result (λ journal. (powers : List ℕ) → IsWhole powers me journal.store.store.bytes.items []) }
    {
        let header = front(alloc)?;
        Ok(Journal {
            alloc,
            store: StrikingStore::new(header, strikes),
            me,
            failed: false,
        })
    }
}

impl<S: Store + Drop> Opened<S> {
    /// The journal, where there are no records at all: that of a validator which has said and decided nothing.
    pub fn without_records(self) -> Result<Journal<S>, Opened<S>>
        ensures same { IfOk result (λ journal. journal ≡ self.journal) }
        ensures none { IfOk result (λ _. (self.decisions.items ≡ []) × (self.own.items ≡ [])) }
        // So what stands whole is the journal of no record.
        ensures empty { IfOk result (λ journal. (powers : List ℕ) (me : ℕ) (rs : List AnyRecord) → IsWhole powers me (S.seen self.journal.store) rs → Keeps rs self.decisions.items self.own.items → IsWhole powers me (S.seen journal.store) []) }
        ensures some { IfErr result (λ o. (o ≡ self) × ((self.decisions.items ≡ []) → (self.own.items ≡ []) → ⊥)) }
    {
        if !self.decisions.is_empty() || !self.own.is_empty() {
            return Err(self);
        }
        let Opened {
            journal,
            decisions: _,
            own: _,
        } = self;
        Ok(journal)
    }
}
