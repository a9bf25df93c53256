//! What is remembered of the records of a journal, to tell which may follow.

ghost use Rattle.std.specs.Prelude.{◌≡◌, ◌||◌, [], ◌∷◌, List, ℕ, OnOk, true};
ghost use Rattle.powers.specs.Power.{power};
ghost use Rattle.protocol.specs.Values.{Item, valid};
ghost use Rattle.protocol.specs.Messages.{Record as AnyRecord, Decided, step_of, step_number};
ghost use Rattle.protocol.specs.Refusals.{named_senders};
ghost use Rattle.protocol.specs.Records.{act_of, record_of};
ghost use Rattle.vote_journal.specs.Order.{has_early, says_early, is_early, is_of_mark};

use crate::fault::JournalFault;
use crate::reading::read_record;
use messages::Bundle;
use powers::{MOST_VALIDATORS, Powers};
use proposal_validity::Frontier;
use protocol::{Act, MOST_HEIGHT, OwnMessage, Record, Step};
use std::alloc::{AllocError, Global};
use transactions::Value;

/// The kind of the mark.
const MARK_KIND: u8 = 4;

/// The content of the mark that the form with sessions has begun: its kind, and the number of the form.
pub(crate) const MARK: [u8; 5] = [MARK_KIND, 0, 0, 0, 2];

/// The height after the last decision, the place of the last own message of that height, and what the decisions
/// delivered.
#[derive(Debug, Drop)]
pub(crate) struct Standing {
    height: u64,
    last: Option<(u32, Step)>,
    frontier: Frontier,
    /// Whether the mark of the form with sessions stands among them.
    marked: bool,
}

/// The step that an act is of.
fn step_of(act: &Act) -> Step
    ensures { result ≡ step_of (act_of act.now) }
{
    match act {
        Act::Proposing(_, _) => Step::Propose,
        Act::Prevoting(_) => Step::Prevote,
        Act::Precommitting(_) => Step::Precommit,
    }
}

/// The power of those that the precommits name as their senders.
fn named_power(bundle: &Bundle, powers: &Powers) -> u64
    ensures { result ≡ power powers.now (named_senders bundle.now) }
{
    let mut marks = [false; MOST_VALIDATORS];
    for precommit in bundle.precommits.as_slice() {
        if usize::from(precommit.sender) < MOST_VALIDATORS {
            marks[usize::from(precommit.sender)] = true;
        }
    }
    powers.power_of_set(&marks)
}

impl Standing {
    ghost use Rattle.std.specs.Prelude.{◌<◌, ◌^◌};
    ghost use Rattle.transactions.specs.Grammar.{IsValue};
    ghost use Rattle.proposal_validity.specs.Standing.{IsFrontierOf};
    ghost use Rattle.vote_journal.specs.Grammar.{Entry, OfRecord};
    ghost use Rattle.vote_journal.specs.Order.{is_after, may_follow, records_in, is_marked, has_early, HasSpelledValue, Remembers, IsPassed, IsTaken, IsMarkTaken};

    /// Where nothing is saved.
    pub(crate) fn new(alloc: Global) -> Standing
        ensures { Remembers [] result }
    {
        Standing {
            height: 0,
            last: None,
            frontier: Frontier::new(alloc),
            marked: false,
        }
    }

    /// Whether the mark of the form with sessions was taken.
    pub(crate) fn is_marked(&self) -> bool
        ensures { result ≡ self.now.marked }
    {
        self.marked
    }

    /// Whether this place is after the last.
    fn is_before(&self, round: u32, step: Step) -> bool
        ensures { result ≡ is_after self.now.last round step }
    {
        match self.last {
            None => true,
            Some((last_round, last_step)) => {
                last_round < round
                    || (last_round == round && number_of(last_step) < number_of(step))
            }
        }
    }

    #[tactic(auto, unfolding(crate::specs::Order::may_follow))]
    fn admits_own(&self, message: &OwnMessage) -> bool
        ensures { (powers : List ℕ) (before : List Entry) → Remembers before self.now → result ≡ may_follow powers (records_in before) (record_of (Record.Own message.now)) }
    {
        message.height == self.height && self.is_before(message.round, step_of(&message.act))
    }

    #[tactic(auto, unfolding(crate::specs::Order::may_follow))]
    fn admits_decision(&self, powers: &Powers, bundle: &Bundle) -> bool
        requires { IsValue bundle.now.value }
        ensures follows { (before : List Entry) → Remembers before self.now → result ≡ may_follow powers.now (records_in before) (Decided bundle.now) }
        ensures few { result ≡ true → self.now.height < 2 ^ 48 }
        ensures valid { result ≡ true → (d : List Item) → IsFrontierOf d self.now.frontier → valid d bundle.now.value ≡ true }
    {
        bundle.height == self.height
            && bundle.height < MOST_HEIGHT
            && powers.is_quorum(named_power(bundle, powers))
            && self.frontier.valid(&bundle.value)
    }

    fn pass_own(&mut self, message: &OwnMessage)
        ensures { (before : List Entry) → Remembers before self.old → Remembers (OfRecord (record_of (Record.Own message.now)) ∷ before) self.new }
    {
        self.last = Some((message.round, step_of(&message.act)));
    }

    fn pass_decision(&mut self, bundle: &Bundle) -> Result<(), AllocError>
        requires few { self.old.height < 2 ^ 48 }
        requires spelled { IsValue bundle.now.value }
        requires valid { (d : List Item) → IsFrontierOf d self.old.frontier → valid d bundle.now.value ≡ true }
        ensures { OnOk result ((before : List Entry) → Remembers before self.old → Remembers (OfRecord (Decided bundle.now) ∷ before) self.new) }
    {
        self.frontier.extend(&bundle.value)?;
        self.height += 1;
        self.last = None;
        Ok(())
    }

    /// Whether the mark stands, or the record has no transaction that wants it.
    fn is_of_form(&self, entry: &Record) -> bool
        ensures { (before : List Entry) → Remembers before self.now → result ≡ (is_marked before || has_early (record_of entry.now)) }
    {
        self.marked || has_early(entry)
    }

    /// Remembers a record that may stand there.
    #[tactic(auto, unfolding(crate::specs::Order::may_stand))]
    fn pass(&mut self, powers: &Powers, entry: &Record) -> Result<(), JournalFault>
        requires { HasSpelledValue (record_of entry.now) }
        ensures { (before : List Entry) → Remembers before self.old → IsPassed powers.now before (record_of entry.now) self.new result }
    {
        if !self.is_of_form(entry) {
            return Err(JournalFault::BadRecord);
        }
        match entry {
            Record::Own(message) => {
                if !self.admits_own(message) {
                    return Err(JournalFault::BadRecord);
                }
                self.pass_own(message);
                Ok(())
            }
            Record::Decided(bundle) => {
                if !self.admits_decision(powers, bundle) {
                    return Err(JournalFault::BadRecord);
                }
                self.pass_decision(bundle)
                    .map_err(|_| JournalFault::OutOfMemory)
            }
        }
    }

    /// Remembers the mark, where the content spells it and none stands before it.
    #[tactic(auto, unfolding(crate::specs::Order::may_stand))]
    fn take_mark(&mut self, content: &[u8]) -> Result<(), JournalFault>
        ensures { (powers : List ℕ) (me : ℕ) (before : List Entry) → Remembers before self.old → IsMarkTaken powers me before content.now self.new result }
    {
        if self.marked || content != MARK.as_slice() {
            return Err(JournalFault::BadRecord);
        }
        self.marked = true;
        Ok(())
    }

    /// The record that the content behind a length spells, or none where that is the mark, where it may stand there: it is
    /// remembered then.
    ///
    /// Faults: those of `read_record`; `BadRecord` (3) for an own message of another height than the number of decisions
    /// before it, or whose round and step aren't above those of the message before it in its height; for a decision of
    /// another height, of a height from 2^48 on, without a quorum of distinct senders, or whose value may not be delivered
    /// next.
    pub(crate) fn take(
        &mut self,
        alloc: Global,
        me: u16,
        powers: &Powers,
        content: &[u8],
    ) -> Result<Option<Record>, JournalFault>
        ensures { (before : List Entry) → Remembers before self.old → IsTaken powers.now me before content.now self.new result }
    {
        if is_mark(content) {
            self.take_mark(content)?;
            return Ok(None);
        }
        let entry = read_record(alloc, me, content)?;
        self.pass(powers, &entry)?;
        Ok(Some(entry))
    }
}

/// Whether the content is of the mark's kind.
fn is_mark(content: &[u8]) -> bool
    ensures { result ≡ is_of_mark content.now }
{
    matches!(content, [MARK_KIND, ..])
}

/// Whether a record has no transaction of a session after its client's first.
fn has_early(entry: &Record) -> bool
    ensures { result ≡ has_early (record_of entry.now) }
{
    match entry {
        Record::Own(message) => says_early(&message.act),
        Record::Decided(bundle) => is_early(&bundle.value),
    }
}

fn says_early(act: &Act) -> bool
    ensures { result ≡ says_early (act_of act.now) }
{
    match act {
        Act::Proposing(_, value) => is_early(value),
        Act::Precommitting(Some(named)) => is_early(named.value()),
        Act::Prevoting(_) | Act::Precommitting(None) => true,
    }
}

fn is_early(value: &Value) -> bool
    ensures { result ≡ is_early value.now }
{
    value.txs.as_slice().iter().all(|tx| tx.session == 0)
}

/// Where a step stands in a round.
fn number_of(step: Step) -> u8
    ensures { result ≡ step_number step }
{
    match step {
        Step::Propose => 0,
        Step::Prevote => 1,
        Step::Precommit => 2,
    }
}
