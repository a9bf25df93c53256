//! The mark of the form with sessions: where it stands, what may stand before it, and how an old journal gets it.

use super::journals::{
    HEADER, MARKED, PREVOTE, assert_opened, decision, decision_of, joined, lock_of, opened,
    outcome_of, own, powers, precommit, prevote, save_at, spelled, store, two_sessions,
};
use super::{assert_bytes, assert_same};
use messages::Bundle;
use protocol::{Act, OwnMessage, Record};
use std::process::Abort;
use vote_journal::{Journal, MemoryStore, Opened};

/// The length of what the mark has behind it, its kind, and the number of the form.
const MARK: [u8; 9] = [0, 0, 0, 5, 4, 0, 0, 0, 2];

/// Records of the mark's kind: of another number, twice, of the number without its last byte, with a byte behind it, and of
/// no number.
const NO_MARKS: [&[u8]; 5] = [
    &[0, 0, 0, 5, 4, 0, 0, 0, 3],
    &[0, 0, 0, 5, 4, 2, 0, 0, 2],
    &[0, 0, 0, 4, 4, 0, 0, 0],
    &[0, 0, 0, 6, 4, 0, 0, 0, 2, 0],
    &[0, 0, 0, 1, 4],
];

/// The header, and these behind it.
fn journal_of<R: Abort + AllocGlobal>(rt: &R, parts: &[&[u8]]) -> Vec<u8> {
    joined(rt, &[&HEADER, &joined(rt, parts)])
}

/// What a journal is opened with, spelled again: the decisions, and then the own messages.
fn kept_of<R: Abort + AllocGlobal>(rt: &R, opened: Opened<MemoryStore>) -> Vec<u8> {
    let Opened {
        journal: _,
        decisions,
        own,
    } = opened;
    let mut bytes = Vec::new(rt.alloc());
    put_decisions(rt, &mut bytes, decisions);
    put_messages(rt, &mut bytes, own);
    bytes
}

/// Adds the record of validator 3, spelled again.
fn put_record<R: Abort + AllocGlobal>(rt: &R, bytes: &mut Vec<u8>, record: &Record) {
    bytes
        .extend_from_slice(&spelled(rt, record))
        .expect(rt, "the record has room");
}

/// Adds the records of these decisions.
fn put_decisions<R: Abort + AllocGlobal>(rt: &R, bytes: &mut Vec<u8>, decisions: Vec<Bundle>) {
    for bundle in decisions {
        put_record(rt, bytes, &Record::Decided(bundle));
    }
}

/// Adds the records of these own messages.
fn put_messages<R: Abort + AllocGlobal>(rt: &R, bytes: &mut Vec<u8>, own: Vec<OwnMessage>) {
    for message in own {
        put_record(rt, bytes, &Record::Own(message));
    }
}

/// What the journal of validator 3 is opened with, spelled again.
fn kept<R: Abort + AllocGlobal>(rt: &R, bytes: &[u8]) -> Vec<u8> {
    match Journal::open(rt.alloc(), store(rt, bytes, 0, 0), 3, &powers(rt)) {
        Ok(opened) => kept_of(rt, opened),
        Err(_) => rt.panic("not opened"),
    }
}

/// Opening the journal of validator 3 keeps these records and leaves these bytes.
fn assert_opens_as<R: Abort + AllocGlobal>(rt: &R, bytes: &[u8], records: &[u8], left: &[u8]) {
    assert_bytes(rt, &opened(rt, bytes, 3).bytes, left);
    assert_bytes(rt, &kept(rt, bytes), records);
}

/// Each beginning of the bytes that is so long or longer opens with these records, and as all of the bytes.
fn assert_each_cut_opens<R: Abort + AllocGlobal>(
    rt: &R,
    whole: &[u8],
    shortest: usize,
    records: &[u8],
) {
    for len in shortest..=whole.len() {
        assert_opens_as(rt, &whole[..len.min(whole.len())], records, whole);
    }
}

/// The journal is refused as a bad one, and stays as it was.
fn assert_refused<R: Abort + AllocGlobal>(rt: &R, parts: &[&[u8]]) {
    let bytes = journal_of(rt, parts);
    let found = opened(rt, &bytes, 3);
    assert_same(rt, &found.fault, &3);
    assert_bytes(rt, &found.bytes, &bytes);
}

/// A journal that was begun before there was a mark: validator 3 prevoted and precommitted a value, and decided it.
fn old_journal<R: Abort + AllocGlobal>(rt: &R) -> Vec<u8> {
    journal_of(rt, &[&prevote(rt), &precommit(rt), &decision(rt, 1)])
}

/// That journal with the mark behind its records.
fn carried_over<R: Abort + AllocGlobal>(rt: &R) -> Vec<u8> {
    joined(rt, &[&old_journal(rt), &MARK])
}

/// A record is refused where no mark stands before it, and is kept where one does.
fn assert_wants_the_mark<R: Abort + AllocGlobal>(rt: &R, record: &[u8]) {
    let marked = journal_of(rt, &[&MARK, record]);
    assert_refused(rt, &[record]);
    assert_refused(rt, &[record, &MARK]);
    assert_opens_as(rt, &marked, record, &marked);
}

/// Opening the journal of validator 3 fails, where the call of this number does and keeps so many bytes of what it
/// appends, and leaves these bytes.
fn assert_stops<R: Abort + AllocGlobal>(
    rt: &R,
    bytes: &[u8],
    failing: u64,
    keep: usize,
    left: &[u8],
) {
    let store = store(rt, bytes, failing, keep);
    let found = outcome_of(rt, Journal::open(rt.alloc(), store, 3, &powers(rt)));
    assert_same(rt, &found.fault, &1);
    assert_bytes(rt, &found.bytes, left);
}

/// The call of this number, which appends the mark that `whole` ends with, may leave any beginning of it, and what stands
/// then opens with these records, as `whole`.
fn assert_each_stop_is_made_good<R: Abort + AllocGlobal>(
    rt: &R,
    bytes: &[u8],
    failing: u64,
    whole: &[u8],
    records: &[u8],
) {
    for keep in 0..=MARK.len() {
        let len = whole.len().saturating_sub(MARK.len()).saturating_add(keep);
        let left = &whole[..len.min(whole.len())];
        assert_stops(rt, bytes, failing, keep, left);
        assert_opens_as(rt, left, records, whole);
    }
}

/// That journal of 848 bytes gets the mark behind its records, also where the mark was cut short, and keeps its decision.
#[test]
fn decision_of_an_old_journal(rt: HostRuntime) {
    let whole = carried_over(&rt);
    assert_same(&rt, &whole.len(), &857);
    assert_each_cut_opens(&rt, &whole, 848, &decision(&rt, 1));
}

/// The same of a journal of 256 bytes that has own messages and no decision.
#[test]
fn messages_of_an_old_journal(rt: HostRuntime) {
    let said = joined(&rt, &[&prevote(&rt), &precommit(&rt)]);
    let whole = journal_of(&rt, &[&said, &MARK]);
    assert_same(&rt, &whole.len(), &265);
    assert_each_cut_opens(&rt, &whole, 256, &said);
}

/// A journal of one prevote, cut to nine bytes, gets the mark for what was cut short, and then the prevote anew.
#[test]
fn old_prevote_cut_short(rt: HostRuntime) {
    let old = journal_of(&rt, &[&PREVOTE]);
    let torn = &old.as_slice()[..9.min(old.len())];
    let wanted = journal_of(&rt, &[&MARK, &PREVOTE]);
    assert_same(&rt, &old.len(), &25);
    assert_same(&rt, &wanted.len(), &34);
    assert_opened(&rt, &opened(&rt, torn, 2), 0, 0, &MARKED);
    assert_opened(&rt, &save_at(&rt, torn, 0), 0, 0, &wanted);
}

/// A journal of these parts opens as it stands, with this decision.
fn assert_stands<R: Abort + AllocGlobal>(rt: &R, parts: &[&[u8]], decision: &[u8]) {
    let bytes = journal_of(rt, parts);
    assert_opens_as(rt, &bytes, decision, &bytes);
}

/// A journal with the mark at any place opens as it stands, with its decision.
#[test]
fn mark_at_any_place(rt: HostRuntime) {
    let said = [prevote(&rt), precommit(&rt), decision(&rt, 1)];
    let [prevote, precommit, decision] = &said;
    assert_stands(&rt, &[&MARK, prevote, precommit, decision], decision);
    assert_stands(&rt, &[prevote, &MARK, precommit, decision], decision);
    assert_stands(&rt, &[prevote, precommit, &MARK, decision], decision);
    assert_stands(&rt, &[prevote, precommit, decision, &MARK], decision);
}

#[test]
fn second_mark(rt: HostRuntime) {
    let prevote = prevote(&rt);
    assert_refused(&rt, &[&MARK, &MARK]);
    assert_refused(&rt, &[&MARK, &prevote, &MARK]);
    assert_refused(&rt, &[&prevote, &MARK, &MARK]);
    assert_refused(&rt, &[&MARK, &MARK, &prevote]);
}

#[test]
fn marks_of_another_form(rt: HostRuntime) {
    for bytes in &NO_MARKS {
        assert_refused(&rt, &[bytes]);
        assert_refused(&rt, &[&MARK, bytes]);
    }
}

/// A proposal, a precommit for a value and a decision want the mark where they have a transaction of a later session. A
/// prevote has none.
#[test]
fn later_sessions_before_the_mark(rt: HostRuntime) {
    let proposal = own(Act::Proposing(None, two_sessions(&rt)));
    assert_wants_the_mark(&rt, &spelled(&rt, &proposal));
    assert_wants_the_mark(&rt, &lock_of(&rt, two_sessions(&rt)));
    assert_wants_the_mark(&rt, &decision_of(&rt, two_sessions(&rt)));
}

/// A stop within the append of the mark, or at the sync behind it, loses nothing of an old journal.
fn assert_stops_of_an_old_journal<R: Abort + AllocGlobal>(rt: &R, whole: &[u8], decision: &[u8]) {
    let old = old_journal(rt);
    assert_each_stop_is_made_good(rt, &old, 1, whole, decision);
    assert_stops(rt, &old, 2, 0, whole);
}

/// Nor of one with a record that was cut short, which is cut away first.
fn assert_stops_of_a_torn_journal<R: Abort + AllocGlobal>(rt: &R, whole: &[u8], decision: &[u8]) {
    let torn = joined(rt, &[&old_journal(rt), &PREVOTE[..20]]);
    assert_stops(rt, &torn, 1, 0, &torn);
    assert_each_stop_is_made_good(rt, &torn, 2, whole, decision);
    assert_stops(rt, &torn, 3, 0, whole);
}

#[test]
fn stops_within_the_carrying_over(rt: HostRuntime) {
    let whole = carried_over(&rt);
    let decision = decision(&rt, 1);
    assert_stops_of_an_old_journal(&rt, &whole, &decision);
    assert_stops_of_a_torn_journal(&rt, &whole, &decision);
}

/// The same of a journal that is begun: its mark is an append of its own, behind that of the header.
#[test]
fn stops_within_the_beginning(rt: HostRuntime) {
    for keep in 0..HEADER.len() {
        let left = &HEADER[..keep.min(4)];
        assert_stops(&rt, &[], 1, keep, left);
        assert_opens_as(&rt, left, &[], &MARKED);
    }
    assert_each_stop_is_made_good(&rt, &[], 2, &MARKED, &[]);
}
