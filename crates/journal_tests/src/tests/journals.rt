//! The worked values of the format, and what opening and saving leave.

ghost use Rattle.std.specs.Prelude.{◌≡◌};

use super::{assert_bytes, assert_same, refused_save};
use messages::{Bundle, Precommit};
use powers::Powers;
use protocol::{Act, OwnMessage, Record};
use std::process::Abort;
use transactions::{Data, Named, Op, Seq, Shared, Tx, Value, value_id};
use vote_journal::{Journal, MemoryStore, NotOpened, Opened, read_record, spell_record};

pub(super) const HEADER: [u8; 4] = *b"TMJ1";

/// The header and the mark, of which a journal without records consists.
pub(super) const MARKED: [u8; 13] = *b"TMJ1\0\0\0\x05\x04\0\0\0\x02";

/// The header and the first byte of the mark.
const HARDLY_MARKED: [u8; 5] = *b"TMJ1\0";

/// The record of a prevote for nil by validator 2 at height 0 and round 0.
pub(super) const PREVOTE: [u8; 21] = [
    0, 0, 0, 0x11, 1, 0x11, 0, 0, 0, 0, 0, 0, 0, 0, 0, 0, 0, 0, 0, 2, 0,
];

/// These, one behind the other.
pub(super) fn joined<R: Abort + AllocGlobal>(rt: &R, parts: &[&[u8]]) -> Vec<u8> {
    let mut bytes = Vec::new(rt.alloc());
    for part in parts {
        bytes.extend_from_slice(part).expect(rt, "they have room");
    }
    bytes
}

/// Tags of nines for four validators.
fn tags<R: Abort + AllocGlobal>(rt: &R) -> Seq<[u8; 32]> {
    let nines = [9; 32];
    let tags = vec![in rt.alloc(); nines, nines, nines, nines];
    Seq::from_vec(tags.expect(rt, "the tags have room"))
}

/// Client 7's transaction of this session and number.
fn tx_of<R: Abort + AllocGlobal>(rt: &R, session: u32, number: u64, op: Op) -> Tx {
    Tx {
        client: 7,
        session,
        number,
        op,
        tags: tags(rt),
    }
}

/// Client 7's transaction of this session and number, which asks for the byte `a`.
fn one_byte<R: Abort + AllocGlobal>(rt: &R, session: u32, number: u64) -> Tx {
    let contents = Data::from_slice(rt.alloc(), b"a").expect(rt, "the byte has room");
    tx_of(rt, session, number, Op::Bytes(contents))
}

/// The value of these transactions.
pub(super) fn value_of<R: Abort + AllocGlobal>(rt: &R, txs: Vec<Tx>) -> Value {
    Value {
        txs: Shared::from_vec(rt.alloc(), txs).expect(rt, "the value has room"),
    }
}

/// The value of client 7's transaction of this number alone.
pub(super) fn value<R: Abort + AllocGlobal>(rt: &R, number: u64) -> Value {
    let txs = vec![in rt.alloc(); one_byte(rt, 0, number)];
    value_of(rt, txs.expect(rt, "the transaction has room"))
}

/// The value of client 7's close of its first session and its first transaction of the next one.
pub(super) fn two_sessions<R: Abort + AllocGlobal>(rt: &R) -> Value {
    let txs = vec![in rt.alloc(); tx_of(rt, 0, 1, Op::Close), one_byte(rt, 1, 1)];
    value_of(rt, txs.expect(rt, "the transactions have room"))
}

/// The record of an own message at height 0 and round 0.
pub(super) fn own(act: Act) -> Record {
    Record::Own(OwnMessage {
        height: 0,
        round: 0,
        act,
    })
}

/// Bytes of a record of validator 3.
pub(super) fn spelled<R: Abort + AllocGlobal>(rt: &R, record: &Record) -> Vec<u8> {
    spell_record(rt.alloc(), 3, record).expect(rt, "the record has room")
}

/// The value with its id.
fn named<R: Abort + AllocGlobal>(rt: &R, value: Value) -> Named {
    let id = value_id(rt.alloc(), &value).expect(rt, "the value has an id");
    Named::new(value, id)
}

/// Bytes of the record of a prevote for the value.
pub(super) fn prevote<R: Abort + AllocGlobal>(rt: &R) -> Vec<u8> {
    let id = named(rt, value(rt, 1)).id();
    spelled(rt, &own(Act::Prevoting(Some(id))))
}

/// Bytes of the record of a precommit for the value.
pub(super) fn precommit<R: Abort + AllocGlobal>(rt: &R) -> Vec<u8> {
    lock_of(rt, value(rt, 1))
}

/// Bytes of the record of a precommit for this value.
pub(super) fn lock_of<R: Abort + AllocGlobal>(rt: &R, value: Value) -> Vec<u8> {
    spelled(rt, &own(Act::Precommitting(Some(named(rt, value)))))
}

/// The precommit of this validator.
fn precommit_by<R: Abort + AllocGlobal>(rt: &R, sender: u16) -> Precommit {
    Precommit {
        sender,
        tags: tags(rt),
    }
}

/// Precommits of validators 0, 1 and 3.
fn certificate<R: Abort + AllocGlobal>(rt: &R) -> Seq<Precommit> {
    let precommits = vec![in rt.alloc();
        precommit_by(rt, 0),
        precommit_by(rt, 1),
        precommit_by(rt, 3),
    ];
    Seq::from_vec(precommits.expect(rt, "the precommits have room"))
}

/// Bytes of the record of a decision of the transaction of this number.
pub(super) fn decision<R: Abort + AllocGlobal>(rt: &R, number: u64) -> Vec<u8> {
    decision_of(rt, value(rt, number))
}

/// Bytes of the record of a decision of this value.
pub(super) fn decision_of<R: Abort + AllocGlobal>(rt: &R, value: Value) -> Vec<u8> {
    let id = value_id(rt.alloc(), &value).expect(rt, "the value has an id");
    let bundle = Bundle {
        height: 0,
        sender: 3,
        round: 0,
        id,
        value,
        precommits: certificate(rt),
    };
    spelled(rt, &Record::Decided(bundle))
}

/// The journal of validator 3 that prevoted and precommitted the value and decided at height 0.
pub(super) fn decided<R: Abort + AllocGlobal>(rt: &R) -> Vec<u8> {
    joined(
        rt,
        &[&MARKED, &prevote(rt), &precommit(rt), &decision(rt, 1)],
    )
}

/// What a call left: the number of its fault or 0, how many decisions and own messages are kept, whether the journal has
/// failed, and the bytes.
#[derive(Drop)]
pub(super) struct Outcome {
    pub(super) fault: u8,
    decisions: usize,
    own: usize,
    failed: bool,
    pub(super) bytes: Vec<u8>,
}

/// Four validators of power 1.
pub(super) fn powers<R: Abort + AllocGlobal>(rt: &R) -> Powers {
    let powers = vec![in rt.alloc(); 1, 1, 1, 1].expect(rt, "the powers have room");
    Powers::new(powers).expect(rt, "these are powers")
}

/// A store of these bytes, of which the call of this number fails and keeps so many bytes.
pub(super) fn store<R: Abort + AllocGlobal>(
    rt: &R,
    bytes: &[u8],
    failing: u64,
    keep: usize,
) -> MemoryStore {
    MemoryStore::new(joined(rt, &[bytes]), failing, keep)
}

/// What an opened journal and a call with this fault left.
fn outcome_of_opened<R: Abort + AllocGlobal>(
    rt: &R,
    opened: Opened<MemoryStore>,
    fault: u8,
) -> Outcome {
    let Opened {
        journal,
        decisions,
        own,
    } = opened;
    Outcome {
        fault,
        decisions: decisions.len(),
        own: own.len(),
        failed: journal.has_failed(),
        bytes: joined(rt, &[journal.close().bytes()]),
    }
}

/// What an opening left.
pub(super) fn outcome_of<R: Abort + AllocGlobal>(
    rt: &R,
    opened: Result<Opened<MemoryStore>, NotOpened<MemoryStore>>,
) -> Outcome {
    match opened {
        Ok(opened) => outcome_of_opened(rt, opened, 0),
        Err(NotOpened { fault, store }) => Outcome {
            fault: fault as u8,
            decisions: 0,
            own: 0,
            failed: false,
            bytes: joined(rt, &[store.bytes()]),
        },
    }
}

/// Opens the journal of validator 2 of four.
fn open_at<R: Abort + AllocGlobal>(rt: &R, bytes: &[u8], failing: u64) -> Outcome {
    let store = store(rt, bytes, failing, 1);
    outcome_of(rt, Journal::open(rt.alloc(), store, 2, &powers(rt)))
}

/// Opens the journal of validator `me` of four.
pub(super) fn opened<R: Abort + AllocGlobal>(rt: &R, bytes: &[u8], me: u16) -> Outcome {
    let store = store(rt, bytes, 0, 1);
    outcome_of(rt, Journal::open(rt.alloc(), store, me, &powers(rt)))
}

/// Opens the journal of validator 2 and saves the prevote for nil: the fault of the save, and whether the journal has
/// failed.
pub(super) fn save_at<R: Abort + AllocGlobal>(rt: &R, bytes: &[u8], failing: u64) -> Outcome {
    let store = store(rt, bytes, failing, 1);
    match Journal::open(rt.alloc(), store, 2, &powers(rt)) {
        Ok(mut opened) => {
            let fault = saved(rt, &mut opened.journal);
            outcome_of_opened(rt, opened, fault)
        }
        Err(_) => rt.panic("not opened"),
    }
}

/// The number of the fault of saving the prevote for nil, 0 where it is saved, or 9 where the journal had failed before.
fn saved<R: Abort + AllocGlobal>(rt: &R, journal: &mut Journal<MemoryStore>) -> u8
    requires { journal.old.me ≡ 2 }
{
    if journal.has_failed() {
        return 9;
    }
    match refused_save(rt, journal, own(Act::Prevoting(None))) {
        None => 0,
        Some(fault) => fault as u8,
    }
}

/// The bytes with another one at this place.
fn changed<R: Abort + AllocGlobal>(rt: &R, bytes: &[u8], at: usize, byte: u8) -> Vec<u8> {
    let mut all = joined(rt, &[bytes]);
    if let Some(old) = all.get_mut(at) {
        *old = byte;
    }
    all
}

/// A header, the mark and these bytes.
fn behind_mark<R: Abort + AllocGlobal>(rt: &R, bytes: &[u8]) -> Vec<u8> {
    joined(rt, &[&MARKED, bytes])
}

/// Opening the journal of validator 2 with these bytes behind the mark has this fault.
fn assert_fault<R: Abort + AllocGlobal>(rt: &R, bytes: &[u8], fault: u8) {
    let found = opened(rt, &behind_mark(rt, bytes), 2);
    assert_same(rt, &found.fault, &fault);
}

/// The journal of validator 3 that decided is refused with each of these bytes at its place.
fn assert_each_refused<R: Abort + AllocGlobal>(rt: &R, changes: &[(usize, u8)]) {
    let bytes = decided(rt);
    for (at, byte) in changes {
        let found = opened(rt, &changed(rt, &bytes, *at, *byte), 3);
        assert_same(rt, &found.fault, &3);
    }
}

/// The record of the prevote for nil is refused with each of these bytes at its place.
fn assert_prevotes_refused<R: Abort + AllocGlobal>(rt: &R, changes: &[(usize, u8)]) {
    for (at, byte) in changes {
        assert_fault(rt, &changed(rt, &PREVOTE, *at, *byte), 3);
    }
}

/// An opening answered Ok, kept so many decisions and own messages, and left these bytes.
pub(super) fn assert_opened<R: Abort + AllocGlobal>(
    rt: &R,
    found: &Outcome,
    decisions: usize,
    own: usize,
    bytes: &[u8],
) {
    assert_same(rt, &found.fault, &0);
    assert_same(rt, &found.decisions, &decisions);
    assert_same(rt, &found.own, &own);
    assert_bytes(rt, &found.bytes, bytes);
}

/// The first bytes of the journal that decided open, with so many decisions and own messages, and so many bytes are kept.
fn assert_opens_cut<R: Abort + AllocGlobal>(
    rt: &R,
    len: usize,
    decisions: usize,
    own: usize,
    kept: usize,
) {
    let bytes = decided(rt);
    let found = opened(rt, &bytes.as_slice()[..len.min(bytes.len())], 3);
    let kept = &bytes.as_slice()[..kept.min(bytes.len())];
    assert_opened(rt, &found, decisions, own, kept);
}

/// Whether these bytes of validator 3 open as a journal without records.
fn has_no_records<R: Abort + AllocGlobal>(rt: &R, bytes: &[u8]) -> bool {
    match Journal::open(rt.alloc(), store(rt, bytes, 0, 1), 3, &powers(rt)) {
        Ok(opened) => opened.without_records().is_ok(),
        Err(_) => rt.panic("not opened"),
    }
}

/// Opening a journal that has only the decision of the transaction of this number has this fault.
fn assert_decision_fault<R: Abort + AllocGlobal>(rt: &R, number: u64, fault: u8) {
    let bytes = behind_mark(rt, &decision(rt, number));
    assert_same(rt, &opened(rt, &bytes, 3).fault, &fault);
}

/// Opening fails where the call of this number does, and leaves these bytes.
fn assert_opening_fails<R: Abort + AllocGlobal>(rt: &R, bytes: &[u8], failing: u64, left: &[u8]) {
    let found = open_at(rt, bytes, failing);
    assert_same(rt, &found.fault, &1);
    assert_bytes(rt, &found.bytes, left);
}

/// A save fails where the call of this number does, and what is left then opens with so many own messages.
fn assert_saving_fails<R: Abort + AllocGlobal>(rt: &R, failing: u64, len: usize, own: usize) {
    let failed = save_at(rt, &MARKED, failing);
    assert_same(rt, &failed.fault, &1);
    assert_same(rt, &failed.failed, &true);
    assert_same(rt, &failed.bytes.len(), &len);
    assert_same(rt, &opened(rt, &failed.bytes, 2).own, &own);
}

/// Opening ends with this fault, where the call of this number fails.
fn assert_opens_as<R: Abort + AllocGlobal>(rt: &R, bytes: &[u8], failing: u64, fault: u8) {
    assert_same(rt, &open_at(rt, bytes, failing).fault, &fault);
}

#[test]
fn worked_prevote(rt: HostRuntime) {
    let bytes = spell_record(rt.alloc(), 2, &own(Act::Prevoting(None)));
    assert_bytes(&rt, &bytes.expect(&rt, "the record has room"), &PREVOTE);
    assert!(rt; read_record(rt.alloc(), 2, &PREVOTE[4..]).is_ok());
}

#[test]
fn worked_sizes(rt: HostRuntime) {
    assert_same(&rt, &prevote(&rt).len(), &53);
    assert_same(&rt, &precommit(&rt).len(), &199);
    assert_same(&rt, &decision(&rt, 1).len(), &592);
    assert_same(&rt, &decided(&rt).len(), &857);
}

#[test]
fn whole_journal(rt: HostRuntime) {
    assert_opens_cut(&rt, 857, 1, 0, 857);
}

#[test]
fn decision_cut_short(rt: HostRuntime) {
    assert_opens_cut(&rt, 856, 0, 2, 265);
}

/// A decision and the prevote for nil of height 1 behind it are kept, and no own message of height 0.
#[test]
fn decision_lets_go_of_messages(rt: HostRuntime) {
    let later = Record::Own(OwnMessage {
        height: 1,
        round: 0,
        act: Act::Prevoting(None),
    });
    let bytes = joined(&rt, &[&decided(&rt), &spelled(&rt, &later)]);
    assert_opened(&rt, &opened(&rt, &bytes, 3), 1, 1, &bytes);
}

/// A journal without records is told from one with an own message and from one with a decision.
#[test]
fn nothing_saved_yet(rt: HostRuntime) {
    let decided = decided(&rt);
    let said = &decided.as_slice()[..66.min(decided.len())];
    assert_same(&rt, &has_no_records(&rt, &[]), &true);
    assert_same(&rt, &has_no_records(&rt, &HEADER), &true);
    assert_same(&rt, &has_no_records(&rt, &MARKED), &true);
    assert_same(&rt, &has_no_records(&rt, said), &false);
    assert_same(&rt, &has_no_records(&rt, &decided), &false);
}

/// A prevote that was cut short is cut away, and a save then adds it.
#[test]
fn prevote_cut_short(rt: HostRuntime) {
    let whole = behind_mark(&rt, &PREVOTE);
    let torn = &whole.as_slice()[..whole.len().min(18)];
    assert_opened(&rt, &opened(&rt, torn, 2), 0, 0, &MARKED);
    assert_opened(&rt, &save_at(&rt, torn, 0), 0, 0, &whole);
}

#[test]
fn header_cut_short(rt: HostRuntime) {
    for len in 0..14 {
        assert_opened(&rt, &opened(&rt, &MARKED[..len], 2), 0, 0, &MARKED);
    }
    assert_opens_as(&rt, b"TN", 0, 3);
    assert_opens_as(&rt, b"TMJ2", 0, 3);
}

#[test]
fn bad_lengths(rt: HostRuntime) {
    assert_fault(&rt, &[0, 0, 0, 0], 3);
    assert_fault(&rt, &[0, 0x10, 0xc8, 0xe1], 3);
    // At the limit, with less behind it, a record was cut short.
    assert_fault(&rt, &[0, 0x10, 0xc8, 0xe0, 7, 7], 0);
}

#[test]
fn bad_kinds(rt: HostRuntime) {
    // A kind that no record has, and a precommit for nil as one for a value.
    assert_fault(&rt, &[0, 0, 0, 5, 5, 0, 0, 0, 2], 3);
    let mut nil = PREVOTE;
    nil[4] = 2;
    nil[5] = 0x12;
    assert_fault(&rt, &nil, 3);
    // A precommit for a value as one for nil, a bundle as an own message, and a prevote as a decision.
    assert_each_refused(&rt, &[(70, 1), (269, 1), (17, 3)]);
}

#[test]
fn bad_messages(rt: HostRuntime) {
    assert_fault(&rt, &PREVOTE, 0);
    // A prevote of another sender, of height 1, with flag 2, and the same one twice.
    assert_prevotes_refused(&rt, &[(19, 1), (13, 1), (20, 2)]);
    assert_fault(&rt, &joined(&rt, &[&PREVOTE, &PREVOTE]), 3);
    // A locked value whose digest isn't the precommit's id.
    assert_each_refused(&rt, &[(264, 8)]);
}

#[test]
fn bad_decisions(rt: HostRuntime) {
    // Another height, another sender, another id; then senders 0, 0, 3, senders 0, 4, 3, and senders 0, 1, 4, of which
    // the last has no power.
    let changes = [(278, 1), (280, 2), (285, 0), (596, 0), (596, 4), (727, 4)];
    assert_each_refused(&rt, &changes);
    // A value that may not be delivered next.
    assert_decision_fault(&rt, 2, 3);
    assert_decision_fault(&rt, 1, 0);
}

/// What is cut short is cut, the header and the mark are added where they are missing, and then all is synced. A whole
/// journal is synced all the same, and nothing else is done.
#[test]
fn store_fails_in_opening(rt: HostRuntime) {
    assert_opening_fails(&rt, &[], 1, b"T");
    assert_opening_fails(&rt, &[], 2, &HARDLY_MARKED);
    assert_opening_fails(&rt, &[], 3, &MARKED);
    assert_opens_as(&rt, &[], 4, 0);
    assert_opening_fails(&rt, &HEADER, 1, &HARDLY_MARKED);
    assert_opening_fails(&rt, &HEADER, 2, &MARKED);
    assert_opens_as(&rt, &HEADER, 3, 0);
    assert_opening_fails(&rt, &MARKED, 1, &MARKED);
    assert_opens_as(&rt, &MARKED, 2, 0);
    let torn = b"TMJ1\0\0\0";
    assert_opening_fails(&rt, torn, 1, torn);
    assert_opening_fails(&rt, torn, 2, &HARDLY_MARKED);
    assert_opening_fails(&rt, torn, 3, &MARKED);
    assert_opens_as(&rt, torn, 4, 0);
}

#[test]
fn store_fails_in_saving(rt: HostRuntime) {
    // The sync of opening is the first call; a save appends and syncs.
    assert_saving_fails(&rt, 2, 14, 0);
    assert_saving_fails(&rt, 3, 34, 1);
    assert_same(&rt, &save_at(&rt, &MARKED, 4).fault, &0);
}
