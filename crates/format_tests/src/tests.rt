mod equality;
mod faults;
mod frames;
mod longest;
mod pieces;
mod replies;

use crate::same::assert_same;
use messages::*;
use std::alloc::Global;
use std::process::Abort;
use transactions::{Data, Duplicate, Fault, Op, Seq, Shared, Tx, Value};

/// The body of client 7's transaction 1, which asks for the byte `a`.
const ONE_BYTE: [u8; 15] = [1, 0, 7, 0, 0, 0, 0, 0, 0, 0, 1, 0, 0, 1, b'a'];

/// The body of client 7's transaction 1 of session 1, which asks for the byte `b`.
const LATER: [u8; 19] = [2, 0, 7, 0, 0, 0, 1, 0, 0, 0, 0, 0, 0, 0, 1, 0, 0, 1, b'b'];

/// The body of client 7's transaction 2, which is a close.
const CLOSE: [u8; 12] = [1, 0, 7, 0, 0, 0, 0, 0, 0, 0, 2, 1];

/// A proposal of the empty value by validator 0 at height 0 and round 0, with no valid round.
const PROPOSAL: [u8; 21] = [
    0x10, 0, 0, 0, 0, 0, 0, 0, 0, 0, 0, 0, 0, 0, 0, 0, 0, 0, 0, 0, 0,
];

/// A prevote for nil by validator 2 at height 0 and round 0.
const PREVOTE: [u8; 16] = [0x11, 0, 0, 0, 0, 0, 0, 0, 0, 0, 0, 0, 0, 0, 2, 0];

/// A precommit by validator 2 at height 0 and round 0, for the id of sevens.
const PRECOMMIT: [u8; 48] = [
    0x12, 0, 0, 0, 0, 0, 0, 0, 0, 0, 0, 0, 0, 0, 2, 1, 7, 7, 7, 7, 7, 7, 7, 7, 7, 7, 7, 7, 7, 7, 7,
    7, 7, 7, 7, 7, 7, 7, 7, 7, 7, 7, 7, 7, 7, 7, 7, 7,
];

/// Validator 2 asks for height 5.
const ASK: [u8; 11] = [0x13, 0, 0, 0, 0, 0, 0, 0, 5, 0, 2];

/// A bundle with the empty value, up to the count of its precommits.
const BUNDLE_FRONT: [u8; 49] = [
    0x14, 0, 0, 0, 0, 0, 0, 0, 1, 0, 2, 0, 0, 0, 3, 7, 7, 7, 7, 7, 7, 7, 7, 7, 7, 7, 7, 7, 7, 7, 7,
    7, 7, 7, 7, 7, 7, 7, 7, 7, 7, 7, 7, 7, 7, 7, 7, 0, 0,
];

/// Bodies of transactions of a first and a later session, a proposal, a prevote and an ask.
const VECTORS: [&[u8]; 6] = [&ONE_BYTE, &CLOSE, &LATER, &PROPOSAL, &PREVOTE, &ASK];

/// What was looked at is so.
fn assert_holds(rt: &impl Abort, outcome: Result<bool, Fault>) {
    assert_same(rt, &outcome, &Ok(true));
}

/// This fault was found.
fn assert_fault(rt: &impl Abort, found: Option<Fault>, wanted: Fault) {
    assert_same(rt, &found, &Some(wanted));
}

/// Tags of nines.
fn nines(rt: &impl Abort, alloc: Global, count: usize) -> Seq<[u8; 32]> {
    let mut tags = Seq::new(alloc);
    for _ in 0..count {
        tags.push([9u8; 32]).expect(rt, "the tag has room");
    }
    tags
}

/// So many times the byte `a`.
fn letters(rt: &impl Abort, alloc: Global, count: usize) -> Data {
    let letters = vec![in alloc; b'a'; count].expect(rt, "the letters have room");
    Data::from_slice(alloc, &letters).expect(rt, "the letters have room")
}

/// A transaction of the last session, with so many bytes and tags.
fn tx_of(rt: &impl Abort, alloc: Global, bytes: usize, tags: usize) -> Tx {
    Tx {
        client: 1023,
        session: 0xffff_ffff,
        number: 1,
        op: Op::Bytes(letters(rt, alloc, bytes)),
        tags: nines(rt, alloc, tags),
    }
}

/// Puts a copy of a transaction behind others.
fn put_copy(rt: &impl Abort, alloc: Global, txs: &mut Vec<Tx>, tx: &Tx) {
    let again = tx.copy(alloc).expect(rt, "the copy has room");
    txs.push(again).expect(rt, "the transaction has room");
}

/// So many transactions, each of 1,024 bytes and 128 tags.
fn full_txs(rt: &impl Abort, alloc: Global, count: usize) -> Vec<Tx> {
    let tx = tx_of(rt, alloc, 1024, 128);
    let mut txs = Vec::new(alloc);
    for _ in 0..count {
        put_copy(rt, alloc, &mut txs, &tx);
    }
    txs
}

/// A value of these transactions.
fn value_with(rt: &impl Abort, alloc: Global, txs: Vec<Tx>) -> Value {
    Value {
        txs: Shared::from_vec(alloc, txs).expect(rt, "the transactions have room"),
    }
}

/// A value of so many transactions, each of 1,024 bytes and 128 tags.
fn value_of(rt: &impl Abort, alloc: Global, count: usize) -> Value {
    value_with(rt, alloc, full_txs(rt, alloc, count))
}

/// A precommit of validator 3 with so many tags.
fn precommit_of(rt: &impl Abort, alloc: Global, tags: usize) -> Precommit {
    Precommit {
        sender: 3,
        tags: nines(rt, alloc, tags),
    }
}

/// So many precommits, each with so many tags.
fn precommits_of(rt: &impl Abort, alloc: Global, count: usize, tags: usize) -> Seq<Precommit> {
    let mut precommits = Seq::new(alloc);
    for _ in 0..count {
        precommits
            .push(precommit_of(rt, alloc, tags))
            .expect(rt, "the precommit has room");
    }
    precommits
}

/// A bundle with this value and these precommits.
fn bundle_with(value: Value, precommits: Seq<Precommit>) -> Bundle {
    Bundle {
        height: 1,
        sender: 2,
        round: 3,
        id: [7; 32],
        value,
        precommits,
    }
}

/// The spelling of a bundle with so many transactions and precommits, each precommit with so many tags.
fn spelled_bundle(
    rt: &impl Abort,
    alloc: Global,
    txs: usize,
    precommits: usize,
    tags: usize,
) -> Result<Vec<u8>, Fault> {
    let precommits = precommits_of(rt, alloc, precommits, tags);
    let bundle = bundle_with(value_of(rt, alloc, txs), precommits);
    spell_body(alloc, &Body::Bundle(bundle))
}

/// The body that these bytes spell.
fn body_of(rt: &impl Abort, alloc: Global, bytes: &[u8]) -> Body {
    read_body(alloc, bytes).expect(rt, "the bytes spell a body")
}

/// The message with the body that these bytes spell and this many tags.
fn message_of(rt: &impl Abort, alloc: Global, body: &[u8], tags: usize) -> Message {
    Message {
        body: body_of(rt, alloc, body),
        tags: nines(rt, alloc, tags),
    }
}

/// The body has these bytes as its spelling.
fn assert_spelling(rt: &impl Abort, alloc: Global, bytes: &[u8], body: &Body) {
    let spelled = spell_body(alloc, body).expect(rt, "the body has a spelling");
    assert!(rt; spelled.as_slice() == bytes);
}

/// The body that these bytes spell has them as its spelling.
fn assert_there_and_back(rt: &impl Abort, alloc: Global, bytes: &[u8]) {
    let body = body_of(rt, alloc, bytes);
    assert_spelling(rt, alloc, bytes, &body);
}

/// A copy of the body that these bytes spell has them as its spelling.
fn assert_copied_and_back(rt: &impl Abort, alloc: Global, bytes: &[u8]) {
    let body = body_of(rt, alloc, bytes);
    let again = body.copy(alloc).expect(rt, "the copy has room");
    assert_spelling(rt, alloc, bytes, &again);
}

/// Whether the body is this vote.
fn is_vote(body: &Body, wanted: &Vote) -> bool {
    matches!(body, Body::Vote(vote) if same_vote(vote, wanted))
}

/// These bytes spell this vote.
fn assert_vote(rt: &impl Abort, alloc: Global, bytes: &[u8], wanted: &Vote) {
    assert!(rt; is_vote(&body_of(rt, alloc, bytes), wanted));
}

#[test]
fn vectors_there_and_back(rt: HostRuntime) {
    for bytes in &VECTORS {
        assert_there_and_back(&rt, rt.alloc(), bytes);
        assert_copied_and_back(&rt, rt.alloc(), bytes);
    }
}

/// A proposal by validator 7 at height 5 and round 6, with this code for its valid round.
fn proposal_with(valid_round: u8) -> [u8; 21] {
    let mut bytes = PROPOSAL;
    bytes[8] = 5;
    bytes[12] = 6;
    bytes[14] = 7;
    bytes[18] = valid_round;
    bytes
}

/// Whether the body is a proposal by validator 7 at height 5 and round 6, with this valid round and the empty value.
fn is_proposal(body: &Body, valid_round: Option<u32>) -> bool {
    matches!(body, Body::Proposal(proposal)
        if proposal.height == 5 && proposal.round == 6 && proposal.sender == 7
            && proposal.valid_round == valid_round && proposal.value.txs.len() == 0)
}

/// A proposal with this code for its valid round is read with this valid round.
fn assert_proposal(rt: &impl Abort, alloc: Global, code: u8, valid_round: Option<u32>) {
    let body = body_of(rt, alloc, &proposal_with(code));
    assert!(rt; is_proposal(&body, valid_round));
}

#[test]
fn proposals_are_read(rt: HostRuntime) {
    assert_proposal(&rt, rt.alloc(), 1, Some(0));
    assert_proposal(&rt, rt.alloc(), 0, None);
}

#[test]
fn prevote_is_read(rt: HostRuntime) {
    let nil = Vote {
        step: Step::Prevote,
        height: 0,
        round: 0,
        sender: 2,
        content: None,
    };
    assert_vote(&rt, rt.alloc(), &PREVOTE, &nil);
}

#[test]
fn precommit_there_and_back(rt: HostRuntime) {
    let for_sevens = Vote {
        step: Step::Precommit,
        height: 0,
        round: 0,
        sender: 2,
        content: Some([7; 32]),
    };
    assert_vote(&rt, rt.alloc(), &PRECOMMIT, &for_sevens);
    assert_there_and_back(&rt, rt.alloc(), &PRECOMMIT);
}

/// Whether the body is that of validator 2, which asks for height 5.
fn is_ask(body: &Body) -> bool {
    matches!(body, Body::Ask(ask) if ask.height == 5 && ask.sender == 2)
}

#[test]
fn ask_is_read(rt: HostRuntime) {
    assert!(&rt; is_ask(&body_of(&rt, rt.alloc(), &ASK)));
}

/// The precommits of a bundle with one precommit with one tag.
const ONE_PRECOMMIT: [u8; 36] = [
    1, 0, 3, 1, 9, 9, 9, 9, 9, 9, 9, 9, 9, 9, 9, 9, 9, 9, 9, 9, 9, 9, 9, 9, 9, 9, 9, 9, 9, 9, 9, 9,
    9, 9, 9, 9,
];

/// Whether the body is a bundle of validator 2 for height 1, with so many transactions and precommits of round 3, for
/// the id of sevens.
fn is_bundle(body: &Body, txs: usize, precommits: usize) -> bool {
    matches!(body, Body::Bundle(bundle)
        if bundle.height == 1 && bundle.sender == 2 && bundle.round == 3 && bundle.id == [7; 32]
            && bundle.value.txs.len() == txs && bundle.precommits.len() == precommits)
}

/// These bytes spell such a bundle.
fn assert_bundle(rt: &impl Abort, alloc: Global, bytes: &[u8], txs: usize, precommits: usize) {
    let body = body_of(rt, alloc, bytes);
    assert!(rt; is_bundle(&body, txs, precommits));
}

/// These bytes are the spelling of a bundle with the empty value and one precommit with one tag.
fn assert_bundle_of_one(rt: &impl Abort, alloc: Global, bytes: &[u8]) {
    assert!(rt; bytes.strip_prefix(&BUNDLE_FRONT) == Some(ONE_PRECOMMIT.as_slice()));
    assert_bundle(rt, alloc, bytes, 0, 1);
}

#[test]
fn bundle_there_and_back(rt: HostRuntime) {
    let bytes = spelled_bundle(&rt, rt.alloc(), 0, 1, 1).expect(&rt, "it has a spelling");
    assert_bundle_of_one(&rt, rt.alloc(), &bytes);
}

/// A copy of the message has its tags, and a body with this spelling.
fn assert_copied(rt: &impl Abort, alloc: Global, message: &Message, body: &[u8]) {
    let again = message.copy(alloc).expect(rt, "the copy has room");
    assert!(rt; again.tags == message.tags);
    assert_spelling(rt, alloc, body, &again.body);
}

#[test]
fn message_is_copied(rt: HostRuntime) {
    let message = message_of(&rt, rt.alloc(), &ASK, 4);
    assert_copied(&rt, rt.alloc(), &message, &ASK);
}
