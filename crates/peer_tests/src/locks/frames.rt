//! The frames that decide heights.

use super::MEMORY;
use authenticators::hmac;
use messages::{
    Ask, Body, Bundle, Precommit, Proposal, Step as VoteStep, Vote, frame_of, spell_body,
};
use std::alloc::Global;
use std::process::Abort;
use transactions::{
    Data, Id, Op, Seq, Shared, Tx, Value, len_of_tx_body, put_tx_body, read_value, value_id,
};

/// A value's bytes: those of its one transaction, of client 7 with this number, and the tags for validators 0 to 3.
fn value_spelling(number: u8) -> [u8; 146] {
    let tx = [1, 0, 7, 0, 0, 0, 0, 0, 0, 0, number, 0, 0, 1, 0x61];
    let mut bytes = [0; 146];
    bytes[1] = 1;
    bytes[2..17].copy_from_slice(&tx);
    bytes[17] = 4;
    bytes[114..].copy_from_slice(&hmac(&[0x77; 32], &tx));
    bytes
}

/// The value with this number.
fn value(rt: &impl Abort, alloc: Global, number: u8) -> Value {
    read_value(alloc, &value_spelling(number)).expect(rt, "it spells a value")
}

/// The value of client 7's transaction alone, with the right tag for validator 3.
fn value_of(rt: &impl Abort, alloc: Global, session: u32, number: u64, op: Op) -> Value {
    let mut tx = Tx {
        client: 7,
        session,
        number,
        op,
        tags: Seq::new(alloc),
    };
    let body = tx_body(rt, alloc, &tx);
    tx.tags = tags(rt, alloc, 0x77, &body);
    let txs = vec![in alloc; tx].expect(rt, MEMORY);
    Value {
        txs: Shared::from_vec(alloc, txs).expect(rt, MEMORY),
    }
}

/// The body of a transaction, of which its tags are.
fn tx_body(rt: &impl Abort, alloc: Global, tx: &Tx) -> Vec<u8> {
    let len = len_of_tx_body(tx).expect(rt, "it has a spelling");
    let mut body = Vec::with_capacity(alloc, len).expect(rt, MEMORY);
    put_tx_body(&mut body, tx).expect(rt, "there is room");
    body
}

/// The tags of a text, of which that for validator 3 is made under 32 times this byte.
fn tags(rt: &impl Abort, alloc: Global, key: u8, text: &[u8]) -> Seq<[u8; 32]> {
    let tags = tags_of(key, text).to_vec(alloc).expect(rt, MEMORY);
    Seq::from_vec(tags)
}

/// The same in an array: those for validators 0 to 2 are zero.
fn tags_of(key: u8, text: &[u8]) -> [[u8; 32]; 4] {
    [[0; 32], [0; 32], [0; 32], hmac(&[key; 32], text)]
}

/// The id of the value with this number.
fn id(rt: &impl Abort, alloc: Global, number: u8) -> Id {
    id_of(rt, alloc, &value(rt, alloc, number))
}

/// The id of a value.
fn id_of(rt: &impl Abort, alloc: Global, value: &Value) -> Id {
    value_id(alloc, value).expect(rt, "it has a spelling")
}

/// The bytes of a body.
fn spelled(rt: &impl Abort, alloc: Global, body: &Body) -> Vec<u8> {
    spell_body(alloc, body).expect(rt, "it has a spelling")
}

/// The frame of a body, whose tag for validator 3 is made under 32 times this byte.
fn frame(rt: &impl Abort, alloc: Global, key: u8, body: &Body) -> Vec<u8> {
    let spelled = spelled(rt, alloc, body);
    assert!(rt; spelled.len() < 2_000);
    frame_of(alloc, &spelled, &tags_of(key, &spelled)).expect(rt, MEMORY)
}

/// Validator 0's proposal of height 0.
pub(super) fn proposal(rt: &impl Abort, alloc: Global) -> Vec<u8> {
    let body = Body::Proposal(Proposal {
        height: 0,
        round: 0,
        sender: 0,
        valid_round: None,
        value: value(rt, alloc, 1),
    });
    frame(rt, alloc, 0x00, &body)
}

/// A vote for it.
pub(super) fn vote(
    rt: &impl Abort,
    alloc: Global,
    step: VoteStep,
    sender: u16,
    key: u8,
) -> Vec<u8> {
    let body = Body::Vote(Vote {
        step,
        height: 0,
        round: 0,
        sender,
        content: Some(id(rt, alloc, 1)),
    });
    frame(rt, alloc, key, &body)
}

fn own_vote(step: VoteStep, height: u64, content: Option<Id>) -> Body {
    Body::Vote(Vote {
        step,
        height,
        round: 0,
        sender: 3,
        content,
    })
}

/// What the validator says of height 0, and then of height 1, where it hears nobody and asks: a prevote of nil, twice.
pub(super) fn own_bodies(rt: &impl Abort, alloc: Global) -> [Body; 5] {
    let id = id(rt, alloc, 1);
    [
        own_vote(VoteStep::Prevote, 0, Some(id)),
        own_vote(VoteStep::Precommit, 0, Some(id)),
        own_vote(VoteStep::Prevote, 1, None),
        Body::Ask(Ask {
            height: 1,
            sender: 3,
        }),
        own_vote(VoteStep::Prevote, 1, None),
    ]
}

/// A precommit of this height, with the tag for validator 3 under a key of this byte.
fn precommit(
    rt: &impl Abort,
    alloc: Global,
    height: u64,
    id: Id,
    (sender, key): (u16, u8),
) -> Precommit {
    let body = Body::Vote(Vote {
        step: VoteStep::Precommit,
        height,
        round: 0,
        sender,
        content: Some(id),
    });
    Precommit {
        sender,
        tags: tags(rt, alloc, key, &spelled(rt, alloc, &body)),
    }
}

/// Precommits of this height by validators 0 to 2.
fn precommits(rt: &impl Abort, alloc: Global, height: u64, id: Id) -> Seq<Precommit> {
    let mut precommits = Seq::new(alloc);
    for signed in [(0, 0x00), (1, 0x11), (2, 0x22)] {
        let precommit = precommit(rt, alloc, height, id, signed);
        assert!(rt; precommits.push(precommit).is_ok());
    }
    precommits
}

/// Validator 0's bundle, by which this height decides client 7's transaction of the next number.
pub(super) fn bundle(rt: &impl Abort, alloc: Global, height: u8) -> Vec<u8> {
    let value = value(rt, alloc, height.saturating_add(1));
    bundle_of(rt, alloc, u64::from(height), value)
}

/// Validator 0's bundle, by which height 5 decides client 7's close of its first session, with number 6.
pub(super) fn close(rt: &impl Abort, alloc: Global) -> Vec<u8> {
    let value = value_of(rt, alloc, 0, 6, Op::Close);
    bundle_of(rt, alloc, 5, value)
}

/// Validator 0's bundle, by which height 6 decides client 7's first transaction of the next session.
pub(super) fn next_session(rt: &impl Abort, alloc: Global) -> Vec<u8> {
    let contents = Data::from_slice(alloc, b"b").expect(rt, MEMORY);
    let value = value_of(rt, alloc, 1, 1, Op::Bytes(contents));
    bundle_of(rt, alloc, 6, value)
}

/// Validator 0's bundle, by which this height decides the value.
fn bundle_of(rt: &impl Abort, alloc: Global, height: u64, value: Value) -> Vec<u8> {
    let id = id_of(rt, alloc, &value);
    let body = Body::Bundle(Bundle {
        height,
        sender: 0,
        round: 0,
        id,
        value,
        precommits: precommits(rt, alloc, height, id),
    });
    frame(rt, alloc, 0x00, &body)
}
