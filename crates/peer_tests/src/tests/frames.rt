//! What peers bring, and what validator 3 sends.

use authenticators::hmac;
use messages::{
    Ask, Body, Bundle, Precommit, Proposal, Step as VoteStep, Vote, frame_of, spell_body,
};
use std::alloc::Global;
use std::process::Abort;
use transactions::{Id, Seq, Value, read_value, value_id};

/// The reply to a transaction that was queued.
pub(super) const ACCEPTED: [u8; 7] = [0, 0, 0, 3, 0x20, 0, 0];

/// The reply to one whose number was queued before.
pub(super) const OLD_NUMBER: [u8; 7] = [0, 0, 0, 3, 0x20, 13, 3];

/// The reply to one whose session is ahead of the one that is open.
pub(super) const SESSION_AHEAD: [u8; 7] = [0, 0, 0, 3, 0x20, 13, 9];

/// The reply that a validator which has halted refuses a transaction by.
pub(super) const HALTED: [u8; 7] = [0, 0, 0, 3, 0x20, 15, 0];

/// Client C's transaction of this number, of the byte 61.
fn tx_body(client: u8, number: u8) -> [u8; 15] {
    [1, 0, client, 0, 0, 0, 0, 0, 0, 0, number, 0, 0, 1, 0x61]
}

fn client_key(client: u8) -> [u8; 32] {
    [client.saturating_add(0xc0); 32]
}

/// The frame of a client's body, whose tag for validator 3 is right.
fn client_frame(rt: &impl Abort, alloc: Global, client: u8, body: &[u8]) -> Vec<u8> {
    framed(
        rt,
        alloc,
        body,
        &[[0; 32], [0; 32], [0; 32], hmac(&client_key(client), body)],
    )
}

/// A client's frame.
pub(super) fn transaction(rt: &impl Abort, alloc: Global, client: u8, number: u8) -> Vec<u8> {
    client_frame(rt, alloc, client, &tx_body(client, number))
}

/// The frame of a client's close of its first session, with this number.
pub(super) fn close(rt: &impl Abort, alloc: Global, client: u8, number: u8) -> Vec<u8> {
    let body = [1, 0, client, 0, 0, 0, 0, 0, 0, 0, number, 1];
    client_frame(rt, alloc, client, &body)
}

/// The frame of a client's transaction of a later session, of the byte 61.
pub(super) fn later(
    rt: &impl Abort,
    alloc: Global,
    client: u8,
    session: u8,
    number: u8,
) -> Vec<u8> {
    let body = [
        2, 0, client, 0, 0, 0, session, 0, 0, 0, 0, 0, 0, 0, number, 0, 0, 1, 0x61,
    ];
    client_frame(rt, alloc, client, &body)
}

/// A value's bytes: those of its one transaction, of client 7 with this number, and the tags for validators 0 to 3.
fn value_spelling(rt: &impl Abort, alloc: Global, number: u8) -> Vec<u8> {
    let tx = tx_body(7, number);
    let mut bytes = Vec::new(alloc);
    put(rt, &mut bytes, &[0, 1]);
    put(rt, &mut bytes, &tx);
    put(rt, &mut bytes, &[4]);
    put(rt, &mut bytes, &[0; 96]);
    put(rt, &mut bytes, &hmac(&client_key(7), &tx));
    bytes
}

/// Writes more bytes behind these.
pub(super) fn put(rt: &impl Abort, bytes: &mut Vec<u8>, more: &[u8]) {
    bytes.extend_from_slice(more).expect(rt, "no memory");
}

/// The value of one transaction of client 7.
fn value(rt: &impl Abort, alloc: Global, number: u8) -> Value {
    read_value(alloc, &value_spelling(rt, alloc, number)).expect(rt, "the value is read")
}

/// The id of the value of one transaction of client 7.
fn id(rt: &impl Abort, alloc: Global, number: u8) -> Id {
    value_id(alloc, &value(rt, alloc, number)).expect(rt, "the value is spelled")
}

/// The frame of a spelled body with these four tags.
fn framed(rt: &impl Abort, alloc: Global, spelled: &[u8], tags: &[[u8; 32]; 4]) -> Vec<u8> {
    assert!(rt; spelled.len() < 2_000);
    frame_of(alloc, spelled, tags).expect(rt, "no memory")
}

/// A body's spelling.
fn spelling(rt: &impl Abort, alloc: Global, body: &Body) -> Vec<u8> {
    spell_body(alloc, body).expect(rt, "the body is spelled")
}

/// A spelled body's tags by validator S, of which the one for validator 3 is right.
fn tags_by(sender: u8, spelled: &[u8]) -> [[u8; 32]; 4] {
    let key = [sender.saturating_mul(0x11); 32];
    [[0; 32], [0; 32], [0; 32], hmac(&key, spelled)]
}

/// The frame of a body by validator S, whose tag for validator 3 is right.
fn frame(rt: &impl Abort, alloc: Global, sender: u8, body: &Body) -> Vec<u8> {
    let spelled = spelling(rt, alloc, body);
    framed(rt, alloc, &spelled, &tags_by(sender, &spelled))
}

/// The frame of a body by validator 3, with each of its tags.
fn own_frame(rt: &impl Abort, alloc: Global, body: &Body) -> Vec<u8> {
    let spelled = spelling(rt, alloc, body);
    let theirs = hmac(&[0x44; 32], &spelled);
    let tags = [theirs, theirs, theirs, hmac(&[0x33; 32], &spelled)];
    framed(rt, alloc, &spelled, &tags)
}

/// The proposal of round 0 of this height, by its proposer: client 7's next transaction.
pub(super) fn proposal(rt: &impl Abort, alloc: Global, height: u8) -> Vec<u8> {
    let sender = height % 4;
    let body = Body::Proposal(Proposal {
        height: u64::from(height),
        round: 0,
        sender: u16::from(sender),
        valid_round: None,
        value: value(rt, alloc, height.saturating_add(1)),
    });
    frame(rt, alloc, sender, &body)
}

/// A validator's vote for it.
fn vote_body(rt: &impl Abort, alloc: Global, step: VoteStep, height: u8, sender: u8) -> Body {
    Body::Vote(Vote {
        step,
        height: u64::from(height),
        round: 0,
        sender: u16::from(sender),
        content: Some(id(rt, alloc, height.saturating_add(1))),
    })
}

/// The frame of a vote for it.
pub(super) fn vote(
    rt: &impl Abort,
    alloc: Global,
    step: VoteStep,
    height: u8,
    sender: u8,
) -> Vec<u8> {
    frame(
        rt,
        alloc,
        sender,
        &vote_body(rt, alloc, step, height, sender),
    )
}

/// Validator 3's own vote for it.
pub(super) fn own_vote(rt: &impl Abort, alloc: Global, step: VoteStep, height: u8) -> Vec<u8> {
    own_frame(rt, alloc, &vote_body(rt, alloc, step, height, 3))
}

/// Validator 3's prevote for nil in round 0 of height 0.
pub(super) fn own_nil(rt: &impl Abort, alloc: Global) -> Vec<u8> {
    let body = Body::Vote(Vote {
        step: VoteStep::Prevote,
        height: 0,
        round: 0,
        sender: 3,
        content: None,
    });
    own_frame(rt, alloc, &body)
}

/// A validator's ask.
fn ask_body(height: u8, sender: u16) -> Body {
    Body::Ask(Ask {
        height: u64::from(height),
        sender,
    })
}

/// Validator 3's ask.
pub(super) fn own_ask(rt: &impl Abort, alloc: Global, height: u8) -> Vec<u8> {
    own_frame(rt, alloc, &ask_body(height, 3))
}

/// Validator 0's ask.
pub(super) fn ask(rt: &impl Abort, alloc: Global, height: u8) -> Vec<u8> {
    frame(rt, alloc, 0, &ask_body(height, 0))
}

/// The frames by which this height decides: the proposal, and the votes of validators 0 and 1.
pub(super) fn deciding(rt: &impl Abort, alloc: Global, height: u8) -> Vec<u8> {
    let mut bytes = proposal(rt, alloc, height);
    for (step, sender) in [
        (VoteStep::Prevote, 0),
        (VoteStep::Prevote, 1),
        (VoteStep::Precommit, 0),
        (VoteStep::Precommit, 1),
    ] {
        put(rt, &mut bytes, &vote(rt, alloc, step, height, sender));
    }
    bytes
}

/// A precommit of this height, with the tag for validator 3.
fn precommit(rt: &impl Abort, alloc: Global, height: u8, sender: u8) -> Precommit {
    let body = vote_body(rt, alloc, VoteStep::Precommit, height, sender);
    let tags = tags_by(sender, &spelling(rt, alloc, &body));
    Precommit {
        sender: u16::from(sender),
        tags: Seq::from_vec(tags.to_vec(alloc).expect(rt, "no memory")),
    }
}

/// The precommits of validators 0 to 2 of this height.
fn precommits(rt: &impl Abort, alloc: Global, height: u8) -> Seq<Precommit> {
    let mut precommits = Seq::new(alloc);
    for sender in 0..3u8 {
        precommits
            .push(precommit(rt, alloc, height, sender))
            .expect(rt, "no memory");
    }
    precommits
}

/// Validator 0's bundle of this height.
pub(super) fn bundle(rt: &impl Abort, alloc: Global, height: u8) -> Vec<u8> {
    let number = height.saturating_add(1);
    let body = Body::Bundle(Bundle {
        height: u64::from(height),
        sender: 0,
        round: 0,
        id: id(rt, alloc, number),
        value: value(rt, alloc, number),
        precommits: precommits(rt, alloc, height),
    });
    frame(rt, alloc, 0, &body)
}
