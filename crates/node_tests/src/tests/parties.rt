//! The parties of a world: four validators, of whom 0 and 2 lie, and eight clients.

ghost use Rattle.std.specs.Prelude.{◌≡◌, length};

use super::{assert_same, four_powers};
use messages::{Body, Message, Step, Vote, read};
use std::alloc::Global;
use std::process::Abort;
use transactions::{Item, Op, Seq, Value, read_value, value_id};
use world_parties::{FaultNumber, Parties, Proposing, Tagged, Voting};

fn parties_of(rt: &impl Abort, alloc: Global) -> Parties
    ensures { length result.powers ≡ 4 }
{
    Parties::new(four_powers(rt, alloc), 8, &[2, 0, 2]).expect(rt, "they are parties")
}

fn empty_value(rt: &impl Abort, alloc: Global) -> Value {
    read_value(alloc, &[0, 0]).expect(rt, "it is the empty value")
}

/// Each number is a correct validator's, a liar's, or nobody's; client numbers are their own.
#[test]
fn who_is_who(rt: HostRuntime) {
    let parties = parties_of(&rt, rt.alloc());
    assert_who(&rt, &parties);
}

fn assert_who(rt: &impl Abort, parties: &Parties) {
    let nobody = FaultNumber::NoSuchParty;
    assert_same(rt, &parties.count(), &4);
    assert_same(rt, &parties.powers().total(), &4);
    assert_same(rt, &parties.correct_at(1), &Ok(1));
    assert_same(rt, &parties.correct_at(2), &Err(nobody));
    assert_same(rt, &parties.liar_at(2), &Ok(2));
    assert_same(rt, &parties.liar_at(1), &Err(nobody));
    assert_same(rt, &parties.liar_at(4), &Err(nobody));
    assert_same(rt, &parties.correct_at(65_536), &Err(nobody));
    assert_same(rt, &parties.client_at(7), &Ok(7));
    assert_same(rt, &parties.client_at(8), &Err(nobody));
}

/// A ring of a world has the keys of its validators.
#[test]
fn ring_of_a_validator(rt: HostRuntime) {
    let parties = parties_of(&rt, rt.alloc());
    let ring = parties
        .ring_of(rt.alloc(), 3)
        .expect(&rt, "the ring has room");
    assert_same(&rt, &ring.count(), &4);
}

/// Liar 2's precommit of the empty value at height 5 and round 1, as a line asks for it.
fn precommit_line(rt: &impl Abort, alloc: Global) -> Voting {
    Voting {
        sender: 2,
        step: Step::Precommit,
        height: 5,
        round: 1,
        value: Some(empty_value(rt, alloc)),
    }
}

/// The same precommit, as it is to be found in its frame.
fn precommit(rt: &impl Abort, alloc: Global) -> Vote {
    let id = value_id(alloc, &empty_value(rt, alloc)).expect(rt, "the value has an id");
    Vote {
        step: Step::Precommit,
        height: 5,
        round: 1,
        sender: 2,
        content: Some(id),
    }
}

/// The message is this vote, with four tags.
fn assert_vote(rt: &impl Abort, message: &Message, vote: &Vote) {
    assert!(rt; matches!(&message.body, Body::Vote(found) if found == vote));
    assert_same(rt, &message.tags.len(), &4);
}

/// The frame says the precommit.
fn assert_precommit(rt: &impl Abort, alloc: Global, frame: &[u8]) {
    let message = read(alloc, frame).expect(rt, "the frame is a message's");
    assert_vote(rt, &message, &precommit(rt, alloc));
}

fn votes_for_a_liar(rt: &impl Abort, alloc: Global, parties: &Parties) {
    let frame = parties
        .frame_of_vote(alloc, &precommit_line(rt, alloc))
        .expect(rt, "the vote has a frame");
    assert_precommit(rt, alloc, &frame);
}

#[test]
fn vote_of_a_liar(rt: HostRuntime) {
    let parties = parties_of(&rt, rt.alloc());
    votes_for_a_liar(&rt, rt.alloc(), &parties);
}

#[test]
fn kept_keys_give_the_same_frame(rt: HostRuntime) {
    let alloc = rt.alloc();
    let mut parties = parties_of(&rt, alloc);
    let line = precommit_line(&rt, alloc);
    let before = parties
        .frame_of_vote(alloc, &line)
        .expect(&rt, "the vote has a frame");
    parties.keep_keys(alloc).expect(&rt, "there is memory");
    let after = parties
        .frame_of_vote(alloc, &line)
        .expect(&rt, "the vote has a frame");
    assert_same(&rt, &after, &before);
    votes_for_a_liar(&rt, alloc, &parties);
}

/// Whether it is liar 0's proposal of height 5 with the valid round 0.
fn is_proposal(body: &Body) -> bool {
    match body {
        Body::Proposal(found) => found.sender == 0
            && found.height == 5
            && found.valid_round == Some(0),
        _ => false,
    }
}

/// The frame says liar 0's proposal, with four tags.
fn assert_proposal(rt: &impl Abort, alloc: Global, frame: &[u8]) {
    let message = read(alloc, frame).expect(rt, "the frame is a message's");
    assert!(rt; is_proposal(&message.body));
    assert_same(rt, &message.tags.len(), &4);
}

fn proposes_for_a_liar(rt: &impl Abort, alloc: Global, parties: &Parties) {
    let line = Proposing {
        sender: 0,
        height: 5,
        round: 1,
        valid_round: Some(0),
        value: empty_value(rt, alloc),
    };
    let frame = parties
        .frame_of_proposal(alloc, &line)
        .expect(rt, "the proposal has a frame");
    assert_proposal(rt, alloc, &frame);
}

#[test]
fn proposal_of_a_liar(rt: HostRuntime) {
    let parties = parties_of(&rt, rt.alloc());
    proposes_for_a_liar(&rt, rt.alloc(), &parties);
}

/// Client 7's close, of whose tags only validator 1's is right.
fn close_line(rt: &impl Abort, alloc: Global) -> Tagged {
    Tagged {
        item: Item {
            client: 7,
            session: 0,
            number: 1,
            op: Op::Close,
        },
        right: Some(Seq::from_vec(vec![in alloc; 1].expect(rt, "one number has room"))),
    }
}

/// How many tags of the frame's message are zeros.
fn count_zero_tags(rt: &impl Abort, alloc: Global, frame: &[u8]) -> usize {
    let message = read(alloc, frame).expect(rt, "the frame is a message's");
    message
        .tags
        .as_slice()
        .iter()
        .filter(|tag| **tag == [0; 32])
        .count()
}

fn tags_for_a_client(rt: &impl Abort, alloc: Global, parties: &Parties) {
    let frame = parties
        .frame_of_tx(alloc, &close_line(rt, alloc))
        .expect(rt, "the transaction has a frame");
    assert_same(rt, &count_zero_tags(rt, alloc, &frame), &3);
}

/// A transaction with one right tag of four: the others are zeros.
#[test]
fn transaction_of_a_client(rt: HostRuntime) {
    let parties = parties_of(&rt, rt.alloc());
    tags_for_a_client(&rt, rt.alloc(), &parties);
}
