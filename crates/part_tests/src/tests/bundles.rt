//! Four validators of power 1, of which number 3 judges. The key of what validator S sends to it is
//! 32 times the byte 0xSS.

ghost use Rattle.std.specs.Prelude.{◌≡◌, ◌+◌, length};
ghost use Rattle.transactions.specs.Grammar.{IsValue};

use super::assert_same;
use super::queues::{byte, value_alone};
use authenticators::{KeyRing, Party, hmac};
use height_catchup::{Decisions, certified, judge};
use messages::{Body, Bundle, Precommit, Step, Vote, spell_body};
use powers::Powers;
use proposal_validity::Frontier;
use protocol::JudgeFault;
use std::process::Abort;
use transactions::{Id, Seq, Tx, Value, spell_value, value_id};

/// The right precommits of a quorum, each as its sender and the byte of its key.
const RIGHT: [(u16, u8); 3] = [(0, 0x00), (1, 0x11), (2, 0x22)];

/// The keys of validator 3.
const KEYS: &str = "v0 v3 0000000000000000000000000000000000000000000000000000000000000000\n\
v1 v3 1111111111111111111111111111111111111111111111111111111111111111\n\
v2 v3 2222222222222222222222222222222222222222222222222222222222222222\n\
v3 v3 3333333333333333333333333333333333333333333333333333333333333333\n\
v3 v0 4444444444444444444444444444444444444444444444444444444444444444\n\
v3 v1 4444444444444444444444444444444444444444444444444444444444444444\n\
v3 v2 4444444444444444444444444444444444444444444444444444444444444444\n";

/// The keys of validator 3.
fn ring<R: Abort + AllocGlobal>(rt: &R) -> KeyRing {
    let ring = KeyRing::read(rt.alloc(), KEYS.as_bytes(), Party::Validator(3), 4);
    ring.expect(rt, "these are keys")
}

/// The transaction of client 7 with this number, whose bytes are "a".
fn tx<R: Abort + AllocGlobal>(rt: &R, number: u64) -> Tx {
    let tags = vec![in rt.alloc(); [9; 32]].expect(rt, "the tag has room");
    Tx {
        client: 7,
        session: 0,
        number,
        op: byte(rt, b'a'),
        tags: Seq::from_vec(tags),
    }
}

/// The value of one transaction of client 7 with this number, whose bytes are "a".
fn value<R: Abort + AllocGlobal>(rt: &R, number: u64) -> Value
    ensures { IsValue result }
{
    let value = value_alone(rt, tx(rt, number));
    let _spelling = spell_value(rt.alloc(), &value).expect(rt, "it has a spelling");
    value
}

/// The tag of a precommit for height 0 and round 0 under a key of this byte.
fn tag_of<R: Abort + AllocGlobal>(rt: &R, id: Id, sender: u16, key: u8) -> [u8; 32] {
    let vote = Vote {
        step: Step::Precommit,
        height: 0,
        round: 0,
        sender,
        content: Some(id),
    };
    let body = spell_body(rt.alloc(), &Body::Vote(vote)).expect(rt, "it has a body");
    hmac(&[key; 32], &body)
}

/// A precommit for height 0 and round 0, with the tag for validator 3 under a key of this byte.
fn precommit<R: Abort + AllocGlobal>(rt: &R, id: Id, sender: u16, key: u8) -> Precommit {
    let tag = tag_of(rt, id, sender, key);
    let tags = vec![in rt.alloc(); [0; 32], [0; 32], [0; 32], tag];
    Precommit {
        sender,
        tags: Seq::from_vec(tags.expect(rt, "the tags have room")),
    }
}

/// These precommits, each told by its sender and the byte of its key.
fn precommits<R: Abort + AllocGlobal>(rt: &R, id: Id, senders: &[(u16, u8)]) -> Seq<Precommit> {
    let mut signed = Seq::new(rt.alloc());
    for (sender, key) in senders {
        signed
            .push(precommit(rt, id, *sender, *key))
            .expect(rt, "the precommit has room");
    }
    signed
}

/// A bundle of the value with this number, with these precommits.
fn bundle<R: Abort + AllocGlobal>(rt: &R, height: u64, number: u64, senders: &[(u16, u8)]) -> Bundle
    ensures value { IsValue result.value }
    ensures height { result.height ≡ height }
{
    let value = value(rt, number);
    let id = value_id(rt.alloc(), &value).expect(rt, "it has an id");
    Bundle {
        height,
        sender: 0,
        round: 0,
        id,
        value,
        precommits: precommits(rt, id, senders),
    }
}

/// The powers of four validators.
fn powers<R: Abort + AllocGlobal>(rt: &R) -> Powers {
    let powers = vec![in rt.alloc(); 1, 1, 1, 1].expect(rt, "the powers have room");
    Powers::new(powers).expect(rt, "these are powers")
}

/// The answer where nothing is delivered yet.
fn judged<R: Abort + AllocGlobal>(rt: &R, bundle: &Bundle) -> Result<(), JudgeFault>
    requires { IsValue bundle.now.value }
{
    let alloc = rt.alloc();
    judge(alloc, bundle, &powers(rt), &ring(rt), &Frontier::new(alloc))
}

/// The bundle of the value with this number and these precommits gets this answer.
fn assert_judged<R: Abort + AllocGlobal>(
    rt: &R,
    number: u64,
    senders: &[(u16, u8)],
    answer: Result<(), JudgeFault>,
) {
    let bundle = bundle(rt, 0, number, senders);
    assert_same(
        rt,
        &(number, senders, judged(rt, &bundle)),
        &(number, senders, answer),
    );
}

#[test]
fn bundles_are_judged(rt: HostRuntime) {
    assert_judged(&rt, 1, &RIGHT, Ok(()));
    // Validator 9 isn't one.
    let with_other = &[(0, 0x00), (9, 0x99), (1, 0x11), (2, 0x22)];
    assert_judged(&rt, 1, with_other, Ok(()));
    let too_few = &[(0, 0x00), (1, 0x11), (1, 0x11)];
    assert_judged(&rt, 1, too_few, Err(JudgeFault::NoQuorum));
    let wrong_tag = &[(0, 0x00), (1, 0x11), (2, 0x33)];
    assert_judged(&rt, 1, wrong_tag, Err(JudgeFault::BadTag));
    assert_judged(&rt, 3, &RIGHT, Err(JudgeFault::NotValid));
}

/// The id of the value with this number.
fn id_of<R: Abort + AllocGlobal>(rt: &R, number: u64) -> Id {
    value_id(rt.alloc(), &value(rt, number)).expect(rt, "it has an id")
}

#[test]
fn the_id_of_another_value(rt: HostRuntime) {
    let mut bundle = bundle(&rt, 0, 1, &RIGHT);
    bundle.id = id_of(&rt, 3);
    assert_same(&rt, &judged(&rt, &bundle), &Err(JudgeFault::WrongDigest));
}

/// A bundle of the value with number 1 and these precommits, cut down to the right ones.
fn certified_of<R: Abort + AllocGlobal>(rt: &R, senders: &[(u16, u8)]) -> Bundle {
    let bundle = bundle(rt, 0, 1, senders);
    certified(rt.alloc(), bundle, &ring(rt)).expect(rt, "the right ones have room")
}

/// This is the precommit of this sender, with its tag under a key of this byte.
fn assert_precommit<R: Abort + AllocGlobal>(
    rt: &R,
    found: &Precommit,
    id: Id,
    sender: u16,
    key: u8,
) {
    let right = precommit(rt, id, sender, key);
    assert_same(rt, &found.sender, &right.sender);
    assert!(rt; found.tags == right.tags);
}

/// These are the precommits of these senders, in this order, and no others.
fn assert_precommits<R: Abort + AllocGlobal>(
    rt: &R,
    found: &[Precommit],
    id: Id,
    senders: &[(u16, u8)],
) {
    assert_same(rt, &found.len(), &senders.len());
    for (precommit, (sender, key)) in found.iter().zip(senders) {
        assert_precommit(rt, precommit, id, *sender, *key);
    }
}

#[test]
fn right_precommits_certify(rt: HostRuntime) {
    let mixed = &[
        (2, 0x22),
        (1, 0x33),
        (1, 0x11),
        (0, 0x00),
        (2, 0x22),
        (9, 0x99),
    ];
    let bundle = certified_of(&rt, mixed);
    assert_precommits(&rt, bundle.precommits.as_slice(), bundle.id, &RIGHT);
}

/// Keeps one more decision of this height, whose value has this number.
fn keep<R: Abort + AllocGlobal>(rt: &R, decisions: &mut Decisions, height: u64, number: u64)
    requires { height ≡ length decisions.old.bundles }
    ensures { length decisions.new.bundles ≡ height + 1 }
{
    let bundle = bundle(rt, height, number, &[]);
    decisions.keep(bundle).expect(rt, "the decision has room");
}

/// Keeps one more decision of this height, whose value has this number, in room made before.
fn keep_reserved<R: Abort + AllocGlobal>(
    rt: &R,
    decisions: &mut Decisions,
    height: u64,
    number: u64,
)
    requires { height ≡ length decisions.old.bundles }
    ensures { length decisions.new.bundles ≡ height + 1 }
{
    let bundle = bundle(rt, height, number, &[]);
    decisions.reserve(1).expect(rt, "there is room");
    decisions.keep_reserved(bundle);
}

/// The decision of this height is found, if there is one.
fn assert_found<R: Abort + AllocGlobal>(
    rt: &R,
    decisions: &Decisions,
    height: u64,
    wanted: Option<u64>,
) {
    let found = decisions.bundle_for(height).map(|bundle| bundle.height);
    assert_same(rt, &found, &wanted);
}

/// The decision of each of three heights is found by it, and of no other.
#[test]
fn decisions_by_height(rt: HostRuntime) {
    let mut decisions = Decisions::new(rt.alloc());
    keep(&rt, &mut decisions, 0, 1);
    keep_reserved(&rt, &mut decisions, 1, 2);
    keep(&rt, &mut decisions, 2, 3);
    assert_same(&rt, &decisions.as_slice().len(), &3);
    assert_found(&rt, &decisions, 0, Some(0));
    assert_found(&rt, &decisions, 1, Some(1));
    assert_found(&rt, &decisions, 2, Some(2));
    assert_found(&rt, &decisions, 3, None);
}

/// The decisions of two heights are copied before one more is kept.
#[test]
fn copies_of_decisions(rt: HostRuntime) {
    let mut decisions = Decisions::new(rt.alloc());
    assert_same(&rt, &decisions.is_empty(), &true);
    keep(&rt, &mut decisions, 0, 1);
    keep(&rt, &mut decisions, 1, 2);
    let copy = decisions.copy().expect(&rt, "the copy has room");
    keep(&rt, &mut decisions, 2, 3);
    assert_same(&rt, &copy.len(), &2);
}

/// The decision of height 0, out of a list.
fn listed_decision<R: Abort + AllocGlobal>(rt: &R) -> Decisions {
    let bundles = vec![in rt.alloc(); bundle(rt, 0, 1, &[])];
    Decisions::of(rt.alloc(), bundles.expect(rt, "the bundle has room"))
}

#[test]
fn decisions_of_a_list(rt: HostRuntime) {
    let decisions = listed_decision(&rt);
    assert_same(&rt, &decisions.len(), &1);
    assert_found(&rt, &decisions, 0, Some(0));
}
