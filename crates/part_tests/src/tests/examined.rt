//! Frames that are examined by whoever has keys, before the node takes them.

ghost use Rattle.std.specs.Prelude.{ℕ};
ghost use Rattle.protocol.specs.Tags.{Setting};
ghost use Rattle.protocol.specs.Rings.{IsRingOf};
ghost use Rattle.frame_admission.specs.Gate.{admission};
ghost use Rattle.frame_admission.specs.Examined.{IsLetIn};

use super::assert_same;
use super::frames::{
    CLOSE, ONE_BYTE, PREVOTE, PREVOTE_TAGS, PROPOSAL, VECTORS, assert_bytes, first,
    frame_from_second, second,
};
use authenticators::{KeyRing, hmac};
use frame_admission::{Examined, Found, LetIn};
use mempool::Mempool;
use messages::{Body, Message, frame_of, spell_body};
use proposal_validity::Frontier;
use protocol::{Refusal, SubmitFault};
use std::process::Abort;
use transactions::Tx;

/// The SHA-256 digest of two zeros, which are the empty value (by Python's module `hashlib`).
const ID_OF_NOTHING: [u8; 32] = [
    0x96, 0xa2, 0x96, 0xd2, 0x24, 0xf2, 0x85, 0xc6, 0x7b, 0xee, 0x93, 0xc3, 0x0f, 0x8a, 0x30, 0x91,
    0x57, 0xf0, 0xda, 0xa3, 0x5d, 0xc5, 0xb8, 0x7e, 0x41, 0x0b, 0x78, 0x63, 0x0a, 0x09, 0xcf, 0xc7,
];

/// What comes of a frame that is examined under some keys, and then let in under others.
fn let_in<R: Abort + AllocGlobal>(
    rt: &R,
    examining: &KeyRing,
    ring: &KeyRing,
    frame: &[u8],
) -> Result<LetIn, Refusal>
    ensures { (c : Setting) (p : ℕ) → IsRingOf c p ring.now → IsLetIn c p (admission c p frame.now) result }
{
    let examined = Examined::new(rt.alloc(), examining, frame);
    assert_bytes(rt, examined.frame(), frame);
    examined.let_in(ring)
}

/// The body of a frame that is let in so, spelled again, is this one.
fn assert_let_in<R: Abort + AllocGlobal>(
    rt: &R,
    examining: &KeyRing,
    ring: &KeyRing,
    spelled: &[u8],
) {
    let frame = frame_from_second(rt, spelled);
    let LetIn { message, found: _ } = let_in(rt, examining, ring, &frame).expect(
        rt,
        "it is let in",
    );
    let body = spell_body(rt.alloc(), &message.body).expect(rt, "it has a spelling");
    assert_bytes(rt, &body, spelled);
}

#[test]
fn let_in_whoever_examined(rt: HostRuntime) {
    let (own, other) = (first(&rt), second(&rt));
    for spelled in &VECTORS {
        assert_let_in(&rt, &own, &own, spelled);
        assert_let_in(&rt, &other, &own, spelled);
    }
}

/// A prevote with these tags is refused for them by validator 0, whoever examined it.
fn refuses_tags<R: Abort + AllocGlobal>(rt: &R, tags: &[[u8; 32]; 2]) {
    let (own, other) = (first(rt), second(rt));
    let frame = frame_of(rt.alloc(), &PREVOTE, tags).expect(rt, "the frame has room");
    let found = let_in(rt, &own, &own, &frame).err();
    assert_same(rt, &found, &Some(Refusal::BadTag));
    let found = let_in(rt, &other, &own, &frame).err();
    assert_same(rt, &found, &Some(Refusal::BadTag));
}

#[test]
fn right_for_another_is_refused(rt: HostRuntime) {
    let [own, right] = PREVOTE_TAGS;
    refuses_tags(&rt, &[[0; 32], right]);
    refuses_tags(&rt, &[[0; 32]; 2]);
    refuses_tags(&rt, &[right, own]);
}

#[test]
fn proposal_brings_its_id(rt: HostRuntime) {
    let (own, other) = (first(&rt), second(&rt));
    let frame = frame_from_second(&rt, &PROPOSAL);
    for examining in [&own, &other] {
        let let_in = let_in(&rt, examining, &own, &frame).expect(&rt, "it is let in");
        assert!(rt; matches!(let_in.found, Found::Proposal(id) if id == ID_OF_NOTHING));
    }
}

/// The frame of a transaction with these tags.
fn frame_of_tx<R: Abort + AllocGlobal>(rt: &R, body: &[u8], tags: &[[u8; 32]; 2]) -> Vec<u8> {
    assert!(rt; body.len() < 100);
    frame_of(rt.alloc(), body, tags).expect(rt, "the frame has room")
}

/// What validator 1 answers where it queues the transaction of a frame that was examined under these keys.
fn queued<R: Abort + AllocGlobal>(
    rt: &R,
    mempool: &mut Mempool,
    examining: &KeyRing,
    frame: &[u8],
) -> Result<(), SubmitFault> {
    let ring = second(rt);
    let let_in = let_in(rt, examining, &ring, frame).expect(rt, "it is let in");
    let LetIn {
        message: Message { body, tags },
        found,
    } = let_in;
    match (body, found) {
        (Body::Tx(tx), Found::Tx(is_right)) => {
            let frontier = Frontier::new(rt.alloc());
            mempool.submit_found(Tx { tags, ..tx }, is_right, &ring, &frontier)
        }
        _ => panic!(rt; "it is a transaction"),
    }
}

#[test]
fn found_transactions_are_queued(rt: HostRuntime) {
    let (own, other) = (second(&rt), first(&rt));
    let mut mempool = Mempool::new(rt.alloc());
    let wrong = frame_of_tx(&rt, &ONE_BYTE, &[[0; 32]; 2]);
    for examining in [&own, &other] {
        let answer = queued(&rt, &mut mempool, examining, &wrong);
        assert_same(&rt, &answer, &Err(SubmitFault::BadTag));
    }
    let one = frame_of_tx(&rt, &ONE_BYTE, &[[0; 32], hmac(&[0x71; 32], &ONE_BYTE)]);
    assert_same(&rt, &queued(&rt, &mut mempool, &own, &one), &Ok(()));
    assert_same(
        &rt,
        &queued(&rt, &mut mempool, &own, &one),
        &Err(SubmitFault::OldNumber),
    );
    let close = frame_of_tx(&rt, &CLOSE, &[[0; 32], hmac(&[0x71; 32], &CLOSE)]);
    assert_same(&rt, &queued(&rt, &mut mempool, &other, &close), &Ok(()));
    assert_same(&rt, &mempool.waiting(7).len(), &2);
}
