//! Frames between two validators. The tags that are written out here are those that Python's module `hmac` makes.

ghost use Rattle.std.specs.Prelude.{◌≡◌};
ghost use Rattle.protocol.specs.Messages.{sender_of};

use super::assert_same;
use authenticators::{KeyRing, Party, hmac};
use frame_admission::{admit, frame_for, is_genuine, own_tags};
use messages::{Body, frame_of, read_body, spell_body};
use protocol::Refusal;
use std::alloc::{AllocError, Global};
use std::process::Abort;
use transactions::read_value;

/// The keys of validator 0. A key is 32 bytes of one value, whose digits are the sender's number and the receiver's.
const FIRST_KEYS: &str = "v0 v0 0000000000000000000000000000000000000000000000000000000000000000\n\
v0 v1 0101010101010101010101010101010101010101010101010101010101010101\n\
v1 v0 1010101010101010101010101010101010101010101010101010101010101010\n\
c7 v0 7070707070707070707070707070707070707070707070707070707070707070\n";

/// The keys of validator 1.
const SECOND_KEYS: &str = "v1 v0 1010101010101010101010101010101010101010101010101010101010101010\n\
v1 v1 1111111111111111111111111111111111111111111111111111111111111111\n\
v0 v1 0101010101010101010101010101010101010101010101010101010101010101\n\
c7 v1 7171717171717171717171717171717171717171717171717171717171717171\n";

/// Validator 1 proposes the empty value at height 0 and round 1.
pub(super) const PROPOSAL: [u8; 21] = [
    0x10, 0, 0, 0, 0, 0, 0, 0, 0, 0, 0, 0, 1, 0, 1, 0, 0, 0, 0, 0, 0,
];

/// Validator 1 prevotes nil at height 0 and round 0.
pub(super) const PREVOTE: [u8; 16] = [0x11, 0, 0, 0, 0, 0, 0, 0, 0, 0, 0, 0, 0, 0, 1, 0];

/// Validator 1 asks for height 5.
const ASK: [u8; 11] = [0x13, 0, 0, 0, 0, 0, 0, 0, 5, 0, 1];

/// Validator 1's bundle of height 1 and round 3, of the empty value with no precommits.
const BUNDLE: [u8; 50] = [
    0x14, 0x00, 0x00, 0x00, 0x00, 0x00, 0x00, 0x00, 0x01, 0x00, 0x01, 0x00, 0x00, 0x00, 0x03, 0x07,
    0x07, 0x07, 0x07, 0x07, 0x07, 0x07, 0x07, 0x07, 0x07, 0x07, 0x07, 0x07, 0x07, 0x07, 0x07, 0x07,
    0x07, 0x07, 0x07, 0x07, 0x07, 0x07, 0x07, 0x07, 0x07, 0x07, 0x07, 0x07, 0x07, 0x07, 0x07, 0x00,
    0x00, 0x00,
];

/// The tags of the prevote, for validator 0 and validator 1.
pub(super) const PREVOTE_TAGS: [[u8; 32]; 2] = [
    [
        0x69, 0x10, 0xdc, 0xba, 0xba, 0xbd, 0xb9, 0xa3, 0xb2, 0x83, 0x9a, 0x92, 0x4a, 0xf5, 0x2b,
        0x93, 0xe2, 0x7e, 0xe1, 0x7d, 0xaf, 0xbc, 0x57, 0x8a, 0xee, 0x6a, 0x91, 0x4e, 0x12, 0x60,
        0x41, 0xd8,
    ],
    [
        0x10, 0xa1, 0x29, 0xeb, 0xb1, 0xc5, 0x34, 0x15, 0x5d, 0x90, 0x7d, 0x8b, 0x91, 0xeb, 0xec,
        0x11, 0xdc, 0xf8, 0x8d, 0x29, 0xe6, 0xc9, 0x8f, 0x5e, 0x1e, 0xf8, 0x99, 0x39, 0x0f, 0xf4,
        0x08, 0x52,
    ],
];

/// The tags of validator 1's precommit at height 5 and round 6 for the id of sevens.
const PRECOMMIT_TAGS: [[u8; 32]; 2] = [
    [
        0xac, 0xf5, 0x17, 0xcb, 0x82, 0x54, 0x6d, 0xa3, 0x78, 0x97, 0x9c, 0x68, 0xfa, 0x3a, 0x79,
        0x66, 0x95, 0x44, 0x98, 0x83, 0x07, 0x18, 0xcd, 0x20, 0x94, 0x96, 0xcc, 0x2b, 0x2c, 0x98,
        0xf0, 0xa1,
    ],
    [
        0x64, 0xaa, 0x8d, 0x3a, 0xdc, 0xe1, 0x5b, 0xa2, 0xfd, 0x10, 0xb9, 0x2b, 0x54, 0x3a, 0x8e,
        0x1a, 0x0a, 0x75, 0x14, 0x8c, 0x58, 0x50, 0x14, 0x44, 0x90, 0x2a, 0xb8, 0x5b, 0xaf, 0xe4,
        0x1c, 0xfe,
    ],
];

/// A body of each kind but a transaction.
pub(super) const VECTORS: [&[u8]; 4] = [&PROPOSAL, &PREVOTE, &ASK, &BUNDLE];

/// Client 7's transactions 1, for the byte `a`, and 2, a close.
pub(super) const ONE_BYTE: [u8; 15] = [1, 0, 7, 0, 0, 0, 0, 0, 0, 0, 1, 0, 0, 1, b'a'];

pub(super) const CLOSE: [u8; 12] = [1, 0, 7, 0, 0, 0, 0, 0, 0, 0, 2, 1];

/// The keys of validator 0.
pub(super) fn first<R: Abort + AllocGlobal>(rt: &R) -> KeyRing {
    let ring = KeyRing::read(rt.alloc(), FIRST_KEYS.as_bytes(), Party::Validator(0), 2);
    ring.expect(rt, "these are keys")
}

/// The keys of validator 1.
pub(super) fn second<R: Abort + AllocGlobal>(rt: &R) -> KeyRing {
    let ring = KeyRing::read(rt.alloc(), SECOND_KEYS.as_bytes(), Party::Validator(1), 2);
    ring.expect(rt, "these are keys")
}

/// These, one behind the other.
fn joined<R: Abort + AllocGlobal>(rt: &R, parts: &[&[u8]]) -> Vec<u8> {
    let mut bytes = Vec::new(rt.alloc());
    for part in parts {
        bytes.extend_from_slice(part).expect(rt, "they have room");
    }
    bytes
}

/// Ends the test where other bytes were found than are wanted.
pub(super) fn assert_bytes<R: Abort>(rt: &R, found: &[u8], wanted: &[u8]) {
    assert!(rt; found == wanted);
}

/// Who sends a body.
fn sender_of(body: &Body) -> Party
    ensures { result ≡ sender_of body.now }
{
    match body {
        Body::Tx(tx) => Party::Client(tx.client),
        Body::Proposal(proposal) => Party::Validator(proposal.sender),
        Body::Vote(vote) => Party::Validator(vote.sender),
        Body::Ask(ask) => Party::Validator(ask.sender),
        Body::Bundle(bundle) => Party::Validator(bundle.sender),
    }
}

/// The frame that validator 1, which has these keys, lets out of the body that is spelled so.
fn frame_by<R: Abort + AllocGlobal>(rt: &R, ring: &KeyRing, spelled: &[u8]) -> Vec<u8> {
    let body = read_body(rt.alloc(), spelled).expect(rt, "it is a body");
    assert!(rt; sender_of(&body) == ring.me());
    assert!(rt; ring.count() <= 128);
    frame_for(rt.alloc(), ring, &body).expect(rt, "it has a frame")
}

/// The frame that validator 1 lets out of the body that is spelled so.
pub(super) fn frame_from_second<R: Abort + AllocGlobal>(rt: &R, spelled: &[u8]) -> Vec<u8> {
    frame_by(rt, &second(rt), spelled)
}

/// The body of the frame, which is admitted under these keys, spelled again.
fn admitted<R: Abort + AllocGlobal>(rt: &R, ring: &KeyRing, frame: &[u8]) -> Vec<u8> {
    let message = admit(rt.alloc(), ring, frame).expect(rt, "it is admitted");
    spell_body(rt.alloc(), &message.body).expect(rt, "it has a spelling")
}

/// The frame that validator 1 lets out of the body that is spelled so is admitted under these keys.
fn assert_admitted<R: Abort + AllocGlobal>(rt: &R, ring: &KeyRing, spelled: &[u8]) {
    let frame = frame_from_second(rt, spelled);
    assert_bytes(rt, &admitted(rt, ring, &frame), spelled);
}

#[test]
fn frames_of_each_kind(rt: HostRuntime) {
    let ring = first(&rt);
    for spelled in &VECTORS {
        assert_admitted(&rt, &ring, spelled);
    }
}

/// The frame of validator 1's prevote.
fn prevote_frame<R: Abort + AllocGlobal>(rt: &R) -> Vec<u8> {
    let [first, second] = &PREVOTE_TAGS;
    joined(rt, &[&[0, 0, 0, 0x51], &PREVOTE, &[2], first, second])
}

#[test]
fn own_prevote(rt: HostRuntime) {
    let frame = frame_from_second(&rt, &PREVOTE);
    assert_bytes(&rt, &frame, &prevote_frame(&rt));
}

/// Whether the ring's party makes the known tags of its precommit.
fn makes_tags(alloc: Global, ring: &KeyRing) -> Result<bool, AllocError> {
    let tags = own_tags(alloc, ring, 5, 6, [7; 32])?;
    Ok(tags.as_slice() == PRECOMMIT_TAGS.as_slice())
}

#[test]
fn tags_of_own_precommits(rt: HostRuntime) {
    let found = makes_tags(rt.alloc(), &second(&rt));
    assert!(rt; found == Ok(true));
}

/// The frame is refused for this cause.
fn assert_refused<R: Abort + AllocGlobal>(rt: &R, ring: &KeyRing, frame: &[u8], cause: Refusal) {
    let found = admit(rt.alloc(), ring, frame).err();
    assert_same(rt, &(frame, found), &(frame, Some(cause)));
}

/// This body with these tags is refused for this cause.
fn refuses<R: Abort + AllocGlobal>(
    rt: &R,
    ring: &KeyRing,
    body: &[u8],
    tags: &[[u8; 32]],
    cause: Refusal,
) {
    assert!(rt; body.len() < 100 && tags.len() < 64);
    let frame = frame_of(rt.alloc(), body, tags).expect(rt, "the frame has room");
    assert_refused(rt, ring, &frame, cause);
}

/// The prevote with another sender and this last byte is refused for this cause, with wrong tags.
fn refuses_other<R: Abort + AllocGlobal>(rt: &R, ring: &KeyRing, last: u8, cause: Refusal) {
    let mut other = PREVOTE;
    other[14] = 2;
    other[15] = last;
    refuses(rt, ring, &other, &[[0; 32]; 2], cause);
}

/// The prevote with these tags is refused for them.
fn refuses_tags<R: Abort + AllocGlobal>(rt: &R, ring: &KeyRing, tags: &[[u8; 32]]) {
    refuses(rt, ring, &PREVOTE, tags, Refusal::BadTag);
}

// Each frame has the later faults too, as far as they can stand beside the first.
#[test]
fn first_cause_is_told(rt: HostRuntime) {
    let ring = first(&rt);
    assert_refused(&rt, &ring, &[0, 0, 0, 2, 0x7f], Refusal::Truncated);
    assert_refused(&rt, &ring, &[0, 0x10, 0, 1, 0x7f], Refusal::TooLong);
    assert_refused(&rt, &ring, &[0, 0, 0, 1, 0x7f], Refusal::BadKind);
    refuses_other(&rt, &ring, 0, Refusal::UnknownSender);
    refuses_other(&rt, &ring, 2, Refusal::BadSpelling);
}

#[test]
fn every_tag_of_a_message(rt: HostRuntime) {
    let right = PREVOTE_TAGS[0];
    let ring = first(&rt);
    refuses_tags(&rt, &ring, &[[0; 32]; 2]);
    refuses_tags(&rt, &ring, &[[0; 32], right]);
    refuses_tags(&rt, &ring, &[right]);
    refuses_tags(&rt, &ring, &[right, right, right]);
}

/// The frame of client 8's transaction with a wrong tag.
fn frame_of_other_client<R: Abort + AllocGlobal>(rt: &R) -> Vec<u8> {
    let mut body = ONE_BYTE;
    body[2] = 8;
    frame_of(rt.alloc(), &body, &[[0; 32]]).expect(rt, "the frame has room")
}

#[test]
fn transactions_are_judged_elsewhere(rt: HostRuntime) {
    let frame = frame_of_other_client(&rt);
    let message = admit(rt.alloc(), &first(&rt), &frame).expect(&rt, "it is admitted");
    assert!(rt; matches!(&message.body, Body::Tx(tx) if tx.client == 8));
}

/// The tags of a body under these keys.
fn tags_under<R: Abort + AllocGlobal>(rt: &R, body: &[u8], keys: &[[u8; 32]]) -> Vec<u8> {
    let mut tags = Vec::new(rt.alloc());
    for key in keys {
        tags.extend_from_slice(&hmac(key, body))
            .expect(rt, "the tag has room");
    }
    tags
}

/// The bytes of the value that has client 7's two transactions: the first with the tag for validator 1 and another, and
/// the second as from this client, with tags under these keys.
fn two_spelled<R: Abort + AllocGlobal>(rt: &R, client: u8, keys: &[[u8; 32]]) -> Vec<u8> {
    let count = u8::try_from(keys.len()).expect(rt, "there are few keys");
    let mut close = CLOSE;
    close[2] = client;
    joined(
        rt,
        &[
            &[0, 2],
            &ONE_BYTE,
            &[2],
            &[0; 32],
            &hmac(&[0x71; 32], &ONE_BYTE),
            &close,
            &[count],
            &tags_under(rt, &close, keys),
        ],
    )
}

/// Whether validator 1 finds the value right that has client 7's two transactions, the second as from this client, with
/// tags under these keys.
fn is_genuine_with<R: Abort + AllocGlobal>(rt: &R, client: u8, keys: &[[u8; 32]]) -> bool {
    let bytes = two_spelled(rt, client, keys);
    let value = read_value(rt.alloc(), &bytes).expect(rt, "it is a value");
    is_genuine(rt.alloc(), &second(rt), &value).expect(rt, "there is room")
}

#[test]
fn every_tag_of_a_value(rt: HostRuntime) {
    let (own, other) = ([0x71; 32], [0x70; 32]);
    assert_same(&rt, &is_genuine_with(&rt, 7, &[other, own]), &true);
    assert_same(&rt, &is_genuine_with(&rt, 7, &[own, other]), &false);
    assert_same(&rt, &is_genuine_with(&rt, 7, &[own, own, own]), &false);
    assert_same(&rt, &is_genuine_with(&rt, 8, &[other, own]), &false);
}
