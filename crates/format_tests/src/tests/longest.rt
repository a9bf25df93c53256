//! The longest bundle, and one with a precommit more.

use super::{
    assert_fault, assert_there_and_back, bundle_with, full_txs, is_bundle, nines, precommits_of,
    tx_of, value_with,
};
use messages::{Body, Bundle, Message, read, read_body, spell, spell_body};
use std::alloc::Global;
use std::process::Abort;
use transactions::{Duplicate, Fault, Value};

/// A value of 500,000 bytes: the count, 97 transactions of 5,139 bytes, and one of 1,515.
fn longest_value(rt: &impl Abort, alloc: Global) -> Value {
    let mut txs = full_txs(rt, alloc, 97);
    txs.push(tx_of(rt, alloc, 1016, 15))
        .expect(rt, "the transaction has room");
    value_with(rt, alloc, txs)
}

/// A bundle with a value of 500,000 bytes and so many precommits, each with 128 tags.
fn long_bundle(rt: &impl Abort, alloc: Global, precommits: usize) -> Bundle {
    let precommits = precommits_of(rt, alloc, precommits, 128);
    bundle_with(longest_value(rt, alloc), precommits)
}

/// A copy of such a bundle.
fn copied_bundle(rt: &impl Abort, alloc: Global, precommits: usize) -> Bundle {
    let bundle = long_bundle(rt, alloc, precommits);
    bundle.copy(alloc).expect(rt, "the copy has room")
}

/// The spelling of a copy of such a bundle.
fn spelled_copy(rt: &impl Abort, alloc: Global, precommits: usize) -> Result<Vec<u8>, Fault> {
    let body = Body::Bundle(copied_bundle(rt, alloc, precommits));
    spell_body(alloc, &body)
}

/// The spelling of a copy of the bundle with 128 precommits.
fn longest_body(rt: &impl Abort, alloc: Global) -> Vec<u8> {
    spelled_copy(rt, alloc, 128).expect(rt, "the bundle has a spelling")
}

#[test]
fn longest_body_there_and_back(rt: HostRuntime) {
    let bytes = longest_body(&rt, rt.alloc());
    // The kind, 46 bytes, the value, the count, and 128 times a sender, a count and 128 tags.
    assert!(&rt; bytes.len() == 1 + 46 + 500_000 + 1 + 128 * (2 + 1 + 4096));
    assert_there_and_back(&rt, rt.alloc(), &bytes);
}

/// The message of such a bundle with 128 tags.
fn long_message(rt: &impl Abort, alloc: Global, precommits: usize) -> Message {
    Message {
        body: Body::Bundle(long_bundle(rt, alloc, precommits)),
        tags: nines(rt, alloc, 128),
    }
}

/// The frame of such a bundle with 128 tags.
fn frame_with(rt: &impl Abort, alloc: Global, precommits: usize) -> Result<Vec<u8>, Fault> {
    let message = long_message(rt, alloc, precommits);
    spell(alloc, &message)
}

/// The message has 98 transactions, 128 precommits and 128 tags, and this frame.
fn assert_longest(rt: &impl Abort, alloc: Global, frame: &[u8], message: &Message) {
    assert!(rt; is_bundle(&message.body, 98, 128));
    assert!(rt; message.tags.len() == 128);
    let again = spell(alloc, message).expect(rt, "the message has a spelling");
    assert!(rt; again.as_slice() == frame);
}

/// The frame is read, and spelled again.
fn assert_longest_is_read(rt: &impl Abort, alloc: Global, frame: &[u8]) {
    let message = read(alloc, frame).expect(rt, "the frame is a message's");
    assert_longest(rt, alloc, frame, &message);
}

/// The frame has content of 1,028,817 bytes.
fn assert_longest_content(rt: &impl Abort, frame: &[u8]) {
    assert!(rt; frame.len() == 4 + 1_028_817 && frame[..4] == [0, 0x0f, 0xb2, 0xd1]);
}

#[test]
fn longest_frame_there_and_back(rt: HostRuntime) {
    let frame = frame_with(&rt, rt.alloc(), 128).expect(&rt, "the message has a frame");
    assert_longest_content(&rt, &frame);
    assert_longest_is_read(&rt, rt.alloc(), &frame);
}

#[test]
fn one_more_precommit_is_not_spelled(rt: HostRuntime) {
    let body = spelled_copy(&rt, rt.alloc(), 129).err();
    assert_fault(&rt, body, Fault::TooLong);
    let frame = frame_with(&rt, rt.alloc(), 129).err();
    assert_fault(&rt, frame, Fault::TooLong);
}

/// Puts one more precommit at the end of the longest body, and counts it.
fn put_one_more(rt: &impl Abort, bytes: &mut Vec<u8>) {
    // The count stands behind the kind, 46 bytes and the value.
    if let Some(count) = bytes.get_mut(1 + 46 + 500_000) {
        *count = 129;
    }
    bytes
        .extend_from_slice(&[0, 3, 1])
        .expect(rt, "the precommit has room");
    bytes
        .extend_from_slice(&[9u8; 32])
        .expect(rt, "its tag has room");
}

#[test]
fn one_more_precommit_is_not_read(rt: HostRuntime) {
    let mut bytes = longest_body(&rt, rt.alloc());
    put_one_more(&rt, &mut bytes);
    assert_fault(&rt, read_body(rt.alloc(), &bytes).err(), Fault::TooLong);
}
