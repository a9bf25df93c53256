//! Messages as frames, and frames that spell none.

use super::{ASK, PREVOTE, assert_fault, message_of, nines, value_with};
use messages::{Body, Message, Proposal, body_in, frame_of, read, spell};
use std::alloc::Global;
use std::process::Abort;
use transactions::Fault;

/// The frame of the prevote for nil with this many tags.
fn prevote_frame(rt: &impl Abort, alloc: Global, tags: usize) -> Result<Vec<u8>, Fault> {
    let message = message_of(rt, alloc, &PREVOTE, tags);
    spell(alloc, &message)
}

/// The frame of the prevote for nil with four tags.
pub(crate) fn frame_of_four(rt: &impl Abort, alloc: Global) -> Vec<u8> {
    prevote_frame(rt, alloc, 4).expect(rt, "the prevote has a frame")
}

/// The frame is that of the prevote's bytes with four tags, and 149 bytes long.
fn assert_frame_of_parts(rt: &impl Abort, alloc: Global, frame: &[u8]) {
    let again = frame_of(alloc, &PREVOTE, &[[9; 32]; 4]).expect(rt, "the frame has room");
    assert!(rt; again.as_slice() == frame);
    assert!(rt; frame.len() == 149 && frame[..4] == [0, 0, 0, 0x91]);
}

#[test]
fn frame_is_spelled(rt: HostRuntime) {
    let frame = frame_of_four(&rt, rt.alloc());
    assert_frame_of_parts(&rt, rt.alloc(), &frame);
}

/// Whether the message is the prevote for nil, with four tags.
fn is_prevote(message: &Message) -> bool {
    matches!(&message.body, Body::Vote(vote) if vote.sender == 2)
        && message.tags.as_slice() == [[9u8; 32]; 4].as_slice()
}

/// The frame spells the prevote for nil, with four tags.
fn assert_spells_prevote(rt: &impl Abort, alloc: Global, frame: &[u8]) {
    let message = read(alloc, frame).expect(rt, "the frame is a message's");
    assert!(rt; is_prevote(&message));
    assert!(rt; body_in(frame, &message) == PREVOTE.as_slice());
}

#[test]
fn frame_is_read(rt: HostRuntime) {
    let frame = frame_of_four(&rt, rt.alloc());
    assert_spells_prevote(&rt, rt.alloc(), &frame);
}

/// Why the bytes are no frame of a message.
fn frame_fault(alloc: Global, frame: &[u8]) -> Option<Fault> {
    read(alloc, frame).err()
}

/// Each beginning of the frame is truncated.
fn assert_beginnings_truncated(rt: &impl Abort, alloc: Global, frame: &[u8]) {
    for cut in 0..frame.len() {
        assert_eq!(rt;
            frame_fault(alloc, &frame[..cut]),
            Some(Fault::Truncated),
            "cut at {cut}"
        );
    }
}

#[test]
fn beginnings_of_a_frame_are_truncated(rt: HostRuntime) {
    let frame = frame_of_four(&rt, rt.alloc());
    assert_beginnings_truncated(&rt, rt.alloc(), &frame);
}

#[test]
fn byte_behind_a_frame(rt: HostRuntime) {
    let mut longer = frame_of_four(&rt, rt.alloc());
    longer.push(0).expect(&rt, "the byte has room");
    let fault = frame_fault(rt.alloc(), &longer);
    assert_fault(&rt, fault, Fault::BadSpelling);
}

/// These bytes are no frames of messages, for these causes.
fn assert_no_messages(rt: &impl Abort, alloc: Global, cases: &[(&[u8], Fault)]) {
    for (frame, fault) in cases {
        assert_eq!(rt; frame_fault(alloc, frame), Some(*fault), "{frame:?}");
    }
}

#[test]
fn frames_without_a_message(rt: HostRuntime) {
    let cases = &[
        ([0, 0, 0, 0].as_slice(), Fault::Truncated),
        ([0, 0x10, 0, 1].as_slice(), Fault::TooLong),
        ([0, 0x10, 0, 0].as_slice(), Fault::Truncated),
        ([0, 0, 0, 1, 0x7f].as_slice(), Fault::BadKind),
        // A reply is no message.
        ([0, 0, 0, 3, 0x20, 0, 0].as_slice(), Fault::BadKind),
    ];
    assert_no_messages(&rt, rt.alloc(), cases);
}

/// Why there is no message whose frame has this length of its content, this body and these bytes behind it.
fn fault_of_parts(
    rt: &impl Abort,
    alloc: Global,
    len: u8,
    body: &[u8],
    tags: &[u8],
) -> Option<Fault> {
    let mut frame = [0, 0, 0, len]
        .to_vec(alloc)
        .expect(rt, "the length has room");
    frame
        .extend_from_slice(body)
        .expect(rt, "the body has room");
    frame
        .extend_from_slice(tags)
        .expect(rt, "the tags have room");
    frame_fault(alloc, &frame)
}

#[test]
fn tags_behind_a_body(rt: HostRuntime) {
    let none = fault_of_parts(&rt, rt.alloc(), 0x10, &PREVOTE, &[]);
    assert_fault(&rt, none, Fault::Truncated);
    let no_tag = fault_of_parts(&rt, rt.alloc(), 0x11, &PREVOTE, &[0]);
    assert_fault(&rt, no_tag, Fault::BadSpelling);
    let too_many = fault_of_parts(&rt, rt.alloc(), 0x11, &PREVOTE, &[129]);
    assert_fault(&rt, too_many, Fault::TooLong);
}

/// The tags of a frame, one of nines, with a byte behind them.
const TAG_AND_BYTE: [u8; 34] = [
    1, 9, 9, 9, 9, 9, 9, 9, 9, 9, 9, 9, 9, 9, 9, 9, 9, 9, 9, 9, 9, 9, 9, 9, 9, 9, 9, 9, 9, 9, 9, 9,
    9, 0,
];

#[test]
fn byte_behind_the_tags(rt: HostRuntime) {
    // It stands within the content, which is one byte longer than the ask with its tag.
    let fault = fault_of_parts(&rt, rt.alloc(), 45, &ASK, &TAG_AND_BYTE);
    assert_fault(&rt, fault, Fault::BadSpelling);
}

#[test]
fn messages_without_spelling(rt: HostRuntime) {
    let untagged = prevote_frame(&rt, rt.alloc(), 0).err();
    assert_fault(&rt, untagged, Fault::BadSpelling);
    let too_many = prevote_frame(&rt, rt.alloc(), 129).err();
    assert_fault(&rt, too_many, Fault::TooLong);
}

/// A proposal of the empty value, without a spelling.
fn unspellable(rt: &impl Abort, alloc: Global) -> Proposal {
    Proposal {
        height: 1,
        round: 2,
        sender: 3,
        valid_round: Some(u32::MAX),
        value: value_with(rt, alloc, Vec::new(alloc)),
    }
}

/// A message with that proposal and too many tags.
fn unspellable_message(rt: &impl Abort, alloc: Global) -> Message {
    Message {
        body: Body::Proposal(unspellable(rt, alloc)),
        tags: nines(rt, alloc, 129),
    }
}

#[test]
fn body_stands_before_the_tags(rt: HostRuntime) {
    let message = unspellable_message(&rt, rt.alloc());
    assert_fault(&rt, spell(rt.alloc(), &message).err(), Fault::BadSpelling);
}
