//! Replies as frames, and frames that spell none.

use messages::{Reply, read_reply, spell_reply};
use std::process::Abort;
use transactions::Fault;

#[test]
fn replies_are_spelled(rt: HostRuntime) {
    let accepted = spell_reply(Reply { code: 0, inner: 0 });
    assert!(rt; accepted == [0, 0, 0, 3, 0x20, 0, 0]);
    let gap = spell_reply(Reply { code: 13, inner: 4 });
    assert!(rt; gap == [0, 0, 0, 3, 0x20, 13, 4]);
    let session_ahead = spell_reply(Reply { code: 13, inner: 9 });
    assert!(rt; session_ahead == [0, 0, 0, 3, 0x20, 13, 9]);
}

/// These are the frames of replies, or of none for this cause.
fn assert_replies(rt: &impl Abort, cases: &[(&[u8], Result<Reply, Fault>)]) {
    for (frame, reply) in cases {
        assert_eq!(rt; read_reply(frame), *reply, "{frame:?}");
    }
}

#[test]
fn replies_are_read(rt: HostRuntime) {
    let cases = &[
        (
            [0, 0, 0, 3, 0x20, 0, 0].as_slice(),
            Ok(Reply { code: 0, inner: 0 }),
        ),
        (
            [0, 0, 0, 3, 0x20, 13, 4].as_slice(),
            Ok(Reply { code: 13, inner: 4 }),
        ),
    ];
    assert_replies(&rt, cases);
}

/// Frames with this code and inner number are replies, or none for this cause.
fn assert_codes(rt: &impl Abort, cases: &[(u8, u8, Option<Fault>)]) {
    for (code, inner, fault) in cases {
        let frame = [0, 0, 0, 3, 0x20, *code, *inner];
        assert_eq!(rt; read_reply(&frame).err(), *fault, "{code} {inner}");
    }
}

#[test]
fn codes_and_inner_numbers(rt: HostRuntime) {
    let cases = &[
        (17, 0, None),
        (18, 0, Some(Fault::BadSpelling)),
        (0, 1, Some(Fault::BadSpelling)),
        (14, 1, Some(Fault::BadSpelling)),
        (13, 0, Some(Fault::BadSpelling)),
        (13, 1, None),
        (13, 9, None),
        (13, 10, Some(Fault::BadSpelling)),
    ];
    assert_codes(&rt, cases);
}

#[test]
fn frames_without_a_reply(rt: HostRuntime) {
    let cases = &[
        ([].as_slice(), Err(Fault::Truncated)),
        ([0, 0, 0].as_slice(), Err(Fault::Truncated)),
        ([0, 0, 0, 0].as_slice(), Err(Fault::Truncated)),
        ([0, 0x10, 0, 1].as_slice(), Err(Fault::TooLong)),
        ([0, 0, 0, 1, 0x20].as_slice(), Err(Fault::Truncated)),
        ([0, 0, 0, 1, 0x13].as_slice(), Err(Fault::BadKind)),
        ([0, 0, 0, 2, 0x20, 0].as_slice(), Err(Fault::Truncated)),
        // The code stands before the byte that is absent.
        ([0, 0, 0, 2, 0x20, 18].as_slice(), Err(Fault::BadSpelling)),
        ([0, 0, 0, 3, 0x20, 0].as_slice(), Err(Fault::Truncated)),
        (
            [0, 0, 0, 3, 0x20, 0, 0, 0].as_slice(),
            Err(Fault::BadSpelling),
        ),
        (
            [0, 0, 0, 4, 0x20, 0, 0, 0].as_slice(),
            Err(Fault::BadSpelling),
        ),
    ];
    assert_replies(&rt, cases);
}
