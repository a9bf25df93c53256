//! The numbers and the texts of the refusals.

use super::assert_same;
use protocol::{JudgeFault, Refusal, SubmitFault};
use std::alloc::{AllocError, Global};
use std::process::Abort;

/// Each refusal with its number, and its inner fault's.
const NUMBERS: [(Refusal, u8, u8); 27] = [
    (Refusal::Truncated, 1, 0),
    (Refusal::TooLong, 2, 0),
    (Refusal::BadKind, 3, 0),
    (Refusal::BadSpelling, 4, 0),
    (Refusal::UnknownSender, 5, 0),
    (Refusal::BadTag, 6, 0),
    (Refusal::OtherHeight, 7, 0),
    (Refusal::VoterFull, 8, 0),
    (Refusal::Repeat, 9, 0),
    (Refusal::RoundLimit, 10, 0),
    (Refusal::RoundAhead, 11, 0),
    (Refusal::WrongProposer, 12, 0),
    (Refusal::Submit(SubmitFault::UnknownClient), 13, 1),
    (Refusal::Submit(SubmitFault::BadTag), 13, 2),
    (Refusal::Submit(SubmitFault::OldNumber), 13, 3),
    (Refusal::Submit(SubmitFault::Gap), 13, 4),
    (Refusal::Submit(SubmitFault::Closed), 13, 5),
    (Refusal::Submit(SubmitFault::QueueFull), 13, 6),
    (Refusal::Submit(SubmitFault::TooLong), 13, 7),
    (Refusal::Submit(SubmitFault::SessionAhead), 13, 9),
    (Refusal::Bundle(JudgeFault::NoQuorum), 14, 1),
    (Refusal::Bundle(JudgeFault::WrongDigest), 14, 2),
    (Refusal::Bundle(JudgeFault::BadTag), 14, 3),
    (Refusal::Bundle(JudgeFault::NotValid), 14, 4),
    (Refusal::Halted, 15, 0),
    (Refusal::OutOfMemory, 16, 0),
    (Refusal::JournalFailed, 17, 0),
];

/// Each refusal has its number, and its inner fault has its own.
fn assert_numbers(rt: &impl Abort, numbers: &[(Refusal, u8, u8)]) {
    for row in numbers {
        let (refusal, number, inner) = *row;
        assert_same(rt, &refusal.number(), &number);
        assert_same(rt, &refusal.inner(), &inner);
    }
}

#[test]
fn refusals_are_numbered(rt: HostRuntime) {
    assert_numbers(&rt, &NUMBERS);
}

/// Whether the fault has this number and this text.
fn is_told(alloc: Global, fault: SubmitFault, number: u8, text: &str) -> Result<bool, AllocError> {
    Ok(fault as u8 == number && fault.to_string(alloc)?.as_str() == text)
}

/// Each fault has its number and its text.
fn assert_told(rt: &impl Abort, alloc: Global, told: &[(SubmitFault, u8, &str)]) {
    for (fault, number, text) in told {
        assert!(rt;
            is_told(alloc, *fault, *number, text) == Ok(true),
            "fault {number}"
        );
    }
}

#[test]
fn faults_are_numbered_and_shown(rt: HostRuntime) {
    let told = &[
        (SubmitFault::UnknownClient, 1, "the client is unknown"),
        (SubmitFault::BadTag, 2, "a tag is wrong"),
        (
            SubmitFault::OldNumber,
            3,
            "the number is delivered or queued",
        ),
        (SubmitFault::Gap, 4, "a number before it is missing"),
        (SubmitFault::Closed, 5, "the session is closed"),
        (
            SubmitFault::QueueFull,
            6,
            "too many transactions of the client are waiting",
        ),
        (SubmitFault::TooLong, 7, "the transaction is too long"),
        (SubmitFault::OutOfMemory, 8, "out of memory"),
        (
            SubmitFault::SessionAhead,
            9,
            "a session before it is not closed",
        ),
    ];
    assert_told(&rt, rt.alloc(), told);
}

/// Whether the refusal is shown as this text.
fn is_shown(alloc: Global, refusal: Refusal, text: &str) -> Result<bool, AllocError> {
    Ok(refusal.to_string(alloc)?.as_str() == text)
}

#[test]
fn refusals_are_shown(rt: HostRuntime) {
    for (refusal, text) in [
        (Refusal::BadTag, "the own tag is not right"),
        (
            Refusal::Submit(SubmitFault::BadTag),
            "the transaction is not queued: a tag is wrong",
        ),
        (
            Refusal::Bundle(JudgeFault::NoQuorum),
            "the bundle decides nothing: the precommits are not from a quorum",
        ),
    ] {
        assert!(&rt; is_shown(rt.alloc(), refusal, text) == Ok(true), "{text}");
    }
}
