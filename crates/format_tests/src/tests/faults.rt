//! Bytes that spell no body, and bodies without a spelling.

use super::{
    BUNDLE_FRONT, PREVOTE, VECTORS, assert_fault, assert_there_and_back, body_of, nines,
    spelled_bundle, value_of,
};
use messages::{Body, Proposal, read_body, spell_body};
use std::alloc::Global;
use std::process::Abort;
use transactions::{Fault, Op, Tx};

/// Why these bytes spell no body.
fn body_fault(alloc: Global, bytes: &[u8]) -> Option<Fault> {
    read_body(alloc, bytes).err()
}

/// Each beginning of the bytes is truncated.
fn assert_beginnings_truncated(rt: &impl Abort, alloc: Global, bytes: &[u8]) {
    for cut in 0..bytes.len() {
        assert_eq!(rt;
            body_fault(alloc, &bytes[..cut]),
            Some(Fault::Truncated),
            "cut at {cut}"
        );
    }
}

#[test]
fn beginnings_are_truncated(rt: HostRuntime) {
    for bytes in &VECTORS {
        assert_beginnings_truncated(&rt, rt.alloc(), bytes);
    }
}

#[test]
fn beginnings_of_a_bundle_are_truncated(rt: HostRuntime) {
    let bytes = spelled_bundle(&rt, rt.alloc(), 0, 2, 1).expect(&rt, "it has a spelling");
    assert_beginnings_truncated(&rt, rt.alloc(), &bytes);
}

/// The fault at these bytes with these behind them.
fn fault_behind(rt: &impl Abort, alloc: Global, front: &[u8], behind: &[u8]) -> Option<Fault> {
    let mut bytes = front.to_vec(alloc).expect(rt, "the bytes have room");
    bytes
        .extend_from_slice(behind)
        .expect(rt, "those behind them have room");
    body_fault(alloc, &bytes)
}

/// Bytes behind others make this fault.
fn assert_fault_behind(rt: &impl Abort, alloc: Global, front: &[u8], behind: &[u8], fault: Fault) {
    assert_eq!(rt;
        fault_behind(rt, alloc, front, behind),
        Some(fault),
        "{behind:?} behind {front:?}"
    );
}

#[test]
fn bytes_after_the_end(rt: HostRuntime) {
    for bytes in &VECTORS {
        assert_fault_behind(&rt, rt.alloc(), bytes, &[0], Fault::BadSpelling);
    }
}

#[test]
fn unknown_kinds(rt: HostRuntime) {
    for kind in &[0x00u8, 0x03, 0x0f, 0x15, 0x7f, 0xff] {
        assert_fault(&rt, body_fault(rt.alloc(), &[*kind]), Fault::BadKind);
    }
}

#[test]
fn kinds_alone(rt: HostRuntime) {
    for kind in &[0x01u8, 0x02, 0x10, 0x11, 0x12, 0x13, 0x14] {
        assert_fault(&rt, body_fault(rt.alloc(), &[*kind]), Fault::Truncated);
    }
}

#[test]
fn session_of_a_later_one(rt: HostRuntime) {
    // Session 0 is told by no transaction, and stands before what is absent behind it.
    let zero = &[2, 0, 7, 0, 0, 0, 0];
    assert_fault(&rt, body_fault(rt.alloc(), zero), Fault::BadSpelling);
    let last = &[2, 0, 7, 0xff, 0xff, 0xff, 0xff];
    assert_fault(&rt, body_fault(rt.alloc(), last), Fault::Truncated);
}

#[test]
fn flag_of_a_vote(rt: HostRuntime) {
    assert_fault_behind(&rt, rt.alloc(), &PREVOTE[..15], &[2], Fault::BadSpelling);
}

#[test]
fn counts_of_precommits(rt: HostRuntime) {
    assert_fault_behind(&rt, rt.alloc(), &BUNDLE_FRONT, &[129], Fault::TooLong);
    assert_fault_behind(&rt, rt.alloc(), &BUNDLE_FRONT, &[128], Fault::Truncated);
}

#[test]
fn bundle_without_precommits(rt: HostRuntime) {
    let mut bytes = BUNDLE_FRONT
        .to_vec(rt.alloc())
        .expect(&rt, "the bytes have room");
    bytes.push(0).expect(&rt, "the count has room");
    assert_there_and_back(&rt, rt.alloc(), &bytes);
}

#[test]
fn tags_of_precommits(rt: HostRuntime) {
    assert_fault_behind(
        &rt,
        rt.alloc(),
        &BUNDLE_FRONT,
        &[1, 0, 3, 0],
        Fault::BadSpelling,
    );
    assert_fault_behind(
        &rt,
        rt.alloc(),
        &BUNDLE_FRONT,
        &[1, 0, 3, 129],
        Fault::TooLong,
    );
}

/// Bundles with so many transactions, precommits and tags of each precommit have no spelling, for this cause.
fn assert_no_bundles(rt: &impl Abort, alloc: Global, cases: &[(usize, usize, usize, Fault)]) {
    for (txs, precommits, tags, fault) in cases {
        assert_eq!(rt;
            spelled_bundle(rt, alloc, *txs, *precommits, *tags).err(),
            Some(*fault),
            "{txs} transactions, {precommits} precommits, {tags} tags"
        );
    }
}

#[test]
fn bundles_without_spelling(rt: HostRuntime) {
    let cases = &[
        (0, 129, 1, Fault::TooLong),
        (0, 1, 0, Fault::BadSpelling),
        (0, 1, 129, Fault::TooLong),
        // The value stands before the precommits, and the count before the tags.
        (98, 1, 0, Fault::TooLong),
        (0, 129, 0, Fault::TooLong),
    ];
    assert_no_bundles(&rt, rt.alloc(), cases);
}

/// A proposal of the empty value with this valid round.
fn proposal_of(rt: &impl Abort, alloc: Global, valid_round: Option<u32>) -> Proposal {
    Proposal {
        height: 1,
        round: 2,
        sender: 3,
        valid_round,
        value: value_of(rt, alloc, 0),
    }
}

/// Its spelling.
fn proposal_with(
    rt: &impl Abort,
    alloc: Global,
    valid_round: Option<u32>,
) -> Result<Vec<u8>, Fault> {
    spell_body(alloc, &Body::Proposal(proposal_of(rt, alloc, valid_round)))
}

/// Whether the body is a proposal with this valid round.
fn has_valid_round(body: &Body, valid_round: Option<u32>) -> bool {
    matches!(body, Body::Proposal(proposal) if proposal.valid_round == valid_round)
}

/// These bytes spell a proposal with this valid round.
fn assert_valid_round(rt: &impl Abort, alloc: Global, bytes: &[u8], valid_round: Option<u32>) {
    let body = body_of(rt, alloc, bytes);
    assert!(rt; has_valid_round(&body, valid_round), "{valid_round:?}");
}

/// A proposal with this valid round is read with it again.
fn assert_valid_round_is_read(rt: &impl Abort, alloc: Global, valid_round: Option<u32>) {
    let bytes = proposal_with(rt, alloc, valid_round).expect(rt, "it has a spelling");
    assert_valid_round(rt, alloc, &bytes, valid_round);
}

#[test]
fn valid_rounds(rt: HostRuntime) {
    for valid_round in [None, Some(0), Some(u32::MAX - 1)] {
        assert_valid_round_is_read(&rt, rt.alloc(), valid_round);
    }
    let too_late = proposal_with(&rt, rt.alloc(), Some(u32::MAX)).err();
    assert_fault(&rt, too_late, Fault::BadSpelling);
}

/// A close of this client, with this number and so many tags.
fn close_of(rt: &impl Abort, alloc: Global, client: u16, number: u64, tags: usize) -> Tx {
    Tx {
        client,
        session: 0,
        number,
        op: Op::Close,
        tags: nines(rt, alloc, tags),
    }
}

/// The fault at spelling a close of this client, with this number and so many tags.
fn fault_of_close(
    rt: &impl Abort,
    alloc: Global,
    client: u16,
    number: u64,
    tags: usize,
) -> Option<Fault> {
    let body = Body::Tx(close_of(rt, alloc, client, number, tags));
    spell_body(alloc, &body).err()
}

/// Closes of these clients, with these numbers and so many tags, have a spelling, or none for this cause.
fn assert_closes(rt: &impl Abort, alloc: Global, cases: &[(u16, u64, usize, Option<Fault>)]) {
    for (client, number, tags, fault) in cases {
        assert_eq!(rt;
            fault_of_close(rt, alloc, *client, *number, *tags),
            *fault,
            "client {client}, number {number}, {tags} tags"
        );
    }
}

#[test]
fn transactions_without_spelling(rt: HostRuntime) {
    let cases = &[
        (1023, 1, 0, None),
        (1024, 1, 0, Some(Fault::BadSpelling)),
        (1023, 0, 0, Some(Fault::BadSpelling)),
        (1023, 0x1_0000_0000_0000, 0, None),
        (1023, 0x1_0000_0000_0001, 0, Some(Fault::BadSpelling)),
        // The tags stand behind the body.
        (1023, 1, 1, Some(Fault::BadSpelling)),
    ];
    assert_closes(&rt, rt.alloc(), cases);
}
