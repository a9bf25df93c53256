//! Transactions of a session after their client's first.

use super::{
    LATER, assert_fault, assert_same, assert_short_for_value, assert_spelled_with_tag,
    assert_spelling_of_value, is_later, joined, tx_fault, tx_of, value_fault, value_read, with_tag,
};
use std::process::Abort;
use transactions::{Fault, Op, Tx, tx_fields_of};

/// The body of client 7's transaction 1 of the last session, which is a close.
const LAST: [u8; 16] = [2, 0, 7, 0xff, 0xff, 0xff, 0xff, 0, 0, 0, 0, 0, 0, 0, 1, 1];

/// Whether this is client 7's transaction 1 of the last session, which is a close.
fn is_last(tx: &Tx) -> bool {
    tx.client == 7 && tx.session == 0xffff_ffff && tx.number == 1 && matches!(&tx.op, Op::Close)
}

#[test]
fn the_last_session(rt: HostRuntime) {
    let tx = tx_of(&rt, &LAST);
    assert_same(&rt, &is_last(&tx), &true);
    assert_spelled_with_tag(&rt, &tx, &LAST);
}

/// The spelling of a value of one transaction, of this body with one tag.
fn value_with<R: Abort + AllocGlobal>(rt: &R, body: &[u8]) -> Vec<u8> {
    joined(rt, &[&[0, 1], &with_tag(rt, body)])
}

/// The value has client 7's transaction 1 of session 1 alone, and is spelled as it was read.
#[test]
fn value_of_a_later_session(rt: HostRuntime) {
    let bytes = value_with(&rt, &LATER);
    let value = value_read(&rt, &bytes);
    assert!(rt; matches!(value.txs.as_slice(), [tx] if is_later(tx)));
    assert_spelling_of_value(&rt, &value, &bytes);
}

/// Why these bytes behind the kind of a later session are no transaction.
fn fields_fault<R: Abort + AllocGlobal>(rt: &R, fields: &[u8]) -> Option<Fault> {
    tx_fields_of(rt.alloc(), true, fields).err()
}

/// Each beginning of what stands behind the kind of a later session is too short.
fn assert_short_fields<R: Abort + AllocGlobal>(rt: &R, fields: &[u8]) {
    for cut in 0..fields.len() {
        assert_fault(rt, fields_fault(rt, &fields[..cut]), Fault::Truncated);
    }
}

#[test]
fn beginnings_are_truncated(rt: HostRuntime) {
    assert_short_for_value(&rt, &value_with(&rt, &LATER));
    assert_short_fields(&rt, &LATER[1..]);
}

/// The body of client 7's transaction 1 of session 1 with one byte at a place.
fn later_with(place: usize, byte: u8) -> [u8; 19] {
    let mut bytes = LATER;
    if let Some(at) = bytes.get_mut(place) {
        *at = byte;
    }
    bytes
}

/// The body with one byte at a place has this fault, alone and within a value.
fn assert_fault_with<R: Abort + AllocGlobal>(rt: &R, place: usize, byte: u8, fault: Fault) {
    let body = later_with(place, byte);
    assert_fault(rt, tx_fault(rt, &body), fault);
    assert_fault(rt, value_fault(rt, &value_with(rt, &body)), fault);
}

#[test]
fn fields_out_of_range(rt: HostRuntime) {
    // A kind that is no transaction's.
    assert_fault_with(&rt, 0, 3, Fault::BadSpelling);
    // The high byte of the client: 1,031 then.
    assert_fault_with(&rt, 1, 4, Fault::BadSpelling);
    // Session 0.
    assert_fault_with(&rt, 6, 0, Fault::BadSpelling);
    // The number: 2^48 + 1, and 0.
    assert_fault_with(&rt, 8, 1, Fault::BadSpelling);
    assert_fault_with(&rt, 14, 0, Fault::BadSpelling);
    // The operation.
    assert_fault_with(&rt, 15, 2, Fault::BadSpelling);
    // The length: 1,025.
    assert_fault_with(&rt, 16, 4, Fault::TooLong);
}

#[test]
fn session_zero_is_not_told(rt: HostRuntime) {
    let zero = later_with(6, 0);
    assert_fault(&rt, fields_fault(&rt, &zero[1..]), Fault::BadSpelling);
    // It stands before what is absent behind it.
    assert_fault(&rt, tx_fault(&rt, &zero[..7]), Fault::BadSpelling);
    assert_fault(&rt, tx_fault(&rt, &zero[..6]), Fault::Truncated);
}
