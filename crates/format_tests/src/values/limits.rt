//! The last good and the first bad of each limit.

use super::{
    CLOSE, ONE_BYTE, assert_fault, assert_same, assert_spelling_of_tx, joined, nines, sized,
    tx_fault, value_fault, value_of, value_read,
};
use std::process::Abort;
use transactions::{Fault, Op, Seq, Tx, read_tx, spell_tx, spell_value, tx_fields_of, value_id};

/// The bytes and tags of the smallest transaction.
const SMALLEST: (usize, usize) = (0, 1);

/// The bytes and tags of the largest transaction.
const LARGEST: (usize, usize) = (1024, 128);

/// The spelling of a transaction with this many bytes and tags.
fn spelled_sized<R: Abort + AllocGlobal>(rt: &R, bytes: usize, tags: usize) -> Vec<u8> {
    spell_tx(rt.alloc(), &sized(rt, bytes, tags)).expect(rt, "it has a spelling")
}

/// The spelling of a transaction of this session with the most of everything else.
fn spelled_largest<R: Abort + AllocGlobal>(rt: &R, session: u32) -> Vec<u8> {
    let mut tx = sized(rt, 1024, 128);
    tx.session = session;
    spell_tx(rt.alloc(), &tx).expect(rt, "it has a spelling")
}

/// Whether this is the transaction of this session with the most of everything else.
fn is_largest(tx: &Tx, session: u32) -> bool {
    tx.client == 1023
        && tx.session == session
        && tx.number == 0x1_0000_0000_0000
        && matches!(&tx.op, Op::Bytes(contents) if contents.len() == 1024)
        && tx.tags.len() == 128
}

/// The transaction of this session with the most of everything else has so many bytes, is read, and is spelled again.
fn assert_largest_is_read<R: Abort + AllocGlobal>(rt: &R, session: u32, len: usize) {
    let bytes = spelled_largest(rt, session);
    assert_same(rt, &bytes.len(), &len);
    let tx = read_tx(rt.alloc(), &bytes).expect(rt, "it is a transaction");
    assert_same(rt, &is_largest(&tx, session), &true);
    assert_spelling_of_tx(rt, &tx, &bytes);
}

#[test]
fn largest_transactions(rt: HostRuntime) {
    // The body, the count of the tags, and 128 tags; a session after the first is told.
    assert_largest_is_read(&rt, 0, 1038 + 1 + 4096);
    assert_largest_is_read(&rt, 1, 1042 + 1 + 4096);
    assert_largest_is_read(&rt, 0xffff_ffff, 5139);
}

/// The bytes of the largest transaction with one tag more: the count stands behind this many bytes.
fn with_one_more_tag<R: Abort + AllocGlobal>(rt: &R, session: u32, body: usize) -> Vec<u8> {
    let mut bytes = spelled_largest(rt, session);
    if let Some(count) = bytes.get_mut(body) {
        *count = 129;
    }
    joined(rt, &[&bytes, &[9; 32]])
}

/// A transaction with this many bytes and tags has no spelling, for this cause.
fn assert_no_spelling_of_sized<R: Abort + AllocGlobal>(
    rt: &R,
    bytes: usize,
    tags: usize,
    fault: Fault,
) {
    let found = spell_tx(rt.alloc(), &sized(rt, bytes, tags)).err();
    assert_fault(rt, found, fault);
}

#[test]
fn largest_transactions_with_one_more_tag(rt: HostRuntime) {
    let first = with_one_more_tag(&rt, 0, 1038);
    assert_fault(&rt, tx_fault(&rt, &first), Fault::TooLong);
    let later = with_one_more_tag(&rt, 1, 1042);
    assert_fault(&rt, tx_fault(&rt, &later), Fault::TooLong);
    assert_no_spelling_of_sized(&rt, 1024, 129, Fault::TooLong);
}

/// Client 7's transaction 1 has this fault with this byte at this place, which comes first.
fn assert_fault_with<R: Abort + AllocGlobal>(rt: &R, place: usize, byte: u8, fault: Fault) {
    let mut bytes = ONE_BYTE;
    if let Some(at) = bytes.get_mut(place) {
        *at = byte;
    }
    assert_fault(rt, tx_fault(rt, &bytes), fault);
}

#[test]
fn fields_out_of_range(rt: HostRuntime) {
    // The kind, in its neighbours, and that of a later session, which would be 0.
    assert_fault_with(&rt, 0, 0, Fault::BadSpelling);
    assert_fault_with(&rt, 0, 2, Fault::BadSpelling);
    assert_fault_with(&rt, 0, 3, Fault::BadSpelling);
    // The high byte of the client: 1,031 then.
    assert_fault_with(&rt, 1, 4, Fault::BadSpelling);
    // The number: 2^48 + 1, and 0.
    assert_fault_with(&rt, 4, 1, Fault::BadSpelling);
    assert_fault_with(&rt, 10, 0, Fault::BadSpelling);
    // The operation.
    assert_fault_with(&rt, 11, 2, Fault::BadSpelling);
    // The length: 1,025.
    assert_fault_with(&rt, 12, 4, Fault::TooLong);
}

/// A close with this count of tags, and none of them, has this fault.
fn assert_fault_of_tag_count<R: Abort + AllocGlobal>(rt: &R, count: u8, fault: Fault) {
    let bytes = joined(rt, &[&CLOSE, &[count]]);
    assert_fault(rt, tx_fault(rt, &bytes), fault);
}

#[test]
fn tag_counts(rt: HostRuntime) {
    assert_fault_of_tag_count(&rt, 0, Fault::BadSpelling);
    assert_fault_of_tag_count(&rt, 129, Fault::TooLong);
    assert_fault_of_tag_count(&rt, 128, Fault::Truncated);
}

/// The value of so many transactions of one size and one more is spelled in so many bytes.
fn assert_len<R: Abort + AllocGlobal>(
    rt: &R,
    count: usize,
    each: (usize, usize),
    last: (usize, usize),
    len: usize,
) {
    let value = value_of(rt, count, each, last);
    let bytes = spell_value(rt.alloc(), &value).expect(rt, "it has a spelling");
    assert_same(rt, &bytes.len(), &len);
}

/// The value of so many transactions of one size and one more has no spelling, for this cause.
fn assert_no_value<R: Abort + AllocGlobal>(
    rt: &R,
    count: usize,
    each: (usize, usize),
    last: (usize, usize),
    fault: Fault,
) {
    let value = value_of(rt, count, each, last);
    assert_fault(rt, spell_value(rt.alloc(), &value).err(), fault);
}

/// How many transactions are read from the spelling of so many of one size and one more.
fn count_read_back<R: Abort + AllocGlobal>(
    rt: &R,
    count: usize,
    each: (usize, usize),
    last: (usize, usize),
) -> usize {
    let value = value_of(rt, count, each, last);
    let bytes = spell_value(rt.alloc(), &value).expect(rt, "it has a spelling");
    value_read(rt, &bytes).txs.len()
}

#[test]
fn most_transactions(rt: HostRuntime) {
    let count = count_read_back(&rt, 255, SMALLEST, SMALLEST);
    assert_same(&rt, &count, &256);
}

#[test]
fn too_many_transactions(rt: HostRuntime) {
    assert_no_value(&rt, 256, SMALLEST, SMALLEST, Fault::TooLong);
    let value = value_of(&rt, 256, SMALLEST, SMALLEST);
    assert_fault(&rt, value_id(rt.alloc(), &value).err(), Fault::TooLong);
}

#[test]
fn counts_of_transactions(rt: HostRuntime) {
    assert_fault(&rt, value_fault(&rt, &[1, 1]), Fault::TooLong);
    assert_fault(&rt, value_fault(&rt, &[1, 0]), Fault::Truncated);
    assert_fault(&rt, value_fault(&rt, &[0, 1, 2]), Fault::Truncated);
    assert_fault(&rt, value_fault(&rt, &[0, 1, 3]), Fault::BadSpelling);
}

#[test]
fn bytes_of_values(rt: HostRuntime) {
    assert_len(&rt, 96, LARGEST, LARGEST, 498_485);
    assert_no_value(&rt, 97, LARGEST, LARGEST, Fault::TooLong);
    assert_len(&rt, 97, LARGEST, (1016, 15), 500_000);
    assert_no_value(&rt, 97, LARGEST, (1017, 15), Fault::TooLong);
}

#[test]
fn most_bytes(rt: HostRuntime) {
    let count = count_read_back(&rt, 97, LARGEST, (1016, 15));
    assert_same(&rt, &count, &98);
}

/// The bytes of a value with 97 of the largest transactions and one of 1,516 bytes: 500,001 in all.
fn too_many_bytes<R: Abort + AllocGlobal>(rt: &R) -> Vec<u8> {
    let largest = spelled_sized(rt, 1024, 128);
    let mut bytes = joined(rt, &[&[0, 98]]);
    for _ in 0..97 {
        bytes
            .extend_from_slice(&largest)
            .expect(rt, "they have room");
    }
    joined(rt, &[&bytes, &spelled_sized(rt, 1017, 15)])
}

/// A value of 500,001 bytes is refused where it passes the limit, and is too short if the last is absent.
#[test]
fn value_that_passes_its_limit(rt: HostRuntime) {
    let bytes = too_many_bytes(&rt);
    let front = bytes.get(..500_000).expect(&rt, "there are as many");
    assert_same(&rt, &bytes.len(), &500_001);
    assert_fault(&rt, value_fault(&rt, &bytes), Fault::TooLong);
    assert_fault(&rt, value_fault(&rt, front), Fault::Truncated);
}

/// A close of this client, with this number and so many tags, has no spelling, for this cause.
fn assert_no_spelling<R: Abort + AllocGlobal>(
    rt: &R,
    client: u16,
    number: u64,
    tags: usize,
    fault: Fault,
) {
    let tx = Tx {
        client,
        session: 0,
        number,
        op: Op::Close,
        tags: nines(rt, tags),
    };
    assert_fault(rt, spell_tx(rt.alloc(), &tx).err(), fault);
}

#[test]
fn things_without_spelling(rt: HostRuntime) {
    assert_no_spelling(&rt, 1024, 1, 1, Fault::BadSpelling);
    assert_no_spelling(&rt, 1023, 0, 1, Fault::BadSpelling);
    assert_no_spelling(&rt, 1023, 0x1_0000_0000_0001, 1, Fault::BadSpelling);
    assert_no_spelling(&rt, 1023, 1, 0, Fault::BadSpelling);
    assert_no_spelling(&rt, 1023, 1, 129, Fault::TooLong);
}

#[test]
fn long_contents_without_spelling(rt: HostRuntime) {
    assert_no_spelling_of_sized(&rt, 1025, 129, Fault::TooLong);
}

/// Client 7's transaction 1 without its kind, up to the length of its contents: 1,024.
const BEFORE_CONTENTS: [u8; 13] = [0, 7, 0, 0, 0, 0, 0, 0, 0, 1, 0, 4, 0];

/// These bytes and 1,024 more are a transaction with 1,024 bytes and no tags, without its kind.
fn assert_contents_are_read<R: Abort + AllocGlobal>(rt: &R, before: &[u8]) {
    let bytes = joined(rt, &[before, &[b'a'; 1024]]);
    let fields = tx_fields_of(rt.alloc(), false, &bytes);
    let (tx, rest) = fields.expect(rt, "they are fields");
    assert!(rt; matches!(&tx.op, Op::Bytes(contents) if contents.len() == 1024));
    assert!(rt; rest.is_empty());
    assert!(rt; tx.tags == Seq::new(rt.alloc()));
}

#[test]
fn lengths_of_contents(rt: HostRuntime) {
    let cut = tx_fields_of(rt.alloc(), false, &BEFORE_CONTENTS).err();
    assert_fault(&rt, cut, Fault::Truncated);
    assert_contents_are_read(&rt, &BEFORE_CONTENTS);
}
