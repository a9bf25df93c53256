mod limits;
mod parts;
mod sessions;

use crate::same::assert_same;
use std::process::Abort;
use transactions::*;

const EMPTY_ID: [u8; 32] = [
    0x96, 0xa2, 0x96, 0xd2, 0x24, 0xf2, 0x85, 0xc6, 0x7b, 0xee, 0x93, 0xc3, 0x0f, 0x8a, 0x30, 0x91,
    0x57, 0xf0, 0xda, 0xa3, 0x5d, 0xc5, 0xb8, 0x7e, 0x41, 0x0b, 0x78, 0x63, 0x0a, 0x09, 0xcf, 0xc7,
];

/// The body of client 7's transaction 1, which asks for the byte `a`.
const ONE_BYTE: [u8; 15] = [1, 0, 7, 0, 0, 0, 0, 0, 0, 0, 1, 0, 0, 1, b'a'];

/// The body of client 7's transaction 1 of session 1, which asks for the byte `b`.
const LATER: [u8; 19] = [2, 0, 7, 0, 0, 0, 1, 0, 0, 0, 0, 0, 0, 0, 1, 0, 0, 1, b'b'];

/// The body of client 7's transaction 2, which is a close.
const CLOSE: [u8; 12] = [1, 0, 7, 0, 0, 0, 0, 0, 0, 0, 2, 1];

/// Ends the test where other bytes were found than are wanted.
fn assert_bytes<R: Abort>(rt: &R, found: &[u8], wanted: &[u8]) {
    assert!(rt; found == wanted);
}

/// This fault was found.
fn assert_fault<R: Abort + AllocGlobal>(rt: &R, found: Option<Fault>, wanted: Fault) {
    assert_same(rt, &found, &Some(wanted));
}

/// These, one behind the other.
fn joined<R: Abort + AllocGlobal>(rt: &R, parts: &[&[u8]]) -> Vec<u8> {
    let mut bytes = Vec::new(rt.alloc());
    for part in parts {
        bytes.extend_from_slice(part).expect(rt, "they have room");
    }
    bytes
}

/// Tags of nines.
fn nines<R: Abort + AllocGlobal>(rt: &R, count: usize) -> Seq<[u8; 32]> {
    let mut tags = Seq::new(rt.alloc());
    for _ in 0..count {
        tags.push([9; 32]).expect(rt, "the tags have room");
    }
    tags
}

/// A transaction of the last session with this many bytes and tags.
fn sized<R: Abort + AllocGlobal>(rt: &R, bytes: usize, tags: usize) -> Tx {
    let contents = vec![in rt.alloc(); b'a'; bytes].expect(rt, "the bytes have room");
    Tx {
        client: 1023,
        session: 0xffff_ffff,
        number: 0x1_0000_0000_0000,
        op: Op::Bytes(Data::from_vec(contents)),
        tags: nines(rt, tags),
    }
}

/// Adds so many transactions of one size.
fn put_sized<R: Abort + AllocGlobal>(
    rt: &R,
    txs: &mut Vec<Tx>,
    count: usize,
    size: (usize, usize),
) {
    let tx = sized(rt, size.0, size.1);
    for _ in 0..count {
        let copy = tx.copy(rt.alloc()).expect(rt, "the copy has room");
        txs.push(copy).expect(rt, "the copies have room");
    }
}

/// A value of so many transactions of one size, and one more; a size is of bytes and tags.
fn value_of<R: Abort + AllocGlobal>(
    rt: &R,
    count: usize,
    each: (usize, usize),
    last: (usize, usize),
) -> Value {
    let mut txs = Vec::new(rt.alloc());
    put_sized(rt, &mut txs, count, each);
    put_sized(rt, &mut txs, 1, last);
    Value {
        txs: Shared::from_vec(rt.alloc(), txs).expect(rt, "the value has room"),
    }
}

/// A body with one tag, of nines.
fn with_tag<R: Abort + AllocGlobal>(rt: &R, body: &[u8]) -> Vec<u8> {
    joined(rt, &[body, &[1], &[9; 32]])
}

/// The transaction of this body with one tag, of nines.
fn tx_of<R: Abort + AllocGlobal>(rt: &R, body: &[u8]) -> Tx {
    read_tx(rt.alloc(), &with_tag(rt, body)).expect(rt, "it is a transaction")
}

/// The value that these bytes spell.
fn value_read<R: Abort + AllocGlobal>(rt: &R, bytes: &[u8]) -> Value {
    read_value(rt.alloc(), bytes).expect(rt, "it is a value")
}

/// The empty value.
fn empty<R: Abort + AllocGlobal>(rt: &R) -> Value {
    value_read(rt, &[0, 0])
}

/// Why these bytes are no transaction.
fn tx_fault<R: Abort + AllocGlobal>(rt: &R, bytes: &[u8]) -> Option<Fault> {
    read_tx(rt.alloc(), bytes).err()
}

/// Why these bytes are no value.
fn value_fault<R: Abort + AllocGlobal>(rt: &R, bytes: &[u8]) -> Option<Fault> {
    read_value(rt.alloc(), bytes).err()
}

/// The transaction's spelling is these bytes.
fn assert_spelling_of_tx<R: Abort + AllocGlobal>(rt: &R, tx: &Tx, bytes: &[u8]) {
    let found = spell_tx(rt.alloc(), tx).expect(rt, "it has a spelling");
    assert_bytes(rt, &found, bytes);
}

/// The transaction's spelling is this body with one tag, of nines.
fn assert_spelled_with_tag<R: Abort + AllocGlobal>(rt: &R, tx: &Tx, body: &[u8]) {
    assert_spelling_of_tx(rt, tx, &with_tag(rt, body));
}

/// The value's spelling is these bytes.
fn assert_spelling_of_value<R: Abort + AllocGlobal>(rt: &R, value: &Value, bytes: &[u8]) {
    let found = spell_value(rt.alloc(), value).expect(rt, "it has a spelling");
    assert_bytes(rt, &found, bytes);
}

/// A copy of the value.
fn copied<R: Abort + AllocGlobal>(rt: &R, value: &Value) -> Value {
    value.copy(rt.alloc()).expect(rt, "the copy has room")
}

/// Whether a copy of the value is the same value.
fn is_same_as_its_copy<R: Abort + AllocGlobal>(rt: &R, value: &Value) -> bool {
    same_value(value, &copied(rt, value))
}

/// The id of the value.
fn id_of<R: Abort + AllocGlobal>(rt: &R, value: &Value) -> Id {
    value_id(rt.alloc(), value).expect(rt, "it has an id")
}

/// The value is empty, and has the spelling and the id of the empty one.
fn assert_empty<R: Abort + AllocGlobal>(rt: &R, value: &Value) {
    assert_same(rt, &value.txs.len(), &0);
    assert_spelling_of_value(rt, value, &[0, 0]);
    assert_bytes(rt, &id_of(rt, value), &EMPTY_ID);
}

#[test]
fn empty_value(rt: HostRuntime) {
    assert_empty(&rt, &empty(&rt));
}

#[test]
fn copy_of_the_empty_value(rt: HostRuntime) {
    let value = empty(&rt);
    assert_same(&rt, &is_same_as_its_copy(&rt, &value), &true);
    assert_empty(&rt, &copied(&rt, &value));
}

/// Whether this is client 7's transaction 1, which asks for the byte `a`, with one tag, of nines.
fn is_one_byte(tx: &Tx) -> bool {
    tx.client == 7
        && tx.session == 0
        && tx.number == 1
        && matches!(&tx.op, Op::Bytes(contents) if contents.as_slice() == b"a".as_slice())
        && tx.tags.as_slice() == [[9u8; 32]].as_slice()
}

#[test]
fn transaction_of_one_byte(rt: HostRuntime) {
    let tx = tx_of(&rt, &ONE_BYTE);
    assert_same(&rt, &is_one_byte(&tx), &true);
    assert_spelled_with_tag(&rt, &tx, &ONE_BYTE);
}

/// Whether this is client 7's transaction 1 of session 1, which asks for the byte `b`, with one tag, of nines.
fn is_later(tx: &Tx) -> bool {
    tx.client == 7
        && tx.session == 1
        && tx.number == 1
        && matches!(&tx.op, Op::Bytes(contents) if contents.as_slice() == b"b".as_slice())
        && tx.tags.as_slice() == [[9u8; 32]].as_slice()
}

#[test]
fn transaction_of_a_later_session(rt: HostRuntime) {
    let tx = tx_of(&rt, &LATER);
    assert_same(&rt, &is_later(&tx), &true);
    assert_spelled_with_tag(&rt, &tx, &LATER);
}

/// Whether this is client 7's transaction 2, which is a close.
fn is_close(tx: &Tx) -> bool {
    tx.client == 7 && tx.session == 0 && tx.number == 2 && matches!(&tx.op, Op::Close)
}

#[test]
fn closing_transaction(rt: HostRuntime) {
    let tx = tx_of(&rt, &CLOSE);
    assert_same(&rt, &is_close(&tx), &true);
    assert_spelled_with_tag(&rt, &tx, &CLOSE);
}

#[test]
fn byte_after_a_transaction(rt: HostRuntime) {
    let bytes = joined(&rt, &[&with_tag(&rt, &CLOSE), &[0]]);
    assert_fault(&rt, tx_fault(&rt, &bytes), Fault::BadSpelling);
}

/// The spelling of the value of the two transactions.
fn spelling_of_two<R: Abort + AllocGlobal>(rt: &R) -> Vec<u8> {
    joined(
        rt,
        &[&[0, 2], &with_tag(rt, &ONE_BYTE), &with_tag(rt, &CLOSE)],
    )
}

#[test]
fn value_of_two(rt: HostRuntime) {
    let bytes = spelling_of_two(&rt);
    let value = value_read(&rt, &bytes);
    assert_same(&rt, &value.txs.len(), &2);
    assert_spelling_of_value(&rt, &value, &bytes);
}

#[test]
fn value_of_two_is_compared(rt: HostRuntime) {
    let value = value_read(&rt, &spelling_of_two(&rt));
    assert_same(&rt, &is_same_as_its_copy(&rt, &value), &true);
    assert_same(&rt, &same_value(&value, &empty(&rt)), &false);
}

/// Each beginning of the bytes is too short for a transaction.
fn assert_short_for_tx<R: Abort + AllocGlobal>(rt: &R, bytes: &[u8]) {
    for cut in 0..bytes.len() {
        assert_fault(rt, tx_fault(rt, &bytes[..cut]), Fault::Truncated);
    }
}

/// Each beginning of the bytes is too short for a value.
fn assert_short_for_value<R: Abort + AllocGlobal>(rt: &R, bytes: &[u8]) {
    for cut in 0..bytes.len() {
        assert_fault(rt, value_fault(rt, &bytes[..cut]), Fault::Truncated);
    }
}

#[test]
fn beginnings_of_transactions_are_truncated(rt: HostRuntime) {
    assert_short_for_tx(&rt, &with_tag(&rt, &ONE_BYTE));
    assert_short_for_tx(&rt, &with_tag(&rt, &CLOSE));
    assert_short_for_tx(&rt, &with_tag(&rt, &LATER));
}

#[test]
fn beginnings_of_values_are_truncated(rt: HostRuntime) {
    assert_short_for_value(&rt, &spelling_of_two(&rt));
    assert_short_for_value(&rt, &[0, 0]);
}

/// The fault has this number and this text.
fn assert_told<R: Abort + AllocGlobal>(rt: &R, fault: Fault, number: u8, text: &str) {
    assert_same(rt, &(fault as u8), &number);
    let found = fault.to_string(rt.alloc()).expect(rt, "the text has room");
    assert_bytes(rt, found.as_bytes(), text.as_bytes());
}

#[test]
fn messages_of_faults(rt: HostRuntime) {
    assert_told(&rt, Fault::Truncated, 1, "the bytes end within a field");
    assert_told(
        &rt,
        Fault::TooLong,
        2,
        "a count, a length or a total is above its limit",
    );
    assert_told(&rt, Fault::BadSpelling, 3, "a field is outside its range");
    assert_told(&rt, Fault::OutOfMemory, 4, "out of memory");
    assert_told(&rt, Fault::BadKind, 5, "no such kind of message");
}

/// The empty value with its id.
fn named_empty_value<R: Abort + AllocGlobal>(rt: &R) -> Named {
    let value = empty(rt);
    let id = value_id(rt.alloc(), &value).expect(rt, "it has an id");
    Named::new(value, id)
}

/// This is the empty value with its id.
fn assert_named_empty<R: Abort + AllocGlobal>(rt: &R, named: &Named) {
    assert_same(rt, &named.value().txs.len(), &0);
    assert_bytes(rt, &named.id(), &EMPTY_ID);
}

#[test]
fn value_with_its_id(rt: HostRuntime) {
    let named = named_empty_value(&rt);
    assert_named_empty(&rt, &named);
    let again = named.copy(rt.alloc()).expect(&rt, "the copy has room");
    assert_named_empty(&rt, &again);
    assert_same(&rt, &named.into_value().txs.len(), &0);
}
