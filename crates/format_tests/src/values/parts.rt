//! The readers and writers of parts, the lists and equality.

use super::{
    CLOSE, LATER, ONE_BYTE, assert_bytes, assert_fault, assert_same, empty, is_same_as_its_copy,
    nines, tx_of, value_of, with_tag,
};
use std::process::Abort;
use transactions::fields::{array_at, slice_at, u8_at, u16_at, u32_at, u64_at};
use transactions::{
    Data, Duplicate, Fault, Item, Op, Seq, Shared, copy_all, len_of_tags, len_of_tx_body,
    len_of_value, put_tags, put_tx_body, put_u16, put_u32, put_u64, put_value, same_value, tags_of,
    tx_fields_of, value_front,
};

/// The numbers of one, two, four and eight bytes at the front.
fn numbers_at(bytes: &[u8]) -> Result<(u8, u16, u32, u64), Fault> {
    let (one, _) = u8_at(bytes)?;
    let (two, _) = u16_at(bytes)?;
    let (four, _) = u32_at(bytes)?;
    let (eight, _) = u64_at(bytes)?;
    Ok((one, two, four, eight))
}

#[test]
fn numbers_are_read(rt: HostRuntime) {
    let bytes = &[1, 2, 3, 4, 5, 6, 7, 8, 9];
    assert!(rt; numbers_at(bytes) == Ok((1, 0x0102, 0x0102_0304, 0x0102_0304_0506_0708)));
    assert!(rt; matches!(u64_at(bytes), Ok((_, [9]))));
}

#[test]
fn numbers_are_cut_off(rt: HostRuntime) {
    assert_fault(&rt, u8_at(&[]).err(), Fault::Truncated);
    assert_fault(&rt, u16_at(&[1]).err(), Fault::Truncated);
    assert_fault(&rt, u32_at(&[1, 2, 3]).err(), Fault::Truncated);
    assert_fault(&rt, u64_at(&[1, 2, 3, 4, 5, 6, 7]).err(), Fault::Truncated);
}

#[test]
fn slices_are_read(rt: HostRuntime) {
    assert!(rt; matches!(slice_at(b"abc", 2), Ok((b"ab", b"c"))));
    assert_fault(&rt, slice_at(b"abc", 4).err(), Fault::Truncated);
}

#[test]
fn arrays_are_read(rt: HostRuntime) {
    let bytes = &[5; 33];
    let (array, _) = array_at(bytes).expect(&rt, "it is an array");
    assert_bytes(&rt, &array, &[5; 32]);
    assert_fault(&rt, array_at(&[5; 31]).err(), Fault::Truncated);
}

/// Adds numbers of two, four and eight bytes.
fn put_numbers<R: Abort + AllocGlobal>(rt: &R, out: &mut Vec<u8>) {
    put_u16(out, 0x0102).expect(rt, "it has room");
    put_u32(out, 0x0304_0506).expect(rt, "it has room");
    put_u64(out, 0x0708_090a_0b0c_0d0e).expect(rt, "it has room");
}

#[test]
fn numbers_are_written(rt: HostRuntime) {
    let mut out = Vec::new(rt.alloc());
    put_numbers(&rt, &mut out);
    assert_bytes(&rt, &out, &[1, 2, 3, 4, 5, 6, 7, 8, 9, 10, 11, 12, 13, 14]);
}

/// The fields of a body are read, of this session and number, to the last byte.
fn assert_fields<R: Abort + AllocGlobal>(
    rt: &R,
    is_later: bool,
    bytes: &[u8],
    session: u32,
    number: u64,
) {
    let fields = tx_fields_of(rt.alloc(), is_later, bytes);
    let (body, rest) = fields.expect(rt, "they are fields");
    assert_same(rt, &rest.len(), &0);
    assert_same(rt, &body.session, &session);
    assert_same(rt, &body.number, &number);
}

#[test]
fn fields_of_a_body_are_read(rt: HostRuntime) {
    assert_fields(&rt, false, &CLOSE[1..], 0, 2);
    assert_fields(&rt, true, &LATER[1..], 1, 1);
}

/// Where one tag was written, one is read.
#[test]
fn tags_are_read(rt: HostRuntime) {
    let bytes = with_tag(&rt, &[]);
    let (tags, _) = tags_of(rt.alloc(), &bytes).expect(&rt, "they are tags");
    assert_same(&rt, &tags.len(), &1);
}

/// The empty value is read, up to a byte behind it.
#[test]
fn front_of_a_value_is_read(rt: HostRuntime) {
    let bytes = &[0, 0, 7];
    let (value, rest) = value_front(rt.alloc(), bytes).expect(&rt, "it is a value");
    assert_same(&rt, &value.txs.len(), &0);
    assert_bytes(&rt, rest, &[7]);
}

/// The body of this spelling's transaction is as long as it, and is written so.
fn assert_body<R: Abort + AllocGlobal>(rt: &R, bytes: &[u8]) {
    let tx = tx_of(rt, bytes);
    let len = len_of_tx_body(&tx).expect(rt, "it has a body");
    assert_same(rt, &len, &bytes.len());
    let mut out = Vec::new(rt.alloc());
    put_tx_body(&mut out, &tx).expect(rt, "the body has room");
    assert_bytes(rt, &out, bytes);
}

#[test]
fn body_is_written(rt: HostRuntime) {
    assert_body(&rt, &ONE_BYTE);
    assert_body(&rt, &LATER);
}

/// One tag of nines, behind the count.
const ONE_TAG: [u8; 33] = [
    1, 9, 9, 9, 9, 9, 9, 9, 9, 9, 9, 9, 9, 9, 9, 9, 9, 9, 9, 9, 9, 9, 9, 9, 9, 9, 9, 9, 9, 9, 9, 9,
    9,
];

/// The tags are as long as these bytes, and are written so.
#[test]
fn tags_are_written(rt: HostRuntime) {
    let tx = tx_of(&rt, &ONE_BYTE);
    let len = len_of_tags(tx.tags.as_slice()).expect(&rt, "they are tags");
    assert_same(&rt, &len, &ONE_TAG.len());
    let mut out = Vec::new(rt.alloc());
    put_tags(&mut out, &tx.tags).expect(&rt, "the tags have room");
    assert_bytes(&rt, &out, &ONE_TAG);
}

/// The empty value is as long as its spelling, and is written so.
#[test]
fn value_is_written(rt: HostRuntime) {
    let value = empty(&rt);
    let len = len_of_value(&value).expect(&rt, "it has a spelling");
    assert_same(&rt, &len, &2);
    let mut out = Vec::new(rt.alloc());
    put_value(&mut out, &value).expect(&rt, "the value has room");
    assert_bytes(&rt, &out, &[0, 0]);
}

/// The numbers 1 to 3.
fn one_two_three<R: Abort + AllocGlobal>(rt: &R) -> Seq<u8> {
    let two = Vec::from_slice(rt.alloc(), &[1, 2]).expect(rt, "they have room");
    let mut list = Seq::from_vec(two);
    list.push(3).expect(rt, "it has room");
    list
}

#[test]
fn lists(rt: HostRuntime) {
    let list = one_two_three(&rt);
    assert_same(&rt, &list.len(), &3);
    let again = list.copy(rt.alloc()).expect(&rt, "the copy has room");
    assert!(rt; list == again);
    assert_bytes(&rt, again.as_slice(), &[1, 2, 3]);
}

#[test]
fn shared_lists(rt: HostRuntime) {
    let list = Shared::from_vec(rt.alloc(), one_two_three(&rt).into_vec());
    let list = list.expect(&rt, "the list has room");
    assert_same(&rt, &list.len(), &3);
    let again = list.copy(rt.alloc()).expect(&rt, "the count fits");
    assert!(rt; list == again);
    assert_bytes(&rt, again.as_slice(), &[1, 2, 3]);
}

/// These bytes are held as they are, however they came, and so are their copies.
fn assert_held<R: Abort + AllocGlobal>(rt: &R, bytes: &[u8]) {
    let held = Data::from_slice(rt.alloc(), bytes).expect(rt, "they have room");
    assert_same(rt, &held.len(), &bytes.len());
    assert_bytes(rt, held.as_slice(), bytes);
    let copy = held.copy(rt.alloc()).expect(rt, "the copy has room");
    assert_bytes(rt, copy.as_slice(), bytes);
    let vector = bytes.to_vec(rt.alloc()).expect(rt, "they have room");
    assert!(rt; Data::from_vec(vector) == held);
    assert!(rt; copy == held);
}

#[test]
fn short_and_long_data(rt: HostRuntime) {
    let letters = vec![in rt.alloc(); b'a'; 1024].expect(&rt, "they have room");
    for len in [0, 1, 63, 64, 65, 1024] {
        assert_held(&rt, letters.get(..len).expect(&rt, "there are as many"));
    }
    let none = Data::from_slice(rt.alloc(), &[]).expect(&rt, "it takes no memory");
    assert!(rt; Data::new() == none);
    let zero = Data::from_slice(rt.alloc(), &[0]).expect(&rt, "it takes no memory");
    assert!(rt; zero != none);
}

/// Copies of elements are these elements.
#[test]
fn copies_of_elements(rt: HostRuntime) {
    let elements = &[1, 2, 3];
    let copies = copy_all(rt.alloc(), elements).expect(&rt, "they have room");
    assert_bytes(&rt, &copies, elements);
}

/// Three bytes and two tags.
const SMALL: (usize, usize) = (3, 2);

/// A value of one transaction is the same as its copy, and not as one with more or fewer of anything.
#[test]
fn equal_values(rt: HostRuntime) {
    let one = value_of(&rt, 0, SMALL, SMALL);
    for (count, last) in [(1, SMALL), (0, (3, 1)), (0, (2, 2))] {
        let other = value_of(&rt, count, SMALL, last);
        assert_same(&rt, &same_value(&one, &other), &false);
    }
    assert_same(&rt, &is_same_as_its_copy(&rt, &one), &true);
}

/// Two times two tags are equal.
#[test]
fn equal_tags(rt: HostRuntime) {
    assert!(rt; nines(&rt, 2) == nines(&rt, 2));
}

/// A copy of the item is equal.
#[test]
fn equal_items(rt: HostRuntime) {
    let item = Item {
        client: 7,
        session: 0,
        number: 1,
        op: Op::Close,
    };
    let copy = item.copy(rt.alloc()).expect(&rt, "the copy has room");
    assert!(rt; item == copy);
}
