//! The longest record: a decision of 500,000 bytes, with 128 precommits of 128 tags each.

use super::journals::{joined, value_of};
use super::{assert_bytes, assert_same};
use messages::{Bundle, Precommit};
use protocol::Record;
use std::process::Abort;
use transactions::{Data, Duplicate, Op, Seq, Tx, Value, value_id};
use vote_journal::{JournalFault, read_record, spell_record};

/// Tags of nines.
fn nines<R: Abort + AllocGlobal>(rt: &R, count: usize) -> Seq<[u8; 32]> {
    let mut tags = Seq::new(rt.alloc());
    for _ in 0..count {
        tags.push([9u8; 32]).expect(rt, "the tags have room");
    }
    tags
}

/// A transaction of the last session, with so many bytes and tags.
fn tx_of<R: Abort + AllocGlobal>(rt: &R, count: usize, tags: usize) -> Tx {
    let contents = vec![in rt.alloc(); b'a'; count].expect(rt, "the bytes have room");
    Tx {
        client: 1023,
        session: 0xffff_ffff,
        number: 1,
        op: Op::Bytes(Data::from_vec(contents)),
        tags: nines(rt, tags),
    }
}

/// Adds so many copies of a transaction.
fn put_copies<R: Abort + AllocGlobal>(rt: &R, txs: &mut Vec<Tx>, count: usize, tx: &Tx) {
    for _ in 0..count {
        let copy = tx.copy(rt.alloc()).expect(rt, "the copy has room");
        txs.push(copy).expect(rt, "the copies have room");
    }
}

/// A value of 500,000 bytes: the count, 97 transactions of 5,139 bytes, and one of 1,515.
fn longest_value<R: Abort + AllocGlobal>(rt: &R) -> Value {
    let mut txs = Vec::new(rt.alloc());
    put_copies(rt, &mut txs, 97, &tx_of(rt, 1024, 128));
    put_copies(rt, &mut txs, 1, &tx_of(rt, 1016, 15));
    value_of(rt, txs)
}

/// A precommit of each of 128 validators.
fn certificate<R: Abort + AllocGlobal>(rt: &R) -> Seq<Precommit> {
    let mut precommits = Seq::new(rt.alloc());
    for sender in 0..128u16 {
        let tags = nines(rt, 128);
        precommits
            .push(Precommit { sender, tags })
            .expect(rt, "the precommits have room");
    }
    precommits
}

/// The decision of that value, with these precommits.
fn longest_record<R: Abort + AllocGlobal>(rt: &R) -> Record {
    let value = longest_value(rt);
    let id = value_id(rt.alloc(), &value).expect(rt, "the value has an id");
    Record::Decided(Bundle {
        height: 1,
        sender: 2,
        round: 3,
        id,
        value,
        precommits: certificate(rt),
    })
}

/// Bytes of a record of validator 2.
fn spelled<R: Abort + AllocGlobal>(rt: &R, record: &Record) -> Vec<u8> {
    spell_record(rt.alloc(), 2, record).expect(rt, "the record has room")
}

/// The record that stands behind its length, spelled again.
fn spelled_again<R: Abort + AllocGlobal>(rt: &R, content: &[u8]) -> Vec<u8> {
    let record = read_record(rt.alloc(), 2, content);
    spelled(rt, &record.expect(rt, "it is a record"))
}

/// The record has 1,024,721 bytes behind its length, and is read and spelled again.
#[test]
fn longest_there_and_back(rt: HostRuntime) {
    let bytes = spelled(&rt, &longest_record(&rt));
    let (len, content) = bytes.split_at(4.min(bytes.len()));
    assert_bytes(&rt, len, &[0x00, 0x0f, 0xa2, 0xd1]);
    assert_same(&rt, &content.len(), &1_024_721);
    assert_bytes(&rt, &spelled_again(&rt, content), &bytes);
}

/// The longest record with one more precommit at its end, which is counted.
fn with_one_more<R: Abort + AllocGlobal>(rt: &R) -> Vec<u8> {
    let mut bytes = spelled(rt, &longest_record(rt));
    // The count stands behind the length, both kinds, 46 bytes and the value.
    if let Some(count) = bytes.get_mut(4 + 1 + 1 + 46 + 500_000) {
        *count = 129;
    }
    joined(rt, &[&bytes, &[0, 128, 1], &[9; 32]])
}

#[test]
fn one_more_precommit_is_no_record(rt: HostRuntime) {
    let bytes = with_one_more(&rt);
    let content = bytes.get(4..).expect(&rt, "the length stands before");
    let fault = read_record(rt.alloc(), 2, content).err();
    assert_same(&rt, &fault, &Some(JournalFault::BadRecord));
}

#[test]
fn numbers_of_faults(rt: HostRuntime) {
    assert!(rt; JournalFault::Failed as u8 == 1);
    assert!(rt; JournalFault::OutOfMemory as u8 == 2);
    assert!(rt; JournalFault::BadRecord as u8 == 3);
}
