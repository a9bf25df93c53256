//! Clients 1 to 9 send transactions to the first of some validators.

use super::assert_same;
use authenticators::{KeyRing, Party, hmac};
use mempool::Mempool;
use proposal_validity::Frontier;
use protocol::SubmitFault;
use std::alloc::{AllocError, Global};
use std::fmt::Write;
use std::process::Abort;
use transactions::{
    Data, Op, Seq, Shared, Tx, Value, len_of_tx_body, len_of_value, put_tx_body, read_value,
    spell_value,
};

/// The key of all that is sent.
const KEY: &str = "1111111111111111111111111111111111111111111111111111111111111111";

/// The tag of client 7's transaction 1, the byte 61, by Python's module `hmac`.
const TAG_OF_BYTES: [u8; 32] = [
    0xe6, 0x47, 0x31, 0x1e, 0xae, 0x2a, 0xdb, 0x4a, 0x55, 0x2d, 0xfc, 0x03, 0x37, 0xa0, 0x85, 0x42,
    0x7a, 0x16, 0x2a, 0x6c, 0x5d, 0x7d, 0x56, 0x93, 0x59, 0x9c, 0x43, 0x7c, 0x2b, 0x95, 0xff, 0x70,
];

/// The tag of client 7's close with number 0, by the same.
const TAG_OF_ZERO: [u8; 32] = [
    0x67, 0x66, 0xb2, 0x82, 0xc4, 0xde, 0x1a, 0xe7, 0x73, 0xf9, 0x0a, 0xbc, 0xa9, 0xf6, 0x6c, 0x45,
    0x7d, 0x39, 0x9b, 0xb0, 0x9b, 0x63, 0x90, 0xa0, 0x91, 0x4a, 0x15, 0x54, 0x79, 0x7d, 0x39, 0x48,
];

/// The first of some validators.
#[derive(Drop)]
pub(super) struct Validator {
    pub(super) alloc: Global,
    count: u16,
    pub(super) ring: KeyRing,
    pub(super) frontier: Frontier,
    pub(super) mempool: Mempool,
}

impl Validator {
    /// The first of so many validators, to which nothing was sent.
    pub(super) fn new<R: Abort + AllocGlobal>(rt: &R, validators: u16) -> Validator {
        let alloc = rt.alloc();
        Validator {
            alloc,
            count: validators,
            ring: ring_of(rt, validators),
            frontier: Frontier::new(alloc),
            mempool: Mempool::new(alloc),
        }
    }

    /// The tag of a transaction for this validator.
    fn tag_of<R: Abort + AllocGlobal>(&self, rt: &R, tx: &Tx) -> [u8; 32] {
        let len = len_of_tx_body(tx).expect(rt, "it has a body");
        let mut body = Vec::with_capacity(self.alloc, len).expect(rt, "the body has room");
        put_tx_body(&mut body, tx).expect(rt, "the body has room");
        hmac(&[0x11; 32], &body)
    }

    /// This tag, and one of zeros for each other validator.
    fn tags<R: Abort + AllocGlobal>(&self, rt: &R, own: [u8; 32]) -> Seq<[u8; 32]> {
        let mut tags = Seq::new(self.alloc);
        tags.push(own).expect(rt, "the tag has room");
        for _ in 1..self.count {
            tags.push([0; 32]).expect(rt, "the tags have room");
        }
        tags
    }

    /// The transaction with this tag for this validator, and one of zeros for each other.
    pub(super) fn with_tag<R: Abort + AllocGlobal>(&self, rt: &R, mut tx: Tx, own: [u8; 32]) -> Tx {
        tx.tags = self.tags(rt, own);
        tx
    }

    /// A transaction with the tag for this validator, and one of zeros for each other.
    pub(super) fn tagged<R: Abort + AllocGlobal>(
        &self,
        rt: &R,
        client: u16,
        session: u32,
        number: u64,
        op: Op,
    ) -> Tx {
        let tx = Tx {
            client,
            session,
            number,
            op,
            tags: Seq::new(self.alloc),
        };
        let own = self.tag_of(rt, &tx);
        self.with_tag(rt, tx, own)
    }

    /// Client 7's transaction of this number, with the right tag or with another.
    fn sent_by_seven<R: Abort + AllocGlobal>(&self, rt: &R, number: u64, is_right: bool) -> Tx {
        let tx = self.tagged(rt, 7, 0, number, bytes(rt, 2));
        if is_right {
            tx
        } else {
            self.with_tag(rt, tx, TAG_OF_ZERO)
        }
    }

    /// Whether the value of that transaction alone is found genuine.
    fn finds_genuine<R: Abort + AllocGlobal>(&self, rt: &R, number: u64, is_right: bool) -> bool {
        let value = value_alone(rt, self.sent_by_seven(rt, number, is_right));
        let spelled = spell_value(self.alloc, &value).expect(rt, "it has a spelling");
        let value = read_value(self.alloc, &spelled).expect(rt, "it is a value");
        self.mempool.is_genuine(&self.ring, &value)
    }

    /// The answer to a transaction.
    pub(super) fn submit(&mut self, tx: Tx) -> Result<(), SubmitFault> {
        self.mempool.submit(tx, &self.ring, &self.frontier)
    }

    /// The answer to a transaction of this many bytes, or to a close.
    fn answer<R: Abort + AllocGlobal>(
        &mut self,
        rt: &R,
        client: u16,
        number: u64,
        len: Option<usize>,
    ) -> Result<(), SubmitFault> {
        let tx = self.tagged(rt, client, 0, number, op_of(rt, len));
        self.submit(tx)
    }

    /// Transactions of two bytes, each of this client and number, get these answers.
    fn answers<R: Abort + AllocGlobal>(
        &mut self,
        rt: &R,
        sent: &[(u16, u64, Result<(), SubmitFault>)],
    ) {
        for (client, number, answer) in sent {
            let found = self.answer(rt, *client, *number, Some(2));
            assert_same(rt, &(client, number, found), &(client, number, *answer));
        }
    }

    /// A close of client 7 with number 1 and one tag for each of so many validators is refused for its tags.
    fn refuses_tags<R: Abort + AllocGlobal>(&mut self, rt: &R, validators: u16) {
        self.count = validators;
        let found = self.answer(rt, 7, 1, None);
        assert_same(rt, &found, &Err(SubmitFault::BadTag));
    }

    /// The answer to a transaction with one tag, this one.
    pub(super) fn answer_to_tag<R: Abort + AllocGlobal>(
        &mut self,
        rt: &R,
        client: u16,
        session: u32,
        number: u64,
        op: Op,
        tag: &[u8; 32],
    ) -> Result<(), SubmitFault> {
        self.submit(Tx {
            client,
            session,
            number,
            op,
            tags: one_tag(rt, tag),
        })
    }

    /// Client 7's transaction 1, the byte 61, gets this answer with one tag, this one.
    fn answers_to_tag<R: Abort + AllocGlobal>(
        &mut self,
        rt: &R,
        tag: &[u8; 32],
        answer: Result<(), SubmitFault>,
    ) {
        let found = self.answer_to_tag(rt, 7, 0, 1, byte(rt, b'a'), tag);
        assert_same(rt, &found, &answer);
    }

    /// The value that is picked.
    pub(super) fn picked<R: Abort + AllocGlobal>(&self, rt: &R) -> Value {
        self.mempool.pick().expect(rt, "the value has room")
    }

    /// Transactions of these clients and numbers are picked.
    fn picks<R: Abort + AllocGlobal>(&self, rt: &R, places: &[(u16, u64)]) {
        let value = self.picked(rt);
        assert!(rt; are_at(value.txs.as_slice(), places), "{places:?}");
    }

    /// A value of this many transactions and bytes is picked.
    pub(super) fn picks_so_many<R: Abort + AllocGlobal>(&self, rt: &R, count: usize, bytes: usize) {
        let value = self.picked(rt);
        assert_same(rt, &value.txs.len(), &count);
        let len = len_of_value(&value).expect(rt, "it is a value");
        assert_same(rt, &len, &bytes);
    }

    /// Five clients' queues are filled with transactions of this many bytes.
    fn fill<R: Abort + AllocGlobal>(&mut self, rt: &R, len: usize) {
        for number in 1..65 {
            for client in 1..6 {
                let found = self.answer(rt, client, number, Some(len));
                assert_same(rt, &found, &Ok(()));
            }
        }
    }

    /// Delivers a value.
    pub(super) fn take<R: Abort + AllocGlobal>(&mut self, rt: &R, value: &Value) {
        let _spelling = spell_value(self.alloc, value).expect(rt, "it has a spelling");
        assert!(rt; self.frontier.valid(value));
        self.frontier.extend(value).expect(rt, "it has room");
    }

    /// Delivers what is picked.
    pub(super) fn deliver<R: Abort + AllocGlobal>(&mut self, rt: &R) {
        let value = self.picked(rt);
        self.take(rt, &value);
        self.mempool.drop_delivered(&self.frontier);
    }
}

/// An operation of this many bytes.
pub(super) fn bytes<R: Abort + AllocGlobal>(rt: &R, len: usize) -> Op {
    let bytes = vec![in rt.alloc(); 7; len].expect(rt, "the bytes have room");
    Op::Bytes(Data::from_vec(bytes))
}

/// An operation of this byte.
pub(super) fn byte<R: Abort + AllocGlobal>(rt: &R, byte: u8) -> Op {
    let bytes = vec![in rt.alloc(); byte].expect(rt, "the byte has room");
    Op::Bytes(Data::from_vec(bytes))
}

/// An operation of this many bytes, or a close.
fn op_of<R: Abort + AllocGlobal>(rt: &R, len: Option<usize>) -> Op {
    match len {
        Some(len) => bytes(rt, len),
        None => Op::Close,
    }
}

/// The list of this tag alone.
fn one_tag<R: Abort + AllocGlobal>(rt: &R, tag: &[u8; 32]) -> Seq<[u8; 32]> {
    Seq::from_vec(vec![in rt.alloc(); *tag].expect(rt, "the tag has room"))
}

/// The value of these transactions.
pub(super) fn value_of<R: Abort + AllocGlobal>(rt: &R, txs: Vec<Tx>) -> Value {
    Value {
        txs: Shared::from_vec(rt.alloc(), txs).expect(rt, "the value has room"),
    }
}

/// The value of this transaction alone.
pub(super) fn value_alone<R: Abort + AllocGlobal>(rt: &R, tx: Tx) -> Value {
    value_of(
        rt,
        vec![in rt.alloc(); tx].expect(rt, "the transaction has room"),
    )
}

/// Adds the keys of so many validators and of nine clients to that of the first with itself.
fn put_keys(keys: &mut String, validators: u16) -> Result<(), AllocError> {
    for number in 1..validators {
        write!(keys, "v{number} v0 {KEY}\nv0 v{number} {KEY}\n")?;
    }
    for client in 1..10u16 {
        write!(keys, "c{client} v0 {KEY}\n")?;
    }
    Ok(())
}

/// The keys of the first of so many validators.
fn ring_of<R: Abort + AllocGlobal>(rt: &R, validators: u16) -> KeyRing {
    let mut keys = format!(in rt.alloc(); "v0 v0 {KEY}\n").expect(rt, "the key has room");
    put_keys(&mut keys, validators).expect(rt, "the keys have room");
    let ring = KeyRing::read(rt.alloc(), keys.as_bytes(), Party::Validator(0), validators);
    ring.expect(rt, "these are keys")
}

/// Whether these are the transactions of these clients and numbers.
fn are_at(txs: &[Tx], places: &[(u16, u64)]) -> bool {
    txs.len() == places.len()
        && txs
            .iter()
            .zip(places)
            .all(|(tx, place)| tx.client == place.0 && tx.number == place.1)
}

/// Client 7 fills its queue.
fn fill_queue<R: Abort + AllocGlobal>(rt: &R, validator: &mut Validator) {
    for sent in 0..64 {
        let reached = validator.mempool.reached(7, &validator.frontier);
        assert_same(rt, &reached.last, &sent);
        validator.answers(rt, &[(7, sent + 1, Ok(()))]);
    }
    assert_same(rt, &validator.mempool.waiting(7).len(), &64);
}

#[test]
fn wanted_numbers(rt: HostRuntime) {
    let mut validator = Validator::new(&rt, 4);
    fill_queue(&rt, &mut validator);
    validator.answers(
        &rt,
        &[
            (7, 65, Err(SubmitFault::QueueFull)),
            (7, 66, Err(SubmitFault::Gap)),
            (7, 64, Err(SubmitFault::OldNumber)),
            (8, 2, Err(SubmitFault::Gap)),
            (8, 1, Ok(())),
            (10, 1, Err(SubmitFault::UnknownClient)),
        ],
    );
}

/// Two clients' transactions are picked in turn.
fn queue_three<R: Abort + AllocGlobal>(rt: &R, validator: &mut Validator) {
    validator.picks(rt, &[]);
    validator.answers(rt, &[(2, 1, Ok(())), (2, 2, Ok(())), (5, 1, Ok(()))]);
    validator.picks(rt, &[(2, 1), (5, 1), (2, 2)]);
}

/// What is delivered is picked no more.
fn deliver_three<R: Abort + AllocGlobal>(rt: &R, validator: &mut Validator) {
    validator.deliver(rt);
    validator.picks(rt, &[]);
    validator.answers(rt, &[(5, 2, Ok(())), (2, 3, Ok(()))]);
    validator.picks(rt, &[(2, 3), (5, 2)]);
}

/// A copy of what is queued keeps what is delivered later.
fn keep_copy<R: Abort + AllocGlobal>(rt: &R, validator: &mut Validator) {
    let copy = validator.mempool.copy().expect(rt, "the copy has room");
    deliver_three(rt, validator);
    validator.mempool = copy;
}

#[test]
fn clients_take_turns(rt: HostRuntime) {
    let mut validator = Validator::new(&rt, 4);
    queue_three(&rt, &mut validator);
    keep_copy(&rt, &mut validator);
    validator.picks(&rt, &[(2, 1), (5, 1), (2, 2)]);
}

/// A client that has closed sends nothing more.
fn refuse_closed<R: Abort + AllocGlobal>(rt: &R, validator: &mut Validator) {
    let refused = &[
        (7, 1, Err(SubmitFault::OldNumber)),
        (7, 2, Err(SubmitFault::Closed)),
        (7, 3, Err(SubmitFault::Closed)),
    ];
    validator.answers(rt, refused);
}

#[test]
fn nothing_follows_a_close(rt: HostRuntime) {
    let mut validator = Validator::new(&rt, 4);
    assert_same(&rt, &validator.answer(&rt, 7, 1, None), &Ok(()));
    refuse_closed(&rt, &mut validator);
    validator.deliver(&rt);
    refuse_closed(&rt, &mut validator);
    validator.answers(&rt, &[(8, 1, Ok(()))]);
}

#[test]
fn one_tag_for_each_validator(rt: HostRuntime) {
    let mut validator = Validator::new(&rt, 4);
    validator.refuses_tags(&rt, 5);
    validator.refuses_tags(&rt, 3);
}

/// Contents of 1,025 bytes are refused before the client, who is unknown.
fn refuse_too_long<R: Abort + AllocGlobal>(rt: &R, validator: &mut Validator) {
    let mut too_long = validator.tagged(rt, 10, 0, 1, Op::Close);
    too_long.op = bytes(rt, 1025);
    assert_same(rt, &validator.submit(too_long), &Err(SubmitFault::TooLong));
}

/// Contents of 1,024 bytes are right, and are taken.
fn take_longest<R: Abort + AllocGlobal>(rt: &R, validator: &mut Validator) {
    let longest = validator.tagged(rt, 7, 0, 1, bytes(rt, 1024));
    let answer = validator
        .mempool
        .check(&longest, &validator.ring, &validator.frontier);
    assert_same(rt, &answer, &Ok(()));
    assert_same(rt, &validator.submit(longest), &Ok(()));
}

#[test]
fn longest_transactions(rt: HostRuntime) {
    let mut validator = Validator::new(&rt, 4);
    refuse_too_long(&rt, &mut validator);
    take_longest(&rt, &mut validator);
}

/// The known tag with one byte changed.
fn changed(place: usize, by: u8) -> [u8; 32] {
    let mut tag = TAG_OF_BYTES;
    if let Some(byte) = tag.get_mut(place) {
        *byte ^= by;
    }
    tag
}

#[test]
fn known_tags(rt: HostRuntime) {
    let mut validator = Validator::new(&rt, 1);
    let bad_tag = Err(SubmitFault::BadTag);
    validator.answers_to_tag(&rt, &changed(0, 0x80), bad_tag);
    validator.answers_to_tag(&rt, &changed(31, 1), bad_tag);
    validator.answers_to_tag(&rt, &TAG_OF_BYTES, Ok(()));
    validator.answers_to_tag(&rt, &TAG_OF_BYTES, Err(SubmitFault::OldNumber));
}

/// A close of this client, with this number and the tag of number 0, is refused for this cause.
fn refuse_field<R: Abort + AllocGlobal>(
    rt: &R,
    validator: &mut Validator,
    client: u16,
    number: u64,
    fault: SubmitFault,
) {
    let found = validator.answer_to_tag(rt, client, 0, number, Op::Close, &TAG_OF_ZERO);
    assert_same(
        rt,
        &(&client, &number, found),
        &(&client, &number, Err(fault)),
    );
}

#[test]
fn fields_out_of_range(rt: HostRuntime) {
    let mut validator = Validator::new(&rt, 1);
    refuse_field(&rt, &mut validator, 7, 0, SubmitFault::OldNumber);
    refuse_field(&rt, &mut validator, 7, u64::MAX, SubmitFault::BadTag);
    refuse_field(&rt, &mut validator, 1024, 0, SubmitFault::UnknownClient);
}

#[test]
fn most_transactions(rt: HostRuntime) {
    let mut validator = Validator::new(&rt, 4);
    validator.fill(&rt, 1);
    validator.picks_so_many(&rt, 256, 36_866);
}

#[test]
fn most_bytes(rt: HostRuntime) {
    let mut validator = Validator::new(&rt, 128);
    validator.fill(&rt, 1024);
    validator.picks_so_many(&rt, 97, 498_097);
}

/// Transaction 1 of client 7 waits, and 2 doesn't.
#[test]
fn what_waits_is_genuine_by_its_tags(rt: HostRuntime) {
    let mut validator = Validator::new(&rt, 1);
    validator.answers(&rt, &[(7, 1, Ok(()))]);
    for (number, is_right) in [(1, true), (2, true), (1, false), (2, false)] {
        let found = validator.finds_genuine(&rt, number, is_right);
        assert_same(&rt, &(number, found), &(number, is_right));
    }
}
