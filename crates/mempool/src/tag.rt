//! The tag of a transaction.

ghost use Rattle.std.specs.Prelude.{◌≡◌, ◌+◌, ◌≤◌, ◌++◌, ◌∷◌, ℕ, List, Some, false, length, take};
ghost use Rattle.authenticators.specs.Ring.{incoming};
ghost use Rattle.arrayvec.specs.ArrayVec.{array_vec_len};
ghost use Rattle.transactions.specs.Fields.{number_bytes};
ghost use Rattle.transactions.specs.Grammar.{op_spelling, session_spelling, tx_body_spelling};
ghost use Rattle.protocol.specs.Tags.{Setting, tx_is_right};
ghost use Rattle.protocol.specs.Rings.{IsRingOf};
ghost use Rattle.protocol.specs.Queues.{Queue};
ghost use Rattle.protocol.specs.Values.{Item};
ghost use Rattle.protocol.specs.Refusals.{first_cause, is_long, tx_causes};
ghost use Rattle.mempool.specs.Answers.{IsVerdict};

use arrayvec::ArrayVec;
use authenticators::{Key, KeyRing, Party, is_right};
use byteorder::{BigEndian, ByteOrder};
use protocol::{LONGEST_TX_BODY, MOST_DATA, SubmitFault};
use transactions::{Op, Tx};

/// The causes against a transaction that stand whatever else its client sent: its length, its
/// client, its tags. They take no memory.
pub fn check_tag(tx: &Tx, ring: &KeyRing) -> Result<(), SubmitFault>
    ensures { (c : Setting) (p : ℕ) → IsRingOf c p ring.now → (d : List Item) (queues : List Queue)
        → IsVerdict (first_cause (take 3 (tx_causes c p d queues tx.now))) result }
{
    if is_long(&tx.op) {
        return Err(SubmitFault::TooLong);
    }
    let Some(key) = ring.incoming(Party::Client(tx.client)) else {
        return Err(SubmitFault::UnknownClient);
    };
    if !is_tagged(tx, ring, key) {
        return Err(SubmitFault::BadTag);
    }
    Ok(())
}

/// As `check_tag`, where the caller says whether the client is known and the tag right.
pub fn check_found(tx: &Tx, is_right: bool, ring: &KeyRing) -> Result<(), SubmitFault>
    requires { (c : Setting) (p : ℕ) → IsRingOf c p ring.now → is_right ≡ tx_is_right c p tx.now }
    ensures { (c : Setting) (p : ℕ) → IsRingOf c p ring.now → (d : List Item) (queues : List Queue)
        → IsVerdict (first_cause (take 3 (tx_causes c p d queues tx.now))) result }
{
    let too_long = is_long(&tx.op);
    if too_long {
        return Err(SubmitFault::TooLong);
    }
    if is_right {
        return Ok(());
    }
    match ring.incoming(Party::Client(tx.client)) {
        Some(_) => Err(SubmitFault::BadTag),
        None => Err(SubmitFault::UnknownClient),
    }
}

/// Whether the client of a transaction, whose length is within its limit, is known and the ring's own tag is right.
pub fn has_right_tag(tx: &Tx, ring: &KeyRing) -> bool
    requires short { is_long tx.now.op ≡ false }
    ensures { (c : Setting) (p : ℕ) → IsRingOf c p ring.now → result ≡ tx_is_right c p tx.now }
{
    match ring.incoming(Party::Client(tx.client)) {
        Some(key) => is_tagged(tx, ring, key),
        None => false,
    }
}

/// Whether there is one tag for each validator, and the ring's own one is right under this key of
/// the client. The ring has to be a validator's.
fn is_tagged(tx: &Tx, ring: &KeyRing, key: &Key) -> bool
    requires short { is_long tx.now.op ≡ false }
    requires known { incoming ring.now (Party.Client tx.now.client) ≡ Some key.now }
    ensures { (c : Setting) (p : ℕ) → IsRingOf c p ring.now → result ≡ tx_is_right c p tx.now }
{
    match ring.me() {
        Party::Validator(me) => {
            is_right(
                ring.count(),
                key,
                me,
                body_of(tx).as_slice(),
                tx.tags.as_slice(),
            )
        }
        Party::Client(_) => false,
    }
}

fn is_long(op: &Op) -> bool
    ensures { result ≡ is_long op.now }
{
    match op {
        Op::Bytes(contents) => contents.len() > MOST_DATA,
        Op::Close => false,
    }
}

/// The bytes that a transaction's tags are made over, also where a field is out of range, so that no
/// such transaction could be spelled.
#[tactic(auto, unfolding(transactions::specs::Grammar::tx_fields_spelling))]
fn body_of(tx: &Tx) -> ArrayVec<u8, LONGEST_TX_BODY>
    requires { is_long tx.now.op ≡ false }
    ensures { result.items ≡ tx_body_spelling tx.now }
{
    let mut body = ArrayVec::new();
    body.push(if tx.session == 0 { 1 } else { 2 });
    put_u16(&mut body, tx.client);
    put_session(&mut body, tx.session);
    put_u64(&mut body, tx.number);
    put_op(&mut body, &tx.op);
    body
}

fn put_op(body: &mut ArrayVec<u8, LONGEST_TX_BODY>, op: &Op)
    requires short { is_long op.now ≡ false }
    requires room { array_vec_len body.old ≤ 15 }
    ensures { body.new.items ≡ body.old.items ++ op_spelling op.now }
{
    match op {
        Op::Bytes(contents) => {
            body.push(0);
            put_u16(body, contents.len() as u16);
            put(body, contents.as_slice());
        }
        Op::Close => body.push(1),
    }
}

fn put_session(body: &mut ArrayVec<u8, LONGEST_TX_BODY>, session: u32)
    requires { array_vec_len body.old ≡ 3 }
    ensures items { body.new.items ≡ body.old.items ++ session_spelling session }
    ensures len { array_vec_len body.new ≤ 7 }
{
    if session > 0 {
        put_u32(body, session);
    }
}

#[tactic(auto, unfolding(transactions::specs::Fields::number_bytes))]
fn put_u32(body: &mut ArrayVec<u8, LONGEST_TX_BODY>, number: u32)
    requires { array_vec_len body.old + 4 ≤ LONGEST_TX_BODY }
    ensures items { body.new.items ≡ body.old.items ++ number_bytes 4 number }
    ensures len { array_vec_len body.new ≡ array_vec_len body.old + 4 }
{
    let mut buf = [0u8; 4];
    BigEndian::write_u32(&mut buf, number);
    put(body, &buf);
}

#[tactic(auto, unfolding(transactions::specs::Fields::number_bytes))]
fn put_u16(body: &mut ArrayVec<u8, LONGEST_TX_BODY>, number: u16)
    requires { array_vec_len body.old + 2 ≤ LONGEST_TX_BODY }
    ensures items { body.new.items ≡ body.old.items ++ number_bytes 2 number }
    ensures len { array_vec_len body.new ≡ array_vec_len body.old + 2 }
{
    let mut buf = [0u8; 2];
    BigEndian::write_u16(&mut buf, number);
    put(body, &buf);
}

#[tactic(auto, unfolding(transactions::specs::Fields::number_bytes))]
fn put_u64(body: &mut ArrayVec<u8, LONGEST_TX_BODY>, number: u64)
    requires { array_vec_len body.old + 8 ≤ LONGEST_TX_BODY }
    ensures items { body.new.items ≡ body.old.items ++ number_bytes 8 number }
    ensures len { array_vec_len body.new ≡ array_vec_len body.old + 8 }
{
    let mut buf = [0u8; 8];
    BigEndian::write_u64(&mut buf, number);
    put(body, &buf);
}

fn put(body: &mut ArrayVec<u8, LONGEST_TX_BODY>, bytes: &[u8])
    requires { array_vec_len body.old + length bytes.now ≤ LONGEST_TX_BODY }
    ensures items { body.new.items ≡ body.old.items ++ bytes.now }
    ensures len { array_vec_len body.new ≡ array_vec_len body.old + length bytes.now }
{
    body.try_extend_from_slice(bytes).unwrap();
}
