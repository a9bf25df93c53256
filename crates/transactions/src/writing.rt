//! Transactions and values as bytes.
//!
//! `len_of_` tells the length of a spelling in bytes, or its first fault; it takes no memory. `put_`
//! writes the spelling of what has one at the end of a vector, and fails only by memory; the vector
//! may then hold a part of it.

ghost use Rattle.std.specs.Prelude.{◌≡◌, ◌≤◌, ◌++◌, All, List, ℕ, length, OnOk, IfOk, Ok};
ghost use Rattle.transactions.specs.Grammar.{op_spelling, session_spelling, tx_body_spelling, tags_spelling, tx_spelling, IsOp, AreTags, IsTxBody, IsTx, IsValue, SpellsTx, SpellsValue, value_spelling};
ghost use Rattle.transactions.specs.Checking.{op_len, session_len, tx_body_len, tags_len, tx_len, txs_len, value_len, tx_spelled, value_spelled, value_named};
ghost use Rattle.std.specs.List.{AllByRecursion, flat_map};
ghost use Rattle.transactions.specs.Fields.{Gives, number_bytes};
ghost use Rattle.sha2.specs.Sha256.{sha256};

use crate::fault::Fault;
use crate::limits::{LAST_CLIENT, LAST_NUMBER, MOST_DATA, MOST_TAGS, MOST_TXS, MOST_VALUE_BYTES};
use crate::sequence::Seq;
use crate::tx::{Id, Op, Tx, Value};
use byteorder::{BigEndian, ByteOrder};
use sha2::{Digest, Sha256};
use std::alloc::{AllocError, Global};

#[tactic(auto, unfolding(crate::specs::Checking::op_len))]
fn len_of_op(op: &Op) -> Result<usize, Fault>
    ensures len { result ≡ op_len op.now }
    ensures fits { OnOk result (IsOp op.now) }
    ensures small { IfOk result (λ n. n ≤ 1027) }
{
    match op {
        Op::Bytes(contents) => {
            if contents.len() > MOST_DATA {
                return Err(Fault::TooLong);
            }
            Ok(3 + contents.len())
        }
        Op::Close => Ok(1),
    }
}

/// The length of a session: it isn't told of a client's first.
fn len_of_session(session: u32) -> usize
    ensures len { result ≡ session_len session }
    ensures small { result ≤ 4 }
{
    if session == 0 { 0 } else { 4 }
}

/// The length of a transaction without its tags: 12 to 1,042 bytes.
///
/// Faults: `BadSpelling` (3) for a client above 1,023 and for a number of 0 or above 2^48; `TooLong`
/// (2) for more than 1,024 bytes.
#[tactic(auto, unfolding(crate::specs::Checking::tx_body_len))]
pub fn len_of_tx_body(tx: &Tx) -> Result<usize, Fault>
    ensures len { result ≡ tx_body_len tx.now }
    ensures fits { OnOk result (IsTxBody tx.now) }
    ensures small { IfOk result (λ n. n ≤ 1042) }
{
    if tx.client > LAST_CLIENT {
        return Err(Fault::BadSpelling);
    }
    if tx.number == 0 || tx.number > LAST_NUMBER {
        return Err(Fault::BadSpelling);
    }
    Ok(11 + len_of_session(tx.session) + len_of_op(&tx.op)?)
}

/// The length of tags and their count: 33 to 4,097 bytes.
///
/// Faults: `TooLong` (2) for more than 128, `BadSpelling` (3) for none.
#[tactic(auto, unfolding(crate::specs::Checking::tags_len))]
pub fn len_of_tags(tags: &[[u8; 32]]) -> Result<usize, Fault>
    ensures len { result ≡ tags_len tags.now }
    ensures fits { OnOk result (AreTags tags.now) }
    ensures small { IfOk result (λ n. n ≤ 4097) }
{
    if tags.len() > MOST_TAGS {
        return Err(Fault::TooLong);
    }
    if tags.is_empty() {
        return Err(Fault::BadSpelling);
    }
    Ok(1 + 32 * tags.len())
}

#[tactic(auto, unfolding(crate::specs::Checking::tx_len))]
fn len_of_tx(tx: &Tx) -> Result<usize, Fault>
    ensures len { result ≡ tx_len tx.now }
    ensures small { IfOk result (λ n. n ≤ 5139) }
    ensures fits { OnOk result (IsTx tx.now) }
{
    let body = len_of_tx_body(tx)?;
    let tags = len_of_tags(tx.tags.as_slice())?;
    Ok(body + tags)
}

fn len_of_txs(txs: &[Tx]) -> Result<usize, Fault>
    ensures len { result ≡ txs_len 2 txs.now }
    ensures fits { OnOk result (AllByRecursion IsTx txs.now) }
    ensures small { IfOk result (λ n. n ≤ 500000) }
{
    let mut total = 2usize;
    for tx in txs {
        let len = len_of_tx(tx)?;
        if total + len > MOST_VALUE_BYTES {
            return Err(Fault::TooLong);
        }
        total += len;
    }
    Ok(total)
}

/// The length of a value: 2 to 500,000 bytes.
///
/// Faults: `TooLong` (2) for more than 256 transactions, and, told at the transaction that passes the
/// limit, for more than 500,000 bytes; those of the transactions, in their order.
#[tactic(auto, unfolding(crate::specs::Checking::value_len))]
pub fn len_of_value(value: &Value) -> Result<usize, Fault>
    ensures len { result ≡ value_len value.now }
    ensures fits { OnOk result (IsValue value.now) }
    ensures small { IfOk result (λ n. n ≤ 500000) }
{
    if value.txs.len() > MOST_TXS {
        return Err(Fault::TooLong);
    }
    len_of_txs(value.txs.as_slice())
}

/// Two bytes, the high one first.
#[tactic(auto, unfolding(crate::specs::Fields::number_bytes))]
pub fn put_u16(out: &mut Vec<u8>, number: u16) -> Result<(), AllocError>
    ensures { OnOk result (out.new.items ≡ out.old.items ++ number_bytes 2 number) }
{
    let mut buf = [0u8; 2];
    BigEndian::write_u16(&mut buf, number);
    out.extend_from_slice(&buf)
}

/// Four bytes, the high one first.
#[tactic(auto, unfolding(crate::specs::Fields::number_bytes))]
pub fn put_u32(out: &mut Vec<u8>, number: u32) -> Result<(), AllocError>
    ensures { OnOk result (out.new.items ≡ out.old.items ++ number_bytes 4 number) }
{
    let mut buf = [0u8; 4];
    BigEndian::write_u32(&mut buf, number);
    out.extend_from_slice(&buf)
}

/// Eight bytes, the high one first.
#[tactic(auto, unfolding(crate::specs::Fields::number_bytes))]
pub fn put_u64(out: &mut Vec<u8>, number: u64) -> Result<(), AllocError>
    ensures { OnOk result (out.new.items ≡ out.old.items ++ number_bytes 8 number) }
{
    let mut buf = [0u8; 8];
    BigEndian::write_u64(&mut buf, number);
    out.extend_from_slice(&buf)
}

fn put_op(out: &mut Vec<u8>, op: &Op) -> Result<(), AllocError>
    requires { IsOp op.now }
    ensures { OnOk result (out.new.items ≡ out.old.items ++ op_spelling op.now) }
{
    match op {
        Op::Bytes(contents) => {
            out.push(0)?;
            put_u16(out, contents.len() as u16)?;
            out.extend_from_slice(contents.as_slice())
        }
        Op::Close => Ok(out.push(1)?),
    }
}

/// A session, but for a client's first.
fn put_session(out: &mut Vec<u8>, session: u32) -> Result<(), AllocError>
    ensures { OnOk result (out.new.items ≡ out.old.items ++ session_spelling session) }
{
    if session == 0 {
        return Ok(());
    }
    put_u32(out, session)
}

/// A transaction without its tags, its kind included.
#[tactic(auto, unfolding(crate::specs::Grammar::tx_fields_spelling))]
pub fn put_tx_body(out: &mut Vec<u8>, tx: &Tx) -> Result<(), AllocError>
    requires { IsTxBody tx.now }
    ensures { OnOk result (out.new.items ≡ out.old.items ++ tx_body_spelling tx.now) }
{
    out.push(if tx.session == 0 { 1 } else { 2 })?;
    put_u16(out, tx.client)?;
    put_session(out, tx.session)?;
    put_u64(out, tx.number)?;
    put_op(out, &tx.op)
}

/// Tags, behind their count.
#[tactic(auto, unfolding(crate::specs::Grammar::tags_spelling))]
pub fn put_tags(out: &mut Vec<u8>, tags: &Seq<[u8; 32]>) -> Result<(), AllocError>
    requires { length tags.now ≤ 128 }
    ensures { OnOk result (out.new.items ≡ out.old.items ++ tags_spelling tags.now) }
{
    out.push(tags.len() as u8)?;
    for tag in tags.as_slice() {
        out.extend_from_slice(tag)?;
    }
    Ok(())
}

#[tactic(auto, unfolding(crate::specs::Grammar::tx_spelling))]
fn put_tx(out: &mut Vec<u8>, tx: &Tx) -> Result<(), AllocError>
    requires { IsTx tx.now }
    ensures { OnOk result (out.new.items ≡ out.old.items ++ tx_spelling tx.now) }
{
    put_tx_body(out, tx)?;
    put_tags(out, &tx.tags)
}

fn put_txs(out: &mut Vec<u8>, txs: &[Tx]) -> Result<(), AllocError>
    requires { All IsTx txs.now }
    ensures { OnOk result (out.new.items ≡ out.old.items ++ flat_map tx_spelling txs.now) }
{
    for tx in txs {
        put_tx(out, tx)?;
    }
    Ok(())
}

/// A value.
#[tactic(auto, using(crate::proofs::Lengths::all_fit), unfolding(crate::specs::Grammar::value_spelling))]
pub fn put_value(out: &mut Vec<u8>, value: &Value) -> Result<(), AllocError>
    requires { IsValue value.now }
    ensures { OnOk result (out.new.items ≡ out.old.items ++ value_spelling value.now) }
{
    put_u16(out, value.txs.len() as u16)?;
    put_txs(out, value.txs.as_slice())
}

fn bytes_of_tx(alloc: Global, tx: &Tx) -> Result<Vec<u8>, Fault>
    ensures ok { OnOk result (IsTx tx.now) }
    ensures exact { Gives (λ v. v.items) result (tx_spelled tx.now) }
{
    let len = len_of_tx(tx)?;
    let mut out = Vec::with_capacity(alloc, len)?;
    put_tx(&mut out, tx)?;
    Ok(out)
}

fn bytes_of_value(alloc: Global, value: &Value) -> Result<Vec<u8>, Fault>
    ensures ok { OnOk result (IsValue value.now) }
    ensures exact { Gives (λ v. v.items) result (value_spelled value.now) }
{
    let len = len_of_value(value)?;
    let mut out = Vec::with_capacity(alloc, len)?;
    put_value(&mut out, value)?;
    Ok(out)
}

/// The one spelling of a transaction, or the first fault in the order of its fields.
///
/// Faults: `TooLong` (2) for more than 1,024 bytes or 128 tags; `BadSpelling` (3) for a client above
/// 1,023, a number of 0 or above 2^48, and no tags; `OutOfMemory` (4). Memory is taken once, of the
/// spelling's length.
pub fn spell_tx(alloc: Global, tx: &Tx) -> Result<Vec<u8>, Fault>
    // What is written spells the transaction.
    ensures ok { IfOk result (λ bytes. SpellsTx bytes.items tx.now) }
    // What has a spelling is written, unless memory runs out.
    ensures only { (bytes : List ℕ) → SpellsTx bytes tx.now → Gives (λ v. v.items) result (Ok bytes) }
    // Which fault it is.
    ensures exact { Gives (λ v. v.items) result (tx_spelled tx.now) }
{
    bytes_of_tx(alloc, tx)
}

/// The one spelling of a value, or the first fault in the order of its fields.
///
/// Faults: `TooLong` (2) for more than 256 transactions or 500,000 bytes, and those of its
/// transactions; `OutOfMemory` (4). Memory is taken once, of the spelling's length.
pub fn spell_value(alloc: Global, value: &Value) -> Result<Vec<u8>, Fault>
    ensures ok { IfOk result (λ bytes. SpellsValue bytes.items value.now) }
    ensures only { (bytes : List ℕ) → SpellsValue bytes value.now → Gives (λ v. v.items) result (Ok bytes) }
    ensures exact { Gives (λ v. v.items) result (value_spelled value.now) }
{
    bytes_of_value(alloc, value)
}

/// The name of a value: the SHA-256 digest (FIPS 180-4) of its spelling.
///
/// A value without a spelling has no name: the faults are those of `spell_value`.
#[tactic(auto, unfolding(crate::specs::Checking::value_named))]
pub fn value_id(alloc: Global, value: &Value) -> Result<Id, Fault>
    ensures ok { IfOk result (λ id. id ≡ sha256 (value_spelling value.now)) }
    ensures exact { Gives (λ id. id) result (value_named value.now) }
{
    let bytes = spell_value(alloc, value)?;
    Ok(Sha256::digest(bytes.as_slice()))
}
