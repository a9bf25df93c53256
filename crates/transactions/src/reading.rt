//! Transactions and values from bytes.
//!
//! A reader whose name ends in `_of` or `_front` reads the front of the bytes, and gives the bytes
//! that are left too. The first field that isn't right tells the fault.

ghost use Rattle.std.specs.Prelude.{◌≡◌, true, IfOk, Ok};
ghost use Rattle.std.specs.Result.{result_map_both};
ghost use Rattle.transactions.specs.Fields.{Gives, Tells, number_at, bytes_at, limited, repeat};
ghost use Rattle.transactions.specs.declared.tx.Tx.{Tx};
ghost use Rattle.transactions.specs.declared.tx.Value.{Value};
ghost use Rattle.transactions.specs.Grammar.{SpellsTx, SpellsValue};
ghost use Rattle.transactions.specs.Reading.{data_at, client_at, session_at, tx_number_at, tx_kind_at, op_at, tx_body_at, tx_fields_at, tag_count_at, tags_at, tx_at, is_within, value_at, tx_of, value_of};

use crate::data::Data;
use crate::fault::Fault;
use crate::fields::{array_at, slice_at, u8_at, u16_at, u32_at, u64_at};
use crate::limits::{LAST_CLIENT, LAST_NUMBER, MOST_DATA, MOST_TAGS, MOST_TXS, MOST_VALUE_BYTES};
use crate::sequence::{Seq, Shared};
use crate::tx::{Op, Tx, Value};
use std::alloc::Global;

#[tactic(auto, unfolding(crate::specs::Reading::data_at, crate::specs::Fields::limited))]
fn data_of(alloc: Global, bytes: &[u8]) -> Result<(Data, &[u8]), Fault>
    ensures exact { Gives (λ x. (x.0, x.1.now)) result (data_at bytes.now) }
    ensures told { Tells result (data_at bytes.now) }
{
    let (len, rest) = u16_at(bytes)?;
    if usize::from(len) > MOST_DATA {
        return Err(Fault::TooLong);
    }
    let (contents, rest) = slice_at(rest, len as usize)?;
    Ok((Data::from_slice(alloc, contents)?, rest))
}

#[tactic(auto, unfolding(crate::specs::Reading::op_at, crate::specs::Reading::op_after))]
fn op_of(alloc: Global, bytes: &[u8]) -> Result<(Op, &[u8]), Fault>
    ensures exact { Gives (λ x. (x.0, x.1.now)) result (op_at bytes.now) }
    ensures told { Tells result (op_at bytes.now) }
{
    let (kind, rest) = u8_at(bytes)?;
    match kind {
        0 => {
            let (contents, rest) = data_of(alloc, rest)?;
            Ok((Op::Bytes(contents), rest))
        }
        1 => Ok((Op::Close, rest)),
        _ => Err(Fault::BadSpelling),
    }
}

#[tactic(auto, unfolding(crate::specs::Fields::ranged))]
fn client_of(bytes: &[u8]) -> Result<(u16, &[u8]), Fault>
    ensures { result_map_both (λ x. (x.0, x.1.now)) (λ fault. fault) result ≡ client_at bytes.now }
{
    let (client, rest) = u16_at(bytes)?;
    if client > LAST_CLIENT {
        return Err(Fault::BadSpelling);
    }
    Ok((client, rest))
}

#[tactic(auto, unfolding(crate::specs::Fields::ranged))]
fn number_of(bytes: &[u8]) -> Result<(u64, &[u8]), Fault>
    ensures { result_map_both (λ x. (x.0, x.1.now)) (λ fault. fault) result ≡ tx_number_at bytes.now }
{
    let (number, rest) = u64_at(bytes)?;
    if number == 0 || number > LAST_NUMBER {
        return Err(Fault::BadSpelling);
    }
    Ok((number, rest))
}

/// The session of a transaction: 0, or that of a later session, which is told.
#[tactic(auto, unfolding(crate::specs::Fields::ranged))]
fn session_of(later: bool, bytes: &[u8]) -> Result<(u32, &[u8]), Fault>
    ensures { result_map_both (λ x. (x.0, x.1.now)) (λ fault. fault) result ≡ session_at later bytes.now }
{
    if !later {
        return Ok((0, bytes));
    }
    let (session, rest) = u32_at(bytes)?;
    if session == 0 {
        return Err(Fault::BadSpelling);
    }
    Ok((session, rest))
}

/// A transaction without its tags, behind the byte of its kind, by which it is of a session after its client's first or not.
///
/// Faults: `Truncated` (1); `TooLong` (2) for a length above 1,024; `BadSpelling` (3) for a client
/// above 1,023, a later session of 0, a number of 0 or above 2^48, and an operation other than 00 and 01; `OutOfMemory`
/// (4).
#[tactic(auto, unfolding(crate::specs::Reading::tx_fields_at))]
pub fn tx_fields_of(alloc: Global, later: bool, bytes: &[u8]) -> Result<(Tx, &[u8]), Fault>
    // Which fault it is.
    ensures exact { Gives (λ x. (x.0, x.1.now)) result (tx_fields_at later bytes.now) }
    // No fault is hidden by want of memory, which is taken last.
    ensures told { Tells result (tx_fields_at later bytes.now) }
{
    let (client, rest) = client_of(bytes)?;
    let (session, rest) = session_of(later, rest)?;
    let (number, rest) = number_of(rest)?;
    let (op, rest) = op_of(alloc, rest)?;
    let tags = Seq::new(alloc);
    Ok((
        Tx {
            client,
            session,
            number,
            op,
            tags,
        },
        rest,
    ))
}

/// Whether a transaction is of a session after its client's first: its kind is 01 or 02.
#[tactic(auto, unfolding(crate::specs::Reading::tx_kind_at))]
fn kind_of(bytes: &[u8]) -> Result<(bool, &[u8]), Fault>
    ensures { result_map_both (λ x. (x.0, x.1.now)) (λ fault. fault) result ≡ tx_kind_at bytes.now }
{
    let (kind, rest) = u8_at(bytes)?;
    match kind {
        1 => Ok((false, rest)),
        2 => Ok((true, rest)),
        _ => Err(Fault::BadSpelling),
    }
}

/// A transaction without its tags.
#[tactic(auto, unfolding(crate::specs::Reading::tx_body_at))]
fn tx_body_of(alloc: Global, bytes: &[u8]) -> Result<(Tx, &[u8]), Fault>
    ensures exact { Gives (λ x. (x.0, x.1.now)) result (tx_body_at bytes.now) }
    ensures told { Tells result (tx_body_at bytes.now) }
{
    let (later, rest) = kind_of(bytes)?;
    tx_fields_of(alloc, later, rest)
}

#[tactic(auto, unfolding(crate::specs::Reading::tag_count_at, crate::specs::Fields::limited, crate::specs::Fields::ranged))]
fn tag_count_of(bytes: &[u8]) -> Result<(u8, &[u8]), Fault>
    ensures { result_map_both (λ x. (x.0, x.1.now)) (λ fault. fault) result ≡ tag_count_at bytes.now }
{
    let (count, rest) = u8_at(bytes)?;
    if usize::from(count) > MOST_TAGS {
        return Err(Fault::TooLong);
    }
    if count == 0 {
        return Err(Fault::BadSpelling);
    }
    Ok((count, rest))
}

fn tag_list_of(alloc: Global, count: u8, bytes: &[u8]) -> Result<(Vec<[u8; 32]>, &[u8]), Fault>
    ensures exact { Gives (λ x. (x.0.items, x.1.now)) result (repeat (bytes_at 32) (λ _. true) count bytes.now) }
    ensures told { Tells result (repeat (bytes_at 32) (λ _. true) count bytes.now) }
{
    if bytes.len() < 32 * usize::from(count) {
        return Err(Fault::Truncated);
    }
    let mut tags = Vec::with_capacity(alloc, usize::from(count))?;
    let mut rest = bytes;
    for _ in 0..count {
        let (tag, after) = array_at(rest)?;
        tags.push(tag)?;
        rest = after;
    }
    Ok((tags, rest))
}

/// The tags behind a body.
///
/// Faults: `Truncated` (1); `TooLong` (2) for a count above 128; `BadSpelling` (3) for a count of 0;
/// `OutOfMemory` (4).
#[tactic(auto, unfolding(crate::specs::Reading::tags_at))]
pub fn tags_of(alloc: Global, bytes: &[u8]) -> Result<(Seq<[u8; 32]>, &[u8]), Fault>
    // Which fault it is.
    ensures exact { Gives (λ x. (x.0, x.1.now)) result (tags_at bytes.now) }
    // No fault is hidden by want of memory: it is taken once, when the tags are all there.
    ensures told { Tells result (tags_at bytes.now) }
{
    let (count, rest) = tag_count_of(bytes)?;
    let (tags, rest) = tag_list_of(alloc, count, rest)?;
    Ok((Seq::from_vec(tags), rest))
}

/// A transaction with its tags.
#[tactic(auto, unfolding(crate::specs::Reading::tx_at))]
fn tx_front(alloc: Global, bytes: &[u8]) -> Result<(Tx, &[u8]), Fault>
    ensures exact { Gives (λ x. (x.0, x.1.now)) result (tx_at bytes.now) }
    ensures told { Tells result (tx_body_at bytes.now) }
{
    let (body, rest) = tx_body_of(alloc, bytes)?;
    let (tags, rest) = tags_of(alloc, rest)?;
    let Tx {
        client,
        session,
        number,
        op,
        tags: _,
    } = body;
    Ok((
        Tx {
            client,
            session,
            number,
            op,
            tags,
        },
        rest,
    ))
}

fn txs_of(alloc: Global, count: u16, len: usize, bytes: &[u8]) -> Result<(Vec<Tx>, &[u8]), Fault>
    ensures { Gives (λ x. (x.0.items, x.1.now)) result (repeat tx_at (is_within len) count bytes.now) }
{
    let mut txs = Vec::new(alloc);
    let mut rest = bytes;
    for _ in 0..count {
        let (tx, after) = tx_front(alloc, rest)?;
        if len.saturating_sub(after.len()) > MOST_VALUE_BYTES {
            return Err(Fault::TooLong);
        }
        txs.push(tx)?;
        rest = after;
    }
    Ok((txs, rest))
}

/// A value.
///
/// Faults: those of its transactions, in their order; `BadSpelling` (3) for a transaction whose kind
/// is neither 01 nor 02; `TooLong` (2) for more than 256 transactions, and, told after the transaction that
/// passes the limit, for more than 500,000 bytes.
#[tactic(auto, unfolding(crate::specs::Reading::value_at, crate::specs::Fields::limited))]
pub fn value_front(alloc: Global, bytes: &[u8]) -> Result<(Value, &[u8]), Fault>
    // Which fault it is.
    ensures exact { Gives (λ x. (x.0, x.1.now)) result (value_at bytes.now) }
    // No fault of the count is hidden by want of memory.
    ensures told { Tells result (limited 256 (number_at 2 bytes.now)) }
{
    let (count, rest) = u16_at(bytes)?;
    if MOST_TXS < usize::from(count) {
        return Err(Fault::TooLong);
    }
    let (txs, rest) = txs_of(alloc, count, bytes.len(), rest)?;
    Ok((
        Value {
            txs: Shared::from_vec(alloc, txs)?,
        },
        rest,
    ))
}

#[tactic(auto, unfolding(crate::specs::Fields::whole))]
fn whole_tx(alloc: Global, bytes: &[u8]) -> Result<Tx, Fault>
    ensures exact { Gives (λ x. x) result (tx_of bytes.now) }
    ensures told { Tells result (tx_body_at bytes.now) }
{
    let (tx, rest) = tx_front(alloc, bytes)?;
    if !rest.is_empty() {
        return Err(Fault::BadSpelling);
    }
    Ok(tx)
}

#[tactic(auto, unfolding(crate::specs::Fields::whole))]
fn whole_value(alloc: Global, bytes: &[u8]) -> Result<Value, Fault>
    ensures exact { Gives (λ x. x) result (value_of bytes.now) }
    ensures told { Tells result (limited 256 (number_at 2 bytes.now)) }
{
    let (value, rest) = value_front(alloc, bytes)?;
    if !rest.is_empty() {
        return Err(Fault::BadSpelling);
    }
    Ok(value)
}

/// The transaction that the bytes spell, all of the bytes.
///
/// Faults: `Truncated` (1), `TooLong` (2), `BadSpelling` (3) and `OutOfMemory` (4), each as its field
/// has it; bytes after the end are `BadSpelling` too.
pub fn read_tx(alloc: Global, bytes: &[u8]) -> Result<Tx, Fault>
    // What is read is spelled so.
    ensures found { IfOk result (λ tx. SpellsTx bytes.now tx) }
    // What is spelled so is read, unless memory runs out.
    ensures only { (tx : Tx) → SpellsTx bytes.now tx → Gives (λ x. x) result (Ok tx) }
    // Which fault it is.
    ensures exact { Gives (λ x. x) result (tx_of bytes.now) }
    // No fault before the tags is hidden by want of memory.
    ensures told { Tells result (tx_body_at bytes.now) }
{
    whole_tx(alloc, bytes)
}

/// The value that the bytes spell, all of the bytes.
///
/// Faults: `Truncated` (1), `TooLong` (2), `BadSpelling` (3) and `OutOfMemory` (4), each as its field
/// has it; bytes after the end are `BadSpelling` too.
pub fn read_value(alloc: Global, bytes: &[u8]) -> Result<Value, Fault>
    ensures found { IfOk result (λ value. SpellsValue bytes.now value) }
    ensures only { (value : Value) → SpellsValue bytes.now value → Gives (λ x. x) result (Ok value) }
    ensures exact { Gives (λ x. x) result (value_of bytes.now) }
    // No fault of the count is hidden by want of memory.
    ensures told { Tells result (limited 256 (number_at 2 bytes.now)) }
{
    whole_value(alloc, bytes)
}
