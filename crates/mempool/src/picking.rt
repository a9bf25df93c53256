//! As many transactions as a value may have.

ghost use Rattle.std.specs.Prelude.{◌≡◌, IfOk, length, map, min};
ghost use Rattle.transactions.specs.Grammar.{session_spelling, tags_spelling, tx_spelling};
ghost use Rattle.mempool.specs.Turns.{fitting};

use crate::turns::Turns;
use protocol::{MOST_TXS, MOST_VALUE_BYTES};
use std::alloc::{AllocError, Global};
use transactions::{Duplicate, Op, Tx};

/// The length of what stands in front of a value's transactions: their count.
const COUNT_LEN: usize = 2;

/// The longest beginning of these transactions that a value may have. At most one transaction more
/// is looked at.
pub fn picked<'a>(alloc: Global, turns: Turns<'a>) -> Result<Vec<&'a Tx>, AllocError>
    ensures { IfOk result (λ txs. map (λ tx. tx.now) txs.items ≡ fitting turns.entry) }
{
    let mut txs = Vec::with_capacity(alloc, MOST_TXS)?;
    let mut len = COUNT_LEN;
    for tx in turns {
        len = len.saturating_add(len_of(tx));
        if txs.len() == MOST_TXS || len > MOST_VALUE_BYTES {
            break;
        }
        txs.push(tx)?;
    }
    Ok(txs)
}

/// Equal copies of the transactions, in one vector of their number.
pub fn copy_each(alloc: Global, txs: &[&Tx]) -> Result<Vec<Tx>, AllocError>
    ensures { IfOk result (λ copies. copies.items ≡ map (λ tx. tx.now) txs.now) }
{
    let mut copies = Vec::with_capacity(alloc, txs.len())?;
    for tx in txs {
        copies.push(tx.copy(alloc)?)?;
    }
    Ok(copies)
}

/// The length of a transaction's spelling in bytes, or `usize::MAX` where it is longer.
fn len_of(tx: &Tx) -> usize
    ensures { result ≡ min (length (tx_spelling tx.now)) usize.MAX }
{
    let op = match &tx.op {
        Op::Bytes(contents) => contents.len().saturating_add(3),
        Op::Close => 1,
    };
    len_of_tags(tx.tags.as_slice())
        .saturating_add(op)
        .saturating_add(len_of_session(tx.session))
        .saturating_add(11)
}

fn len_of_session(session: u32) -> usize
    ensures { result ≡ length (session_spelling session) }
{
    if session == 0 { 0 } else { 4 }
}

fn len_of_tags(tags: &[[u8; 32]]) -> usize
    ensures { result ≡ min (length (tags_spelling tags.now)) usize.MAX }
{
    tags.len().saturating_mul(32).saturating_add(1)
}
