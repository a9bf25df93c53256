//! A journal of decisions, as it is written.

use crate::fault::BenchFault;
use crate::node::ME;
use messages::{Bundle, Precommit};
use protocol::Record;
use std::alloc::Global;
use std::fs::File;
use std::io::Write;
use std::rt::Files;
use transactions::{Data, Op, Seq, Shared, Tx, Value, value_id};
use vote_journal::spell_record;

/// How many transactions a decision has.
const TXS: u64 = 256;

/// What a journal begins with: its name, and the mark of the form with sessions, so that opening it adds nothing.
const FRONT: &[u8] = b"TMJ1\0\0\0\x05\x04\0\0\0\x02";

/// Writes the journal of so many decisions, and tells its bytes.
pub(crate) fn filled<R: Files<File = File> + AllocGlobal>(
    rt: &R,
    path: &str,
    count: u32,
) -> Result<String, BenchFault> {
    let mut file = File::create(rt, path)?;
    told(rt.alloc(), &mut file, count)
}

/// Writes the journal, and tells its bytes.
fn told(alloc: Global, file: &mut File, count: u32) -> Result<String, BenchFault> {
    let written = fill(alloc, file, count)?;
    Ok(format!(in alloc; "{count} decisions, {written} bytes\n")?)
}

/// Writes the decisions of so many heights, and syncs.
fn fill(alloc: Global, file: &mut File, count: u32) -> Result<usize, BenchFault> {
    file.write_all(FRONT)?;
    let mut written = FRONT.len();
    for height in 0..count {
        written = written.saturating_add(add(alloc, file, u64::from(height))?);
    }
    file.sync_all()?;
    Ok(written)
}

/// Writes the decision of a height: how many bytes it takes.
fn add(alloc: Global, file: &mut File, height: u64) -> Result<usize, BenchFault> {
    let bytes = spelled(alloc, height)?;
    file.write_all(&bytes)?;
    Ok(bytes.len())
}

/// The decision of a height, as it is appended.
fn spelled(alloc: Global, height: u64) -> Result<Vec<u8>, BenchFault> {
    let decided = decision(alloc, height)?;
    Ok(spell_record(alloc, ME, &decided)?)
}

/// The decision of a height: the next 256 transactions of client 7.
fn decision(alloc: Global, height: u64) -> Result<Record, BenchFault> {
    let value = value(alloc, height.saturating_mul(TXS))?;
    let id = value_id(alloc, &value)?;
    Ok(Record::Decided(Bundle {
        height,
        sender: ME,
        round: 0,
        id,
        value,
        precommits: certificate(alloc)?,
    }))
}

/// The 256 transactions that come after so many.
fn value(alloc: Global, before: u64) -> Result<Value, BenchFault> {
    let mut txs = Vec::new(alloc);
    for place in 0..TXS {
        let number = before.saturating_add(place).saturating_add(1);
        txs.push(tx(alloc, number)?)?;
    }
    Ok(Value {
        txs: Shared::from_vec(alloc, txs)?,
    })
}

/// A transaction of 1,024 bytes.
fn tx(alloc: Global, number: u64) -> Result<Tx, BenchFault> {
    Ok(Tx {
        client: 7,
        session: 0,
        number,
        op: Op::Bytes(Data::from_vec(vec![in alloc; 7u8; 1024]?)),
        tags: nines(alloc)?,
    })
}

/// Precommits of validators 0, 1 and 2.
fn certificate(alloc: Global) -> Result<Seq<Precommit>, BenchFault> {
    let mut precommits = Seq::new(alloc);
    for sender in 0..3u16 {
        precommits.push(Precommit {
            sender,
            tags: nines(alloc)?,
        })?;
    }
    Ok(precommits)
}

/// A tag for each of four validators, which nobody looks at.
fn nines(alloc: Global) -> Result<Seq<[u8; 32]>, BenchFault> {
    Ok(Seq::from_vec(vec![in alloc; [9u8; 32]; 4]?))
}
