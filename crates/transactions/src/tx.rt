//! Transactions and values.

ghost use Rattle.std.specs.Prelude.{◌≡◌, IfOk};
ghost use Rattle.transactions.specs.Equality.{value_eq};

use crate::data::Data;
use crate::sequence::{Duplicate, Seq, Shared};
use std::alloc::{AllocError, Global};

/// The name of a value: the SHA-256 digest of its spelling (FIPS 180-4).
pub type Id = [u8; 32];

/// What a client asks to have delivered in order.
#[derive(Debug, PartialEq, Eq, Drop)]
pub enum Op {
    /// At most 1,024 bytes, whose meaning is the client's.
    Bytes(Data),
    /// The last transaction of a client's session: only a later session follows it.
    Close,
}

/// A transaction of a client, with a tag for each validator.
#[derive(Debug, PartialEq, Eq, Drop)]
pub struct Tx {
    /// The client's number, at most 1,023.
    pub client: u16,
    /// The client's session: 0, and one more after each close.
    pub session: u32,
    /// The place among the session's transactions, from 1 to 2^48.
    pub number: u64,
    pub op: Op,
    /// Tag p is for validator p: 1 to 128 tags, or none where they stand apart.
    pub tags: Seq<[u8; 32]>,
}

/// What a height decides: at most 256 transactions, spelled in at most 500,000 bytes.
#[derive(Debug, PartialEq, Eq, Drop)]
pub struct Value {
    /// In the order of delivery.
    pub txs: Shared<Tx>,
}

/// What is delivered of a transaction, which leaves its tags behind.
#[derive(Debug, PartialEq, Eq, Drop)]
pub struct Item {
    /// The client's number, at most 1,023.
    pub client: u16,
    /// The client's session: 0, and one more after each close.
    pub session: u32,
    /// The place among the session's transactions, from 1 to 2^48.
    pub number: u64,
    pub op: Op,
}

impl Duplicate for Op {
    fn copy(&self, alloc: Global) -> Result<Op, AllocError> {
        Ok(match self {
            Op::Bytes(contents) => Op::Bytes(contents.copy(alloc)?),
            Op::Close => Op::Close,
        })
    }
}

impl Duplicate for Tx {
    fn copy(&self, alloc: Global) -> Result<Tx, AllocError> {
        Ok(Tx {
            client: self.client,
            session: self.session,
            number: self.number,
            op: self.op.copy(alloc)?,
            tags: self.tags.copy(alloc)?,
        })
    }
}

impl Duplicate for Item {
    fn copy(&self, alloc: Global) -> Result<Item, AllocError> {
        Ok(Item {
            client: self.client,
            session: self.session,
            number: self.number,
            op: self.op.copy(alloc)?,
        })
    }
}

impl Duplicate for Value {
    fn copy(&self, alloc: Global) -> Result<Value, AllocError> {
        Ok(Value {
            txs: self.txs.copy(alloc)?,
        })
    }
}

/// Whether two values have the same transactions in the same order, the tags included.
pub fn same_value(a: &Value, b: &Value) -> bool
    ensures { result ≡ value_eq a.now b.now }
{
    a == b
}
