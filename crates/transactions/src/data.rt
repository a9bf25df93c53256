//! What a transaction carries.

ghost use Rattle.std.specs.Prelude.{◌≡◌, ◌<◌, [], length, take, IfOk, IfErr};
ghost use Rattle.std.proofs.Common.{rules};
ghost use Rattle.std.specs.Cmp.Lexicographic.{pointwise, lists_per, lists_equiv};
ghost use Rattle.std.specs.Cmp.Rules.{comparing};

use crate::sequence::Duplicate;
use std::alloc::{AllocError, Global};
use std::marker::Model;

/// The most bytes that stand in the transaction itself.
const MOST_SHORT: usize = 64;

/// Bytes, the place of which no contract sees: few stand in the value itself, so that no memory is taken for them.
#[derive(Debug, Drop)]
pub struct Data {
    held: Held,
}

/// Where bytes stand.
#[derive(Debug, Drop)]
enum Held {
    /// So many of these, or all where there are fewer.
    Short(usize, [u8; MOST_SHORT]),
    Long(Vec<u8>),
}

/// The first so many of some bytes, or all where there are fewer.
fn beginning_of(bytes: &[u8], len: usize) -> &[u8]
    ensures { result.now ≡ take len bytes.now }
{
    if len < bytes.len() {
        &bytes[..len]
    } else {
        bytes
    }
}

impl Model for Data {
    ghost use Rattle.std.specs.Prelude.{List, ℕ};
    ghost use Rattle.transactions.specs.Held.{bytes_in};

    ghost Value = { List ℕ };

    ghost view = { λ d. bytes_in d.held };
}

impl Data {
    /// No bytes.
    pub fn new() -> Data
        ensures { result ≡ [] }
    {
        Data {
            held: Held::Short(0, [0; MOST_SHORT]),
        }
    }

    /// The bytes of a vector. It takes no memory.
    pub fn from_vec(bytes: Vec<u8>) -> Data
        ensures { result ≡ bytes.items }
    {
        Data {
            held: Held::Long(bytes),
        }
    }

    /// These bytes. Memory is taken for more than 64.
    pub fn from_slice(alloc: Global, bytes: &[u8]) -> Result<Data, AllocError>
        ensures same { IfOk result (λ d. d ≡ bytes.now) }
        ensures refused { IfErr result (λ _. 64 < length bytes.now) }
    {
        if bytes.len() > MOST_SHORT {
            return Ok(Data::from_vec(bytes.to_vec(alloc)?));
        }
        let mut short = [0; MOST_SHORT];
        short[..bytes.len()].copy_from_slice(bytes);
        Ok(Data {
            held: Held::Short(bytes.len(), short),
        })
    }

    /// The bytes.
    pub fn as_slice(&self) -> &[u8]
        ensures { result.now ≡ self.now }
    {
        match &self.held {
            Held::Short(len, short) => beginning_of(short.as_slice(), *len),
            Held::Long(bytes) => bytes.as_slice(),
        }
    }

    /// How many bytes there are.
    pub fn len(&self) -> usize
        ensures { result ≡ length self.now }
    {
        self.as_slice().len()
    }
}

impl Duplicate for Data {
    fn copy(&self, alloc: Global) -> Result<Data, AllocError> {
        Data::from_slice(alloc, self.as_slice())
    }
}

impl PartialEq for Data {
    ghost eq = { λ a b. pointwise ⟦<u8 as PartialEq>⟧.eq a b };

    ghost laws = { lists_per (Prim.search (comparing, rules)) };

    fn eq(&self, other: &Self) -> bool {
        self.as_slice() == other.as_slice()
    }
}

impl Eq for Data {
    ghost laws = { lists_equiv (Prim.search (comparing, rules)) };
}
