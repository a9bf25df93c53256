//! The records of a journal, one after the other.

ghost use Rattle.std.specs.Prelude.{◌≡◌, ◌&&◌, ℕ, List, nat_le};
ghost use Rattle.vote_journal.specs.Layout.{IsFront};
ghost use Rattle.vote_journal.specs.Planning.{IsScan, Read};

use crate::fault::JournalFault;
use crate::keeping::Kept;
use crate::standing::Standing;
use byteorder::{BigEndian, ByteOrder};
use powers::Powers;
use std::alloc::Global;

/// The most bytes that a record has behind its length.
const LONGEST_CONTENT: usize = 1_100_000;

/// What stands at the front of a journal's bytes, behind its header or behind records.
#[derive(Clone, Copy, Debug)]
pub enum Front<'a> {
    /// Less than a whole record.
    Torn,
    /// A length of 0 or above the limit.
    Bad,
    /// What a record has behind its length, and what follows it.
    Whole(&'a [u8], &'a [u8]),
}

/// What was read of bytes behind a header.
#[derive(Drop)]
pub(crate) struct Scan {
    pub(crate) standing: Standing,
    pub(crate) kept: Kept,
    /// How many bytes of a record that isn't whole follow.
    pub(crate) torn: usize,
}

/// Whether a record may have so many bytes behind its length.
fn is_lawful(len: usize) -> bool
    ensures { result ≡ nat_le 1 len && nat_le len 1100000 }
{
    1 <= len && len <= LONGEST_CONTENT
}

/// What stands at the front of a journal's bytes, behind its header or behind records.
pub fn front_of(bytes: &[u8]) -> Front<'_>
    ensures { IsFront bytes.now result }
{
    if bytes.len() < 4 {
        return Front::Torn;
    }
    let len = BigEndian::read_u32(bytes) as usize;
    if !is_lawful(len) {
        return Front::Bad;
    }
    let (_, behind) = bytes.split_at(4);
    if behind.len() < len {
        return Front::Torn;
    }
    let (content, after) = behind.split_at(len);
    Front::Whole(content, after)
}

/// Reads the whole records of validator `me` at the front of bytes, behind those of which this is remembered and kept.
///
/// Faults: `BadRecord` (3) for a length of 0 or above 1,100,000, for what is no record of the validator, and for a record
/// that may not follow those before it; `OutOfMemory` (2).
pub(crate) fn read_records(
    alloc: Global,
    me: u16,
    powers: &Powers,
    before: Standing,
    kept_before: Kept,
    bytes: &[u8],
) -> Result<Scan, JournalFault>
    ensures { (all : List ℕ) → Read powers.now me all kept_before before bytes.now → IsScan powers.now me all bytes.now result }
{
    let mut standing = before;
    let mut kept = kept_before;
    let mut rest = bytes;
    loop {
        match front_of(rest) {
            Front::Torn => {
                return Ok(Scan {
                    standing,
                    kept,
                    torn: rest.len(),
                });
            }
            Front::Bad => return Err(JournalFault::BadRecord),
            Front::Whole(content, after) => {
                let entry = standing.take(alloc, me, powers, content)?;
                kept.keep(entry)?;
                rest = after;
            }
        }
    }
}
