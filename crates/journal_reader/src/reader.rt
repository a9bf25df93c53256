//! Entries out of a journal's bytes, which come in pieces of any length.

ghost use Rattle.std.specs.Prelude.{◌≡◌, ◌≤◌, length, OnOk, OnErr};
ghost use Rattle.journal_reader.specs.Held.{Held, nothing, with_piece, without_rest, passed, owner_after, IsHeaderRead, IsNext};

use crate::entry::{Entry, read_entry};
use std::alloc::{AllocError, Global};
use std::marker::Model;
use vote_journal::{Front, JournalFault, front_of};

/// What a journal begins with: the ASCII text TMJ1.
const HEADER: [u8; 4] = [0x54, 0x4d, 0x4a, 0x31];

/// The bytes of a journal that were not read yet, and where they stand in it.
///
/// A reader is fed what a file gives, in pieces of any length. It tells the header, and then the entries, in order. Contracts
/// see the bytes that it was fed and has not read.
#[derive(Debug, Drop)]
pub struct JournalReader {
    /// What was fed, from some byte on.
    bytes: Vec<u8>,
    /// How many of these bytes were read.
    read: usize,
    /// Where the first byte that was not read stands.
    offset: u64,
    /// The validator whose journal it is, once a record told.
    owner: Option<u16>,
}

/// An entry that was found.
#[derive(Debug, Drop)]
pub struct Found {
    /// Where its length begins, in bytes from the beginning of the journal.
    pub offset: u64,
    /// How many bytes it has, its length among them: from 5 to 1,100,004.
    pub len: usize,
    pub entry: Entry,
}

impl Model for JournalReader {
    ghost use Rattle.std.specs.Prelude.{◌≤◌, drop, vec_len};
    ghost use Rattle.journal_reader.specs.Held.{Held};

    ghost Value = { Held };

    ghost view = { λ r. record { rest = drop r.read r.bytes.items; offset = r.offset; owner = r.owner } };

    ghost invariant = { λ r. r.read ≤ vec_len r.bytes };
}

impl JournalReader {
    /// A reader that was fed nothing, at the beginning of a journal. It takes no memory.
    pub fn new(alloc: Global) -> JournalReader
        ensures { result ≡ nothing }
    {
        JournalReader {
            bytes: Vec::new(alloc),
            read: 0,
            offset: 0,
            owner: None,
        }
    }

    /// The bytes that were not read.
    fn rest(&self) -> &[u8]
        ensures { result.now ≡ self.now.rest }
    {
        &self.bytes[self.read..]
    }

    /// Where the first byte that was not read stands, in bytes from the beginning of the journal.
    pub fn offset(&self) -> u64
        ensures { result ≡ self.now.offset }
    {
        self.offset
    }

    /// How many bytes it holds that were not read.
    pub fn left(&self) -> usize
        ensures { result ≡ length self.now.rest }
    {
        self.bytes.len() - self.read
    }

    /// Makes room of the bytes that were read, once they are no fewer than those to be moved.
    fn forget_read(&mut self)
        ensures { self.new ≡ self.old }
    {
        let left = self.bytes.len() - self.read;
        if left > self.read {
            return;
        }
        self.bytes.copy_within(self.read.., 0);
        self.bytes.truncate(left);
        self.read = 0;
    }

    /// Takes the next piece of the journal, which may be empty. It is refused for want of memory alone, and then nothing of
    /// the piece is taken.
    pub fn feed(&mut self, piece: &[u8]) -> Result<(), AllocError>
        ensures ok { OnOk result (self.new ≡ with_piece self.old piece.now) }
        ensures err { OnErr result (self.new ≡ self.old) }
    {
        self.forget_read();
        self.bytes.extend_from_slice(piece)
    }

    /// Forgets the bytes that were not read: the next piece is to be the journal from `offset` on. A stop may have left less
    /// than a whole entry there, which the validator cuts away.
    pub fn forget_rest(&mut self)
        ensures { self.new ≡ without_rest self.old }
    {
        self.bytes.clear();
        self.read = 0;
    }

    /// Passes over bytes.
    fn pass(&mut self, count: usize)
        requires { count ≤ length self.old.rest }
        ensures { self.new ≡ passed count self.old }
    {
        self.read += count;
        self.offset = self.offset.saturating_add(count as u64);
    }

    /// Reads the header: whether it is whole. It is the first thing to be read of a journal.
    ///
    /// The fault is `BadRecord` (3) for another header.
    pub fn read_header(&mut self) -> Result<bool, JournalFault>
        ensures { IsHeaderRead self.old result self.new }
    {
        let rest = self.rest();
        if HEADER.starts_with(rest) && rest.len() < HEADER.len() {
            return Ok(false);
        }
        if !rest.starts_with(&HEADER) {
            return Err(JournalFault::BadRecord);
        }
        self.pass(HEADER.len());
        Ok(true)
    }

    /// Reads the next entry: none where it isn't whole yet, and then nothing changes.
    ///
    /// Faults: `BadRecord` (3) for a length of 0 or above 1,100,000, for what is no entry, and for a record of another
    /// validator than those before; `OutOfMemory` (2). Then nothing changes either.
    #[tactic(auto, using(crate::proofs::Fronts::no_next, crate::proofs::Fronts::bad_next, crate::proofs::Fronts::fits, crate::proofs::Fronts::found_next))]
    pub fn next_entry(&mut self, alloc: Global) -> Result<Option<Found>, JournalFault>
        ensures { IsNext self.old result self.new }
    {
        let (entry, len) = match front_of(self.rest()) {
            Front::Torn => return Ok(None),
            Front::Bad => return Err(JournalFault::BadRecord),
            Front::Whole(content, _) => {
                let entry = read_entry(alloc, self.owner, content)?;
                (entry, 4 + content.len())
            }
        };
        let offset = self.offset;
        self.note_owner(&entry);
        self.pass(len);
        Ok(Some(Found { offset, len, entry }))
    }

    /// Notes whose journal it is, where an entry tells.
    fn note_owner(&mut self, entry: &Entry)
        ensures { self.new ≡ record self.old { owner = owner_after self.old.owner entry.now } }
    {
        if let Entry::Record { owner, record: _ } = entry {
            self.owner = Some(*owner);
        }
    }
}
