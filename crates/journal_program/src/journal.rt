//! A journal that is read from a file.

use journal_reader::{Found, JournalReader};
use key_files::memory_or;
use node_settings::{Failure, JournalTrouble};
use std::alloc::Global;
use std::fs::File;
use std::io;
use std::io::{ErrorKind, Read, Seek, SeekFrom};
use vote_journal::JournalFault;

/// The most bytes that one read takes.
const PIECE: usize = 65_536;

/// A file, and what was read of the journal in it.
#[derive(Drop)]
pub(crate) struct Journal {
    file: File,
    reader: JournalReader,
    has_begun: bool,
}

/// Why the file isn't read.
fn unread(error: io::Error) -> Failure {
    memory_or(&error, Failure::Journal(JournalTrouble::Failed))
}

impl Journal {
    /// Of a file from its beginning.
    pub(crate) fn new(alloc: Global, file: File) -> Journal {
        Journal {
            file,
            reader: JournalReader::new(alloc),
            has_begun: false,
        }
    }

    /// Where what was not read begins, in bytes.
    pub(crate) fn offset(&self) -> u64 {
        self.reader.offset()
    }

    /// How many bytes were fed and are less than a whole entry.
    pub(crate) fn left(&self) -> usize {
        self.reader.left()
    }

    /// Reads on in the file: whether there was more.
    pub(crate) fn feed(&mut self) -> Result<bool, Failure> {
        let mut piece = [0; PIECE];
        let count = match self.file.read(&mut piece) {
            Ok(count) => count,
            Err(error) if error.kind() == ErrorKind::Interrupted => return Ok(true),
            Err(error) => return Err(unread(error)),
        };
        let fed = self.reader.feed(piece.get(..count).unwrap_or(&[]));
        fed.map_err(|_| Failure::OutOfMemory)?;
        Ok(count > 0)
    }

    /// Returns the next entry of what was fed, if it is whole.
    pub(crate) fn next_entry(&mut self, alloc: Global) -> Result<Option<Found>, JournalFault> {
        if !self.has_begun {
            self.has_begun = self.reader.read_header()?;
        }
        if !self.has_begun {
            return Ok(None);
        }
        self.reader.next_entry(alloc)
    }

    /// Goes back to where what was not read begins: a validator that is started cuts away less than a whole entry, and writes
    /// another one there.
    pub(crate) fn go_back(&mut self) -> Result<(), Failure> {
        if self.left() > 0 {
            self.reader.forget_rest();
            self.file
                .seek(SeekFrom::Start(self.reader.offset()))
                .map_err(unread)?;
        }
        Ok(())
    }
}
