//! A store over a file.

ghost use Rattle.std.specs.Prelude.{◌≡◌, ◌++◌, ℕ, List, true, false, IfOk, OnOk};
ghost use Rattle.vote_journal.specs.Store.{Grew, Just};
ghost use Rattle.journal_file.specs.Asked.{stands, leaves, all_asked};
ghost use Rattle.journal_file.specs.Keeping.{kept, may_be_left};

use crate::asked::{APPENDED, CUT, FOUND, NOT_APPENDED, NOT_CUT, Record, SYNCED};
use std::alloc::Global;
use std::fs::{File, OpenOptions, TryLockError};
use std::io;
use std::io::{ErrorKind, Read, Write};
use std::path::Path;
use std::rt::Files;
use thiserror::Error;
use vote_journal::{DeviceFailed, Sink, Store, StoreFault};

/// How many bytes are read at a time.
const PIECE: usize = 1 << 18;

/// Why a file was not opened.
#[derive(Clone, Copy, Debug, Error)]
pub enum FileFault {
    /// 1: the file or its directory can't be opened, made or synced, or is no regular file.
    #[error("the file cannot be opened: {0}")]
    Unusable(io::Error),
    /// 2: another store, of this process or another, has the file open.
    #[error("the file is in use")]
    Busy,
}

impl From<io::Error> for FileFault {
    fn from(error: io::Error) -> FileFault {
        FileFault::Unusable(error)
    }
}

/// The bytes of a file, which no other store has open meanwhile.
///
/// Its file is read once, a piece at a time, before anything else is done with it: until then each other call fails. No bytes
/// are kept in memory. After a call that failed each further one fails too: what the file then holds is known only when it is
/// opened anew.
#[derive(Drop)]
pub struct FileStore {
    file: File,
    is_read: bool,
    failures: u64,
    asked: Record,
}

/// Opens the file for reading and for appending, and makes one that is missing.
fn open_or_make<R: Files<File = File>>(rt: &R, path: &str) -> io::Result<File> {
    let file = OpenOptions::new()
        .read(true)
        .append(true)
        .create(true)
        .open(rt, path)?;
    if file.metadata()?.is_file() {
        Ok(file)
    } else {
        Err(ErrorKind::Unsupported.into())
    }
}

/// Syncs the directory, so that a stop leaves a file that was made.
fn sync_directory<R: Files<File = File>>(rt: &R, path: &str) -> io::Result<()> {
    let name = match Path::new(path).parent() {
        Some(parent) if !parent.as_str().is_empty() => parent.as_str(),
        _ => ".",
    };
    File::open(rt, name)?.sync_all()
}

fn lock(file: &File) -> Result<(), FileFault> {
    match file.try_lock() {
        Ok(()) => Ok(()),
        Err(TryLockError::WouldBlock) => Err(FileFault::Busy),
        Err(TryLockError::Error(error)) => Err(FileFault::Unusable(error)),
    }
}

impl FileStore {
    /// Opens the file at this path, or makes it, empty. It is synced, and its directory too, so that what it is found to hold
    /// when it is read is what a stop leaves.
    pub fn open<R: Files<File = File>>(rt: &R, path: &str) -> Result<FileStore, FileFault>
        ensures { IfOk result (λ store. (store.is_read ≡ false) × (store.failures ≡ 0)) }
    {
        let file = open_or_make(rt, path)?;
        lock(&file)?;
        file.sync_all()?;
        sync_directory(rt, path)?;
        Ok(FileStore {
            file,
            is_read: false,
            failures: 0,
            asked: Record::new(),
        })
    }

    /// Counts a failure.
    fn fail(&mut self)
        ensures same { (self.new.is_read ≡ self.old.is_read) × (self.new.asked ≡ self.old.asked) }
        ensures more { Grew self.old.failures self.new.failures }
    {
        self.failures = self.failures.saturating_add(1);
    }

    /// Whether the file is read, and no call failed.
    fn is_usable(&self) -> bool
        ensures { result ≡ true → self.now.is_read ≡ true }
    {
        self.is_read && self.failures == 0
    }

    /// Reads on in the file and gives what is there to a sink: whether its end isn't reached.
    fn read_on<T: Sink>(&mut self, buffer: &mut [u8], sink: &mut T) -> io::Result<bool>
        ensures given { (start : T) (before : List ℕ) → T.becomes start (before ++ stands (all_asked self.old.asked.events)) sink.old → T.becomes start (before ++ stands (all_asked self.new.asked.events)) sink.new }
        ensures stands { Just (stands (all_asked self.old.asked.events)) (leaves (all_asked self.old.asked.events)) → Just (stands (all_asked self.new.asked.events)) (leaves (all_asked self.new.asked.events)) }
        ensures same { (self.new.is_read ≡ self.old.is_read) × (self.new.failures ≡ self.old.failures) }
    {
        let count = match self.file.read(buffer) {
            Ok(count) => count,
            Err(error) if error.kind() == ErrorKind::Interrupted => return Ok(true),
            Err(error) => return Err(error),
        };
        let piece = buffer.get(..count).unwrap_or(&[]);
        self.asked.note(&[FOUND, 0], piece);
        sink.take(piece);
        Ok(count > 0)
    }

    /// Gives all bytes of the file to a sink, from its beginning.
    fn read_all<T: Sink>(&mut self, buffer: &mut [u8], sink: &mut T) -> io::Result<()>
        ensures given { OnOk result ((start : T) (before : List ℕ) → T.becomes start before sink.old → T.becomes start (before ++ stands (all_asked self.new.asked.events)) sink.new) }
        ensures stands { Just (stands (all_asked self.new.asked.events)) (leaves (all_asked self.new.asked.events)) }
        ensures same { (self.new.is_read ≡ self.old.is_read) × (self.new.failures ≡ self.old.failures) }
    {
        self.asked = Record::new();
        for _ in 0..u64::MAX {
            if !self.read_on(buffer, sink)? {
                return Ok(());
            }
        }
        Err(ErrorKind::FileTooLarge.into())
    }
}

impl Store for FileStore {
    ghost seen = { λ f. kept f.is_read f.asked.events };

    ghost may_leave = { λ f c. may_be_left f.is_read f.asked.events c };

    ghost failures = { λ f. f.failures };

    fn failures(&self) -> u64 {
        self.failures
    }

    fn read<T: Sink>(&mut self, alloc: Global, sink: &mut T) -> Result<(), StoreFault> {
        let Ok(mut buffer) = vec![in alloc; 0; PIECE] else {
            return Err(StoreFault::OutOfMemory);
        };
        if self.is_read || self.failures > 0 {
            self.fail();
            return Err(StoreFault::Device);
        }
        match self.read_all(&mut buffer, sink) {
            Ok(()) => {
                self.is_read = true;
                Ok(())
            }
            Err(_) => {
                self.fail();
                Err(StoreFault::Device)
            }
        }
    }

    fn append(&mut self, bytes: &[u8]) -> Result<(), StoreFault> {
        if self.is_usable() && self.file.write_all(bytes).is_ok() {
            self.asked.note(&[APPENDED, 0], bytes);
            return Ok(());
        }
        self.asked.note(&[NOT_APPENDED, 0], bytes);
        self.fail();
        Err(StoreFault::Device)
    }

    fn cut(&mut self, len: usize) -> Result<(), DeviceFailed> {
        let wanted = len as u64;
        if self.is_usable() && self.file.set_len(wanted).is_ok() && self.file.sync_all().is_ok() {
            self.asked.note(&[CUT, wanted], &[]);
            return Ok(());
        }
        self.asked.note(&[NOT_CUT, wanted], &[]);
        self.fail();
        Err(DeviceFailed)
    }

    fn sync(&mut self) -> Result<(), DeviceFailed> {
        if self.is_usable() && self.file.sync_data().is_ok() {
            self.asked.note(&[SYNCED, 0], &[]);
            return Ok(());
        }
        self.fail();
        Err(DeviceFailed)
    }
}
