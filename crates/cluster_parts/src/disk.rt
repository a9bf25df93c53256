//! A store whose synced bytes outlast a stop, and of whose other bytes a beginning may.

ghost use Rattle.std.specs.Prelude.{◌≡◌, ◌≤◌, ◌++◌, ℕ, true, false, length, take, min, IfErr, OnOk, OnErr, IsErrOf};
ghost use Rattle.vote_journal.specs.Store.{Adds, Begun, Counts, CountsDevice, Grew, Just, NoMore, Only, Shortened};
ghost use Rattle.cluster_parts.specs.Disk.{MayLeave};

use crate::drive::{Drive, Strike};
use std::alloc::Global;
use vote_journal::{DeviceFailed, Sink, Store, StoreFault};

/// Bytes on a simulated disk.
///
/// A stop leaves what is synced, and of what was appended behind it a beginning. A cut is lasting at once, and so is all that
/// was read.
#[derive(Drop)]
pub struct DiskStore {
    bytes: Vec<u8>,
    /// How many of them each stop leaves.
    floor: usize,
    /// How many of them the world knows as synced.
    known: usize,
    failures: u64,
    drive: Drive,
}

/// Returns the first `keep` bytes, or all where there are fewer.
fn beginning_of(bytes: &[u8], keep: usize) -> &[u8]
    ensures { result.now ≡ take keep bytes.now }
{
    if keep < bytes.len() {
        &bytes[..keep]
    } else {
        bytes
    }
}

impl DiskStore {
    /// A store that holds these bytes, all of them synced, on a disk of which the world knows the first `known` as synced.
    pub fn new(bytes: Vec<u8>, known: usize, drive: Drive) -> DiskStore
        ensures { result.bytes ≡ bytes }
    {
        DiskStore {
            floor: bytes.len(),
            known,
            bytes,
            failures: 0,
            drive,
        }
    }

    /// Returns the fewest and the most bytes that a stop leaves.
    pub fn bounds(&self) -> (usize, usize) {
        (self.floor, self.bytes.len())
    }

    /// Returns what a stop leaves: so many bytes, or as near as may be.
    pub fn stopped(self, left: usize) -> DiskStore
        ensures { MayLeave self result.bytes.items }
    {
        let DiskStore {
            mut bytes,
            floor,
            known,
            failures: _,
            drive,
        } = self;
        let left = left.max(floor);
        bytes.truncate(left);
        DiskStore::new(bytes, known.min(left), drive)
    }

    /// Returns what a disk has that breaks its promise: half of the bytes.
    pub fn forgotten(self) -> DiskStore {
        let DiskStore {
            mut bytes,
            floor: _,
            known,
            failures: _,
            drive,
        } = self;
        let left = bytes.len() / 2;
        bytes.truncate(left);
        DiskStore::new(bytes, known.min(left), drive)
    }

    /// Counts a failure.
    fn fail(&mut self) -> DeviceFailed
        ensures same { self.new ≡ record self.old { failures = self.new.failures } }
        ensures more { Grew self.old.failures self.new.failures }
    {
        self.failures = self.failures.saturating_add(1);
        DeviceFailed
    }

    /// Appends the first `keep` bytes, or all where there are fewer, and fails.
    #[tactic(auto, using(crate::proofs::Leaving::beginning_leaves, crate::proofs::Leaving::stays))]
    fn append_beginning(&mut self, bytes: &[u8], keep: usize) -> StoreFault
        ensures kept { result ≡ StoreFault.Device → self.new.bytes.items ≡ self.old.bytes.items ++ take keep bytes.now }
        ensures counted { result ≡ StoreFault.Device → Grew self.old.failures self.new.failures }
        ensures floor { self.new.floor ≡ self.old.floor }
        ensures nothing { result ≡ StoreFault.OutOfMemory → (self.new.bytes.items ≡ self.old.bytes.items) × (self.new.failures ≡ self.old.failures) }
        ensures stop { Adds (Begun self.old.bytes.items bytes.now) (MayLeave self.old) (MayLeave self.new) }
    {
        match self.bytes.extend_from_slice(beginning_of(bytes, keep)) {
            Ok(()) => {
                self.fail();
                StoreFault::Device
            }
            Err(_) => StoreFault::OutOfMemory,
        }
    }

    /// Appends bytes.
    #[tactic(auto, using(crate::proofs::Leaving::append_leaves, crate::proofs::Leaving::stays))]
    fn append_all(&mut self, bytes: &[u8]) -> Result<(), StoreFault>
        ensures added { OnOk result (self.new.bytes.items ≡ self.old.bytes.items ++ bytes.now) }
        ensures memory { IfErr result (λ fault. fault ≡ StoreFault.OutOfMemory) }
        ensures nothing { OnErr result (self.new.bytes.items ≡ self.old.bytes.items) }
        ensures same { (self.new.floor ≡ self.old.floor) × (self.new.failures ≡ self.old.failures) }
        ensures stop { Adds (Begun self.old.bytes.items bytes.now) (MayLeave self.old) (MayLeave self.new) }
    {
        match self.bytes.extend_from_slice(bytes) {
            Ok(()) => Ok(()),
            Err(_) => Err(StoreFault::OutOfMemory),
        }
    }

    /// Keeps the first bytes.
    #[tactic(auto, using(crate::proofs::Leaving::cut_leaves))]
    fn shorten(&mut self, len: usize)
        requires { len ≤ length self.old.bytes.items }
        ensures kept { self.new.bytes.items ≡ take len self.old.bytes.items }
        ensures floor { self.new.floor ≡ min self.old.floor len }
        ensures same { self.new.failures ≡ self.old.failures }
        ensures stop { Adds (Shortened len self.old.bytes.items) (MayLeave self.old) (MayLeave self.new) }
    {
        self.bytes.truncate(len);
        self.floor = self.floor.min(len);
        self.known = self.known.min(len);
    }

    /// Makes all bytes lasting. It fails where the world has no memory to know them.
    #[tactic(auto, using(crate::proofs::Leaving::sync_leaves, crate::proofs::Leaving::no_more, crate::proofs::Leaving::stays))]
    fn settle(&mut self) -> Result<(), DeviceFailed>
        ensures stands { self.new.bytes.items ≡ self.old.bytes.items }
        ensures lasting { OnOk result (Only self.old.bytes.items (MayLeave self.new)) }
        ensures stop { NoMore (MayLeave self.old) (MayLeave self.new) }
        ensures cause { CountsDevice result self.old.failures self.new.failures }
    {
        let more = self.bytes.get(self.known..).unwrap_or(&[]);
        if !self.drive.note_synced(self.known, more) {
            return Err(self.fail());
        }
        self.known = self.bytes.len();
        self.floor = self.bytes.len();
        Ok(())
    }

    /// Makes all bytes lasting, as opening a file does before it is read.
    #[tactic(auto, using(crate::proofs::Leaving::found_stands, crate::proofs::Leaving::sync_leaves, crate::proofs::Leaving::no_more))]
    fn stand(&mut self)
        ensures same { (self.new.bytes ≡ self.old.bytes) × (self.new.failures ≡ self.old.failures) }
        ensures found { Just self.new.bytes.items (MayLeave self.new) }
        ensures stop { NoMore (MayLeave self.old) (MayLeave self.new) }
    {
        let all = self.bytes.len();
        self.floor = all;
    }

    /// Counts a call that is no append, and returns whether it fails.
    fn fails(&self) -> bool {
        matches!(
            self.drive.next(),
            Some(Strike::Device(_) | Strike::Power(_))
        )
    }
}

impl Store for DiskStore {
    ghost seen = { λ d. d.bytes.items };

    ghost may_leave = { MayLeave };

    ghost failures = { λ d. d.failures };

    fn failures(&self) -> u64 {
        self.failures
    }

    fn read<T: Sink>(&mut self, _alloc: Global, sink: &mut T) -> Result<(), StoreFault> {
        self.stand();
        sink.take(&self.bytes);
        Ok(())
    }

    fn append(&mut self, bytes: &[u8]) -> Result<(), StoreFault> {
        match self.drive.next() {
            None => self.append_all(bytes),
            Some(Strike::NoRoom) => Err(StoreFault::OutOfMemory),
            Some(Strike::Device(keep) | Strike::Power(keep)) => {
                Err(self.append_beginning(bytes, keep))
            }
        }
    }

    fn cut(&mut self, len: usize) -> Result<(), DeviceFailed> {
        if self.fails() {
            return Err(self.fail());
        }
        self.shorten(len);
        Ok(())
    }

    fn sync(&mut self) -> Result<(), DeviceFailed> {
        if self.fails() {
            return Err(self.fail());
        }
        self.settle()
    }
}
