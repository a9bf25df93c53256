//! A store in memory whose calls can be made to fail.

ghost use Rattle.std.specs.Prelude.{◌≡◌, ◌==◌, ◌≤◌, ◌+◌, ◌-◌, ◌^◌, ◌++◌, length, min, take, IfErr, IsErrOf, OnErr, OnOk};
ghost use Rattle.vote_journal.specs.Store.{Adds, Begun, Counts, CountsDevice, Grew, NoMore, Only, Shortened};
ghost use Rattle.vote_journal.specs.Memory.{HasFailed, HasServed, IsJust};

use crate::store::{DeviceFailed, Sink, Store, StoreFault};
use std::alloc::Global;

/// Bytes in memory, where each call takes effect at once and a stop leaves what stands.
///
/// Appends, cuts and syncs are counted. The call of one number fails: of an append a beginning stays, a cut or a sync does
/// nothing.
#[derive(Debug, Drop)]
pub struct MemoryStore {
    bytes: Vec<u8>,
    calls: u64,
    failing: u64,
    keep: usize,
    failures: u64,
}

impl MemoryStore {
    /// A store that holds these bytes, and whose call number `failing` fails, counted from 1: none for 0. Of an append the
    /// first `keep` bytes stay then, or all, where there are fewer.
    pub fn new(bytes: Vec<u8>, failing: u64, keep: usize) -> MemoryStore
        ensures { result ≡ record { bytes = bytes; calls = 0; failing = failing; keep = keep; failures = 0 } }
    {
        MemoryStore {
            bytes,
            calls: 0,
            failing,
            keep,
            failures: 0,
        }
    }

    /// The bytes that stand.
    pub fn bytes(&self) -> &[u8]
        ensures { result.now ≡ self.now.bytes.items }
    {
        self.bytes.as_slice()
    }

    /// Counts a call: whether it is the one that fails.
    fn fails(&mut self) -> bool
        ensures counted { self.new ≡ record self.old { calls = min (self.old.calls + 1) (2 ^ 64 - 1) } }
        ensures fails { result ≡ (self.new.calls == self.old.failing) }
    {
        self.calls = self.calls.saturating_add(1);
        self.calls == self.failing
    }

    /// A call that fails and does nothing.
    pub(crate) fn fail(&mut self) -> DeviceFailed
        ensures same { self.new ≡ record self.old { failures = self.new.failures } }
        ensures more { Grew self.old.failures self.new.failures }
    {
        self.failures = self.failures.saturating_add(1);
        DeviceFailed
    }

    /// Makes room for this many bytes more.
    pub(crate) fn reserve(&mut self, additional: usize) -> Result<(), StoreFault>
        ensures same { (self.new.bytes.items ≡ self.old.bytes.items) × (self.new ≡ record self.old { bytes = self.new.bytes }) }
        ensures memory { IfErr result (λ e. e ≡ StoreFault.OutOfMemory) }
    {
        self.bytes
            .reserve(additional)
            .map_err(|_| StoreFault::OutOfMemory)
    }

    /// An append that fails for the device, or for memory: the first `keep` bytes stay, or all where there are fewer.
    pub(crate) fn append_beginning(&mut self, bytes: &[u8], keep: usize) -> StoreFault
        ensures kept { result ≡ StoreFault.Device → self.new.bytes.items ≡ self.old.bytes.items ++ take keep bytes.now }
        ensures counted { result ≡ StoreFault.Device → Grew self.old.failures self.new.failures }
        ensures rest { self.new ≡ record self.old { bytes = self.new.bytes; failures = self.new.failures } }
        ensures nothing { result ≡ StoreFault.OutOfMemory → (self.new.bytes.items ≡ self.old.bytes.items) × (self.new.failures ≡ self.old.failures) }
    {
        let beginning = if keep < bytes.len() {
            &bytes[..keep]
        } else {
            bytes
        };
        if self.bytes.extend_from_slice(beginning).is_err() {
            return StoreFault::OutOfMemory;
        }
        self.fail();
        StoreFault::Device
    }
}

impl Store for MemoryStore {
    ghost seen = { λ m. m.bytes.items };

    ghost may_leave = { IsJust };

    ghost failures = { λ m. m.failures };

    fn failures(&self) -> u64 {
        self.failures
    }

    fn read<T: Sink>(&mut self, _alloc: Global, sink: &mut T) -> Result<(), StoreFault> {
        sink.take(&self.bytes);
        Ok(())
    }

    fn append(&mut self, bytes: &[u8]) -> Result<(), StoreFault>
        ensures added { OnOk result (self.new.bytes.items ≡ self.old.bytes.items ++ bytes.now) }
        ensures nothing { IsErrOf result StoreFault.OutOfMemory → (self.new.bytes.items ≡ self.old.bytes.items) × NoMore (IsJust self.old) (IsJust self.new) }
        ensures began { IsErrOf result StoreFault.Device → Begun self.old.bytes.items bytes.now self.new.bytes.items }
        ensures stop { Adds (Begun self.old.bytes.items bytes.now) (IsJust self.old) (IsJust self.new) }
        ensures cause { Counts result self.old.failures self.new.failures }
        ensures done { OnOk result (HasServed self.old self.new) }
        ensures failed { IsErrOf result StoreFault.Device → HasFailed self.old self.new × (self.new.bytes.items ≡ self.old.bytes.items ++ take self.old.keep bytes.now) }
    {
        self.reserve(bytes.len())?;
        if self.fails() {
            return Err(self.append_beginning(bytes, self.keep));
        }
        match self.bytes.extend_from_slice(bytes) {
            Ok(()) => Ok(()),
            Err(_) => Err(StoreFault::OutOfMemory),
        }
    }

    fn cut(&mut self, len: usize) -> Result<(), DeviceFailed>
        requires { len ≤ length self.old.bytes.items }
        ensures kept { OnOk result (self.new.bytes.items ≡ take len self.old.bytes.items) }
        ensures stop { Adds (Shortened len self.old.bytes.items) (IsJust self.old) (IsJust self.new) }
        ensures cause { CountsDevice result self.old.failures self.new.failures }
        ensures done { OnOk result (HasServed self.old self.new) }
        ensures failed { OnErr result (HasFailed self.old self.new × (self.new.bytes ≡ self.old.bytes)) }
    {
        if self.fails() {
            return Err(self.fail());
        }
        self.bytes.truncate(len);
        Ok(())
    }

    fn sync(&mut self) -> Result<(), DeviceFailed>
        ensures stands { self.new.bytes.items ≡ self.old.bytes.items }
        ensures lasting { OnOk result (Only self.old.bytes.items (IsJust self.new)) }
        ensures stop { NoMore (IsJust self.old) (IsJust self.new) }
        ensures cause { CountsDevice result self.old.failures self.new.failures }
        ensures done { OnOk result (HasServed self.old self.new) }
        ensures failed { OnErr result (HasFailed self.old self.new) }
    {
        if self.fails() {
            return Err(self.fail());
        }
        Ok(())
    }
}
