//! A store in memory whose calls are made to fail from outside, while something else owns it.

ghost use Rattle.std.specs.Prelude.{◌≡◌, ◌+◌, ◌<◌, ◌≤◌, ◌++◌, ℕ, length, take, Some, None, IsErrOf, OnOk, OnErr};
ghost use Rattle.vote_journal.specs.Memory.{HasServed, IsJust};
ghost use Rattle.vote_journal.specs.Store.{Adds, Begun, Counts, CountsDevice, NoMore, Only, Shortened};
ghost use Rattle.vote_journal.specs.Striking.{struck_at, IsCountable, SameBut};

use crate::memory::MemoryStore;
use crate::store::{DeviceFailed, Sink, Store, StoreFault};
use std::alloc::{AllocError, Global};
use std::cell::RefCell;
use std::collections::BTreeMap;
use std::rc::Rc;

/// How many calls were made, and how much of an append stays at those that are to fail, by their numbers.
#[derive(Drop)]
struct Calls {
    made: u64,
    struck: BTreeMap<u64, usize>,
}

impl Calls {
    fn new(alloc: Global) -> Calls
        ensures { (number : ℕ) → struck_at result number ≡ None }
    {
        Calls {
            made: 0,
            struck: BTreeMap::new(alloc),
        }
    }

    /// The call of this number from now on is to fail, whatever was said of it before.
    fn strike(&mut self, call: u64, keep: usize) -> Result<(), AllocError>
        ensures struck { OnOk result (IsCountable self.old call → struck_at self.new call ≡ Some keep) }
        ensures others { SameBut call self.old self.new }
        ensures err { OnErr result ((number : ℕ) → struck_at self.new number ≡ struck_at self.old number) }
    {
        let Some(number) = self.made.checked_add(call) else {
            return Ok(());
        };
        match self.struck.insert(number, keep) {
            Ok(_) => Ok(()),
            Err(_) => Err(AllocError),
        }
    }

    /// Counts a call: how much of an append stays at it, if it is to fail.
    fn next(&mut self) -> Option<usize>
        ensures struck { IsCountable self.old 1 → result ≡ struck_at self.old 1 }
        ensures nearer { IsCountable self.old 1 → (number : ℕ) → 0 < number → struck_at self.new number ≡ struck_at self.old (1 + number) }
    {
        self.made = self.made.checked_add(1)?;
        self.struck.remove(&self.made)
    }
}

/// Strikes on the calls of the stores that share them: copies of it strike the same stores.
#[derive(Clone, Drop)]
pub struct Strikes {
    calls: Rc<RefCell<Calls>>,
}

impl Strikes {
    /// No strike yet.
    pub fn new(alloc: Global) -> Result<Strikes, AllocError> {
        let calls = Rc::new(alloc, RefCell::new(Calls::new(alloc)))?;
        Ok(Strikes { calls })
    }

    /// Call number `call` of the store from now on fails, counted from 1 over appends, cuts and syncs; for 0 none does. Of
    /// an append the first `keep` bytes stay then, or all where there are fewer; a cut or a sync does nothing.
    ///
    /// Each strike counts by itself and lasts until its call; of several on one call the latest says what stays. It is
    /// refused for want of memory alone.
    pub fn strike(&self, call: u64, keep: usize) -> Result<(), AllocError> {
        match self.calls.try_borrow_mut() {
            Ok(mut calls) => calls.strike(call, keep),
            Err(_) => Err(AllocError),
        }
    }

    /// Counts a call: how much of an append stays at it, if it is struck.
    fn next(&self) -> Option<usize> {
        match self.calls.try_borrow_mut() {
            Ok(mut calls) => calls.next(),
            Err(_) => None,
        }
    }
}

/// Bytes in memory, where each call takes effect at once and a stop leaves what stands, but for calls that are struck.
#[derive(Drop)]
pub struct StrikingStore {
    store: MemoryStore,
    strikes: Strikes,
}

impl StrikingStore {
    /// A store that holds these bytes, and whose calls these strikes fail.
    pub fn new(bytes: Vec<u8>, strikes: Strikes) -> StrikingStore
        ensures { result.store.bytes ≡ bytes }
    {
        StrikingStore {
            store: MemoryStore::new(bytes, 0, 0),
            strikes,
        }
    }

    /// The bytes that stand.
    pub fn bytes(&self) -> &[u8]
        ensures { result.now ≡ self.now.store.bytes.items }
    {
        self.store.bytes()
    }
}

impl Store for StrikingStore {
    ghost seen = { λ s. s.store.bytes.items };

    ghost may_leave = { λ s c. c ≡ s.store.bytes.items };

    ghost failures = { λ s. s.store.failures };

    fn failures(&self) -> u64 {
        self.store.failures()
    }

    fn read<T: Sink>(&mut self, alloc: Global, sink: &mut T) -> Result<(), StoreFault> {
        self.store.read(alloc, sink)
    }

    // What is not struck the store inside does.
    fn append(&mut self, bytes: &[u8]) -> Result<(), StoreFault>
        ensures added { OnOk result (self.new.store.bytes.items ≡ self.old.store.bytes.items ++ bytes.now) }
        ensures nothing { IsErrOf result StoreFault.OutOfMemory → (self.new.store.bytes.items ≡ self.old.store.bytes.items) × NoMore (IsJust self.old.store) (IsJust self.new.store) }
        ensures began { IsErrOf result StoreFault.Device → Begun self.old.store.bytes.items bytes.now self.new.store.bytes.items }
        ensures stop { Adds (Begun self.old.store.bytes.items bytes.now) (IsJust self.old.store) (IsJust self.new.store) }
        ensures cause { Counts result self.old.store.failures self.new.store.failures }
        ensures done { OnOk result (HasServed self.old.store self.new.store) }
    {
        self.store.reserve(bytes.len())?;
        match self.strikes.next() {
            Some(keep) => Err(self.store.append_beginning(bytes, keep)),
            None => self.store.append(bytes),
        }
    }

    fn cut(&mut self, len: usize) -> Result<(), DeviceFailed>
        requires { len ≤ length self.old.store.bytes.items }
        ensures kept { OnOk result (self.new.store.bytes.items ≡ take len self.old.store.bytes.items) }
        ensures stop { Adds (Shortened len self.old.store.bytes.items) (IsJust self.old.store) (IsJust self.new.store) }
        ensures cause { CountsDevice result self.old.store.failures self.new.store.failures }
        ensures done { OnOk result (HasServed self.old.store self.new.store) }
    {
        match self.strikes.next() {
            Some(_) => Err(self.store.fail()),
            None => self.store.cut(len),
        }
    }

    fn sync(&mut self) -> Result<(), DeviceFailed>
        ensures stands { self.new.store.bytes.items ≡ self.old.store.bytes.items }
        ensures lasting { OnOk result (Only self.old.store.bytes.items (IsJust self.new.store)) }
        ensures stop { NoMore (IsJust self.old.store) (IsJust self.new.store) }
        ensures cause { CountsDevice result self.old.store.failures self.new.store.failures }
        ensures done { OnOk result (HasServed self.old.store self.new.store) }
    {
        match self.strikes.next() {
            Some(_) => Err(self.store.fail()),
            None => self.store.sync(),
        }
    }
}
