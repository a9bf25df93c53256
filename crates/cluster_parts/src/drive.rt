//! What the world knows of a disk while a node owns its store, and what it does to it.

use std::alloc::{AllocError, Global};
use std::cell::RefCell;
use std::mem;
use std::rc::Rc;

/// What happens at a call of a store.
#[derive(Clone, Copy)]
pub enum Strike {
    /// The device fails; of an append this many bytes are done.
    Device(usize),
    /// Power goes, and with it all that comes after; of an append this many bytes are done.
    Power(usize),
    /// An append is refused for want of room, and nothing is done.
    NoRoom,
}

/// A strike that is to come.
#[derive(Clone, Copy)]
struct Planned {
    /// At which call from now on, counted from 1.
    call: u64,
    strike: Strike,
}

/// What a store and the world share.
#[derive(Drop)]
struct Shared {
    planned: Option<Planned>,
    /// Whether power went at a call.
    is_cut: bool,
    /// How many synced bytes were taken.
    taken: usize,
    /// The synced bytes behind these.
    synced: Vec<u8>,
    /// Whether synced bytes that were taken are gone.
    has_shrunk: bool,
}

impl Shared {
    fn next(&mut self) -> Option<Strike> {
        let planned = self.planned?;
        if planned.call > 1 {
            self.planned = Some(Planned {
                call: planned.call - 1,
                strike: planned.strike,
            });
            return None;
        }
        self.planned = None;
        if matches!(planned.strike, Strike::Power(_)) {
            self.is_cut = true;
        }
        Some(planned.strike)
    }

    fn note_synced(&mut self, common: usize, more: &[u8]) -> Result<(), AllocError> {
        match common.checked_sub(self.taken) {
            Some(left) => self.synced.truncate(left),
            None => {
                self.has_shrunk = true;
                self.synced.clear();
                self.taken = common;
            }
        }
        self.synced.extend_from_slice(more)
    }
}

/// A disk as the world sees it: copies of it are of the same disk.
#[derive(Clone, Drop)]
pub struct Drive {
    alloc: Global,
    shared: Rc<RefCell<Shared>>,
}

impl Drive {
    /// An empty disk, of which no call is to fail.
    pub fn new(alloc: Global) -> Result<Drive, AllocError> {
        let shared = RefCell::new(Shared {
            planned: None,
            is_cut: false,
            taken: 0,
            synced: Vec::new(alloc),
            has_shrunk: false,
        });
        Ok(Drive {
            alloc,
            shared: Rc::new(alloc, shared)?,
        })
    }

    /// Lets a call fail, counted from 1 over appends, cuts and syncs, in the place of what was to fail before.
    pub fn plan(&self, call: u64, strike: Strike) {
        if let Ok(mut shared) = self.shared.try_borrow_mut() {
            shared.planned = Some(Planned { call, strike });
        }
    }

    /// Lets no call fail.
    pub fn spare(&self) {
        if let Ok(mut shared) = self.shared.try_borrow_mut() {
            shared.planned = None;
        }
    }

    /// Returns whether power went since the last time, and forgets that it did.
    pub fn takes_cut(&self) -> bool {
        match self.shared.try_borrow_mut() {
            Ok(mut shared) => mem::replace(&mut shared.is_cut, false),
            Err(_) => false,
        }
    }

    /// Takes the bytes that were synced since the last time.
    pub fn take_synced(&self) -> Vec<u8> {
        match self.shared.try_borrow_mut() {
            Ok(mut shared) => {
                let count = shared.synced.len();
                shared.taken = shared.taken.saturating_add(count);
                mem::replace(&mut shared.synced, Vec::new(self.alloc))
            }
            Err(_) => Vec::new(self.alloc),
        }
    }

    /// Returns whether synced bytes that were taken are gone.
    pub fn has_shrunk(&self) -> bool {
        match self.shared.try_borrow() {
            Ok(shared) => shared.has_shrunk,
            Err(_) => false,
        }
    }

    /// Counts a call: what happens at it.
    pub(crate) fn next(&self) -> Option<Strike> {
        match self.shared.try_borrow_mut() {
            Ok(mut shared) => shared.next(),
            Err(_) => None,
        }
    }

    /// Notes that what is synced is so many bytes of before, and more.
    pub(crate) fn note_synced(&self, common: usize, more: &[u8]) -> bool {
        match self.shared.try_borrow_mut() {
            Ok(mut shared) => shared.note_synced(common, more).is_ok(),
            Err(_) => false,
        }
    }
}
