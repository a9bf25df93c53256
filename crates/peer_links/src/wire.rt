//! What was sent on a link in memory.

use std::alloc::{AllocError, Global};
use std::sync::atomic::{AtomicBool, Ordering};
use std::sync::{Condvar, Mutex, Wait};
use std::time::{Clock, Duration};

/// How long one wait lasts at most, in milliseconds.
const TURN_MS: u64 = 1;

/// The bytes that were sent on one link, in order, as threads share them, and whether the link was reset.
#[derive(Drop)]
pub struct Wire {
    alloc: Global,
    bytes: Mutex<Vec<u8>>,
    sent: Condvar,
    reset: AtomicBool,
}

impl Wire {
    /// Makes a wire on which nothing was sent.
    pub fn new(alloc: Global) -> Wire {
        Wire {
            alloc,
            bytes: Mutex::new(Vec::new(alloc)),
            sent: Condvar::new(),
            reset: AtomicBool::new(false),
        }
    }

    /// Notes bytes that were taken by one call of `send`.
    pub(crate) fn note<R: Wait>(&self, rt: &R, taken: &[u8]) -> Result<(), AllocError> {
        let mut bytes = self.bytes.lock(rt);
        bytes.extend_from_slice(taken)?;
        self.sent.notify_all();
        Ok(())
    }

    /// Resets the link: from now on each call of the halves that are on this wire fails.
    pub fn reset(&self) {
        self.reset.store(true, Ordering::SeqCst);
    }

    /// Returns whether the link was reset.
    pub(crate) fn is_reset(&self) -> bool {
        self.reset.load(Ordering::SeqCst)
    }

    /// Counts how often these bytes were sent, by one call or by several.
    pub fn count<R: Wait>(&self, rt: &R, bytes: &[u8]) -> usize {
        times(&self.bytes.lock(rt), bytes)
    }

    /// Copies everything that was sent.
    pub fn bytes<R: Wait>(&self, rt: &R) -> Result<Vec<u8>, AllocError> {
        self.bytes.lock(rt).to_vec(self.alloc)
    }

    /// Waits for a moment, or until something is sent. Returns whether these bytes were then sent `count`
    /// times.
    pub fn wait_for<R: Wait + Clock>(&self, rt: &R, bytes: &[u8], count: usize) -> bool {
        if self.count(rt, bytes) >= count {
            return true;
        }
        self.wait_turn(rt);
        self.count(rt, bytes) >= count
    }

    fn wait_turn<R: Wait + Clock>(&self, rt: &R) {
        let bytes = self.bytes.lock(rt);
        let _ = self
            .sent
            .wait_timeout(rt, bytes, Duration::from_millis(TURN_MS));
    }
}

/// Counts at how many places of what was sent these bytes begin.
fn times(sent: &[u8], bytes: &[u8]) -> usize {
    (0..sent.len())
        .filter(|at| sent.get(*at..).is_some_and(|rest| rest.starts_with(bytes)))
        .count()
}
