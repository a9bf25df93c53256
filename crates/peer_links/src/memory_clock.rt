//! A clock in memory.

use crate::bell::Bell;
use crate::clock::Clock;
use std::sync::{Condvar, Mutex, Wait};
use std::time;
use std::time::Duration;

/// How long one wait lasts at most, in milliseconds of the host's clock, whatever time this one shows.
const TURN_MS: u64 = 1;

/// A clock that moves only when it is told to, or by so much with each wait. Threads share it.
#[derive(Drop)]
pub struct MemoryClock {
    now: Mutex<u64>,
    moved: Condvar,
    /// By how much a wait moves it.
    step: u64,
}

impl MemoryClock {
    /// A clock that shows this time, and stands still.
    pub fn new(now: u64) -> MemoryClock {
        MemoryClock::moving(now, 0)
    }

    /// A clock that shows this time, and moves on by so many milliseconds with each wait.
    pub fn moving(now: u64, step: u64) -> MemoryClock {
        MemoryClock {
            now: Mutex::new(now),
            moved: Condvar::new(),
            step,
        }
    }

    /// Moves the clock on, to the greatest `u64` at most, and wakes who waits.
    pub fn advance<R: Wait>(&self, rt: &R, milliseconds: u64) {
        let mut now = self.now.lock(rt);
        *now = now.saturating_add(milliseconds);
        self.moved.notify_all();
    }
}

impl Clock for MemoryClock {
    fn now_ms<R: Wait + time::Clock>(&self, rt: &R) -> u64 {
        *self.now.lock(rt)
    }

    fn wait_ms<R: Wait + time::Clock>(&self, rt: &R, _milliseconds: u64) {
        let now = self.now.lock(rt);
        let _ = self
            .moved
            .wait_timeout(rt, now, Duration::from_millis(TURN_MS));
        self.advance(rt, self.step);
    }

    fn wait_for_ring<R: Wait + time::Clock>(&self, rt: &R, _bell: &Bell, milliseconds: u64) {
        self.wait_ms(rt, milliseconds);
    }
}
