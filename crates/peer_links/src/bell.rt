//! What a thread waits for that others wake.

use std::sync::{Condvar, Mutex, Wait};
use std::time::{Clock, Duration};

/// What was told, and not heard yet.
#[derive(Clone, Copy, Drop)]
struct Told {
    /// The bell was rung since the last wait.
    is_new: bool,
    /// It isn't rung any more.
    is_over: bool,
}

/// Wakes a thread that waits where something has happened, such as that a node has decided, or where all has ended.
#[derive(Drop)]
pub struct Bell {
    told: Mutex<Told>,
    rung: Condvar,
}

impl Bell {
    /// Nothing was told yet.
    pub fn new() -> Bell {
        Bell {
            told: Mutex::new(Told {
                is_new: false,
                is_over: false,
            }),
            rung: Condvar::new(),
        }
    }

    /// Tells that something has happened.
    pub fn ring<R: Wait>(&self, rt: &R) {
        self.told.lock(rt).is_new = true;
        self.rung.notify_all();
    }

    /// Tells that all has ended.
    pub fn end<R: Wait>(&self, rt: &R) {
        self.told.lock(rt).is_over = true;
        self.rung.notify_all();
    }

    /// Whether all has ended.
    pub fn is_over<R: Wait>(&self, rt: &R) -> bool {
        self.told.lock(rt).is_over
    }

    /// Waits for so many milliseconds at most, or until something is told that was not heard yet.
    pub fn wait<R: Wait + Clock>(&self, rt: &R, milliseconds: u64) {
        let limit = Duration::from_millis(milliseconds);
        let (mut told, _) = self
            .rung
            .wait_timeout_while(rt, self.told.lock(rt), limit, |told| {
                !told.is_new && !told.is_over
            });
        told.is_new = false;
    }
}
