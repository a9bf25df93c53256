//! The time by the host's clock.

use peer_links::{Bell, Clock};
use std::sync::{Mutex, Wait};
use std::time::Duration;
use std::{thread, time};

/// How long one wait lasts at most, in milliseconds.
const MOST_MS: u64 = 1_000;

/// The milliseconds that the host's clock which isn't set back counts. Threads share it.
#[derive(Drop)]
pub struct HostClock {
    /// The greatest time that was told.
    last: Mutex<u64>,
}

impl HostClock {
    /// A clock that has told no time.
    pub fn new() -> HostClock {
        HostClock {
            last: Mutex::new(0),
        }
    }
}

impl Clock for HostClock {
    fn now_ms<R: Wait + time::Clock>(&self, rt: &R) -> u64 {
        let mut last = self.last.lock(rt);
        if let Ok(time) = rt.monotonic() {
            *last = milliseconds_in(time).max(*last);
        }
        *last
    }

    fn wait_ms<R: Wait + time::Clock>(&self, rt: &R, milliseconds: u64) {
        thread::sleep(rt, Duration::from_millis(milliseconds.clamp(1, MOST_MS)));
    }

    fn wait_for_ring<R: Wait + time::Clock>(&self, rt: &R, bell: &Bell, milliseconds: u64) {
        bell.wait(rt, milliseconds.clamp(1, MOST_MS));
    }
}

/// The whole milliseconds of a time, up to the greatest `u64`.
fn milliseconds_in(time: Duration) -> u64 {
    u64::try_from(time.as_millis()).unwrap_or(u64::MAX)
}
