//! The time that threads share.

use crate::bell::Bell;
use std::sync::Wait;
use std::time;

/// Milliseconds since a moment that the clock chose, which never go back.
pub trait Clock {
    /// The time now.
    fn now_ms<R: Wait + time::Clock>(&self, rt: &R) -> u64;

    /// Waits for at most so many milliseconds. It may come back earlier, but never at once, so that
    /// who calls it again and again doesn't spin.
    fn wait_ms<R: Wait + time::Clock>(&self, rt: &R, milliseconds: u64);

    /// Waits in the same way, but no longer than until the bell is rung: then it comes back at once.
    fn wait_for_ring<R: Wait + time::Clock>(&self, rt: &R, bell: &Bell, milliseconds: u64);
}
