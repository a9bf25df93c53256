//! What wakes who follows a node's list.

use super::assert_same;
use peer_threads::Bell;
use std::process::Abort;
use std::sync::Wait;
use std::thread;
use std::thread::Threads;
use std::time::{Clock, Duration, Instant};

/// Longer than any test lasts, in milliseconds.
const LONG_MS: u64 = 60_000;

/// Whether a wait was over before its limit.
fn is_woken<R: Abort + Wait + Clock>(rt: &R, bell: &Bell, limit: u64) -> bool {
    let began = Instant::now(rt).expect(rt, "no clock");
    bell.wait(rt, limit);
    began.elapsed(rt).expect(rt, "no clock") < Duration::from_millis(limit)
}

/// Such a wait is over before its limit, or it is not.
fn assert_woken<R: Abort + Wait + Clock>(rt: &R, bell: &Bell, limit: u64, woken: bool) {
    assert_same(rt, &is_woken(rt, bell, limit), &woken);
}

#[test]
fn a_ring_is_heard_once_and_the_end_always(rt: HostRuntime) {
    let bell = Bell::new();
    assert_woken(&rt, &bell, 1, false);
    bell.ring(&rt);
    assert_woken(&rt, &bell, LONG_MS, true);
    assert_woken(&rt, &bell, 1, false);
    assert_same(&rt, &bell.is_over(&rt), &false);
    bell.end(&rt);
    assert_same(&rt, &bell.is_over(&rt), &true);
    assert_woken(&rt, &bell, LONG_MS, true);
}

/// Whether a wait is over before its limit where another thread rings.
fn heard_beside<R: Abort + Threads + Wait + Clock + Sync>(rt: &R, bell: &Bell) -> bool {
    thread::join(rt, || is_woken(rt, bell, LONG_MS), || bell.ring(rt)).0
}

#[test]
fn who_waits_is_woken(rt: HostRuntime) {
    assert!(rt; heard_beside(&rt, &Bell::new()));
}
