//! What threads share, each by itself, and links.

mod dialing;
mod links;
mod queue;
mod ring;
mod tcp;
mod words;

use peer_links::{Dialed, Dialer};
use std::fmt::Debug;
use std::process::Abort;
use std::sync::Wait;
use std::time::Clock;

/// Ends the test where what was found is not what is wanted, and shows both.
fn assert_same<R: Abort, T: PartialEq + Debug>(rt: &R, found: &T, wanted: &T) {
    assert_eq!(rt; found, wanted);
}

/// Dials of these validators, one after the other, come to this.
fn assert_dials<R: Abort + Wait + Clock, D: Dialer>(
    rt: &R,
    dialer: &mut D,
    dials: &[(u16, Dialed)],
) {
    for (validator, dialed) in dials {
        assert_same(rt, &dialer.dial(rt, *validator), dialed);
    }
}
