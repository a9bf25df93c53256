//! Powers, keys, plans, refusals, values and sessions that come next, and a client's side.

mod clients;
mod key_files;
mod next_values;
mod plans;
mod quorums;
mod refusals;
mod sessions;
mod standings;
mod tags;

use std::fmt::Debug;
use std::process::Abort;

/// Ends the test where what was found is not what is wanted, and shows both.
fn assert_same<R: Abort, T: PartialEq + Debug>(rt: &R, found: &T, wanted: &T) {
    assert_eq!(rt; found, wanted);
}
