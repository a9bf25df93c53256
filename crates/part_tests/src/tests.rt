//! What a node keeps of transactions and decisions, and what it lets in.

mod bundles;
mod examined;
mod frames;
mod queues;
mod sessions;

use std::fmt::Debug;
use std::process::Abort;

/// Ends the test where what was found is not what is wanted, and shows both.
fn assert_same<R: Abort, T: PartialEq + Debug>(rt: &R, found: &T, wanted: &T) {
    assert_eq!(rt; found, wanted);
}
