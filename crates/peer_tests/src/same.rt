//! What each test compares by.

use std::fmt::Debug;
use std::process::Abort;

/// Ends the test where what was found is not what is wanted, and shows both.
pub(crate) fn assert_same<R: Abort, T: PartialEq + Debug>(rt: &R, found: &T, wanted: &T) {
    assert_eq!(rt; found, wanted);
}
