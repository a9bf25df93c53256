//! The key files of validators and clients: making them for `tmnode keys`, and reading one's own.
//!
//! A key file is named by its party, `v0.keys` and so on and `c0.keys` and so on. Its owner alone may read and write it, and
//! none is ever overwritten.
#![tactic(auto)]

mod reading;
mod writing;

pub use reading::{memory_or, read_ring, read_rings};
pub use writing::write_keys;
