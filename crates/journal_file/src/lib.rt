//! A journal's bytes in a file of the operating system.
//!
//! No contract can say what a file holds. What a [`FileStore`] promises is told of a record of what its file was asked to
//! keep, which takes no memory: that a disk keeps it so is a premise.
#![tactic(auto)]

mod asked;
mod file;

pub use file::{FileFault, FileStore};
