//! The tests of a validator's edge as a machine (`peer_core`), step by step, with times that they choose.
//!
//! They stand above the crate that they test, since a crate that has tests is proved twice, once with them.
#![tactic(auto)]

#[cfg(test)]
mod tests;
