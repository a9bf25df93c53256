//! The tests of the parts of a node over bytes: queues, bundles and frames.
//!
//! They stand above the crates that they test (`mempool`, `height_catchup` and `frame_admission`), since a crate that has
//! tests is proved twice, once with them.
#![tactic(auto)]

#[cfg(test)]
mod tests;
