//! The tests of a node over bytes, and of worlds of such nodes.
//!
//! They stand above the crates that they test (`node_core`, `world_parties`, `world_schedule` and `stopped_cores`), since a crate
//! that has tests is proved twice, once with them.
#![tactic(auto)]

#[cfg(test)]
mod tests;
