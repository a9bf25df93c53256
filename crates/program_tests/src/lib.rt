//! The tests of what the program stands on besides its node: its command line and configuration file, its key files, the count
//! of its links, the level of its log, and what it counts and reports.
//!
//! They stand above the crates that they test (`node_settings`, `config_file`, `key_making`, `counted_links`, `leveled_runtime`,
//! `node_meters`, `metered_store` and `node_metrics`), since a crate that has tests is proved twice, once with them.
#![tactic(auto)]

#[cfg(test)]
mod tests;
