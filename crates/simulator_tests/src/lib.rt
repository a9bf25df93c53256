//! The tests of the simulators: of schedules, their reports and their diagrams, and of clusters.
//!
//! They stand above the crates that they test (`schedule_text` and `schedule_chart`; `cluster_parts`, `cluster_checks` and
//! `cluster_world`), since a crate that has tests is proved twice, once with them.
#![tactic(auto)]

#[cfg(test)]
mod tests;
