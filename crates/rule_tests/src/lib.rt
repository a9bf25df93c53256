//! The tests of the rules: which is enabled, and what each firing says; of the tally that they read; and of a validator's state and
//! its steps (`states`).
//!
//! They stand above the crates that they test (`round_machine`, `vote_tally` and `round_states`), since a crate that has tests is proved
//! twice, once with them.
#![tactic(auto)]

#[cfg(test)]
mod same;
#[cfg(test)]
mod states;
#[cfg(test)]
mod tests;
