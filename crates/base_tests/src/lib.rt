//! The tests of what the other crates stand on: powers, tags and key files, plans of timeouts, refusals, and which value comes
//! next; and of a client's side, over a stream in memory.
//!
//! They stand above the crates that they test (`powers`, `authenticators`, `protocol`, `timeouts`, `proposal_validity` and
//! `list_client`), since a crate that has tests is proved twice, once with them.
#![tactic(auto)]

#[cfg(test)]
mod tests;
