//! The tests of the formats: bodies, frames, streams of them, and replies; and of transactions and values, their spellings, ids and
//! lists (`values`).
//!
//! They stand above the crates that they test (`messages` and `transactions`), since a crate that has tests is proved twice, once
//! with them.
#![tactic(auto)]

#[cfg(test)]
mod same;
#[cfg(test)]
mod tests;
#[cfg(test)]
mod values;
