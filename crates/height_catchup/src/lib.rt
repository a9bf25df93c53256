//! Catching up: the decisions that others may ask for, and the judging of one that another sends.
//!
//! A decision travels as a bundle: a value with precommits of its height for its id. Whoever trusts
//! nobody but its own keys can judge it: the precommits have to be those of a quorum.
#![tactic(auto)]

mod decisions;
mod judging;
mod vouching;

pub use decisions::Decisions;
pub use judging::judge;
pub use vouching::certified;
