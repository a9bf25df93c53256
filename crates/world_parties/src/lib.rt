//! The parties of a world: which validators are correct and which lie, the clients, all their keys, and the frames of
//! what liars and clients send.
//!
//! The key of what FROM sends to TO is the SHA-256 digest (FIPS 180-4) of the text `tmsim FROM TO`, as `tmsim c7 v2`.
#![tactic(auto)]

mod fault;
mod keys;
mod lines;
mod parties;
mod sending;

pub use fault::FaultNumber;
pub use lines::{Bundling, Proposing, Tagged, Voting};
pub use parties::Parties;
