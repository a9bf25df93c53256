//! The client of `tmnode send`: it signs transactions with its keys, sends them to validators, and prints the answers.
#![tactic(auto)]

mod connection;
mod framing;
mod many;
mod sending;

pub use sending::send;
