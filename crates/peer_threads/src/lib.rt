//! The threads around a node: one reads and one writes for each peer, one is for the time, and one dials.
//!
//! [`serve`] runs them until enough is delivered, no peer is left, or the node has halted. They share
//! the node, which is locked for each call, what decides around it (`peer_core`) with the queues of what is to be sent, under one
//! lock, and whether all is to end. No thread spins: each waits for its link, its queue, its bell or the clock.
//!
//! What is sent to whom, when, and which addresses are dialed is decided by `peer_core`: here are loops, locks and sockets. That a
//! thread gets on, and so that anything is decided, is claimed by no contract.
#![tactic(auto)]

mod answers;
mod batch;
mod beside;
mod departed;
mod desk;
mod handing;
mod log_budget;
mod outlets;
mod patience;
mod reading;
mod sending;
mod serving;
mod shared;
mod tagging;
mod timing;

pub use outlets::MOST_OPEN_LINKS;
pub use peer_links::Bell;
pub use serving::{Pace, serve, serve_at_pace};
pub use shared::Ending;
pub use timing::{MOST_WAIT_MS, wait_until};
