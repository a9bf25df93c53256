//! Links to peers, where they come from, and the time: what the threads of a peer stand on.
//!
//! A peer hands in two halves of one connection: one for the thread that reads and one for the thread
//! that writes. Here are the traits, and links and a clock in memory for tests, whose course the test
//! writes down before.
#![tactic(auto)]

mod bell;
mod clock;
mod link;
mod memory_clock;
mod memory_link;
mod memory_source;
mod wire;

pub use bell::Bell;
pub use clock::Clock;
pub use link::{Dialed, Dialer, Link, Links, Next, PIECE_BYTES, Peer, Received, Sent, Way};
pub use memory_clock::MemoryClock;
pub use memory_link::{MemoryLink, Step};
pub use memory_source::{MemoryDialer, MemoryLinks};
pub use wire::Wire;
