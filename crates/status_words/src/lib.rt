//! The height and the number of delivered items of a node, as any thread reads them without a lock.
//!
//! They are two words. A [`Publisher`] stands with the node, under its lock, and stores them after
//! each step. Any thread that has a [`Seat`] reads them: it waits for nobody, and its answers go
//! back in neither part. Each word of an answer stood at the opening or was published, the two
//! perhaps by two calls of `publish`.
//!
//! What was published last is claimed of no answer: a reader may be told what its seat had seen.
#![tactic(auto)]

mod rule;
mod steps;
mod words;

pub use rule::Seen;
pub use words::{Node, Opened, Publisher, Seat, Status, Words};
