//! The tests of the threads around a node (`peer_threads`), over links and a clock in memory; and of what a peer holds beside its
//! node (`edge_frames`): frames that came too early, frames that are passed on, and when a node that is behind asks. Those of a node
//! that threads share (`locked_node`) are in `locks`.
//!
//! Each ends by itself: a link in memory fails after so many turns in which nothing came.
#![tactic(auto)]

#[cfg(test)]
mod locks;
#[cfg(test)]
mod same;
#[cfg(test)]
mod tests;
