//! The tests of what threads share: queues of frames, rings, words of a node's status, and links.
//!
//! They stand above the crates that they test (`link_queue`, `subscriber_ring`, `status_words`, `peer_links` and
//! `tcp_links`), since a crate that has tests is proved twice, once with them.
#![tactic(auto)]

#[cfg(test)]
mod tests;
