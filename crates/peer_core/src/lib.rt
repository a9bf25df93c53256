//! A validator's edge as a pure machine: it has no threads, sockets or clock.
//!
//! [`PeerCore`] decides what a validator's threads do around its node: to whom each frame goes, which links are kept and which
//! addresses dialed, what is kept of frames that came too early and of those that are passed on, when the node asks, and which
//! timeout is due. Who runs it says what came and what time it is, hands in to the node what it says, and does what it says
//! until nothing is left to be done. `peer_threads` runs it with threads and sockets, `tmcluster` in virtual time.
//!
//! What it decides is only what is worth sending: nothing is taken for true because of a link.
#![tactic(auto)]

mod agenda;
mod answering;
mod budget;
mod choosing;
mod counting;
mod duty;
mod edge;
mod efforts;
mod frames;
mod grounds;
mod heading;
mod help;
mod holding;
mod idle;
mod link;
mod links;
mod manner;
mod outbox;
mod own;
mod quiet;
mod redial;
mod rest;
mod showing;
mod ticking;

pub use agenda::TICK_MS;
pub use answering::{Then, halts, may_release, reply_to, then_after};
pub use budget::Budget;
pub use counting::LinkCounts;
pub use duty::{Closing, Duty, OpenFault, Rank, Sending};
pub use edge::PeerCore;
pub use grounds::{Grounds, grounds_of, is_prevote_of, value_of};
pub use heading::{Heading, Kind, heading_of, headings_law, is_transaction};
pub use holding::HeldFrames;
pub use idle::{idle_height, idle_law};
pub use link::{Behind, PeerLink, Shown};
pub use links::{MOST_CLIENT_LINKS, MOST_STRANGERS, PeerLinks};
pub use manner::{Keeping, Manner};
pub use outbox::{MOST_WAITING, Outbox};
pub use own::{MOST_AGAIN, MOST_GREETING, OwnFrames};
pub use quiet::{has_transactions, is_quiet};
pub use redial::Redial;
pub use rest::Rest;
pub use showing::{is_news, is_taken_in, shown_by};
