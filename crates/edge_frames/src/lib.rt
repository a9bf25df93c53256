//! What keeps a cluster moving, and lets an idle one rest, beside a node and without its rules: frames that
//! came too early, frames that are passed on, an own proposal of no transactions that waits, and when a
//! node that is behind asks.
//!
//! A peer holds one of each beside its node. Nothing here reads a frame: it is kept and given back as
//! it came. Times are milliseconds since a moment that the caller chose.
#![tactic(auto)]

mod catch_up;
mod early;
mod fault;
mod height_frames;
mod held;
mod link_frames;
mod turn;

pub use catch_up::CatchUp;
pub use early::{EarlyFrames, LinkId, MOST_LINKS};
pub use fault::{KeepFault, PassFault};
pub use height_frames::{HeightFrames, MOST_SENDER_BYTES, MOST_SENDER_FRAMES, SentFrame};
pub use held::HeldProposal;
pub use link_frames::{MOST_LINK_BYTES, MOST_LINK_FRAMES};
pub use turn::{MOST_TURN_BYTES, MOST_TURN_FRAMES, Turn, turn_from};
