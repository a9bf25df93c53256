//! Messages and replies, and the frames that spell them.
//!
//! Numbers are big-endian, and fields stand in order with nothing between them. A message is a body
//! and the tags behind it. The first byte of a body is its kind.
//!
//! - 01 and 02, a transaction without its tags, as `transactions` spells it: within its client's first
//!   session, and after it.
//! - 10, a proposal: height, eight bytes; round, four; sender, two; valid round, four, which are 0
//!   for none and else one more than it; value.
//! - 11, a prevote, and 12, a precommit: height, eight bytes; round, four; sender, two; then one byte,
//!   00 for nil, or 01 for a value, whose id follows in 32 bytes.
//! - 13, an ask: height, eight bytes; sender, two.
//! - 14, a bundle: height, eight bytes; sender, two; round, four; id, 32; value; the count of its
//!   precommits, one byte, at most 128, and for each its sender, two bytes, and its tags.
//!
//! What goes from one party to another is a frame: the length of its content, four bytes, at most
//! 1,048,576, and that much content. It is measured before anything in it is read. The content is a
//! message, its tags as `transactions` spells them; or, to a client alone, a reply: the kind 20, a
//! code, one byte, and an inner number, one byte.
//!
//! Each body, message and reply has one spelling at most, and bytes spell one of a sort at most.
#![tactic(auto)]

mod body;
mod frame_reader;
mod framing;
mod laws;
mod limits;
mod measuring;
mod reading;
mod replies;
mod writing;

pub use body::{
    Ask, Body, Bundle, Message, Precommit, Proposal, Step, Vote, same_proposal, same_vote,
};
pub use frame_reader::{FrameReader, WholeFrames};
pub use framing::{body_in, frame_of, read, spell};
pub use laws::pieces_law;
pub use limits::{LONGEST_CONTENT, MOST_PRECOMMITS};
pub use reading::read_body;
pub use replies::{Reply, read_reply, spell_reply};
pub use writing::spell_body;
