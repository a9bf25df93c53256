//! The gate of a node: the frames that it lets in before it looks at its state, and those that it lets out.
//!
//! A frame is let in if it spells a message of a known sender with a right tag: the message has a tag for each validator,
//! and the one for the node is right under the key that the sender and the node share. A transaction is let in without
//! that: its client and its tags are judged where it is queued, and refused by numbers of their own.
#![tactic(auto)]

ghost use Rattle.frame_admission.specs.Gate.{GateLaw};

mod admission;
mod examined;
mod own_frames;
mod tagger;
mod tags;

pub use admission::admit;
pub use examined::{Examined, Found, LetIn};
pub use own_frames::{bytes_of, frame_for, frame_of_body, frame_with, own_tags};
pub use tagger::{InTurn, Tagger};
pub use tags::is_genuine;

/// What the gate refuses, a node in any state refuses for the same cause; and against a message that is let in there
/// are no causes but those of the state.
pub fn gate_law()
    ensures { GateLaw }
{}
