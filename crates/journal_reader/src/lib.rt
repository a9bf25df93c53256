//! What stands in a validator's journal, for who looks at one: entry after entry, out of bytes that come in pieces, without the
//! validator's keys, also while it runs.
//!
//! Each entry is read by itself. Whether it may stand behind those before it, and whether a decision has a quorum, is judged
//! by the validator that opens the journal (`vote_journal`).
#![tactic(auto)]

mod entry;
mod reader;

pub use entry::Entry;
pub use reader::{Found, JournalReader};
