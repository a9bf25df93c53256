//! Authenticators of messages: HMAC-SHA-256 tags under keys that two parties share.
#![tactic(auto)]

ghost use Rattle.authenticators.specs.Laws.{HeldLaw, GivenLaw, FaultLaw};

mod fault;
mod key;
mod key_file;
mod key_line;
mod key_ring;
mod party;
mod tagging;

pub use fault::KeysFault;
pub use key::Key;
pub use key_line::MOST_CLIENTS;
pub use key_ring::{KeyRing, tag_all};
pub use party::Party;
pub use tagging::{check, hmac, is_right};

/// The keys of a ring that is read are those of the file's lines: for each sender and receiver the one of the line about
/// them, and no two lines are about one pair.
pub fn held_law()
    ensures { HeldLaw }
{}

/// A ring is read exactly where each line that isn't skipped is a key line about the reader and known parties, none is
/// about the pair of an earlier one, and each key that the reader needs has its line.
pub fn given_law()
    ensures { GivenLaw }
{}

/// Which fault comes: that of the first line that is bad or repeats a pair, and where there is none, a missing key.
pub fn fault_law()
    ensures { FaultLaw }
{}
