//! The journal of a validator: its own messages and decisions, saved before they are sent.
//!
//! A journal is the four bytes `TMJ1` and then records. A record is a length, four bytes, from 1 to 1,100,000, and that
//! many bytes: its kind, one byte, and what it holds.
//!
//! - 01: the body of an own proposal, an own prevote, or an own precommit for nil.
//! - 02: the body of an own precommit for a value, and then the value.
//! - 03: the bundle body of a decision under the own number, with the precommits that decided, in order of sender, each
//!   once.
//! - 04: the mark, once: the number of the form in four bytes, which is 2. Only behind it do transactions of later sessions
//!   stand in records. It says nothing of the validator, and what is told of a journal's records passes over it.
//!
//! Bodies and values are spelled as `messages` and `transactions` spell them. A stop may cut the last record short: what is
//! left of it is less than a whole record, and is cut away when the journal is opened again.
//!
//! The tests stand in `journal_tests`, so that this crate is proved once.
#![tactic(auto)]

mod fault;
mod journal;
mod keeping;
mod laws;
mod memory;
mod opening;
mod reading;
mod scanning;
mod spelling;
mod stages;
mod standing;
mod store;
mod striking;

pub use fault::JournalFault;
pub use journal::{Journal, Saved};
pub use laws::{
    follows_law, journal_law, kept_law, one_journal_law, served_law, stop_law,
    stopped_headline_law, stopped_law, torn_law,
};
pub use memory::MemoryStore;
pub use opening::{NotOpened, Opened};
pub use reading::read_record;
pub use scanning::{Front, front_of};
pub use spelling::{body_of, spell_own, spell_record};
pub use store::{DeviceFailed, Sink, Store, StoreFault};
pub use striking::{Strikes, StrikingStore};
