//! A validator's state with its journal.
//!
//! A plan is carried out whole or not at all: its record is saved, and then its change is applied, which can't fail (`carry_out`). A validator that
//! comes back makes its state of what its journal holds (`Restart`).
#![tactic(auto)]

mod carrying;
mod journal;
mod restart;

pub use carrying::{Fired, carry_out};
pub use journal::{NodeJournal, Unfired};
pub use restart::Restart;
