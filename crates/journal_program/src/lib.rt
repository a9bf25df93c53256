//! `tmnode journal`: what a validator's journal holds, on standard output.
//!
//! The file is read and never written to, also while a validator has it open. With `--follow` it goes on as the journal grows.
#![tactic(auto)]

mod journal;
mod printer;
mod showing;

pub use showing::show_journal;
