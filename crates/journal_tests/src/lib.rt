//! The tests of journals, in memory and in files.
//!
//! They stand above the crates that they test (`vote_journal`, `journal_file`, `journal_reader` and `printed_lines`), since a crate that has tests is proved
//! twice, once with them.
#![tactic(auto)]

#[cfg(test)]
mod tests;
