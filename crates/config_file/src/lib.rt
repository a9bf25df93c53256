//! A configuration file of `tmnode run`: TOML, in which each entry is an option by its name.
//!
//! A value is a text, a whole number, or a list of these for an option that takes words with commas between them. What the file
//! says is put behind the words of the command line, which win: an option that is given there is left out.
#![tactic(auto)]

mod entry;
mod fault;
mod named;
mod reading;

pub use fault::ConfigFault;
pub use named::config_named;
pub use reading::{all_words, read_config, words_of};
