//! The lines that the programs print: of a delivered item, and of what a journal holds. Each has its text by its contract.
#![tactic(auto)]

mod end_line;
mod hexadecimal;
mod item_line;
mod json;
mod record_line;

pub use end_line::{End, EndLine};
pub use item_line::ItemLine;
pub use json::Json;
pub use record_line::{Place, RecordLine, Said};
