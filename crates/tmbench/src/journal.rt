//! A journal on a file: how many saves a second it takes and what of them is the sync, and how many bytes a second its
//! opening takes, and what memory.

mod decisions;
mod openings;
mod saves;

use crate::fault::BenchFault;
use crate::journal::decisions::filled;
use crate::journal::openings::opened;
use crate::journal::saves::saved;
use crate::words::Words;
use std::fs::File;
use std::rt::{Clock, Files};

/// The line of figures that the words ask for.
pub(crate) fn measured<R: Clock + Files<File = File> + AllocGlobal>(
    rt: &R,
    mut words: Words,
) -> Result<String, BenchFault> {
    let part = words.word("save, fill or open")?;
    match part.as_str() {
        "save" => {
            let file = words.word("FILE")?;
            saved(rt, file.as_str(), words.last_number("COUNT", 0)?)
        }
        "fill" => {
            let file = words.word("FILE")?;
            filled(rt, file.as_str(), words.last_number("COUNT", 0)?)
        }
        "open" => {
            let file = words.word("FILE")?;
            words.end()?;
            opened(rt, file.as_str())
        }
        _ => Err(BenchFault::Wrong(part, "save, fill or open")),
    }
}
