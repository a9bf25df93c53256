//! How many frames a second one validator of four takes in, beside the time of the hashing that the frames need: each
//! message's own tag, and of a proposal also that of each transaction, and its id.

mod kinds;
mod turns;

use crate::fault::BenchFault;
use crate::frames::kinds::{Kind, frames_of};
use crate::frames::turns::Turns;
use crate::words::Words;
use std::alloc::Global;
use std::rt::Clock;

/// The line of figures that the words ask for.
pub(crate) fn measured(
    rt: &impl Clock,
    alloc: Global,
    mut words: Words,
) -> Result<String, BenchFault> {
    let kind = Kind::read(words.word("KIND")?)?;
    let count = words.last_number("TURNS", 0)?;
    let turns = Turns {
        alloc,
        frames: frames_of(alloc, kind)?,
        count,
    };
    turns.figures(rt)
}
