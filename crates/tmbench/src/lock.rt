//! The lock over a node: how many frames a second threads hand in through it, beside a core alone; how long a read of the
//! status takes beside a thread that hands frames in; and how many items a second pass through a ring.

mod figures;
mod frames;
mod load;
mod passing;

use crate::fault::BenchFault;
use crate::lock::figures::{handled, passed, read};
use crate::lock::frames::CLIENTS;
use crate::words::Words;
use std::alloc::Global;
use std::rt::Clock;
use std::sync::Wait;
use std::thread::Threads;

/// The line of figures that the words ask for.
pub(crate) fn measured<R: Clock + Threads + Wait + Sync>(
    rt: &R,
    alloc: Global,
    mut words: Words,
) -> Result<String, BenchFault> {
    let part = words.word("handle, status or take")?;
    match part.as_str() {
        "handle" => {
            let threads = words.number("THREADS from 1 to 64", 1, u32::from(CLIENTS))?;
            handled(rt, alloc, threads, words.last_number("TURNS from 1 on", 1)?)
        }
        "status" => read(rt, alloc, words.last_number("TURNS from 1 on", 1)?),
        "take" => passed(rt, alloc, words.last_number("ITEMS from 1 on", 1)?),
        _ => Err(BenchFault::Wrong(part, "handle, status or take")),
    }
}
