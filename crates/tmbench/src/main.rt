//! Measures parts of a validator: how long its node takes for a frame, the lock over a node, and a journal on a file.
#![tactic(auto)]

mod fault;
mod frames;
mod framing;
mod journal;
mod lock;
mod node;
mod words;

use crate::fault::BenchFault;
use crate::words::Words;
use std::fs::File;
use std::io::Write;
use std::process::ExitCode;
use std::rt::{Clock, Env, Files};
use std::sync::Wait;
use std::thread::Threads;

/// What the program is for, and how it is called.
const HELP: &str = "\
tmbench measures a part of a validator on this machine, and prints a line of figures.

usage: tmbench frames KIND TURNS            how long a node takes for a frame
       tmbench lock handle THREADS TURNS    how long threads, 1 to 64, take to hand frames to the node that they share
       tmbench lock status TURNS            how long a read of a node's status takes
       tmbench lock take ITEMS              how long items take through a subscriber's ring, from one thread to another
       tmbench journal save FILE COUNT      how long a save of a prevote takes, and an append and a sync of as many bytes
       tmbench journal fill FILE COUNT      writes a journal of decisions, of 256 transactions of 1,024 bytes each
       tmbench journal open FILE            how long it takes to open such a journal, and the memory of the process after it

KIND is prevotes (30 frames to a turn), transactions (512) or proposal (1, of 256 transactions). Each turn begins with a new
node. The time of the hashing that the frames need is measured alone, too.
The quickest of the turns of `lock` counts. The FILE that `save` or `fill` writes must not be there before.
";

fn main(rt: HostRuntime) -> ExitCode {
    match asked(&rt) {
        Ok(text) => match rt.stdout().write_all(text.as_bytes()) {
            Ok(()) => ExitCode::SUCCESS,
            Err(_) => ExitCode::from(5),
        },
        Err(fault) => {
            let _ = writeln!(rt.stderr(), "tmbench: {fault}");
            ExitCode::from(2)
        }
    }
}

/// What the words ask for: the help, or figures.
fn asked<R: Clock + Env + Files<File = File> + Threads + Wait + AllocGlobal + Sync>(
    rt: &R,
) -> Result<String, BenchFault> {
    let alloc = rt.alloc();
    let mut words = Words::given(rt)?;
    let Some(part) = words.first() else {
        return Ok(String::from_str(alloc, HELP)?);
    };
    match part.as_str() {
        "--help" | "-h" => Ok(String::from_str(alloc, HELP)?),
        "frames" => frames::measured(rt, alloc, words),
        "lock" => lock::measured(rt, alloc, words),
        "journal" => journal::measured(rt, words),
        _ => Err(BenchFault::Wrong(part, "frames, lock or journal")),
    }
}
