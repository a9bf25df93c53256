//! Runs a simulated cluster from a seed: validators, clients, links and disks that fail, and Byzantine parties.
//!
//! It prints a line of result, the settings and the figures of the run. Where the run fails it prints the last 20 events before them,
//! and ends with status 1. Status 2 is for words that are no run's, 4 for want of memory, 5 for output that can't be written.
#![tactic(auto)]

mod running;
mod words;

use crate::running::{Trouble, done};
use crate::words::{Invocation, WordsFault, read_words};
use std::alloc::Global;
use std::env;
use std::io::{BufWriter, ErrorKind, Write};
use std::process::ExitCode;
use std::rt::Env;

fn main(rt: HostRuntime) -> ExitCode {
    let mut err = rt.stderr();
    let status = match words_given(&rt) {
        Ok(words) => program(rt.alloc(), &words, rt.stdout(), &mut err),
        Err(fault) => refuse(fault, &mut err),
    };
    ExitCode::from(status)
}

/// The program's name and its arguments, where there is memory for them and each is text.
fn words_given(rt: &(impl Env + AllocGlobal)) -> Result<Vec<String>, WordsFault> {
    let mut words = Vec::new(rt.alloc());
    let args = match env::args(rt) {
        Ok(args) => args,
        Err(error) if error.kind() == ErrorKind::OutOfMemory => {
            return Err(WordsFault::OutOfMemory);
        }
        Err(_) => return Err(WordsFault::Usage),
    };
    for word in args {
        words.push(word)?;
    }
    Ok(words)
}

/// Prints what is wrong with the words, and returns the exit status.
fn refuse<E: Write>(fault: WordsFault, err: &mut E) -> u8 {
    match fault {
        WordsFault::OutOfMemory => tell(Trouble::OutOfMemory, err),
        WordsFault::Usage => {
            let _ = writeln!(err, "{fault}");
            Trouble::Usage.status()
        }
    }
}

/// Prints why nothing came of it, and returns the exit status.
fn tell<E: Write>(trouble: Trouble, err: &mut E) -> u8 {
    let _ = writeln!(err, "tmcluster: {trouble}");
    trouble.status()
}

/// Does what the words ask for, and returns the exit status.
fn program<W: Write + Drop, E: Write>(alloc: Global, words: &[String], out: W, err: &mut E) -> u8 {
    let invocation = match read_words(alloc, words) {
        Ok(invocation) => invocation,
        Err(fault) => return refuse(fault, err),
    };
    let Ok(mut out) = BufWriter::new(alloc, out) else {
        return tell(Trouble::OutOfMemory, err);
    };
    let ended = match invocation {
        Invocation::Run(wanted) => done(alloc, &wanted, &mut out),
        Invocation::Page(page) => write!(out, "{page}").map(|_| 0).map_err(Trouble::from),
    };
    let flushed = out.flush();
    match (ended, flushed) {
        (Ok(status), Ok(())) => status,
        (Err(trouble), _) => tell(trouble, err),
        (Ok(_), Err(_)) => tell(Trouble::CannotWrite, err),
    }
}
