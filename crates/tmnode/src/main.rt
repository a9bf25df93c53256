//! A validator that serves its peers over TCP, a client that sends transactions, or the maker of their key files.
#![tactic(auto)]

use node_program::{node_program, tell};
use node_settings::Failure;
use std::env;
use std::fs::{File, OpenOptions};
use std::io::{self, ErrorKind};
use std::process::ExitCode;
use std::rt::{Env, Files};

fn main(rt: HostRuntime) -> ExitCode {
    let _held = (nothing(&rt), nothing(&rt), nothing(&rt));
    let mut err = rt.stderr();
    let status = match words(&rt) {
        Ok(words) => node_program(&rt, &words, rt.stdout(), &mut err),
        Err(failure) => tell(failure, &mut err),
    };
    ExitCode::from(status)
}

/// A file that takes everything and has nothing. Where standard input, output or error is closed, one of three takes its place, which
/// the journal or a link would take else, so that lines of the list would stand in the journal.
fn nothing<R: Files<File = File>>(rt: &R) -> io::Result<File> {
    OpenOptions::new()
        .read(true)
        .write(true)
        .open(rt, "/dev/null")
}

/// The program's name and its arguments, where there is memory for them and each is text.
fn words(rt: &(impl Env + AllocGlobal)) -> Result<Vec<String>, Failure> {
    let mut words = Vec::new(rt.alloc());
    let args = match env::args(rt) {
        Ok(args) => args,
        Err(error) => return Err(failure_of(error.kind())),
    };
    for word in args {
        if words.push(word).is_err() {
            return Err(Failure::OutOfMemory);
        }
    }
    Ok(words)
}

/// Why there are no words: memory is short, or one of them is no text.
fn failure_of(kind: ErrorKind) -> Failure {
    match kind {
        ErrorKind::OutOfMemory => Failure::OutOfMemory,
        _ => Failure::Usage,
    }
}
