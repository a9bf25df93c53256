//! The program, whatever its words are.

ghost use Rattle.std.specs.Prelude.{◌≡◌, ◌≤◌, IfOk};

use crate::validator::run;
use client_program::send;
use config_file::{all_words, config_named, read_config};
use journal_program::show_journal;
use key_files::write_keys;
use node_settings::{Failure, Invocation, Page, settings};
use std::convert::AsStr;
use std::fs::File;
use std::io::Write;
use std::net::{Net, TcpListener, TcpStream};
use std::random::RandomSource;
use std::rt::Files;
use std::sync::Wait;
use std::thread::Threads;
use std::time::Clock;

/// Runs the program with these words, of which the first is its name. Answers the exit status: 0 or 1, or that of the failure
/// that is told on `err`. A write that fails is passed over. What happens to links is logged on `rt`'s standard error.
pub fn node_program<
    R: Eprint
        + Threads
        + Wait
        + Clock
        + Net<Stream = TcpStream, Listener = TcpListener>
        + Files<File = File>
        + AllocGlobal
        + RandomSource
        + Sync,
    T: AsStr,
    W: Write + Send + Drop,
    E: Write,
>(rt: &R, words: &[T], out: W, err: &mut E) -> u8
    ensures { result ≤ 8 }
{
    match outcome(rt, words, out) {
        Ok(status) => status,
        Err(failure) => tell(failure, err),
    }
}

/// What comes of the words, and of those in the configuration file that they name: the exit status, or why the program ends early.
fn outcome<
    R: Eprint
        + Threads
        + Wait
        + Clock
        + Net<Stream = TcpStream, Listener = TcpListener>
        + Files<File = File>
        + AllocGlobal
        + RandomSource
        + Sync,
    T: AsStr,
    W: Write + Send + Drop,
>(rt: &R, words: &[T], out: W) -> Result<u8, Failure>
    ensures { IfOk result (λ status. status ≤ 1) }
{
    match config_named(words) {
        Some(name) => outcome_with(rt, words, &read_config(rt, name, words)?, out),
        None => outcome_of(rt, words, out),
    }
}

/// What comes of the words and of those of a configuration file.
fn outcome_with<
    R: Eprint
        + Threads
        + Wait
        + Clock
        + Net<Stream = TcpStream, Listener = TcpListener>
        + Files<File = File>
        + AllocGlobal
        + RandomSource
        + Sync,
    T: AsStr,
    W: Write + Send + Drop,
>(rt: &R, words: &[T], configured: &[String], out: W) -> Result<u8, Failure>
    ensures { IfOk result (λ status. status ≤ 1) }
{
    match all_words(rt.alloc(), words, configured) {
        Ok(all) => outcome_of(rt, &all, out),
        Err(_) => Err(Failure::OutOfMemory),
    }
}

/// What comes of the words that there are.
fn outcome_of<
    R: Eprint
        + Threads
        + Wait
        + Clock
        + Net<Stream = TcpStream, Listener = TcpListener>
        + Files<File = File>
        + AllocGlobal
        + RandomSource
        + Sync,
    T: AsStr,
    W: Write + Send + Drop,
>(rt: &R, words: &[T], mut out: W) -> Result<u8, Failure>
    ensures { IfOk result (λ status. status ≤ 1) }
{
    match settings(rt.alloc(), words)? {
        Invocation::Run(settings) => run(rt, settings, out),
        Invocation::Send(settings) => send(rt, settings, out),
        Invocation::Keys(settings) => write_keys(rt, settings),
        Invocation::Journal(settings) => show_journal(rt, &settings, out),
        Invocation::Page(page) => Ok(print_page(&mut out, &page)),
    }
}

/// Prints a page. A failed write is passed over.
fn print_page<W: Write>(out: &mut W, page: &Page) -> u8
    ensures { result ≡ 0 }
{
    let _ = write!(out, "{page}");
    let _ = out.flush();
    0
}

/// Tells a failure, and answers its exit status. A failed write is passed over.
pub fn tell<E: Write>(failure: Failure, err: &mut E) -> u8
    ensures { result ≤ 8 }
{
    let _ = writeln!(err, "{failure}");
    let _ = err.flush();
    failure.status()
}
