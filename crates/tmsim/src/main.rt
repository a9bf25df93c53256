//! Reads a schedule of what is done to a world of validators and clients, and prints the report of its run.
#![tactic(auto)]

mod words;

ghost use Rattle.std.specs.Prelude.{◌≡◌, ◌≤◌, ◌⊎◌};

use crate::words::{Form, Wanted};
use schedule_chart::Chart;
use schedule_text::{Failure, HELP, follow, simulate};
use std::io::{BufReader, BufWriter, ErrorKind, Write};
use std::process::ExitCode;
use std::rt::{Env, Files};
use std::{env, fs, io};

fn main(rt: HostRuntime) -> ExitCode {
    let mut err = rt.stderr();
    let status = match words_given(&rt) {
        Ok(words) => answer(&rt, &words, rt.stdout(), &mut err),
        Err(error) if error.kind() == ErrorKind::OutOfMemory => Failure::OutOfMemory.tell(&mut err),
        Err(_) => Failure::Usage.tell(&mut err),
    };
    ExitCode::from(status)
}

/// Returns the arguments.
fn words_given(rt: &(impl Env + AllocGlobal)) -> io::Result<Vec<String>> {
    let mut words = Vec::new(rt.alloc());
    for word in env::args(rt)?.skip(1) {
        words.push(word)?;
    }
    Ok(words)
}

/// Does what the words ask for, and returns the exit status.
fn answer<R: Files + AllocGlobal, W: Write + Drop, E: Write>(
    rt: &R,
    words: &[String],
    out: W,
    err: &mut E,
) -> u8
    ensures { (result ≡ 0) ⊎ ((2 ≤ result) × (result ≤ 5)) }
{
    let mut out = out;
    match Wanted::of_words(words) {
        Some(Wanted::Help) => help(&mut out, err),
        Some(Wanted::Print(form, name)) => run(rt, form, name, out, err),
        Some(Wanted::Chart { picture, name }) => run_chart(rt, picture, name, err),
        None => Failure::Usage.tell(err),
    }
}

/// Prints what the program is for.
fn help<W: Write, E: Write>(out: &mut W, err: &mut E) -> u8
    ensures { (result ≡ 0) ⊎ (result ≡ 5) }
{
    match out.write_all(HELP.as_bytes()) {
        Ok(()) => 0,
        Err(_) => Failure::CannotWrite.tell(err),
    }
}

/// Prints the run of the schedule in the file of this name.
fn run<R: Files + AllocGlobal, W: Write + Drop, E: Write>(
    rt: &R,
    form: Form,
    name: &str,
    out: W,
    err: &mut E,
) -> u8
    ensures { (result ≡ 0) ⊎ ((2 ≤ result) × (result ≤ 5)) }
{
    let alloc = rt.alloc();
    match (opened(rt, name), BufWriter::new(alloc, out)) {
        (Ok(mut reader), Ok(mut out)) => match form {
            Form::Report => simulate(alloc, name, &mut reader, &mut out, err),
            Form::Text => follow(alloc, name, &mut reader, &mut out, err),
        },
        (Err(failure), _) => failure.tell(err),
        _ => Failure::OutOfMemory.tell(err),
    }
}

/// Draws the run of the schedule in the file of this name, in the file `picture`, which is made anew.
fn run_chart<R: Files + AllocGlobal, E: Write>(rt: &R, picture: &str, name: &str, err: &mut E) -> u8
    ensures { (result ≡ 0) ⊎ ((2 ≤ result) × (result ≤ 5)) }
{
    let alloc = rt.alloc();
    let mut text = Vec::new(alloc);
    let status = match opened(rt, name) {
        Ok(mut reader) => follow(alloc, name, &mut reader, &mut text, err),
        Err(failure) => return failure.tell(err),
    };
    match status {
        0 | 3 => draw(rt, picture, &text, status, err),
        // (the text is written in memory)
        5 => Failure::OutOfMemory.tell(err),
        _ => status,
    }
}

/// Draws the run of a schedule that has its report in it. The exit status is that of the run, unless drawing fails.
fn draw<R: Files + AllocGlobal, E: Write>(
    rt: &R,
    picture: &str,
    text: &[u8],
    status: u8,
    err: &mut E,
) -> u8
    requires { (status ≡ 0) ⊎ (status ≡ 3) }
    ensures { (result ≡ 0) ⊎ ((2 ≤ result) × (result ≤ 5)) }
{
    match write_chart(rt, picture, text) {
        Ok(()) => status,
        Err(failure) => failure.tell(err),
    }
}

/// Writes the picture of a schedule that has its report in it.
fn write_chart<R: Files + AllocGlobal>(
    rt: &R,
    picture: &str,
    text: &[u8],
) -> Result<(), Failure<'static>> {
    let chart = Chart::read(rt.alloc(), text)?;
    let file = fs::create(rt, picture).map_err(failed_write)?;
    let mut out = BufWriter::new(rt.alloc(), file).map_err(failed_write)?;
    write!(out, "{chart}").map_err(failed_write)?;
    out.flush().map_err(failed_write)
}

/// Returns the failure of a write of the picture.
fn failed_write(error: io::Error) -> Failure<'static> {
    match error.kind() {
        ErrorKind::OutOfMemory => Failure::OutOfMemory,
        _ => Failure::CannotWrite,
    }
}

/// Opens the file of this name.
fn opened<'a, R: Files + AllocGlobal>(
    rt: &R,
    name: &'a str,
) -> Result<BufReader<R::File>, Failure<'a>> {
    let file = match fs::open(rt, name) {
        Ok(file) => file,
        Err(error) if error.kind() == ErrorKind::OutOfMemory => return Err(Failure::OutOfMemory),
        Err(_) => return Err(Failure::CannotRead(name)),
    };
    match BufReader::new(rt.alloc(), file) {
        Ok(reader) => Ok(reader),
        Err(_) => Err(Failure::OutOfMemory),
    }
}
