//! The program, after its file was opened.

ghost use Rattle.std.specs.Prelude.{◌≡◌, ◌≢◌, ◌≤◌, ◌⊎◌, [], IfOk, IfErr, OnOk};
ghost use Rattle.schedule_text.specs.Runs.{IsRunOf};
ghost use Rattle.std.specs.Io.KnownBytes.{IsAtEnd};
ghost use Rattle.schedule_text.specs.Failures.{status_of};

use crate::fault::Failure;
use crate::margin::Margin;
use crate::running::{Run, write_ends};
use crate::schedule::Schedule;
use std::alloc::Global;
use std::io;
use std::io::{BufRead, ErrorKind, Write};
use world_schedule::Report;

/// What the program is for, and how it is called.
pub const HELP: &str = "\
tmsim reads a schedule of what is done to a world of validators and clients, and prints the report of its run.

usage: tmsim FILE
       tmsim --follow FILE           the schedule, and under each line what it caused, as comments
       tmsim --chart OUT.svg FILE    a picture of the run in OUT.svg: validators side by side, time downwards
";

/// Reads a schedule to its end, runs it, and writes its report. Answers the exit status: 0, or that
/// of the failure that is told on `err`. `name` is the file's. Nothing is written of a text that is
/// no schedule.
pub fn simulate<R: BufRead, W: Write, E: Write>(
    alloc: Global,
    name: &str,
    reader: &mut R,
    out: &mut W,
    err: &mut E,
) -> u8
    ensures status { (result ≡ 0) ⊎ ((2 ≤ result) × (result ≤ 5)) }
    ensures quiet { result ≡ 2 → out.new ≡ out.old }

    // Nothing of the text is left unread.
    ensures read { result ≡ 0 → IsAtEnd (R.remaining reader.new) }
{
    match report(alloc, name, reader, out) {
        Ok(()) => 0,
        Err(failure) => failure.tell(err),
    }
}

impl Failure<'_> {
    /// Writes what is to be told of it, and answers the exit status.
    pub fn tell<E: Write>(self, err: &mut E) -> u8
        ensures { (result ≡ status_of self.entry) ⊎ (result ≡ 5) }
    {
        if matches!(self, Failure::CannotWrite) {
            return self.status();
        }
        match writeln!(err, "{self}") {
            Ok(()) => self.status(),
            Err(_) => Failure::CannotWrite.status(),
        }
    }
}

fn report<'a, R: BufRead, W: Write>(
    alloc: Global,
    name: &'a str,
    reader: &mut R,
    out: &mut W,
) -> Result<(), Failure<'a>>
    ensures quiet { IfErr result (λ failure. status_of failure ≡ 2 → out.new ≡ out.old) }
    ensures read { OnOk result (IsAtEnd (R.remaining reader.new)) }
{
    let text = read_text(alloc, name, reader)?;
    report_of(alloc, &text, out)
}

/// The report of a text.
fn report_of<'a, W: Write>(alloc: Global, text: &[u8], out: &mut W) -> Result<(), Failure<'a>>
    ensures { IfErr result (λ failure. status_of failure ≡ 2 → out.new ≡ out.old) }
{
    let schedule = Schedule::read(alloc, text)?;
    run(alloc, &schedule, out)
}

/// The whole text of the file.
pub(crate) fn read_text<'a, R: BufRead>(
    alloc: Global,
    name: &'a str,
    reader: &mut R,
) -> Result<Vec<u8>, Failure<'a>>
    ensures { OnOk result (IsAtEnd (R.remaining reader.new)) }
{
    let mut text = Vec::new(alloc);
    match reader.read_to_end(&mut text) {
        Ok(_) => Ok(text),
        Err(error) => Err(failed_read(&error, name)),
    }
}

/// The failure of a read of the file of this name.
fn failed_read<'a>(error: &io::Error, name: &'a str) -> Failure<'a> {
    match error.kind() {
        ErrorKind::OutOfMemory => Failure::OutOfMemory,
        _ => Failure::CannotRead(name),
    }
}

/// Runs a schedule, and writes its report to the end.
fn run<'a, W: Write>(alloc: Global, schedule: &Schedule, out: &mut W) -> Result<(), Failure<'a>>
    ensures { IfErr result (λ failure. status_of failure ≢ 2) }
{
    let told = write_report(alloc, schedule, out);
    if out.flush().is_err() {
        return Err(Failure::CannotWrite);
    }
    told
}

/// Writes the report of a schedule's run.
fn write_report<'a, W: Write>(
    alloc: Global,
    schedule: &Schedule,
    out: &mut W,
) -> Result<(), Failure<'a>>
    ensures { IfErr result (λ failure. status_of failure ≢ 2) }
{
    let report = reported(alloc, schedule, out)?;
    write_ends(Margin::Nothing, report.ends.as_slice(), out)
}

/// Runs a schedule, and writes what is told of it up to the ends. The world's report of the events behind the last state that
/// is told is the answer: without any, that of the whole.
fn reported<'a, W: Write>(
    alloc: Global,
    schedule: &Schedule,
    out: &mut W,
) -> Result<Report, Failure<'a>>
    ensures quiet { IfErr result (λ failure. status_of failure ≢ 2) }
    ensures whole { schedule.now.stretches.items ≡ [] → IfOk result (IsRunOf schedule.now) }
{
    let mut run = Run::new(alloc, schedule, Margin::Nothing)?;
    run.tell_stretches(&schedule.stretches, out)?;
    run.tell_events(&schedule.rest, out)
}
