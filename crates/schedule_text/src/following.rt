//! A schedule's text with its report in it.

ghost use Rattle.std.specs.Prelude.{◌≡◌, ◌≢◌, ◌≤◌, ◌⊎◌, IfErr, OnOk};
ghost use Rattle.std.specs.Io.KnownBytes.{IsAtEnd};
ghost use Rattle.schedule_text.specs.Failures.{status_of};

use crate::fault::Failure;
use crate::margin::Margin;
use crate::program::read_text;
use crate::running::{Run, write_ends};
use crate::schedule::Schedule;
use crate::steps::{Step, Steps};
use crate::text::{is_executed, is_setup, kept_lines};
use std::alloc::{AllocError, Global};
use std::io::{BufRead, Write};
use std::slice::from_ref;

/// Reads a schedule to its end, runs it, and writes its lines, with what the report has of each under it. What the world's
/// beginning causes comes behind the setup, and how the validators end at the end. Each line of the report is a comment behind
/// `#` and four spaces; what the text has of an earlier report is left out.
///
/// Returns the exit status: 0, or that of the failure that is reported on `err`. `name` is the file's. Where an event can't happen its
/// line is the last one. Nothing is written of a text that is no schedule.
pub fn follow<R: BufRead, W: Write, E: Write>(
    alloc: Global,
    name: &str,
    reader: &mut R,
    out: &mut W,
    err: &mut E,
) -> u8
    ensures status { (result ≡ 0) ⊎ ((2 ≤ result) × (result ≤ 5)) }
    ensures quiet { result ≡ 2 → out.new ≡ out.old }

    // Nothing of the text is left unread.
    ensures read { result ≡ 0 → IsAtEnd (R.remaining reader.new) }
{
    match follow_reader(alloc, name, reader, out) {
        Ok(()) => 0,
        Err(failure) => failure.tell(err),
    }
}

/// Reads a schedule and writes it with its report.
fn follow_reader<'a, R: BufRead, W: Write>(
    alloc: Global,
    name: &'a str,
    reader: &mut R,
    out: &mut W,
) -> Result<(), Failure<'a>>
    ensures quiet { IfErr result (λ failure. status_of failure ≡ 2 → out.new ≡ out.old) }
    ensures read { OnOk result (IsAtEnd (R.remaining reader.new)) }
{
    let text = read_text(alloc, name, reader)?;
    follow_text(alloc, &text, out)
}

/// Writes a text with its report, where it is a schedule.
fn follow_text<'a, W: Write>(alloc: Global, text: &[u8], out: &mut W) -> Result<(), Failure<'a>>
    ensures { IfErr result (λ failure. status_of failure ≡ 2 → out.new ≡ out.old) }
{
    let schedule = Schedule::read(alloc, text)?;
    let followed = write_followed(alloc, text, &schedule, out);
    if out.flush().is_err() {
        return Err(Failure::CannotWrite);
    }
    followed
}

/// Writes a schedule's text with the report of its run.
fn write_followed<'a, W: Write>(
    alloc: Global,
    text: &[u8],
    schedule: &Schedule,
    out: &mut W,
) -> Result<(), Failure<'a>>
    ensures { IfErr result (λ failure. status_of failure ≢ 2) }
{
    let lines = kept_lines(alloc, text)?;
    let mut follower = Follower::new(alloc, &lines, schedule)?;
    follower.write_lines(&lines, out)?;
    follower.write_ends(out)
}

/// A run that goes on line by line.
#[derive(Drop)]
struct Follower<'a> {
    run: Run<'a>,
    steps: Steps<'a>,
    /// The place of the last line of the setup.
    last_setup: usize,
}

impl<'a> Follower<'a> {
    /// Begins the run of a schedule whose text has these lines.
    fn new(
        alloc: Global,
        lines: &[&[u8]],
        schedule: &'a Schedule,
    ) -> Result<Follower<'a>, AllocError> {
        let last_setup = lines.iter().rposition(|line| is_setup(line));
        Ok(Follower {
            run: Run::new(alloc, schedule, Margin::Comment)?,
            steps: Steps::new(schedule),
            last_setup: last_setup.unwrap_or(0),
        })
    }

    /// Writes the lines, and under each what it causes.
    fn write_lines<'f, W: Write>(&mut self, lines: &[&[u8]], out: &mut W) -> Result<(), Failure<'f>>
        ensures { IfErr result (λ failure. status_of failure ≢ 2) }
    {
        for (place, line) in lines.iter().enumerate() {
            write_kept(line, out)?;
            self.write_caused(place, line, out)?;
        }
        Ok(())
    }

    /// Writes what the line at this place causes.
    fn write_caused<'f, W: Write>(
        &mut self,
        place: usize,
        line: &[u8],
        out: &mut W,
    ) -> Result<(), Failure<'f>>
        ensures { IfErr result (λ failure. status_of failure ≢ 2) }
    {
        if place == self.last_setup {
            // (a run of no event reports the world's beginning)
            self.run.tell_events(&[], out)?;
            return Ok(());
        }
        if is_executed(line) {
            return self.write_step(out);
        }
        Ok(())
    }

    /// Writes what the next executed line causes.
    fn write_step<'f, W: Write>(&mut self, out: &mut W) -> Result<(), Failure<'f>>
        ensures { IfErr result (λ failure. status_of failure ≢ 2) }
    {
        match self.steps.next() {
            Some(Step::Event(event)) => {
                self.run.tell_events(from_ref(event), out)?;
                Ok(())
            }
            Some(Step::State(validator)) => self.run.tell_state(validator, out),
            None => Ok(()),
        }
    }

    /// Writes how the validators end.
    fn write_ends<'f, W: Write>(&mut self, out: &mut W) -> Result<(), Failure<'f>>
        ensures { IfErr result (λ failure. status_of failure ≢ 2) }
    {
        let report = self.run.tell_events(&[], out)?;
        write_ends(Margin::Comment, report.ends.as_slice(), out)
    }
}

/// Writes a line of the schedule, and its line feed.
fn write_kept<'a, W: Write>(line: &[u8], out: &mut W) -> Result<(), Failure<'a>>
    ensures { IfErr result (λ failure. status_of failure ≡ 5) }
{
    if out.write_all(line).is_err() || out.write_all(b"\n").is_err() {
        return Err(Failure::CannotWrite);
    }
    Ok(())
}
