//! The command.

ghost use Rattle.std.specs.Prelude.{◌≤◌, IfOk};

use crate::journal::Journal;
use crate::printer::{Printer, Stop};
use key_files::memory_or;
use node_settings::{Failure, JournalSettings, JournalTrouble};
use printed_lines::End;
use std::fs::File;
use std::io::Write;
use std::rt::Files;
use std::sync::Wait;
use std::thread;
use std::time::{Clock, Duration};
use vote_journal::JournalFault;

/// How long it waits until it looks whether a journal has grown, in milliseconds.
const TURN_MS: u64 = 100;

/// Prints what the journal holds, and returns the exit status: 0, or 1 where the output can't be written. What is no journal's
/// is told where it stands, and is a failure.
pub fn show_journal<R: Files<File = File> + AllocGlobal + Wait + Clock, W: Write + Drop>(
    rt: &R,
    settings: &JournalSettings<'_>,
    out: W,
) -> Result<u8, Failure>
    ensures { IfOk result (λ status. status ≤ 1) }
{
    match show(rt, settings, out) {
        Ok(()) => Ok(0),
        Err(Stop::Unwritten) => Ok(1),
        Err(Stop::Failed(failure)) => Err(failure),
    }
}

fn show<R: Files<File = File> + AllocGlobal + Wait + Clock, W: Write + Drop>(
    rt: &R,
    settings: &JournalSettings<'_>,
    out: W,
) -> Result<(), Stop> {
    let unopened = Failure::Journal(JournalTrouble::Unopened);
    let file = File::open(rt, settings.file).map_err(|error| memory_or(&error, unopened))?;
    let mut journal = Journal::new(rt.alloc(), file);
    let mut printer = Printer::new(rt.alloc(), out, settings)?;
    let ended = show_until_end(rt, settings, &mut journal, &mut printer);
    printer.flush()?;
    ended
}

/// Prints the journal to its end, and on as it grows if that is wanted.
fn show_until_end<R: AllocGlobal + Wait + Clock, W: Write + Drop>(
    rt: &R,
    settings: &JournalSettings<'_>,
    journal: &mut Journal,
    printer: &mut Printer<W>,
) -> Result<(), Stop> {
    for _ in rt.forever() {
        let end = print_file(rt, journal, printer)?;
        if !settings.follows || end == End::Bad {
            return finish(journal, printer, end);
        }
        printer.flush()?;
        thread::sleep(rt, Duration::from_millis(TURN_MS));
        journal.go_back()?;
    }
    Ok(())
}

/// Prints where the journal ends, if that is within an entry, and fails where it is none any more.
fn finish<W: Write + Drop>(
    journal: &Journal,
    printer: &mut Printer<W>,
    end: End,
) -> Result<(), Stop> {
    if end != End::Torn(0) {
        printer.print_end(journal.offset(), end)?;
    }
    match end {
        End::Torn(_) => Ok(()),
        End::Bad => Err(Stop::Failed(Failure::Journal(JournalTrouble::BadRecord))),
    }
}

/// Prints what the file holds by now, and returns how it ends.
fn print_file<R: AllocGlobal + Wait, W: Write + Drop>(
    rt: &R,
    journal: &mut Journal,
    printer: &mut Printer<W>,
) -> Result<End, Stop> {
    for _ in rt.forever() {
        if !print_fed(rt, journal, printer)? {
            return Ok(End::Bad);
        }
        if !journal.feed()? {
            break;
        }
    }
    Ok(End::Torn(journal.left()))
}

/// Prints the whole entries that were read of the file, and returns whether all are entries.
fn print_fed<R: AllocGlobal + Wait, W: Write + Drop>(
    rt: &R,
    journal: &mut Journal,
    printer: &mut Printer<W>,
) -> Result<bool, Stop> {
    for _ in rt.forever() {
        match journal.next_entry(rt.alloc()) {
            Ok(Some(found)) => printer.print(rt.alloc(), &found)?,
            Ok(None) => break,
            Err(JournalFault::BadRecord) => return Ok(false),
            Err(fault) => return Err(Stop::Failed(fault.into())),
        }
    }
    Ok(true)
}
