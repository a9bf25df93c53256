//! Lines of a journal on standard output.

ghost use Rattle.std.specs.Prelude.{◌≡◌};
ghost use Rattle.journal_program.specs.Wanted.{height_of, is_wanted};

use journal_reader::{Entry, Found};
use messages::Bundle;
use node_settings::{Failure, JournalForm, JournalSettings};
use printed_lines::{End, EndLine, ItemLine, Json, RecordLine};
use protocol::Record;
use std::alloc::{AllocError, Global};
use std::io;
use std::io::{BufWriter, Write};

/// The most bytes that leave by one write.
const BLOCK_BYTES: usize = 65_536;

/// Why nothing more is printed.
#[derive(Clone, Copy, Debug)]
pub(crate) enum Stop {
    /// The output can't be written: nobody reads it any more, or there is no room.
    Unwritten,
    Failed(Failure),
}

impl From<Failure> for Stop {
    fn from(failure: Failure) -> Stop {
        Stop::Failed(failure)
    }
}

impl From<AllocError> for Stop {
    fn from(_error: AllocError) -> Stop {
        Stop::Failed(Failure::OutOfMemory)
    }
}

impl From<io::Error> for Stop {
    fn from(_error: io::Error) -> Stop {
        Stop::Unwritten
    }
}

/// The height that an entry is of. A mark is of none.
fn height_of(entry: &Entry) -> Option<u64>
    ensures { result ≡ height_of entry.now }
{
    match entry {
        Entry::Mark => None,
        Entry::Record { owner: _, record } => Some(match record {
            Record::Own(message) => message.height,
            Record::Decided(bundle) => bundle.height,
        }),
    }
}

/// Returns whether an entry is printed, where this height alone is wanted, if any.
fn is_wanted(wanted: Option<u64>, entry: &Entry) -> bool
    ensures { result ≡ is_wanted wanted (height_of entry.now) }
{
    match (wanted, height_of(entry)) {
        (None, _) => true,
        (Some(_), None) => false,
        (Some(wanted), Some(height)) => wanted == height,
    }
}

/// Prints what a journal holds, in one of its forms.
#[derive(Drop)]
pub(crate) struct Printer<W: Write + Drop> {
    out: BufWriter<W>,
    form: JournalForm,
    height: Option<u64>,
    /// How many items were delivered until now.
    position: u64,
}

impl<W: Write + Drop> Printer<W> {
    /// Nothing is printed yet.
    pub(crate) fn new(
        alloc: Global,
        out: W,
        settings: &JournalSettings<'_>,
    ) -> Result<Printer<W>, Failure> {
        let out = BufWriter::with_capacity(alloc, BLOCK_BYTES, out);
        Ok(Printer {
            out: out.map_err(|_| Failure::OutOfMemory)?,
            form: settings.form,
            height: settings.height,
            position: 0,
        })
    }

    /// Prints an entry, if it is wanted.
    pub(crate) fn print(&mut self, alloc: Global, found: &Found) -> Result<(), Stop> {
        let is_wanted = is_wanted(self.height, &found.entry);
        match self.form {
            JournalForm::Lines if is_wanted => {
                writeln!(self.out, "{}", RecordLine::of(alloc, found)?)?;
            }
            JournalForm::Json if is_wanted => {
                writeln!(self.out, "{}", Json(RecordLine::of(alloc, found)?))?;
            }
            JournalForm::List => self.print_items(&found.entry, is_wanted)?,
            JournalForm::Lines | JournalForm::Json => {}
        }
        Ok(())
    }

    /// Counts the items that an entry delivers, and prints them, if they are wanted.
    fn print_items(&mut self, entry: &Entry, is_wanted: bool) -> Result<(), Stop> {
        match entry {
            Entry::Record {
                owner: _,
                record: Record::Decided(bundle),
            } => self.print_decided(bundle, is_wanted),
            Entry::Record { .. } | Entry::Mark => Ok(()),
        }
    }

    fn print_decided(&mut self, bundle: &Bundle, is_wanted: bool) -> Result<(), Stop> {
        for tx in bundle.value.txs.as_slice() {
            if is_wanted {
                writeln!(self.out, "{}", ItemLine::of_tx(self.position, tx))?;
            }
            self.position = self.position.saturating_add(1);
        }
        Ok(())
    }

    /// Prints where the journal ends, but in a list.
    pub(crate) fn print_end(&mut self, offset: u64, end: End) -> Result<(), Stop> {
        let is_json = match self.form {
            JournalForm::Lines => false,
            JournalForm::Json => true,
            JournalForm::List => return Ok(()),
        };
        let line = EndLine {
            offset,
            end,
            is_json,
        };
        writeln!(self.out, "{line}")?;
        Ok(())
    }

    /// Lets go what waits to be written.
    pub(crate) fn flush(&mut self) -> Result<(), Stop> {
        Ok(self.out.flush()?)
    }
}
