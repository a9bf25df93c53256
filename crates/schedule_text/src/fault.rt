//! Why a schedule isn't read, or its run ends early.

use std::alloc::{AllocError, AllocFailed};
use std::fmt;
use world_parties::FaultNumber;

/// Why a line isn't one of a schedule.
#[derive(Clone, Copy)]
pub(crate) enum LineFault {
    /// It is of no form, stands where none of its form may, or names what it may not.
    BadLine,
    OutOfMemory,
}

impl LineFault {
    /// The fault of a text whose line of this number, from 1 on, has this one.
    pub(crate) fn at_line(self, number: usize) -> ReadFault {
        match self {
            LineFault::BadLine => ReadFault::BadLine(number),
            LineFault::OutOfMemory => ReadFault::OutOfMemory,
        }
    }
}

impl From<AllocError> for LineFault {
    ghost use Rattle.std.specs.Prelude.{◌≡◌};
    ghost use Rattle.schedule_text.specs.declared.fault.LineFault.TheVariants.{OutOfMemory};

    ghost from_gives = { λ _ fault. fault ≡ OutOfMemory };

    fn from(_e: AllocError) -> LineFault {
        LineFault::OutOfMemory
    }
}

impl<T: Drop> From<AllocFailed<T>> for LineFault {
    ghost use Rattle.std.specs.Prelude.{◌≡◌};
    ghost use Rattle.schedule_text.specs.declared.fault.LineFault.TheVariants.{OutOfMemory};

    ghost from_gives = { λ _ fault. fault ≡ OutOfMemory };

    fn from(_e: AllocFailed<T>) -> LineFault {
        LineFault::OutOfMemory
    }
}

/// Why a text isn't a schedule.
#[derive(Clone, Copy)]
pub(crate) enum ReadFault {
    /// The first bad line, from 1 on; one more than there are, where the text ends too early.
    BadLine(usize),
    OutOfMemory,
}

/// Why the program ends early: the text that it tells on standard error, and its exit status.
#[derive(Clone, Copy, Debug)]
pub enum Failure<'a> {
    /// It was called with words of no form.
    Usage,
    /// The file of this name can't be opened, or be read to its end.
    CannotRead(&'a str),
    /// The first bad line, from 1 on.
    BadLine(usize),
    /// The event, of the executed lines from 1 on, and why it can't happen.
    Event(u64, FaultNumber),
    OutOfMemory,
    /// A write failed.
    CannotWrite,
}

impl Failure<'_> {
    ghost use Rattle.std.specs.Prelude.{◌≡◌};
    ghost use Rattle.schedule_text.specs.Failures.{status_of};

    /// The exit status.
    pub fn status(self) -> u8
        ensures { result ≡ status_of self.entry }
    {
        match self {
            Failure::Usage | Failure::CannotRead(_) | Failure::BadLine(_) => 2,
            Failure::Event(..) => 3,
            Failure::OutOfMemory => 4,
            Failure::CannotWrite => 5,
        }
    }
}

impl fmt::Display for Failure<'_> {
    fn fmt<W: fmt::Write>(&self, f: &mut fmt::Formatter<W>) -> fmt::Result {
        match self {
            Failure::Usage => f.write_str("tmsim: usage: tmsim FILE"),
            Failure::CannotRead(name) => write!(f, "tmsim: cannot read {name}"),
            Failure::BadLine(line) => write!(f, "tmsim: line {line}"),
            Failure::Event(event, fault) => {
                let number = *fault as u8;
                write!(f, "tmsim: event {event}: fault {number}")
            }
            Failure::OutOfMemory => f.write_str("tmsim: out of memory"),
            Failure::CannotWrite => f.write_str("tmsim: cannot write"),
        }
    }
}

impl From<ReadFault> for Failure<'_> {
    ghost use Rattle.std.specs.Prelude.{◌≡◌};
    ghost use Rattle.schedule_text.specs.Failures.{of_reading};

    ghost from_gives = { λ fault failure. failure ≡ of_reading fault };

    fn from(fault: ReadFault) -> Self {
        match fault {
            ReadFault::BadLine(line) => Failure::BadLine(line),
            ReadFault::OutOfMemory => Failure::OutOfMemory,
        }
    }
}

impl From<AllocError> for Failure<'_> {
    ghost use Rattle.std.specs.Prelude.{◌≡◌};
    ghost use Rattle.schedule_text.specs.declared.fault.Failure.TheVariants.{OutOfMemory};

    ghost from_gives = { λ _ failure. failure ≡ OutOfMemory };

    fn from(_e: AllocError) -> Self {
        Failure::OutOfMemory
    }
}
