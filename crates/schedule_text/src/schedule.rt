//! Schedules, and their reading.

use crate::cast::Cast;
use crate::fault::{LineFault, ReadFault};
use crate::items::{items_in, name_in};
use crate::lines::Forms;
use crate::numbers::{number_in_u16, number_in_u32};
use crate::values::{Values, value_of};
use crate::words::{is_silent, is_word, words_between};
use powers::Powers;
use std::alloc::Global;
use std::mem::replace;
use world_schedule::Event;

/// A schedule: who takes part, and what is done.
#[derive(Drop)]
pub(crate) struct Schedule {
    pub(crate) cast: Cast,
    pub(crate) values: Values,
    pub(crate) stretches: Vec<Stretch>,
    /// The events behind the last stretch.
    pub(crate) rest: Vec<Event>,
}

/// Events, and a validator whose state is told after them.
#[derive(Drop)]
pub(crate) struct Stretch {
    pub(crate) events: Vec<Event>,
    pub(crate) validator: u16,
}

/// The setup lines that came so far, those of values aside.
#[derive(Drop)]
enum Setup {
    Nothing,
    Powers(Powers),
    Cast(Cast),
}

/// Of which sort the line before is.
#[derive(Clone, Copy, PartialEq, Eq)]
enum Latest {
    Setup,
    Value,
    Executed,
}

/// What the lines so far say.
#[derive(Drop)]
struct Reading {
    alloc: Global,
    setup: Setup,
    latest: Latest,
    values: Values,
    stretches: Vec<Stretch>,
    events: Vec<Event>,
}

impl Reading {
    fn new(alloc: Global) -> Reading {
        Reading {
            alloc,
            setup: Setup::Nothing,
            latest: Latest::Setup,
            values: Values::new(alloc),
            stretches: Vec::new(alloc),
            events: Vec::new(alloc),
        }
    }

    /// Takes the lines of a text, up to the first bad one.
    fn take_text(&mut self, text: &[u8]) -> Result<(), ReadFault> {
        for (before, line) in text.split(|byte| *byte == b'\n').enumerate() {
            if let Err(fault) = self.take_line(line) {
                return Err(fault.at_line(before + 1));
            }
        }
        Ok(())
    }

    /// Takes a line; one that says nothing is skipped.
    fn take_line(&mut self, line: &[u8]) -> Result<(), LineFault> {
        if is_silent(line) {
            return Ok(());
        }
        let words = words_between(self.alloc, line, b' ')?;
        self.take_words(&words)
    }

    /// Takes a line of these words.
    fn take_words(&mut self, words: &[&[u8]]) -> Result<(), LineFault> {
        let [kind, rest @ ..] = words else {
            return Err(LineFault::BadLine);
        };
        if is_word(kind, "powers") {
            self.take_powers(rest)
        } else if is_word(kind, "clients") {
            self.take_clients(rest)
        } else if is_word(kind, "liars") {
            self.take_liars(rest)
        } else if is_word(kind, "value") {
            self.take_value(rest)
        } else {
            self.take_executed(kind, rest)
        }
    }

    /// `powers P P ..`
    fn take_powers(&mut self, words: &[&[u8]]) -> Result<(), LineFault> {
        let Setup::Nothing = self.setup else {
            return Err(LineFault::BadLine);
        };
        let mut powers = Vec::with_capacity(self.alloc, words.len())?;
        for word in words {
            powers.push(number_in_u32(word).ok_or(LineFault::BadLine)?)?;
        }
        match Powers::new(powers) {
            Ok(powers) => {
                self.setup = Setup::Powers(powers);
                Ok(())
            }
            Err(_) => Err(LineFault::BadLine),
        }
    }

    /// `clients N`
    fn take_clients(&mut self, words: &[&[u8]]) -> Result<(), LineFault> {
        let [count] = words else {
            return Err(LineFault::BadLine);
        };
        let count = number_in_u16(count).ok_or(LineFault::BadLine)?;
        match replace(&mut self.setup, Setup::Nothing) {
            Setup::Powers(powers) => {
                self.setup = Setup::Cast(Cast::honest(self.alloc, powers, count)?);
                Ok(())
            }
            _ => Err(LineFault::BadLine),
        }
    }

    /// `liars V V ..`
    fn take_liars(&mut self, words: &[&[u8]]) -> Result<(), LineFault> {
        let cast = self.cast()?;
        if self.latest != Latest::Setup || !cast.liars.is_empty() || words.is_empty() {
            return Err(LineFault::BadLine);
        }
        let mut liars = Vec::with_capacity(self.alloc, words.len())?;
        for word in words {
            liars.push(number_in_u16(word).ok_or(LineFault::BadLine)?)?;
        }
        self.setup = Setup::Cast(cast.with_liars(self.alloc, liars)?);
        Ok(())
    }

    /// `value NAME ITEM ..`
    fn take_value(&mut self, words: &[&[u8]]) -> Result<(), LineFault> {
        let [name, items @ ..] = words else {
            return Err(LineFault::BadLine);
        };
        let name = self.new_name(name).ok_or(LineFault::BadLine)?;
        let parties = &self.cast()?.parties;
        let value = value_of(self.alloc, &items_in(self.alloc, items, parties)?, parties)?;
        self.values.define(self.alloc, name, value)?;
        self.latest = Latest::Value;
        Ok(())
    }

    /// The name that the word is, which a value may have until a line is executed, and where none has it.
    fn new_name<'w>(&self, word: &'w [u8]) -> Option<&'w str> {
        let name = name_in(word)?;
        if self.latest != Latest::Executed && self.values.get(name).is_none() {
            Some(name)
        } else {
            None
        }
    }

    fn take_executed(&mut self, kind: &[u8], words: &[&[u8]]) -> Result<(), LineFault> {
        self.latest = Latest::Executed;
        if is_word(kind, "state") {
            return self.take_state(words);
        }
        let forms = Forms {
            alloc: self.alloc,
            parties: &self.cast()?.parties,
            values: &self.values,
        };
        let event = forms.event(kind, words)?;
        self.events.push(event)?;
        Ok(())
    }

    /// `state P`
    fn take_state(&mut self, words: &[&[u8]]) -> Result<(), LineFault> {
        let [validator] = words else {
            return Err(LineFault::BadLine);
        };
        let validator = self.cast()?.correct_in(validator)?;
        let events = replace(&mut self.events, Vec::new(self.alloc));
        self.stretches.push(Stretch { events, validator })?;
        Ok(())
    }

    /// Who takes part, once that is settled.
    fn cast(&self) -> Result<&Cast, LineFault> {
        match &self.setup {
            Setup::Cast(cast) => Ok(cast),
            _ => Err(LineFault::BadLine),
        }
    }

    /// The whole schedule, where it is settled who takes part.
    fn finish(self) -> Option<Schedule> {
        let Reading {
            alloc: _,
            setup,
            latest: _,
            values,
            stretches,
            events,
        } = self;
        match setup {
            Setup::Cast(cast) => Some(Schedule {
                cast,
                values,
                stretches,
                rest: events,
            }),
            _ => None,
        }
    }
}

impl Schedule {
    /// The schedule that the text is, or its first bad line.
    pub(crate) fn read(alloc: Global, text: &[u8]) -> Result<Schedule, ReadFault> {
        let mut reading = Reading::new(alloc);
        reading.take_text(text)?;
        reading
            .finish()
            .ok_or(ReadFault::BadLine(line_past_end(text)))
    }
}

/// The number of the line behind the last one, from 1 on. A line feed at the end of the text makes no
/// further line.
fn line_past_end(text: &[u8]) -> usize {
    let feeds = text.iter().filter(|byte| **byte == b'\n').count();
    match text {
        [] | [.., b'\n'] => feeds + 1,
        _ => feeds + 2,
    }
}
