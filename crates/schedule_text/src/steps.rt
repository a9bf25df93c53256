//! The executed lines of a schedule, one by one.

use crate::schedule::{Schedule, Stretch};
use std::slice::Iter;
use world_schedule::Event;

/// An executed line.
#[derive(Clone, Copy)]
pub(crate) enum Step<'a> {
    Event(&'a Event),
    /// The validator whose state is told.
    State(u16),
}

/// The executed lines that are to come.
#[derive(Drop)]
pub(crate) struct Steps<'a> {
    events: Iter<'a, Event>,
    /// The validator whose state is told behind these events; none behind the last ones.
    validator: Option<u16>,
    stretches: Iter<'a, Stretch>,
    rest: &'a [Event],
}

impl<'a> Steps<'a> {
    /// Begins with the first one of a schedule.
    pub(crate) fn new(schedule: &'a Schedule) -> Steps<'a> {
        let mut stretches = schedule.stretches.iter();
        let rest = schedule.rest.as_slice();
        match stretches.next() {
            Some(first) => Steps {
                events: first.events.iter(),
                validator: Some(first.validator),
                stretches,
                rest,
            },
            None => Steps {
                events: rest.iter(),
                validator: None,
                stretches,
                rest,
            },
        }
    }

    /// Takes the next one.
    pub(crate) fn next(&mut self) -> Option<Step<'a>> {
        match self.events.next() {
            Some(event) => Some(Step::Event(event)),
            None => self.next_state(),
        }
    }

    /// Takes the state behind the events, and goes on to the events behind it.
    fn next_state(&mut self) -> Option<Step<'a>> {
        let validator = self.validator.take()?;
        match self.stretches.next() {
            Some(stretch) => {
                self.events = stretch.events.iter();
                self.validator = Some(stretch.validator);
            }
            None => self.events = self.rest.iter(),
        }
        Some(Step::State(validator))
    }
}
