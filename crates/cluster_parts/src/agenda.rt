//! What is to happen, in order of time.

use std::alloc::{AllocError, Global};
use std::collections::BTreeMap;

/// When an event happens. Of two events of one millisecond the one that was made first comes first.
#[derive(Clone, Copy, PartialEq, Eq, PartialOrd, Ord)]
pub struct Moment {
    /// The virtual time, in milliseconds.
    pub at: u64,
    /// How many events were made before it.
    pub order: u64,
}

/// The events that are to happen.
#[derive(Drop)]
pub struct Agenda<E> {
    events: BTreeMap<Moment, E>,
    made: u64,
}

impl<E: Drop> Agenda<E> {
    /// No events. It takes no memory.
    pub fn new(alloc: Global) -> Agenda<E> {
        Agenda {
            events: BTreeMap::new(alloc),
            made: 0,
        }
    }

    /// Adds an event.
    pub fn add(&mut self, at: u64, event: E) -> Result<(), AllocError> {
        let moment = Moment {
            at,
            order: self.made,
        };
        self.made = self.made.saturating_add(1);
        match self.events.insert(moment, event) {
            Ok(_) => Ok(()),
            Err(_) => Err(AllocError),
        }
    }

    /// Takes the next event.
    pub fn next(&mut self) -> Option<(Moment, E)> {
        self.events.pop_first()
    }

    /// When the next event happens.
    pub fn next_at(&self) -> Option<u64> {
        let (moment, _) = self.events.first_key_value()?;
        Some(moment.at)
    }
}
