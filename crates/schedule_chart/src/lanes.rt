//! Lanes.

ghost use Rattle.std.specs.Prelude.{◌≡◌, ◌<◌, IfSome};
ghost use Rattle.schedule_chart.specs.Extent.{lane_x};

use crate::lane::{Lane, Party};
use crate::place::Place;
use crate::words::before;
use indexmap::IndexMap;
use std::alloc::{AllocError, Global};

/// Where the first lane is, right of the texts of the rows.
const FIRST_LANE: usize = 300;
/// How far lanes are from one another.
const LANE_WIDTH: usize = 150;

/// The lanes: those of the validators, and then those of clients, in the order in which they first take part.
#[derive(Drop)]
pub(crate) struct Lanes {
    each: Vec<Lane>,
    validators: usize,
    /// The lane of a client.
    clients: IndexMap<u16, usize>,
}

impl Lanes {
    /// Begins with none.
    pub(crate) fn new(alloc: Global) -> Lanes {
        Lanes {
            each: Vec::new(alloc),
            validators: 0,
            clients: IndexMap::new(alloc),
        }
    }

    /// Returns them in order.
    pub(crate) fn as_slice(&self) -> &[Lane]
        ensures { result.now ≡ self.now.each.items }
    {
        self.each.as_slice()
    }

    /// Adds a lane for each validator.
    pub(crate) fn add_validators(&mut self, count: usize) -> Result<(), AllocError> {
        for validator in 0..count {
            self.each.push(Lane::new(Party::Validator(validator)))?;
        }
        self.validators = self.each.len();
        Ok(())
    }

    /// Notes that a validator is Byzantine.
    pub(crate) fn note_liar(&mut self, word: &str) {
        if let Some(number) = self.of_validator(word)
            && let Some(lane) = self.each.get_mut(number)
        {
            lane.lies = true;
        }
    }

    /// Returns how many of them are validators'.
    pub(crate) fn validators(&self) -> usize {
        self.validators
    }

    /// Returns whether a lane is a correct party's.
    pub(crate) fn is_correct(&self, lane: usize) -> bool {
        match self.each.get(lane) {
            Some(lane) => !lane.lies,
            None => false,
        }
    }

    /// Finds the lane of the validator that the word names.
    pub(crate) fn of_validator(&self, word: &str) -> Option<usize>
        ensures { IfSome result (λ number. number < self.now.validators) }
    {
        let number = word.parse::<usize>().ok()?;
        if number < self.validators {
            Some(number)
        } else {
            None
        }
    }

    /// Finds the lane of the client that the word names, in any session, and adds it where it isn't there.
    pub(crate) fn of_client(&mut self, word: &str) -> Result<Option<usize>, AllocError> {
        let Ok(number) = before(word, '.').parse::<u16>() else {
            return Ok(None);
        };
        match self.clients.get(&number) {
            Some(lane) => Ok(Some(*lane)),
            None => self.add_client(number),
        }
    }

    /// Adds a client's lane.
    fn add_client(&mut self, number: u16) -> Result<Option<usize>, AllocError> {
        let lane = self.each.len();
        self.each.push(Lane::new(Party::Client(number)))?;
        self.clients.insert(number, lane)?;
        Ok(Some(lane))
    }

    /// Finds the lane of the party that the word names: a validator as `v3`, a client as `c7`.
    pub(crate) fn of_party(&mut self, word: &str) -> Result<Option<usize>, AllocError> {
        match (word.strip_prefix('v'), word.strip_prefix('c')) {
            (Some(number), _) => Ok(self.of_validator(number)),
            (_, Some(number)) => self.of_client(number),
            _ => Ok(None),
        }
    }

    /// Takes the next free place on a lane in a row.
    pub(crate) fn take_place(&mut self, row: usize, lane: usize) -> Place {
        let slot = match self.each.get_mut(lane) {
            Some(lane) => lane.take_slot(row),
            None => 0,
        };
        Place { row, slot, lane }
    }

    /// Returns the place on a lane where messages come in a row.
    pub(crate) fn share_place(&mut self, row: usize, lane: usize) -> Place {
        let slot = match self.each.get_mut(lane) {
            Some(lane) => lane.share_slot(row),
            None => 0,
        };
        Place { row, slot, lane }
    }
}

/// Returns how far right a lane is.
pub(crate) fn lane_x(lane: usize) -> usize
    ensures { result ≡ lane_x lane }
{
    lane.saturating_mul(LANE_WIDTH).saturating_add(FIRST_LANE)
}
