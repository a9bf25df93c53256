//! Chance, out of one seed.

use rand_core::{Rng, SeedableRng};
use rand_pcg::Pcg64Mcg;
use std::alloc::{AllocError, Global};

/// A source of random numbers. Equal seeds give equal numbers.
#[derive(Drop)]
pub struct Chance {
    words: Pcg64Mcg,
}

impl Chance {
    /// The source of this seed.
    pub fn new(seed: u64) -> Chance {
        Chance {
            words: Pcg64Mcg::seed_from_u64(seed),
        }
    }

    /// Returns a number below the bound, or 0 where that is 0.
    pub fn below(&mut self, bound: u64) -> u64 {
        self.words.next_u64().checked_rem(bound).unwrap_or(0)
    }

    /// Returns a number from `least` to `most`, or `least` where that is the greater one.
    pub fn between(&mut self, least: u64, most: u64) -> u64 {
        let width = most.saturating_sub(least).saturating_add(1);
        least.saturating_add(self.below(width))
    }

    /// Returns a number from `least` to `most`, or `most` where `least` is the greater one.
    pub fn small(&mut self, least: u16, most: u16) -> u16 {
        let number = self.between(u64::from(least), u64::from(most));
        u16::try_from(number).unwrap_or(most).min(most)
    }

    /// Returns whether an event of this many percent happens.
    pub fn percent(&mut self, percent: u64) -> bool {
        self.below(100) < percent
    }

    /// Returns a place in a list of this length; none where it is empty.
    pub fn place(&mut self, length: usize) -> Option<usize> {
        if length == 0 {
            return None;
        }
        usize::try_from(self.below(length as u64)).ok()
    }

    /// Returns one of these numbers, or 0 where there are none.
    pub fn one_of(&mut self, numbers: &[u64]) -> u64 {
        match self.place(numbers.len()) {
            Some(place) => numbers.get(place).copied().unwrap_or(0),
            None => 0,
        }
    }

    /// Returns this many random bytes.
    pub fn bytes(&mut self, alloc: Global, count: u16) -> Result<Vec<u8>, AllocError> {
        let mut bytes = Vec::with_capacity(alloc, usize::from(count))?;
        for _ in 0..count {
            bytes.push(self.byte())?;
        }
        Ok(bytes)
    }

    /// Returns any byte.
    fn byte(&mut self) -> u8 {
        u8::try_from(self.below(256)).unwrap_or(0)
    }
}
