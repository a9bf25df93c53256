//! The addresses of validators.

ghost use Rattle.std.specs.Prelude.{◌≡◌, IfOk, None, if◌then◌else◌, ◌==◌, slice_get};

use std::alloc::{AllocError, Global};

/// The addresses of all validators, by their numbers, as one of them dials the others.
#[derive(Drop)]
pub(crate) struct Addresses<'a> {
    pub(crate) all: Vec<&'a str>,
    /// The own number.
    pub(crate) me: usize,
}

impl<'a> Addresses<'a> {
    /// Copies these addresses.
    pub(crate) fn new(
        alloc: Global,
        all: &[&'a str],
        me: usize,
    ) -> Result<Addresses<'a>, AllocError>
        ensures all { IfOk result (λ addresses. addresses.all.items ≡ all.now) }
        ensures me { IfOk result (λ addresses. addresses.me ≡ me) }
    {
        Ok(Addresses {
            all: all.to_vec(alloc)?,
            me,
        })
    }

    /// Returns the address of another validator, if this number is one's.
    pub(crate) fn other(&self, validator: u16) -> Option<&'a str>
        ensures { result ≡ (if validator == self.now.me then None else slice_get self.now.all.items validator) }
    {
        let place = usize::from(validator);
        if place == self.me {
            return None;
        }
        self.all.get(place).copied()
    }
}
