//! The words that the program is called with.

use crate::fault::BenchFault;
use std::env;
use std::env::Args;
use std::rt::Env;

/// The words that haven't been read.
#[derive(Drop)]
pub(crate) struct Words {
    left: Args,
}

impl Words {
    /// The words behind the program's name.
    pub(crate) fn given(rt: &(impl Env + AllocGlobal)) -> Result<Words, BenchFault> {
        let mut left = env::args(rt)?;
        let _ = left.next();
        Ok(Words { left })
    }

    /// The first word, where there is one.
    pub(crate) fn first(&mut self) -> Option<String> {
        self.left.next()
    }

    /// The next word, which has this name where it is missing.
    pub(crate) fn word(&mut self, name: &'static str) -> Result<String, BenchFault> {
        self.left.next().ok_or(BenchFault::Missing(name))
    }

    /// The next word, which is a number within these bounds.
    pub(crate) fn number(
        &mut self,
        name: &'static str,
        least: u32,
        most: u32,
    ) -> Result<u32, BenchFault> {
        let word = self.word(name)?;
        match word.as_str().parse() {
            Ok(number) if least <= number && number <= most => Ok(number),
            _ => Err(BenchFault::Wrong(word, name)),
        }
    }

    /// The last word, which is a number from `least` on.
    pub(crate) fn last_number(
        &mut self,
        name: &'static str,
        least: u32,
    ) -> Result<u32, BenchFault> {
        let number = self.number(name, least, u32::MAX)?;
        self.end()?;
        Ok(number)
    }

    /// Refuses a further word.
    pub(crate) fn end(&mut self) -> Result<(), BenchFault> {
        match self.left.next() {
            Some(word) => Err(BenchFault::Wrong(word, "the end")),
            None => Ok(()),
        }
    }
}
