//! The kinds of faults, and which of them are to come.

use std::fmt;

/// A kind of fault.
#[derive(Clone, Copy)]
pub enum Trouble {
    /// Links are cut or delayed.
    Cuts = 0,
    /// Links go on at one end alone, or bytes vanish on them.
    HalfOpen = 1,
    /// Some validators don't reach others for a while.
    Partitions = 2,
    /// Validators stop and start again.
    Stops = 3,
    /// Calls of their stores fail.
    Disks = 4,
    /// Their clocks run apart.
    Drift = 5,
    /// Byzantine validators.
    Liars = 6,
    /// Connections of nobody.
    Strangers = 7,
    /// A Byzantine client.
    Clients = 8,
    /// Its transactions have a right tag for one validator alone.
    Poison = 9,
}

/// All kinds of faults.
pub const TROUBLES: [Trouble; 10] = [
    Trouble::Cuts,
    Trouble::HalfOpen,
    Trouble::Partitions,
    Trouble::Stops,
    Trouble::Disks,
    Trouble::Drift,
    Trouble::Liars,
    Trouble::Strangers,
    Trouble::Clients,
    Trouble::Poison,
];

impl Trouble {
    /// Its word of the command line.
    pub fn word(self) -> &'static str {
        match self {
            Trouble::Cuts => "cuts",
            Trouble::HalfOpen => "halfopen",
            Trouble::Partitions => "partitions",
            Trouble::Stops => "stops",
            Trouble::Disks => "disks",
            Trouble::Drift => "drift",
            Trouble::Liars => "liars",
            Trouble::Strangers => "strangers",
            Trouble::Clients => "clients",
            Trouble::Poison => "poison",
        }
    }

    /// The kind of this word, if it is one's.
    pub fn of_word(word: &str) -> Option<Trouble> {
        TROUBLES
            .iter()
            .find(|trouble| trouble.word() == word)
            .copied()
    }
}

impl fmt::Display for Trouble {
    fn fmt<W: fmt::Write>(&self, f: &mut fmt::Formatter<W>) -> fmt::Result {
        let word = self.word();
        write!(f, "{word}")
    }
}

/// Which kinds of faults are to come.
#[derive(Clone, Copy, Debug, PartialEq, Eq)]
pub struct Troubles {
    to_come: [bool; 10],
}

impl Troubles {
    /// All of them but poison: proposals of a transaction whose tags are wrong for others are never decided, and where each validator has
    /// such a one nothing is.
    pub const ALL: Troubles = Troubles {
        to_come: [true, true, true, true, true, true, true, true, true, false],
    };

    /// None of them.
    pub const NONE: Troubles = Troubles {
        to_come: [false; 10],
    };

    /// Returns whether this kind is to come.
    pub fn has(&self, trouble: Trouble) -> bool {
        self.to_come.get(trouble as usize).copied().unwrap_or(false)
    }

    /// Lets this kind come or not.
    pub fn set(&mut self, trouble: Trouble, is_to_come: bool) {
        if let Some(place) = self.to_come.get_mut(trouble as usize) {
            *place = is_to_come;
        }
    }

    /// The kinds of these words, separated by commas; `all`, which is all but poison, and `none` are words too. None where a word is no
    /// kind's.
    pub fn of_words(words: &str) -> Option<Troubles> {
        let mut troubles = Troubles::NONE;
        for word in words.split(',') {
            match word {
                "all" => troubles.add(Troubles::ALL),
                "none" => {}
                _ => troubles.set(Trouble::of_word(word)?, true),
            }
        }
        Some(troubles)
    }

    /// Lets the other ones come too.
    fn add(&mut self, others: Troubles) {
        for trouble in TROUBLES {
            if others.has(trouble) {
                self.set(trouble, true);
            }
        }
    }
}

impl fmt::Display for Troubles {
    fn fmt<W: fmt::Write>(&self, f: &mut fmt::Formatter<W>) -> fmt::Result {
        let mut is_first = true;
        for trouble in TROUBLES {
            if self.has(trouble) {
                let comma = if is_first { "" } else { "," };
                write!(f, "{comma}{trouble}")?;
                is_first = false;
            }
        }
        if is_first {
            write!(f, "none")?;
        }
        Ok(())
    }
}
