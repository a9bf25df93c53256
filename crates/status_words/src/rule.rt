//! The rule of the two words: they are what was published last, and nobody has seen another word.
//!
//! It is the `TableRule` of their table. Each step of a seat or of the publishing pass is proved to
//! keep it, whatever the others did before.

use crate::words::Status;
use atomic_table::{Join, Play, Split, TableRule};
use std::collections::LinkedList;

/// A pair of words, and each word that was stored or loaded, in order.
///
/// Only proofs speak of it; no value of it is made.
pub struct Seen {
    pub height: u64,
    pub delivered: u64,
    pub heights: LinkedList<u64>,
    pub counts: LinkedList<u64>,
}

/// What a seat or the publishing pass knows: what it has seen or published, and what it was shown.
///
/// Only proofs speak of it; no value of it is made.
pub struct Sight {
    pub publishes: bool,
    pub own: Seen,
    pub shown: Seen,
}

/// The rule of all words.
pub struct Published;

impl TableRule<(), Sight, Status> for Published {
    ghost use Rattle.status_words.specs.Seen.{opened};
    ghost use Rattle.status_words.specs.Rule.{publishing, Keeps};

    ghost holds = { λ k s. Keeps s };

    ghost first = { λ k. publishing (opened k.height k.delivered) };
}

/// The publishing pass stores a height.
pub struct StoresHeight;

impl Play<(), Sight> for StoresHeight {
    ghost use Rattle.status_words.specs.Plays.{StoredHeight};

    ghost then = { StoredHeight };
}

/// The publishing pass stores a number of delivered items.
pub struct StoresDelivered;

impl Play<(), Sight> for StoresDelivered {
    ghost use Rattle.status_words.specs.Plays.{StoredDelivered};

    ghost then = { StoredDelivered };
}

/// A seat loads the height.
pub struct LoadsHeight;

impl Play<(), Sight> for LoadsHeight {
    ghost use Rattle.status_words.specs.Plays.{LoadedHeight};

    ghost then = { LoadedHeight };
}

/// A seat loads the number of delivered items.
pub struct LoadsDelivered;

impl Play<(), Sight> for LoadsDelivered {
    ghost use Rattle.status_words.specs.Plays.{LoadedDelivered};

    ghost then = { LoadedDelivered };
}

/// The publishing pass loads the height: its pair stays.
pub struct ChecksHeight;

impl Play<(), Sight> for ChecksHeight {
    ghost use Rattle.status_words.specs.Plays.{CheckedHeight};

    ghost then = { CheckedHeight };
}

/// The publishing pass loads the number of delivered items: its pair stays.
pub struct ChecksDelivered;

impl Play<(), Sight> for ChecksDelivered {
    ghost use Rattle.status_words.specs.Plays.{CheckedDelivered};

    ghost then = { CheckedDelivered };
}

/// A note or a seat is split off: with a copy of what the other has seen or published.
pub struct Notes;

impl Split<Sight> for Notes {
    ghost use Rattle.status_words.specs.Rule.{sitting};

    ghost left = { λ v. v };

    ghost right = { λ v. sitting v.own };
}

/// A blank seat is split off.
pub struct Blanks;

impl Split<Sight> for Blanks {
    ghost use Rattle.status_words.specs.Seen.{unseen};
    ghost use Rattle.status_words.specs.Rule.{sitting};

    ghost left = { λ v. v };

    ghost right = { λ v. sitting unseen };
}

/// A seat takes in a note of the publishing pass.
pub struct Tells;

impl Join<Sight> for Tells {
    ghost use Rattle.status_words.specs.Seen.{unseen};
    ghost use Rattle.status_words.specs.Rule.{sitting, told};

    ghost both = { told };

    ghost spent = { sitting unseen };
}

/// The publishing pass takes in a note of a seat: its pair stays.
pub struct Shows;

impl Join<Sight> for Shows {
    ghost use Rattle.status_words.specs.Seen.{unseen};
    ghost use Rattle.status_words.specs.Rule.{sitting, shown};

    ghost both = { shown };

    ghost spent = { sitting unseen };
}
