//! The line of what a journal holds.

ghost use Rattle.std.specs.Prelude.{◌≡◌, IfOk, Some};
ghost use Rattle.protocol.specs.Records.{record_of};
ghost use Rattle.printed_lines.specs.Records.{telling, telling_of, telling_of_record, place_text, content_text, valid_text, senders_text, telling_text, record_line, step_text};

use crate::hexadecimal::Hex;
use journal_reader::{Entry, Found};
use messages::{Bundle, Precommit, Step};
use protocol::{Act, OwnMessage, Record};
use std::alloc::{AllocError, Global};
use std::fmt;
use transactions::{Id, value_id};

/// A height and a round of it.
#[derive(Clone, Copy, Debug)]
pub struct Place {
    pub height: u64,
    pub round: u32,
}

impl fmt::Display for Place {
    ghost output = { λ place. Some (place_text place.height place.round) };

    #[tactic(auto, unfolding(crate::specs::Records::place_text))]
    fn fmt<W: fmt::Write>(&self, f: &mut fmt::Formatter<W>) -> fmt::Result {
        write!(f, "{} {}", self.height, self.round)
    }
}

/// What an entry of a journal says.
#[derive(Clone, Copy, Debug)]
pub enum Said<'a> {
    /// The form with sessions has begun.
    Mark,
    /// An own proposal of a value of so many items, with its valid round.
    Proposal {
        place: Place,
        id: Id,
        items: usize,
        valid_round: Option<u32>,
    },
    /// An own vote, for an id or for nil, that locks no value.
    Vote {
        place: Place,
        step: Step,
        content: Option<Id>,
    },
    /// An own precommit, which locks a value of so many items.
    Lock {
        place: Place,
        id: Id,
        items: usize,
    },
    /// A decision of a value of so many items, with the precommits that show it.
    Decision {
        place: Place,
        id: Id,
        items: usize,
        precommits: &'a [Precommit],
    },
}

impl<'a> Said<'a> {
    /// What this entry says. It is refused for want of memory alone.
    fn of(alloc: Global, entry: &'a Entry) -> Result<Said<'a>, AllocError>
        ensures { IfOk result (λ said. telling said ≡ telling_of entry.now) }
    {
        match entry {
            Entry::Mark => Ok(Said::Mark),
            Entry::Record { owner: _, record } => match record {
                Record::Own(message) => Said::of_own(alloc, message),
                Record::Decided(bundle) => Ok(Said::of_decision(bundle)),
            },
        }
    }

    #[tactic(auto, unfolding(protocol::specs::Values::id))]
    fn of_own(alloc: Global, message: &OwnMessage) -> Result<Said<'a>, AllocError>
        ensures { IfOk result (λ said. telling said ≡ telling_of_record (record_of (Record.Own message.now))) }
    {
        let place = Place {
            height: message.height,
            round: message.round,
        };
        let said = match &message.act {
            Act::Proposing(valid_round, value) => Said::Proposal {
                place,
                id: value_id(alloc, value).map_err(|_| AllocError)?,
                items: value.txs.as_slice().len(),
                valid_round: *valid_round,
            },
            Act::Prevoting(content) => Said::Vote {
                place,
                step: Step::Prevote,
                content: *content,
            },
            Act::Precommitting(None) => Said::Vote {
                place,
                step: Step::Precommit,
                content: None,
            },
            Act::Precommitting(Some(named)) => Said::Lock {
                place,
                id: named.id(),
                items: named.value().txs.as_slice().len(),
            },
        };
        Ok(said)
    }

    fn of_decision(bundle: &'a Bundle) -> Said<'a>
        ensures { telling result ≡ telling_of_record (record_of (Record.Decided bundle.now)) }
    {
        Said::Decision {
            place: Place {
                height: bundle.height,
                round: bundle.round,
            },
            id: bundle.id,
            items: bundle.value.txs.as_slice().len(),
            precommits: bundle.precommits.as_slice(),
        }
    }
}

/// An entry of a journal, shown as its line without the line feed: `OFFSET BYTES`, and then
///
/// - `mark`: from here on transactions of later sessions may stand in records.
/// - `HEIGHT ROUND propose ID items COUNT valid ROUND`, the last `-` for none: an own proposal.
/// - `HEIGHT ROUND prevote ID`, or `precommit`, with `nil` for no value: an own vote.
/// - `HEIGHT ROUND precommit ID items COUNT`: an own precommit, which locks the value.
/// - `HEIGHT ROUND decide ID items COUNT by V,V,..`: a decision, with the validators whose precommits it has.
///
/// OFFSET is where the entry begins, in bytes, and BYTES how many it has. ID is the value's digest in hexadecimal digits.
#[derive(Clone, Copy, Debug)]
pub struct RecordLine<'a> {
    pub offset: u64,
    pub bytes: usize,
    pub said: Said<'a>,
}

impl<'a> RecordLine<'a> {
    /// That of an entry that was found. It is refused for want of memory alone.
    pub fn of(alloc: Global, found: &'a Found) -> Result<RecordLine<'a>, AllocError>
        ensures { IfOk result (λ line. (line.offset ≡ found.now.offset) × (line.bytes ≡ found.now.len) × (telling line.said ≡ telling_of found.now.entry)) }
    {
        Ok(RecordLine {
            offset: found.offset,
            bytes: found.len,
            said: Said::of(alloc, &found.entry)?,
        })
    }
}

impl fmt::Display for RecordLine<'_> {
    ghost output = { λ line. Some (record_line line) };

    fn fmt<W: fmt::Write>(&self, f: &mut fmt::Formatter<W>) -> fmt::Result {
        write!(f, "{} {} {}", self.offset, self.bytes, self.said)
    }
}

impl fmt::Display for Said<'_> {
    ghost output = { λ said. Some (telling_text (telling said)) };

    fn fmt<W: fmt::Write>(&self, f: &mut fmt::Formatter<W>) -> fmt::Result {
        match self {
            Said::Mark => f.write_str("mark"),
            Said::Proposal {
                place,
                id,
                items,
                valid_round,
            } => {
                let id = Hex(id);
                let valid = Valid(*valid_round);
                write!(f, "{place} propose {id} items {items} valid {valid}")
            }
            Said::Vote {
                place,
                step,
                content,
            } => write!(f, "{place} {} {}", step_word(*step), Content(*content)),
            Said::Lock { place, id, items } => {
                write!(f, "{place} precommit {} items {items}", Hex(id))
            }
            Said::Decision {
                place,
                id,
                items,
                precommits,
            } => {
                let id = Hex(id);
                let senders = Senders(precommits);
                write!(f, "{place} decide {id} items {items} by {senders}")
            }
        }
    }
}

/// The step of a vote, in a word.
#[tactic(auto, unfolding(crate::specs::Records::step_text))]
pub(crate) fn step_word(step: Step) -> &'static str
    ensures { result.now ≡ step_text step }
{
    match step {
        Step::Prevote => "prevote",
        Step::Precommit => "precommit",
    }
}

/// What a vote is for: an id, or `nil`.
#[derive(Clone, Copy)]
struct Content(Option<Id>);

impl fmt::Display for Content {
    ghost output = { λ content. Some (content_text content.0) };

    #[tactic(auto, unfolding(crate::specs::Records::content_text))]
    fn fmt<W: fmt::Write>(&self, f: &mut fmt::Formatter<W>) -> fmt::Result {
        match &self.0 {
            Some(id) => write!(f, "{}", Hex(id)),
            None => f.write_str("nil"),
        }
    }
}

/// A valid round, or `-` for none.
#[derive(Clone, Copy)]
struct Valid(Option<u32>);

impl fmt::Display for Valid {
    ghost output = { λ valid. Some (valid_text valid.0) };

    #[tactic(auto, unfolding(crate::specs::Records::valid_text))]
    fn fmt<W: fmt::Write>(&self, f: &mut fmt::Formatter<W>) -> fmt::Result {
        match self.0 {
            Some(round) => write!(f, "{round}"),
            None => f.write_str("-"),
        }
    }
}

/// Who precommitted, with commas.
#[derive(Clone, Copy)]
pub(crate) struct Senders<'a>(pub(crate) &'a [Precommit]);

impl fmt::Display for Senders<'_> {
    ghost output = { λ senders. Some (senders_text senders.0.now) };

    #[tactic(auto, unfolding(crate::specs::Records::senders_text))]
    fn fmt<W: fmt::Write>(&self, f: &mut fmt::Formatter<W>) -> fmt::Result {
        let [first, others @ ..] = self.0 else {
            return Ok(());
        };
        write!(f, "{}", first.sender)?;
        for other in others {
            write!(f, ",{}", other.sender)?;
        }
        Ok(())
    }
}
