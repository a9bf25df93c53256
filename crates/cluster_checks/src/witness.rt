//! What is known of what a validator said and saved, over all of its lives.

ghost use Rattle.std.specs.Prelude.{◌≡◌, ℕ, Some, List, OnOk};
ghost use Rattle.cluster_checks.specs.Telling.{body_at, saying_of, KeepsOthers};

use crate::failure::Failure;
use crate::kinds::{Heading, Kind, body_within};
use cluster_parts::Drive;
use messages::spell_body;
use protocol::Record;
use std::alloc::Global;
use std::collections::BTreeMap;
use transactions::fields::u32_at;
use vote_journal::{body_of, read_record};

/// Of so many heights before the own one it is remembered at least what was said.
const REMEMBERED: u64 = 1_000;

/// After so many heights each what is older is forgotten.
const SWEEP: u64 = 64;

/// How many bytes a journal begins with.
const HEADER: usize = 4;

/// A step of a validator: it says one thing in it at most.
#[derive(Clone, Copy, PartialEq, Eq, PartialOrd, Ord)]
struct Saying {
    height: u64,
    round: u32,
    kind: Kind,
}

impl Saying {
    fn of(heading: Heading) -> Saying
        ensures { result ≡ saying_of heading }
    {
        Saying {
            height: heading.height,
            round: heading.round,
            kind: heading.kind,
        }
    }
}

/// What a correct validator said and saved, in the heights that it comes to.
#[derive(Drop)]
pub struct Witness {
    alloc: Global,
    number: u16,
    validators: u16,
    said: BTreeMap<Saying, Vec<u8>>,
    saved: BTreeMap<Saying, Vec<u8>>,
    /// Synced bytes of the journal that are no whole record yet.
    tail: Vec<u8>,
    has_header: bool,
}

impl Witness {
    /// A validator of so many, which said and saved nothing.
    pub fn new(alloc: Global, number: u16, validators: u16) -> Witness {
        Witness {
            alloc,
            number,
            validators,
            said: BTreeMap::new(alloc),
            saved: BTreeMap::new(alloc),
            tail: Vec::new(alloc),
            has_header: false,
        }
    }

    /// Reads what was synced since the last time. `JournalShrank` where synced records are gone, `BadJournal` for what is no record.
    pub fn read_synced(&mut self, drive: &Drive) -> Result<(), Failure> {
        if drive.has_shrunk() {
            return Err(Failure::JournalShrank {
                validator: self.number,
            });
        }
        let fresh = drive.take_synced();
        if fresh.is_empty() {
            return Ok(());
        }
        self.tail.extend_from_slice(&fresh)?;
        if !self.has_header && self.tail.len() >= HEADER {
            self.has_header = true;
            self.drop_front(HEADER);
        }
        self.read_records()
    }

    fn drop_front(&mut self, count: usize) {
        let length = self.tail.len();
        let count = count.min(length);
        self.tail.copy_within(count.., 0);
        self.tail.truncate(length.saturating_sub(count));
    }

    /// Reads each record that is whole.
    fn read_records(&mut self) -> Result<(), Failure> {
        for _ in 0..self.tail.len() {
            let Some(length) = self.front_len() else {
                break;
            };
            let front = self.tail.get(HEADER..length).unwrap_or(&[]);
            let own = own_body(self.alloc, self.number, front)?;
            if let Some(body) = own {
                let saying = Saying::of(Heading::of_body(&body));
                self.saved.insert(saying, body)?;
            }
            self.drop_front(length);
        }
        Ok(())
    }

    /// How many bytes the first record has, its length among them, where it is whole.
    fn front_len(&self) -> Option<usize> {
        let (length, rest) = u32_at(&self.tail).ok()?;
        let length = usize::try_from(length).ok()?;
        if rest.len() < length {
            return None;
        }
        length.checked_add(HEADER)
    }

    /// A frame leaves the validator: where it is an own proposal or vote, it says what is saved, and the same as before. Else it is
    /// `NotSaved` or `SaidTwice`.
    pub fn see(&mut self, frame: &[u8]) -> Result<(), Failure> {
        let heading = Heading::of_frame(frame);
        if !heading.kind.is_of_round() || heading.sender != self.number {
            return Ok(());
        }
        let Some(body) = body_within(frame, self.validators) else {
            return Err(self.unsaved(heading));
        };
        self.note_own(heading, body)
    }

    /// Notes an own message that leaves: `NotSaved` where it isn't what is saved of its step.
    fn note_own(&mut self, heading: Heading, body: &[u8]) -> Result<(), Failure>
        ensures saved { OnOk result (body_at self.old.saved (saying_of heading) ≡ Some body.now) }
        ensures said { OnOk result (body_at self.new.said (saying_of heading) ≡ Some body.now) }
        ensures once { (other : List ℕ) → body_at self.old.said (saying_of heading) ≡ Some other → OnOk result (other ≡ body.now) }
        ensures others { KeepsOthers (saying_of heading) self.old.said self.new.said }
    {
        let saying = Saying::of(heading);
        match self.saved.get(&saying) {
            Some(saved) if saved.as_slice() == body => {}
            _ => return Err(self.unsaved(heading)),
        }
        self.say(saying, body)
    }

    /// Notes what was said in a step: `SaidTwice` where something else was said in it before.
    fn say(&mut self, saying: Saying, body: &[u8]) -> Result<(), Failure>
        ensures said { OnOk result (body_at self.new.said saying ≡ Some body.now) }
        ensures once { (other : List ℕ) → body_at self.old.said saying ≡ Some other → OnOk result (other ≡ body.now) }
        ensures others { KeepsOthers saying self.old.said self.new.said }
    {
        match self.said.get(&saying) {
            Some(said) if said.as_slice() == body => Ok(()),
            Some(_) => Err(Failure::SaidTwice {
                validator: self.number,
                height: saying.height,
                round: saying.round,
                kind: saying.kind.name(),
            }),
            None => {
                let body = body.to_vec(self.alloc)?;
                self.said.insert(saying, body)?;
                Ok(())
            }
        }
    }

    fn unsaved(&self, heading: Heading) -> Failure {
        Failure::NotSaved {
            validator: self.number,
            height: heading.height,
            round: heading.round,
            kind: heading.kind.name(),
        }
    }

    /// Forgets what was said some heights before this one.
    pub fn forget_below(&mut self, height: u64) {
        if height % SWEEP != 0 {
            return;
        }
        let first = height.saturating_sub(REMEMBERED);
        self.said.retain(|saying, _| saying.height >= first);
        self.saved.retain(|saying, _| saying.height >= first);
    }
}

/// The body of the own message that a record of a journal has, if it has one.
fn own_body(alloc: Global, number: u16, content: &[u8]) -> Result<Option<Vec<u8>>, Failure> {
    if matches!(content.first(), Some(3 | 4)) {
        return Ok(None);
    }
    match read_record(alloc, number, content) {
        Ok(Record::Own(message)) => {
            let body = body_of(alloc, number, &message)?;
            Ok(Some(spell_body(alloc, &body)?))
        }
        Ok(Record::Decided(_)) => Ok(None),
        Err(_) => Err(Failure::BadJournal { validator: number }),
    }
}
