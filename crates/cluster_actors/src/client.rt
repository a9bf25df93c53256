//! Clients, which send transactions until they are delivered.

use bytes::Bytes;
use cluster_checks::{TxName, small};
use cluster_parts::Chance;
use messages::read_reply;
use std::alloc::{AllocError, Global};
use std::collections::VecDeque;
use transactions::{Data, Item, Op, Seq, Tx};

/// How many transactions a client has sent at most that aren't delivered.
const MOST_OPEN: usize = 8;

/// How long a client waits for a reply, in milliseconds.
const REPLY_MS: u64 = 1_000;

/// How long it waits for what was accepted to be delivered, in milliseconds.
const DELIVERY_MS: u64 = 10_000;

/// After so many tries it waits no longer for the next one.
const MOST_TRIES: u64 = 8;

/// A transaction that was sent and isn't delivered.
#[derive(Drop)]
pub struct Waiting {
    /// How many items the client sent before it.
    pub ordinal: u64,
    pub frame: Bytes,
}

/// The same, and how often it was sent.
#[derive(Drop)]
struct Pending {
    waiting: Waiting,
    sent_at: u64,
    tries: u64,
    is_accepted: bool,
}

/// A client, with its links.
#[derive(Drop)]
pub struct Client {
    number: u16,
    is_correct: bool,
    session: u32,
    /// The number of its last transaction in the session.
    last: u64,
    is_closed: bool,
    /// How many items it sent.
    count: u64,
    open: VecDeque<Pending>,
    /// Its link to each validator, if it has one.
    wires: Vec<Option<u32>>,
    /// Which of its transactions it waits to be answered by each validator.
    asked: Vec<VecDeque<u64>>,
    chance: Chance,
    /// When it makes its next transaction.
    next_at: u64,
}

impl Client {
    /// A client of this number, which sent nothing yet and has no link.
    pub fn new(
        alloc: Global,
        number: u16,
        is_correct: bool,
        validators: u16,
        seed: u64,
    ) -> Result<Client, AllocError> {
        let mut wires = Vec::new(alloc);
        let mut asked = Vec::new(alloc);
        for _ in 0..validators {
            wires.push(None)?;
            asked.push(VecDeque::new(alloc))?;
        }
        Ok(Client {
            number,
            is_correct,
            session: 0,
            last: 0,
            is_closed: false,
            count: 0,
            open: VecDeque::new(alloc),
            wires,
            asked,
            chance: Chance::new(seed),
            next_at: 0,
        })
    }

    /// Returns whether it is correct.
    pub fn is_correct(&self) -> bool {
        self.is_correct
    }

    /// Forgets a link.
    pub fn lose(&mut self, wire: u32) {
        for (place, known) in self.wires.iter_mut().enumerate() {
            if *known == Some(wire) {
                *known = None;
                if let Some(asked) = self.asked.get_mut(place) {
                    asked.clear();
                }
            }
        }
    }

    /// Its link to a validator, if it has one.
    pub fn link(&self, validator: u16) -> Option<u32> {
        self.wires.get(usize::from(validator)).copied()?
    }

    /// Notes its link to a validator.
    pub fn note_link(&mut self, validator: u16, wire: u32) {
        if let Some(place) = self.wires.get_mut(usize::from(validator)) {
            *place = Some(wire);
        }
    }

    /// Notes that a validator was sent a transaction, of which the ordinal is this.
    pub fn note_asked(&mut self, validator: u16, ordinal: u64) -> Result<(), AllocError> {
        match self.asked.get_mut(usize::from(validator)) {
            Some(asked) => Ok(asked.push_back(ordinal)?),
            None => Ok(()),
        }
    }

    /// Makes the next transaction: bytes, or now and then a close.
    pub fn make(&mut self, alloc: Global) -> Result<Tx, AllocError> {
        if self.is_closed {
            self.session = self.session.saturating_add(1);
            self.last = 0;
        }
        self.last = self.last.saturating_add(1);
        self.is_closed = self.chance.percent(8);
        Ok(Tx {
            client: self.number,
            session: self.session,
            number: self.last,
            op: op_of(alloc, &mut self.chance, self.is_closed)?,
            tags: Seq::new(alloc),
        })
    }

    /// Makes a false item: the next one with other contents, or now and then one that comes too early.
    pub fn make_false(&mut self, alloc: Global, next: TxName) -> Result<Item, AllocError> {
        let ahead = self.chance.one_of(&[0, 0, 0, 0, 1, 3]);
        let is_close = self.chance.percent(10);
        Ok(Item {
            client: self.number,
            session: next.session,
            number: next.number.saturating_add(ahead),
            op: op_of(alloc, &mut self.chance, is_close)?,
        })
    }

    /// Keeps the frame of a transaction until it is delivered.
    pub fn keep(&mut self, frame: Bytes, now: u64) -> Result<(), AllocError> {
        let ordinal = self.count;
        self.count = self.count.saturating_add(1);
        self.open.push_back(Pending {
            waiting: Waiting { ordinal, frame },
            sent_at: now,
            tries: 0,
            is_accepted: false,
        })?;
        Ok(())
    }

    /// Forgets what is delivered: its first so many items.
    pub fn forget_delivered(&mut self, delivered: u64) {
        self.open
            .retain(|pending| pending.waiting.ordinal >= delivered);
    }

    /// Returns whether it makes a transaction now.
    pub fn is_due(&self, now: u64) -> bool {
        now >= self.next_at && self.open.len() < MOST_OPEN
    }

    /// Returns whether it sends again: no reply came in time, or what was accepted isn't delivered for long.
    pub fn is_late(&self, now: u64) -> bool {
        self.open.front().is_some_and(|pending| {
            let wait = if pending.is_accepted {
                DELIVERY_MS
            } else {
                REPLY_MS
            };
            let tries = pending.tries.min(MOST_TRIES).saturating_add(1);
            now.saturating_sub(pending.sent_at) >= wait.saturating_mul(tries)
        })
    }

    /// Returns how long it waits until its next transaction, and notes it: from half of this time to all of it.
    pub fn wait(&mut self, now: u64, longest: u64) -> u64 {
        let wait = self.chance.between(longest / 2, longest);
        self.next_at = now.saturating_add(wait);
        wait
    }

    /// Returns the links on which no reply came to what was asked, where it waits for long.
    pub fn silent_links(&self, alloc: Global) -> Result<Vec<u32>, AllocError> {
        let mut silent = Vec::new(alloc);
        let has_waited = self.open.front().is_some_and(|pending| pending.tries > 1);
        for (wire, asked) in self.wires.iter().zip(self.asked.iter()) {
            if let Some(wire) = wire {
                if has_waited && !asked.is_empty() {
                    silent.push(*wire)?;
                }
            }
        }
        Ok(silent)
    }

    /// Notes that all that waits is sent again.
    pub fn note_retry(&mut self, now: u64) {
        for pending in self.open.iter_mut() {
            pending.sent_at = now;
            pending.tries = pending.tries.saturating_add(1);
        }
    }

    /// Returns all that waits, in order.
    pub fn waiting(&self, alloc: Global) -> Result<Vec<Waiting>, AllocError> {
        let mut waiting = Vec::new(alloc);
        for pending in self.open.iter() {
            waiting.push(Waiting {
                ordinal: pending.waiting.ordinal,
                frame: pending.waiting.frame.clone()?,
            })?;
        }
        Ok(waiting)
    }

    /// Returns to which validators it sends now: one, some or all.
    pub fn targets(&mut self, alloc: Global) -> Result<Vec<u16>, AllocError> {
        let percent = self.chance.one_of(&[0, 0, 50, 100]);
        let mut targets = Vec::new(alloc);
        let one = self.chance.place(self.wires.len()).unwrap_or(0);
        for place in 0..self.wires.len() {
            if place == one || self.chance.percent(percent) {
                targets.push(small(place as u64))?;
            }
        }
        Ok(targets)
    }

    /// Takes in the frames that came on a link: replies to what was asked, in order.
    pub fn hear(&mut self, wire: u32, frames: &[Bytes]) {
        let Some(place) = self.wires.iter().position(|known| *known == Some(wire)) else {
            return;
        };
        for frame in frames {
            if let Ok(reply) = read_reply(frame) {
                let is_taken = reply.code == 0 || (reply.code == 13 && reply.inner == 3);
                self.note_reply(place, is_taken);
            }
        }
    }

    /// Notes what the validator at this place answered: that it took the transaction, or that it didn't.
    fn note_reply(&mut self, place: usize, is_taken: bool) {
        let Some(asked) = self.asked.get_mut(place) else {
            return;
        };
        let Some(ordinal) = asked.pop_front() else {
            return;
        };
        for pending in self.open.iter_mut() {
            if pending.waiting.ordinal == ordinal && is_taken {
                pending.is_accepted = true;
            }
        }
    }
}

/// What a transaction asks for.
pub(crate) fn op_of(alloc: Global, chance: &mut Chance, is_close: bool) -> Result<Op, AllocError> {
    if is_close {
        return Ok(Op::Close);
    }
    let count = chance.small(0, 40);
    Ok(Op::Bytes(Data::from_vec(chance.bytes(alloc, count)?)))
}

/// For whom a transaction's tags are right: for this validator alone, or for all.
pub fn right_for(
    alloc: Global,
    validator: u16,
    is_alone: bool,
) -> Result<Option<Seq<u16>>, AllocError> {
    if !is_alone {
        return Ok(None);
    }
    let mut right = Vec::new(alloc);
    right.push(validator)?;
    Ok(Some(Seq::from_vec(right)))
}
