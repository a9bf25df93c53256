//! Byzantine validators: each follows the others as a correct one does, and lies about what it says.

use crate::client::op_of;
use bytes::Bytes;
use cluster_checks::TxName;
use cluster_parts::Chance;
use messages::{Body, Message, Proposal, Step, Vote, read};
use std::alloc::{AllocError, Global};
use std::collections::VecDeque;
use transactions::{Duplicate, Id, Item, Shared, Value};

/// How many frames of others a liar remembers.
const MOST_HEARD: usize = 64;

/// How many frames a flood has at most.
const MOST_FLOOD: u16 = 200;

/// An id that is no value's.
const NO_ID: Id = [7; 32];

/// Which lie comes.
#[derive(Clone, Copy, PartialEq)]
pub enum Lie {
    /// A frame of another one, again.
    Replay,
    /// A vote of a height that hasn't come, or is over.
    OtherHeight,
    /// A vote of a later round.
    LaterRound,
    /// A bundle of nonsense.
    Bundle,
    /// Many votes at once.
    Flood,
    /// Garbage, as a frame or not.
    Garbage,
    /// An ask of a height of its choice.
    Ask,
    /// A transaction in the name of a correct client, with tags that aren't its.
    ForgedTx,
    /// A vote in the name of another validator, with the own tags.
    ForgedVote,
    /// Nothing.
    Nothing,
}

/// What becomes of a frame that a liar says.
#[derive(Clone, Copy)]
pub enum Treatment {
    /// It goes to all as it is.
    Honest,
    /// It goes to nobody.
    Withheld,
    /// It goes to some.
    ToSome,
    /// It goes to some, and another one of the same step to others.
    Twins,
}

/// A Byzantine validator.
#[derive(Drop)]
pub struct Liar {
    number: u16,
    chance: Chance,
    /// Frames of others, to be sent again.
    heard: VecDeque<Bytes>,
}

impl Liar {
    /// A liar of this number, which heard nothing.
    pub fn new(alloc: Global, number: u16, seed: u64) -> Liar {
        Liar {
            number,
            chance: Chance::new(seed),
            heard: VecDeque::new(alloc),
        }
    }

    /// The number of the validator.
    pub fn number(&self) -> u16 {
        self.number
    }

    /// Remembers some of these frames.
    pub fn remember(&mut self, frames: &[Bytes]) -> Result<(), AllocError> {
        for frame in frames {
            if self.chance.percent(20) {
                self.keep(frame.clone()?)?;
            }
        }
        Ok(())
    }

    /// Keeps a frame, in the place of the oldest where there are many.
    fn keep(&mut self, frame: Bytes) -> Result<(), AllocError> {
        if self.heard.len() >= MOST_HEARD {
            self.heard.pop_front();
        }
        self.heard.push_back(frame)?;
        Ok(())
    }

    /// Returns which lie comes now.
    pub fn lie(&mut self) -> Lie {
        match self.chance.below(16) {
            0..=2 => Lie::Replay,
            3..=4 => Lie::OtherHeight,
            5..=7 => Lie::LaterRound,
            8 => Lie::Bundle,
            9 => Lie::Flood,
            10 => Lie::Garbage,
            11..=12 => Lie::Ask,
            13 => Lie::ForgedTx,
            14 => Lie::ForgedVote,
            _ => Lie::Nothing,
        }
    }

    /// Returns what becomes of the next frame that it says.
    pub fn treatment(&mut self) -> Treatment {
        match self.chance.below(10) {
            0..=4 => Treatment::Honest,
            5 => Treatment::Withheld,
            6 => Treatment::ToSome,
            _ => Treatment::Twins,
        }
    }

    /// Returns how long it waits until its next lie, in milliseconds.
    pub fn wait(&mut self) -> u64 {
        self.chance.between(100, 3_000)
    }

    /// Returns how many frames a flood has.
    pub fn flood(&mut self) -> u16 {
        self.chance.small(0, MOST_FLOOD)
    }

    /// Returns a height near this one.
    pub fn other_height(&mut self, height: u64) -> u64 {
        height
            .saturating_add(self.chance.below(8))
            .saturating_sub(3)
    }

    /// Returns a round after this one.
    pub fn later_round(&mut self, round: u32) -> u32 {
        round.saturating_add(u32::from(self.chance.small(1, 20)))
    }

    /// Returns a frame that it heard, if any.
    pub fn any_heard(&mut self) -> Result<Option<Bytes>, AllocError> {
        let Some(place) = self.chance.place(self.heard.len()) else {
            return Ok(None);
        };
        match self.heard.get(place) {
            Some(frame) => Ok(Some(frame.clone()?)),
            None => Ok(None),
        }
    }

    /// Returns a false vote of a height and a round.
    pub fn vote(&mut self, alloc: Global, height: u64, round: u32) -> Result<Vote, AllocError> {
        let step = if self.chance.percent(50) {
            Step::Prevote
        } else {
            Step::Precommit
        };
        Ok(Vote {
            step,
            height,
            round,
            sender: self.number,
            content: self.content(alloc),
        })
    }

    /// Returns a number below this one, of whom it speaks for.
    pub fn name(&mut self, count: u16) -> u16 {
        self.chance.small(0, count.saturating_sub(1))
    }

    /// Returns an item in the name of a client, which was to send another one next.
    pub fn forged_item(&mut self, alloc: Global, next: TxName) -> Result<Item, AllocError> {
        let is_close = self.chance.percent(10);
        Ok(Item {
            client: next.client,
            session: next.session,
            number: next.number,
            op: op_of(alloc, &mut self.chance, is_close)?,
        })
    }

    /// Returns the same vote for something else.
    pub fn other_vote(&mut self, alloc: Global, vote: Vote) -> Vote {
        Vote {
            content: self.content(alloc),
            ..vote
        }
    }

    /// Returns another proposal of the same round: of no transactions, of the first one, or with another valid round.
    pub fn other_proposal(
        &mut self,
        alloc: Global,
        proposal: Proposal,
    ) -> Result<Proposal, AllocError> {
        match self.chance.below(3) {
            0 => Ok(Proposal {
                value: no_value(alloc)?,
                ..proposal
            }),
            1 => Ok(Proposal {
                valid_round: Some(0),
                ..proposal
            }),
            _ => {
                let value = first_of(alloc, &proposal.value)?;
                Ok(Proposal { value, ..proposal })
            }
        }
    }

    /// Returns random bytes: a frame of nonsense, or now and then no frame at all.
    pub fn garbage(&mut self, alloc: Global) -> Result<Bytes, AllocError> {
        let count = self.chance.small(1, 100);
        let content = self.chance.bytes(alloc, count)?;
        let mut bytes = Vec::new(alloc);
        if self.chance.percent(70) {
            bytes.extend_from_slice(&u32::from(count).to_be_bytes())?;
        }
        bytes.extend_from_slice(&content)?;
        Ok(Bytes::from_vec(bytes)?)
    }

    /// What a false vote is for: nil, an id of none, or what it heard a vote for.
    fn content(&mut self, alloc: Global) -> Option<Id> {
        match self.chance.below(3) {
            0 => None,
            1 => Some(NO_ID),
            _ => self.heard_content(alloc),
        }
    }

    /// What the oldest vote is for that it heard.
    fn heard_content(&self, alloc: Global) -> Option<Id> {
        for frame in self.heard.iter() {
            if let Ok(
                Message {
                    body: Body::Vote(vote),
                    tags: _,
                },
            ) = read(alloc, frame)
            {
                return vote.content;
            }
        }
        None
    }
}

/// The value of no transactions.
pub fn no_value(alloc: Global) -> Result<Value, AllocError> {
    Ok(Value {
        txs: Shared::from_vec(alloc, Vec::new(alloc))?,
    })
}

/// The value of the first transaction alone.
fn first_of(alloc: Global, value: &Value) -> Result<Value, AllocError> {
    let mut txs = Vec::new(alloc);
    if let Some(first) = value.txs.as_slice().first() {
        txs.push(first.copy(alloc)?)?;
    }
    Ok(Value {
        txs: Shared::from_vec(alloc, txs)?,
    })
}
