//! What Byzantine validators do.

use crate::world::World;
use authenticators::Party;
use bytes::Bytes;
use cluster_actors::{Liar, Lie, Seat, Treatment, no_value};
use cluster_checks::{Event, Failure};
use edge_frames::LinkId;
use messages::{Ask, Body, Message, Proposal, Vote, read, spell};
use peer_core::{Rank, Sending};
use transactions::Seq;
use world_parties::{Bundling, Tagged};

impl World {
    /// The liar of this number.
    fn liar(&mut self, number: u16) -> Option<&mut Liar> {
        let place = self.liars.iter().position(|liar| liar.number() == number)?;
        self.liars.get_mut(place)
    }

    /// Frames have come to a validator: a liar remembers some.
    pub(crate) fn overhear(&mut self, validator: u16, frames: &[Bytes]) -> Result<(), Failure> {
        match self.liar(validator) {
            Some(liar) => Ok(liar.remember(frames)?),
            None => Ok(()),
        }
    }

    /// A frame of a liar leaves: as it is, to some or to nobody, or with another one of the same step.
    pub(crate) fn let_lie_out(&mut self, validator: u16, sending: Sending) -> Result<(), Failure> {
        let Some(liar) = self.liar(validator) else {
            return Ok(());
        };
        match liar.treatment() {
            Treatment::Honest => self.send_to_all(validator, sending),
            Treatment::Withheld => Ok(()),
            Treatment::ToSome => {
                self.send_split(validator, &sending.frame, None, &sending.links)
            }
            Treatment::Twins => {
                let twin = self.twin(validator, &sending.frame)?;
                self.send_split(validator, &sending.frame, twin, &sending.links)
            }
        }
    }

    /// Sends a frame to the first half of some links, and another one to the second half; now and then both to all.
    fn send_split(
        &mut self,
        validator: u16,
        frame: &Bytes,
        other: Option<Bytes>,
        links: &[LinkId],
    ) -> Result<(), Failure> {
        let to_all = self.chance.percent(20);
        let half = links.len() / 2;
        for (place, link) in links.iter().enumerate() {
            if to_all || place < half {
                self.send_as(validator, *link, frame.clone()?, Rank::Fresh)?;
            }
            if let Some(other) = &other {
                if to_all || place >= half {
                    self.send_as(validator, *link, other.clone()?, Rank::Fresh)?;
                }
            }
        }
        Ok(())
    }

    /// Another frame of the same step, where the frame is a proposal or a vote.
    fn twin(&mut self, validator: u16, frame: &Bytes) -> Result<Option<Bytes>, Failure> {
        let alloc = self.alloc;
        let Ok(Message { body, tags: _ }) = read(alloc, frame) else {
            return Ok(None);
        };
        let Some(liar) = self.liar(validator) else {
            return Ok(None);
        };
        match body {
            Body::Vote(vote) => {
                let other = liar.other_vote(alloc, vote);
                Ok(Some(self.sealed_vote(validator, other)?))
            }
            Body::Proposal(proposal) => {
                let other = liar.other_proposal(alloc, proposal)?;
                Ok(Some(self.sealed_proposal(validator, other)?))
            }
            _ => Ok(None),
        }
    }

    /// A liar's frame of a vote.
    fn sealed_vote(&self, validator: u16, vote: Vote) -> Result<Bytes, Failure> {
        let body = Body::Vote(Vote {
            sender: validator,
            ..vote
        });
        let from = Party::Validator(validator);
        let frame = self.parties.frame_from(self.alloc, from, body)?;
        Ok(Bytes::from_vec(frame)?)
    }

    /// A liar's frame of a proposal.
    fn sealed_proposal(&self, validator: u16, proposal: Proposal) -> Result<Bytes, Failure> {
        let body = Body::Proposal(Proposal {
            sender: validator,
            ..proposal
        });
        let from = Party::Validator(validator);
        let frame = self.parties.frame_from(self.alloc, from, body)?;
        Ok(Bytes::from_vec(frame)?)
    }

    /// A liar's frame of an ask.
    fn sealed_ask(&self, validator: u16, height: u64) -> Result<Bytes, Failure> {
        let body = Body::Ask(Ask {
            height,
            sender: validator,
        });
        let from = Party::Validator(validator);
        let frame = self.parties.frame_from(self.alloc, from, body)?;
        Ok(Bytes::from_vec(frame)?)
    }

    /// A liar's turn.
    pub(crate) fn lie(&mut self, validator: u16) -> Result<(), Failure> {
        let now = self.now;
        let Some(liar) = self.liar(validator) else {
            return Ok(());
        };
        let lie = liar.lie();
        let at = now.saturating_add(liar.wait());
        self.agenda.add(at, Event::Lie(validator))?;
        let Some((height, round)) = self.place_of(validator) else {
            return Ok(());
        };
        if lie == Lie::Flood {
            return self.flood(validator, height);
        }
        match self.false_frame(validator, lie, height, round)? {
            Some(frame) => self.send_anywhere(validator, frame),
            None => Ok(()),
        }
    }

    /// In which height and round a validator is, where it runs.
    fn place_of(&self, validator: u16) -> Option<(u64, u32)> {
        let post = self.posts.get(usize::from(validator))?;
        match &post.seat {
            Seat::Up(engine) => Some((engine.node.height(), engine.node.round())),
            Seat::Down(_) | Seat::Between => None,
        }
    }

    /// Sends a frame on some of a liar's links, or on all of them.
    fn send_anywhere(&mut self, validator: u16, frame: Bytes) -> Result<(), Failure> {
        let Some(post) = self.posts.get(usize::from(validator)) else {
            return Ok(());
        };
        let end = post.end();
        let percent = self.chance.one_of(&[20, 100]);
        for id in self.links_at(end)? {
            if self.chance.percent(percent) {
                self.send_as(validator, LinkId(id), frame.clone()?, Rank::Fresh)?;
            }
        }
        Ok(())
    }

    /// The frame of a lie that has one.
    fn false_frame(
        &mut self,
        validator: u16,
        lie: Lie,
        height: u64,
        round: u32,
    ) -> Result<Option<Bytes>, Failure> {
        let alloc = self.alloc;
        let Some(liar) = self.liar(validator) else {
            return Ok(None);
        };
        match lie {
            Lie::Replay => Ok(liar.any_heard()?),
            Lie::OtherHeight => {
                let other = liar.other_height(height);
                let vote = liar.vote(alloc, other, round)?;
                Ok(Some(self.sealed_vote(validator, vote)?))
            }
            Lie::LaterRound => {
                let later = liar.later_round(round);
                let vote = liar.vote(alloc, height, later)?;
                Ok(Some(self.sealed_vote(validator, vote)?))
            }
            Lie::Ask => {
                let other = liar.other_height(height);
                Ok(Some(self.sealed_ask(validator, other)?))
            }
            Lie::Bundle => Ok(Some(self.false_bundle(validator, height, round)?)),
            Lie::ForgedTx => self.forged_tx(validator),
            Lie::ForgedVote => {
                let vote = liar.vote(alloc, height, round)?;
                Ok(Some(self.forged_vote(validator, vote)?))
            }
            Lie::Garbage => Ok(Some(liar.garbage(alloc)?)),
            Lie::Flood | Lie::Nothing => Ok(None),
        }
    }

    /// The next transaction of a correct client, as a liar has it, with a right tag for nobody.
    fn forged_tx(&mut self, validator: u16) -> Result<Option<Bytes>, Failure> {
        let alloc = self.alloc;
        let clients = self.settings.clients;
        let Some(liar) = self.liar(validator) else {
            return Ok(None);
        };
        if clients == 0 {
            return Ok(None);
        }
        let client = liar.name(clients);
        let next = self.judge.next_of(client);
        let Some(liar) = self.liar(validator) else {
            return Ok(None);
        };
        let item = liar.forged_item(alloc, next)?;
        let right = Some(Seq::new(alloc));
        let frame = self.parties.frame_of_tx(alloc, &Tagged { item, right })?;
        Ok(Some(Bytes::from_vec(frame)?))
    }

    /// A vote in the name of another validator, with the tags of the liar's own.
    fn forged_vote(&mut self, validator: u16, vote: Vote) -> Result<Bytes, Failure> {
        let alloc = self.alloc;
        let count = self.parties.count();
        let sender = match self.liar(validator) {
            Some(liar) => liar.name(count),
            None => validator,
        };
        let own = self.sealed_vote(validator, Vote { ..vote })?;
        let Ok(Message { body: _, tags }) = read(alloc, &own) else {
            return Ok(own);
        };
        let body = Body::Vote(Vote { sender, ..vote });
        let frame = spell(alloc, &Message { body, tags })?;
        Ok(Bytes::from_vec(frame)?)
    }

    /// A bundle whose precommits are the liar's alone.
    fn false_bundle(&self, validator: u16, height: u64, round: u32) -> Result<Bytes, Failure> {
        let alloc = self.alloc;
        let mut signers = Vec::new(alloc);
        signers.push(u64::from(validator))?;
        let line = Bundling {
            sender: u64::from(validator),
            height,
            round,
            value: no_value(alloc)?,
            named: no_value(alloc)?,
            signers: Seq::from_vec(signers),
        };
        let frame = self.parties.frame_of_bundle(alloc, &line)?;
        Ok(Bytes::from_vec(frame)?)
    }

    /// Sends many votes of many rounds.
    fn flood(&mut self, validator: u16, height: u64) -> Result<(), Failure> {
        let alloc = self.alloc;
        let count = match self.liar(validator) {
            Some(liar) => liar.flood(),
            None => 0,
        };
        for round in 0..u32::from(count) {
            let Some(liar) = self.liar(validator) else {
                break;
            };
            let vote = liar.vote(alloc, height, round)?;
            let frame = self.sealed_vote(validator, vote)?;
            self.send_anywhere(validator, frame)?;
        }
        Ok(())
    }
}
