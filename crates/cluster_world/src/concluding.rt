//! What comes of what a validator did.

use crate::world::{Accepted, BOUND_MS, World};
use bytes::Bytes;
use cluster_actors::{Engine, Out, Outbox, Seat};
use cluster_checks::{Costs, Event, Failure, Heading, Note, Progress, TxName};
use cluster_parts::DiskStore;
use edge_frames::LinkId;
use node_core::NodeCore;
use peer_core::{Rank, Sending};
use protocol::Refusal;

/// How many addresses a validator dials at one moment at most.
const MOST_DIALS: u16 = 256;

/// How long a validator's edge sleeps at most, in milliseconds: it ticks each second.
const LONGEST_SLEEP_MS: u64 = 1_000;

/// Notes what a correct validator has come to.
fn note_reached(costs: &mut Costs, engine: &Engine) {
    let node = &engine.node;
    let kept = node.state().kept().len() as u64;
    let frames = engine.core.kept() as u64;
    costs.height = costs.height.max(node.height());
    costs.round = costs.round.max(node.round());
    costs.kept = costs.kept.max(kept);
    costs.frames = costs.frames.max(frames);
}

/// Looks whether a validator's edge hands in and says all that it has to, and whether its node is in the round that it has to be in.
fn look_at_edge(validator: u16, engine: &Engine) -> Result<(), Failure> {
    let height = engine.node.height();
    if let Some((link, heading)) = engine.watch.lost(height) {
        return Err(Failure::EarlyFrameLost {
            validator,
            link,
            height,
            kind: heading.kind.name(),
        });
    }
    if let Some(link) = engine.speech.owed(height) {
        return Err(Failure::NotGreeted {
            validator,
            link,
            height,
        });
    }
    if let Some(heading) = engine.speech.outdated() {
        return Err(Failure::ProposalOutdated {
            validator,
            over: heading.height,
            round: heading.round,
            height,
        });
    }
    look_at_round(validator, &engine.node)
}

/// A node that has nothing to do is at least in the highest round in which more than a third of the power said something.
fn look_at_round(validator: u16, node: &NodeCore<DiskStore>) -> Result<(), Failure> {
    let round = node.round();
    match node.state().tally().highest_weak() {
        Some(later) if later > round && node.is_settled() => Err(Failure::RoundNotSkipped {
            validator,
            height: node.height(),
            round,
            later,
        }),
        _ => Ok(()),
    }
}

impl World {
    /// After an event of a validator: what comes out of it leaves, and all is looked at.
    pub(crate) fn conclude(&mut self, validator: u16, out: Outbox) -> Result<(), Failure> {
        let Some(post) = self.post(validator) else {
            return Ok(());
        };
        if post.drive.takes_cut() {
            return self.stop(validator, true);
        }
        post.witness.read_synced(&post.drive)?;
        let Outbox {
            outs,
            made,
            has_halted,
        } = out;
        let tags = made.saturating_mul(u64::from(self.parties.count()));
        self.costs.tags_made = self.costs.tags_made.saturating_add(tags);
        for one in outs {
            self.dispatch(validator, one)?;
        }
        if has_halted {
            return self.stop(validator, false);
        }
        self.compare(validator)?;
        self.dial(validator)?;
        self.await_wake(validator)
    }

    fn dispatch(&mut self, validator: u16, out: Out) -> Result<(), Failure> {
        match out {
            Out::Send(sending) => self.let_out(validator, sending),
            Out::Reply(link, frame) => self.send_as(validator, link, frame, Rank::Fresh),
            Out::Close(link, closing) => {
                self.notes.add(Note::Closes {
                    validator,
                    link: link.0,
                    closing,
                })?;
                self.close_as(validator, link)
            }
            Out::Accepted(frame) => self.note_accepted(validator, &frame),
            Out::Answered(link, heading, answer) => {
                self.note_answer(validator, link, heading, answer)
            }
        }
    }

    /// A frame leaves a validator for some links.
    fn let_out(&mut self, validator: u16, sending: Sending) -> Result<(), Failure> {
        let Some(post) = self.post(validator) else {
            return Ok(());
        };
        if post.is_liar {
            return self.let_lie_out(validator, sending);
        }
        post.witness.see(&sending.frame)?;
        self.send_to_all(validator, sending)
    }

    /// Queues a frame for each of its links.
    pub(crate) fn send_to_all(&mut self, validator: u16, sending: Sending) -> Result<(), Failure> {
        self.notes.add(Note::Sends {
            validator,
            heading: Heading::of_frame(&sending.frame),
            links: sending.links.len() as u64,
        })?;
        for link in sending.links.iter() {
            let frame = sending.frame.clone()?;
            self.send_as(validator, *link, frame, sending.rank)?;
        }
        Ok(())
    }

    /// Queues a frame for a link of a validator.
    pub(crate) fn send_as(
        &mut self,
        validator: u16,
        link: LinkId,
        frame: Bytes,
        rank: Rank,
    ) -> Result<(), Failure> {
        let Some(post) = self.posts.get(usize::from(validator)) else {
            return Ok(());
        };
        let end = post.end();
        let heading = Heading::of_frame(&frame);
        let has_room = self.send(link.0, end, frame, rank == Rank::Repair)?;
        if !has_room {
            self.costs.dropped = self.costs.dropped.saturating_add(1);
            self.notes.add(Note::Dropped {
                link: link.0,
                kind: heading.kind,
            })?;
        }
        Ok(())
    }

    /// A validator closes a link.
    fn close_as(&mut self, validator: u16, link: LinkId) -> Result<(), Failure> {
        let Some(post) = self.posts.get(usize::from(validator)) else {
            return Ok(());
        };
        let end = post.end();
        self.close(link.0, end)
    }

    fn note_accepted(&mut self, validator: u16, frame: &[u8]) -> Result<(), Failure> {
        let Some(name) = TxName::of_frame(frame) else {
            return Ok(());
        };
        self.notes.add(Note::Accepted {
            validator,
            client: name.client,
            session: name.session,
            number: name.number,
        })?;
        let Some(post) = self.posts.get(usize::from(validator)) else {
            return Ok(());
        };
        if post.is_liar || name.client >= self.settings.clients {
            return Ok(());
        }
        self.costs.accepted = self.costs.accepted.saturating_add(1);
        let accepted = Accepted {
            at: self.now,
            by: validator,
            life: post.life,
            name,
        };
        self.accepted.push_back(accepted)?;
        if self.now >= self.settings.calm.saturating_add(BOUND_MS) {
            self.fresh.push_back(accepted)?;
        }
        Ok(())
    }

    fn note_answer(
        &mut self,
        validator: u16,
        link: LinkId,
        heading: Heading,
        answer: Result<(), Refusal>,
    ) -> Result<(), Failure> {
        self.costs.tags_checked = self.costs.tags_checked.saturating_add(1);
        self.notes.add(Note::TookIn {
            validator,
            link: link.0,
            heading,
            answer,
        })?;
        Ok(())
    }

    /// Compares what a correct validator delivered since the last time with the one list.
    fn compare(&mut self, validator: u16) -> Result<(), Failure> {
        let Some(post) = self.posts.get(usize::from(validator)) else {
            return Ok(());
        };
        let Seat::Up(engine) = &post.seat else {
            return Ok(());
        };
        if post.is_liar {
            return Ok(());
        }
        note_reached(&mut self.costs, engine);
        look_at_edge(validator, engine)?;
        let height = engine.node.height();
        let mut progress = post.progress;
        if height <= progress.heights {
            return Ok(());
        }
        let known = usize::try_from(progress.heights).unwrap_or(usize::MAX);
        let fresh = engine.node.delivered().get(known..).unwrap_or(&[]);
        for value in fresh {
            self.judge.compare(validator, &mut progress, value)?;
        }
        self.note_delivered(validator, height, progress)
    }

    /// Notes how far a validator's list was compared, which has come to this height.
    fn note_delivered(
        &mut self,
        validator: u16,
        height: u64,
        progress: Progress,
    ) -> Result<(), Failure> {
        let Some(post) = self.posts.get_mut(usize::from(validator)) else {
            return Ok(());
        };
        post.progress = progress;
        post.witness.forget_below(height);
        self.notes.add(Note::Delivers {
            validator,
            height: height.saturating_sub(1),
        })?;
        Ok(())
    }

    /// Begins to dial whom a validator wants to reach.
    fn dial(&mut self, validator: u16) -> Result<(), Failure> {
        let now = self.now;
        for _ in 0..MOST_DIALS {
            let Some(post) = self.posts.get_mut(usize::from(validator)) else {
                break;
            };
            let life = post.life;
            let shown = post.drift.shown(now);
            let Some(engine) = post.engine() else {
                break;
            };
            let Some(to) = engine.core.next_dial(shown) else {
                break;
            };
            let most = self.settings.delay.saturating_mul(2);
            let at = now.saturating_add(self.chance.between(1, most));
            let from = validator;
            self.agenda.add(at, Event::Dial { from, life, to })?;
        }
        Ok(())
    }

    /// Lets a validator be woken when its edge wants to be, unless it is woken before.
    fn await_wake(&mut self, validator: u16) -> Result<(), Failure> {
        let now = self.now;
        let Some(post) = self.posts.get_mut(usize::from(validator)) else {
            return Ok(());
        };
        let life = post.life;
        let drift = post.drift;
        let shown = drift.shown(now);
        let Some(engine) = post.engine() else {
            return Ok(());
        };
        let wake = engine.core.wake_at(shown);
        let pause = wake.saturating_sub(shown);
        if pause > LONGEST_SLEEP_MS {
            return Err(Failure::SleepsLong { validator, pause });
        }
        let at = drift.shows_from(wake).max(now.saturating_add(1));
        if post.wake.is_some_and(|wake| wake <= at) {
            return Ok(());
        }
        post.wake = Some(at);
        self.agenda.add(at, Event::Wake { validator, life })?;
        Ok(())
    }
}
