//! A validator that runs: its node, and its edge.

ghost use Rattle.std.specs.Prelude.{◌≡◌, IfOk, IfSome, slice_get};
ghost use Rattle.std.specs.List.{flat_map};
ghost use Rattle.messages.specs.Replies.{IsReply};
ghost use Rattle.cluster_actors.specs.Replying.{heard_on, astray_of};

use bytes::Bytes;
use cluster_checks::{EarlyWatch, Heading, SpeechWatch};
use cluster_parts::DiskStore;
use edge_frames::LinkId;
use messages::{Reply, spell_reply};
use node_core::NodeCore;
use peer_core::{Closing, Duty, OpenFault, PeerCore, Sending, halts};
use peer_links::Way;
use protocol::Refusal;
use std::alloc::{AllocError, Global};

/// How many duties come one after the other at most.
const MOST_DUTIES: u32 = 1_000_000;

/// What comes out of a validator.
#[derive(Drop)]
pub enum Out {
    /// A frame for some links.
    Send(Sending),
    /// A reply.
    Reply(LinkId, Bytes),
    /// A link is to be closed.
    Close(LinkId, Closing),
    /// A transaction was accepted.
    Accepted(Bytes),
    /// How a frame was answered.
    Answered(LinkId, Heading, Result<(), Refusal>),
}

/// All that comes out of a validator by one event, in order.
#[derive(Drop)]
pub struct Outbox {
    pub outs: Vec<Out>,
    /// How many frames the node made, each with a tag for every validator.
    pub made: u64,
    /// Whether the node has halted, so that the validator ends.
    pub has_halted: bool,
}

impl Outbox {
    /// Nothing. It takes no memory.
    pub fn new(alloc: Global) -> Outbox {
        Outbox {
            outs: Vec::new(alloc),
            made: 0,
            has_halted: false,
        }
    }

    /// Returns a link on which a reply goes out, and from which nothing was handed in.
    pub fn astray(&self, heard: Option<LinkId>) -> Option<LinkId>
        ensures { result ≡ slice_get (flat_map (astray_of heard) self.now.outs.items) 0 }
    {
        for out in self.outs.iter() {
            if let Out::Reply(link, _) = out
                && heard != Some(*link)
            {
                return Some(*link);
            }
        }
        None
    }
}

/// What a validator is to do.
#[derive(Drop)]
pub enum Deed {
    /// To begin, or to go on after a start.
    Settle,
    /// To look what is to be done.
    Wake,
    /// To take in whole frames that came on a link.
    Hear(LinkId, Vec<Bytes>),
    /// To forget a link.
    End(LinkId),
    /// To note whether a validator's address was reached.
    Dialed(u16, bool),
}

impl Deed {
    /// The link on which frames came, if any did.
    pub fn heard(&self) -> Option<LinkId>
        ensures { result ≡ heard_on self.now }
    {
        match self {
            Deed::Hear(link, _) => Some(*link),
            Deed::Settle | Deed::Wake | Deed::End(_) | Deed::Dialed(..) => None,
        }
    }
}

/// A node and its edge.
#[derive(Drop)]
pub struct Engine {
    pub alloc: Global,
    pub node: NodeCore<DiskStore>,
    /// Its edge.
    pub core: PeerCore,
    /// What its edge has to hand in again.
    pub watch: EarlyWatch,
    /// What its edge has to say, and what it said too late.
    pub speech: SpeechWatch,
}

impl Engine {
    /// Does this, and then all that its edge says, and returns whether that came to an end.
    pub fn run(&mut self, deed: Deed, now: u64, out: &mut Outbox) -> Result<bool, AllocError> {
        self.speech.begins(self.node.height());
        self.act(deed, now, out)?;
        self.do_duties(now, out)
    }

    /// Takes a link that has opened, or says why not.
    pub fn open(&mut self, link: LinkId, way: Way, now: u64) -> Result<(), OpenFault> {
        let is_dialed = self.core.dials_again() && way != Way::Accepted;
        if is_dialed && self.speech.dialed(link.0).is_err() {
            return Err(OpenFault::OutOfMemory);
        }
        let opened = self.core.opened(link, way, now);
        if opened.is_err() {
            self.speech.forget(link.0);
        }
        opened
    }

    fn act(&mut self, deed: Deed, now: u64, out: &mut Outbox) -> Result<(), AllocError> {
        match deed {
            Deed::Settle => self.settle(now, out),
            Deed::Wake => Ok(()),
            Deed::Hear(link, frames) => self.hear(link, &frames, now, out),
            Deed::End(link) => {
                self.core.ended(link);
                self.watch.ended(link.0);
                self.speech.forget(link.0);
                Ok(())
            }
            Deed::Dialed(validator, is_reached) => {
                self.core.dialed(validator, is_reached, now);
                Ok(())
            }
        }
    }

    /// Begins, or goes on, after a start.
    fn settle(&mut self, now: u64, out: &mut Outbox) -> Result<(), AllocError> {
        let answer = self.node.settle();
        self.after(answer, now, out)
    }

    /// Hands in the frames that came on a link.
    fn hear(
        &mut self,
        link: LinkId,
        frames: &[Bytes],
        now: u64,
        out: &mut Outbox,
    ) -> Result<(), AllocError> {
        self.core.heard(link, now);
        for frame in frames {
            if !out.has_halted {
                self.take_in(link, frame, now, out)?;
            }
        }
        Ok(())
    }

    /// Hands in a frame that came on a link.
    fn take_in(
        &mut self,
        link: LinkId,
        frame: &Bytes,
        now: u64,
        out: &mut Outbox,
    ) -> Result<(), AllocError> {
        let Some(reply) = self.hand_in(link, frame, now, out)? else {
            return Ok(());
        };
        let spelled = spell_reply(reply);
        if reply.code == 0 {
            out.outs.push(Out::Accepted(frame.clone()?))?;
        }
        let reply = Bytes::copy_from_slice(self.alloc, &spelled)?;
        out.outs.push(Out::Reply(link, reply))?;
        Ok(())
    }

    /// Hands in a frame, and returns the reply to it.
    fn hand_in(
        &mut self,
        link: LinkId,
        frame: &[u8],
        now: u64,
        out: &mut Outbox,
    ) -> Result<Option<Reply>, AllocError>
        ensures { IfOk result (λ reply. IfSome reply (λ reply. IsReply reply)) }
    {
        if !self.core.expect(link, frame, now) {
            return Ok(None);
        }
        let answer = self.node.handle(frame);
        let height = self.node.height();
        let heading = Heading::of_frame(frame);
        self.watch.answered(link.0, heading, answer, height)?;
        out.outs.push(Out::Answered(link, heading, answer))?;
        self.after(answer, now, out)?;
        Ok(self.core.answered(link, frame, answer, height, now))
    }

    /// After a call of the node: what it released and scheduled.
    fn after(
        &mut self,
        answer: Result<(), Refusal>,
        now: u64,
        out: &mut Outbox,
    ) -> Result<(), AllocError> {
        self.core.told(self.node.height(), now);
        self.release(now, out)?;
        self.schedule(now);
        if halts(answer) {
            out.has_halted = true;
        }
        Ok(())
    }

    /// Has the edge say to whom each frame goes that the node released.
    fn release(&mut self, now: u64, out: &mut Outbox) -> Result<(), AllocError> {
        for frame in self.node.outgoing() {
            out.made = out.made.saturating_add(1);
            let frame = Bytes::from_vec(frame)?;
            if let Some(sending) = self.core.released(frame, now)? {
                self.send(sending, out)?;
            }
        }
        Ok(())
    }

    /// Lets a frame out.
    fn send(&mut self, sending: Sending, out: &mut Outbox) -> Result<(), AllocError> {
        self.speech.sent(Heading::of_frame(&sending.frame));
        for link in sending.links.iter() {
            self.speech.forget(link.0);
        }
        Ok(out.outs.push(Out::Send(sending))?)
    }

    /// Has the edge plan each timeout that the node scheduled.
    fn schedule(&mut self, now: u64) {
        for timeout in self.node.scheduled() {
            let _ = self.core.scheduled(timeout, now);
        }
    }

    /// Does what the edge says, until it says nothing more, and returns whether it came to that.
    fn do_duties(&mut self, now: u64, out: &mut Outbox) -> Result<bool, AllocError> {
        for _ in 0..MOST_DUTIES {
            if out.has_halted {
                return Ok(true);
            }
            let Some(duty) = self.core.next_duty(now) else {
                return Ok(true);
            };
            self.do_duty(duty, now, out)?;
        }
        Ok(false)
    }

    fn do_duty(&mut self, duty: Duty, now: u64, out: &mut Outbox) -> Result<(), AllocError> {
        match duty {
            Duty::HandIn(link, frame) => {
                let _ = self.hand_in(link, &frame, now, out)?;
                Ok(())
            }
            Duty::Ask => {
                let answer = self.node.ask();
                self.after(answer, now, out)
            }
            Duty::Settle => self.settle(now, out),
            Duty::Resend => {
                let answer = self.node.resend();
                self.after(answer, now, out)
            }
            Duty::Fire(timeout) => {
                let answer = self.node.fire_timeout(timeout);
                if answer == Err(Refusal::OutOfMemory) {
                    self.core.refused_memory(timeout, now);
                }
                self.after(answer, now, out)
            }
            Duty::Send(sending) => self.send(sending, out),
            Duty::Close(link, closing) => {
                self.watch.ended(link.0);
                self.speech.forget(link.0);
                Ok(out.outs.push(Out::Close(link, closing))?)
            }
            // (who is behind a link is only logged)
            Duty::Meet(..) => Ok(()),
        }
    }
}
