//! The messages of a world, by their numbers.

ghost use Rattle.std.specs.Prelude.{◌≡◌, [], List, Some, IfOk, IfSome, is_some, length, nat_lt, option_map, slice_get};
ghost use Rattle.messages.specs.Grammar.{body_spelling};
ghost use Rattle.messages.specs.Framing.{frame_spelling};
ghost use Rattle.protocol.specs.Tags.{Setting};
ghost use Rattle.protocol.specs.Messages.{Body as AnyBody, tagged};
ghost use Rattle.world_schedule.specs.Standings.{Holds, IsNumbered, sayer};
ghost use Rattle.world_schedule.specs.Cores.{frame_in};

use indexmap::IndexSet;
use messages::{Body, Message, body_in};
use std::alloc::{AllocError, Global};

/// The messages that were released or sent, each with its number, which is its place.
#[derive(Drop)]
pub(crate) struct Messages {
    /// Their spelled bodies.
    pub(crate) bodies: IndexSet<Vec<u8>>,
    pub(crate) posted: Vec<Posted>,
}

/// A message on its way.
#[derive(Drop)]
pub(crate) struct Posted {
    /// The validator that says it; none for a client's.
    pub(crate) sayer: Option<u16>,
    pub(crate) frame: Vec<u8>,
}

impl Messages {
    pub(crate) fn new(alloc: Global) -> Messages
        ensures { (c : Setting) → Holds c [] result }
    {
        Messages {
            bodies: IndexSet::new(alloc),
            posted: Vec::new(alloc),
        }
    }

    /// Gives a message, whose frame this is, the next number, unless its body has one.
    pub(crate) fn number(
        &mut self,
        alloc: Global,
        frame: &[u8],
        message: &Message,
    ) -> Result<Option<u64>, AllocError>
        requires { frame.now ≡ frame_spelling message.now }
        ensures { (c : Setting) (numbered : List AnyBody) → Holds c numbered self.old → message.now ≡ tagged c message.now.body
            → IfOk result (λ number. IsNumbered c numbered message.now.body number self.new) }
    {
        let body = body_in(frame, message).to_vec(alloc)?;
        let (_, is_new) = self.bodies.insert_full(body)?;
        if !is_new {
            return Ok(None);
        }
        let number = self.posted.len() as u64;
        self.posted.push(Posted {
            sayer: sayer(&message.body),
            frame: frame.to_vec(alloc)?,
        })?;
        Ok(Some(number))
    }

    /// How many there are.
    pub(crate) fn count(&self) -> u64
        ensures { (c : Setting) (numbered : List AnyBody) → Holds c numbered self.now → result ≡ length numbered }
    {
        self.posted.len() as u64
    }

    /// The message of this number.
    pub(crate) fn get(&self, number: u64) -> Option<&Posted>
        ensures some { (c : Setting) (numbered : List AnyBody) (b : AnyBody) → Holds c numbered self.now → slice_get numbered number ≡ Some b
            → IfSome result (λ posted. (posted.now.frame.items ≡ frame_in c b) × (posted.now.sayer ≡ sayer b)) }
        ensures known { (c : Setting) (numbered : List AnyBody) → Holds c numbered self.now → is_some result ≡ nat_lt number (length numbered) }
    {
        if number < self.posted.len() as u64 {
            Some(&self.posted[number as usize])
        } else {
            None
        }
    }
}

/// Which validator says the body: none for a client's.
fn sayer(body: &Body) -> Option<u16>
    ensures { result ≡ sayer body.now }
{
    match body {
        Body::Tx(_) => None,
        Body::Proposal(proposal) => Some(proposal.sender),
        Body::Vote(vote) => Some(vote.sender),
        Body::Ask(ask) => Some(ask.sender),
        Body::Bundle(bundle) => Some(bundle.sender),
    }
}
