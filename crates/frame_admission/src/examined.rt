//! What is found of a frame by keys alone, before a node's lock is taken.

ghost use Rattle.std.specs.Prelude.{◌≡◌, ℕ, List, IfOk, IfSome};
ghost use Rattle.authenticators.specs.Tags.{is_right};
ghost use Rattle.messages.specs.Grammar.{body_spelling};
ghost use Rattle.messages.specs.declared.body.Body.TheVariants as bodies;
ghost use Rattle.protocol.specs.Tags.{Setting};
ghost use Rattle.protocol.specs.Messages.{sender_of};
ghost use Rattle.protocol.specs.Rings.{IsRingOf};
ghost use Rattle.protocol.specs.Values.{id as id_of};
ghost use Rattle.frame_admission.specs.Gate.{admission};
ghost use Rattle.frame_admission.specs.Examined.{IsTrueOf, IsNamed, IsFoundOf, IsLawful, IsChecked, IsLetIn};

use crate::tags::check_found;
use authenticators::{Key, KeyRing, Party, is_right};
use messages::{Body, Message, Proposal, body_in, read};
use protocol::Refusal;
use sha2::{Digest, Sha256};
use std::alloc::Global;
use std::marker::Model;
use transactions::{Fault, Id};

/// How many bytes of a proposal's body stand before its value: its kind, height, round, sender and valid round.
const PROPOSAL_HEAD: usize = 19;

/// Whether one validator's tag among so many is right under a key, as it was found.
#[derive(Clone, Copy)]
pub(crate) struct Finding {
    count: u16,
    me: u16,
    key: [u8; 32],
    is_right: bool,
}

impl Finding {
    /// Looks at the tag for the ring's validator over bytes that a party is said to have sent. Nothing is found where the ring has no key
    /// of that party.
    fn new(ring: &KeyRing, sender: Party, bytes: &[u8], tags: &[[u8; 32]]) -> Option<Finding>
        ensures { IfSome result (λ found. IsTrueOf found bytes.now tags.now) }
    {
        let Party::Validator(me) = ring.me() else {
            return None;
        };
        let key = ring.incoming(sender)?;
        let count = ring.count();
        Some(Finding {
            count,
            me,
            key: *key.bytes(),
            is_right: is_right(count, key, me, bytes, tags),
        })
    }

    /// What was found, where it is of this validator among so many and under this key.
    pub(crate) fn under(&self, count: u16, me: u16, key: &Key) -> Option<bool>
        ensures { (bytes : List ℕ) (tags : List (List ℕ)) → IsTrueOf self.now bytes tags → IfSome result (λ answer. answer ≡ is_right count key.now me bytes tags) }
    {
        if self.count == count && self.me == me && self.key == *key.bytes() {
            Some(self.is_right)
        } else {
            None
        }
    }
}

/// What is found of a message by keys alone, beside its sender's tag.
#[derive(Clone, Copy, Debug)]
pub enum Found {
    /// Of a transaction: whether its client is known, and its own tag right.
    Tx(bool),
    /// Of a proposal: the id of its value.
    Proposal(Id),
    /// Of another message there is nothing to find.
    Nothing,
}

/// A message that a node lets in, with what was found of it.
#[derive(Drop)]
pub struct LetIn {
    pub message: Message,
    pub found: Found,
}

/// A frame, the message that it spells, and what was found of it under the keys of who read it.
///
/// A node lets it in by its own keys (`let_in`): what was found under the same key isn't found once more. So whoever reads frames, with the
/// keys of a node, can read and hash before it takes that node's lock. Clauses see its frame.
#[derive(Drop)]
pub struct Examined<'a> {
    frame: &'a [u8],
    message: Result<Message, Fault>,
    finding: Option<Finding>,
    id: Option<Id>,
}

impl<'a> Model for Examined<'a> {
    ghost use Rattle.std.specs.Prelude.{List, ℕ};
    ghost use Rattle.frame_admission.specs.Examined.{IsExamined};

    ghost Value = { List ℕ };

    ghost view = { λ e. e.frame.now };

    ghost invariant = { λ e. IsExamined e.frame.now e.message e.finding e.id };
}

impl<'a> Examined<'a> {
    /// Reads a frame, looks at its tag under the keys of a ring, and finds the id of a proposal's value where the tag is right.
    ///
    /// Memory is taken for the message alone.
    pub fn new(alloc: Global, ring: &KeyRing, frame: &'a [u8]) -> Examined<'a>
        ensures { result ≡ frame.now }
    {
        let message = match read(alloc, frame) {
            Ok(message) => message,
            Err(fault) => {
                return Examined {
                    frame,
                    message: Err(fault),
                    finding: None,
                    id: None,
                };
            }
        };
        let body = body_in(frame, &message);
        let finding = Finding::new(
            ring,
            sender_of(&message.body),
            body,
            message.tags.as_slice(),
        );
        let id = match finding {
            Some(found) if found.is_right => id_in(&message.body, body),
            _ => None,
        };
        Examined {
            frame,
            message: Ok(message),
            finding,
            id,
        }
    }

    /// The frame.
    pub fn frame(&self) -> &'a [u8]
        ensures { result.now ≡ self.now }
    {
        self.frame
    }

    /// The message, if a known party sent it to the ring's validator, and what is found of it. What is refused, and in which order,
    /// [`crate::admit`] says.
    pub fn let_in(self, ring: &KeyRing) -> Result<LetIn, Refusal>
        ensures answer { (c : Setting) (p : ℕ) → IsRingOf c p ring.now → IsLetIn c p (admission c p self.entry) result }
        ensures lawful { IfOk result IsLawful }
    {
        let Examined {
            frame,
            message,
            finding,
            id,
        } = self;
        let message = message?;
        let body = body_in(frame, &message);
        let found = check(ring, &message, body, finding, id)?;
        Ok(LetIn { message, found })
    }
}

/// The party that says it sent a body.
fn sender_of(body: &Body) -> Party
    ensures { result ≡ sender_of body.now }
{
    match body {
        Body::Tx(tx) => Party::Client(tx.client),
        Body::Proposal(proposal) => Party::Validator(proposal.sender),
        Body::Vote(vote) => Party::Validator(vote.sender),
        Body::Ask(ask) => Party::Validator(ask.sender),
        Body::Bundle(bundle) => Party::Validator(bundle.sender),
    }
}

/// The id of what a body proposes, which these bytes spell.
fn id_in(body: &Body, bytes: &[u8]) -> Option<Id>
    requires { bytes.now ≡ body_spelling body.now }
    ensures { IfSome result (IsNamed body.now) }
{
    match body {
        Body::Proposal(proposal) => Some(value_id_in(proposal, bytes)),
        Body::Tx(_) | Body::Vote(_) | Body::Ask(_) | Body::Bundle(_) => None,
    }
}

/// The id of a proposal's value, which is hashed where it stands among the bytes of the body.
fn value_id_in(_proposal: &Proposal, bytes: &[u8]) -> Id
    requires { bytes.now ≡ body_spelling (bodies.Proposal _proposal.now) }
    ensures { result ≡ id_of _proposal.now.value }
{
    let (_, value) = bytes.split_at(PROPOSAL_HEAD);
    Sha256::digest(value)
}

/// Refuses a message, of which these are the body's bytes, for its sender or its tags, or says what else is found of it.
fn check(
    ring: &KeyRing,
    message: &Message,
    bytes: &[u8],
    finding: Option<Finding>,
    id: Option<Id>,
) -> Result<Found, Refusal>
    requires bytes { bytes.now ≡ body_spelling message.now.body }
    requires found { IfSome finding (λ f. IsTrueOf f bytes.now message.now.tags) }
    requires named { IfSome id (IsNamed message.now.body) }
    ensures checked { (c : Setting) (p : ℕ) → IsRingOf c p ring.now → IsChecked c p message.now result }
    ensures fits { IfOk result (IsFoundOf message.now.body) }
{
    let sender = sender_of(&message.body);
    let verdict = check_found(ring, sender, finding, bytes, message.tags.as_slice());
    match &message.body {
        Body::Tx(_) => Ok(Found::Tx(verdict.is_ok())),
        Body::Proposal(proposal) => {
            verdict?;
            Ok(Found::Proposal(match id {
                Some(id) => id,
                None => value_id_in(proposal, bytes),
            }))
        }
        Body::Vote(_) | Body::Ask(_) | Body::Bundle(_) => {
            verdict?;
            Ok(Found::Nothing)
        }
    }
}
