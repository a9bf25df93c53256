//! What a node lets out.

ghost use Rattle.std.specs.Prelude.{◌≡◌, ◌≤◌, ℕ, Some, length, IfOk};
ghost use Rattle.messages.specs.Grammar.{body_spelling, IsBody};
ghost use Rattle.messages.specs.Framing.{frame_spelling};
ghost use Rattle.protocol.specs.Tags.{Setting};
ghost use Rattle.protocol.specs.Messages.{Body as Spelled, OfVote, precommit, sender_of, tagged};
ghost use Rattle.protocol.specs.Rings.{IsRingOf};

use crate::tagger::{InTurn, Tagger};
use authenticators::{KeyRing, Party, tag_all};
use messages::{Body, Step, Vote, frame_of, spell_body};
use std::alloc::{AllocError, Global};
use transactions::{Id, Seq};

/// The frame of an own body, with a right tag for each of up to 128 validators.
///
/// The body is spelled once, hashed once for each tag, and copied once into the frame.
pub fn frame_for(alloc: Global, ring: &KeyRing, body: &Body) -> Result<Vec<u8>, AllocError>
    requires spelled { IsBody body.now }
    requires own { sender_of body.now ≡ ring.now.me }
    requires few { ring.now.count ≤ 128 }
    ensures { (c : Setting) (p : ℕ) → IsRingOf c p ring.now → IfOk result (λ frame. frame.items ≡ frame_spelling (tagged c body.now)) }
{
    frame_with(alloc, &InTurn, ring, body)
}

/// As `frame_for`, where another one makes the tags.
pub fn frame_with<T: Tagger>(
    alloc: Global,
    tagger: &T,
    ring: &KeyRing,
    body: &Body,
) -> Result<Vec<u8>, AllocError>
    requires spelled { IsBody body.now }
    requires own { sender_of body.now ≡ ring.now.me }
    requires few { ring.now.count ≤ 128 }
    ensures { (c : Setting) (p : ℕ) → IsRingOf c p ring.now → IfOk result (λ frame. frame.items ≡ frame_spelling (tagged c body.now)) }
{
    let bytes = bytes_of(alloc, body)?;
    frame_of_body(alloc, tagger, ring, &bytes)
}

/// The frame of an own body that is spelled already, with a right tag for each of up to 128 validators.
///
/// The body is hashed once for each tag, and copied once into the frame. It is refused for want of memory alone.
pub fn frame_of_body<T: Tagger>(
    alloc: Global,
    tagger: &T,
    ring: &KeyRing,
    body: &[u8],
) -> Result<Vec<u8>, AllocError>
    requires few { ring.now.count ≤ 128 }
    requires short { length body.now ≤ 1044479 }
    ensures { (c : Setting) (p : ℕ) (b : Spelled) → IsRingOf c p ring.now → sender_of b ≡ ring.now.me → body.now ≡ body_spelling b → IfOk result (λ frame. frame.items ≡ frame_spelling (tagged c b)) }
{
    let tags = tagger.tags(alloc, ring, body)?;
    frame_of(alloc, body, &tags)
}

/// The tags of the own precommit for an id, by which a bundle proves it to others.
///
/// A client has no precommits, so there are no tags under its keys.
pub fn own_tags(
    alloc: Global,
    ring: &KeyRing,
    height: u64,
    round: u32,
    id: Id,
) -> Result<Seq<[u8; 32]>, AllocError>
    ensures { (c : Setting) (p : ℕ) → IsRingOf c p ring.now → IfOk result (λ tags. tags ≡ (tagged c (OfVote (precommit height round p (Some id)))).tags) }
{
    let Party::Validator(sender) = ring.me() else {
        return Ok(Seq::new(alloc));
    };
    let vote = Vote {
        step: Step::Precommit,
        height,
        round,
        sender,
        content: Some(id),
    };
    let bytes = bytes_of(alloc, &Body::Vote(vote))?;
    Ok(Seq::from_vec(tag_all(alloc, ring, &bytes)?))
}

/// The bytes of a body, which can be refused for want of memory alone.
pub fn bytes_of(alloc: Global, body: &Body) -> Result<Vec<u8>, AllocError>
    requires { IsBody body.now }
    ensures spelled { IfOk result (λ bytes. bytes.items ≡ body_spelling body.now) }
    ensures short { IfOk result (λ bytes. length bytes.items ≤ 1024720) }
{
    spell_body(alloc, body).map_err(|_fault| AllocError)
}
