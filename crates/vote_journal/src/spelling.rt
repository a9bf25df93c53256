//! Records as bytes.

ghost use Rattle.std.specs.Prelude.{◌≡◌, ◌≤◌, ◌++◌, ◌∷◌, ℕ, length, OnOk, IfOk};
ghost use Rattle.transactions.specs.Grammar.{value_spelling};
ghost use Rattle.messages.specs.Grammar.{body_spelling, IsBody, IsBundle};
ghost use Rattle.protocol.specs.Messages.{body_of};
ghost use Rattle.protocol.specs.Records.{act_of, record_of};
ghost use Rattle.vote_journal.specs.Grammar.{content_spelling, record_spelling, framed, IsRecord};

use messages::{Body, Bundle, Proposal, Step, Vote, spell_body};
use protocol::{Act, OwnMessage, Record};
use std::alloc::{AllocError, Global};
use transactions::{Duplicate, Value, len_of_value, put_u32, put_value};

/// An own message as the body that goes to the others, under validator `me`'s number: what its record spells, and what is
/// sent again after a restart. The value of a proposal is shared, not copied. It is refused for want of memory alone.
#[tactic(auto, unfolding(protocol::specs::Values::id))]
pub fn body_of(alloc: Global, me: u16, message: &OwnMessage) -> Result<Body, AllocError>
    ensures { IfOk result (λ body. body ≡ body_of me message.now.height message.now.round (act_of message.now.act)) }
{
    let (step, content) = match &message.act {
        Act::Proposing(valid_round, value) => {
            return Ok(Body::Proposal(Proposal {
                height: message.height,
                round: message.round,
                sender: me,
                valid_round: *valid_round,
                value: value.copy(alloc)?,
            }));
        }
        Act::Prevoting(content) => (Step::Prevote, *content),
        Act::Precommitting(None) => (Step::Precommit, None),
        Act::Precommitting(Some(named)) => (Step::Precommit, Some(named.id())),
    };
    Ok(Body::Vote(Vote {
        step,
        height: message.height,
        round: message.round,
        sender: me,
        content,
    }))
}

/// A body's bytes. A body that has a spelling can be refused for memory alone.
fn bytes_of(alloc: Global, body: &Body) -> Result<Vec<u8>, AllocError>
    ensures same { IsBody body.now → IfOk result (λ bytes. bytes.items ≡ body_spelling body.now) }
    ensures short { IfOk result (λ bytes. length bytes.items ≤ 1024720) }
{
    spell_body(alloc, body).map_err(|_| AllocError)
}

/// A record whose content is a kind and a body.
#[tactic(auto, unfolding(crate::specs::Grammar::framed))]
fn frame_body(alloc: Global, kind: u8, body: &[u8]) -> Result<Vec<u8>, AllocError>
    requires { length body.now ≤ 1024720 }
    ensures { IfOk result (λ bytes. bytes.items ≡ framed (kind ∷ body.now)) }
{
    let len = 1 + body.len();
    let mut out = Vec::with_capacity(alloc, 4 + len)?;
    put_u32(&mut out, len as u32)?;
    out.push(kind)?;
    out.extend_from_slice(body)?;
    Ok(out)
}

/// A record whose content is the body of a precommit and the value that it locks.
#[tactic(auto, unfolding(crate::specs::Grammar::framed))]
fn frame_lock(alloc: Global, body: &[u8], value: &Value) -> Result<Vec<u8>, AllocError>
    requires { length body.now ≤ 1024720 }
    ensures { IfOk result (λ bytes. bytes.items ≡ framed (2 ∷ (body.now ++ value_spelling value.now))) }
{
    let Ok(value_len) = len_of_value(value) else {
        return Err(AllocError);
    };
    let len = 1 + body.len() + value_len;
    let mut out = Vec::with_capacity(alloc, 4 + len)?;
    put_u32(&mut out, len as u32)?;
    out.push(2)?;
    out.extend_from_slice(body)?;
    put_value(&mut out, value)?;
    Ok(out)
}

/// The bytes that an own message adds to the journal, by those of its body as `body_of` gives it: at most 1,024,725.
///
/// A message whose record has a spelling is refused for want of memory alone.
#[tactic(auto, unfolding(crate::specs::Grammar::record_spelling))]
pub fn spell_own(alloc: Global, message: &OwnMessage, body: &[u8]) -> Result<Vec<u8>, AllocError>
    requires short { length body.now ≤ 1024720 }
    ensures { (me : ℕ) → IsRecord me (record_of (Record.Own message.now)) → body.now ≡ body_spelling (body_of me message.now.height message.now.round (act_of message.now.act)) → IfOk result (λ bytes. bytes.items ≡ record_spelling me (record_of (Record.Own message.now))) }
{
    match &message.act {
        Act::Precommitting(Some(named)) => frame_lock(alloc, body, named.value()),
        _ => frame_body(alloc, 1, body),
    }
}

fn spell_decision(alloc: Global, bundle: &Bundle) -> Result<Vec<u8>, AllocError>
    ensures { IsBundle bundle.now → IfOk result (λ bytes. bytes.items ≡ framed (3 ∷ body_spelling (Body.Bundle bundle.now))) }
{
    let body = bytes_of(alloc, &Body::Bundle(bundle.copy(alloc)?))?;
    frame_body(alloc, 3, &body)
}

/// The bytes that a record adds to the journal of validator `me`: at most 1,024,725.
///
/// A record that has a spelling is refused for want of memory alone.
#[tactic(auto, unfolding(crate::specs::Grammar::record_spelling))]
pub fn spell_record(alloc: Global, me: u16, entry: &Record) -> Result<Vec<u8>, AllocError>
    ensures { IsRecord me (record_of entry.now) → IfOk result (λ bytes. bytes.items ≡ record_spelling me (record_of entry.now)) }
{
    match entry {
        Record::Own(message) => {
            let body = bytes_of(alloc, &body_of(alloc, me, message)?)?;
            spell_own(alloc, message, &body)
        }
        Record::Decided(bundle) => spell_decision(alloc, bundle),
    }
}
