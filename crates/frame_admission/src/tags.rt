//! Whether tags for the ring's party are right.

ghost use Rattle.std.specs.Prelude.{◌≡◌, ℕ, IfOk, IfSome};
ghost use Rattle.authenticators.specs.Tags.{is_right as tags_right};
ghost use Rattle.transactions.specs.Grammar.{tx_body_spelling, IsValue};
ghost use Rattle.protocol.specs.Tags.{Setting, genuine, tx_is_right};
ghost use Rattle.protocol.specs.Rings.{IsRingOf};
ghost use Rattle.protocol.specs.Refusals.{first_cause};
ghost use Rattle.protocol.specs.Answers.{IsVerdict};
ghost use Rattle.frame_admission.specs.Gate.{tag_causes};
ghost use Rattle.frame_admission.specs.Examined.{IsTrueOf};

use crate::examined::Finding;
use authenticators::{Key, KeyRing, Party, is_right};
use protocol::{LONGEST_TX_BODY, Refusal};
use std::alloc::{AllocError, Global};
use transactions::{Tx, Value, put_tx_body};

/// Whether the tags of all the value's transactions are right for the ring's validator: whether each is of a known client,
/// and has a tag for each validator and the right one for this.
///
/// The bodies that the tags are over are spelled into one buffer, in turn.
pub fn is_genuine(alloc: Global, ring: &KeyRing, value: &Value) -> Result<bool, AllocError>
    requires { IsValue value.now }
    ensures { (c : Setting) (p : ℕ) → IsRingOf c p ring.now → IfOk result (λ answer. answer ≡ genuine c p value.now) }
{
    let mut body = Vec::with_capacity(alloc, LONGEST_TX_BODY)?;
    for tx in value.txs.as_slice() {
        body.clear();
        put_tx_body(&mut body, tx)?;
        if !is_tx_right(ring, tx, &body) {
            return Ok(false);
        }
    }
    Ok(true)
}

/// Whether the client of a transaction, of which these are the body's bytes, is known and the tag is right.
fn is_tx_right(ring: &KeyRing, tx: &Tx, body: &[u8]) -> bool
    requires { body.now ≡ tx_body_spelling tx.now }
    ensures { (c : Setting) (p : ℕ) → IsRingOf c p ring.now → result ≡ tx_is_right c p tx.now }
{
    check_tags(ring, Party::Client(tx.client), body, tx.tags.as_slice()).is_ok()
}

/// Refuses bytes that an unknown party is said to have sent, and those that haven't one tag for each validator, or of which
/// the ring's own is wrong.
fn check_tags(ring: &KeyRing, sender: Party, bytes: &[u8], tags: &[[u8; 32]]) -> Result<(), Refusal>
    ensures { (c : Setting) (p : ℕ) → IsRingOf c p ring.now → IsVerdict (first_cause (tag_causes c p sender bytes.now tags.now)) result }
{
    check_found(ring, sender, None, bytes, tags)
}

/// As `check_tags`, where what was found before of these tags, under the same key, isn't found once more.
pub(crate) fn check_found(
    ring: &KeyRing,
    sender: Party,
    found: Option<Finding>,
    bytes: &[u8],
    tags: &[[u8; 32]],
) -> Result<(), Refusal>
    requires { IfSome found (λ f. IsTrueOf f bytes.now tags.now) }
    ensures { (c : Setting) (p : ℕ) → IsRingOf c p ring.now → IsVerdict (first_cause (tag_causes c p sender bytes.now tags.now)) result }
{
    // A client receives nothing, so it knows nobody.
    let Party::Validator(me) = ring.me() else {
        return Err(Refusal::UnknownSender);
    };
    let Some(key) = ring.incoming(sender) else {
        return Err(Refusal::UnknownSender);
    };
    if !is_right_found(found, ring.count(), key, me, bytes, tags) {
        return Err(Refusal::BadTag);
    }
    Ok(())
}

/// Whether there is a tag for each of so many validators, and that of this one is right under the key. Where that was found before, it isn't
/// hashed.
fn is_right_found(
    found: Option<Finding>,
    count: u16,
    key: &Key,
    me: u16,
    bytes: &[u8],
    tags: &[[u8; 32]],
) -> bool
    requires { IfSome found (λ f. IsTrueOf f bytes.now tags.now) }
    ensures { result ≡ tags_right count key.now me bytes.now tags.now }
{
    let answer = match found {
        Some(found) => found.under(count, me, key),
        None => None,
    };
    match answer {
        Some(answer) => answer,
        None => is_right(count, key, me, bytes, tags),
    }
}
