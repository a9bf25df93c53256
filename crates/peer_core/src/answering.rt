//! What comes of a node's answer.

ghost use Rattle.std.specs.Prelude.{◌≡◌, Some, None, true, IfSome, MatchBool};
ghost use Rattle.transactions.specs.Fields.{number_at};
ghost use Rattle.messages.specs.Replies.{IsReply};
ghost use Rattle.peer_core.specs.Heading.{is_transaction_at};
ghost use Rattle.peer_core.specs.Answers.{has_halted, has_changed, reply_for, is_of_round, later, of_validator, then_of};

use crate::heading::{Heading, Kind, is_transaction};
use messages::Reply;
use protocol::Refusal;

/// What a peer does after a frame was handed in, beside letting go what the node released.
#[derive(Clone, Copy, Debug, PartialEq, Eq)]
pub enum Then {
    /// Nothing.
    Nothing,
    /// It keeps the frame, which this validator sent, to pass it on while the height doesn't move.
    PassOn { sender: u16 },
    /// It keeps the frame until this height has come.
    Keep { height: u64 },
    /// It notes that a validator is in this height.
    Note { height: u64 },
    /// It ends, since the node has halted.
    Halt,
}

/// Whether the node has halted: the journal's device failed in this call (17) or an earlier one (15).
pub fn halts(answer: Result<(), Refusal>) -> bool
    ensures { result ≡ has_halted answer }
{
    matches!(answer, Err(Refusal::Halted | Refusal::JournalFailed))
}

/// Whether the call may have released frames or scheduled timeouts. Any other refusal changed
/// nothing.
pub fn may_release(answer: Result<(), Refusal>) -> bool
    ensures { result ≡ has_changed answer }
{
    matches!(
        answer,
        Ok(()) | Err(Refusal::OutOfMemory | Refusal::JournalFailed)
    )
}

/// The reply to a transaction's frame, and none to any other frame.
pub fn reply_to(frame: &[u8], answer: Result<(), Refusal>) -> Option<Reply>
    ensures reply { MatchBool (is_transaction_at (number_at 4 frame.now)) (result ≡ Some (reply_for answer)) (result ≡ None) }
    ensures lawful { IfSome result (λ reply. IsReply reply) }
{
    if !is_transaction(frame) {
        return None;
    }
    Some(reply_of(answer))
}

/// 0 where it was accepted, else the numbers of the refusal. An inner number goes with code 13 alone.
fn reply_of(answer: Result<(), Refusal>) -> Reply
    ensures reply { result ≡ reply_for answer }
    ensures lawful { IsReply result }
{
    match answer {
        Ok(()) => Reply { code: 0, inner: 0 },
        Err(Refusal::Submit(fault)) => Reply {
            code: 13,
            inner: fault as u8,
        },
        Err(refusal) => Reply {
            code: refusal.number(),
            inner: 0,
        },
    }
}

/// What to do after a frame with this heading was answered so by a node that is then in the height
/// `own`.
pub fn then_after(answer: Result<(), Refusal>, heading: Option<Heading>, own: u64) -> Then
    ensures { result ≡ then_of answer heading own }
{
    if halts(answer) {
        return Then::Halt;
    }
    match heading {
        Some(heading) => of_validator(answer, heading, own),
        None => Then::Nothing,
    }
}

/// What to do after a validator's frame.
fn of_validator(answer: Result<(), Refusal>, heading: Heading, own: u64) -> Then
    ensures { result ≡ of_validator answer heading own }
{
    let Heading {
        kind,
        height,
        sender,
    } = heading;
    match answer {
        Ok(()) if is_of_round(kind) && height == own => Then::PassOn { sender },
        Err(Refusal::OtherHeight) if height > own => later(kind, height),
        _ => Then::Nothing,
    }
}

/// Whether it is a proposal or a vote, which the node keeps while its height lasts.
fn is_of_round(kind: Kind) -> bool
    ensures { result ≡ is_of_round kind }
{
    !matches!(kind, Kind::Ask | Kind::Bundle)
}

/// What to do with a frame of a later height. An ask is of no use then.
fn later(kind: Kind, height: u64) -> Then
    ensures { result ≡ later kind height }
{
    match kind {
        Kind::Ask => Then::Note { height },
        _ => Then::Keep { height },
    }
}
