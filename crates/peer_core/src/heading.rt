//! What a frame tells of its message at its front, without being read.

ghost use Rattle.std.specs.Prelude.{◌≡◌};
ghost use Rattle.std.specs.Result.{result_map_both};
ghost use Rattle.transactions.specs.Fields.{number_at};
ghost use Rattle.peer_core.specs.Heading.{kind_of, behind_round, sender_at, heading_in, heading_at, is_transaction_at, HeadingsLaw};

use transactions::Fault;
use transactions::fields::{u8_at, u16_at, u32_at, u64_at};

/// Which kind of message of a validator a frame brings.
#[derive(Clone, Copy, Debug, PartialEq, Eq)]
pub enum Kind {
    Proposal,
    Prevote,
    Precommit,
    Ask,
    Bundle,
}

/// The kind, the height and the sender of a validator's message.
#[derive(Clone, Copy, Debug, PartialEq, Eq)]
pub struct Heading {
    pub kind: Kind,
    pub height: u64,
    pub sender: u16,
}

/// Whether the frame brings a transaction: its kind, which stands behind its length, is 01 or 02.
pub fn is_transaction(frame: &[u8]) -> bool
    ensures { result ≡ is_transaction_at (number_at 4 frame.now) }
{
    let Ok((_, content)) = u32_at(frame) else {
        return false;
    };
    matches!(u8_at(content), Ok((1 | 2, _)))
}

/// The kind that a byte stands for, or `BadKind`.
fn kind_of(byte: u8) -> Result<Kind, Fault>
    ensures { result ≡ kind_of byte }
{
    match byte {
        0x10 => Ok(Kind::Proposal),
        0x11 => Ok(Kind::Prevote),
        0x12 => Ok(Kind::Precommit),
        0x13 => Ok(Kind::Ask),
        0x14 => Ok(Kind::Bundle),
        _ => Err(Fault::BadKind),
    }
}

/// The sender behind a round.
#[tactic(auto, unfolding(crate::specs::Heading::behind_round))]
fn behind_round(bytes: &[u8]) -> Result<(u16, &[u8]), Fault>
    ensures { result_map_both (λ x. (x.0, x.1.now)) (λ fault. fault) result ≡ behind_round bytes.now }
{
    let (_, rest) = u32_at(bytes)?;
    u16_at(rest)
}

/// The sender, which stands behind the height.
fn sender_in(kind: Kind, bytes: &[u8]) -> Result<(u16, &[u8]), Fault>
    ensures { result_map_both (λ x. (x.0, x.1.now)) (λ fault. fault) result ≡ sender_at kind bytes.now }
{
    match kind {
        Kind::Proposal | Kind::Prevote | Kind::Precommit => behind_round(bytes),
        Kind::Ask | Kind::Bundle => u16_at(bytes),
    }
}

/// The heading of a frame's content.
#[tactic(auto, unfolding(crate::specs::Heading::heading_in))]
fn heading_in(content: &[u8]) -> Result<Heading, Fault>
    ensures { result ≡ heading_in content.now }
{
    let (byte, rest) = u8_at(content)?;
    let kind = kind_of(byte)?;
    let (height, rest) = u64_at(rest)?;
    let (sender, _) = sender_in(kind, rest)?;
    Ok(Heading {
        kind,
        height,
        sender,
    })
}

/// The heading of a frame. Nothing behind it is looked at, nor whether the frame is whole. It takes no
/// memory.
///
/// Faults: `BadKind` (5) for a transaction and for what has no kind; `Truncated` (1) where the frame
/// ends before its sender.
#[tactic(auto, unfolding(crate::specs::Heading::heading_at))]
pub fn heading_of(frame: &[u8]) -> Result<Heading, Fault>
    ensures exact { result ≡ heading_at frame.now }
{
    let (_, content) = u32_at(frame)?;
    heading_in(content)
}

/// The heading of a message's frame is that of its body, and a frame is a transaction's where its body
/// is one.
pub fn headings_law()
    ensures { HeadingsLaw }
{}
