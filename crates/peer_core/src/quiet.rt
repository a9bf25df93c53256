//! Frames that a height brings in which nothing happens.

ghost use Rattle.std.specs.Prelude.{◌≡◌};
ghost use Rattle.peer_core.specs.Quiet.{value_in, first_vote_in, first_vote_at, is_quiet, count_in, proposed_in, proposed_at, has_transactions};

use crate::idle::idle_height;
use transactions::Fault;
use transactions::fields::{u8_at, u16_at, u32_at, u64_at};

/// Returns whether what stands behind the kind of a vote is of round 0, and for a value.
#[tactic(auto, unfolding(crate::specs::Quiet::value_in))]
fn is_for_value(bytes: &[u8]) -> Result<bool, Fault>
    ensures { result ≡ value_in bytes.now }
{
    let (_, rest) = u64_at(bytes)?;
    let (round, rest) = u32_at(rest)?;
    let (_, rest) = u16_at(rest)?;
    let (content, _) = u8_at(rest)?;
    Ok(round == 0 && content != 0)
}

/// Returns whether a frame brings a vote of round 0 for a value.
#[tactic(auto, unfolding(crate::specs::Quiet::first_vote_at))]
fn is_first_vote(frame: &[u8]) -> Result<bool, Fault>
    ensures { result ≡ first_vote_at frame.now }
{
    let (_, content) = u32_at(frame)?;
    is_first_vote_in(content)
}

/// Returns whether a frame's content is a vote of round 0 for a value.
#[tactic(auto, unfolding(crate::specs::Quiet::first_vote_in))]
fn is_first_vote_in(content: &[u8]) -> Result<bool, Fault>
    ensures { result ≡ first_vote_in content.now }
{
    match u8_at(content)? {
        (0x11 | 0x12, rest) => is_for_value(rest),
        _ => Ok(false),
    }
}

/// Returns whether a frame brings a proposal of no transactions or a vote for a value, of round 0: an idle height brings no others.
/// Nothing else of it is looked at, nor whether it is whole. It takes no memory.
pub fn is_quiet(frame: &[u8]) -> bool
    ensures { result ≡ is_quiet frame.now }
{
    idle_height(frame).is_some() || is_first_vote(frame) == Ok(true)
}

/// Returns how many transactions a proposal has, which stands behind its kind.
#[tactic(auto, unfolding(crate::specs::Quiet::count_in))]
fn count_in(bytes: &[u8]) -> Result<u16, Fault>
    ensures { result ≡ count_in bytes.now }
{
    let (_, rest) = u64_at(bytes)?;
    let (_, rest) = u32_at(rest)?;
    let (_, rest) = u16_at(rest)?;
    let (_, rest) = u32_at(rest)?;
    let (count, _) = u16_at(rest)?;
    Ok(count)
}

/// Returns how many transactions a frame's content proposes.
#[tactic(auto, unfolding(crate::specs::Quiet::proposed_in))]
fn proposed_in(content: &[u8]) -> Result<u16, Fault>
    ensures { result ≡ proposed_in content.now }
{
    match u8_at(content)? {
        (0x10, rest) => count_in(rest),
        _ => Ok(0),
    }
}

/// Returns how many transactions a frame proposes.
#[tactic(auto, unfolding(crate::specs::Quiet::proposed_at))]
fn proposed_at(frame: &[u8]) -> Result<u16, Fault>
    ensures { result ≡ proposed_at frame.now }
{
    let (_, content) = u32_at(frame)?;
    proposed_in(content)
}

/// Returns whether a frame brings a proposal of some transactions, of whatever round. Nothing behind their number is looked at, nor
/// whether the frame is whole. It takes no memory.
pub fn has_transactions(frame: &[u8]) -> bool
    ensures { result ≡ has_transactions frame.now }
{
    proposed_at(frame).is_ok_and(|count| count > 0)
}
