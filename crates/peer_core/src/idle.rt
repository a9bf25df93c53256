//! Proposals of no transactions, which may wait.

ghost use Rattle.std.specs.Prelude.{◌≡◌};
ghost use Rattle.std.specs.Result.{result_ok};
ghost use Rattle.peer_core.specs.Idle.{rest_in, idle_in, idle_at, IdleLaw};

use transactions::Fault;
use transactions::fields::{u8_at, u16_at, u32_at, u64_at};

/// What stands behind the kind of a proposal: its height, where it has no transactions and is of round 0.
#[tactic(auto, unfolding(crate::specs::Idle::rest_in))]
fn rest_in(bytes: &[u8]) -> Result<u64, Fault>
    ensures { result ≡ rest_in bytes.now }
{
    let (height, rest) = u64_at(bytes)?;
    let (round, rest) = u32_at(rest)?;
    let (_, rest) = u16_at(rest)?;
    let (_, rest) = u32_at(rest)?;
    let (count, _) = u16_at(rest)?;
    if round == 0 && count == 0 {
        Ok(height)
    } else {
        Err(Fault::BadKind)
    }
}

/// The height of a frame's content, where it is such a proposal.
#[tactic(auto, unfolding(crate::specs::Idle::idle_in))]
fn idle_in(content: &[u8]) -> Result<u64, Fault>
    ensures { result ≡ idle_in content.now }
{
    match u8_at(content)? {
        (0x10, rest) => rest_in(rest),
        _ => Err(Fault::BadKind),
    }
}

#[tactic(auto, unfolding(crate::specs::Idle::idle_at))]
fn idle_at(frame: &[u8]) -> Result<u64, Fault>
    ensures { result ≡ idle_at frame.now }
{
    let (_, content) = u32_at(frame)?;
    idle_in(content)
}

/// The height of a proposal of no transactions in round 0, if the frame brings one. Nothing behind the number of transactions is
/// looked at, nor whether the frame is whole. It takes no memory.
pub fn idle_height(frame: &[u8]) -> Option<u64>
    ensures exact { result ≡ result_ok (idle_at frame.now) }
{
    idle_at(frame).ok()
}

/// A message's frame brings a proposal of no transactions in round 0 where its body is one.
pub fn idle_law()
    ensures { IdleLaw }
{}
