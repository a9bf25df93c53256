//! The prevotes that an own message rests on: others can follow it only where they have them.

ghost use Rattle.std.specs.Prelude.{◌≡◌};
ghost use Rattle.std.specs.Result.{result_ok};
ghost use Rattle.peer_core.specs.Grounds.{grounds_in, grounds_at, rests_on, prevote_in, prevote_at, value_in, value_at, named_by, grounds_of, is_prevote_of, value_of, after, includes};

use transactions::Fault;
use transactions::fields::{array_at, u8_at, u16_at, u32_at, u64_at};

/// Returns what a message of this kind and round rests on: what stands behind its sender is the valid round of a proposal, one
/// more than it, or whether a vote is for a value.
#[tactic(auto, unfolding(crate::specs::Grounds::rests_on))]
fn rests_on(kind: u8, round: u32, bytes: &[u8]) -> Result<Option<u32>, Fault>
    ensures { result ≡ rests_on kind round bytes.now }
{
    match kind {
        0x10 => {
            let (valid, _) = u32_at(bytes)?;
            Ok(valid.checked_sub(1))
        }
        0x12 => {
            let (content, _) = u8_at(bytes)?;
            Ok(if content == 0 { None } else { Some(round) })
        }
        _ => Ok(None),
    }
}

/// Returns what a frame's content rests on.
#[tactic(auto, unfolding(crate::specs::Grounds::grounds_in))]
fn grounds_in(content: &[u8]) -> Result<Option<u32>, Fault>
    ensures { result ≡ grounds_in content.now }
{
    let (kind, rest) = u8_at(content)?;
    let (_, rest) = u64_at(rest)?;
    let (round, rest) = u32_at(rest)?;
    let (_, rest) = u16_at(rest)?;
    rests_on(kind, round, rest)
}

#[tactic(auto, unfolding(crate::specs::Grounds::grounds_at))]
fn grounds_at(frame: &[u8]) -> Result<Option<u32>, Fault>
    ensures { result ≡ grounds_at frame.now }
{
    let (_, content) = u32_at(frame)?;
    grounds_in(content)
}

/// Returns the round of the prevotes that a frame rests on: that of a precommit for a value, and the valid round of a proposal.
/// Nothing else of it is looked at, nor whether it is whole. It takes no memory.
pub fn grounds_of(frame: &[u8]) -> Option<u32>
    ensures { result ≡ grounds_of frame.now }
{
    match grounds_at(frame) {
        Ok(round) => round,
        Err(_) => None,
    }
}

/// Returns whether a frame's content is a prevote of this round for a value.
#[tactic(auto, unfolding(crate::specs::Grounds::prevote_in))]
fn prevote_in(round: u32, content: &[u8]) -> Result<bool, Fault>
    ensures { result ≡ prevote_in round content.now }
{
    let (kind, rest) = u8_at(content)?;
    let (_, rest) = u64_at(rest)?;
    let (own, rest) = u32_at(rest)?;
    let (_, rest) = u16_at(rest)?;
    let (content, _) = u8_at(rest)?;
    Ok(kind == 0x11 && own == round && content != 0)
}

#[tactic(auto, unfolding(crate::specs::Grounds::prevote_at))]
fn prevote_at(round: u32, frame: &[u8]) -> Result<bool, Fault>
    ensures { result ≡ prevote_at round frame.now }
{
    let (_, content) = u32_at(frame)?;
    prevote_in(round, content)
}

/// Returns whether a frame brings a prevote of this round for a value. Nothing else of it is looked at, nor whether it is whole. It
/// takes no memory.
pub fn is_prevote_of(frame: &[u8], round: u32) -> bool
    ensures { result ≡ is_prevote_of frame.now round }
{
    prevote_at(round, frame) == Ok(true)
}

/// Returns the value that a vote of this kind names, by its digest. Another message names none here.
#[tactic(auto, unfolding(crate::specs::Grounds::named_by))]
fn named_by(kind: u8, bytes: &[u8]) -> Result<Option<[u8; 32]>, Fault>
    ensures { result ≡ named_by kind bytes.now }
{
    if kind != 0x11 && kind != 0x12 {
        return Ok(None);
    }
    let (content, rest) = u8_at(bytes)?;
    if content == 0 {
        return Ok(None);
    }
    let (value, _) = array_at(rest)?;
    Ok(Some(value))
}

#[tactic(auto, unfolding(crate::specs::Grounds::value_in))]
fn value_in(content: &[u8]) -> Result<Option<[u8; 32]>, Fault>
    ensures { result ≡ value_in content.now }
{
    let (kind, rest) = u8_at(content)?;
    let (_, rest) = u64_at(rest)?;
    let (_, rest) = u32_at(rest)?;
    let (_, rest) = u16_at(rest)?;
    named_by(kind, rest)
}

#[tactic(auto, unfolding(crate::specs::Grounds::value_at))]
fn value_at(frame: &[u8]) -> Result<Option<[u8; 32]>, Fault>
    ensures { result ≡ value_at frame.now }
{
    let (_, content) = u32_at(frame)?;
    value_in(content)
}

/// Returns the digest of the value that a frame's vote is for, if it is a vote for one. Nothing else of it is looked at, nor whether it
/// is whole. It takes no memory.
pub fn value_of(frame: &[u8]) -> Option<[u8; 32]>
    ensures { result ≡ value_of frame.now }
{
    match value_at(frame) {
        Ok(value) => value,
        Err(_) => None,
    }
}

/// The prevotes that a validator's own messages rest on: those of a round for a value, whose digest is known where a precommit named it.
#[derive(Clone, Copy, Debug, PartialEq, Eq)]
pub struct Grounds {
    pub round: u32,
    pub value: Option<[u8; 32]>,
}

impl Grounds {
    /// What the own messages rest on with this one too, which was sent now or, where it is sent again, before. A later one never rests
    /// on a lower round.
    pub fn after(known: Option<Grounds>, frame: &[u8]) -> Option<Grounds>
        ensures { result ≡ after known frame.now }
    {
        let Some(round) = grounds_of(frame) else {
            return known;
        };
        match known {
            Some(known) if round < known.round => Some(known),
            Some(known) if round == known.round && known.value.is_some() => Some(known),
            _ => Some(Grounds {
                round,
                value: value_of(frame),
            }),
        }
    }

    /// Returns whether a frame brings one of these prevotes.
    pub fn includes(&self, frame: &[u8]) -> bool
        ensures { result ≡ includes self.now frame.now }
    {
        is_prevote_of(frame, self.round) && (self.value.is_none() || value_of(frame) == self.value)
    }
}
