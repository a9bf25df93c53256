//! The certificate of a decision: the precommits that decided.

ghost use Rattle.std.specs.Prelude.{◌≡◌, ◌<◌, ◌==◌, ◌&&◌, ℕ, None, IfOk, find, option_to_list, slice_index_or};
ghost use Rattle.std.specs.Option.{option_copied};
ghost use Rattle.std.specs.List.{position_from};
ghost use Rattle.std.specs.Str.{bytes_eq};
ghost use Rattle.protocol.specs.Rules.{is_stamp};
ghost use Rattle.round_states.specs.Steps.{certificate_with, signed_with, noted, stamp_at};

use crate::state::State;
use messages::{Precommit, Step};
use powers::MOST_VALIDATORS;
use protocol::Stamp;
use std::alloc::AllocError;
use transactions::{Duplicate, Id, Seq};

/// The place of a stamp of each validator, where there is one.
type FirstStamps = [Option<usize>; MOST_VALIDATORS];

impl State {
    /// The kept precommits for an id, in order of sender, each once: the own one with these tags,
    /// another's with those that it came with.
    #[tactic(auto, unfolding(protocol::specs::Messages::below))]
    pub(crate) fn certificate(
        &self,
        round: u32,
        id: Id,
        own_tags: &[[u8; 32]],
    ) -> Result<Seq<Precommit>, AllocError>
        ensures { IfOk result (λ precommits. precommits ≡ certificate_with self.now own_tags.now round id) }
    {
        let firsts = first_stamps(&self.stamps, round, id);
        let mut precommits = Vec::new(self.alloc);
        for sender in 0..self.powers().count() {
            let first = stamp_at(&self.stamps, firsts[usize::from(sender)]);
            match self.signed_by(sender, round, id, own_tags, first)? {
                None => {}
                Some(precommit) => precommits.push(precommit)?,
            }
        }
        Ok(Seq::from_vec(precommits))
    }

    /// A validator's precommit for an id, if it is kept with its tags, which are those of its first stamp.
    fn signed_by(
        &self,
        sender: u16,
        round: u32,
        id: Id,
        own_tags: &[[u8; 32]],
        first: Option<&Stamp>,
    ) -> Result<Option<Precommit>, AllocError>
        requires { option_copied first ≡ find (is_stamp round id sender) self.now.state.stamps }
        ensures { IfOk result (λ signed. option_to_list signed ≡ signed_with self.now own_tags.now round id sender) }
    {
        if !self
            .tally
            .has_voted(sender, round, Step::Precommit, Some(id))
        {
            return Ok(None);
        }
        if sender == self.me() {
            let tags = Seq::from_vec(Vec::from_slice(self.alloc, own_tags)?);
            return Ok(Some(Precommit { sender, tags }));
        }
        match first {
            None => Ok(None),
            Some(stamp) => Ok(Some(stamp.signed.copy(self.alloc)?)),
        }
    }
}

/// The place of each validator's first stamp of this round and id. Senders past the last validator are passed over.
fn first_stamps(stamps: &[Stamp], round: u32, id: Id) -> FirstStamps
    ensures { (i : ℕ) → i < 128 → slice_index_or result i None ≡ position_from (is_stamp round id i) 0 stamps.now }
{
    let mut firsts = [None; MOST_VALIDATORS];
    for place in 0..stamps.len() {
        let stamp = &stamps[place];
        if is_of(stamp, round, id) {
            note(&mut firsts, stamp.signed.sender, place);
        }
    }
    firsts
}

/// Notes a stamp's place, where its sender has none yet.
fn note(firsts: &mut FirstStamps, sender: u16, place: usize)
    ensures { (i : ℕ) → i < 128 → slice_index_or firsts.new i None ≡ noted sender place i (slice_index_or firsts.old i None) }
{
    let sender = usize::from(sender);
    if sender < MOST_VALIDATORS && firsts[sender].is_none() {
        firsts[sender] = Some(place);
    }
}

fn stamp_at(stamps: &[Stamp], place: Option<usize>) -> Option<&Stamp>
    ensures { option_copied result ≡ stamp_at stamps.now place }
{
    match place {
        None => None,
        Some(place) => stamps.get(place),
    }
}

fn is_of(stamp: &Stamp, round: u32, id: Id) -> bool
    ensures { result ≡ ((stamp.now.round == round) && bytes_eq stamp.now.id id) }
{
    stamp.round == round && stamp.id == id
}
