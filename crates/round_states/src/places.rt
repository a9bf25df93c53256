//! The places of kept proposals, by round.

ghost use Rattle.std.specs.Prelude.{◌≡◌, ◌==◌, ◌++◌, ◌∷◌, [], ℕ, cond, map, IfOk, OnOk};
ghost use Rattle.round_states.specs.Found.{proposal_in};
ghost use Rattle.round_states.specs.Places.{places_of, places_at, HasRoom};

use crate::state::KeptProposal;
use std::alloc::{AllocError, Global};
use std::collections::BTreeMap;

/// The places of the proposals of each round, in order. A round that isn't there has none.
pub(crate) type Places = BTreeMap<u32, Vec<usize>>;

/// The places of a round's proposals.
pub(crate) fn places_at(places: &Places, round: u32) -> &[usize]
    ensures { result.now ≡ places_at places.now round }
{
    match places.get(&round) {
        None => &[],
        Some(list) => list.as_slice(),
    }
}

/// Makes room for one more place of a round, which changes no list.
pub(crate) fn make_room(alloc: Global, places: &mut Places, round: u32) -> Result<(), AllocError>
    ensures same { (r : ℕ) → places_at places.new r ≡ places_at places.old r }
    ensures room { OnOk result (HasRoom places.new round) }
{
    if !places.contains_key(&round) {
        places.insert(round, Vec::new(alloc))?;
    }
    match places.get_mut(&round) {
        None => Ok(()),
        Some(list) => list.reserve(1),
    }
}

/// Adds a place of a round, for which there is room.
pub(crate) fn add_place(places: &mut Places, round: u32, place: usize)
    requires { HasRoom places.old round }
    ensures { (r : ℕ) → places_at places.new r ≡ cond (round == r) (places_at places.old r ++ place ∷ []) (places_at places.old r) }
{
    if let Some(list) = places.get_mut(&round) {
        list.push_reserved(place);
    }
}

/// The places of a list's proposals.
pub(crate) fn places_in(alloc: Global, kept: &[KeptProposal]) -> Result<Places, AllocError>
    ensures { IfOk result (λ places. (r : ℕ) → places_at places r ≡ places_of r (map proposal_in kept.now)) }
{
    let mut places = BTreeMap::new(alloc);
    for place in 0..kept.len() {
        let round = kept[place].proposal.round;
        make_room(alloc, &mut places, round)?;
        add_place(&mut places, round, place);
    }
    Ok(places)
}
