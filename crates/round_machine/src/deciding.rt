//! The proposal that is decided first: of the lowest round, and the first that came of it.

ghost use Rattle.std.specs.Prelude.{◌≡◌, ◌<◌, option_map, IfSome, length};
ghost use Rattle.protocol.specs.Order as order;
ghost use Rattle.round_states.specs.Steps.{proposal_at};
ghost use Rattle.round_machine.specs.Judging.{can_decide, is_sooner_than, sooner_place};

use crate::naming::{has_quorum, stands_at};
use crate::seeking::{Sought, first_place};
use messages::Step as VoteStep;
use round_states::{KeptProposal, State};

/// A place among the kept proposals, and the round of the proposal there.
#[derive(Clone, Copy)]
pub(crate) struct Place {
    number: usize,
    round: u32,
}

/// The place of the decidable proposal that goes first. Only rounds in which a quorum precommitted one id are
/// looked at.
pub(crate) fn soonest_decidable(state: &State) -> Option<usize>
    ensures soonest { option_map (proposal_at state.now.state) result ≡ order.soonest (order.is_decidable state.now.powers state.now.state) state.now.state.proposals }
    ensures placed { IfSome result (λ place. place < length state.now.state.proposals) }
{
    let mut best: Option<Place> = None;
    for round in state.tally().decisive() {
        let found = first_place(state, *round, Sought::Decidable);
        best = sooner(best, *round, found);
    }
    match best {
        None => None,
        Some(place) => Some(place.number),
    }
}

/// The sooner of the best so far and what was found in a round.
fn sooner(best: Option<Place>, round: u32, found: Option<usize>) -> Option<Place>
    ensures { result ≡ sooner_place best round found }
{
    match found {
        None => best,
        Some(number) => {
            let place = Place { number, round };
            if is_sooner(place, best) {
                Some(place)
            } else {
                best
            }
        }
    }
}

fn is_sooner(place: Place, best: Option<Place>) -> bool
    ensures { result ≡ is_sooner_than place best }
{
    match best {
        None => true,
        Some(best) => place.round < best.round,
    }
}

pub(crate) fn can_decide(state: &State, kept: &KeptProposal) -> bool
    ensures { result ≡ can_decide state.now.powers state.now.state kept.now }
{
    let round = kept.proposal.round;
    stands_at(state, kept, round)
        && kept.is_valid
        && has_quorum(state, round, VoteStep::Precommit, Some(kept.id))
}
