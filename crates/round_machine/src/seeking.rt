//! The first kept proposal of a round that a stage seeks. No other round's proposals are looked at.

ghost use Rattle.std.specs.Prelude.{◌≡◌, ◌<◌, length};
ghost use Rattle.round_states.specs.Steps.{proposal_at};
ghost use Rattle.round_machine.specs.Judging.{is_sought, first_sought};

use crate::deciding::can_decide;
use crate::naming::{can_lock, can_prevote_again, is_fresh};
use round_states::State;

/// What a stage seeks among the kept proposals.
#[derive(Clone, Copy)]
pub(crate) enum Sought {
    /// One that may be prevoted as fresh.
    Fresh,
    /// One that may be prevoted by its valid round.
    Backed,
    /// One that may be locked.
    Lockable,
    /// One that may be decided.
    Decidable,
}

/// The first place of a round whose proposal is sought.
pub(crate) fn first_place(state: &State, round: u32, sought: Sought) -> Option<usize>
    ensures { result ≡ first_sought state.now.powers state.now.state round sought }
{
    for place in state.places(round) {
        if is_sought(state, *place, sought) {
            return Some(*place);
        }
    }
    None
}

/// The proposal at a place is sought.
fn is_sought(state: &State, place: usize, sought: Sought) -> bool
    requires { place < length state.now.state.proposals }
    ensures { result ≡ is_sought state.now.powers state.now.state sought (proposal_at state.now.state place) }
{
    let kept = &state.kept()[place];
    match sought {
        Sought::Fresh => is_fresh(state, kept),
        Sought::Backed => can_prevote_again(state, kept),
        Sought::Lockable => can_lock(state, kept),
        Sought::Decidable => can_decide(state, kept),
    }
}
