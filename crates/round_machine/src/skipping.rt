//! The round that is skipped to: the highest in which a weak quorum has messages.

ghost use Rattle.std.specs.Prelude.{◌≡◌};
ghost use Rattle.protocol.specs.Order as order;
ghost use Rattle.round_machine.specs.Judging.{later_weak, if_later};

use round_states::State;

/// The highest round above the own one in which a weak quorum has kept messages.
pub(crate) fn highest_weak(state: &State) -> Option<u32>
    ensures { result ≡ order.highest (later_weak state.now.powers state.now.state) (order.rounds_of state.now.state) }
{
    if_later(state.tally().highest_weak(), state.round())
}

/// A round, if it is later than the own one.
fn if_later(round: Option<u32>, own: u32) -> Option<u32>
    ensures { result ≡ if_later own round }
{
    match round {
        None => None,
        Some(round) => { if round > own { Some(round) } else { None } }
    }
}
