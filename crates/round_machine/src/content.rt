//! What a prevote says: a proposal's id, or nil.

ghost use Rattle.std.specs.Prelude.{◌≡◌, ◌<◌, ◌&&◌, Some, None, IsSome, length, unwrap_or};
ghost use Rattle.std.specs.Option.{option_copied};
ghost use Rattle.protocol.specs.Values.{valid};
ghost use Rattle.protocol.specs.State.{Context};
ghost use Rattle.protocol.specs.Rules.{lock_is, lock_allows, content_if};
ghost use Rattle.round_states.specs.Machine.{Agrees};
ghost use Rattle.round_states.specs.Steps.{proposal_at};

use protocol::ValueAt;
use round_states::{KeptProposal, State};
use transactions::{Id, Value, same_value};

/// What a prevote for a fresh proposal says: its id, if it is valid and genuine and no lock forbids it
/// (lines 23 to 26).
pub(crate) fn fresh_content(state: &State, place: usize) -> Option<Id>
    ghost g: { Context }
    requires agrees { Agrees g state.now }
    requires placed { place < length state.now.state.proposals }
    requires fresh { (proposal_at state.now.state place).valid_round ≡ None }
    ensures { let s = state.now.state in let v = (proposal_at s place).value in result ≡ content_if (valid s.delivered v && g.genuine v && lock_is s.lock v) v }
{
    let kept = &state.kept()[place];
    if is_fit(kept, state.lock()) {
        Some(kept.id)
    } else {
        None
    }
}

fn is_fit(kept: &KeptProposal, lock: Option<&ValueAt>) -> bool
    ensures { result ≡ (kept.now.is_valid && kept.now.is_genuine && lock_is (option_copied lock.entry) kept.now.proposal.value) }
{
    kept.is_valid && kept.is_genuine && lock_is(lock, &kept.proposal.value)
}

/// No lock, or one on this value.
fn lock_is(lock: Option<&ValueAt>, value: &Value) -> bool
    ensures { result ≡ lock_is (option_copied lock.entry) value.now }
{
    match lock {
        None => true,
        Some(lock) => same_value(lock.value.value(), value),
    }
}

/// What a prevote for a proposal with a valid round says: its id, if it is valid and no later lock
/// forbids it (lines 29 to 32).
pub(crate) fn again_content(state: &State, place: usize) -> Option<Id>
    requires placed { place < length state.now.state.proposals }
    requires again { IsSome (proposal_at state.now.state place).valid_round }
    ensures { let s = state.now.state in let q = proposal_at s place in result ≡ content_if (valid s.delivered q.value && lock_allows s.lock (unwrap_or q.valid_round 0) q.value) q.value }
{
    let kept = &state.kept()[place];
    let round = kept.proposal.valid_round.unwrap_or(0);
    if kept.is_valid && lock_allows(state.lock(), round, &kept.proposal.value) {
        Some(kept.id)
    } else {
        None
    }
}

/// No lock, one up to this round, or one on this value.
fn lock_allows(lock: Option<&ValueAt>, round: u32, value: &Value) -> bool
    ensures { result ≡ lock_allows (option_copied lock.entry) round value.now }
{
    match lock {
        None => true,
        Some(lock) => lock.round <= round || same_value(lock.value.value(), value),
    }
}
