//! Timeouts that are due.

ghost use Rattle.std.specs.Prelude.{◌≡◌, ◌==◌, ◌&&◌};
ghost use Rattle.protocol.specs.Calls.{timeout_answer};
ghost use Rattle.protocol.specs.State.{Context, TimedOut};
ghost use Rattle.protocol.specs.Rules.{holds};
ghost use Rattle.round_machine.specs.Timing.{IsRefusal};

use protocol::{MOST_ROUNDS, Refusal, Step, Timeout};
use round_states::State;

/// Whether a timeout that is due may fire as [`Rule::TimedOut`](crate::Rule::TimedOut): it is of the
/// present height and round, and of the present step or of precommits (lines 57, 61 and 65). One that
/// doesn't fit does nothing.
pub fn holds_timeout(state: &State, timeout: Timeout) -> bool
    ensures { (g : Context) → result ≡ holds g state.now.state (TimedOut timeout) }
{
    if !is_of_round(state, timeout) {
        return false;
    }
    match timeout.kind {
        Step::Propose | Step::Prevote => state.has_begun() && state.step() == timeout.kind,
        Step::Precommit => state.has_begun() && state.round() < MOST_ROUNDS,
    }
}

/// What is answered to a timeout that is due: `RoundLimit` where it would end the last round, 1,000,000.
/// Any other is no refusal, whether it holds or not.
pub fn timeout_refusal(state: &State, timeout: Timeout) -> Option<Refusal>
    ensures { IsRefusal (timeout_answer state.now.state timeout) result }
{
    let ends_round = timeout.kind == Step::Precommit && state.has_begun();
    if is_of_round(state, timeout) && ends_round && state.round() >= MOST_ROUNDS {
        Some(Refusal::RoundLimit)
    } else {
        None
    }
}

/// The timeout is of the present height and round.
fn is_of_round(state: &State, timeout: Timeout) -> bool
    ensures { result ≡ ((timeout.height == state.now.state.height) && (timeout.round == state.now.state.round)) }
{
    timeout.height == state.height() && timeout.round == state.round()
}
