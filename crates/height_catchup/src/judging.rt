//! Whether a bundle that another validator sent decides its height.

ghost use Rattle.std.specs.Prelude.{◌≡◌, ℕ, List, IfOk};
ghost use Rattle.std.specs.Str.{bytes_eq};
ghost use Rattle.powers.specs.Power.{power};
ghost use Rattle.transactions.specs.Grammar.{IsValue};
ghost use Rattle.protocol.specs.Values.{Item, id};
ghost use Rattle.protocol.specs.Tags.{Setting};
ghost use Rattle.protocol.specs.Rings.{IsRingOf};
ghost use Rattle.protocol.specs.Refusals.{first_cause, judge_causes, named_senders};
ghost use Rattle.proposal_validity.specs.Standing.{IsFrontierOf};
ghost use Rattle.height_catchup.specs.Judging.{IsVerdict};

use crate::vouching::vouching_power;
use authenticators::KeyRing;
use messages::Bundle;
use powers::{MOST_VALIDATORS, Powers};
use proposal_validity::Frontier;
use protocol::JudgeFault;
use std::alloc::{AllocError, Global};
use transactions::value_id;

/// Judges a bundle by the own keys: whether its id is its value's, a quorum precommitted the id at the
/// bundle's height and round, and the value may be delivered next.
///
/// The caller compares the bundle's height with its own. A precommit of a number that is no
/// validator's has no power, and counts against nothing.
pub fn judge(
    alloc: Global,
    bundle: &Bundle,
    powers: &Powers,
    ring: &KeyRing,
    frontier: &Frontier,
) -> Result<(), JudgeFault>
    requires { IsValue bundle.now.value }
    ensures { (c : Setting) (p : ℕ) (d : List Item) → c.powers ≡ powers.now → IsRingOf c p ring.now → IsFrontierOf d frontier.now
        → IsVerdict (first_cause (judge_causes c p d bundle.now)) result }
{
    if !has_own_id(alloc, bundle)? {
        return Err(JudgeFault::WrongDigest);
    }
    if !powers.is_quorum(named_power(bundle, powers)) {
        return Err(JudgeFault::NoQuorum);
    }
    if !powers.is_quorum(vouching_power(alloc, bundle, powers, ring)?) {
        return Err(JudgeFault::BadTag);
    }
    if !frontier.valid(&bundle.value) {
        return Err(JudgeFault::NotValid);
    }
    Ok(())
}

/// Whether the bundle's id is its value's.
#[tactic(auto, unfolding(protocol::specs::Values::id))]
fn has_own_id(alloc: Global, bundle: &Bundle) -> Result<bool, AllocError>
    requires { IsValue bundle.now.value }
    ensures { IfOk result (λ own. own ≡ bytes_eq bundle.now.id (id bundle.now.value)) }
{
    let id = value_id(alloc, &bundle.value).map_err(|_| AllocError)?;
    Ok(bundle.id == id)
}

/// The power of those that the precommits name as their senders.
fn named_power(bundle: &Bundle, powers: &Powers) -> u64
    ensures { result ≡ power powers.now (named_senders bundle.now) }
{
    let mut marks = [false; MOST_VALIDATORS];
    for precommit in bundle.precommits.as_slice() {
        if usize::from(precommit.sender) < MOST_VALIDATORS {
            marks[usize::from(precommit.sender)] = true;
        }
    }
    powers.power_of_set(&marks)
}
