//! What a validator makes of its own journal.

ghost use Rattle.std.specs.Prelude.{◌≡◌, ◌<◌, ◌≤◌, ◌^◌, ◌++◌, ℕ, List, [], true, None, IfOk, OnOk, All, map, flat_map, reverse, length, take, slice_index_or};
ghost use Rattle.transactions.specs.Grammar.{IsValue};
ghost use Rattle.messages.specs.declared.body.Bundle.{Bundle as AnyBundle};
ghost use Rattle.protocol.specs.Values.{items, valid};
ghost use Rattle.protocol.specs.Tags.{Setting};
ghost use Rattle.protocol.specs.Rings.{IsRingOf};
ghost use Rattle.protocol.specs.Refusals.{context};
ghost use Rattle.protocol.specs.Messages.{Record, Decided, body_of};
ghost use Rattle.protocol.specs.Records.{act_of};
ghost use Rattle.protocol.specs.Restart.{restart};
ghost use Rattle.protocol.specs.State.{Context};
ghost use Rattle.round_states.specs.Machine.{Agrees};
ghost use Rattle.round_states.specs.Replaying.{IsActTold, HasProposedValue};
ghost use Rattle.vote_journal.specs.Kept.{AreReplayable, said, journal_of};

use authenticators::KeyRing;
use frame_admission::is_genuine;
use messages::{Body, Bundle};
use protocol::{Act, OwnMessage};
use round_states::State;
use std::alloc::{AllocError, Global};
use vote_journal::body_of;

/// The state that a validator comes back to, and what it has said there.
#[derive(Drop)]
pub struct Restart {
    pub state: State,
    /// The own messages of the height, as they go to the others.
    pub said: Vec<Body>,
}

impl Restart {
    /// Of these decisions, and of the own messages since the last, for a validator of which nothing is known yet.
    pub fn of(
        alloc: Global,
        ring: &KeyRing,
        mut state: State,
        decisions: &[Bundle],
        own: &[OwnMessage],
    ) -> Result<Restart, AllocError>
        requires new { state.state ≡ restart state.me [] }
        requires room { state.room ≡ None }
        requires replayable { AreReplayable state.me decisions.now own.now }
        ensures state { IfOk result (λ r. r.state.state ≡ restart state.me (journal_of decisions.now own.now)) }
        ensures agrees { (c : Setting) (p : ℕ) → IsRingOf c p ring.now → Agrees (context c p) state → IfOk result (λ r. Agrees (context c p) r.state) }
        ensures room { IfOk result (λ r. r.state.room ≡ None) }
        ensures said { IfOk result (λ r. r.said.items ≡ map (λ m. body_of state.me m.height m.round (act_of m.act)) own.now) }
    {
        let said = bodies_of(alloc, state.me(), own)?;
        replay_decisions(&mut state, decisions)?;
        replay_own(alloc, ring, &mut state, own)?;
        Ok(Restart { state, said })
    }
}

/// The own messages as the bodies that go to the others, in order.
fn bodies_of(alloc: Global, me: u16, own: &[OwnMessage]) -> Result<Vec<Body>, AllocError>
    ensures { IfOk result (λ bodies. bodies.items ≡ map (λ m. body_of me m.height m.round (act_of m.act)) own.now) }
{
    let mut bodies = Vec::with_capacity(alloc, own.len())?;
    for message in own {
        bodies.push(body_of(alloc, me, message)?)?;
    }
    Ok(bodies)
}

/// One height after the other begins behind its decision.
fn replay_decisions(state: &mut State, decisions: &[Bundle]) -> Result<(), AllocError>
    requires new { state.old.state ≡ restart state.old.me [] }
    requires room { state.old.room ≡ None }
    requires few { length decisions.now ≤ 2 ^ 48 }
    requires fits { All (λ b. IsValue b.value) decisions.now }
    requires follow { (i : ℕ) (d : AnyBundle) → i < length decisions.now → valid (flat_map (λ (b : AnyBundle). items b.value) (take i decisions.now)) (slice_index_or decisions.now i d).value ≡ true }
    ensures restarts { OnOk result (state.new.state ≡ restart state.old.me (reverse (map Decided decisions.now))) }
    ensures height { OnOk result (state.new.state.height ≡ length decisions.now) }
    ensures me { OnOk result (state.new.me ≡ state.old.me) }
    ensures room { OnOk result (state.new.room ≡ None) }
    ensures agrees { OnOk result ((g : Context) → Agrees g state.old → Agrees g state.new) }
{
    for bundle in decisions {
        state.replay_decision(&bundle.value)?;
    }
    Ok(())
}

/// The own messages of the present height are said once more, to the state alone.
fn replay_own(
    alloc: Global,
    ring: &KeyRing,
    state: &mut State,
    own: &[OwnMessage],
) -> Result<(), AllocError>
    requires alone { state.old.state.valid_value ≡ None }
    requires room { state.old.room ≡ None }
    requires heights { All (λ m. m.height ≡ state.old.state.height) own.now }
    requires fits { All (λ m. HasProposedValue (act_of m.act)) own.now }
    ensures room { OnOk result (state.new.room ≡ None) }
    ensures restarts { OnOk result ((before : List Record) → state.old.state ≡ restart state.old.me before → state.new.state ≡ restart state.old.me (reverse (map said own.now) ++ before)) }
    ensures agrees { OnOk result ((c : Setting) (p : ℕ) → IsRingOf c p ring.now → Agrees (context c p) state.old → Agrees (context c p) state.new) }
{
    for message in own {
        let genuine = is_act_genuine(alloc, ring, &message.act)?;
        state.replay_own(message, genuine)?;
    }
    Ok(())
}

/// Whether the own tags of a proposed value's transactions are right. Of one with a valid round nobody asks, nor of votes.
fn is_act_genuine(alloc: Global, ring: &KeyRing, act: &Act) -> Result<bool, AllocError>
    requires { HasProposedValue (act_of act.now) }
    ensures { (c : Setting) (p : ℕ) → IsRingOf c p ring.now → IfOk result (λ genuine. IsActTold (context c p) (act_of act.now) genuine) }
{
    match act {
        Act::Proposing(None, value) => is_genuine(alloc, ring, value),
        Act::Proposing(Some(_), _) | Act::Prevoting(_) | Act::Precommitting(_) => Ok(true),
    }
}
