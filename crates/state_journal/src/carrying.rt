//! A plan is carried out: saved, and then applied.

ghost use Rattle.std.specs.Prelude.{◌≡◌, None, IfOk, IfErr, IfSome, OnOk, OnErr};
ghost use Rattle.vote_journal.specs.Grammar.{record_spelling, IsRecord};
ghost use Rattle.round_states.specs.Pending.{pending_of};
ghost use Rattle.round_states.specs.Plans.{says, applied, IsOfPlace};
ghost use Rattle.state_journal.specs.Saving.{IsWritten, IsUnwritten};

use crate::journal::{NodeJournal, Unfired};
use protocol::Timeout;
use round_states::{Plan, Said, State};
use vote_journal::Store;

/// What a firing leaves to its node: what may be let go, and a timeout to schedule.
#[derive(Drop)]
pub struct Fired {
    pub said: Option<Said>,
    pub timeout: Option<Timeout>,
}

/// Carries a plan of this state out: makes room for its change, saves its record, and then applies the change, which can't
/// fail. Refused, the state is as it was.
pub fn carry_out<S: Store + Drop>(
    state: &mut State,
    plan: Plan,
    spelled: Vec<u8>,
    journal: &mut NodeJournal<S>,
) -> Result<Fired, Unfired>
    requires place { IsOfPlace state.old plan.change (says plan) }
    requires spelled { IfSome (says plan) (λ r. IsRecord journal.old.me r → spelled.items ≡ record_spelling journal.old.me r) }
    requires room { state.old.room ≡ None }
    ensures state { OnOk result (state.new ≡ applied state.old plan) }
    ensures said { IfOk result (λ f. f.said ≡ pending_of state.old.me (says plan)) }
    ensures timeout { IfOk result (λ f. f.timeout ≡ plan.timeout) }
    ensures wrote { OnOk result (IsWritten (says plan) journal.old journal.new) }
    ensures unwritten { IfErr result (λ e. IsUnwritten e (says plan) journal.old journal.new) }
    ensures err { OnErr result (state.new ≡ state.old) }
{
    let Plan {
        entry,
        change,
        timeout,
    } = plan;
    state.make_room(&change)?;
    match journal.save(entry, spelled) {
        Ok(saved) => {
            let said = state.apply(change, saved);
            Ok(Fired { said, timeout })
        }
        Err(unfired) => {
            state.forget_room();
            Err(unfired)
        }
    }
}
