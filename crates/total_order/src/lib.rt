//! The headline in the form in which total order broadcast is known, and why rounds can't decide differently.
//!
//! `protocol` proves its headline of pairs of lists at two moments. Here it is said once: there is one list of which
//! each correct validator's delivered list is a beginning at each moment. The argument about locks, which `protocol`
//! proves of journals, is said of votes alone: whoever asks whether the algorithm is right reads these 50 lines of
//! `specs/`, and whoever asks whether the validator follows it reads the contracts.
//!
//! Each theorem is the contract of a function that does nothing, and no other crate uses this one.
#![tactic(auto)]

ghost use Rattle.total_order.specs.Laws.{OneListLaw};
ghost use Rattle.total_order.specs.Locks.{LocksLaw, OneDecisionLaw};

/// There is one list, in the clients' order, of which each correct validator's delivered list at each moment is a
/// beginning, and of which each correct client's items begin what it sent; and nothing is in it that no correct
/// validator delivered.
pub fn one_list_law()
    ensures { OneListLaw }
{}

/// Where a quorum precommitted a value, no later round has a quorum of prevotes for another one.
pub fn locks_law()
    ensures { LocksLaw }
{}

/// Two quorums of precommits, each of one round, are for one value.
pub fn one_decision_law()
    ensures { OneDecisionLaw }
{}
