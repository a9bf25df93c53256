//! A schedule in whose events nothing is said in a correct party's name forges nothing.
//!
//! `fair_worlds` asks of the run that a report of `tmsim` tells of that no frame bears a tag that a correct party didn't
//! make. Here that is a fact of each schedule without raw frames, in which what is in a correct client's name is what that
//! client has sent by then: each validator says, and hands on, nothing of another but what came to it, also over its
//! restarts and the failures of its store, and liars sign in liars' names alone. Whether a schedule is one is seen from
//! its events. So whoever reads its report takes two things for granted: that less than a third of the power lies, and
//! that no two values share a digest.
//!
//! Each theorem is the contract of a function that does nothing, and no other crate uses this one.
#![tactic(auto)]

ghost use Rattle.unforged_worlds.specs.Laws.{ScheduleLaw, UnforgedLaw};

/// Nothing that comes to a validator is forged, where a schedule hands in no raw frame, and nothing in a correct client's
/// name that this one hasn't sent before.
pub fn unforged_law()
    ensures { UnforgedLaw }
{}

/// Of what any two ends of a report of such a schedule tell that was delivered one begins the other, each keeps every
/// client's order, and a correct client's items in it begin what the client sent.
pub fn schedule_law()
    ensures { ScheduleLaw }
{}
