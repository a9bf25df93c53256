//! What holds of every store and every stop.

ghost use Rattle.stopped_cores.specs.Laws.{ComesBackLaw, GoesOnLaw, StoppedCoresLaw};

use vote_journal::Store;

/// A core is its validator's after the calls so far, and its journal serves or failed as something was being saved; so it
/// is after each further call, its own or another's.
pub fn goes_on_law()
    ensures { GoesOnLaw }
{}

/// Where a core ends, at a close or a stop, its store holds its validator's journal, or that and what was being saved; no
/// opening calls that no journal, and the core that is opened over it is its validator's after a restart.
pub fn comes_back_law<S: Store>()
    ensures { ComesBackLaw S.seen S.may_leave }
{}

/// The headline of what such cores tell: whatever less than a third of the power does and wherever stops come, where no tag is
/// forged and no two values have one digest.
pub fn stopped_cores_law()
    ensures { StoppedCoresLaw }
{}
