//! What has to be asked of a world's run, and no more: that less than a third of the power lies, that no frame bears a
//! correct party's tag that this party didn't make, and that no two of its values share a digest.
//!
//! `protocol` and `world_schedule` ask also that each event is at a correct validator. Of a world of code that is a
//! fact: it makes calls of correct validators alone. So of the report of a world's first run, as `tmsim` prints it where
//! no `state` line parts the run, nothing is asked but these three.
//!
//! Each theorem is the contract of a function that does nothing, and no program rests on it.
#![tactic(auto)]

ghost use Rattle.fair_worlds.specs.Laws.{CorrectCallsLaw, FairLaw, ReportLaw};

/// A world makes calls of correct validators alone: as it is opened, and in each run.
pub fn correct_calls_law()
    ensures { CorrectCallsLaw }
{}

/// Of a world's calls only the three are to be asked for the headline.
pub fn fair_law()
    ensures { FairLaw }
{}

/// Of what any two ends of a world's first report tell that was delivered one begins the other, each keeps every client's
/// order, and a correct client's items in it begin what the client sent.
pub fn report_law()
    ensures { ReportLaw }
{}
