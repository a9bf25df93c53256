//! What the ends of a report come to.

ghost use Rattle.world_schedule.specs.Ends.{EndsLaw, SceneLaw};
ghost use Rattle.world_schedule.specs.Outcome.{ComingLaw, OutcomeLaw, ReportsLaw};

/// Any two ends of one report, of correct validators: of their delivered lists one begins the other, each keeps every
/// client's order, and a correct client's items in it begin what the client sent. The premises are on the very run that
/// the report's calls are.
pub fn ends_law()
    ensures { EndsLaw }
{}

/// A scene after some calls has the nodes that the calls leave, and what the clients sent in them.
pub fn scene_law()
    ensures { SceneLaw }
{}

/// Whatever a report tells of a world's run, each call of it is one of its event's, in the events' order: a client's item, or what was asked of a validator
/// for the event.
pub fn coming_law()
    ensures { ComingLaw }
{}

/// Any two ends of the report of a world's run, of correct validators, tell one list: of what they delivered one begins the
/// other, each keeps every client's order, and a correct client's items in it begin what the client sent. Less than a third of the
/// power lies in the run, no tag is forged in it, and no two values of it have one digest. It is asked that the calls are of the
/// events, and no more: a report tells just what each came to, and by `coming_law` that is more.
pub fn outcome_law()
    ensures { OutcomeLaw }
{}

/// Any end of a report of a world's run and any end of a later report of the same world, whatever was done between. Of one
/// validator the earlier delivered list begins the later. Of two correct ones, under the premises of `outcome_law`, one begins the
/// other, the later keeps every client's order, and a correct client's items in it begin what the client sent.
pub fn reports_law()
    ensures { ReportsLaw }
{}
