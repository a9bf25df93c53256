//! What holds of every world, by the definitions alone.

ghost use Rattle.world_schedule.specs.Reports.{ReportLaw};
ghost use Rattle.world_schedule.specs.Rings.{RingLaw};
ghost use Rattle.world_schedule.specs.Runs.{DeliveredLaw, MadeLaw, PastLaw, RunLaw};
ghost use Rattle.world_schedule.specs.Seeing.{SeeingLaw};

/// What a validator makes of what comes, and how it tags what it says, depends on what it sees of a setting alone: the
/// powers, which clients have keys, the keys of what comes to it and of what it sends. Keys that others share among
/// themselves move nothing.
pub fn seeing_law()
    ensures { SeeingLaw }
{}

/// What a validator sees of a setting is what its ring of keys has.
pub fn ring_law()
    ensures { RingLaw }
{}

/// A call of a validator's node, with the number of its firings, is a list of events: they leave every node, what each
/// client sent, and what can be delivered as the call does.
pub fn made_law()
    ensures { MadeLaw }
{}

/// Whatever calls are made of several validators' nodes, and whatever clients send between them: the nodes are those of one
/// run, whose events are a function of the calls and their numbers of firings.
pub fn run_law()
    ensures { RunLaw }
{}

/// A node's delivered list after some calls begins the one after more of them, its own or others'.
pub fn past_law()
    ensures { PastLaw }
{}

/// Of two correct validators' delivered lists, after some calls and after more of them, one begins the other; each keeps
/// every client's order, and a correct client's items in it begin what the client sent. The premises are on the very run
/// that the calls are.
pub fn delivered_law()
    ensures { DeliveredLaw }
{}

/// The report of any calls tells each decision in a validator's journal, in order, and each message that a validator
/// released or a client sent, once, and no other.
pub fn report_law()
    ensures { ReportLaw }
{}
