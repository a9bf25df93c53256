//! What the public contracts of a node's core say of a world whose powers and keys it has.

ghost use Rattle.world_schedule.specs.Answered.{AnsweredLaw};
ghost use Rattle.world_schedule.specs.Cores.{CalledLaw, CoreLaw, KeptLaw, OwnLaw};
ghost use Rattle.world_schedule.specs.Handed.{HandedLaw};
ghost use Rattle.world_schedule.specs.Headline.{CountLaw, GrowingLaw, HeadlineLaw, StepLaw};

/// The setting that a core's own keys tell of is alike, to its validator, to the world that the keys are of.
pub fn own_law()
    ensures { OwnLaw }
{}

/// What a call of `handle`, `fire_timeout` or `settle` ensures in the core's own setting holds in the world: the core
/// stands for the world's node after the input and the firings, and its frames have the world's tags.
pub fn core_law()
    ensures { CoreLaw }
{}

/// A core stands for its node from its opening on, while only what waits to be taken changes, and after a call that was
/// refused memory. Its ask and its own messages, sent again, are the world's, and where it is quiet the world's node is.
pub fn kept_law()
    ensures { KeptLaw }
{}

/// A core's call is events of the world: the node after them is what the core then stands for, the other nodes are as they
/// were, and what it released can be delivered from then on.
pub fn called_law()
    ensures { CalledLaw }
{}

/// What a core's call answers is the world's answer, with the world's numbers, unless memory ran out or its journal failed.
pub fn handed_law()
    ensures { HandedLaw }
{}

/// A call that keeps a core's contract is a call of the world. Where it answers that all went well it did all that was
/// handed in and fired rules until none was enabled; where it answers a cause it is the world's, and nothing was done;
/// nothing is left out but where it answers want of memory, or that its journal failed or had failed.
pub fn answered_law()
    ensures { AnsweredLaw }
{}

/// A core that stands for its validator's node after some calls does so after each further one, its own or another's.
pub fn step_law()
    ensures { StepLaw }
{}

/// A call that left its core quiet fired as often as it had to: no other number fits. So where no call was refused memory
/// the run is a function of what was handed in.
pub fn count_law()
    ensures { CountLaw }
{}

/// The headline on what cores tell: of the delivered lists that two correct validators' cores tell, and of the items of the
/// decisions that they tell, one begins the other, at any two moments; each keeps every client's order, and a correct
/// client's items in it begin what the client sent. Less than a third of the power lies in the run, no tag is forged in it, and
/// no two values of it have one digest.
pub fn headline_law()
    ensures { HeadlineLaw }
{}

/// What one validator's core told earlier begins what it tells later, whatever others do.
pub fn growing_law()
    ensures { GrowingLaw }
{}
