//! The calls of a core, told as calls of a world.

ghost use Rattle.std.specs.Prelude.{◌≡◌, ◌≢◌, ℕ, false};
ghost use Rattle.protocol.specs.Tags.{Setting};
ghost use Rattle.protocol.specs.State.{Node};
ghost use Rattle.protocol.specs.History.{Settle, Given, Due};
ghost use Rattle.node_core.specs.Calls.{TellsJournal};
ghost use Rattle.world_schedule.specs.Answered.{IsAnsweredIn};
ghost use Rattle.world_schedule.specs.Health.{Health, HasHealth};
ghost use Rattle.world_schedule.specs.Making.{Hands, IsMetBy};
ghost use Rattle.world_schedule.specs.Cores.{StandsIn};
ghost use Rattle.world_schedule.specs.Handed.{told_numbers};

use node_core::NodeCore;
use protocol::{Refusal, Timeout};
use vote_journal::Store;

/// Hands one whole frame to a core: in every world that the core is of, the call is one of it.
pub fn hand_frame<S: Store + Drop>(core: &mut NodeCore<S>, frame: &[u8]) -> Result<(), Refusal>
    ensures met { (c : Setting) (p : ℕ) (n : Node) (h : Health) → StandsIn c p n core.old → HasHealth c p n h core.old.journal → IsMetBy c p n h (Hands (Given frame.now)) (told_numbers result) core.old.outgoing core.new }
    ensures answered { (c : Setting) (p : ℕ) (n : Node) → StandsIn c p n core.old → IsAnsweredIn c p n (Given frame.now) (told_numbers result) core.old core.new }
    ensures halted { (c : Setting) (p : ℕ) (n : Node) → StandsIn c p n core.old → core.old.journal.failed ≡ false → (told_numbers result).0 ≢ 15 }
    ensures journal { TellsJournal result core.old.journal core.new.journal }
{
    core.handle(frame)
}

/// Hands a due timeout to a core.
pub fn hand_timeout<S: Store + Drop>(
    core: &mut NodeCore<S>,
    timeout: Timeout,
) -> Result<(), Refusal>
    ensures met { (c : Setting) (p : ℕ) (n : Node) (h : Health) → StandsIn c p n core.old → HasHealth c p n h core.old.journal → IsMetBy c p n h (Hands (Due timeout)) (told_numbers result) core.old.outgoing core.new }
    ensures answered { (c : Setting) (p : ℕ) (n : Node) → StandsIn c p n core.old → IsAnsweredIn c p n (Due timeout) (told_numbers result) core.old core.new }
    ensures halted { (c : Setting) (p : ℕ) (n : Node) → StandsIn c p n core.old → core.old.journal.failed ≡ false → (told_numbers result).0 ≢ 15 }
    ensures journal { TellsJournal result core.old.journal core.new.journal }
{
    core.fire_timeout(timeout)
}

/// Settles a core: at its opening, and after a call that was refused memory.
pub fn settle<S: Store + Drop>(core: &mut NodeCore<S>) -> Result<(), Refusal>
    ensures met { (c : Setting) (p : ℕ) (n : Node) (h : Health) → StandsIn c p n core.old → HasHealth c p n h core.old.journal → IsMetBy c p n h (Hands Settle) (told_numbers result) core.old.outgoing core.new }
    ensures answered { (c : Setting) (p : ℕ) (n : Node) → StandsIn c p n core.old → IsAnsweredIn c p n Settle (told_numbers result) core.old core.new }
    ensures halted { (c : Setting) (p : ℕ) (n : Node) → StandsIn c p n core.old → core.old.journal.failed ≡ false → (told_numbers result).0 ≢ 15 }
    ensures journal { TellsJournal result core.old.journal core.new.journal }
{
    core.settle()
}
