//! A core ends, and another begins over its store.

ghost use Rattle.std.specs.Prelude.{◌≡◌, ◌≢◌, ◌<◌, ℕ, List, Option, IfOk, IfErr, length};
ghost use Rattle.protocol.specs.Tags.{Setting, Validator};
ghost use Rattle.protocol.specs.World.{Cut};
ghost use Rattle.world_schedule.specs.Calls.{Call};
ghost use Rattle.vote_journal.specs.Store.{Grew};
ghost use Rattle.stopped_cores.specs.Over.{IsSeat, IsBack, IsBackAsRead, IsClosed, IsLeftAfter, IsRefusedAsRead};

use authenticators::KeyRing;
use node_core::{Config, NodeCore};
use std::alloc::Global;
use vote_journal::{Journal, JournalFault, NotOpened, Store};

/// Ends a core, and gives its store.
pub fn end<S: Store + Drop>(core: NodeCore<S>) -> S
    ensures { IsClosed S.seen S.may_leave core result }
{
    core.close()
}

/// Opens a validator's journal on a store, and its core over it. Over a store that such a core left, it is refused only for want of
/// memory (2), or where the device failed (1), and then what is left in the store is as it was, but for bytes that are of no record.
///
/// The ring is that of validator `me`, and has keys for as many validators as have a power.
pub fn begin_again<S: Store + Drop>(
    alloc: Global,
    config: Config,
    ring: KeyRing,
    store: S,
) -> Result<NodeCore<S>, NotOpened<S>>
    requires owner { ring.me ≡ Validator config.me }
    requires count { ring.count ≡ length config.powers }
    requires me { config.me < length config.powers }
    ensures back { (c : Setting) (p : ℕ) → IsSeat c p config.powers config.me ring → (calls : List Call) (cut : Option Cut) → IsLeftAfter S.seen S.may_leave c p calls cut store → IfOk result (IsBack c p calls cut) }
    ensures refused { (c : Setting) (p : ℕ) → IsSeat c p config.powers config.me ring → (calls : List Call) (cut : Option Cut) → IsLeftAfter S.seen S.may_leave c p calls cut store → IfErr result (λ u. IsLeftAfter S.seen S.may_leave c p calls cut u.store) }
    ensures whole { (c : Setting) (p : ℕ) → IsSeat c p config.powers config.me ring → (calls : List Call) (cut : Option Cut) → IsLeftAfter S.seen S.may_leave c p calls cut store → IfErr result (λ u. u.fault ≢ JournalFault.BadRecord) }
    // So it is with the store as it was read, of which more may be known than before.
    ensures read { IfOk result (λ core. IsBackAsRead S.seen S.may_leave config.powers config.me ring store core) }
    ensures unread { IfErr result (λ u. IsRefusedAsRead S.seen S.may_leave config.powers config.me ring u.fault store u.store) }
    ensures failed { IfErr result (λ u. u.fault ≡ JournalFault.Failed → Grew (S.failures store) (S.failures u.store)) }
{
    match Journal::open(alloc, store, config.me, &config.powers) {
        Err(unopened) => Err(unopened),
        Ok(opened) => match NodeCore::open(alloc, config, ring, opened) {
            Ok(core) => Ok(core),
            Err(refused) => Err(NotOpened {
                fault: JournalFault::OutOfMemory,
                store: refused.value.journal.close(),
            }),
        },
    }
}
