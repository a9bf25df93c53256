//! What a validator stands on: its keys and its journal.

ghost use Rattle.std.specs.Prelude.{◌≡◌, ◌<◌, List, false, IfOk, length, reverse};
ghost use Rattle.protocol.specs.Tags.{Validator};
ghost use Rattle.protocol.specs.Messages.{Record as AnyRecord};
ghost use Rattle.protocol.specs.Restart.{opened as opened_over};
ghost use Rattle.vote_journal.specs.Layout.{IsWhole};
ghost use Rattle.node_core.specs.Core.{Stands};
ghost use Rattle.node_core.specs.Opening.{IsRead};
ghost use Rattle.node_program.specs.Opening.{IsOpenedAsRead};

use authenticators::KeyRing;
use journal_file::FileFault;
use key_files::memory_or;
use node_core::{Config, NodeCore};
use node_settings::{Failure, JournalTrouble};
use std::alloc::Global;
use vote_journal::{Journal, Opened, Store};

/// Why the file of a journal is not opened.
pub(crate) fn unopened(fault: FileFault) -> Failure {
    let other = Failure::Journal(JournalTrouble::Unopened);
    match fault {
        FileFault::Unusable(error) => memory_or(&error, other),
        FileFault::Busy => other,
    }
}

/// The validator that comes back over the journal on this store.
pub(crate) fn open_core<S: Store + Drop>(
    alloc: Global,
    config: Config,
    ring: KeyRing,
    store: S,
) -> Result<NodeCore<S>, Failure>
    requires owner { ring.me ≡ Validator config.me }
    requires count { ring.count ≡ length config.powers }
    requires me { config.me < length config.powers }
    ensures opened { IfOk result (λ core. IsOpenedAsRead S.seen S.may_leave config.powers config.me store core) }
    ensures counted { IfOk result (λ core. core.journal.failures ≡ S.failures store) }
    ensures same { IfOk result (λ core. (core.machine.powers ≡ config.powers) × (core.machine.me ≡ config.me) × (core.ring ≡ ring)) }
{
    match Journal::open(alloc, store, config.me, &config.powers) {
        Ok(opened) => core_over(alloc, config, ring, opened),
        Err(refused) => Err(refused.fault.into()),
    }
}

/// The validator that comes back over an opened journal.
fn core_over<S: Store + Drop>(
    alloc: Global,
    config: Config,
    ring: KeyRing,
    opened: Opened<S>,
) -> Result<NodeCore<S>, Failure>
    requires owner { ring.me ≡ Validator config.me }
    requires count { ring.count ≡ length config.powers }
    requires me { config.me < length config.powers }
    requires journal { (opened.journal.me ≡ config.me) × (opened.journal.failed ≡ false) }
    requires read { IsRead config.powers config.me (S.seen opened.journal.store) opened.decisions.items opened.own.items }
    ensures stands { IfOk result (λ core. (rs : List AnyRecord) → IsWhole config.powers config.me (S.seen opened.journal.store) rs → Stands (opened_over config.me (reverse rs)) core) }
    ensures counted { IfOk result (λ core. core.journal.failures ≡ S.failures opened.journal.store) }
    ensures same { IfOk result (λ core. (core.machine.powers ≡ config.powers) × (core.machine.me ≡ config.me) × (core.ring ≡ ring)) }
{
    match NodeCore::open(alloc, config, ring, opened) {
        Ok(core) => Ok(core),
        Err(_) => Err(Failure::OutOfMemory),
    }
}
