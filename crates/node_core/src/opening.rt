//! A validator comes back over its own journal.

ghost use Rattle.std.specs.Prelude.{◌≡◌, ◌<◌, List, [], false, None, IfOk, IfErr, length, reverse};
ghost use Rattle.protocol.specs.Tags.{Validator};
ghost use Rattle.protocol.specs.Messages.{Record};
ghost use Rattle.protocol.specs.Restart.{opened as opened_over};
ghost use Rattle.height_catchup.specs.Kept.{IsInPlace};
ghost use Rattle.vote_journal.specs.Layout.{IsWhole};
ghost use Rattle.node_core.specs.Core.{Stands, IsSound};
ghost use Rattle.node_core.specs.Opening.{IsRead, unfired};

use crate::node::{Config, NodeCore};
use authenticators::KeyRing;
use height_catchup::Decisions;
use mempool::Mempool;
use round_states::State;
use state_journal::{NodeJournal, Restart};
use std::alloc::{AllocFailed, Global};
use vote_journal::{Opened, Store};

impl<S: Store + Drop> NodeCore<S> {
    /// A validator that comes back: it stands where it stood as its last record was saved, with its decisions, its lock, and
    /// the own messages of its height, of which it says none anew. Its clients' queues are empty, and so is what came from
    /// others. No rule fires: `settle` goes on, and `resend` sends the own messages of the height again.
    ///
    /// The ring is that of validator `me`, and has keys for as many validators as have a power. The journal is this
    /// validator's, and was opened under these powers.
    ///
    /// It is refused for want of memory alone, and then what was opened is handed back.
    pub fn open(
        alloc: Global,
        config: Config,
        ring: KeyRing,
        opened: Opened<S>,
    ) -> Result<NodeCore<S>, AllocFailed<Opened<S>>>
        requires owner { ring.me ≡ Validator config.me }
        requires count { ring.count ≡ length config.powers }
        requires me { config.me < length config.powers }
        requires journal { (opened.journal.me ≡ config.me) × (opened.journal.failed ≡ false) }
        requires read { IsRead config.powers config.me (S.seen opened.journal.store) opened.decisions.items opened.own.items }
        ensures stands { IfOk result (λ core. (rs : List Record) → IsWhole config.powers config.me (S.seen opened.journal.store) rs → Stands (opened_over config.me (reverse rs)) core) }
        ensures powers { IfOk result (λ core. core.machine.powers ≡ config.powers) }
        ensures me { IfOk result (λ core. core.machine.me ≡ config.me) }
        ensures ring { IfOk result (λ core. core.ring ≡ ring) }
        ensures journal { IfOk result (λ core. core.journal ≡ record { bytes = S.seen opened.journal.store; me = opened.journal.me; failed = false; broken = None; failures = S.failures opened.journal.store }) }
        ensures empty { IfOk result (λ core. (core.outgoing ≡ []) × (core.scheduled ≡ []) × (core.fired ≡ 0)) }
        ensures back { IfErr result (λ e. e.value ≡ opened) }
    {
        let Config { me, powers } = config;
        // The two counts ensure that there are 2 to 128 validators, of whom the ring has the keys.
        let _ = ring.count();
        let _ = powers.count();
        let state = State::new(alloc, powers, me);
        match Restart::of(alloc, &ring, state, &opened.decisions, &opened.own) {
            Ok(restart) => Ok(NodeCore::over(alloc, ring, restart, opened)),
            Err(_) => Err(AllocFailed { value: opened }),
        }
    }

    /// A node of which no rule has fired. It takes no memory.
    fn over(alloc: Global, ring: KeyRing, restart: Restart, opened: Opened<S>) -> NodeCore<S>
        requires placed { IsInPlace opened.decisions.items }
        requires running { opened.journal.failed ≡ false }
        requires sound { IsSound (unfired restart.state ring opened.decisions.items restart.said.items (record { bytes = S.seen opened.journal.store; me = opened.journal.me; failed = opened.journal.failed; broken = None; failures = S.failures opened.journal.store })) }
        ensures { result ≡ unfired restart.state ring opened.decisions.items restart.said.items (record { bytes = S.seen opened.journal.store; me = opened.journal.me; failed = opened.journal.failed; broken = None; failures = S.failures opened.journal.store }) }
    {
        let Restart { state, said } = restart;
        let Opened {
            journal,
            decisions,
            own: _,
        } = opened;
        NodeCore {
            alloc,
            ring,
            state,
            mempool: Mempool::new(alloc),
            decisions: Decisions::of(alloc, decisions),
            said,
            journal: NodeJournal::new(alloc, journal),
            outgoing: Vec::new(alloc),
            scheduled: Vec::new(alloc),
            fired: 0,
        }
    }
}
