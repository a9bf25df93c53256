//! The core, and what it tells of itself.

ghost use Rattle.std.specs.Prelude.{◌≡◌, ◌<◌, ℕ, List, [], None, true, false, length, map, is_none};
ghost use Rattle.protocol.specs.Values.{fifo};
ghost use Rattle.protocol.specs.Tags.{Validator};
ghost use Rattle.protocol.specs.State.{Node};
ghost use Rattle.protocol.specs.Queues.{waiting_of};
ghost use Rattle.protocol.specs.Order.{enabled};
ghost use Rattle.protocol.specs.Restart.{opened};
ghost use Rattle.proposal_validity.specs.Standing.{IsFrontierOf};
ghost use Rattle.round_states.specs.Seen.{delivered_by};
ghost use Rattle.height_catchup.specs.Kept.{IsInPlace};
ghost use Rattle.vote_journal.specs.Layout.{IsWhole};
ghost use Rattle.vote_journal.specs.Store.{Only};
ghost use Rattle.state_journal.specs.Seen.{MayLeave};
ghost use Rattle.node_core.specs.Core.{Stands, delivered_in};

use authenticators::KeyRing;
use height_catchup::Decisions;
use mempool::Mempool;
use messages::{Body, Bundle};
use powers::Powers;
use proposal_validity::Frontier;
use protocol::Timeout;
use round_machine::enabled;
use round_states::State;
use state_journal::NodeJournal;
use std::alloc::Global;
use std::marker::Model;
use std::mem;
use transactions::{Tx, Value};
use vote_journal::{Journal, Store};

/// Which validator this is, and the powers of all.
#[derive(Drop)]
pub struct Config {
    /// The own number.
    pub me: u16,
    /// The power of each validator.
    pub powers: Powers,
}

/// One validator's node: its variables, its clients' queues, its decisions, its journal on a store, and what it has
/// released.
///
/// Each own message and each decision is saved in the journal, and synced, before it is said or delivered.
#[derive(Drop)]
pub struct NodeCore<S: Store + Drop> {
    pub(crate) alloc: Global,
    pub(crate) ring: KeyRing,
    pub(crate) state: State,
    pub(crate) mempool: Mempool,
    pub(crate) decisions: Decisions,
    pub(crate) said: Vec<Body>,
    pub(crate) journal: NodeJournal<S>,
    pub(crate) outgoing: Vec<Vec<u8>>,
    pub(crate) scheduled: Vec<Timeout>,
    pub(crate) fired: u64,
}

impl<S: Store + Drop> Model for NodeCore<S> {
    ghost use Rattle.node_core.specs.Core.{Core, IsSound};
    ghost use Rattle.node_core.specs.Seen.{seen};

    ghost Value = { Core };

    ghost view = { seen };

    ghost invariant = { λ a. IsSound (seen a) };
}

impl<S: Store + Drop> NodeCore<S> {
    /// A validator at height 0, of which no rule has fired: `settle` begins.
    ///
    /// The ring is that of validator `me`, and has keys for as many validators as have a power. The journal is this
    /// validator's, opened, and has no records.
    pub fn new(alloc: Global, config: Config, ring: KeyRing, journal: Journal<S>) -> NodeCore<S>
        requires owner { ring.me ≡ Validator config.me }
        requires count { ring.count ≡ length config.powers }
        requires me { config.me < length config.powers }
        requires journal { (journal.me ≡ config.me) × (journal.failed ≡ false) }
        requires empty { IsWhole config.powers config.me (S.seen journal.store) [] }
        ensures stands { Stands (opened config.me []) result }
        ensures powers { result.machine.powers ≡ config.powers }
        ensures me { result.machine.me ≡ config.me }
        ensures ring { result.ring ≡ ring }
        ensures journal { result.journal ≡ record { bytes = S.seen journal.store; me = journal.me; failed = false; broken = None; failures = S.failures journal.store } }
        ensures empty { (result.outgoing ≡ []) × (result.scheduled ≡ []) × (result.fired ≡ 0) }
    {
        let Config { me, powers } = config;
        // The two counts ensure that there are 2 to 128 validators, of whom the ring has the keys.
        let _ = ring.count();
        let _ = powers.count();
        NodeCore {
            alloc,
            ring,
            state: State::new(alloc, powers, me),
            mempool: Mempool::new(alloc),
            decisions: Decisions::new(alloc),
            said: Vec::new(alloc),
            journal: NodeJournal::new(alloc, journal),
            outgoing: Vec::new(alloc),
            scheduled: Vec::new(alloc),
            fired: 0,
        }
    }

    /// The variables of the algorithm, and what is kept of the height: for who looks into a node.
    pub fn state(&self) -> &State
        ensures { result.now ≡ self.now.machine }
    {
        &self.state
    }

    /// The height that is being decided: from 0 to 2^48.
    pub fn height(&self) -> u64
        ensures { result ≡ self.now.machine.state.height }
    {
        self.state.height()
    }

    /// The present round; 0 where none has begun.
    pub fn round(&self) -> u32
        ensures { result ≡ self.now.machine.state.round }
    {
        self.state.round()
    }

    /// The decided values, in order of height: their transactions are the delivered list, which keeps every
    /// client's order. It is that of `decisions`.
    pub fn delivered(&self) -> &[Value]
        ensures delivered { delivered_by result.now ≡ self.now.machine.state.delivered }
        ensures joined { self.now.machine.state.delivered ≡ delivered_in self.now.decisions }
        ensures order { fifo self.now.machine.state.delivered ≡ true }
    {
        // `frontier` ensures that the list keeps each client's order.
        self.state.frontier();
        self.state.decided()
    }

    /// The decisions, in order of height, each with its certificate. There is one of each height below the own one.
    pub fn decisions(&self) -> &[Bundle]
        ensures decisions { result.now ≡ self.now.decisions }
        ensures each { length self.now.decisions ≡ self.now.machine.state.height }
        ensures placed { IsInPlace self.now.decisions }
        ensures joined { self.now.machine.state.delivered ≡ delivered_in self.now.decisions }
    {
        // `len` ensures that each stands at the place of its height.
        let _ = self.decisions.len();
        self.decisions.as_slice()
    }

    /// What the delivered list leaves behind for each client: its next number, and whether it closed.
    pub fn frontier(&self) -> &Frontier
        ensures { IsFrontierOf self.now.machine.state.delivered result.now }
    {
        self.state.frontier()
    }

    /// The transactions of a client that wait to be proposed, in order of their numbers: at most 64.
    pub fn waiting(&self, client: u16) -> &[Tx]
        ensures { result.now ≡ waiting_of client self.now.queues }
    {
        self.mempool.waiting(client)
    }

    /// How often the last call fired a rule that is fired by itself: not a timeout's, and not a bundle's.
    pub fn fired(&self) -> u64
        ensures { result ≡ self.now.fired }
    {
        self.fired
    }

    /// Whether a call answered `JournalFailed`. Then each call that would change the node answers `Halted`, until its
    /// journal is opened again.
    pub fn has_halted(&self) -> bool
        ensures halted { result ≡ self.now.journal.failed }
        // Where it has not, it is a node of the definitions.
        ensures stands { result ≡ false → (n : Node) × Stands n self.now }
    {
        self.journal.has_failed()
    }

    /// Whether no rule is enabled: true after each `handle`, `fire_timeout` and `settle` that answered `Ok`.
    pub fn is_settled(&self) -> bool
        ensures { result ≡ is_none (enabled self.now.machine.powers self.now.machine.state) }
    {
        enabled(&self.state).is_none()
    }

    /// Takes the frames that were released since the last call, in order. It takes no memory.
    pub fn outgoing(&mut self) -> Vec<Vec<u8>>
        ensures frames { map (λ frame. frame.items) result.items ≡ self.old.outgoing }
        ensures new { self.new ≡ record self.old { outgoing = [] } }
    {
        mem::replace(&mut self.outgoing, Vec::new(self.alloc))
    }

    /// Takes the timeouts that were scheduled since the last call, in order. It takes no memory.
    pub fn scheduled(&mut self) -> Vec<Timeout>
        ensures timeouts { result.items ≡ self.old.scheduled }
        ensures new { self.new ≡ record self.old { scheduled = [] } }
    {
        mem::replace(&mut self.scheduled, Vec::new(self.alloc))
    }

    /// Ends the node, and gives its journal's store, which can be opened again. Unless the node has halted, a stop leaves
    /// just what the store holds; else that, or what had stood as the save began that failed, or some of what it was adding.
    pub fn close(self) -> S
        ensures bytes { S.seen result ≡ self.journal.bytes }
        ensures failures { S.failures result ≡ self.journal.failures }
        ensures synced { self.journal.failed ≡ false → Only (S.seen result) (S.may_leave result) }
        ensures left { (c : List ℕ) → S.may_leave result c → MayLeave self.journal c }
    {
        let NodeCore {
            alloc: _,
            ring: _,
            state: _,
            mempool: _,
            decisions: _,
            said: _,
            journal,
            outgoing: _,
            scheduled: _,
            fired: _,
        } = self;
        journal.close()
    }
}
