//! A validator's edge, and how links come and go.

ghost use Rattle.std.specs.Prelude.{◌≡◌, ◌⊎◌, Some, true, false, max, nat_lt, OnOk, OnErr};
ghost use Rattle.peer_core.specs.Resting.{is_held, holding};
ghost use Rattle.peer_core.specs.Duties.{with_timeout};

use crate::agenda::Agenda;
use crate::budget::Budget;
use crate::duty::OpenFault;
use crate::grounds::Grounds;
use crate::help::Help;
use crate::holding::HeldFrames;
use crate::links::PeerLinks;
use crate::manner::{Keeping, Manner};
use crate::outbox::Outbox;
use crate::own::OwnFrames;
use crate::redial::Redial;
use crate::rest::Rest;
use crate::ticking::MOST_SMALL;
use bytes::Bytes;
use edge_frames::{CatchUp, EarlyFrames, HeightFrames, LinkId};
use peer_links::Way;
use proposer_turns::Turns;
use protocol::Timeout;
use std::alloc::Global;
use timeouts::{Plan, PlanFault};

/// How long a node that is one height behind waits before it asks, in milliseconds, where there are up to 16 validators. With more of them it
/// waits longer in proportion, since a height takes longer.
const MOMENT_MS: u64 = 100;

/// Returns how long a node of so many validators that is one height behind waits before it asks.
fn moment_of(count: u16) -> u64 {
    MOMENT_MS * u64::from(count.max(MOST_SMALL)) / u64::from(MOST_SMALL)
}

/// What is around a validator's node, as a value: it has no threads, sockets or clock, and who runs it says what came and what
/// time it is, and does what it says. Times are milliseconds since a moment that the caller chose.
#[derive(Drop)]
pub struct PeerCore {
    pub(crate) alloc: Global,
    /// How long an own proposal of no transactions waits at most.
    pub(crate) idle: u64,
    pub(crate) links: PeerLinks,
    pub(crate) redial: Redial,
    pub(crate) early: EarlyFrames,
    /// The frames of others of the height, to be passed on.
    pub(crate) taken: HeightFrames,
    /// The place of the one that is passed on next.
    pub(crate) turn: usize,
    /// The prevotes of the height, own ones too, and which of them the own messages rest on.
    pub(crate) prevotes: HeightFrames,
    pub(crate) grounds: Option<Grounds>,
    /// The link that others' frames were passed on to last.
    pub(crate) passed_to: Option<LinkId>,
    /// The validator that was asked last in this height.
    pub(crate) asked: Option<u16>,
    /// How many times another validator was asked for the height's bundle.
    pub(crate) asks: u32,
    pub(crate) own: OwnFrames,
    /// The last own vote, of whichever height.
    pub(crate) last_vote: Option<Bytes>,
    pub(crate) help: Help,
    pub(crate) held: HeldFrames,
    /// How long the node waits before it asks where it is one height behind, in milliseconds.
    pub(crate) moment: u64,
    pub(crate) catch_up: CatchUp,
    pub(crate) plan: Plan,
    /// A timeout whose rule was refused memory, where there is none to schedule it again.
    pub(crate) unfired: Option<Timeout>,
    pub(crate) rest: Rest,
    pub(crate) turns: Turns,
    pub(crate) budget: Budget,
    pub(crate) agenda: Agenda,
    pub(crate) outbox: Outbox,
    /// The highest height that a call of the node told, and when it came.
    pub(crate) height: u64,
    pub(crate) since: u64,
    /// The highest height that `told` was told.
    pub(crate) told: u64,
}

impl PeerCore {
    /// The edge of validator `me` of `count`: no link is open, and the node is in height 0. It takes no memory.
    pub fn new(
        alloc: Global,
        me: u16,
        count: u16,
        manner: Manner,
        plan: Plan,
        now: u64,
    ) -> PeerCore {
        PeerCore {
            alloc,
            idle: manner.idle,
            links: PeerLinks::new(alloc, count, manner.keeping),
            redial: Redial::new(me, count, manner, now),
            early: EarlyFrames::new(alloc),
            taken: HeightFrames::new(alloc),
            turn: 0,
            prevotes: HeightFrames::new(alloc),
            grounds: None,
            passed_to: None,
            asked: None,
            asks: 0,
            own: OwnFrames::new(alloc),
            last_vote: None,
            help: Help::new(alloc),
            held: HeldFrames::new(alloc),
            moment: moment_of(count),
            catch_up: CatchUp::new(moment_of(count)),
            plan,
            unfired: None,
            rest: Rest::new(manner.rest, count),
            turns: manner.turns,
            budget: Budget::new(count),
            agenda: Agenda::new(now, manner.keeping == Keeping::Guarded),
            outbox: Outbox::new(alloc),
            height: 0,
            since: now,
            told: 0,
        }
    }

    /// Takes a link that has opened, whose number no other has. Where it is refused it is to be closed.
    pub fn opened(&mut self, link: LinkId, way: Way, now: u64) -> Result<(), OpenFault> {
        self.links.open(link, way, now)?;
        if let Way::Dialed(validator) = way {
            self.redial.linked(validator, now);
        }
        Ok(())
    }

    /// Notes that bytes came on a link.
    pub fn heard(&mut self, link: LinkId, now: u64) {
        self.links.heard(link, now);
    }

    /// Forgets a link that has ended, and what it brought too early.
    pub fn ended(&mut self, link: LinkId) {
        self.early.forget(link);
        self.links.end(link);
    }

    /// Returns whether any link is open or closing.
    pub fn has_links(&self) -> bool {
        !self.links.links().is_empty()
    }

    /// Returns the next validator whose address is to be dialed now. What came of it is said by `dialed`.
    pub fn next_dial(&mut self, now: u64) -> Option<u16> {
        for _ in 0..self.redial.count() {
            let validator = self.redial.next(now)?;
            let is_theirs = self.redial.is_dialed_by(validator);
            if self.links.keeping() == Keeping::Open
                || !self.links.is_linked(validator, is_theirs)
            {
                return Some(validator);
            }
            self.redial.linked(validator, now);
        }
        None
    }

    /// Returns whether addresses are dialed again.
    pub fn dials_again(&self) -> bool {
        self.links.keeping() == Keeping::Guarded
    }

    /// Notes whether the validator's address was reached. The link of one that was is `opened` beside.
    pub fn dialed(&mut self, validator: u16, is_reached: bool, now: u64) {
        if is_reached {
            self.redial.linked(validator, now);
        } else {
            self.redial.failed(validator, now);
        }
    }

    /// Notes the height that a call of the node told, and returns whether it is a new one.
    pub fn told(&mut self, height: u64, now: u64) -> bool
        ensures answer { result ≡ nat_lt self.old.told height }
        ensures noted { self.new.told ≡ max self.old.told height }
    {
        let is_new = height > self.told;
        self.advance(height, now);
        if is_new {
            self.told = height;
            self.links.forgive(now);
        }
        is_new
    }

    /// Forgets what was of lower heights.
    pub(crate) fn advance(&mut self, height: u64, now: u64)
        ensures links { self.new.links ≡ self.old.links }
        ensures told { self.new.told ≡ self.old.told }
    {
        if height <= self.height {
            return;
        }
        self.height = height;
        self.since = now;
        self.early.forget_below(height);
        self.taken.clear();
        self.turn = 0;
        self.prevotes.clear();
        self.grounds = None;
        self.own.clear();
        self.held.forget();
        self.asked = None;
        self.asks = 0;
        self.catch_up.advanced(height);
        self.plan.forget_below(height);
        self.rest.forget_below(height);
        self.agenda.advanced(now);
    }

    /// Plans a timeout that the node scheduled, whose time begins now. That of a height's first propose step waits where the
    /// validator rests. One that is refused memory is planned at the next tick.
    pub fn scheduled(&mut self, timeout: Timeout, now: u64) -> Result<(), PlanFault>
        ensures held { is_held self.old.rest timeout ≡ true → self.new.plan ≡ self.old.plan }
        ensures rest { self.new.rest ≡ holding self.old.rest timeout now }
        ensures planned { is_held self.old.rest timeout ≡ false → OnOk result (self.new.plan ≡ with_timeout self.old.plan now timeout) }
        ensures kept { OnErr result ((self.new.plan ≡ self.old.plan) × (self.new.unfired ≡ Some timeout)) }
    {
        if self.rest.hold(timeout, now) {
            return Ok(());
        }
        let planned = self.plan.schedule(now, timeout);
        if planned.is_err() {
            self.unfired = Some(timeout);
        }
        planned
    }

    /// Has a timeout fired again whose rule was refused memory. Where it can't be planned for want of memory, it is at the next tick.
    pub fn refused_memory(&mut self, timeout: Timeout, now: u64)
        ensures { (self.new ≡ record self.old { plan = with_timeout self.old.plan now timeout })
            ⊎ (self.new ≡ record self.old { unfired = Some timeout }) }
    {
        if self.plan.schedule(now, timeout).is_err() {
            self.unfired = Some(timeout);
        }
    }
}
