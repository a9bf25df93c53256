//! What is done to a node while its lock is held, each step in a type that the next one takes.

ghost use Rattle.std.specs.Prelude.{◌≡◌, ◌≤◌, ◌++◌, ◌∷◌, [], true, length, map, IfOk, IfErr};
ghost use Rattle.std.specs.Bool.{Decides};
ghost use Rattle.status_words.specs.Seen.{unseen, with_both, IsOf};
ghost use Rattle.node_core.specs.Core.{Stands, delivered_in};
ghost use Rattle.protocol.specs.State.{Node as ProtocolNode};
ghost use Rattle.locked_node.specs.History.{heard, heard_by, calls_after};
ghost use Rattle.locked_node.specs.Calls.{Does};
ghost use Rattle.locked_node.specs.Feeding.{AreOffered, HasFilled};
ghost use Rattle.subscriber_ring.specs.Ends.{is_capacity};
ghost use Rattle.locked_node.specs.Subscribing.{new_ring, subscribe_fault};
ghost use Rattle.locked_node.specs.Locked.{IsLocked, count_of};
ghost use Rattle.locked_node.specs.Meeting.{IsSegment};

use crate::calls::ask_core;
use crate::event::{Event, Request, Told};
use crate::feeding::{Fed, Stop, feed_all, fill_at};
use crate::history::History;
use crate::meeting::is_segment;
use crate::place::{Place, count_from};
use crate::subscription::{SubscribeFault, Subscription};
use frame_admission::{InTurn, Tagger};
use node_core::{NodeCore, Outlet};
use protocol::{MOST_CLIENTS, Refusal, Step, Timeout};
use status_words::{Node, Publisher, Seat, Status, Words};
use std::alloc::{AllocError, Global};
use std::marker::Model;
use std::sync::Wait;
use subscriber_ring::{Delivered, ring};
use vote_journal::Store;

/// What stands under a node's lock: the core, its history, the rings, and what publishes its status.
#[derive(Drop)]
pub struct State<S: Store + Drop, J: Node> {
    alloc: Global,
    core: NodeCore<S>,
    history: History<NodeCore<S>>,
    delivered: u64,
    feeders: Vec<Fed>,
    publisher: Publisher<J>,
}

impl<S: Store + Drop, J: Node> Model for State<S, J> {
    ghost use Rattle.std.specs.Prelude.{◌≡◌};
    ghost use Rattle.locked_node.specs.Locked.{Locked, IsLocked, count_of};

    ghost Value = { Locked };

    ghost view = { λ s. record { core = s.core; base = s.history.base; calls = s.history.calls; feeders = s.feeders.items; published = s.publisher } };

    ghost invariant = { λ s. IsLocked (record { core = s.core; base = s.history.base; calls = s.history.calls; feeders = s.feeders.items; published = s.publisher }) × (s.delivered ≡ count_of s.core) };
}

/// What the core was asked, with its answer. Only `step` makes one, and it must be handed on.
pub struct Stepped<'a> {
    event: Event<'a>,
    answer: Result<(), Refusal>,
}

impl<'a> Model for Stepped<'a> {
    ghost use Rattle.locked_node.specs.History.{heard};
    ghost use Rattle.locked_node.specs.Locked.{Answered};

    ghost Value = { Answered };

    ghost view = { λ s. record { event = heard s.event; answer = s.answer } };
}

/// The same, once the rings were offered what was delivered. Only `offer_all` makes one, and it must
/// be handed on.
pub struct Offered<'a> {
    event: Event<'a>,
    answer: Result<(), Refusal>,
}

impl<'a> Model for Offered<'a> {
    ghost use Rattle.locked_node.specs.History.{heard};
    ghost use Rattle.locked_node.specs.Locked.{Answered};

    ghost Value = { Answered };

    ghost view = { λ s. record { event = heard s.event; answer = s.answer } };
}

/// What was asked, the answer, and the status that was then published. Only `publish` makes one.
#[derive(Drop)]
pub struct Done<'a> {
    event: Event<'a>,
    answer: Result<(), Refusal>,
    status: Status,
}

impl<'a> Model for Done<'a> {
    ghost use Rattle.locked_node.specs.History.{heard};
    ghost use Rattle.locked_node.specs.Locked.{Finished};

    ghost Value = { Finished };

    ghost view = { λ s. record { event = heard s.event; answer = s.answer; height = s.status.height; delivered = s.status.delivered } };
}

impl<'a> Done<'a> {
    /// What the node was asked.
    pub fn event(&self) -> Event<'a>
        ensures { heard result ≡ self.now.event }
    {
        self.event
    }

    /// What it answered.
    pub fn answer(&self) -> Result<(), Refusal>
        ensures { result ≡ self.now.answer }
    {
        self.answer
    }

    /// The height and the number of delivered items then, which were published.
    pub fn status(&self) -> Status
        ensures { (result.height ≡ self.now.height) × (result.delivered ≡ self.now.delivered) }
    {
        self.status
    }
}

/// Items, and whether they are a piece of the delivered list, positions too. Only `certify` makes one.
#[derive(Drop)]
pub struct Met<'a> {
    items: &'a [Delivered],
    yes: bool,
}

impl<'a> Model for Met<'a> {
    ghost use Rattle.locked_node.specs.Meeting.{Meeting};

    ghost Value = { Meeting };

    ghost view = { λ m. record { items = m.items.now; yes = m.yes } };
}

impl<'a> Met<'a> {
    /// The items that were looked for.
    pub fn items(&self) -> &'a [Delivered]
        ensures { result.now ≡ self.now.items }
    {
        self.items
    }

    /// Whether they follow one another in the delivered list, each at its position.
    pub fn yes(&self) -> bool
        ensures { result ≡ self.now.yes }
    {
        self.yes
    }
}

/// That a first position lies ahead of the delivered list, and how many items that had. Only `subscribe` makes one.
#[derive(Debug, Drop)]
pub struct Ahead {
    delivered: u64,
}

impl Model for Ahead {
    ghost use Rattle.std.specs.Prelude.{ℕ};

    ghost Value = { ℕ };

    ghost view = { λ a. a.delivered };
}

impl Ahead {
    /// How many items were delivered, counted up to the greatest u64.
    pub fn delivered(&self) -> u64
        ensures { result ≡ self.now }
    {
        self.delivered
    }
}

/// Where in its height a node is, and how many transactions wait to be proposed.
#[derive(Clone, Copy, Debug, PartialEq, Eq)]
pub struct Gauges {
    pub round: u32,
    pub step: Step,
    pub queued: u64,
}

impl<S: Store + Drop, J: Node> State<S, J> {
    /// A core as it is opened, to which nothing was handed yet.
    pub fn new(alloc: Global, core: NodeCore<S>, publisher: Publisher<J>) -> State<S, J>
        requires stands { (n : ProtocolNode) × Stands n core }
        requires height { publisher.height ≤ core.machine.state.height }
        requires delivered { publisher.delivered ≤ count_of core }
        ensures { result ≡ record { core = core; base = core; calls = []; feeders = []; published = publisher } }
    {
        let history = History::since(&core);
        let delivered = count_from(0, core.decisions(), 0);
        State {
            alloc,
            core,
            history,
            delivered,
            feeders: Vec::new(alloc),
            publisher,
        }
    }

    /// Asks the core what the event says.
    pub fn step<'a>(&mut self, event: Event<'a>) -> Stepped<'a>
        ensures event { result.event ≡ heard event.entry }
        ensures does { Does (heard event.entry) result.answer self.old.core self.new.core }
        ensures calls { self.new.calls ≡ calls_after (heard event.entry) result.answer self.new.core.fired self.old.calls }
        ensures same { self.new ≡ record self.old { core = self.new.core; calls = self.new.calls } }
        ensures locked { IsLocked self.new }
    {
        self.step_with(&InTurn, event)
    }

    /// As `step`, where another one makes the tags of what is released, and is shown each frame as soon as it may leave.
    pub fn step_with<'a, T: Tagger + Outlet>(&mut self, tagger: &T, event: Event<'a>) -> Stepped<'a>
        ensures event { result.event ≡ heard event.entry }
        ensures does { Does (heard event.entry) result.answer self.old.core self.new.core }
        ensures calls { self.new.calls ≡ calls_after (heard event.entry) result.answer self.new.core.fired self.old.calls }
        ensures same { self.new ≡ record self.old { core = self.new.core; calls = self.new.calls } }
        ensures locked { IsLocked self.new }
    {
        self.step_by(tagger, Request::Event(event))
    }

    /// Asks the core, and notes it in the history.
    pub(crate) fn step_by<'a, T: Tagger + Outlet>(
        &mut self,
        tagger: &T,
        request: Request<'a>,
    ) -> Stepped<'a>
        ensures event { result.event ≡ heard_by request.entry }
        ensures does { Does (heard_by request.entry) result.answer self.old.core self.new.core }
        ensures calls { self.new.calls ≡ calls_after (heard_by request.entry) result.answer self.new.core.fired self.old.calls }
        ensures same { self.new ≡ record self.old { core = self.new.core; calls = self.new.calls } }
        ensures locked { IsLocked self.new }
    {
        let before = self.core.decisions().len();
        let event = request.event();
        let answer = ask_core(&mut self.core, tagger, request);
        let told = Told {
            event,
            answer,
            fired: self.core.fired(),
        };
        self.history = self.history.with(&told);
        self.delivered = count_from(self.delivered, self.core.decisions(), before);
        Stepped { event, answer }
    }

    /// Offers to each ring the delivered items that follow those that it was offered, and notes why
    /// that stopped.
    pub fn offer_all<'a, R: Wait>(&mut self, rt: &R, stepped: Stepped<'a>) -> Offered<'a>
        ensures answered { result ≡ stepped.entry }
        ensures same { self.new ≡ record self.old { feeders = self.new.feeders } }
        ensures offered { AreOffered self.new.core.decisions (length self.old.feeders) self.old.feeders self.new.feeders }
        ensures locked { IsLocked self.new }
    {
        let Stepped { event, answer } = stepped;
        // `delivered` ensures that the list keeps each client's order.
        let _ = self.core.delivered();
        feed_all(rt, self.alloc, &mut self.feeders, self.core.decisions());
        Offered { event, answer }
    }

    /// Publishes the status, which the caller's seat has then seen, and which is in neither part less than what it had seen.
    pub fn publish<'a>(
        &mut self,
        words: &Words<J>,
        offered: Offered<'a>,
        seat: &mut Seat<J>,
    ) -> Done<'a>
        ensures answered { (result.event ≡ offered.entry.event) × (result.answer ≡ offered.entry.answer) }
        ensures status { (result.height ≡ self.new.core.machine.state.height) × (result.delivered ≡ count_of self.new.core) }
        ensures same { self.new ≡ record self.old { published = with_both self.old.published result.height result.delivered } }
        ensures seen { seat.new ≡ with_both seat.old result.height result.delivered }
        ensures later { (seat.old.height ≤ result.height) × (seat.old.delivered ≤ result.delivered) }
        ensures of_these { IsOf self.new.published seat.new }
    {
        let Offered { event, answer } = offered;
        let status = Status {
            height: self.core.height(),
            delivered: self.delivered,
        };
        self.publisher.publish(words, seat, status);
        Done {
            event,
            answer,
            status,
        }
    }

    /// Takes the frames that were released since the last call, in order.
    pub fn take_outgoing(&mut self) -> Vec<Vec<u8>>
        ensures frames { map (λ frame. frame.items) result.items ≡ self.old.core.outgoing }
        ensures same { self.new ≡ record self.old { core = record self.old.core { outgoing = [] } } }
    {
        self.core.outgoing()
    }

    /// Takes the timeouts that were scheduled since the last call, in order.
    pub fn take_scheduled(&mut self) -> Vec<Timeout>
        ensures timeouts { result.items ≡ self.old.core.scheduled }
        ensures same { self.new ≡ record self.old { core = record self.old.core { scheduled = [] } } }
    {
        self.core.scheduled()
    }

    /// A ring whose first item has this position, and which holds at most so many items at a time.
    /// Nothing is offered to it yet.
    pub fn subscribe(&mut self, from: u64, capacity: usize) -> Result<Subscription, SubscribeFault>
        ensures ok { IfOk result (λ s. self.new ≡ record self.old { feeders = self.old.feeders ++ new_ring s.ring.ring from capacity ∷ [] }) }
        ensures subscription { IfOk result (λ s. (s.place ≡ length self.old.feeders) × (s.ring ≡ record { ring = s.ring.ring; first = from; taken = [] })) }
        ensures err { IfErr result (λ e. (self.new ≡ self.old) × (e ≡ subscribe_fault (count_of self.old.core) from capacity)) }
        ensures possible { IfOk result (λ s. (from ≤ count_of self.old.core) × (is_capacity capacity ≡ true)) }
        ensures locked { IsLocked self.new }
    {
        if from > self.delivered {
            let delivered = self.delivered;
            return Err(SubscribeFault::FromAhead(Ahead { delivered }));
        }
        let (feeder, ring) = ring(self.alloc, from, capacity)?;
        self.feeders.reserve(1)?;
        let place = self.feeders.len();
        self.feeders.push_reserved(Fed {
            feeder,
            place: Place {
                height: 0,
                index: from as usize,
            },
            stopped: Stop::Unoffered,
        });
        Ok(Subscription { ring, place })
    }

    /// Offers to the subscription's ring the delivered items that follow those that it was offered,
    /// and answers how many were: 0 where its place has no ring. Refused memory for a copy, what was
    /// offered stays.
    pub fn fill<R: Wait>(&mut self, rt: &R, subscription: &Subscription) -> Result<u64, AllocError>
        ensures same { self.new ≡ record self.old { feeders = self.new.feeders } }
        ensures filled { HasFilled self.new.core.decisions subscription.now.place self.old.feeders self.new.feeders result }
        ensures locked { IsLocked self.new }
    {
        let place = subscription.place;
        if place >= self.feeders.len() {
            return Ok(0);
        }
        // `delivered` ensures that the list keeps each client's order.
        let _ = self.core.delivered();
        fill_at(
            rt,
            self.alloc,
            &mut self.feeders,
            place,
            self.core.decisions(),
        )
    }

    /// Whether the items follow one another in the delivered list, each at its position. It takes no
    /// memory, and passes over the heights before the first item and the items alone.
    pub fn certify<'a>(&self, items: &'a [Delivered]) -> Met<'a>
        ensures items { result.items ≡ items.now }
        ensures yes { Decides result.yes (IsSegment (delivered_in self.now.core.decisions) items.now) }
    {
        Met {
            items,
            yes: is_segment(self.core.decisions(), self.delivered, items),
        }
    }

    /// Returns where in its height the node is, and how many transactions wait.
    pub fn gauges(&self) -> Gauges
        ensures place { (result.round ≡ self.now.core.machine.state.round) × (result.step ≡ self.now.core.machine.state.step) }
    {
        Gauges {
            round: self.core.round(),
            step: self.core.state().step(),
            queued: queued_in(&self.core),
        }
    }

    /// A seat that has seen 0 and 0.
    pub fn seat(&mut self, words: &Words<J>) -> Seat<J>
        ensures same { self.new ≡ self.old }
        ensures unseen { result ≡ unseen }
    {
        self.publisher.seat(words)
    }
}

/// Returns how many transactions of all clients wait to be proposed.
fn queued_in<S: Store + Drop>(core: &NodeCore<S>) -> u64 {
    let mut queued: u64 = 0;
    for client in 0..MOST_CLIENTS {
        queued = queued.saturating_add(core.waiting(client).len() as u64);
    }
    queued
}
