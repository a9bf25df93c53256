//! The node that threads share.

ghost use Rattle.std.specs.Prelude.{◌≡◌, ◌≤◌, [], true, IfOk, IfErr};
ghost use Rattle.status_words.specs.Seen.{unseen, opened as opened_at, with_both};
ghost use Rattle.status_words.specs.Ends.{opened_table, opened_words};
ghost use Rattle.protocol.specs.State.{Node as ProtocolNode};
ghost use Rattle.protocol.specs.History.{Settle, Given, Due};
ghost use Rattle.node_core.specs.Core.{Stands};
ghost use Rattle.locked_node.specs.History.{heard, heard_by, Took, Asked, Resent};
ghost use Rattle.locked_node.specs.Locked.{count_of};
ghost use Rattle.locked_node.specs.Subscribing.{IsSubscribeFault};
ghost use Rattle.subscriber_ring.specs.Ends.{is_capacity};

use crate::event::{Event, Request};
use crate::lent::{Done, Gauges, Met, State};
use crate::place::count_from;
use crate::subscription::{SubscribeFault, Subscription};
use authenticators::KeyRing;
use frame_admission::{Examined, InTurn, Tagger};
use node_core::{NodeCore, Outlet};
use protocol::Timeout;
use status_words::{Node, Opened, Seat, Status, Words};
use std::alloc::{AllocError, Global};
use std::sync::{Mutex, MutexGuard, Wait};
use subscriber_ring::Delivered;
use vote_journal::Store;

/// One node, shared by threads. Without its lock its status is read, and frames are examined by its keys.
#[derive(Drop)]
pub struct LockedNode<S: Store + Drop, J: Node> {
    alloc: Global,
    keys: KeyRing,
    words: Words<J>,
    state: Mutex<State<S, J>>,
}

/// The words for a core's status, at which its present one stands.
pub fn words_for<S: Store + Drop>(alloc: Global, core: &NodeCore<S>) -> Result<Opened, AllocError>
    ensures { IfOk result (λ o. opened_words o ≡ opened_at core.now.machine.state.height (count_of core.now)) }
{
    let status = Status {
        height: core.height(),
        delivered: count_from(0, core.decisions(), 0),
    };
    Opened::new(alloc, status)
}

/// A node whose lock is held: of what it is asked nothing of another thread comes between.
#[derive(Drop)]
pub struct HeldNode<'a, S: Store + Drop, J: Node> {
    words: &'a Words<J>,
    state: MutexGuard<'a, State<S, J>>,
}

/// What a node let go since it was last asked.
#[derive(Drop)]
pub struct Released {
    /// Its frames, in the order in which they were released.
    pub frames: Vec<Vec<u8>>,
    /// The timeouts that it scheduled, in order.
    pub timeouts: Vec<Timeout>,
}

impl<S: Store + Drop, J: Node> LockedNode<S, J> {
    /// The node of a core and its words, by a name that the caller picks. Frames are examined by these keys, which should be the core's
    /// own: by any others nothing is spared. It takes no memory.
    pub fn new(alloc: Global, opened: Opened, core: NodeCore<S>, keys: KeyRing) -> LockedNode<S, J>
        requires named { opened_table opened ≡ J.table }
        requires words { opened_words opened ≡ opened_at core.machine.state.height (count_of core) }
        requires stands { (n : ProtocolNode) × Stands n core }
    {
        let (words, publisher) = opened.named::<J>();
        LockedNode {
            alloc,
            keys,
            words,
            state: Mutex::new(State::new(alloc, core, publisher)),
        }
    }

    /// A seat that has seen 0 and 0.
    pub fn seat<R: Wait>(&self, rt: &R) -> Seat<J>
        ensures { result ≡ unseen }
    {
        self.state.lock(rt).seat(&self.words)
    }

    /// Hands in one whole frame.
    pub fn handle<'a, R: Wait>(&self, rt: &R, seat: &mut Seat<J>, frame: &'a [u8]) -> Done<'a>
        ensures event { result.event ≡ Took (Given frame.now) }
        ensures seen { seat.new ≡ with_both seat.old result.height result.delivered }
        ensures later { (seat.old.height ≤ result.height) × (seat.old.delivered ≤ result.delivered) }
    {
        let examined = self.examine(frame);
        self.hold(rt).take_in(rt, &InTurn, seat, examined)
    }

    /// Reads a frame, and finds what can be found of it by keys alone. It waits for nobody.
    pub fn examine<'a>(&self, frame: &'a [u8]) -> Examined<'a>
        ensures { result ≡ frame.now }
    {
        Examined::new(self.alloc, &self.keys, frame)
    }

    /// Fires a timeout that is due.
    pub fn fire_timeout<R: Wait>(
        &self,
        rt: &R,
        seat: &mut Seat<J>,
        timeout: Timeout,
    ) -> Done<'static>
        ensures event { result.event ≡ Took (Due timeout) }
        ensures seen { seat.new ≡ with_both seat.old result.height result.delivered }
        ensures later { (seat.old.height ≤ result.height) × (seat.old.delivered ≤ result.delivered) }
    {
        self.act(rt, seat, Event::Timeout(timeout))
    }

    /// Fires rules until none is enabled.
    pub fn settle<R: Wait>(&self, rt: &R, seat: &mut Seat<J>) -> Done<'static>
        ensures event { result.event ≡ Took Settle }
        ensures seen { seat.new ≡ with_both seat.old result.height result.delivered }
        ensures later { (seat.old.height ≤ result.height) × (seat.old.delivered ≤ result.delivered) }
    {
        self.act(rt, seat, Event::Settle)
    }

    /// Releases an ask for the decision of its height.
    pub fn ask<R: Wait>(&self, rt: &R, seat: &mut Seat<J>) -> Done<'static>
        ensures event { result.event ≡ Asked }
        ensures seen { seat.new ≡ with_both seat.old result.height result.delivered }
        ensures later { (seat.old.height ≤ result.height) × (seat.old.delivered ≤ result.delivered) }
    {
        self.act(rt, seat, Event::Ask)
    }

    /// Releases its own messages of the height once more.
    pub fn resend<R: Wait>(&self, rt: &R, seat: &mut Seat<J>) -> Done<'static>
        ensures event { result.event ≡ Resent }
        ensures seen { seat.new ≡ with_both seat.old result.height result.delivered }
        ensures later { (seat.old.height ≤ result.height) × (seat.old.delivered ≤ result.delivered) }
    {
        self.act(rt, seat, Event::Resend)
    }

    /// One event under the lock.
    fn act<'a, R: Wait>(&self, rt: &R, seat: &mut Seat<J>, event: Event<'a>) -> Done<'a>
        ensures event { result.event ≡ heard event.entry }
        ensures seen { seat.new ≡ with_both seat.old result.height result.delivered }
        ensures later { (seat.old.height ≤ result.height) × (seat.old.delivered ≤ result.delivered) }
    {
        self.hold(rt).call(rt, &InTurn, seat, event)
    }

    /// Waits for the lock, and holds it.
    pub fn hold<R: Wait>(&self, rt: &R) -> HeldNode<'_, S, J> {
        HeldNode {
            words: &self.words,
            state: self.state.lock(rt),
        }
    }

    /// Takes the frames that were released since the last call, in order.
    pub fn take_outgoing<R: Wait>(&self, rt: &R) -> Vec<Vec<u8>> {
        self.state.lock(rt).take_outgoing()
    }

    /// Takes the timeouts that were scheduled since the last call, in order.
    pub fn take_scheduled<R: Wait>(&self, rt: &R) -> Vec<Timeout> {
        self.state.lock(rt).take_scheduled()
    }

    /// A ring whose first item has this position, and which holds at most so many items at a time.
    /// Nothing is offered to it yet. The faults are `FromAhead` (1), with the number of delivered items
    /// that stood under the lock, `BadCapacity` (3) and `OutOfMemory` (2), in this order.
    pub fn subscribe<R: Wait>(
        &self,
        rt: &R,
        from: u64,
        capacity: usize,
    ) -> Result<Subscription, SubscribeFault>
        ensures ok { IfOk result (λ s. s.ring ≡ record { ring = s.ring.ring; first = from; taken = [] }) }
        ensures possible { IfOk result (λ s. is_capacity capacity ≡ true) }
        ensures err { IfErr result (λ e. IsSubscribeFault e from capacity) }
    {
        self.state.lock(rt).subscribe(from, capacity)
    }

    /// Offers to the subscription's ring the delivered items that follow those that it was offered,
    /// and answers how many were: 0 where its place has no ring. Refused memory for a copy, what was
    /// offered stays.
    pub fn fill<R: Wait>(&self, rt: &R, subscription: &Subscription) -> Result<u64, AllocError> {
        self.state.lock(rt).fill(rt, subscription)
    }

    /// Asks whether the items, as a subscriber took them, follow one another in the delivered list, each
    /// at its position. None at all do. It takes no memory.
    pub fn meet<'a, R: Wait>(&self, rt: &R, items: &'a [Delivered]) -> Met<'a>
        ensures { result.items ≡ items.now }
    {
        self.state.lock(rt).certify(items)
    }

    /// Returns where in its height the node is, and how many transactions wait to be proposed.
    pub fn gauges<R: Wait>(&self, rt: &R) -> Gauges {
        self.state.lock(rt).gauges()
    }

    /// The height and the number of delivered items, neither less than the seat had seen. It waits for
    /// nobody.
    pub fn status(&self, seat: &mut Seat<J>) -> Status
        ensures seen { seat.new ≡ with_both seat.old result.height result.delivered }
        ensures later { (seat.old.height ≤ result.height) × (seat.old.delivered ≤ result.delivered) }
    {
        self.words.status(seat)
    }
}

impl<S: Store + Drop, J: Node> HeldNode<'_, S, J> {
    /// One event: the core is asked, the rings are offered what was delivered, and the status is published. The caller
    /// says who makes the tags of what is released, and is shown each frame as soon as it may leave.
    pub fn call<'a, T: Tagger + Outlet, R: Wait>(
        &mut self,
        rt: &R,
        tagger: &T,
        seat: &mut Seat<J>,
        event: Event<'a>,
    ) -> Done<'a>
        ensures event { result.event ≡ heard event.entry }
        ensures seen { seat.new ≡ with_both seat.old result.height result.delivered }
        ensures later { (seat.old.height ≤ result.height) × (seat.old.delivered ≤ result.delivered) }
    {
        self.request(rt, tagger, seat, Request::Event(event))
    }

    /// Hands in a frame that was examined, as `call` does an event.
    pub fn take_in<'a, T: Tagger + Outlet, R: Wait>(
        &mut self,
        rt: &R,
        tagger: &T,
        seat: &mut Seat<J>,
        examined: Examined<'a>,
    ) -> Done<'a>
        ensures event { result.event ≡ Took (Given examined.entry) }
        ensures seen { seat.new ≡ with_both seat.old result.height result.delivered }
        ensures later { (seat.old.height ≤ result.height) × (seat.old.delivered ≤ result.delivered) }
    {
        self.request(rt, tagger, seat, Request::Frame(examined))
    }

    fn request<'a, T: Tagger + Outlet, R: Wait>(
        &mut self,
        rt: &R,
        tagger: &T,
        seat: &mut Seat<J>,
        request: Request<'a>,
    ) -> Done<'a>
        ensures event { result.event ≡ heard_by request.entry }
        ensures seen { seat.new ≡ with_both seat.old result.height result.delivered }
        ensures later { (seat.old.height ≤ result.height) × (seat.old.delivered ≤ result.delivered) }
    {
        let state = &mut *self.state;
        let stepped = state.step_by(tagger, request);
        let offered = state.offer_all(rt, stepped);
        state.publish(self.words, offered, seat)
    }

    /// Takes the frames that were released and the timeouts that were scheduled since the last call, each in order.
    pub fn take_released(&mut self) -> Released {
        let state = &mut *self.state;
        Released {
            frames: state.take_outgoing(),
            timeouts: state.take_scheduled(),
        }
    }
}
