//! The transactions that clients wait to see delivered.
//!
//! Each known client has a queue of at most 64 transactions, whose numbers go on from those
//! delivered. A proposer takes from the queues in turn, one transaction of each, so that no client
//! keeps another one waiting.
#![tactic(auto)]

ghost use Rattle.std.specs.Prelude.{◌≡◌, ◌++◌, ◌∷◌, ◌<◌, ◌≤◌, ℕ, List, [], true, None, Some, All, nat_eq, IfOk, OnErr, OnOk, drop, length, map, option_map, slice_get, take};
ghost use Rattle.std.specs.List.{list_any};
ghost use Rattle.indexmap.specs.IndexMap.{get};
ghost use Rattle.transactions.specs.Grammar.{IsTx, IsValue};
ghost use Rattle.protocol.specs.Tags.{Setting, genuine, tx_is_right};
ghost use Rattle.protocol.specs.Messages.{◌∈◌};
ghost use Rattle.protocol.specs.Rings.{IsRingOf};
ghost use Rattle.protocol.specs.Values.{Item, item};
ghost use Rattle.protocol.specs.Queues.{all_waiting, drop_delivered, going_on, is_above, pick, queued, still_waiting, waiting_of};
ghost use Rattle.protocol.specs.Refusals.{first_cause, is_ahead, is_closed, is_old, reached, tx_causes};
ghost use Rattle.proposal_validity.specs.Standing.{IsFrontierOf};
ghost use Rattle.mempool.specs.Answers.{IsAnswer, IsVerdict};
ghost use Rattle.mempool.specs.Turns.{in_turn};
ghost use Rattle.mempool.specs.Waiting.{HaveRightTags, closes_session_of, is_not_below};

mod picking;
mod seeking;
mod tag;
mod turns;

use authenticators::KeyRing;
use indexmap::IndexMap;
use picking::{copy_each, picked};
use proposal_validity::Frontier;
use protocol::{MOST_WAITING, Standing, SubmitFault};
use seeking::{is_same, numbered};
use std::alloc::{AllocError, Global};
use std::collections::VecDeque;
use std::marker::Model;
use tag::{check_found, check_tag, has_right_tag};
use transactions::{Op, Shared, Tx, Value, copy_all};
use turns::Turns;

/// The clients' queues at a validator, in order of the clients' first queued transaction. A client
/// keeps its place while its queue is empty.
#[derive(Drop)]
pub struct Mempool {
    alloc: Global,
    queues: IndexMap<u16, Vec<Tx>>,
}

impl Model for Mempool {
    ghost use Rattle.std.specs.Prelude.{List, map};
    ghost use Rattle.protocol.specs.Queues.{Queue};

    ghost Value = { List Queue };

    ghost view = { λ a. map (λ entry. record { client = entry.0; waiting = entry.1.items }) a.queues.entries };
}

impl Mempool {
    /// No queues. It takes no memory.
    pub fn new(alloc: Global) -> Mempool
        ensures { result ≡ [] }
    {
        Mempool {
            alloc,
            queues: IndexMap::new(alloc),
        }
    }

    /// The client's waiting transactions, in order of their numbers.
    pub fn waiting(&self, client: u16) -> &[Tx]
        ensures { result.now ≡ waiting_of client self.now }
    {
        // Of the look-ups, this one tells that no second queue is the client's.
        match self.queues.get_index_of(&client) {
            Some(place) => self.queues[place].as_slice(),
            None => &[],
        }
    }

    /// Where the client stands after what is delivered and what waits: what its next transaction has to be.
    pub fn reached(&self, client: u16, frontier: &Frontier) -> Standing
        ensures { (d : List Item) → IsFrontierOf d frontier.now → result ≡ reached d self.now client }
    {
        match self.waiting(client).last() {
            Some(tx) => Standing::left_by(tx),
            None => frontier.standing(client),
        }
    }

    /// What `submit` would answer, but for want of memory. It takes none.
    pub fn check(&self, tx: &Tx, ring: &KeyRing, frontier: &Frontier) -> Result<(), SubmitFault>
        ensures { (c : Setting) (p : ℕ) (d : List Item) → IsRingOf c p ring.now → IsFrontierOf d frontier.now
            → IsVerdict (first_cause (tx_causes c p d self.now tx.now)) result }
    {
        check_tag(tx, ring)?;
        self.check_turn(tx, frontier)
    }

    /// Queues a transaction that a client sent. `ring` has the keys of this validator, and `frontier`
    /// tells what is delivered.
    ///
    /// The tag is found over the fields of the transaction, whatever they are, on the stack. Memory
    /// is taken only for a transaction against which nothing stands.
    pub fn submit(&mut self, tx: Tx, ring: &KeyRing, frontier: &Frontier) -> Result<(), SubmitFault>
        ensures answer { (c : Setting) (p : ℕ) (d : List Item) → IsRingOf c p ring.now → IsFrontierOf d frontier.now
            → IsAnswer (first_cause (tx_causes c p d self.old tx)) result }
        ensures ok { OnOk result (self.new ≡ queued tx self.old) }
        ensures err { OnErr result (self.new ≡ self.old) }
    {
        self.check(&tx, ring, frontier)?;
        self.keep(tx)?;
        Ok(())
    }

    /// As `submit`, where the caller says whether the client is known and the tag right, which isn't found once more.
    pub fn submit_found(
        &mut self,
        tx: Tx,
        is_right: bool,
        ring: &KeyRing,
        frontier: &Frontier,
    ) -> Result<(), SubmitFault>
        requires { (c : Setting) (p : ℕ) → IsRingOf c p ring.now → is_right ≡ tx_is_right c p tx }
        ensures answer { (c : Setting) (p : ℕ) (d : List Item) → IsRingOf c p ring.now → IsFrontierOf d frontier.now
            → IsAnswer (first_cause (tx_causes c p d self.old tx)) result }
        ensures ok { OnOk result (self.new ≡ queued tx self.old) }
        ensures err { OnErr result (self.new ≡ self.old) }
    {
        self.check_found(&tx, is_right, ring, frontier)?;
        Ok(self.keep(tx)?)
    }

    /// The value to propose: one transaction of each queue in turn, again and again, as far as a
    /// value's limits go, which are 256 transactions and 500,000 bytes. The queues stay.
    ///
    /// It looks at each queue once, and then only at the transactions that it takes and at the first
    /// that has no room.
    pub fn pick(&self) -> Result<Value, AllocError>
        ensures value { IfOk result (λ value. value ≡ pick self.now) }
        ensures spelled { All IsTx (all_waiting self.now) → IfOk result IsValue }
    {
        let picked = picked(self.alloc, self.turns()?)?;
        let txs = copy_each(self.alloc, &picked)?;
        Ok(Value {
            txs: Shared::from_vec(self.alloc, txs)?,
        })
    }

    /// Keeps of each queue what is above its client's last delivered transaction, up to the first that doesn't go on
    /// from there. It takes no memory.
    pub fn drop_delivered(&mut self, frontier: &Frontier)
        ensures { (d : List Item) → IsFrontierOf d frontier.now → self.new ≡ drop_delivered d self.old }
    {
        // A proof knows what is written at a place, but not what is written through `values_mut`.
        for place in 0..self.queues.len() {
            let standing = frontier.standing(client_at(&self.queues, place));
            keep_going_on(standing, &mut self.queues[place]);
        }
    }

    /// Whether the own tags of a value's transactions are right, under the keys of `ring`. Those of a transaction that waits
    /// here, tags and all, were found so as it was queued, and aren't made again. It takes no memory.
    pub fn is_genuine(&self, ring: &KeyRing, value: &Value) -> bool
        requires { IsValue value.now }
        ensures { (c : Setting) (p : ℕ) → IsRingOf c p ring.now → HaveRightTags c p self.now → result ≡ genuine c p value.now }
    {
        for tx in value.txs.as_slice() {
            if !self.is_right(ring, tx) {
                return false;
            }
        }
        true
    }

    /// Whether a transaction waits here, or else its own tag is right.
    fn is_right(&self, ring: &KeyRing, tx: &Tx) -> bool
        requires { IsTx tx.now }
        ensures { (c : Setting) (p : ℕ) → IsRingOf c p ring.now → HaveRightTags c p self.now → result ≡ tx_is_right c p tx.now }
    {
        self.holds(tx) || has_right_tag(tx, ring)
    }

    /// Whether just this transaction waits, with these tags.
    fn holds(&self, tx: &Tx) -> bool
        ensures { result ≡ true → tx.now ∈ all_waiting self.now }
    {
        match numbered(self.waiting(tx.client), tx.session, tx.number) {
            Some(waiting) => is_same(waiting, tx),
            None => false,
        }
    }

    /// Equal queues, or want of memory.
    pub fn copy(&self) -> Result<Mempool, AllocError>
        ensures { IfOk result (λ copy. copy ≡ self.now) }
    {
        let mut queues = IndexMap::with_capacity(self.alloc, self.queues.len())?;
        for (client, waiting) in self.queues.iter() {
            open_queue(&mut queues, *client, copy_all(self.alloc, waiting)?)?;
        }
        Ok(Mempool {
            alloc: self.alloc,
            queues,
        })
    }

    /// As `check`, where the caller says whether the client is known and the tag right.
    fn check_found(
        &self,
        tx: &Tx,
        is_right: bool,
        ring: &KeyRing,
        frontier: &Frontier,
    ) -> Result<(), SubmitFault>
        requires { (c : Setting) (p : ℕ) → IsRingOf c p ring.now → is_right ≡ tx_is_right c p tx.now }
        ensures { (c : Setting) (p : ℕ) (d : List Item) → IsRingOf c p ring.now → IsFrontierOf d frontier.now
            → IsVerdict (first_cause (tx_causes c p d self.now tx.now)) result }
    {
        match check_found(tx, is_right, ring) {
            Ok(()) => self.check_turn(tx, frontier),
            Err(fault) => Err(fault),
        }
    }

    /// The causes against a transaction that depend on what else its client sent.
    fn check_turn(&self, tx: &Tx, frontier: &Frontier) -> Result<(), SubmitFault>
        ensures { (d : List Item) → IsFrontierOf d frontier.now → (c : Setting) (p : ℕ)
            → IsVerdict (first_cause (drop 3 (tx_causes c p d self.now tx.now))) result }
    {
        if self.is_old(tx, frontier) {
            return Err(SubmitFault::OldNumber);
        }
        if self.is_closed(tx, frontier) {
            return Err(SubmitFault::Closed);
        }
        let reached = self.reached(tx.client, frontier);
        if is_ahead(reached, tx) {
            return Err(SubmitFault::SessionAhead);
        }
        if !reached.admits(tx) {
            return Err(SubmitFault::Gap);
        }
        if self.waiting(tx.client).len() >= MOST_WAITING {
            return Err(SubmitFault::QueueFull);
        }
        Ok(())
    }

    /// Whether the transaction isn't above the client's last delivered one, or one of its session with its
    /// number or a higher one waits.
    fn is_old(&self, tx: &Tx, frontier: &Frontier) -> bool
        ensures { (d : List Item) → IsFrontierOf d frontier.now → result ≡ is_old d self.now tx.now }
    {
        !is_above(frontier.standing(tx.client), tx) || has_not_below(tx, self.waiting(tx.client))
    }

    /// Whether the close of the transaction's session is delivered or waits.
    fn is_closed(&self, tx: &Tx, frontier: &Frontier) -> bool
        ensures { (d : List Item) → IsFrontierOf d frontier.now → result ≡ is_closed d self.now tx.now }
    {
        let standing = frontier.standing(tx.client);
        (tx.session == standing.session && standing.closed)
            || has_close_of(tx, self.waiting(tx.client))
    }

    /// Puts a transaction at the end of its client's queue.
    fn keep(&mut self, tx: Tx) -> Result<(), AllocError>
        ensures ok { OnOk result (self.new ≡ queued tx self.old) }
        ensures err { OnErr result (self.new ≡ self.old) }
    {
        match self.queues.get_mut(&tx.client) {
            Some(waiting) => waiting.push(tx)?,
            None => open_queue(&mut self.queues, tx.client, vec![in self.alloc; tx]?)?,
        }
        Ok(())
    }

    /// The waiting transactions in the order in which they may be proposed.
    fn turns(&self) -> Result<Turns<'_>, AllocError>
        ensures { IfOk result (λ turns. turns ≡ in_turn (map (λ queue. queue.waiting) self.now)) }
    {
        let mut queues = VecDeque::with_capacity(self.alloc, self.queues.len())?;
        for waiting in self.queues.values() {
            if !waiting.is_empty() {
                queues.push_back_reserved(waiting.as_slice());
            }
        }
        Ok(Turns::new(queues))
    }
}

/// Adds the queue of a client that has none, behind all others.
fn open_queue(
    queues: &mut IndexMap<u16, Vec<Tx>>,
    client: u16,
    waiting: Vec<Tx>,
) -> Result<(), AllocError>
    requires { get nat_eq queues.old client ≡ None }
    ensures ok { OnOk result (queues.new.entries ≡ queues.old.entries ++ (client, waiting) ∷ []) }
    ensures err { OnErr result (queues.new.entries ≡ queues.old.entries) }
{
    queues.insert(client, waiting)?;
    Ok(())
}

/// The client whose queue stands at this place.
fn client_at(queues: &IndexMap<u16, Vec<Tx>>, place: usize) -> u16
    requires { place < length queues.now.entries }
    ensures { option_map (λ e. e.0) (slice_get queues.now.entries place) ≡ Some result }
{
    match queues.get_index(place) {
        Some((client, _)) => *client,
        None => 0,
    }
}

/// Keeps what is above this standing, up to the first that doesn't go on from it.
fn keep_going_on(standing: Standing, waiting: &mut Vec<Tx>)
    ensures { waiting.new.items ≡ still_waiting standing waiting.old.items }
{
    waiting.retain(|tx| is_above(standing, tx));
    let kept = count_going_on(standing, waiting.as_slice());
    waiting.truncate(kept);
}

/// How many of these go on from this standing, one after the other.
fn count_going_on(standing: Standing, waiting: &[Tx]) -> usize
    ensures items { take result waiting.now ≡ going_on standing waiting.now }
    ensures within { result ≤ length waiting.now }
{
    let mut reached = standing;
    for (i, tx) in waiting.iter().enumerate() {
        if !reached.admits(tx) {
            return i;
        }
        reached = Standing::left_by(tx);
    }
    waiting.len()
}

/// Whether session and number are above those of the client's last transaction.
fn is_above(standing: Standing, tx: &Tx) -> bool
    ensures { result ≡ is_above standing tx.now }
{
    standing.session < tx.session || (tx.session == standing.session && standing.last < tx.number)
}

/// Whether the transaction is neither of this session nor, where it is closed, of the next.
fn is_ahead(reached: Standing, tx: &Tx) -> bool
    ensures { result ≡ is_ahead reached tx.now }
{
    !(tx.session == reached.session
        || (reached.closed && u64::from(tx.session) == u64::from(reached.session) + 1))
}

fn has_not_below(tx: &Tx, waiting: &[Tx]) -> bool
    ensures { result ≡ list_any (is_not_below tx.now) waiting.now }
{
    waiting.iter().any(|other| is_not_below(tx, other))
}

fn is_not_below(tx: &Tx, other: &Tx) -> bool
    ensures { result ≡ is_not_below tx.now other.now }
{
    other.session == tx.session && tx.number <= other.number
}

fn has_close_of(tx: &Tx, waiting: &[Tx]) -> bool
    ensures { result ≡ list_any (closes_session_of tx.now) waiting.now }
{
    waiting.iter().any(|other| closes_session_of(tx, other))
}

fn closes_session_of(tx: &Tx, other: &Tx) -> bool
    ensures { result ≡ closes_session_of tx.now other.now }
{
    other.session == tx.session && matches!(other.op, Op::Close)
}
