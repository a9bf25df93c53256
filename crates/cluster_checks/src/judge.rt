//! The one list of items that all correct validators deliver, and who sent what.

ghost use Rattle.std.specs.Prelude.{◌≡◌, ◌+◌, ◌++◌, ◌∷◌, [], true, Some, IfErr, OnOk, OnErr, length, slice_get};
ghost use Rattle.std.specs.Bool.{Decides};
ghost use Rattle.cluster_checks.specs.Judging.{name_of, item_of, follows, left_after, Keeps, Has, HasSent, IsNext, StandsAt, IsDeserved};

use crate::failure::Failure;
use crate::kinds::TxName;
use std::alloc::{AllocError, Global};
use std::collections::VecDeque;
use transactions::{Duplicate, Op, Tx, Value};

/// An item of the list.
#[derive(Drop)]
struct Delivered {
    name: TxName,
    op: Op,
}

impl Delivered {
    /// Returns whether a transaction is this item.
    fn is(&self, tx: &Tx) -> bool
        ensures { Decides result (self.now ≡ item_of tx.now) }
    {
        self.name == TxName::of(tx) && self.op == tx.op
    }
}

/// What a client sent that isn't delivered yet, and where it stands.
#[derive(Drop)]
struct Sender {
    /// Whether it is correct, so that what it sent is known.
    is_correct: bool,
    sent: VecDeque<Delivered>,
    session: u32,
    number: u64,
    is_closed: bool,
    /// The places of its items in the list.
    places: Vec<u64>,
    /// How many items it sent, and before each of its sessions.
    count: u64,
    sessions: Vec<u64>,
}

/// How far a validator's list was compared.
#[derive(Clone, Copy)]
pub struct Progress {
    /// How many heights.
    pub heights: u64,
    /// How many items these have.
    pub items: u64,
}

impl Progress {
    /// Nothing was compared.
    pub const NONE: Progress = Progress {
        heights: 0,
        items: 0,
    };
}

/// The list, as far as the furthest correct validator has it.
#[derive(Drop)]
pub struct Judge {
    alloc: Global,
    list: Vec<Delivered>,
    senders: Vec<Sender>,
}

impl Judge {
    /// An empty list, and clients who sent nothing: as many as are correct, and then Byzantine ones.
    pub fn new(alloc: Global, correct: u16, all: u16) -> Result<Judge, AllocError> {
        let mut senders = Vec::new(alloc);
        for client in 0..all {
            senders.push(Sender {
                is_correct: client < correct,
                sent: VecDeque::new(alloc),
                session: 0,
                number: 0,
                is_closed: false,
                places: Vec::new(alloc),
                count: 0,
                sessions: Vec::new(alloc),
            })?;
        }
        Ok(Judge {
            alloc,
            list: Vec::new(alloc),
            senders,
        })
    }

    /// How many items the list has.
    pub fn length(&self) -> u64 {
        self.list.len() as u64
    }

    /// A correct client is about to send this.
    pub fn sends(&mut self, name: TxName, op: Op) -> Result<(), AllocError> {
        match self.senders.get_mut(usize::from(name.client)) {
            Some(sender) => sender.send(name, op),
            None => Ok(()),
        }
    }

    /// The client's next transaction behind what is delivered.
    pub fn next_of(&self, client: u16) -> TxName {
        match self.senders.get(usize::from(client)) {
            Some(sender) if sender.is_closed => TxName {
                client,
                session: sender.session.saturating_add(1),
                number: 1,
            },
            Some(sender) => TxName {
                client,
                session: sender.session,
                number: sender.number.saturating_add(1),
            },
            None => TxName {
                client,
                session: 0,
                number: 1,
            },
        }
    }

    /// How many items a correct client had sent with this one.
    pub fn count_with(&self, name: TxName) -> u64 {
        let Some(sender) = self.senders.get(usize::from(name.client)) else {
            return 0;
        };
        let session = usize::try_from(name.session).unwrap_or(usize::MAX);
        let before = sender.sessions.get(session).copied().unwrap_or(0);
        before.saturating_add(name.number)
    }

    /// How many items of a client are delivered.
    pub fn delivered_of(&self, client: u16) -> u64 {
        match self.senders.get(usize::from(client)) {
            Some(sender) => sender.places.len() as u64,
            None => 0,
        }
    }

    /// Returns whether the list has, within so many items, so many of a client's.
    pub fn has_within(&self, client: u16, count: u64, items: u64) -> bool {
        let Some(sender) = self.senders.get(usize::from(client)) else {
            return false;
        };
        let Some(last) = count.checked_sub(1) else {
            return true;
        };
        match usize::try_from(last) {
            Ok(last) => sender.places.get(last).is_some_and(|place| *place < items),
            Err(_) => false,
        }
    }

    /// Compares the value of the next height of a validator's list with the list, which it makes longer where it ends.
    /// `Disagreement` where an item is another one there, `OutOfOrder` and `NotSent` where a new item isn't its client's next.
    pub fn compare(
        &mut self,
        validator: u16,
        progress: &mut Progress,
        value: &Value,
    ) -> Result<(), Failure>
        ensures agrees { OnOk result (Has self.new.list.items progress.old.items value.now.txs) }
        ensures counts { OnOk result (progress.new.items ≡ progress.old.items + length value.now.txs) }
        ensures kept { Keeps self.old.list.items self.new.list.items }
    {
        for tx in value.txs.as_slice() {
            self.compare_item(validator, *progress, tx)?;
            progress.items = progress.items.saturating_add(1);
        }
        progress.heights = progress.heights.saturating_add(1);
        Ok(())
    }

    /// Compares one item with that at its place, or appends it where it is the first behind the list.
    fn compare_item(&mut self, validator: u16, progress: Progress, tx: &Tx) -> Result<(), Failure>
        ensures agrees { OnOk result (slice_get self.new.list.items progress.items ≡ Some (item_of tx.now)) }
        ensures kept { Keeps self.old.list.items self.new.list.items }
        ensures next { progress.items ≡ length self.old.list.items → OnOk result (IsNext self.old.senders.items tx.now) }
        ensures deserved { IfErr result (IsDeserved self.old.list.items progress.items tx.now) }
    {
        let place = usize::try_from(progress.items).unwrap_or(usize::MAX);
        if place == self.list.len() {
            return self.append(validator, progress, tx);
        }
        if self.has_at(place, tx) {
            return Ok(());
        }
        Err(Failure::Disagreement {
            validator,
            height: progress.heights,
            place: progress.items,
        })
    }

    /// Returns whether a transaction is the item at a place of the list.
    fn has_at(&self, place: usize, tx: &Tx) -> bool
        ensures { Decides result (slice_get self.now.list.items place ≡ Some (item_of tx.now)) }
    {
        match self.list.get(place) {
            Some(known) => known.is(tx),
            None => false,
        }
    }

    /// Appends an item, which is its client's next, and was sent by it.
    fn append(&mut self, validator: u16, progress: Progress, tx: &Tx) -> Result<(), Failure>
        ensures appended { OnOk result (self.new.list.items ≡ self.old.list.items ++ item_of tx.now ∷ []) }
        ensures next { OnOk result (IsNext self.old.senders.items tx.now) }
        ensures kept { OnErr result (self.new.list.items ≡ self.old.list.items) }
    {
        let place = self.list.len() as u64;
        let height = progress.heights;
        let name = TxName::of(tx);
        let not_sent = Failure::NotSent {
            validator,
            height,
            client: name.client,
            session: name.session,
            number: name.number,
        };
        let Some(sender) = self.senders.get_mut(usize::from(name.client)) else {
            return Err(not_sent);
        };
        if !sender.admits(name) {
            return Err(Failure::OutOfOrder {
                validator,
                height,
                client: name.client,
                session: name.session,
                number: name.number,
            });
        }
        if !sender.has_sent(tx) {
            return Err(not_sent);
        }
        sender.deliver(name, &tx.op, place)?;
        let op = tx.op.copy(self.alloc)?;
        self.list.push(Delivered { name, op })?;
        Ok(())
    }
}

impl Sender {
    /// A correct client is about to send this.
    fn send(&mut self, name: TxName, op: Op) -> Result<(), AllocError>
        ensures { OnOk result (self.new.sent.items ≡ self.old.sent.items ++ record { name = name; op = op } ∷ []) }
    {
        if name.number == 1 {
            self.sessions.push(self.count)?;
        }
        self.count = self.count.saturating_add(1);
        match self.sent.push_back(Delivered { name, op }) {
            Ok(()) => Ok(()),
            Err(_) => Err(AllocError),
        }
    }

    /// Returns whether this is the next in the order of the client: its numbers from one, its sessions in turn.
    fn admits(&self, name: TxName) -> bool
        ensures { result ≡ follows self.now name }
    {
        if self.is_closed {
            name.number == 1 && self.session.checked_add(1) == Some(name.session)
        } else {
            name.session == self.session && self.number.checked_add(1) == Some(name.number)
        }
    }

    /// Returns whether it sent this next, of which only a correct client is asked.
    fn has_sent(&mut self, tx: &Tx) -> bool
        ensures sent { result ≡ true → HasSent self.old (item_of tx.now) }
        ensures place { (self.new.session ≡ self.old.session) × (self.new.number ≡ self.old.number) × (self.new.is_closed ≡ self.old.is_closed) }
        ensures left { self.new.sent.items ≡ left_after self.old }
    {
        if !self.is_correct {
            return true;
        }
        match self.sent.pop_front() {
            Some(sent) => sent.is(tx),
            None => false,
        }
    }

    /// Notes that this is delivered at a place of the list.
    fn deliver(&mut self, name: TxName, op: &Op, place: u64) -> Result<(), AllocError>
        ensures { StandsAt name op.now self.new }
    {
        self.session = name.session;
        self.number = name.number;
        self.is_closed = matches!(op, Op::Close);
        self.places.push(place)?;
        Ok(())
    }
}
