//! What clients do.

use crate::world::World;
use authenticators::Party;
use bytes::Bytes;
use cluster_actors::{Waiting, right_for};
use cluster_checks::{Event, Failure, Trouble, TxName};
use cluster_parts::End;
use edge_frames::LinkId;
use messages::Body;
use peer_links::Way;
use transactions::{Duplicate, Tx};
use world_parties::Tagged;

/// How often a client looks what is to be done, in milliseconds.
const TURN_MS: u64 = 1_000;

impl World {
    /// A client's turn: it makes a transaction where it is time, and sends again what isn't answered or delivered.
    pub(crate) fn turn(&mut self, client: u16) -> Result<(), Failure> {
        let now = self.now;
        let delivered = self.judge.delivered_of(client);
        let pause = self.settings.pause;
        let Some(one) = self.clients.get_mut(usize::from(client)) else {
            return Ok(());
        };
        if !one.is_correct() {
            return self.turn_of_liar(client);
        }
        one.forget_delivered(delivered);
        if one.is_due(now) {
            let _ = one.wait(now, pause);
            self.send_new(client)?;
        } else if one.is_late(now) {
            one.note_retry(now);
            self.give_up_links(client)?;
            self.send_waiting(client)?;
        }
        self.agenda
            .add(now.saturating_add(TURN_MS), Event::Turn(client))?;
        Ok(())
    }

    /// A client closes the links on which no reply comes.
    fn give_up_links(&mut self, client: u16) -> Result<(), Failure> {
        let Some(one) = self.clients.get(usize::from(client)) else {
            return Ok(());
        };
        for wire in one.silent_links(self.alloc)? {
            self.lose_link(client, wire);
            self.close(wire, End::Client(client))?;
        }
        Ok(())
    }

    /// A client makes a transaction and sends it.
    fn send_new(&mut self, client: u16) -> Result<(), Failure> {
        let alloc = self.alloc;
        let now = self.now;
        let Some(one) = self.clients.get_mut(usize::from(client)) else {
            return Ok(());
        };
        let tx = one.make(alloc)?;
        let name = TxName {
            client,
            session: tx.session,
            number: tx.number,
        };
        let op = tx.op.copy(alloc)?;
        let body = Body::Tx(Tx { client, ..tx });
        let frame = self.parties.frame_from(alloc, Party::Client(client), body)?;
        one.keep(Bytes::from_vec(frame)?, now)?;
        self.judge.sends(name, op)?;
        self.send_waiting(client)
    }

    /// A client sends all that waits, in order, to one validator, some or all.
    fn send_waiting(&mut self, client: u16) -> Result<(), Failure> {
        let Some(one) = self.clients.get_mut(usize::from(client)) else {
            return Ok(());
        };
        let waiting = one.waiting(self.alloc)?;
        for target in one.targets(self.alloc)? {
            self.send_all_to(client, target, &waiting)?;
        }
        Ok(())
    }

    /// A client sends these to a validator, in order.
    fn send_all_to(
        &mut self,
        client: u16,
        validator: u16,
        waiting: &[Waiting],
    ) -> Result<(), Failure> {
        for one in waiting {
            self.send_to(client, validator, one.ordinal, one.frame.clone()?)?;
        }
        Ok(())
    }

    /// A client sends a frame to a validator, which it dials where it has no link to it.
    fn send_to(
        &mut self,
        client: u16,
        validator: u16,
        ordinal: u64,
        frame: Bytes,
    ) -> Result<(), Failure> {
        let Some(wire) = self.link_to(client, validator)? else {
            return Ok(());
        };
        if let Some(one) = self.clients.get_mut(usize::from(client)) {
            one.note_asked(validator, ordinal)?;
        }
        self.send(wire, End::Client(client), frame, false)?;
        Ok(())
    }

    /// Returns a client's link to a validator: a new one where it has none and the validator takes it.
    fn link_to(&mut self, client: u16, validator: u16) -> Result<Option<u32>, Failure> {
        let Some(one) = self.clients.get(usize::from(client)) else {
            return Ok(None);
        };
        if let Some(wire) = one.link(validator) {
            return Ok(Some(wire));
        }
        let acceptor = match self.posts.get(usize::from(validator)) {
            Some(post) if post.is_up() => post.end(),
            _ => return Ok(None),
        };
        let wire = self.connect(End::Client(client), acceptor)?;
        if !self.tell_opened(validator, LinkId(wire), Way::Accepted) {
            self.wires.remove(&wire);
            return Ok(None);
        }
        if let Some(one) = self.clients.get_mut(usize::from(client)) {
            one.note_link(validator, wire);
        }
        Ok(Some(wire))
    }

    /// A client's link is gone.
    pub(crate) fn lose_link(&mut self, client: u16, wire: u32) {
        if let Some(one) = self.clients.get_mut(usize::from(client)) {
            one.lose(wire);
        }
    }

    /// Frames have come to a client.
    pub(crate) fn hear_replies(&mut self, client: u16, wire: u32, frames: &[Bytes]) {
        if let Some(one) = self.clients.get_mut(usize::from(client)) {
            one.hear(wire, frames);
        }
    }

    /// The turn of a Byzantine client: transactions that contradict one another, come too early or too late, or whose tags are right for
    /// one validator alone.
    fn turn_of_liar(&mut self, client: u16) -> Result<(), Failure> {
        let now = self.now;
        let pause = self.settings.pause;
        let Some(one) = self.clients.get_mut(usize::from(client)) else {
            return Ok(());
        };
        let at = now.saturating_add(one.wait(now, pause));
        for target in one.targets(self.alloc)? {
            self.send_false_to(client, target)?;
        }
        self.agenda.add(at, Event::Turn(client))?;
        Ok(())
    }

    /// A Byzantine client sends a false transaction to a validator.
    fn send_false_to(&mut self, client: u16, validator: u16) -> Result<(), Failure> {
        let alloc = self.alloc;
        let next = self.judge.next_of(client);
        let is_poison = self.settings.troubles.has(Trouble::Poison);
        let right = right_for(alloc, validator, is_poison)?;
        let Some(one) = self.clients.get_mut(usize::from(client)) else {
            return Ok(());
        };
        let item = one.make_false(alloc, next)?;
        let frame = self.parties.frame_of_tx(alloc, &Tagged { item, right })?;
        self.send_to(client, validator, 0, Bytes::from_vec(frame)?)
    }
}
