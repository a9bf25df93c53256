//! What happens on links.

use crate::world::World;
use bytes::Bytes;
use cluster_actors::Deed;
use cluster_checks::{Event, Failure, Heading, Note, Passage};
use cluster_parts::{End, Flow, Side, Terminal, Wire};
use edge_frames::LinkId;
use peer_core::Keeping;
use peer_links::Way;
use std::alloc::Global;

/// How many frames are read of one piece at most.
const MOST_READ: u32 = 1_000_000;

/// What was read of a piece.
#[derive(Drop)]
struct Reading {
    frames: Vec<Bytes>,
    /// Whether a length is above the limit, so that the stream is of no more use.
    is_broken: bool,
}

impl World {
    /// Makes a link between two ends.
    pub(crate) fn connect(&mut self, dialer: End, acceptor: End) -> Result<u32, Failure> {
        let id = self.next_wire;
        self.next_wire = self.next_wire.saturating_add(1);
        let mut wire = Wire::new(self.alloc, dialer, acceptor);
        wire.delay = self.chance.between(1, self.settings.delay);
        wire.jitter = self.chance.below(wire.delay.saturating_add(1));
        wire.pace = self.chance.one_of(&[50, 500, 5_000, 50_000]);
        self.wires.insert(id, wire)?;
        Ok(id)
    }

    /// Returns the links that an end has.
    pub(crate) fn links_at(&self, end: End) -> Result<Vec<u32>, Failure> {
        let mut found = Vec::new(self.alloc);
        for (id, wire) in self.wires.iter() {
            if wire.side_of(end).is_some() {
                found.push(*id)?;
            }
        }
        Ok(found)
    }

    /// Queues a frame at an end of a link, and returns whether it has room; an end that has left needs none.
    pub(crate) fn send(
        &mut self,
        id: u32,
        end: End,
        frame: Bytes,
        is_repair: bool,
    ) -> Result<bool, Failure> {
        let now = self.now;
        let Some(wire) = self.wires.get_mut(&id) else {
            return Ok(true);
        };
        let Some(side) = wire.side_of(end) else {
            return Ok(true);
        };
        let kind = Heading::of_frame(&frame).kind;
        self.costs.send(kind, frame.len() as u64);
        let terminal = wire.at_mut(side);
        if terminal.is_gone || terminal.lane.flow() != Flow::Open {
            return Ok(true);
        }
        let has_room = terminal.lane.offer(frame, is_repair)?;
        if has_room && !terminal.lane.is_writing {
            terminal.lane.is_writing = true;
            let at = terminal.lane.free_at.max(now);
            self.agenda.add(at, Event::Write { wire: id, side })?;
        }
        Ok(has_room)
    }

    /// What becomes of bytes from this side of a link.
    fn passage_on(&self, id: u32, side: Side) -> Passage {
        let Some(wire) = self.wires.get(&id) else {
            return Passage::Free;
        };
        match (wire.at(side).end, wire.at(side.other()).end) {
            (End::Validator { number: from, .. }, End::Validator { number: to, .. }) =>
                self.passage(from, to),
            _ => Passage::Free,
        }
    }

    /// What becomes of bytes from one validator to another.
    fn passage(&self, from: u16, to: u16) -> Passage {
        let mut found = Passage::Free;
        for partition in self.partitions.iter() {
            match partition.passage(from, to) {
                Passage::Free => {}
                Passage::Vanishes => return Passage::Vanishes,
                held => found = held,
            }
        }
        found
    }

    /// Lets go what waits at this side of a link, as far as one write takes it.
    pub(crate) fn write(&mut self, id: u32, side: Side) -> Result<(), Failure> {
        match self.passage_on(id, side) {
            Passage::Held(until) => {
                let at = until.max(self.now.saturating_add(1));
                self.agenda.add(at, Event::Write { wire: id, side })?;
                Ok(())
            }
            Passage::Vanishes => {
                if let Some(wire) = self.wires.get_mut(&id) {
                    wire.at_mut(side).lane.lose();
                }
                self.write_free(id, side)
            }
            Passage::Free => self.write_free(id, side),
        }
    }

    fn write_free(&mut self, id: u32, side: Side) -> Result<(), Failure> {
        let now = self.now;
        let Some(wire) = self.wires.get_mut(&id) else {
            return Ok(());
        };
        let delay = wire
            .delay
            .saturating_add(self.chance.below(wire.jitter.saturating_add(1)));
        let pace = wire.pace;
        let lane = &mut wire.at_mut(side).lane;
        lane.is_writing = false;
        let written = lane.write(&mut self.chance)?;
        if written.pieces == 0 {
            return self.drain(id, side);
        }
        let busy = written.bytes.checked_div(pace).unwrap_or(0);
        lane.free_at = now.saturating_add(busy);
        let first = lane.last.max(lane.free_at.saturating_add(delay));
        lane.last = first.saturating_add(written.pieces);
        if lane.waiting() > 0 || lane.flow() == Flow::Closing {
            lane.is_writing = true;
            self.agenda
                .add(lane.free_at, Event::Write { wire: id, side })?;
        }
        for turn in 0..written.pieces {
            let at = first.saturating_add(turn);
            self.agenda.add(at, Event::Arrive { wire: id, side })?;
        }
        Ok(())
    }

    /// Nothing waits at this side of a link: where it closes, it has left.
    fn drain(&mut self, id: u32, side: Side) -> Result<(), Failure> {
        let now = self.now;
        let Some(wire) = self.wires.get_mut(&id) else {
            return Ok(());
        };
        let delay = wire.delay;
        let terminal = wire.at_mut(side);
        if terminal.lane.flow() != Flow::Closing || terminal.is_gone {
            return Ok(());
        }
        terminal.is_gone = true;
        let seen = terminal.lane.last.max(now.saturating_add(delay));
        self.agenda.add(now, Event::Ends { wire: id, side })?;
        self.agenda.add(
            seen.saturating_add(1),
            Event::Ends {
                wire: id,
                side: side.other(),
            },
        )?;
        Ok(())
    }

    /// An end closes a link: what waits is still sent. On a link that lost its bytes nobody else sees it.
    pub(crate) fn close(&mut self, id: u32, end: End) -> Result<(), Failure> {
        let now = self.now;
        let Some(wire) = self.wires.get_mut(&id) else {
            return Ok(());
        };
        let Some(side) = wire.side_of(end) else {
            return Ok(());
        };
        let terminal = wire.at_mut(side);
        if terminal.lane.flow() == Flow::Lost {
            terminal.is_gone = true;
            self.agenda.add(now, Event::Ends { wire: id, side })?;
            return Ok(());
        }
        terminal.lane.close();
        if !terminal.lane.is_writing {
            terminal.lane.is_writing = true;
            let at = terminal.lane.free_at.max(now);
            self.agenda.add(at, Event::Write { wire: id, side })?;
        }
        Ok(())
    }

    /// An end is gone at once, with what waits there. The other one mostly sees it.
    pub(crate) fn drop_end(&mut self, id: u32, end: End) -> Result<(), Failure> {
        let is_silent = self.settings.keeping == Keeping::Guarded
            && self.now < self.settings.calm
            && self.chance.percent(20);
        let now = self.now;
        let Some(wire) = self.wires.get_mut(&id) else {
            return Ok(());
        };
        let Some(side) = wire.side_of(end) else {
            return Ok(());
        };
        let delay = wire.delay;
        let terminal = wire.at_mut(side);
        terminal.is_gone = true;
        terminal.lane.lose();
        if is_silent {
            return Ok(());
        }
        let seen = terminal.lane.last.max(now.saturating_add(delay));
        self.agenda.add(
            seen.saturating_add(1),
            Event::Ends {
                wire: id,
                side: side.other(),
            },
        )?;
        Ok(())
    }

    /// A link is cut: both ends see it now, and what was on its way is lost.
    pub(crate) fn cut(&mut self, id: u32) -> Result<(), Failure> {
        self.notes.add(Note::Cut {
            link: id,
            is_lost: false,
        })?;
        for side in [Side::Dialer, Side::Acceptor] {
            if let Some(wire) = self.wires.get_mut(&id) {
                wire.at_mut(side).lane.cut();
                self.agenda.add(self.now, Event::Ends { wire: id, side })?;
            }
        }
        Ok(())
    }

    /// This side of a link sees that it has ended.
    pub(crate) fn end_at(&mut self, id: u32, side: Side) -> Result<(), Failure> {
        let Some(wire) = self.wires.get_mut(&id) else {
            return Ok(());
        };
        let terminal = wire.at_mut(side);
        terminal.is_gone = true;
        terminal.lane.lose();
        let end = terminal.end;
        if wire.is_over() {
            self.wires.remove(&id);
        }
        self.tell_end(end, id)
    }

    /// Tells an end that its link is gone.
    fn tell_end(&mut self, end: End, id: u32) -> Result<(), Failure> {
        match end {
            End::Validator { number, life } if self.lives(number, life) => {
                self.run(number, Deed::End(LinkId(id)))
            }
            End::Client(client) => {
                self.lose_link(client, id);
                Ok(())
            }
            End::Validator { .. } | End::Stranger => Ok(()),
        }
    }

    /// Returns whether a validator runs, in this life.
    pub(crate) fn lives(&self, validator: u16, life: u32) -> bool {
        self.posts
            .get(usize::from(validator))
            .is_some_and(|post| post.life == life && post.is_up())
    }

    /// A piece of bytes arrives that this side sent.
    pub(crate) fn arrive(&mut self, id: u32, side: Side) -> Result<(), Failure> {
        let alloc = self.alloc;
        let Some(wire) = self.wires.get_mut(&id) else {
            return Ok(());
        };
        let Some(piece) = wire.at_mut(side).lane.land() else {
            return Ok(());
        };
        let terminal = wire.at_mut(side.other());
        if terminal.is_gone {
            return Ok(());
        }
        let end = terminal.end;
        let reading = read_piece(alloc, terminal, &piece)?;
        self.hear(id, end, reading)
    }

    /// Frames have come whole at an end.
    fn hear(&mut self, id: u32, end: End, reading: Reading) -> Result<(), Failure> {
        let Reading { frames, is_broken } = reading;
        match end {
            End::Validator { number, life } if self.lives(number, life) => {
                self.overhear(number, &frames)?;
                if is_broken {
                    self.close(id, end)?;
                }
                self.run(number, Deed::Hear(LinkId(id), frames))
            }
            End::Client(client) => {
                self.hear_replies(client, id, &frames);
                Ok(())
            }
            End::Validator { .. } | End::Stranger => Ok(()),
        }
    }

    /// Dialing comes to its end: a link is open, or the other one isn't reached.
    pub(crate) fn finish_dial(&mut self, from: u16, life: u32, to: u16) -> Result<(), Failure> {
        if !self.lives(from, life) {
            return Ok(());
        }
        if !self.is_reachable(from, to) {
            self.notes.add(Note::NotReached { from, to })?;
            return self.run(from, Deed::Dialed(to, false));
        }
        let acceptor = match self.posts.get(usize::from(to)) {
            Some(post) => post.end(),
            None => return Ok(()),
        };
        let dialer = End::Validator { number: from, life };
        let id = self.connect(dialer, acceptor)?;
        self.notes.add(Note::Opens { link: id, from, to })?;
        let link = LinkId(id);
        if !self.tell_opened(to, link, Way::Accepted) {
            self.wires.remove(&id);
            return self.run(from, Deed::Dialed(to, false));
        }
        if !self.tell_opened(from, link, Way::Dialed(to)) {
            self.drop_end(id, dialer)?;
        }
        self.run(from, Deed::Dialed(to, true))?;
        self.run(to, Deed::Wake)
    }

    /// Returns whether a validator reaches another one by dialing: both ways are free, or bytes only wait.
    fn is_reachable(&self, from: u16, to: u16) -> bool {
        let is_up = self
            .posts
            .get(usize::from(to))
            .is_some_and(|post| post.is_up());
        is_up && self.is_passable(from, to) && self.is_passable(to, from)
    }

    fn is_passable(&self, from: u16, to: u16) -> bool {
        match self.passage(from, to) {
            Passage::Free => true,
            Passage::Held(_) => self.settings.keeping == Keeping::Open,
            Passage::Vanishes => false,
        }
    }
}

/// Feeds a piece to an end, and takes the frames that it makes whole.
fn read_piece(alloc: Global, terminal: &mut Terminal, piece: &[u8]) -> Result<Reading, Failure> {
    terminal.reader.feed(piece)?;
    let mut reading = Reading {
        frames: Vec::new(alloc),
        is_broken: false,
    };
    for _ in 0..MOST_READ {
        match terminal.reader.next_frame() {
            Ok(Some(frame)) => reading.frames.push(Bytes::copy_from_slice(alloc, frame)?)?,
            Ok(None) => break,
            Err(_) => {
                reading.is_broken = true;
                break;
            }
        }
    }
    Ok(reading)
}
