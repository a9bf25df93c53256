//! The faults that come, until they cease.

use crate::world::World;
use bytes::Bytes;
use cluster_actors::Deed;
use cluster_checks::{Event, Failure, Note, Partition, Trouble, small};
use cluster_parts::{End, Side, Strike, Wire};
use edge_frames::LinkId;
use peer_core::Keeping;
use peer_links::Way;

/// How many connections of nobody there are at most.
const MOST_STRANGERS: usize = 40;

/// How many bytes a stranger sends at most.
const MOST_GARBAGE: u16 = 2_000;

/// Returns whether both ends of a link are validators.
fn is_between_validators(wire: &Wire) -> bool {
    matches!(wire.at(Side::Dialer).end, End::Validator { .. })
        && matches!(wire.at(Side::Acceptor).end, End::Validator { .. })
}

/// Returns whether one end of a link is nobody.
fn is_strangers(wire: &Wire) -> bool {
    wire.at(Side::Dialer).end == End::Stranger
}

impl World {
    /// A fault of this kind comes, and the next one is planned.
    pub(crate) fn strike(&mut self, trouble: Trouble) -> Result<(), Failure> {
        if self.now >= self.settings.calm {
            return Ok(());
        }
        match trouble {
            Trouble::Cuts => self.strike_link()?,
            Trouble::HalfOpen => self.strike_half()?,
            Trouble::Partitions => self.strike_partition()?,
            Trouble::Stops => self.strike_stop()?,
            Trouble::Disks => self.strike_disk(),
            Trouble::Strangers => self.strike_stranger()?,
            Trouble::Drift | Trouble::Liars | Trouble::Clients | Trouble::Poison => return Ok(()),
        }
        let wait = match trouble {
            Trouble::Cuts | Trouble::Strangers | Trouble::Disks => self
                .chance
                .between(1_000, 60_000),
            _ => self.chance.between(10_000, 120_000),
        };
        let at = self.now.saturating_add(wait);
        self.agenda.add(at, Event::Strike(trouble))?;
        Ok(())
    }

    /// A link: of validators alone, or any.
    fn any_link(&mut self, of_validators: bool) -> Result<Option<u32>, Failure> {
        let mut found = Vec::new(self.alloc);
        for (id, wire) in self.wires.iter() {
            if !of_validators || is_between_validators(wire) {
                found.push(*id)?;
            }
        }
        match self.chance.place(found.len()) {
            Some(place) => Ok(found.get(place).copied()),
            None => Ok(None),
        }
    }

    /// Cuts a link, or delays what goes over it. Where nobody dials again a validator's link isn't cut.
    fn strike_link(&mut self) -> Result<(), Failure> {
        let Some(id) = self.any_link(false)? else {
            return Ok(());
        };
        let is_cut = self.chance.percent(70);
        let delay = self.chance.between(100, 3_000);
        let keeping = self.settings.keeping;
        let Some(wire) = self.wires.get_mut(&id) else {
            return Ok(());
        };
        let may_be_cut = keeping == Keeping::Guarded || !is_between_validators(wire);
        if is_cut && may_be_cut {
            return self.cut(id);
        }
        wire.delay = delay;
        Ok(())
    }

    /// Lets bytes vanish on a link of validators, one way or both, or cuts it at one end alone.
    fn strike_half(&mut self) -> Result<(), Failure> {
        if self.settings.keeping == Keeping::Open {
            return Ok(());
        }
        let Some(id) = self.any_link(true)? else {
            return Ok(());
        };
        let one = if self.chance.percent(50) {
            Side::Dialer
        } else {
            Side::Acceptor
        };
        let kind = self.chance.below(3);
        let Some(wire) = self.wires.get_mut(&id) else {
            return Ok(());
        };
        self.notes.add(Note::Cut {
            link: id,
            is_lost: true,
        })?;
        wire.at_mut(one).lane.lose();
        if kind > 0 {
            wire.at_mut(one.other()).lane.lose();
        }
        if kind > 1 {
            self.agenda.add(
                self.now,
                Event::Ends {
                    wire: id,
                    side: one,
                },
            )?;
        }
        Ok(())
    }

    /// Cuts some validators off from the others for a while.
    fn strike_partition(&mut self) -> Result<(), Failure> {
        let count = self.parties.count();
        let first = self.chance.small(0, count.saturating_sub(1));
        let members = self.chance.small(1, count / 2);
        let is_one_way = self.chance.percent(40);
        let may_vanish = self.settings.keeping == Keeping::Guarded;
        let vanishes = self.chance.percent(60) && may_vanish;
        let lasting = self.chance.between(500, 30_000);
        let until = self.now.saturating_add(lasting).min(self.settings.calm);
        self.partitions.push(Partition {
            first,
            members,
            count,
            is_one_way,
            vanishes,
            until,
        })?;
        self.notes.add(Note::CutOff {
            first,
            members,
            is_one_way,
            vanishes,
            until,
        })?;
        self.agenda.add(until, Event::Heal)?;
        Ok(())
    }

    /// Partitions whose time is over heal.
    pub(crate) fn heal(&mut self) {
        let now = self.now;
        self.partitions.retain(|partition| partition.until > now);
    }

    /// Stops a validator.
    fn strike_stop(&mut self) -> Result<(), Failure> {
        match self.chance.place(self.posts.len()) {
            Some(place) => self.stop(small(place as u64), true),
            None => Ok(()),
        }
    }

    /// Lets a call of a validator's store fail.
    fn strike_disk(&mut self) {
        let call = self.chance.between(1, 30);
        let keep = usize::from(self.chance.small(0, 400));
        let strike = match self.chance.below(4) {
            0 | 1 => Strike::Power(keep),
            2 => Strike::Device(keep),
            _ => Strike::NoRoom,
        };
        if let Some(place) = self.chance.place(self.posts.len()) {
            if let Some(post) = self.posts.get(place) {
                post.drive.plan(call, strike);
            }
        }
    }

    /// Lets a stranger connect to a validator, and send nothing or garbage; or lets one leave.
    fn strike_stranger(&mut self) -> Result<(), Failure> {
        let strangers = self
            .wires
            .values()
            .filter(|wire| is_strangers(wire))
            .count();
        if strangers >= MOST_STRANGERS {
            return self.dismiss_stranger();
        }
        let Some(place) = self.chance.place(self.posts.len()) else {
            return Ok(());
        };
        let validator = small(place as u64);
        let acceptor = match self.posts.get(place) {
            Some(post) if post.is_up() => post.end(),
            _ => return Ok(()),
        };
        let wire = self.connect(End::Stranger, acceptor)?;
        if !self.tell_opened(validator, LinkId(wire), Way::Accepted) {
            self.wires.remove(&wire);
            return Ok(());
        }
        if self.chance.percent(60) {
            let count = self.chance.small(1, MOST_GARBAGE);
            let garbage = self.chance.bytes(self.alloc, count)?;
            self.send(wire, End::Stranger, Bytes::from_vec(garbage)?, false)?;
        }
        self.run(validator, Deed::Wake)
    }

    /// A stranger leaves.
    fn dismiss_stranger(&mut self) -> Result<(), Failure> {
        let found = self
            .wires
            .iter()
            .find(|entry| is_strangers(entry.1))
            .map(|entry| *entry.0);
        match found {
            Some(id) => self.close(id, End::Stranger),
            None => Ok(()),
        }
    }

    /// Faults cease: partitions heal, disks and links work.
    pub(crate) fn calm(&mut self) -> Result<(), Failure> {
        self.partitions.clear();
        for post in self.posts.iter() {
            post.drive.spare();
        }
        self.quicken();
        Ok(())
    }

    /// Lets no link be slower than the settings have it.
    fn quicken(&mut self) {
        let most = self.settings.delay;
        for wire in self.wires.values_mut() {
            wire.delay = wire.delay.min(most);
        }
    }
}
