//! How validators start and stop.

ghost use Rattle.std.specs.Prelude.{◌≡◌, true};
ghost use Rattle.world_parties.specs.Cast.{is_validator};

use crate::world::World;
use cluster_actors::{Deed, Engine, Post, Seat};
use cluster_checks::{EarlyWatch, Event, Failure, Note, Progress, SpeechWatch};
use cluster_parts::{DiskStore, End};
use node_core::{Config, NodeCore};
use peer_core::{Manner, PeerCore};
use proposer_turns::Turns;
use std::alloc::{AllocFailed, Global};
use std::mem;
use timeouts::Plan;
use vote_journal::{Journal, JournalFault, NotOpened, Opened};
use world_parties::Parties;

/// The node over the journal on a disk, which comes back where there is none.
fn core_over(
    alloc: Global,
    parties: &Parties,
    number: u16,
    store: DiskStore,
) -> Result<NodeCore<DiskStore>, NotOpened<DiskStore>>
    requires known { is_validator parties.now number ≡ true }
{
    let Ok(ring) = parties.ring_of(alloc, number) else {
        return Err(starved(store));
    };
    let Ok(powers) = parties.powers().copy(alloc) else {
        return Err(starved(store));
    };
    // There are 2 to 128 validators.
    let _count = parties.count();
    let opened = Journal::open(alloc, store, number, &powers)?;
    match NodeCore::open(alloc, Config { me: number, powers }, ring, opened) {
        Ok(core) => Ok(core),
        Err(AllocFailed { value }) => Err(starved(store_of(value))),
    }
}

/// Memory was refused, and the store comes back.
fn starved(store: DiskStore) -> NotOpened<DiskStore> {
    NotOpened {
        fault: JournalFault::OutOfMemory,
        store,
    }
}

fn store_of(opened: Opened<DiskStore>) -> DiskStore {
    let Opened {
        journal,
        decisions: _,
        own: _,
    } = opened;
    journal.close()
}

/// Takes what the disk has of a validator that has stopped, so that it is being started.
fn take_store(post: &mut Post) -> Option<DiskStore> {
    match mem::replace(&mut post.seat, Seat::Between) {
        Seat::Down(store) => Some(store),
        seat => {
            post.seat = seat;
            None
        }
    }
}

/// Takes the node of a validator that runs, so that it is being stopped.
fn take_node(post: &mut Post) -> Option<NodeCore<DiskStore>> {
    match mem::replace(&mut post.seat, Seat::Between) {
        Seat::Up(engine) => {
            let Engine {
                alloc: _,
                node,
                core: _,
                watch: _,
                speech: _,
            } = Box::into_inner(engine);
            Some(node)
        }
        seat => {
            post.seat = seat;
            None
        }
    }
}

impl World {
    /// Starts a validator over what its disk has.
    pub(crate) fn start(&mut self, validator: u16) -> Result<(), Failure> {
        if validator >= self.parties.count() {
            return Ok(());
        }
        let Some(post) = self.posts.get_mut(usize::from(validator)) else {
            return Ok(());
        };
        let Some(store) = take_store(post) else {
            return Ok(());
        };
        match core_over(self.alloc, &self.parties, validator, store) {
            Ok(node) => self.begin_life(validator, node),
            Err(refused) => self.start_again(validator, refused),
        }
    }

    /// Has a validator started again whose journal wasn't opened for want of memory or by a fault of its disk.
    fn start_again(
        &mut self,
        validator: u16,
        refused: NotOpened<DiskStore>,
    ) -> Result<(), Failure> {
        let NotOpened { fault, store } = refused;
        if matches!(fault, JournalFault::BadRecord) {
            return Err(Failure::BadJournal { validator });
        }
        self.fall(validator, store)
    }

    /// A validator's disk has this, and it is started after a while.
    fn fall(&mut self, validator: u16, store: DiskStore) -> Result<(), Failure> {
        let (least, most) = store.bounds();
        let left = self.chance.between(least as u64, most as u64);
        let mut store = store.stopped(usize::try_from(left).unwrap_or(most));
        let pause = self.pause();
        let at = self.now.saturating_add(pause);
        let Some(post) = self.posts.get_mut(usize::from(validator)) else {
            return Ok(());
        };
        let _ = post.drive.takes_cut();
        if post.is_forgetful {
            store = store.forgotten();
        }
        self.notes.add(Note::Stopped {
            validator,
            bytes: left,
        })?;
        post.seat = Seat::Down(store);
        self.agenda.add(at, Event::Start(validator))?;
        Ok(())
    }

    /// How long a validator is down: not for long once faults have ceased.
    fn pause(&mut self) -> u64 {
        let pause = if self.chance.percent(70) {
            self.chance.between(100, 4_000)
        } else {
            self.chance.between(4_000, 60_000)
        };
        let end = self.settings.calm.saturating_add(2_000);
        pause.min(end.saturating_sub(self.now).max(500))
    }

    /// A validator begins another life.
    fn begin_life(&mut self, validator: u16, node: NodeCore<DiskStore>) -> Result<(), Failure> {
        let height = node.height();
        let Some(post) = self.posts.get(usize::from(validator)) else {
            return Ok(());
        };
        if height < post.before.heights {
            return Err(Failure::CameBackBehind {
                validator,
                height,
                before: post.before.heights,
            });
        }
        let shown = post.drift.shown(self.now);
        let engine = self.engine_over(validator, node, shown)?;
        self.seat(validator, engine);
        self.notes.add(Note::Runs { validator, height })?;
        self.run(validator, Deed::Settle)
    }

    /// A node with a new edge, which begins at this time of its clock.
    fn engine_over(
        &self,
        validator: u16,
        node: NodeCore<DiskStore>,
        shown: u64,
    ) -> Result<Box<Engine>, Failure> {
        let plan = Plan::new(self.alloc, self.settings.start, self.settings.delta).map_err(
            |_| Failure::Usage,
        )?;
        let count = self.parties.count();
        let core = PeerCore::new(
            self.alloc,
            validator,
            count,
            self.manner(validator),
            plan,
            shown,
        );
        let engine = Engine {
            alloc: self.alloc,
            node,
            core,
            watch: EarlyWatch::new(self.alloc),
            speech: SpeechWatch::new(self.alloc, validator),
        };
        Ok(Box::new(self.alloc, engine)?)
    }

    /// A validator runs, and nothing of its list is compared yet.
    fn seat(&mut self, validator: u16, engine: Box<Engine>) {
        if let Some(post) = self.posts.get_mut(usize::from(validator)) {
            post.seat = Seat::Up(engine);
            post.progress = Progress::NONE;
            post.wake = None;
        }
    }

    /// How a validator behaves at its edge.
    fn manner(&self, validator: u16) -> Manner {
        Manner {
            keeping: self.settings.keeping,
            idle: self.settings.idle,
            rest: self.settings.rest,
            redial: self.settings.redial,
            turns: Turns::of(self.parties.powers(), validator),
        }
    }

    /// Stops a validator: with its power, or by itself, so that what waits on its links is still sent.
    pub(crate) fn stop(&mut self, validator: u16, by_power: bool) -> Result<(), Failure> {
        let Some(post) = self.posts.get_mut(usize::from(validator)) else {
            return Ok(());
        };
        let end = post.end();
        let Some(node) = take_node(post) else {
            return Ok(());
        };
        post.before = post.progress;
        post.life = post.life.saturating_add(1);
        post.wake = None;
        let store = node.close();
        self.costs.restarts = self.costs.restarts.saturating_add(1);
        self.leave_all(end, by_power)?;
        self.fall(validator, store)
    }

    /// An end leaves all of its links.
    fn leave_all(&mut self, end: End, by_power: bool) -> Result<(), Failure> {
        for id in self.links_at(end)? {
            if by_power {
                self.drop_end(id, end)?;
            } else {
                self.close(id, end)?;
            }
        }
        Ok(())
    }
}
