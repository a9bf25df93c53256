//! A world of validators, clients and links, and its virtual time.

use cluster_actors::{Client, Deed, Liar, Outbox, Post, Seat};
use cluster_checks::{
    Costs, Event, Failed, Failure, Judge, Note, Notes, Partition, Progress, Settings, TROUBLES,
    Trouble, TxName, Witness, small,
};
use cluster_parts::{Agenda, Chance, DiskStore, Drift, Drive, Moment, Wire};
use edge_frames::LinkId;
use peer_links::Way;
use powers::Powers;
use std::alloc::Global;
use std::collections::{BTreeMap, VecDeque};
use world_parties::Parties;

/// How long after faults cease each accepted transaction may take to be delivered everywhere, in milliseconds.
pub const BOUND_MS: u64 = 120_000;

/// How long a transaction that is accepted in calm may take to be delivered everywhere without being late, in milliseconds.
pub(crate) const LATE_MS: u64 = 10_000;

/// A transaction that a correct validator accepted.
#[derive(Clone, Copy)]
pub(crate) struct Accepted {
    pub(crate) at: u64,
    pub(crate) by: u16,
    /// In which of its lives it did: it keeps no transaction over a stop.
    pub(crate) life: u32,
    pub(crate) name: TxName,
}

/// All that is simulated.
#[derive(Drop)]
pub struct World {
    pub(crate) alloc: Global,
    pub(crate) settings: Settings,
    pub(crate) chance: Chance,
    pub(crate) agenda: Agenda<Event>,
    /// The virtual time, in milliseconds.
    pub(crate) now: u64,
    pub(crate) parties: Parties,
    pub(crate) posts: Vec<Post>,
    pub(crate) liars: Vec<Liar>,
    pub(crate) clients: Vec<Client>,
    pub(crate) wires: BTreeMap<u32, Wire>,
    pub(crate) next_wire: u32,
    pub(crate) partitions: Vec<Partition>,
    pub(crate) judge: Judge,
    pub(crate) accepted: VecDeque<Accepted>,
    /// What was accepted in calm, and wasn't looked at whether it is late.
    pub(crate) fresh: VecDeque<Accepted>,
    /// The highest height at the last look.
    pub(crate) highest: u64,
    /// When a validator was last seen to be bound by a lock from before its restart, or a height to go on round by round.
    pub(crate) bound_at: u64,
    /// The highest height and round at the last look, and when it saw others for the first time.
    pub(crate) last_place: (u64, u32),
    pub(crate) moved_at: u64,
    pub(crate) costs: Costs,
    pub(crate) notes: Notes,
}

impl World {
    /// The world of these settings, before anything happens.
    pub fn new(alloc: Global, settings: Settings) -> Result<World, Failure> {
        let powers = Powers::new(settings.powers.to_vec(alloc)?).map_err(|_| Failure::Usage)?;
        let lies = settings.troubles.has(Trouble::Clients)
            || settings.troubles.has(Trouble::Poison);
        let lying = u16::from(lies);
        let all = settings.clients.saturating_add(lying);
        let parties = Parties::new(powers, all.max(1), &settings.liars)?;
        let mut chance = Chance::new(settings.seed.wrapping_add(1));
        let posts = posts_of(alloc, &settings, &mut chance)?;
        let liars = liars_of(alloc, &settings)?;
        let clients = clients_of(alloc, &settings, all, &parties)?;
        let judge = Judge::new(alloc, settings.clients, all)?;
        let mut world = World {
            alloc,
            settings,
            chance,
            agenda: Agenda::new(alloc),
            now: 0,
            parties,
            posts,
            liars,
            clients,
            wires: BTreeMap::new(alloc),
            next_wire: 0,
            partitions: Vec::new(alloc),
            judge,
            accepted: VecDeque::new(alloc),
            fresh: VecDeque::new(alloc),
            highest: 0,
            bound_at: 0,
            last_place: (0, 0),
            moved_at: 0,
            costs: Costs::NONE,
            notes: Notes::new(alloc),
        };
        world.plan()?;
        Ok(world)
    }

    /// Puts what begins all on the agenda.
    fn plan(&mut self) -> Result<(), Failure> {
        self.plan_starts()?;
        self.plan_turns()?;
        self.plan_lies()?;
        self.plan_strikes()?;
        self.agenda.add(self.settings.calm, Event::Calm)?;
        self.agenda.add(self.settings.calm, Event::Look)?;
        Ok(())
    }

    /// Each validator starts in the first two seconds.
    fn plan_starts(&mut self) -> Result<(), Failure> {
        for validator in 0..self.parties.count() {
            let at = self.chance.below(2_000);
            self.agenda.add(at, Event::Start(validator))?;
        }
        Ok(())
    }

    /// Each client's first turn comes within its pause.
    fn plan_turns(&mut self) -> Result<(), Failure> {
        for client in 0..small(self.clients.len() as u64) {
            let at = self.chance.between(500, self.settings.pause);
            self.agenda.add(at, Event::Turn(client))?;
        }
        Ok(())
    }

    /// Each liar's first turn comes after a second.
    fn plan_lies(&mut self) -> Result<(), Failure> {
        for liar in self.settings.liars.iter() {
            self.agenda.add(1_000, Event::Lie(*liar))?;
        }
        Ok(())
    }

    /// Each kind of faults comes first within a minute.
    fn plan_strikes(&mut self) -> Result<(), Failure> {
        for trouble in TROUBLES {
            if self.settings.troubles.has(trouble) {
                let at = self.chance.between(2_000, 60_000);
                self.agenda.add(at, Event::Strike(trouble))?;
            }
        }
        Ok(())
    }

    /// What it cost until now.
    pub fn costs(&self) -> Costs {
        let mut costs = self.costs;
        costs.delivered = self.judge.length();
        costs.at = self.now;
        costs.links = u64::from(self.next_wire);
        costs
    }

    /// What the run is like.
    pub fn settings(&self) -> &Settings {
        &self.settings
    }

    /// The lines of the last event.
    pub fn notes(&self) -> &Notes {
        &self.notes
    }

    /// Gives a validator a disk that breaks its promise: at each stop it loses half of its synced bytes. For tests of what is found.
    pub fn plant_forgetful_disk(&mut self, validator: u16) {
        if let Some(post) = self.post(validator) {
            post.is_forgetful = true;
        }
    }

    /// Lets the next event happen: none where the run is over.
    pub fn step(&mut self) -> Result<Option<Event>, Failed> {
        let Some((moment, event)) = self.agenda.next() else {
            return Ok(None);
        };
        if moment.at > self.settings.span {
            return Ok(None);
        }
        self.now = moment.at;
        self.costs.events = self.costs.events.saturating_add(1);
        match self.happen(moment, event) {
            Ok(()) => Ok(Some(event)),
            Err(failure) => Err(Failed {
                failure,
                event: self.costs.events,
                at: moment.at,
            }),
        }
    }

    fn happen(&mut self, moment: Moment, event: Event) -> Result<(), Failure> {
        self.notes.add(Note::Begins(moment, event))?;
        match event {
            Event::Start(validator) => self.start(validator),
            Event::Stop(validator) => self.stop(validator, true),
            Event::Wake { validator, life } => self.wake(validator, life),
            Event::Dial { from, life, to } => self.finish_dial(from, life, to),
            Event::Write { wire, side } => self.write(wire, side),
            Event::Arrive { wire, side } => self.arrive(wire, side),
            Event::Ends { wire, side } => self.end_at(wire, side),
            Event::Turn(client) => self.turn(client),
            Event::Lie(liar) => self.lie(liar),
            Event::Strike(trouble) => self.strike(trouble),
            Event::Heal => {
                self.heal();
                Ok(())
            }
            Event::Calm => self.calm(),
            Event::Look => self.look(),
        }
    }

    /// The validator of this number.
    pub(crate) fn post(&mut self, validator: u16) -> Option<&mut Post> {
        self.posts.get_mut(usize::from(validator))
    }

    /// Lets a validator that runs do something, and then all that its edge says.
    pub(crate) fn run(&mut self, validator: u16, deed: Deed) -> Result<(), Failure> {
        let now = self.now;
        let heard = deed.heard();
        let mut out = Outbox::new(self.alloc);
        let Some(post) = self.post(validator) else {
            return Ok(());
        };
        let shown = post.drift.shown(now);
        let Some(engine) = post.engine() else {
            return Ok(());
        };
        if !engine.run(deed, shown, &mut out)? {
            return Err(Failure::EndlessDuties { validator });
        }
        if let Some(link) = out.astray(heard) {
            return Err(Failure::ReplyAstray {
                validator,
                link: link.0,
            });
        }
        self.conclude(validator, out)
    }

    /// Tells a validator of a link: whether it takes it.
    pub(crate) fn tell_opened(&mut self, validator: u16, link: LinkId, way: Way) -> bool {
        let now = self.now;
        let Some(post) = self.post(validator) else {
            return false;
        };
        let shown = post.drift.shown(now);
        match post.engine() {
            Some(engine) => engine.open(link, way, shown).is_ok(),
            None => false,
        }
    }

    /// The time has come for which a validator's edge waits.
    fn wake(&mut self, validator: u16, life: u32) -> Result<(), Failure> {
        let now = self.now;
        let Some(post) = self.post(validator) else {
            return Ok(());
        };
        if post.life != life || post.wake != Some(now) {
            return Ok(());
        }
        post.wake = None;
        self.run(validator, Deed::Wake)
    }
}

/// The validators, before any of them was started.
fn posts_of(alloc: Global, settings: &Settings, chance: &mut Chance) -> Result<Vec<Post>, Failure> {
    let count = small(settings.powers.len() as u64);
    let mut posts = Vec::new(alloc);
    for number in 0..count {
        let drift = drift_of(settings, chance);
        let drive = Drive::new(alloc)?;
        let store = DiskStore::new(Vec::new(alloc), 0, drive.clone()?);
        posts.push(Post {
            number,
            is_liar: settings.liars.contains(&number),
            is_forgetful: false,
            drift,
            drive,
            seat: Seat::Down(store),
            life: 0,
            wake: None,
            witness: Witness::new(alloc, number, count),
            progress: Progress::NONE,
            before: Progress::NONE,
        })?;
    }
    Ok(posts)
}

/// How a validator's clock runs.
fn drift_of(settings: &Settings, chance: &mut Chance) -> Drift {
    let offset = chance.below(1_000_000);
    let rate = chance.between(900, 1_100);
    if settings.troubles.has(Trouble::Drift) {
        Drift { offset, rate }
    } else {
        Drift::NONE
    }
}

fn liars_of(alloc: Global, settings: &Settings) -> Result<Vec<Liar>, Failure> {
    let mut liars = Vec::new(alloc);
    for number in settings.liars.iter() {
        let seed = settings
            .seed
            .wrapping_mul(131)
            .wrapping_add(u64::from(*number));
        liars.push(Liar::new(alloc, *number, seed))?;
    }
    Ok(liars)
}

fn clients_of(
    alloc: Global,
    settings: &Settings,
    all: u16,
    parties: &Parties,
) -> Result<Vec<Client>, Failure> {
    let mut clients = Vec::new(alloc);
    for number in 0..all {
        let seed = settings
            .seed
            .wrapping_mul(257)
            .wrapping_add(u64::from(number));
        clients.push(Client::new(
            alloc,
            number,
            number < settings.clients,
            parties.count(),
            seed,
        )?)?;
    }
    Ok(clients)
}
