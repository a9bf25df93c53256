//! A world: validators, what clients send and liars say, and what comes to whom.

ghost use Rattle.std.specs.Prelude.{◌≡◌, ◌≢◌, ◌<◌, ◌+◌, ◌-◌, ◌^◌, ◌∷◌, [], ◌&&◌, ℕ, Bool, List, true, false, length, flat_map, option_map, is_some, Err, IfOk, OnOk, IfErr, IsErrOf, IfSome};
ghost use Rattle.world_parties.specs.Cast.{Cast, setting_of, is_correct, are_parties};
ghost use Rattle.world_schedule.specs.Calls.{node_after};
ghost use Rattle.world_schedule.specs.Health.{has_node};
ghost use Rattle.world_schedule.specs.Reports.{Made, calls_of};
ghost use Rattle.world_schedule.specs.Events.{Course, CannotHappen};
ghost use Rattle.world_schedule.specs.Worlds.{IsUnopened, HasOpened, HasBegun, HasHappened, HaveAll, HaveSome, Rests, scene_of, IsWorld, IsReport, IsStop, ends_in, machine_at};

use crate::event::Event;
use crate::fault::RunFault;
use crate::report::{End, Report, Told};
use crate::stage::Stage;
use powers::Powers;
use round_states::State;
use std::alloc::{AllocError, Global};
use std::mem::replace;
use transactions::Seq;
use world_parties::{FaultNumber, Parties};

/// A world of correct validators, each a node over a store in memory that events may make fail, of liars and of clients.
#[derive(Drop)]
pub struct World {
    pub(crate) stage: Stage,
    /// The number of the present event in its run.
    pub(crate) event: u64,
    /// What was told of the events before, and is to be reported.
    pub(crate) told: Vec<Told>,
    /// Whether memory was refused in the midst of an event.
    pub(crate) spent: bool,
}

impl World {
    /// Opens and settles each correct validator, in order of number. The first run tells of it, as event 0.
    ///
    /// Fault 2, at event 0, where there are no clients or more than 1,024, or a liar is no validator; 5 where memory was
    /// refused.
    pub fn new(
        alloc: Global,
        powers: Powers,
        clients: u16,
        liars: &[u16],
    ) -> Result<World, RunFault>
        ensures opened { IfOk result (λ world. HasOpened powers clients liars.now world) }
        ensures fit { OnOk result (are_parties powers clients liars.now ≡ true) }
        ensures err { IfErr result (λ fault. (fault.event ≡ 0) × (fault.told ≡ []) × IsUnopened (are_parties powers clients liars.now) fault.number) }
    {
        match World::open(alloc, powers, clients, liars) {
            Ok(world) => Ok(world),
            Err(number) => Err(RunFault {
                event: 0,
                number,
                told: Seq::new(alloc),
            }),
        }
    }

    fn open(
        alloc: Global,
        powers: Powers,
        clients: u16,
        liars: &[u16],
    ) -> Result<World, FaultNumber>
        ensures opened { IfOk result (λ world. HasOpened powers clients liars.now world) }
        ensures fit { OnOk result (are_parties powers clients liars.now ≡ true) }
        ensures err { IfErr result (IsUnopened (are_parties powers clients liars.now)) }
    {
        let mut parties = Parties::new(powers, clients, liars)?;
        parties.keep_keys(alloc)?;
        Ok(World::of(alloc, parties, clients)?)
    }

    /// A world of these parties.
    fn of(alloc: Global, parties: Parties, clients: u16) -> Result<World, AllocError>
        requires { parties.clients ≡ clients }
        ensures { IfOk result (λ world. HasBegun parties world) }
    {
        let mut stage = Stage::open(alloc, parties, clients)?;
        let told = replace(&mut stage.chronicle.told, Vec::new(alloc));
        Ok(World {
            stage,
            event: 0,
            told,
            spent: false,
        })
    }

    /// Runs these events in turn. The report tells each call's answer, each decision and each message, in order, and how
    /// the correct validators end.
    ///
    /// An event that can't happen ends the run with its fault; the events before it stand. After fault 5 in the midst of
    /// an event the world is spent: each later run answers 5 at its first event.
    pub fn run(&mut self, events: &[Event]) -> Result<Report, RunFault>
        ensures ok { (cast : Cast) (ms : List Made) (brought : ℕ → ℕ → Bool) → IsWorld cast ms brought self.old → IfOk result (λ report. IsReport cast ms brought events.now self.old self.new report) }
        ensures err { (cast : Cast) (ms : List Made) (brought : ℕ → ℕ → Bool) → IsWorld cast ms brought self.old → IfErr result (λ fault. IsStop cast ms brought events.now self.old self.new fault) }
        ensures spent { self.old.spent ≡ true → (result ≡ Err (record { event = 1; number = FaultNumber.OutOfMemory; told = [] })) × (self.new ≡ self.old) }
    {
        if self.spent {
            return Err(RunFault {
                event: 1,
                number: FaultNumber::OutOfMemory,
                told: Seq::new(self.stage.alloc),
            });
        }
        self.event = 0;
        match self.happen_all(events) {
            Ok(()) => self.report(),
            Err(number) => Err(self.stopped(number)),
        }
    }

    /// The variables of a correct validator, and what it keeps of its height. None where no such validator is correct, or its
    /// last opening failed.
    pub fn state(&self, validator: u64) -> Option<&State>
        ensures seat { option_map (λ state. state.now) result ≡ machine_at validator self.now.stage.validators.each.items }
        ensures known { (cast : Cast) (ms : List Made) (brought : ℕ → ℕ → Bool) → IsWorld cast ms brought self.now → is_some result ≡ (is_correct cast validator && has_node ((scene_of cast ms).health validator)) }
        // It is that of the validator's node in the run of the calls.
        ensures node { (cast : Cast) (ms : List Made) (brought : ℕ → ℕ → Bool) → IsWorld cast ms brought self.now → IfSome result (λ state. state.now.state ≡ (node_after (setting_of cast) validator (calls_of ms)).state) }
    {
        self.stage.validators.state(validator)
    }

    /// Events in turn, from 1 on.
    fn happen_all(&mut self, events: &[Event]) -> Result<(), FaultNumber>
        requires { self.old.event ≡ 0 }
        ensures fits { OnOk result (self.new.event < 2 ^ 63) }
        ensures ok { (cast : Cast) (w : Course) → Rests cast w self.old.stage → OnOk result (HaveAll cast w 0 events.now self.old self.new) }
        ensures err { (cast : Cast) (w : Course) → Rests cast w self.old.stage → IfErr result (λ fault. HaveSome cast w events.now fault self.old self.new) }
        ensures count { OnOk result (self.new.event ≡ length events.now) }
        ensures serves { OnOk result (self.new.spent ≡ self.old.spent) }
    {
        // A slice has fewer than 2^63 elements.
        let _count = events.len();
        for event in events {
            self.event += 1;
            self.step(event)?;
        }
        Ok(())
    }

    /// An event. Where it can't happen, nothing is told of it.
    fn step(&mut self, event: &Event) -> Result<(), FaultNumber>
        ensures ok { (cast : Cast) (w : Course) → Rests cast w self.old.stage → OnOk result (HasHappened cast w self.old.event event.now self.old self.new) }
        ensures serves { OnOk result (self.new.spent ≡ self.old.spent) }
        ensures err { (cast : Cast) (w : Course) → Rests cast w self.old.stage → IfErr result (λ fault. fault ≢ FaultNumber.OutOfMemory → Rests cast w self.new.stage) }
        ensures spends { IfErr result (λ fault. fault ≢ FaultNumber.OutOfMemory → self.new.spent ≡ false) }
        ensures starves { IsErrOf result FaultNumber.OutOfMemory → self.new.spent ≡ true }
        ensures stays { IfErr result (λ fault. self.new.told.items ≡ self.old.told.items) }
        ensures cause { (cast : Cast) (w : Course) → Rests cast w self.old.stage → IfErr result (λ fault. CannotHappen fault cast w.scene.standing event.now) }
        ensures event { self.new.event ≡ self.old.event }
    {
        self.stage.chronicle.event = self.event;
        match self.tell(event) {
            Ok(()) => Ok(()),
            Err(number) => {
                self.stage.chronicle.told.clear();
                self.spent = matches!(number, FaultNumber::OutOfMemory);
                Err(number)
            }
        }
    }

    /// An event, told after those before.
    fn tell(&mut self, event: &Event) -> Result<(), FaultNumber>
        ensures ok { (cast : Cast) (w : Course) → Rests cast w self.old.stage → OnOk result (HasHappened cast w self.old.stage.chronicle.event event.now self.old self.new) }
        ensures err { IfErr result (λ fault. fault ≢ FaultNumber.OutOfMemory → self.new.stage ≡ self.old.stage) }
        ensures stays { IfErr result (λ fault. self.new.told.items ≡ self.old.told.items) }
        ensures cause { (cast : Cast) (w : Course) → Rests cast w self.old.stage → IfErr result (λ fault. CannotHappen fault cast w.scene.standing event.now) }
        ensures beside { (self.new.event ≡ self.old.event) × (self.new.spent ≡ self.old.spent) }
    {
        self.stage.happen(event)?;
        Ok(self.told.append(&mut self.stage.chronicle.told)?)
    }

    /// The report, after so many events as there were.
    fn report(&mut self) -> Result<Report, RunFault>
        requires { self.old.event < 2 ^ 64 - 1 }
        ensures ok { IfOk result (λ report. (report.told ≡ self.old.told.items) × (report.ends ≡ flat_map ends_in self.old.stage.validators.each.items)) }
        ensures err { IfErr result (λ fault. fault ≡ record { event = self.old.event + 1; number = FaultNumber.OutOfMemory; told = self.old.told.items }) }
        ensures untold { self.new.told.items ≡ [] }
        ensures rest { self.new ≡ record self.old { told = self.new.told; event = self.new.event } }
    {
        match self.ends() {
            Ok(ends) => Ok(Report {
                told: self.take_told(),
                ends,
            }),
            Err(AllocError) => {
                self.event += 1;
                Err(self.stopped(FaultNumber::OutOfMemory))
            }
        }
    }

    /// How the correct validators end.
    fn ends(&self) -> Result<Seq<End>, AllocError>
        ensures { IfOk result (λ ends. ends ≡ flat_map ends_in self.now.stage.validators.each.items) }
    {
        Ok(Seq::from_vec(self.stage.validators.ends(self.stage.alloc)?))
    }

    fn stopped(&mut self, number: FaultNumber) -> RunFault
        ensures fault { result ≡ record { event = self.old.event; number = number; told = self.old.told.items } }
        ensures untold { self.new.told.items ≡ [] }
        ensures rest { self.new ≡ record self.old { told = self.new.told } }
    {
        RunFault {
            event: self.event,
            number,
            told: self.take_told(),
        }
    }

    /// Takes what was told.
    fn take_told(&mut self) -> Seq<Told>
        ensures taken { result ≡ self.old.told.items }
        ensures untold { self.new.told.items ≡ [] }
        ensures rest { self.new ≡ record self.old { told = self.new.told } }
    {
        Seq::from_vec(replace(&mut self.told, Vec::new(self.stage.alloc)))
    }
}
