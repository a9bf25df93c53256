//! Meters that threads share.

ghost use Rattle.std.specs.Prelude.{◌≡◌, ◌+◌};
ghost use Rattle.protocol.specs.Answers.{numbers_of};
ghost use Rattle.node_meters.specs.Steps.{step_of};

use crate::sample::{Links, Refused, Sample, Syncs, Traffic};
use protocol::{Refusal, Step};
use std::array;
use std::sync::atomic::{AtomicU64, Ordering};

/// How many refusals there are: they have the numbers 1 to 17.
pub const MOST_REFUSALS: usize = 17;

/// One word that counts, or has the value that was set last.
#[derive(Drop)]
struct Meter(AtomicU64);

impl Meter {
    fn new() -> Meter {
        Meter(AtomicU64::new(0))
    }

    /// Counts so many more.
    fn add(&self, more: u64) {
        self.0.fetch_add(more, Ordering::Relaxed);
    }

    fn set(&self, value: u64) {
        self.0.store(value, Ordering::Relaxed);
    }

    fn get(&self) -> u64 {
        self.0.load(Ordering::Relaxed)
    }
}

/// What the threads around a node count since it was started, and what they saw last.
#[derive(Drop)]
pub struct Meters {
    frames_received: Meter,
    bytes_received: Meter,
    frames_sent: Meter,
    bytes_sent: Meter,
    frames_dropped: Meter,
    timeouts: Meter,
    refusals: [Meter; MOST_REFUSALS],
    syncs: Meter,
    sync_nanoseconds: Meter,
    decided: Meter,
    round: Meter,
    step: Meter,
    queued: Meter,
    kept: Meter,
    validators: Meter,
    clients: Meter,
    strangers: Meter,
}

impl Meters {
    /// Nothing was counted, and the node is in the first step of round 0.
    pub fn new() -> Meters {
        Meters {
            frames_received: Meter::new(),
            bytes_received: Meter::new(),
            frames_sent: Meter::new(),
            bytes_sent: Meter::new(),
            frames_dropped: Meter::new(),
            timeouts: Meter::new(),
            refusals: array::from_fn(|_| Meter::new()),
            syncs: Meter::new(),
            sync_nanoseconds: Meter::new(),
            decided: Meter::new(),
            round: Meter::new(),
            step: Meter::new(),
            queued: Meter::new(),
            kept: Meter::new(),
            validators: Meter::new(),
            clients: Meter::new(),
            strangers: Meter::new(),
        }
    }

    /// Counts bytes that came on a link.
    pub fn received_bytes(&self, count: usize) {
        self.bytes_received.add(count as u64);
    }

    /// Counts a whole frame that came on a link.
    pub fn received_frame(&self) {
        self.frames_received.add(1);
    }

    /// Counts bytes that a link took.
    pub fn sent_bytes(&self, count: usize) {
        self.bytes_sent.add(count as u64);
    }

    /// Counts a frame that was taken from a link's queue to be written.
    pub fn sent_frame(&self) {
        self.frames_sent.add(1);
    }

    /// Counts frames that wait behind another one in a link's queue, to be written with it.
    pub fn sent_beside(&self, count: u64) {
        self.frames_sent.add(count);
    }

    /// Notes how many frames had no room in a link's queue, of all so far.
    pub fn set_dropped(&self, count: u64) {
        self.frames_dropped.set(count);
    }

    /// Counts a timeout that the node took.
    pub fn fired_timeout(&self) {
        self.timeouts.add(1);
    }

    /// Counts a call of the node that was refused.
    pub fn refused(&self, refusal: Refusal) {
        if let Some(meter) = self.refusals.get(place_of(refusal)) {
            meter.add(1);
        }
    }

    /// Counts a sync of the journal, and how long it took.
    pub fn synced(&self, nanoseconds: u64) {
        self.syncs.add(1);
        self.sync_nanoseconds.add(nanoseconds);
    }

    /// Notes when the node moved to its height.
    pub fn decided(&self, now: u64) {
        self.decided.set(now);
    }

    /// Notes where in its height the node is.
    pub fn set_step(&self, round: u32, step: Step) {
        self.round.set(u64::from(round));
        self.step.set(number_of(step));
    }

    /// Notes how many transactions wait to be proposed.
    pub fn set_queued(&self, count: u64) {
        self.queued.set(count);
    }

    /// Notes how many frames are kept.
    pub fn set_kept(&self, count: u64) {
        self.kept.set(count);
    }

    /// Notes how many links there are.
    pub fn set_links(&self, links: Links) {
        self.validators.set(links.validators);
        self.clients.set(links.clients);
        self.strangers.set(links.strangers);
    }

    /// Returns what the meters show now.
    pub fn sample(&self) -> Sample {
        Sample {
            round: u32::try_from(self.round.get()).unwrap_or(u32::MAX),
            step: step_of(self.step.get()),
            queued: self.queued.get(),
            kept: self.kept.get(),
            links: self.links(),
            traffic: self.traffic(),
            syncs: Syncs {
                count: self.syncs.get(),
                nanoseconds: self.sync_nanoseconds.get(),
            },
            timeouts: self.timeouts.get(),
            refusals: array::from_fn(|place| Refused {
                number: place.saturating_add(1),
                count: self.refusals.get(place).map_or(0, Meter::get),
            }),
            decided: self.decided.get(),
        }
    }

    fn links(&self) -> Links {
        Links {
            validators: self.validators.get(),
            clients: self.clients.get(),
            strangers: self.strangers.get(),
        }
    }

    fn traffic(&self) -> Traffic {
        Traffic {
            frames_received: self.frames_received.get(),
            bytes_received: self.bytes_received.get(),
            frames_sent: self.frames_sent.get(),
            bytes_sent: self.bytes_sent.get(),
            frames_dropped: self.frames_dropped.get(),
        }
    }
}

/// Returns the number that a step is kept as.
fn number_of(step: Step) -> u64
    ensures { step_of result ≡ step }
{
    match step {
        Step::Propose => 0,
        Step::Prevote => 1,
        Step::Precommit => 2,
    }
}

/// Returns the step that is kept as a number.
fn step_of(number: u64) -> Step
    ensures { result ≡ step_of number }
{
    match number {
        0 => Step::Propose,
        1 => Step::Prevote,
        _ => Step::Precommit,
    }
}

/// Returns the place of a refusal's meter: one below its number.
fn place_of(refusal: Refusal) -> usize
    ensures { result + 1 ≡ (numbers_of refusal).0 }
{
    usize::from(refusal.number() - 1)
}
