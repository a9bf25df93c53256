//! What is measured, turn by turn.

use crate::fault::BenchFault;
use crate::frames::kinds::CLIENTS;
use crate::framing::{Frame, KEY};
use crate::node::new_core;
use authenticators::Key;
use node_core::NodeCore;
use sha2::{Digest, Sha256};
use std::alloc::Global;
use std::rt::Clock;
use std::time::{Duration, Instant};
use vote_journal::MemoryStore;

/// The frames that come in each turn, and the number of turns.
#[derive(Drop)]
pub(crate) struct Turns {
    pub(crate) alloc: Global,
    pub(crate) frames: Vec<Frame>,
    pub(crate) count: u32,
}

impl Turns {
    /// The line of figures.
    pub(crate) fn figures(&self, rt: &impl Clock) -> Result<String, BenchFault> {
        let handling = self.handling(rt)?;
        let hashing = self.hashing(rt)?;
        let frames = u64::from(self.count).saturating_mul(self.frames.len() as u64);
        let each = nanoseconds_each(handling, frames);
        let hashed = nanoseconds_each(hashing, frames);
        let alloc = self.alloc;
        Ok(format!(in alloc; "{frames} frames, {each} ns each, of which hashing {hashed} ns\n")?)
    }

    /// How long it takes to hand the frames in.
    fn handling(&self, rt: &impl Clock) -> Result<Duration, BenchFault> {
        let mut took = Duration::ZERO;
        for _ in 0..self.count {
            took = took.saturating_add(self.timed_turn(rt)?);
        }
        Ok(took)
    }

    /// How long it takes a new node to take the frames of a turn in.
    fn timed_turn(&self, rt: &impl Clock) -> Result<Duration, BenchFault> {
        let mut node = new_core(self.alloc, CLIENTS)?;
        self.time_on(rt, &mut node)
    }

    /// How long it takes this node to take the frames of a turn in.
    fn time_on(
        &self,
        rt: &impl Clock,
        node: &mut NodeCore<MemoryStore>,
    ) -> Result<Duration, BenchFault> {
        let start = Instant::now(rt)?;
        self.turn(node)?;
        Ok(start.elapsed(rt)?)
    }

    /// Hands the frames of a turn in.
    fn turn(&self, node: &mut NodeCore<MemoryStore>) -> Result<(), BenchFault> {
        node.settle()?;
        for frame in &self.frames {
            node.handle(&frame.bytes)?;
        }
        Ok(())
    }

    /// How long it takes to hash what has to be hashed.
    fn hashing(&self, rt: &impl Clock) -> Result<Duration, BenchFault> {
        let key = Key::new(KEY);
        let start = Instant::now(rt)?;
        let mut seen = 0u8;
        for _ in 0..self.count {
            seen ^= self.hashed(&key);
        }
        let took = start.elapsed(rt)?;
        // The digests are looked at, so that they are made.
        if seen == 0 && took.is_zero() {
            return Err(BenchFault::NoTime);
        }
        Ok(took)
    }

    /// A byte of all that is hashed for the frames of a turn, whose tags are under the key.
    fn hashed(&self, key: &Key) -> u8 {
        let mut seen = 0u8;
        for frame in &self.frames {
            seen ^= hashed(frame, key);
        }
        seen
    }
}

/// The nanoseconds for each of so many frames.
fn nanoseconds_each(took: Duration, frames: u64) -> u128 {
    took.as_nanos()
        .checked_div(u128::from(frames))
        .unwrap_or_default()
}

/// A byte of all that is hashed for a frame, whose tags are under the key.
fn hashed(frame: &Frame, key: &Key) -> u8 {
    let mut seen = 0u8;
    for text in &frame.tagged {
        seen ^= key.tag(text)[0];
    }
    if !frame.digested.is_empty() {
        seen ^= Sha256::digest(&frame.digested)[0];
    }
    seen
}
