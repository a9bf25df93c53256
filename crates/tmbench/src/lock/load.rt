//! What is done to a node, and how long it takes.

ghost use Rattle.std.specs.Prelude.{◌≡◌};
ghost use Rattle.status_words.specs.Seen.{opened as opened_at};
ghost use Rattle.status_words.specs.Ends.{opened_table, opened_words};
ghost use Rattle.protocol.specs.State.{Node as ProtocolNode};
ghost use Rattle.node_core.specs.Core.{Stands};
ghost use Rattle.locked_node.specs.Locked.{count_of};

use crate::fault::BenchFault;
use crate::lock::frames::CLIENTS;
use crate::node::{new_core, ring};
use authenticators::KeyRing;
use locked_node::{LockedNode, words_for};
use node_core::NodeCore;
use status_words::{Node, Opened};
use std::alloc::Global;
use std::marker::Brand;
use std::rt::Clock;
use std::sync::Wait;
use std::thread;
use std::thread::Threads;
use std::time::{Duration, Instant};
use vote_journal::MemoryStore;

/// How often a reader reads the status.
pub(crate) const READS: u64 = 100_000;

/// Frames that are handed to a new node, and reads of its status beside them.
#[derive(Clone, Copy)]
pub(crate) struct Load<'a> {
    pub(crate) alloc: Global,
    pub(crate) frames: &'a [Vec<u8>],
    /// How many frames a hander hands in.
    pub(crate) share: usize,
    /// How many threads hand frames in.
    pub(crate) handers: usize,
    /// How many threads read the status.
    pub(crate) readers: usize,
}

impl<'a> Load<'a> {
    /// How long it takes a core alone to take all frames in.
    pub(crate) fn alone(&self, rt: &impl Clock) -> Result<Duration, BenchFault> {
        let mut core = new_core(self.alloc, CLIENTS)?;
        self.on_core(rt, &mut core)
    }

    /// How long it takes this core to take all frames in.
    fn on_core(
        &self,
        rt: &impl Clock,
        core: &mut NodeCore<MemoryStore>,
    ) -> Result<Duration, BenchFault> {
        let start = Instant::now(rt)?;
        for frame in self.frames {
            core.handle(frame)?;
        }
        Ok(start.elapsed(rt)?)
    }

    /// How long the threads take together on a node that they share; where there are readers, how long the first takes.
    pub(crate) fn shared<R: Clock + Threads + Wait + Sync>(
        &self,
        rt: &R,
    ) -> Result<Duration, BenchFault> {
        let core = new_core(self.alloc, CLIENTS)?;
        let opened = words_for(self.alloc, &core)?;
        let keys = ring(self.alloc, CLIENTS)?;
        self.named::<Brand, _>(rt, opened, core, keys)
    }

    fn named<J: Node + Send + Sync, R: Clock + Threads + Wait + Sync>(
        &self,
        rt: &R,
        opened: Opened,
        core: NodeCore<MemoryStore>,
        keys: KeyRing,
    ) -> Result<Duration, BenchFault>
        requires named { opened_table opened ≡ J.table }
        requires words { opened_words opened ≡ opened_at core.machine.state.height (count_of core) }
        requires stands { (n : ProtocolNode) × Stands n core }
    {
        let node = LockedNode::<MemoryStore, J>::new(self.alloc, opened, core, keys);
        self.on_node(rt, &node)
    }

    fn on_node<J: Node + Send + Sync, R: Clock + Threads + Wait + Sync>(
        &self,
        rt: &R,
        node: &LockedNode<MemoryStore, J>,
    ) -> Result<Duration, BenchFault> {
        let threads = self.readers.saturating_add(self.handers);
        let start = Instant::now(rt)?;
        let took = thread::map_indices(
            rt,
            self.alloc,
            threads,
            &|place: usize| self.part(rt, node, place),
        )?;
        let together = start.elapsed(rt)?;
        if took.contains(&None) {
            return Err(BenchFault::RefusedInThread);
        }
        match took.first() {
            Some(Some(reading)) if self.readers > 0 => Ok(*reading),
            _ => Ok(together),
        }
    }

    /// What the thread of this place does, readers first, and how long it takes. None, where a frame is refused.
    fn part<J: Node, R: Clock + Wait>(
        &self,
        rt: &R,
        node: &LockedNode<MemoryStore, J>,
        place: usize,
    ) -> Option<Duration> {
        let start = Instant::now(rt).ok()?;
        match place.checked_sub(self.readers) {
            Some(hander) => hand_in(rt, node, self.frames_of(hander))?,
            None => read(rt, node),
        }
        start.elapsed(rt).ok()
    }

    /// The frames of this hander.
    fn frames_of(&self, hander: usize) -> &'a [Vec<u8>] {
        let from = hander.saturating_mul(self.share);
        let to = from.saturating_add(self.share).min(self.frames.len());
        self.frames.get(from..to).unwrap_or(&[])
    }
}

/// Hands frames in with a seat of its own. None, where one is refused.
fn hand_in<J: Node, R: Wait>(
    rt: &R,
    node: &LockedNode<MemoryStore, J>,
    frames: &[Vec<u8>],
) -> Option<()> {
    let mut seat = node.seat(rt);
    for frame in frames {
        node.handle(rt, &mut seat, frame).answer().ok()?;
    }
    Some(())
}

/// Reads the status with a seat of its own.
fn read<J: Node, R: Wait>(rt: &R, node: &LockedNode<MemoryStore, J>) {
    let mut seat = node.seat(rt);
    for _ in 0..READS {
        node.status(&mut seat);
    }
}
