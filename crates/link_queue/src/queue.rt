//! The queue of a link, as threads share it.

ghost use Rattle.std.specs.Prelude.{◌≡◌, ◌≤◌, true, IfOk, IfErr};
ghost use Rattle.link_queue.specs.Answers.{given_back, is_end};

use crate::waiting::{Dropped, Queued, Sent, Untaken, Waiting};
use bytes::Bytes;
use crossbeam_utils::CachePadded;
use std::alloc::{AllocError, Global};
use std::sync::{Condvar, Mutex, Wait};
use std::time::{Clock, Duration};

/// What threads share of a queue.
#[derive(Drop)]
struct Shared<S: Sent> {
    waiting: Mutex<Waiting<S>>,
    moved: Condvar,
}

/// The queue of one link. It stands in cache lines of its own, so that the threads at two links
/// don't slow each other.
#[derive(Drop)]
pub struct LinkQueue<S: Sent> {
    shared: CachePadded<Shared<S>>,
}

impl<S: Sent> LinkQueue<S> {
    /// An empty queue, with room for 1,024 frames of 16 MiB.
    pub fn new(alloc: Global) -> Result<LinkQueue<S>, AllocError> {
        let shared = Shared {
            waiting: Mutex::new(Waiting::new(alloc)?),
            moved: Condvar::new(),
        };
        Ok(LinkQueue {
            shared: CachePadded::new(shared),
        })
    }

    /// Offers a frame, which is dropped where the queue is closed or full. It takes no memory and
    /// waits for the queue's lock alone.
    pub fn offer<R: Wait>(&self, rt: &R, frame: Bytes) -> Result<Queued, Dropped>
        requires sent { S.sent frame }
        ensures back { IfErr result (λ d. given_back d ≡ frame) }
    {
        let queued = self.shared.waiting.lock(rt).offer(frame)?;
        self.shared.moved.notify_one();
        Ok(queued)
    }

    /// Waits for the next frame, or for the queue's end.
    pub fn take<R: Wait>(&self, rt: &R) -> Result<Bytes, Untaken>
        ensures sent { IfOk result S.sent }
        ensures end { IfErr result (λ u. is_end u ≡ true) }
    {
        let shared = &self.shared;
        let mut ready = shared
            .moved
            .wait_while(rt, shared.waiting.lock(rt), |w| w.is_idle());
        ready.take()
    }

    /// Waits for the next frame, for the queue's end, or until the time is over.
    pub fn take_within<R: Wait + Clock>(&self, rt: &R, limit: Duration) -> Result<Bytes, Untaken>
        ensures sent { IfOk result S.sent }
    {
        let shared = &self.shared;
        let mut waiting = shared
            .moved
            .wait_timeout_while(rt, shared.waiting.lock(rt), limit, |w| w.is_idle())
            .0;
        waiting.take()
    }

    /// Takes the next frame, where one waits already: for who writes several at once. It waits for the queue's lock alone.
    pub fn try_take<R: Wait>(&self, rt: &R) -> Result<Bytes, Untaken>
        ensures sent { IfOk result S.sent }
    {
        self.shared.waiting.lock(rt).take()
    }

    /// How many frames wait now. It waits for the queue's lock alone.
    pub fn waiting<R: Wait>(&self, rt: &R) -> usize
        ensures { result ≤ 1024 }
    {
        self.shared.waiting.lock(rt).count()
    }

    /// Takes nothing in from now on. What waits can still be taken, and whoever waits is told.
    pub fn close<R: Wait>(&self, rt: &R) {
        self.shared.waiting.lock(rt).close();
        self.shared.moved.notify_all();
    }
}
