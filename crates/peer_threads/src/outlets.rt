//! The queues of the links that have a thread.

use crate::patience::Standing;
use bytes::Bytes;
use edge_frames::{LinkId, MOST_LINKS};
use link_queue::{Anything, Cause, LinkQueue};
use peer_core::{OpenFault, Rank, Sending};
use std::alloc::{AllocError, Global};
use std::sync::{Arc, Wait};

/// How many links a node has at most, those among them that are closing.
///
/// A link has two threads and two file descriptors. All of them have 768 descriptors, and peers that are dialed and not yet linked
/// one each, 127 at most: 895 of the 1,024 that a process may usually open.
pub const MOST_OPEN_LINKS: usize = MOST_LINKS;

/// From how many links on one that is closed is cut at once.
const CROWD: usize = MOST_OPEN_LINKS - 64;

/// How many frames wait on a link at most for one more that repairs what may be lost.
const MOST_BEFORE_REPAIR: usize = 16;

/// How many threads a link has: one reads and one writes.
const HALVES: u8 = 2;

pub(crate) type Queue = Arc<LinkQueue<Anything>>;

/// A link that was opened: its number, and its queue for the thread that writes.
#[derive(Drop)]
pub(crate) struct OpenLink {
    pub(crate) link: LinkId,
    pub(crate) queue: Queue,
}

/// What is sent to one link.
#[derive(Drop)]
struct Outlet {
    link: LinkId,
    queue: Queue,
    is_open: bool,
    /// How many of its threads run.
    halves: u8,
}

/// The links that have a thread, at most 384, in order of their numbers.
#[derive(Drop)]
pub(crate) struct Outlets {
    alloc: Global,
    outlets: Vec<Outlet>,
    /// How many links there were.
    count: u32,
}

/// A queue that two threads share.
fn new_queue(alloc: Global) -> Result<Queue, AllocError> {
    Arc::new(alloc, LinkQueue::new(alloc)?).map_err(|_| AllocError)
}

impl Outlets {
    pub(crate) fn new(alloc: Global) -> Outlets {
        Outlets {
            alloc,
            outlets: Vec::new(alloc),
            count: 0,
        }
    }

    /// Opens a link of two threads, whose number no link had before.
    pub(crate) fn open(&mut self) -> Result<OpenLink, OpenFault> {
        if self.outlets.len() >= MOST_OPEN_LINKS || self.count == u32::MAX {
            return Err(OpenFault::TooMany);
        }
        let link = LinkId(self.count);
        let queue = new_queue(self.alloc).map_err(|_| OpenFault::OutOfMemory)?;
        let shared = Arc::try_clone(&queue).map_err(|_| OpenFault::OutOfMemory)?;
        self.outlets.push(Outlet {
            link,
            queue,
            is_open: true,
            halves: HALVES,
        })?;
        self.count += 1;
        Ok(OpenLink {
            link,
            queue: shared,
        })
    }

    /// The outlet of a link, if it has a thread.
    fn outlet(&self, link: LinkId) -> Option<&Outlet> {
        let place = self
            .outlets
            .partition_point(|outlet| outlet.link.0 < link.0);
        let found = self.outlets.get(place)?;
        if found.link == link {
            Some(found)
        } else {
            None
        }
    }

    /// Returns whether the link is still to be read.
    pub(crate) fn is_open(&self, link: LinkId) -> bool {
        self.outlet(link).is_some_and(|outlet| outlet.is_open)
    }

    /// Returns how the link stands, as long as not all ends.
    pub(crate) fn standing(&self, link: LinkId) -> Standing {
        if self.is_open(link) {
            Standing::Open
        } else if self.outlets.len() < CROWD {
            Standing::Closed
        } else {
            Standing::Crowded
        }
    }

    /// Closes a link's queue, and returns whether it was open: what waits there is still sent.
    pub(crate) fn close<R: Wait>(&mut self, rt: &R, link: LinkId) -> bool {
        let mut was_open = false;
        for outlet in self.outlets.iter_mut() {
            if outlet.link == link {
                was_open = outlet.is_open;
                outlet.is_open = false;
                outlet.queue.close(rt);
            }
        }
        was_open
    }

    pub(crate) fn close_all<R: Wait>(&self, rt: &R) {
        for outlet in self.outlets.iter() {
            outlet.queue.close(rt);
        }
    }

    /// Notes that one of the link's threads has ended. With the last one the link is gone.
    pub(crate) fn leave(&mut self, link: LinkId) {
        for outlet in self.outlets.iter_mut() {
            if outlet.link == link {
                outlet.halves = outlet.halves.saturating_sub(1);
            }
        }
        self.outlets.retain(|outlet| outlet.halves > 0);
    }

    /// Forgets a link whose threads weren't started.
    pub(crate) fn forget(&mut self, link: LinkId) {
        self.outlets.retain(|outlet| outlet.link != link);
    }

    /// Returns whether no link has a thread.
    pub(crate) fn is_empty(&self) -> bool {
        self.outlets.is_empty()
    }

    /// Queues a frame for its links, and returns how many had no room for it.
    pub(crate) fn send<R: Wait>(&self, rt: &R, sending: &Sending) -> u64 {
        let mut dropped = 0u64;
        for link in sending.links.iter() {
            if !self.offer(rt, *link, &sending.frame, sending.rank) {
                dropped = dropped.saturating_add(1);
            }
        }
        dropped
    }

    /// Queues a frame for a link, and returns whether it had room. A link that is closed or gone needs none.
    pub(crate) fn offer<R: Wait>(&self, rt: &R, link: LinkId, frame: &Bytes, rank: Rank) -> bool {
        let Some(outlet) = self.outlet(link) else {
            return true;
        };
        if rank == Rank::Repair && outlet.queue.waiting(rt) > MOST_BEFORE_REPAIR {
            return true;
        }
        let Ok(shared) = frame.clone() else {
            return false;
        };
        match outlet.queue.offer(rt, shared) {
            Ok(_) => true,
            Err(dropped) => dropped.cause() == Cause::Closed,
        }
    }
}
