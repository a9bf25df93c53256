//! What the threads share.

use crate::desk::Desk;
use locked_node::LockedNode;
use log::Log;
use node_meters::Meters;
use peer_links::{Bell, Clock};
use status_words::{Node, Seat};
use std::alloc::Global;
use std::sync::{Mutex, Wait};
use std::time;
use vote_journal::Store;

/// Why the threads ended.
#[derive(Clone, Copy, Debug, PartialEq, Eq)]
pub enum Ending {
    /// As many items as were wanted are delivered.
    Stopped,
    /// No peer comes any more, and every link has ended.
    Ended,
    /// The journal's device failed, in a call (17) or before (15).
    Halted,
    /// No thread can be started for the timer or the dialer, or no memory is left for this one.
    OutOfMemory,
}

/// The node, what is beside it, and whether all is to end. Who needs the locks of both the node and the desk takes the node's first.
#[derive(Drop)]
pub(crate) struct Shared<'a, S: Store + Drop, J: Node, C: Clock> {
    pub(crate) alloc: Global,
    pub(crate) node: &'a LockedNode<S, J>,
    pub(crate) clock: &'a C,
    /// Who follows the node's list is woken by it.
    pub(crate) bell: &'a Bell,
    /// The timer is woken by it.
    pub(crate) alarm: Bell,
    /// What the threads count.
    pub(crate) meters: &'a Meters,
    /// How many delivered items are enough.
    pub(crate) stop: Option<u64>,
    pub(crate) desk: Mutex<Desk>,
    pub(crate) ending: Mutex<Option<Ending>>,
}

impl<S: Store + Drop, J: Node, C: Clock> Shared<'_, S, J, C> {
    /// Whether all is to end.
    pub(crate) fn has_ended<R: Wait>(&self, rt: &R) -> bool {
        self.ending.lock(rt).is_some()
    }

    /// Lets all end, by the first cause that comes. What the node released by then is queued, and
    /// nothing behind it.
    pub(crate) fn end<R: Wait + time::Clock + Log>(&self, rt: &R, ending: Ending) {
        let mut node = self.node.hold(rt);
        let released = node.take_released();
        let now = self.clock.now_ms(rt);
        let mut desk = self.desk.lock(rt);
        desk.release(rt, released, now);
        self.note_ending(rt, ending);
        desk.outlets.close_all(rt);
        self.alarm.ring(rt);
    }

    fn note_ending<R: Wait>(&self, rt: &R, ending: Ending) {
        let mut noted = self.ending.lock(rt);
        if noted.is_none() {
            *noted = Some(ending);
        }
    }

    /// Looks whether enough is delivered, and lets all end if so.
    pub(crate) fn look<R: Wait + time::Clock + Log>(&self, rt: &R, seat: &mut Seat<J>) {
        let Some(stop) = self.stop else {
            return;
        };
        if self.node.status(seat).delivered >= stop && !self.has_ended(rt) {
            self.end(rt, Ending::Stopped);
        }
    }
}
