//! The edge and its queues, as they stand under one lock.

use crate::answers::Replies;
use crate::departed::Departed;
use crate::log_budget::LogBudget;
use crate::outlets::Outlets;
use bytes::Bytes;
use edge_frames::LinkId;
use locked_node::Released;
use log::{Log, info, warn};
use peer_core::{Duty, PeerCore, Rank};
use protocol::Timeout;
use std::alloc::Global;
use std::sync::Wait;

/// How long nothing more is logged of frames that are dropped, in milliseconds.
const LOG_MS: u64 = 1_000;

/// What decides, and the queues that it fills. Frames are queued while the node's lock is held, in the order in which the node released
/// them; but one that leaves while its call goes on is queued before what the calls handed in with that one released.
#[derive(Drop)]
pub(crate) struct Desk {
    alloc: Global,
    pub(crate) core: PeerCore,
    pub(crate) outlets: Outlets,
    departed: Departed,
    pub(crate) log_budget: LogBudget,
    /// How many frames were dropped since that was logged last, and when it was.
    dropped: u64,
    logged: u64,
    /// How many frames were dropped at all, those that repair what may be lost and replies too.
    lost: u64,
    /// Until when the timer sleeps.
    wakes: u64,
}

impl Desk {
    /// Nothing is queued.
    pub(crate) fn new(alloc: Global, core: PeerCore, outlets: Outlets, now: u64) -> Desk {
        Desk {
            alloc,
            core,
            outlets,
            departed: Departed::new(alloc),
            log_budget: LogBudget::new(now),
            dropped: 0,
            logged: 0,
            lost: 0,
            wakes: 0,
        }
    }

    /// Notes that the timer sleeps from now on, and returns until when: what comes next is due then.
    pub(crate) fn sleeps_from(&mut self, now: u64) -> u64 {
        self.wakes = self.core.wake_at(now);
        self.wakes
    }

    /// Whether something is due before the timer wakes.
    pub(crate) fn wakes_late(&self, now: u64) -> bool {
        self.core.wake_at(now) < self.wakes
    }

    /// Queues what the node released, and plans what it scheduled.
    pub(crate) fn release<R: Wait + Log>(&mut self, rt: &R, released: Released, now: u64) {
        let Released { frames, timeouts } = released;
        for frame in frames {
            if !self.departed.passes_over(&frame) {
                self.release_frame(rt, frame, now);
            }
        }
        self.log_dropped(rt, now);
        self.schedule(rt, timeouts, now);
    }

    /// Queues a frame while the call goes on that released it. Without memory for that it leaves behind the call.
    pub(crate) fn let_go<R: Wait>(&mut self, rt: &R, frame: &[u8], now: u64) {
        let Ok(frame) = Bytes::copy_from_slice(self.alloc, frame) else {
            return;
        };
        if self.departed.note(&frame).is_ok() {
            let dropped = self.send_released(rt, frame, now);
            self.drop_some(dropped);
        }
    }

    /// Counts frames that were dropped, which are to be logged.
    fn drop_some(&mut self, count: u64) {
        self.dropped = self.dropped.saturating_add(count);
        self.lose(count);
    }

    /// Counts frames that were dropped.
    fn lose(&mut self, count: u64) {
        self.lost = self.lost.saturating_add(count);
    }

    /// How many frames were dropped at all.
    pub(crate) fn lost(&self) -> u64 {
        self.lost
    }

    /// Logs how many frames were dropped, at most once a second.
    fn log_dropped<R: Log>(&mut self, rt: &R, now: u64) {
        if self.dropped == 0 || now.saturating_sub(self.logged) < LOG_MS {
            return;
        }
        warn!(rt; "{} frames are dropped, since a link has no room", self.dropped);
        self.dropped = 0;
        self.logged = now;
    }

    /// Queues a frame that the node released.
    fn release_frame<R: Wait>(&mut self, rt: &R, frame: Vec<u8>, now: u64) {
        let dropped = match Bytes::from_vec(frame) {
            Ok(frame) => self.send_released(rt, frame, now),
            Err(_) => {
                self.core.lost();
                1
            }
        };
        self.drop_some(dropped);
    }

    /// Queues a frame for whom it is, and returns how often it was dropped.
    fn send_released<R: Wait>(&mut self, rt: &R, frame: Bytes, now: u64) -> u64 {
        match self.core.released(frame, now) {
            Ok(Some(sending)) => self.outlets.send(rt, &sending),
            Ok(None) => 0,
            Err(_) => 1,
        }
    }

    fn schedule<R: Log>(&mut self, rt: &R, timeouts: Vec<Timeout>, now: u64) {
        for timeout in timeouts {
            if self.core.scheduled(timeout, now).is_err() {
                warn!(rt; "a timeout waits for memory");
            }
        }
    }

    /// Queues replies for their link, which go out by one write, and returns how many.
    pub(crate) fn reply<R: Wait + Log>(
        &mut self,
        rt: &R,
        link: LinkId,
        replies: Replies,
        now: u64,
    ) -> u64 {
        let count = replies.count();
        self.lose(replies.lost());
        if count == 0 {
            return 0;
        }
        let queued = match replies.into_frames() {
            Ok(frames) => self.outlets.offer(rt, link, &frames, Rank::Fresh),
            Err(_) => false,
        };
        if queued {
            return count;
        }
        self.lose(count);
        if self.log_budget.may_log(rt, now) {
            warn!(rt; "{count} replies are dropped, since their link has no room");
        }
        0
    }

    /// Does what is to be done with queues alone, and returns the next duty that takes the node, if there is one.
    pub(crate) fn next_call<R: Wait + Log>(&mut self, rt: &R, now: u64) -> Option<Duty> {
        for _ in rt.forever() {
            match self.core.next_duty(now)? {
                Duty::Send(sending) => {
                    let dropped = self.outlets.send(rt, &sending);
                    self.lose(dropped);
                }
                Duty::Close(link, closing) => {
                    let was_open = self.outlets.close(rt, link);
                    if was_open && self.log_budget.may_log(rt, now) {
                        warn!(rt; "link {}: closed: {closing}", link.0);
                    }
                }
                Duty::Meet(link, validator) => {
                    if self.log_budget.may_log(rt, now) {
                        info!(rt; "link {}: validator {validator}", link.0);
                    }
                }
                duty => return Some(duty),
            }
        }
        None
    }
}
