//! The threads that send.

use crate::batch::Batch;
use crate::outlets::Queue;
use crate::patience::{Patience, Standing};
use crate::shared::Shared;
use edge_frames::LinkId;
use log::{Log, warn};
use peer_links::{Clock, Link, Sent};
use status_words::Node;
use std::fmt::Display;
use std::sync::Wait;
use std::time;
use thiserror::Error;
use vote_journal::Store;

/// How many frames follow the first one in a write at most.
const MOST_FRAMES: u32 = 255;

/// Why nothing more is sent on a link.
#[derive(Clone, Copy, Debug, Error, PartialEq, Eq)]
enum Unsent {
    #[error("it fails")]
    Failed,
    #[error("it took nothing for 30 seconds")]
    Stuck,
}

/// The half of a link that sends, and how patient its thread is.
#[derive(Drop)]
struct Sender<L: Link + Drop> {
    link: LinkId,
    half: L,
    patience: Patience,
}

impl<S: Store + Drop, J: Node, C: Clock> Shared<'_, S, J, C> {
    /// Sends what is queued for a link, until its queue has ended, it fails, or it is given up.
    pub(crate) fn write_link<L: Link + Drop, R: Wait + time::Clock + Log>(
        &self,
        rt: &R,
        link: LinkId,
        queue: Queue,
        half: L,
    ) {
        let patience = Patience::new(self.clock.now_ms(rt));
        let mut batch = Batch::new(self.alloc);
        let mut sender = Sender {
            link,
            half,
            patience,
        };
        for _ in rt.forever() {
            let Ok(frame) = queue.take(rt) else {
                break;
            };
            self.meters.sent_frame();
            if let Err(unsent) = self.send_with_next(rt, &queue, &mut batch, &frame, &mut sender) {
                self.log_closed(rt, link, unsent);
                break;
            }
        }
        self.leave(rt, link);
    }

    /// Sends a frame, and with it those that wait behind it, as many as go out by one write. The order stays.
    fn send_with_next<L: Link + Drop, R: Wait + time::Clock>(
        &self,
        rt: &R,
        queue: &Queue,
        batch: &mut Batch,
        first: &[u8],
        sender: &mut Sender<L>,
    ) -> Result<(), Unsent> {
        batch.clear();
        if !batch.add(first) {
            return self.send_all(rt, sender, first);
        }
        for _ in 0..MOST_FRAMES {
            let Ok(next) = queue.try_take(rt) else {
                break;
            };
            self.meters.sent_frame();
            if !batch.add(&next) {
                self.send_all(rt, sender, batch.bytes())?;
                return self.send_all(rt, sender, &next);
            }
        }
        self.send_all(rt, sender, batch.bytes())
    }

    /// Sends all bytes, however slow the peer is, as long as it takes some and the link is open.
    fn send_all<L: Link + Drop, R: Wait + time::Clock>(
        &self,
        rt: &R,
        sender: &mut Sender<L>,
        bytes: &[u8],
    ) -> Result<(), Unsent> {
        let mut rest = bytes;
        let mut now = self.clock.now_ms(rt);
        sender.patience.took(now);
        for _ in rt.forever() {
            if rest.is_empty() {
                break;
            }
            let sent = sender.half.send(rt, rest);
            now = self.clock.now_ms(rt);
            match sent {
                Sent::Taken(count) => {
                    self.meters.sent_bytes(count);
                    rest = &rest[count..];
                    sender.patience.took(now);
                }
                Sent::Idle => {}
                Sent::Failed => return Err(Unsent::Failed),
            }
            self.look_at(rt, sender.link, &mut sender.patience, now)?;
        }
        Ok(())
    }

    /// Gives a peer up that took too little for too long.
    fn look_at<R: Wait>(
        &self,
        rt: &R,
        link: LinkId,
        patience: &mut Patience,
        now: u64,
    ) -> Result<(), Unsent> {
        if patience.is_to_look(now) && patience.gives_up(self.standing(rt, link), now) {
            return Err(Unsent::Stuck);
        }
        Ok(())
    }

    /// Returns how a link stands.
    fn standing<R: Wait>(&self, rt: &R, link: LinkId) -> Standing {
        match self.desk.lock(rt).outlets.standing(link) {
            Standing::Open if self.has_ended(rt) => Standing::Closed,
            standing => standing,
        }
    }

    /// Closes a link of which a thread has ended, and logs why, where that isn't logged yet and not all ends.
    pub(crate) fn log_closed<E: Display + Drop, R: Wait + time::Clock + Log>(
        &self,
        rt: &R,
        link: LinkId,
        cause: E,
    ) {
        let is_first = self.desk.lock(rt).outlets.close(rt, link);
        if is_first && !self.has_ended(rt) && self.may_log(rt) {
            warn!(rt; "link {}: closed: {cause}", link.0);
        }
    }

    /// Returns whether a line on a link may be logged now. Where some were left out before, their number is logged first.
    pub(crate) fn may_log<R: Wait + time::Clock + Log>(&self, rt: &R) -> bool {
        let now = self.clock.now_ms(rt);
        self.desk.lock(rt).log_budget.may_log(rt, now)
    }

    /// Notes that a thread of a link has ended, and with it the link.
    pub(crate) fn leave<R: Wait>(&self, rt: &R, link: LinkId) {
        let mut desk = self.desk.lock(rt);
        desk.core.ended(link);
        desk.outlets.close(rt, link);
        desk.outlets.leave(link);
        self.alarm.ring(rt);
    }
}
