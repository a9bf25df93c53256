//! The calls of the node, and what comes of them.

use crate::answers::{Answers, MOST_AT_ONCE, Replies};
use crate::beside::Beside;
use crate::shared::{Ending, Shared};
use bytes::Bytes;
use edge_frames::LinkId;
use frame_admission::Examined;
use locked_node::{Done, Event, HeldNode};
use log::Log;
use messages::{FrameReader, WholeFrames};
use peer_core::{Duty, Kind, halts, heading_of, may_release};
use peer_links::Clock;
use protocol::{Refusal, Timeout};
use status_words::{Node, Seat};
use std::sync::Wait;
use std::thread::Threads;
use std::time;
use vote_journal::Store;

/// Returns whether a frame brings an ask.
fn is_ask(frame: &[u8]) -> bool {
    heading_of(frame).is_ok_and(|heading| heading.kind == Kind::Ask)
}

/// Returns how many frames go in together: at most 64, and an ask by itself, as the edge is told of each before and expects one bundle
/// at a time.
fn count_together(mut frames: WholeFrames<'_>) -> usize {
    for count in 0..MOST_AT_ONCE {
        let Some(frame) = frames.next_whole() else {
            return count;
        };
        if is_ask(frame) {
            return count.max(1);
        }
    }
    MOST_AT_ONCE
}

impl<S: Store + Drop, J: Node, C: Clock> Shared<'_, S, J, C> {
    /// Hands in the frames that stand whole in front of a link's reader, as many as go in together, and does what is then to be
    /// done. Returns how many there were.
    pub(crate) fn take_in<R: Threads + Wait + time::Clock + Log + Sync>(
        &self,
        rt: &R,
        seat: &mut Seat<J>,
        link: LinkId,
        frames: &mut FrameReader,
    ) -> usize {
        if self.passes_over(rt, link, frames) {
            self.follow(rt, seat);
            return 1;
        }
        let count = count_together(frames.whole_frames());
        if count > 0 {
            let mut answers = Answers::new();
            self.hand_in_together(rt, seat, frames, count, &mut answers);
            self.count_refusals(&answers);
            self.note_all(rt, link, frames, &answers);
            if answers.tell_halt() {
                self.end(rt, Ending::Halted);
            }
            self.follow(rt, seat);
        }
        count
    }

    /// Tells the edge of an ask that stands in front, and takes it from the reader where the node isn't to be handed it. Returns whether
    /// it was.
    fn passes_over<R: Wait + time::Clock>(
        &self,
        rt: &R,
        link: LinkId,
        frames: &mut FrameReader,
    ) -> bool {
        let is_for_node = match frames.whole_frames().next_whole() {
            Some(frame) if is_ask(frame) => {
                let now = self.clock.now_ms(rt);
                self.desk.lock(rt).core.expect(link, frame, now)
            }
            _ => true,
        };
        if !is_for_node {
            let _ = frames.next_frame();
            self.meters.received_frame();
        }
        !is_for_node
    }

    /// Examines so many frames, before the node's lock is taken. Where there is no memory for them, the list is empty.
    fn examine<'e>(&self, mut frames: WholeFrames<'e>, count: usize) -> Vec<Examined<'e>> {
        let Ok(mut examined) = Vec::with_capacity(self.alloc, count) else {
            return Vec::new(self.alloc);
        };
        for _ in 0..count {
            let Some(frame) = frames.next_whole() else {
                break;
            };
            if examined.push(self.node.examine(frame)).is_err() {
                break;
            }
        }
        examined
    }

    /// Hands in so many frames, one behind the other, and queues what the node released for them, while the node's lock is held.
    fn hand_in_together<R: Threads + Wait + time::Clock + Log + Sync>(
        &self,
        rt: &R,
        seat: &mut Seat<J>,
        frames: &FrameReader,
        count: usize,
        answers: &mut Answers,
    ) {
        let examined = self.examine(frames.whole_frames(), count);
        if examined.is_empty() {
            self.hand_in_first(rt, seat, frames.whole_frames(), answers);
            return;
        }
        let beside = Beside::new(rt, self);
        let mut node = self.node.hold(rt);
        for frame in examined {
            answers.add(&node.take_in(rt, &beside, seat, frame));
        }
        if let Some(height) = answers.height_of_released() {
            self.queue_released(rt, &mut node, height);
        }
    }

    /// Asks the node what the event says, and queues what it released, while its lock is held.
    fn call<'e, R: Threads + Wait + time::Clock + Log + Sync>(
        &self,
        rt: &R,
        seat: &mut Seat<J>,
        event: Event<'e>,
    ) -> Done<'e> {
        let beside = Beside::new(rt, self);
        let mut node = self.node.hold(rt);
        let done = node.call(rt, &beside, seat, event);
        if may_release(done.answer()) {
            self.queue_released(rt, &mut node, done.status().height);
        }
        done
    }

    /// Hands in the first of these frames.
    fn hand_in_first<R: Threads + Wait + time::Clock + Log + Sync>(
        &self,
        rt: &R,
        seat: &mut Seat<J>,
        mut frames: WholeFrames<'_>,
        answers: &mut Answers,
    ) {
        if let Some(frame) = frames.next_whole() {
            answers.add(&self.hand_in(rt, seat, frame));
        }
    }

    /// Hands in a frame, and queues what the node released, while its lock is held.
    fn hand_in<'e, R: Threads + Wait + time::Clock + Log + Sync>(
        &self,
        rt: &R,
        seat: &mut Seat<J>,
        frame: &'e [u8],
    ) -> Done<'e> {
        let examined = self.node.examine(frame);
        let beside = Beside::new(rt, self);
        let mut node = self.node.hold(rt);
        let done = node.take_in(rt, &beside, seat, examined);
        if may_release(done.answer()) {
            self.queue_released(rt, &mut node, done.status().height);
        }
        done
    }

    /// Counts the refusals among these answers.
    fn count_refusals(&self, answers: &Answers) {
        for answered in answers.as_slice() {
            if let Err(refusal) = answered.answer {
                self.meters.refused(refusal);
            }
        }
    }

    /// Does beside the node what is to be done with the frames that were answered so, takes them from the reader, and queues the
    /// replies together.
    fn note_all<R: Wait + time::Clock + Log>(
        &self,
        rt: &R,
        link: LinkId,
        frames: &mut FrameReader,
        answers: &Answers,
    ) {
        let now = self.clock.now_ms(rt);
        let mut replies = Replies::new(self.alloc);
        let mut desk = self.desk.lock(rt);
        for answered in answers.as_slice() {
            let Ok(Some(frame)) = frames.next_frame() else {
                break;
            };
            self.meters.received_frame();
            let reply = desk
                .core
                .answered(link, frame, answered.answer, answered.height, now);
            if let Some(reply) = reply {
                replies.add(reply);
            }
        }
        let sent = desk.reply(rt, link, replies, now);
        self.meters.sent_beside(sent.saturating_sub(1));
    }

    /// Hands in a frame that came before its height.
    fn hand_in_early<R: Threads + Wait + time::Clock + Log + Sync>(
        &self,
        rt: &R,
        seat: &mut Seat<J>,
        link: LinkId,
        frame: &Bytes,
    ) {
        let done = self.hand_in(rt, seat, frame);
        let (answer, status) = (done.answer(), done.status());
        self.heed(rt, answer);
        let now = self.clock.now_ms(rt);
        // (no transaction is kept, so that nothing is to be replied)
        let _ = self
            .desk
            .lock(rt)
            .core
            .answered(link, frame, answer, status.height, now);
    }

    /// After any call of the node counts a refusal, and lets all end where it has halted.
    fn heed<R: Wait + time::Clock + Log>(&self, rt: &R, answer: Result<(), Refusal>) {
        if let Err(refusal) = answer {
            self.meters.refused(refusal);
        }
        if halts(answer) {
            self.end(rt, Ending::Halted);
        }
    }

    /// Queues what the node released, which is in this height, and rings the bell where it has moved to that.
    fn queue_released<R: Wait + time::Clock + Log>(
        &self,
        rt: &R,
        node: &mut HeldNode<'_, S, J>,
        height: u64,
    ) {
        let released = node.take_released();
        let now = self.clock.now_ms(rt);
        let mut desk = self.desk.lock(rt);
        let is_new = desk.core.told(height, now);
        desk.release(rt, released, now);
        if is_new {
            self.meters.decided(now);
            self.bell.ring(rt);
        }
    }

    /// Does what is to be done until nothing is left.
    pub(crate) fn follow<R: Threads + Wait + time::Clock + Log + Sync>(
        &self,
        rt: &R,
        seat: &mut Seat<J>,
    ) {
        for _ in rt.forever() {
            let Some(duty) = self.next_call(rt) else {
                break;
            };
            if self.has_ended(rt) {
                break;
            }
            self.perform(rt, seat, duty);
        }
    }

    /// Returns the next duty that takes the node. Where none is left, the timer is woken if something comes before what it waits for.
    fn next_call<R: Wait + time::Clock + Log>(&self, rt: &R) -> Option<Duty> {
        let now = self.clock.now_ms(rt);
        let mut desk = self.desk.lock(rt);
        let duty = desk.next_call(rt, now);
        if duty.is_none() && desk.wakes_late(now) {
            self.alarm.ring(rt);
        }
        duty
    }

    /// Does what takes the node.
    fn perform<R: Threads + Wait + time::Clock + Log + Sync>(
        &self,
        rt: &R,
        seat: &mut Seat<J>,
        duty: Duty,
    ) {
        match duty {
            Duty::HandIn(link, frame) => self.hand_in_early(rt, seat, link, &frame),
            Duty::Ask => {
                let done = self.call(rt, seat, Event::Ask);
                self.heed(rt, done.answer());
            }
            Duty::Settle => self.settle(rt, seat),
            Duty::Resend => self.resend(rt, seat),
            Duty::Fire(timeout) => self.fire(rt, seat, timeout),
            Duty::Send(_) | Duty::Close(..) | Duty::Meet(..) => {}
        }
    }

    /// Has the node release its own messages of the height again. Where it is refused memory for some, it is to once more.
    fn resend<R: Threads + Wait + time::Clock + Log + Sync>(&self, rt: &R, seat: &mut Seat<J>) {
        let done = self.call(rt, seat, Event::Resend);
        let answer = done.answer();
        self.heed(rt, answer);
        if answer == Err(Refusal::OutOfMemory) {
            self.desk.lock(rt).core.lost();
        }
    }

    /// Fires rules until none is enabled.
    pub(crate) fn settle<R: Threads + Wait + time::Clock + Log + Sync>(
        &self,
        rt: &R,
        seat: &mut Seat<J>,
    ) {
        let done = self.call(rt, seat, Event::Settle);
        self.heed(rt, done.answer());
    }

    /// Fires a timeout, and counts it where the node takes it. One that was refused memory is scheduled again.
    fn fire<R: Threads + Wait + time::Clock + Log + Sync>(
        &self,
        rt: &R,
        seat: &mut Seat<J>,
        timeout: Timeout,
    ) {
        let done = self.call(rt, seat, Event::Timeout(timeout));
        let answer = done.answer();
        self.heed(rt, answer);
        if answer.is_ok() {
            self.meters.fired_timeout();
        }
        if answer == Err(Refusal::OutOfMemory) {
            let now = self.clock.now_ms(rt);
            self.desk.lock(rt).core.refused_memory(timeout, now);
        }
    }
}
