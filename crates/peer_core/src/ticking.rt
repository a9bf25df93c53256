//! What is to be done now.

ghost use Rattle.std.specs.Prelude.{◌≡◌, ◌<◌, [], Some, All, IfNone, false};
ghost use Rattle.timeouts.specs.Waiting.{given};
ghost use Rattle.edge_frames.specs.Links.{IsGiven, IsWithout};
ghost use Rattle.timeouts.specs.Waiting.{earliest};
ghost use Rattle.edge_frames.specs.Holding.{due_of};
ghost use Rattle.peer_core.specs.Resting.{due_in};
ghost use Rattle.peer_core.specs.Duties.{IfHandedIn, IfFired, next_of, is_behind};

use crate::agenda::take;
use crate::duty::{Duty, Rank, Sending};
use crate::edge::PeerCore;
use crate::grounds::Grounds;
use crate::heading::heading_of;
use crate::manner::Keeping;
use crate::own::{MOST_AGAIN, MOST_GREETING};
use bytes::Bytes;
use edge_frames::{LinkId, turn_from};
use std::alloc::{AllocError, Global};

/// How long a height doesn't move until its frames are passed on and all are asked, in milliseconds.
const STILL_MS: u64 = 1_000;

/// The most validators of a small cluster, in which making a bundle costs little. A bundle holds a quorum's precommits, each with a tag for
/// every validator, and is tagged as a whole for every validator too: 94 kB are hashed for one among 16 validators, 45 MB among 128.
pub(crate) const MOST_SMALL: u16 = 16;

/// Returns how many sixteens of validators there are, at least one. Pauses that keep so many links from taking all processors are as many
/// times as long: that of a link that another validator is to dial, that of a sign of life, and how long a link may be silent.
pub(crate) fn sixteens(count: u16) -> u16 {
    (count / MOST_SMALL).max(1)
}

/// How many validators make a height's bundle for whoever asks for it in a large cluster, from the one on whose number is the height's. Others make it
/// for who has asked for longer, so behind as many asks each is asked twice.
pub(crate) const FIRST_ASKED: u32 = 8;

/// How many seconds' worth of the newest frames are passed on by turns.
const TURN_SECONDS: u32 = 8;

impl PeerCore {
    /// Returns what is to be done next, and nothing where nothing more is now. A frame that is handed in is the first early one of the
    /// height, and a timeout is fired only when it is due.
    pub fn next_duty(&mut self, now: u64) -> Option<Duty>
        ensures early { IfHandedIn result (λ link frame. IsGiven self.old.height self.old.early link frame self.new.early) }
        ensures due { IfFired result (λ timeout. given now self.old.plan.due ≡ Some timeout) }
        // Nothing is to be done only where no early frame of the height waits, no timeout is due, and nothing is left to be sent.
        ensures none_early { IfNone result (All (IsWithout self.old.height) self.old.early) }
        ensures none_due { IfNone result (All (λ d. now < d.at) self.old.plan.due) }
        ensures none_left { IfNone result (self.new.outbox ≡ []) }
    {
        if let Some((link, frame)) = self.early.take(self.height) {
            return Some(Duty::HandIn(link, frame));
        }
        if let Some(timeout) = self.plan.due(now) {
            return Some(Duty::Fire(timeout));
        }
        self.look_at_clock(now);
        if let Some((link, closing)) = self.links.next_closing() {
            return Some(Duty::Close(link, closing));
        }
        if let Some((link, validator)) = self.links.next_met() {
            return Some(Duty::Meet(link, validator));
        }
        if let Some(duty) = self.next_call(now) {
            return Some(duty);
        }
        self.next_sending(now)
    }

    /// Returns when `next_duty` is to be called again if nothing comes before.
    pub fn wake_at(&self, now: u64) -> u64
        ensures { is_behind self.now.height self.now.catch_up ≡ false
            → result ≡ next_of (next_of (next_of self.now.agenda.tick (earliest self.now.plan.due)) (due_of self.now.held.0)) (due_in self.now.rest.held) }
    {
        let next = earlier(self.agenda.tick, self.plan.next_due());
        let next = earlier(next, self.held.next_due());
        let next = earlier(next, self.rest.next_due());
        if self.catch_up.is_behind(self.height) {
            next.min(now.saturating_add(STILL_MS / 10))
        } else {
            next
        }
    }

    /// Does what is due at its time.
    fn look_at_clock(&mut self, now: u64) {
        if let Some(timeout) = self.rest.take_due(now) {
            self.refused_memory(timeout, now);
        }
        if let Some(frame) = self.held.take_due(now) {
            self.let_go(frame, now);
        }
        if self.agenda.ticks(now) {
            self.tick(now);
        }
    }

    /// Sees each second to what may be lost.
    fn tick(&mut self, now: u64) {
        self.budget.refill();
        self.agenda.settles = true;
        if take(&mut self.agenda.unsent) {
            self.agenda.resends = true;
        }
        if let Some(timeout) = self.unfired.take() {
            self.refused_memory(timeout, now);
        }
        match self.links.keeping() {
            Keeping::Open => {
                if self.agenda.sends_again(now) {
                    self.agenda.resends = true;
                }
                self.agenda.asks = true;
            }
            Keeping::Guarded => self.tick_guarded(now),
        }
        if self.is_still(now) {
            let _ = self.pass_on();
        }
    }

    /// Sees each second to guarded links: closes the silent ones, keeps the others from seeming silent, sends the own messages again,
    /// and asks more validators where the node is behind and doesn't get on.
    fn tick_guarded(&mut self, now: u64) {
        self.links.close_silent();
        if self.catch_up.is_behind(self.height) && self.is_still(now) {
            self.ask_more(now);
        }
        let _ = self.beat(now);
        if self.agenda.sends_again(now) {
            let _ = self.send_again(now);
        }
    }

    /// Sends something on links that would seem silent: an ask or, in a large cluster, the last own vote.
    fn beat(&mut self, now: u64) -> Result<(), AllocError> {
        let Some(vote) = self.sign_of_life()? else {
            self.agenda.asks = self.links.beat(now) || self.agenda.asks;
            return Ok(());
        };
        let links = self.links.quiet(self.alloc, now)?;
        if !links.is_empty() {
            self.put(vote, links, Rank::Repair);
        }
        Ok(())
    }

    /// Returns what a large cluster's validator says in the place of an ask that nothing calls for: its last vote, if it has cast one since it was
    /// started. Whoever is behind it learns so from it, and nobody answers it, where an ask would be answered by a bundle of each that
    /// has decided meanwhile. At rest it has no vote of its height, and asks: who lacks the height before learns from that alone that it is behind.
    fn sign_of_life(&self) -> Result<Option<Bytes>, AllocError> {
        match &self.last_vote {
            Some(vote) if self.is_large() && !self.rests_without(vote) => Ok(Some(vote.clone()?)),
            _ => Ok(None),
        }
    }

    /// Returns whether the validator rests, and this vote is of a height before.
    fn rests_without(&self, vote: &[u8]) -> bool {
        self.rest.rests(self.height)
            && heading_of(vote).is_ok_and(|heading| heading.height < self.height)
    }

    /// Returns whether the height didn't move for a second.
    fn is_still(&self, now: u64) -> bool {
        now.saturating_sub(self.since) >= STILL_MS
    }

    /// Puts the last own messages of the height into the outbox, for all validators, as many as the budget has room for, the newest
    /// first: the others go on from these.
    fn send_again(&mut self, now: u64) -> Result<(), AllocError> {
        let first = self.own.frames().len().saturating_sub(MOST_AGAIN);
        for place in (first..self.own.frames().len()).rev() {
            let links = self.links.for_all(self.alloc, now)?;
            if !self.budget.spend(links.len() as u64) {
                break;
            }
            if let Some(sent) = self.own.frames().get(place) {
                let frame = sent.frame.clone()?;
                self.put(frame, links, Rank::Repair);
            }
        }
        Ok(())
    }

    /// Passes on to one validator, whose turn it is, what it may lack: first what the own messages rest on, and then a turn of the
    /// height's newest frames.
    fn pass_on(&mut self) -> Result<(), AllocError> {
        let Some(link) = self.links.next_behind(self.passed_to) else {
            return Ok(());
        };
        self.passed_to = Some(link);
        if let Some(grounds) = self.grounds {
            self.pass_grounds(link, grounds)?;
        }
        self.pass_turn(link)
    }

    /// Puts the prevotes that the own messages rest on into the outbox, as many as the budget has room for: who has them all can follow
    /// these messages, whatever came before they were cast.
    fn pass_grounds(&mut self, link: LinkId, grounds: Grounds) -> Result<(), AllocError> {
        for sent in self.prevotes.frames() {
            if grounds.includes(&sent.frame) && self.budget.spend(1) {
                self.outbox.put(Sending {
                    frame: sent.frame.clone()?,
                    links: one_link(self.alloc, link)?,
                    rank: Rank::Repair,
                });
            }
        }
        Ok(())
    }

    /// Puts a turn of the height's newest frames of others into the outbox, as many as the budget has room for. The next turn begins
    /// behind them. Older ones wait for no turn: whoever sends many frames delays those of others by no more than some seconds.
    fn pass_turn(&mut self, link: LinkId) -> Result<(), AllocError> {
        let newest = self.budget.each_second().saturating_mul(TURN_SECONDS);
        let first = self.taken.frames().len().saturating_sub(newest as usize);
        let turn = turn_from(self.taken.frames(), self.turn.max(first));
        let mut count: usize = 0;
        for sent in turn.frames {
            if !self.budget.spend(1) {
                break;
            }
            count = count.saturating_add(1);
            self.outbox.put(Sending {
                frame: sent.frame.clone()?,
                links: one_link(self.alloc, link)?,
                rank: Rank::Repair,
            });
        }
        if count == turn.frames.len() {
            self.turn = turn.next;
        } else {
            self.turn = self.turn.max(first).saturating_add(count);
        }
        Ok(())
    }

    /// Returns the next call of the node, if one is to be made.
    fn next_call(&mut self, now: u64) -> Option<Duty>
        ensures early { IfHandedIn result (λ link frame. ⊥) }
        ensures due { IfFired result (λ timeout. ⊥) }
    {
        if take(&mut self.agenda.settles) {
            return Some(Duty::Settle);
        }
        if take(&mut self.agenda.resends) {
            return Some(Duty::Resend);
        }
        if self.catch_up.should_ask(self.height, now) {
            self.catch_up.asked();
            self.ask_next(now);
        }
        if take(&mut self.agenda.asks) {
            return Some(Duty::Ask);
        }
        None
    }

    /// Has the next validator asked. Who lacks a height asks the same one first, which makes one bundle for all of them.
    fn ask_next(&mut self, now: u64) {
        self.agenda.asks = true;
        let from = self.next_asked();
        let next = self
            .next_prompt(from, now)
            .or_else(|| self.links.next_validator(from));
        if let Some((link, validator)) = next {
            self.asked = Some(validator);
            self.asks = self.asks.saturating_add(1);
            self.links.ask(link, now);
        }
    }

    /// Returns the next validator from this one on that makes the height's bundle at once, and doesn't owe another one for too long: who is silent, or
    /// behind itself, is asked last. There is none where the last one is asked again.
    fn next_prompt(&self, from: u16, now: u64) -> Option<(LinkId, u16)> {
        if self.asks_again() {
            return None;
        }
        self.links
            .next_prompt(from, now)
            .filter(|next| self.makes_at_once(next.1, self.height))
    }

    /// Returns from which validator on it is looked for the one that is asked next. Where the last one doesn't make the height's bundle at once, those that do
    /// had no link, as where most validators are started together: by now one may have come back.
    fn next_asked(&self) -> u16 {
        match self.asked {
            Some(validator) if self.asks_again() => validator,
            Some(validator) if !self.asks_first_again(validator) => validator.saturating_add(1),
            _ => {
                let count = u64::from(self.redial.count()).max(1);
                (self.height % count) as u16
            }
        }
    }

    /// Returns whether behind this validator it begins again with those that make the bundle at once.
    fn asks_first_again(&self, validator: u16) -> bool {
        self.asks < FIRST_ASKED && !self.makes_at_once(validator, self.height)
    }

    /// Returns whether the one that was asked last is asked again, since it may make the bundle only for who has asked for longer.
    fn asks_again(&self) -> bool {
        self.is_large() && self.asks > FIRST_ASKED && self.asks % 2 == 1
    }

    /// Has all validators of a small cluster asked. Of a large one the next one is, after a pause that doubles, since whoever is asked makes a
    /// bundle.
    fn ask_more(&mut self, now: u64) {
        if !self.is_large() {
            self.links.want_asks();
            self.agenda.asks = true;
        } else if self.agenda.asks_more(now) {
            self.ask_next(now);
        }
    }

    /// Returns whether a bundle takes long to make.
    pub(crate) fn is_large(&self) -> bool {
        self.redial.count() > MOST_SMALL
    }

    /// Returns the next frame that is to be sent. Where there is none, a link that has opened gets the own messages of the height.
    fn next_sending(&mut self, now: u64) -> Option<Duty>
        ensures early { IfHandedIn result (λ link frame. ⊥) }
        ensures due { IfFired result (λ timeout. ⊥) }
        ensures none_left { IfNone result (self.new.outbox ≡ []) }
    {
        if let Some(sending) = self.outbox.take() {
            return Some(Duty::Send(sending));
        }
        let link = self.links.next_greeted()?;
        let _ = self.greet(link);
        if let Some(duty) = self.next_call(now) {
            return Some(duty);
        }
        let sending = self.outbox.take()?;
        Some(Duty::Send(sending))
    }

    /// Has a link that has opened told who is here and where: by the last own messages of the height, and by an ask or, in a large cluster, by
    /// the last own vote at least, if there is one.
    fn greet(&mut self, link: LinkId) -> Result<(), AllocError> {
        let first = self.own.frames().len().saturating_sub(MOST_GREETING);
        for place in first..self.own.frames().len() {
            if let Some(sent) = self.own.frames().get(place) {
                let frame = sent.frame.clone()?;
                self.put_fresh(frame, link)?;
            }
        }
        let Some(vote) = self.sign_of_life()? else {
            self.links.want_ask(link);
            self.agenda.asks = true;
            return Ok(());
        };
        if self.own.frames().is_empty() {
            self.put_fresh(vote, link)?;
        }
        Ok(())
    }

    /// Puts a frame into the outbox for one link.
    fn put_fresh(&mut self, frame: Bytes, link: LinkId) -> Result<(), AllocError> {
        let links = one_link(self.alloc, link)?;
        self.put(frame, links, Rank::Fresh);
        Ok(())
    }
}

/// The earlier one of a time and of when something is due, if it is.
fn earlier(next: u64, due: Option<u64>) -> u64
    ensures { result ≡ next_of next due }
{
    due.map_or(next, |due| due.min(next))
}

/// One link alone.
fn one_link(alloc: Global, link: LinkId) -> Result<Vec<LinkId>, AllocError> {
    let mut links = Vec::with_capacity(alloc, 1)?;
    links.push(link)?;
    Ok(links)
}
