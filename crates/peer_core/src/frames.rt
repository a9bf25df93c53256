//! The frames that come, and those that the node releases.

ghost use Rattle.std.specs.Prelude.{◌≡◌, Some, None, true, false, IfOk, OnErr, IfSome, MatchBool};
ghost use Rattle.transactions.specs.Fields.{number_at};
ghost use Rattle.messages.specs.Replies.{IsReply};
ghost use Rattle.peer_core.specs.Heading.{heading_at, is_transaction_at};
ghost use Rattle.peer_core.specs.Answers.{reply_for};
ghost use Rattle.peer_core.specs.Sharing.{is_behind, may_be_shared};
ghost use Rattle.peer_core.specs.Sendings.{IsOf, GoesTo, GoesWhereDue, BundleGoes, for_all, for_bundle};

use crate::answering::{Then, reply_to, then_after};
use crate::duty::{Rank, Sending};
use crate::edge::PeerCore;
use crate::grounds::Grounds;
use crate::heading::{Heading, Kind, heading_of, is_transaction};
use crate::holding::MOST_BEHIND;
use crate::idle::idle_height;
use crate::manner::Keeping;
use crate::quiet::{has_transactions, is_quiet};
use crate::showing::{is_news, is_taken_in, shown_by};
use crate::ticking::FIRST_ASKED;
use bytes::Bytes;
use edge_frames::LinkId;
use messages::Reply;
use protocol::Refusal;
use std::alloc::AllocError;

/// For how many of a node's moments, in which it waits before it asks, others aren't answered who ask for the height that it left.
const EARLY_MOMENTS: u64 = 4;

/// How long a validator asks for a height until any other one makes its bundle in a large cluster, in milliseconds.
const LONG_MS: u64 = 5_000;

/// A validator on whose turn a transaction waits stays awake until then, unless that is more than so many times as long as it is awake for a
/// transaction anyway.
const TOO_FAR: u64 = 4;

impl PeerCore {
    /// Notes before a frame is handed in what the node may release for it, and returns whether it is to be handed in: a bundle goes
    /// to whom an ask came from.
    ///
    /// A node tags each bundle for every validator, so with guarded links it isn't asked again for one that it keeps, or that is being made, where a validator
    /// asks for it on a link of its own: that is sent the frame that was made, or waits for it. An ask on a link that is closed, or on which too much was spent, is passed over.
    pub fn expect(&mut self, link: LinkId, frame: &[u8], now: u64) -> bool
        ensures handed { may_be_shared self.old.links.keeping self.old.height (heading_at frame.now) ≡ false → result ≡ true }
    {
        match heading_of(frame) {
            Ok(heading) if heading.kind == Kind::Ask => self.expect_bundle(link, heading, now),
            _ => true,
        }
    }

    /// Notes that a bundle is asked for, and returns whether the node is to be asked for it.
    fn expect_bundle(&mut self, id: LinkId, ask: Heading, now: u64) -> bool
        ensures handed { is_behind self.old.links.keeping self.old.height ask ≡ false → result ≡ true }
    {
        if self.is_behind(ask) {
            self.asks_node(id, ask, now)
        } else {
            self.note_ask(id, ask.height, now);
            true
        }
    }

    /// Returns whether an ask is for a bundle that the node can make, and may be answered in its place.
    fn is_behind(&self, ask: Heading) -> bool
        ensures { result ≡ is_behind self.now.links.keeping self.now.height ask }
    {
        match self.links.keeping() {
            Keeping::Open => false,
            Keeping::Guarded => ask.height < self.height,
        }
    }

    /// Notes that the peer of a link asks for this height's bundle.
    fn note_ask(&mut self, id: LinkId, height: u64, now: u64) {
        if let Some(link) = self.links.link_mut(id) {
            link.ask(height, now);
        }
    }

    /// Notes that a bundle is asked for that the node can make, and returns whether it is to be made.
    fn asks_node(&mut self, id: LinkId, ask: Heading, now: u64) -> bool {
        if ask.sender == self.redial.me() {
            return false;
        }
        let may_spend = self.links.may_spend(id, ask.sender, now);
        let Some(link) = self.links.link_mut(id) else {
            return false;
        };
        if !link.is_open() {
            return false;
        }
        link.ask(ask.height, now);
        let (is_known, waited) = (link.is_of(ask.sender), link.asked_for(now));
        if self.is_early(ask, now) || !may_spend {
            return false;
        }
        if is_known && self.send_made(ask.height, now) {
            return false;
        }
        let is_made = !self.is_shared(id, is_known, ask.height, now)
            && self.is_helper(ask.height, waited);
        if is_made && let Some(link) = self.links.link_mut(id) {
            link.make(ask.height, now);
        }
        is_made
    }

    /// Returns whether a height's bundle needs not be made for an ask, since it is made or was lately for others, who it goes to as well. For those of whom
    /// nothing is known a large cluster's validator makes one bundle at a time.
    fn is_shared(&self, id: LinkId, is_known: bool, height: u64, now: u64) -> bool {
        if is_known {
            self.links.is_making_known(height, now)
        } else {
            self.is_large()
                && (self.links.is_making(height, now)
                    || self.links.is_asked_by_strangers(id, now)
                    || self.help.made_lately(height, now))
        }
    }

    /// Returns whether this validator is one that makes a height's bundle for who has waited so long for it: in a large cluster one of those
    /// that are asked first, since a node that has cast no vote asks all when it greets them; and any for who gets none of these.
    fn is_helper(&self, height: u64, waited: u64) -> bool {
        self.makes_at_once(self.redial.me(), height) || waited >= LONG_MS
    }

    /// Returns whether a validator is one that makes a height's bundle for whoever asks.
    pub(crate) fn makes_at_once(&self, validator: u16, height: u64) -> bool {
        let count = u64::from(self.redial.count()).max(1);
        let place = u64::from(validator).saturating_add(count) - height % count;
        !self.is_large() || place % count < u64::from(FIRST_ASKED)
    }

    /// Returns whether a height was left so lately that who asks for it may just as well decide it by itself, or has since it asked. In a large
    /// cluster it is answered only if it asks again.
    fn is_early(&self, ask: Heading, now: u64) -> bool {
        self.is_large()
            && ask.height.saturating_add(1) == self.height
            && now.saturating_sub(self.since) < self.moment.saturating_mul(EARLY_MOMENTS)
    }

    /// Sends a bundle that was made to whom it is for, and returns whether there is one.
    fn send_made(&mut self, height: u64, now: u64) -> bool {
        let Some(frame) = self.help.made(height) else {
            return false;
        };
        if let Ok(links) = self.links.for_bundle(self.alloc, height, now) {
            self.links.charge_sent(&links, frame.len(), now);
            if !links.is_empty() {
                self.put(frame, links, Rank::Fresh);
            }
        }
        true
    }

    /// Does what is to be done beside the node with a frame that came on a link and was answered so by the node, which is then in
    /// this height. The reply, which a transaction gets, goes to that link.
    pub fn answered(
        &mut self,
        link: LinkId,
        frame: &[u8],
        answer: Result<(), Refusal>,
        height: u64,
        now: u64,
    ) -> Option<Reply>
        ensures reply { MatchBool (is_transaction_at (number_at 4 frame.now)) (result ≡ Some (reply_for answer)) (result ≡ None) }
        ensures lawful { IfSome result (λ reply. IsReply reply) }
    {
        let heading = heading_of(frame).ok();
        self.note(link, frame, heading, answer, height);
        match then_after(answer, heading, height) {
            Then::Keep { height } => self.keep_early(link, height, frame, now),
            Then::PassOn { sender } => {
                let is_prevote = heading.is_some_and(|heading| heading.kind == Kind::Prevote);
                self.keep_taken(height, sender, is_prevote, frame);
            }
            Then::Note { height } => self.catch_up.saw(height, now),
            Then::Halt | Then::Nothing => {}
        }
        self.rouse(link, frame, heading, answer, now);
        reply_to(frame, answer)
    }

    /// Notes who is behind the link, and forgets an ask that wasn't answered.
    fn note(
        &mut self,
        link: LinkId,
        frame: &[u8],
        heading: Option<Heading>,
        answer: Result<(), Refusal>,
        own: u64,
    ) {
        let shown = shown_by(frame, heading, answer);
        if shown.sender() != Some(self.redial.me()) {
            self.links
                .show(link, shown, is_taken_in(heading, answer), own);
        }
        let Some(link) = self.links.link_mut(link) else {
            return;
        };
        match heading.map(|heading| heading.kind) {
            Some(Kind::Ask) => link.answered_ask(answer.is_ok(), shown),
            Some(Kind::Bundle) if answer.is_ok() && shown.sender() == link.validator() =>
                link.pay(),
            _ => {}
        }
    }

    /// Keeps a frame of a height that hasn't come. A link that has no room loses it: its sender says it again.
    fn keep_early(&mut self, link: LinkId, height: u64, frame: &[u8], now: u64) {
        self.catch_up.saw(height, now);
        if let Ok(copy) = Bytes::copy_from_slice(self.alloc, frame) {
            let _ = self.early.keep(link, height, copy);
        }
    }

    /// Keeps a frame that the node took in, to be passed on. Of a sender that has no room what came first stays. Prevotes have room of
    /// their own beside, as much as the node has for them, since a message of this validator may rest on any.
    fn keep_taken(&mut self, height: u64, sender: u16, is_prevote: bool, frame: &[u8]) {
        if height != self.height {
            return;
        }
        let Ok(copy) = Bytes::copy_from_slice(self.alloc, frame) else {
            return;
        };
        if is_prevote {
            let _ = self.keep_prevote(sender, &copy);
        }
        let _ = self.taken.keep(sender, copy);
    }

    /// Keeps a prevote of the height.
    fn keep_prevote(&mut self, sender: u16, frame: &Bytes) -> Result<(), AllocError>
        ensures { self.new.links ≡ self.old.links }
    {
        // (of another validator a node takes in no more than are kept; own ones are kept of the first 512 rounds)
        let _ = self.prevotes.keep(sender, frame.clone()?);
        Ok(())
    }

    /// Wakes the validator where a frame says that something happens.
    fn rouse(
        &mut self,
        link: LinkId,
        frame: &[u8],
        heading: Option<Heading>,
        answer: Result<(), Refusal>,
        now: u64,
    ) {
        match heading {
            Some(heading) => self.rouse_by(frame, heading, answer, now),
            None if answer.is_ok() && is_transaction(frame) => self.rouse_for(link, frame, now),
            None => {}
        }
    }

    /// Wakes the validator where another one's frame says that transactions wait, also one that ended its height, and stirs it where something else
    /// happens: it is of this height or a later one, and no idle height brings it. One that an idle height brings says that it goes on.
    fn rouse_by(&mut self, frame: &[u8], heading: Heading, answer: Result<(), Refusal>, now: u64) {
        let is_of_round = matches!(
            heading.kind,
            Kind::Proposal | Kind::Prevote | Kind::Precommit
        );
        let is_news = is_news(Some(heading), answer, self.height);
        let brings_some = has_transactions(frame);
        if !is_of_round || !is_news || heading.height < self.height && !brings_some {
            return;
        }
        let rests = self.rest.rests(self.height);
        if brings_some {
            self.rest.wake(self.height);
        } else if !is_quiet(frame) {
            self.rest.stir(self.height);
        }
        if rests && self.rest.ends_by(heading.height) {
            self.go_on(now);
        }
    }

    /// Wakes the validator for a transaction that it accepted. Where it rested, or soon would have, the others may rest before its
    /// turn comes, so it passes the transaction on to them. So it does where its turn is far, with one that no validator passed on.
    /// Where that is several times too far it doesn't stay awake until then.
    fn rouse_for(&mut self, link: LinkId, frame: &[u8], now: u64) {
        let count = self.turns.heights_to_next(self.height);
        let is_late = self.rest.is_far(count) && !self.links.is_validators(link);
        if is_late || self.rest.is_drowsy(self.height) {
            self.pass_to_all(frame, now);
        }
        if !self.rest.is_far(count / TOO_FAR) {
            self.rest.accepted();
        }
        self.rest.wake(self.height);
        self.go_on(now);
    }

    /// Has a client's frame go to all validators.
    fn pass_to_all(&mut self, frame: &[u8], now: u64) {
        let Ok(frame) = Bytes::copy_from_slice(self.alloc, frame) else {
            return;
        };
        if let Ok(links) = self.links.for_validators(self.alloc, now) {
            self.put(frame, links, Rank::Repair);
        }
    }

    /// Goes on with a height that was held open: begins with its propose timeout, and lets the own proposal go that waits.
    pub(crate) fn go_on(&mut self, now: u64) {
        if let Some(timeout) = self.rest.take() {
            self.refused_memory(timeout, now);
        }
        if let Some(frame) = self.held.take() {
            self.let_go(frame, now);
        }
    }

    /// Puts the proposal that waited and what waits behind it into the outbox.
    pub(crate) fn let_go(&mut self, frame: Bytes, now: u64) {
        self.send_own(frame, now);
        for _ in 0..MOST_BEHIND {
            let Some(frame) = self.held.take_behind() else {
                break;
            };
            self.send_own(frame, now);
        }
    }

    /// Puts an own frame for all into the outbox.
    fn send_own(&mut self, frame: Bytes, now: u64) {
        match self.to_all(frame, now) {
            Ok(sending) => {
                self.outbox.put(sending);
            }
            Err(_) => self.lost(),
        }
    }

    /// Puts a frame into the outbox.
    pub(crate) fn put(&mut self, frame: Bytes, links: Vec<LinkId>, rank: Rank) {
        self.outbox.put(Sending { frame, links, rank });
    }

    /// Notes that a frame which the node released was lost for want of memory, so that the node is to release its own messages again at the next tick.
    pub fn lost(&mut self)
        ensures { self.new ≡ record self.old { agenda = record self.old.agenda { unsent = true } } }
    {
        self.agenda.unsent = true;
    }

    /// Returns to whom a frame goes that the node released, or nothing where it waits, can't be read,
    /// was sent before, or nobody wants it. Where that is refused memory, the node is to release its own messages again.
    pub fn released(&mut self, frame: Bytes, now: u64) -> Result<Option<Sending>, AllocError>
        ensures frame { IfOk result (IsOf frame) }
        ensures links { IfOk result (GoesWhereDue frame now self.old.links) }
        ensures lost { OnErr result (self.new.agenda.unsent ≡ true) }
    {
        let sending = self.routed(frame, now);
        if sending.is_err() {
            self.lost();
        }
        sending
    }

    /// Returns to whom a released frame goes.
    fn routed(&mut self, frame: Bytes, now: u64) -> Result<Option<Sending>, AllocError>
        ensures frame { IfOk result (IsOf frame) }
        ensures links { IfOk result (GoesWhereDue frame now self.old.links) }
    {
        let Ok(heading) = heading_of(&frame) else {
            return Ok(None);
        };
        self.advance(heading.height.min(self.highest_of(heading)), now);
        match heading.kind {
            Kind::Ask => {
                let links = self.links.for_ask(self.alloc, now)?;
                Ok(Some(fresh(frame, links)))
            }
            Kind::Bundle => self.bundle(frame, heading.height, now),
            Kind::Proposal | Kind::Prevote | Kind::Precommit => {
                self.note_own(heading, &frame);
                self.own_message(frame, now)
            }
        }
    }

    /// Returns which height of the node's a released frame tells: a bundle is of a lower one.
    fn highest_of(&self, heading: Heading) -> u64 {
        match heading.kind {
            Kind::Bundle => self.height,
            _ => heading.height,
        }
    }

    /// Returns to whom a bundle goes.
    fn bundle(&mut self, frame: Bytes, height: u64, now: u64) -> Result<Option<Sending>, AllocError>
        ensures frame { IfOk result (IsOf frame) }
        ensures links { IfOk result (BundleGoes self.old.links.keeping (for_all self.old.links) (for_bundle height now self.old.links)) }
    {
        match self.links.keeping() {
            Keeping::Open => self.bundle_for_all(frame, height, now),
            Keeping::Guarded => self.bundle_for_askers(frame, height, now),
        }
    }

    /// A bundle for all links, where any peer asked for it.
    fn bundle_for_all(
        &mut self,
        frame: Bytes,
        height: u64,
        now: u64,
    ) -> Result<Option<Sending>, AllocError>
        ensures frame { IfOk result (IsOf frame) }
        ensures links { IfOk result (GoesTo (for_all self.old.links)) }
    {
        let links = self.links.all(self.alloc)?;
        if self.links.for_bundle(self.alloc, height, now)?.is_empty() {
            return Ok(None);
        }
        self.links.note_sent(&links, now);
        Ok(Some(fresh(frame, links)))
    }

    /// A bundle for those who asked for it, which is kept for the next ones.
    fn bundle_for_askers(
        &mut self,
        frame: Bytes,
        height: u64,
        now: u64,
    ) -> Result<Option<Sending>, AllocError>
        ensures frame { IfOk result (IsOf frame) }
        ensures links { IfOk result (GoesTo (for_bundle height now self.old.links)) }
    {
        let links = self.links.for_bundle(self.alloc, height, now)?;
        self.links.made(height, frame.len(), now);
        self.links.charge_sent(&links, frame.len(), now);
        self.help.keep(&frame, height, now);
        if links.is_empty() {
            return Ok(None);
        }
        Ok(Some(fresh(frame, links)))
    }

    /// Notes what an own proposal or vote rests on, and keeps a prevote, on which later ones may rest.
    fn note_own(&mut self, heading: Heading, frame: &Bytes)
        ensures { self.new.links ≡ self.old.links }
    {
        self.grounds = Grounds::after(self.grounds, frame);
        if heading.kind == Kind::Prevote && !self.has_prevote(frame) {
            let _ = self.keep_prevote(heading.sender, frame);
        }
    }

    /// Returns whether this prevote is kept.
    fn has_prevote(&self, frame: &[u8]) -> bool {
        self.prevotes
            .frames()
            .iter()
            .any(|kept| kept.frame.as_slice() == frame)
    }

    /// Returns to whom an own proposal or vote goes. A proposal of no transactions waits, and what comes behind it.
    fn own_message(&mut self, frame: Bytes, now: u64) -> Result<Option<Sending>, AllocError>
        ensures frame { IfOk result (IsOf frame) }
        ensures links { IfOk result (GoesTo (for_all self.old.links)) }
    {
        let idle = idle_height(&frame);
        if idle.is_some() {
            self.rest.proposed_none();
        }
        let Some(frame) = self.unheld(frame, idle, now) else {
            return Ok(None);
        };
        let Some(frame) = self.held.follow(frame)? else {
            return Ok(None);
        };
        if self.links.keeping() == Keeping::Guarded && self.own.has(&frame) {
            // (what was sent before is sent again by the edge itself)
            return Ok(None);
        }
        Ok(Some(self.to_all(frame, now)?))
    }

    /// Returns the frame, unless it is an own proposal of no transactions that waits.
    fn unheld(&mut self, frame: Bytes, idle: Option<u64>, now: u64) -> Option<Bytes>
        ensures frame { IfSome result (λ given. given ≡ frame) }
        ensures links { self.new.links ≡ self.old.links }
    {
        let Some(height) = idle else {
            return Some(frame);
        };
        let wait = self.rest.wait_of(height, self.idle);
        if wait == 0 {
            return Some(frame);
        }
        self.held.hold(height, frame, now.saturating_add(wait))
    }

    /// An own proposal or vote for all validators, which is kept to be sent again.
    fn to_all(&mut self, frame: Bytes, now: u64) -> Result<Sending, AllocError>
        ensures frame { IfOk result (λ sending. sending.frame ≡ frame) }
        ensures links { IfOk result (λ sending. sending.links.items ≡ for_all self.old.links) }
    {
        let links = self.links.for_all(self.alloc, now)?;
        self.note_vote(&frame);
        if self.links.keeping() == Keeping::Guarded {
            self.own.keep(&frame)?;
            self.agenda.moved(now);
        }
        Ok(fresh(frame, links))
    }

    /// Notes a vote that goes out as the last one: one that still waits behind an own proposal isn't said as a sign of life.
    fn note_vote(&mut self, frame: &Bytes)
        ensures { self.new.links ≡ self.old.links }
    {
        if let Ok(heading) = heading_of(frame)
            && heading.kind != Kind::Proposal
            && let Ok(vote) = frame.clone()
        {
            self.last_vote = Some(vote);
        }
    }
}

/// A frame that matters to its receivers.
fn fresh(frame: Bytes, links: Vec<LinkId>) -> Sending
    ensures frame { result.frame ≡ frame }
    ensures links { result.links.items ≡ links.items }
{
    Sending {
        frame,
        links,
        rank: Rank::Fresh,
    }
}
