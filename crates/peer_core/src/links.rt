//! The links of a validator, and which of them a frame goes to.

ghost use Rattle.std.specs.Prelude.{◌≡◌, ◌<◌, IfSome, IfOk, length};
ghost use Rattle.peer_core.specs.Choosing.{gets_all, gets_ask, gets_bundle, is_for_validators, ids_of};

use crate::choosing::{best_of, mark_chosen};
use crate::duty::{Closing, OpenFault};
use crate::efforts::{Account, Debts, cost_of_making, cost_of_sending};
use crate::link::{Behind, MOST_QUIET_MS, MOST_SILENT, PeerLink, Shown};
use crate::manner::Keeping;
use crate::ticking::sixteens;
use edge_frames::{LinkId, MOST_LINKS};
use peer_links::Way;
use std::alloc::{AllocError, AllocFailed, Global};

/// How many links that were accepted may have shown nothing.
pub const MOST_STRANGERS: usize = 64;

/// How many links of clients have a place at least.
pub const MOST_CLIENT_LINKS: usize = 64;

/// How many links that one validator dials have a place, where there is room for so many of each.
const MOST_DIALED_HERE: usize = 2;

/// From how many links on it is not a few that are silent.
const MANY_SILENT: usize = 8;

/// For how many seconds at least a link of a validator may be silent where many are, and more than half.
const MOST_SILENT_TOGETHER: u32 = 60;

/// For how many heights it counts that a link brought something new, or that a validator was found behind it.
const MOST_HEIGHTS: u64 = 8;

/// For how many seconds a link may be silent, for each sixteen validators, until another one is preferred: two signs of life are missing then.
const MOST_MISSED: u32 = 9;

impl<T: Drop> From<AllocFailed<T>> for OpenFault {
    fn from(_e: AllocFailed<T>) -> OpenFault {
        OpenFault::OutOfMemory
    }
}

/// The links that are open or closing, at most 384, in order of their numbers.
///
/// 64 places are for links that have shown nothing and 64 at least for those of clients, so that nobody who connects takes a
/// validator's: each has one for the link that is dialed here, and one or two for those that it dials.
#[derive(Debug, Drop)]
pub struct PeerLinks {
    count: u16,
    keeping: Keeping,
    /// How many links that one validator dials have a place.
    most_accepted: usize,
    /// How many links of clients have a place.
    most_clients: usize,
    pub(crate) links: Vec<PeerLink>,
    /// How many frames were new to the node.
    news: u64,
    /// The own height when the last frame came.
    height: u64,
    /// Whether some link may have to be closed, greeted or named.
    is_stirred: bool,
    /// What was spent on links that were dialed and have ended, and on others.
    dialed: Debts,
    accepted: Debts,
}

/// Returns how many places the validators' links have, where each of the others has one for the link that is dialed here and so
/// many for those that it dials.
fn places_of(count: u16, accepted: usize) -> usize {
    usize::from(count).saturating_mul(accepted.saturating_add(1))
}

impl PeerLinks {
    /// No links, of one of `count` validators. It takes no memory.
    pub fn new(alloc: Global, count: u16, keeping: Keeping) -> PeerLinks {
        let room = MOST_LINKS - MOST_STRANGERS - MOST_CLIENT_LINKS;
        let most_accepted = if places_of(count, MOST_DIALED_HERE) <= room {
            MOST_DIALED_HERE
        } else {
            1
        };
        let others = places_of(count, most_accepted).min(room);
        PeerLinks {
            count,
            keeping,
            most_accepted,
            most_clients: MOST_LINKS - MOST_STRANGERS - others,
            links: Vec::new(alloc),
            news: 0,
            height: 0,
            is_stirred: false,
            dialed: Debts::new(),
            accepted: Debts::new(),
        }
    }

    /// How the links are kept.
    pub fn keeping(&self) -> Keeping
        ensures { result ≡ self.now.keeping }
    {
        self.keeping
    }

    /// The links, in order of their numbers.
    pub fn links(&self) -> &[PeerLink] {
        self.links.as_slice()
    }

    /// Returns the place of a link, if it has one.
    fn place_of(&self, id: LinkId) -> Option<usize>
        ensures { IfSome result (λ place. place < length self.now.links.items) }
    {
        let place = self.links.partition_point(|link| link.id.0 < id.0);
        let found = self.links.get(place)?;
        if found.id == id { Some(place) } else { None }
    }

    /// Returns whether a validator is behind a link.
    pub(crate) fn is_validators(&self, id: LinkId) -> bool {
        match self.place_of(id) {
            Some(place) => self.links[place].validator().is_some(),
            None => false,
        }
    }

    /// The link of this number.
    pub(crate) fn link_mut(&mut self, id: LinkId) -> Option<&mut PeerLink> {
        let place = self.place_of(id)?;
        self.links.get_mut(place)
    }

    /// Takes a link whose number none has. Where too many have shown nothing, the oldest of these is closed for it.
    pub fn open(&mut self, id: LinkId, way: Way, now: u64) -> Result<(), OpenFault> {
        if self.links.len() >= MOST_LINKS {
            return Err(OpenFault::TooMany);
        }
        let place = self.links.partition_point(|link| link.id.0 < id.0);
        self.links.insert(place, PeerLink::new(id, way, now))?;
        match way {
            Way::Accepted => self.make_room(Behind::Nobody, MOST_STRANGERS),
            Way::Dialed(validator) => {
                self.owe(id);
                self.greet(id, validator);
            }
        }
        Ok(())
    }

    /// Lets a link be closed where more than so many have this behind them: of strangers the one that was opened first, of
    /// clients the one that was silent for longest.
    fn make_room(&mut self, behind: Behind, most: usize) {
        let count = self.links.iter().filter(|link| link.has(behind)).count();
        if count <= most {
            return;
        }
        let oldest = self
            .links
            .iter_mut()
            .filter(|link| link.has(behind))
            .min_by_key(|link| link.since());
        if let Some(link) = oldest {
            link.close(Closing::Replaced);
        }
        self.is_stirred = true;
    }

    /// Has a validator's link named, and sent the own messages where links are guarded, and chooses among that validator's links.
    fn greet(&mut self, id: LinkId, validator: u16) {
        let is_guarded = self.keeping == Keeping::Guarded;
        let height = self.height;
        if let Some(link) = self.link_mut(id) {
            link.seen = height;
            link.wants_own = is_guarded;
            link.wants_name = true;
        }
        self.is_stirred = true;
        self.choose(validator);
    }

    /// Chooses the one of a validator's links that is sent what all get.
    fn choose(&mut self, validator: u16) {
        let silent = self.most_missed();
        let is_used = self.is_used(validator, silent);
        let best = best_of(&self.links, validator, silent);
        if !is_used {
            self.take_over(best);
        }
        mark_chosen(&mut self.links, validator, best);
    }

    /// Has the link at this place, which is used where none was, sent the own messages where links are guarded: what went out last may be lost.
    fn take_over(&mut self, place: Option<usize>) {
        let is_guarded = self.keeping == Keeping::Guarded;
        let Some(link) = place.and_then(|place| self.links.get_mut(place)) else {
            return;
        };
        if is_guarded && !link.is_chosen {
            link.wants_own = true;
            self.is_stirred = true;
        }
    }

    /// Returns whether a link of this validator is in use that hasn't been silent for so many seconds.
    fn is_used(&self, validator: u16, silent: u32) -> bool {
        self.links.iter().any(|link| link.is_of(validator)
            && link.is_chosen
            && !link.is_silent_for(silent))
    }

    /// Chooses anew where a link that was dialed has shown whose it is.
    fn lead(&mut self, id: LinkId) {
        let silent = self.most_missed();
        let Some(link) = self.link_mut(id) else {
            return;
        };
        if !link.is_chosen && link.leads(silent) {
            if let Some(validator) = link.validator() {
                self.choose(validator);
            }
        }
    }

    /// Returns for how many seconds a link may be silent until another one is preferred.
    fn most_missed(&self) -> u32 {
        MOST_MISSED.saturating_mul(u32::from(sixteens(self.count)))
    }

    /// Forgets a link that has ended. The next one of its validator takes its place.
    pub fn end(&mut self, id: LinkId) {
        let Some(place) = self.place_of(id) else {
            return;
        };
        let link = self.links.remove(place);
        if let Some(validator) = link.validator() {
            self.note_debt(link.way, validator, link.account());
            self.choose(validator);
        }
    }

    /// Notes that bytes came on a link.
    pub fn heard(&mut self, id: LinkId, now: u64) {
        if let Some(link) = self.link_mut(id) {
            link.heard(now);
        }
    }

    /// Notes what a frame showed of its link, and whether the node, which is in this height then, took something new from it.
    pub fn show(&mut self, id: LinkId, shown: Shown, is_news: bool, height: u64) {
        self.height = height;
        let Some(link) = self.link_mut(id) else {
            return;
        };
        let before = link.validator();
        let is_other = link.show(shown);
        let (behind, is_open) = (link.behind, link.is_open());
        let account = link.account();
        self.is_stirred = self.is_stirred || !is_open;
        if is_other {
            if let Some(validator) = before {
                self.accepted.note(validator, account);
            }
            self.owe(id);
            self.find_place(id, behind);
        }
        if let Some(validator) = before {
            if is_other || !is_open {
                self.choose(validator);
            }
        }
        self.lead(id);
        if is_news {
            self.note_news(id, shown);
        }
    }

    /// Notes what was spent on a link of this way and validator.
    fn note_debt(&mut self, way: Way, validator: u16, account: Account) {
        match way {
            Way::Dialed(_) => self.dialed.note(validator, account),
            Way::Accepted => self.accepted.note(validator, account),
        }
    }

    /// Has a link go on with what was spent on earlier ones of its way and validator.
    fn owe(&mut self, id: LinkId) {
        let Some(place) = self.place_of(id) else {
            return;
        };
        if let Some(validator) = self.links[place].validator() {
            let debt = match self.links[place].way {
                Way::Dialed(_) => self.dialed.of(validator),
                Way::Accepted => self.accepted.of(validator),
            };
            self.links[place].take_over(debt);
        }
    }

    /// Finds a place for a link that has this behind it now.
    fn find_place(&mut self, id: LinkId, behind: Behind) {
        match behind {
            Behind::Validator(validator) => {
                self.limit_accepted(validator);
                self.greet(id, validator);
            }
            Behind::Client => self.make_room(Behind::Client, self.most_clients),
            Behind::Nobody => {}
        }
    }

    /// Of more links than may that a validator dialed, lets the one be closed that brought nothing new for longest: of those that brought
    /// none, or none for eight heights, or are silent, the one that was opened first.
    fn limit_accepted(&mut self, validator: u16) {
        let count = self
            .links
            .iter()
            .filter(|link| link.is_of(validator) && !link.is_dialed())
            .count();
        if count <= self.most_accepted {
            return;
        }
        let (height, silent) = (self.height, self.most_missed());
        let oldest = self
            .links
            .iter_mut()
            .filter(|link| link.is_of(validator) && !link.is_dialed())
            .min_by_key(|link| if is_recent(link, height) {
                link.news_within(silent)
            } else {
                0
            });
        if let Some(link) = oldest {
            link.close(Closing::Replaced);
        }
        self.is_stirred = true;
    }

    /// Notes that a link brought what was new, where it came from the validator behind it.
    fn note_news(&mut self, id: LinkId, shown: Shown) {
        let news = self.news.saturating_add(1);
        let height = self.height;
        let Some(link) = self.link_mut(id) else {
            return;
        };
        let Some(validator) = link.validator() else {
            return;
        };
        if shown != Shown::Direct(validator) && shown != Shown::Passed(validator) {
            return;
        }
        link.news = news;
        link.seen = height;
        let is_chosen = link.is_chosen;
        self.news = news;
        if !is_chosen {
            self.choose(validator);
        }
    }

    /// Returns whether a link gets what all get: of open links each, else the chosen ones.
    fn gets_all(&self, link: &PeerLink) -> bool
        ensures { result ≡ gets_all self.now.keeping link.now }
    {
        link.is_open() && (self.keeping == Keeping::Open || link.is_chosen)
    }

    /// Returns the links that a frame for all goes to.
    pub(crate) fn all(&self, alloc: Global) -> Result<Vec<LinkId>, AllocError>
        ensures { IfOk result (λ ids. ids.items ≡ ids_of (gets_all self.now.keeping) self.now.links.items) }
    {
        self.links
            .iter()
            .filter(|link| self.gets_all(link))
            .map(|link| link.id)
            .collect(alloc)
    }

    /// Returns the links that a frame for all goes to, and notes that it does.
    pub fn for_all(&mut self, alloc: Global, now: u64) -> Result<Vec<LinkId>, AllocError>
        ensures { IfOk result (λ ids. ids.items ≡ ids_of (gets_all self.old.keeping) self.old.links.items) }
    {
        let ids = self.all(alloc)?;
        self.note_sent(&ids, now);
        Ok(ids)
    }

    /// Returns the links that a frame for the validators alone goes to, and notes that it does.
    pub fn for_validators(&mut self, alloc: Global, now: u64) -> Result<Vec<LinkId>, AllocError>
        ensures { IfOk result (λ ids. ids.items ≡ ids_of is_for_validators self.old.links.items) }
    {
        let ids = self.chosen(alloc)?;
        self.note_sent(&ids, now);
        Ok(ids)
    }

    /// Returns whether a link gets what is for the validators alone: the open ones that are used do.
    fn is_for_validators(&self, link: &PeerLink) -> bool
        ensures { result ≡ is_for_validators link.now }
    {
        link.is_open() && link.is_chosen
    }

    /// Returns the links that are used of validators.
    fn chosen(&self, alloc: Global) -> Result<Vec<LinkId>, AllocError>
        ensures { IfOk result (λ ids. ids.items ≡ ids_of is_for_validators self.now.links.items) }
    {
        self.links
            .iter()
            .filter(|link| self.is_for_validators(link))
            .map(|link| link.id)
            .collect(alloc)
    }

    /// Notes that a frame goes to these links.
    pub(crate) fn note_sent(&mut self, ids: &[LinkId], now: u64) {
        for id in ids {
            if let Some(link) = self.link_mut(*id) {
                link.sent(now);
            }
        }
    }

    /// Returns whether the next ask goes to a link: of open links to each, else to those that want one.
    fn gets_ask(&self, link: &PeerLink) -> bool
        ensures { result ≡ gets_ask self.now.keeping link.now }
    {
        link.is_open() && (self.keeping == Keeping::Open || link.wants_ask)
    }

    /// Returns the links that the next ask goes to.
    fn askers(&self, alloc: Global) -> Result<Vec<LinkId>, AllocError>
        ensures { IfOk result (λ ids. ids.items ≡ ids_of (gets_ask self.now.keeping) self.now.links.items) }
    {
        self.links
            .iter()
            .filter(|link| self.gets_ask(link))
            .map(|link| link.id)
            .collect(alloc)
    }

    /// Returns the links that the next ask goes to, which then want none.
    pub fn for_ask(&mut self, alloc: Global, now: u64) -> Result<Vec<LinkId>, AllocError>
        ensures { IfOk result (λ ids. ids.items ≡ ids_of (gets_ask self.old.keeping) self.old.links.items) }
    {
        let ids = self.askers(alloc)?;
        self.note_sent(&ids, now);
        for link in self.links.iter_mut() {
            link.wants_ask = false;
        }
        Ok(ids)
    }

    /// Returns the links whose peers asked for this height's bundle, and weren't sent it within the last second.
    fn waiting_for(&self, alloc: Global, height: u64, now: u64) -> Result<Vec<LinkId>, AllocError>
        ensures { IfOk result (λ ids. ids.items ≡ ids_of (gets_bundle height now) self.now.links.items) }
    {
        self.links
            .iter()
            .filter(|link| link.wants_bundle(height, now))
            .map(|link| link.id)
            .collect(alloc)
    }

    /// Returns the links whose peers asked for this height's bundle and weren't sent it within the last second, and notes that they
    /// are now.
    pub fn for_bundle(
        &mut self,
        alloc: Global,
        height: u64,
        now: u64,
    ) -> Result<Vec<LinkId>, AllocError>
        ensures { IfOk result (λ ids. ids.items ≡ ids_of (gets_bundle height now) self.old.links.items) }
    {
        let ids = self.waiting_for(alloc, height, now)?;
        for id in &ids {
            if let Some(link) = self.link_mut(*id) {
                link.answer(height, now);
            }
        }
        Ok(ids)
    }

    /// Notes that the node has made this height's bundle, of so many bytes, and charges it to the links whose asks were handed in for it.
    pub(crate) fn made(&mut self, height: u64, size: usize, now: u64) {
        let cost = cost_of_making(size, self.count);
        for link in self.links.iter_mut() {
            if link.made(height) {
                link.charge(cost, now);
            }
        }
    }

    /// Charges a bundle of so many bytes to the links that it is sent to.
    pub(crate) fn charge_sent(&mut self, ids: &[LinkId], size: usize, now: u64) {
        let cost = cost_of_sending(size, self.count);
        for id in ids {
            if let Some(link) = self.link_mut(*id) {
                link.charge(cost, now);
            }
        }
    }

    /// Returns whether more may be spent on an ask that came on this link, and names this sender: on the link itself, and where it isn't known whose it is
    /// on what that one's links before have spent.
    pub(crate) fn may_spend(&self, id: LinkId, sender: u16, now: u64) -> bool {
        let Some(place) = self.place_of(id) else {
            return true;
        };
        let link = &self.links[place];
        link.has_room(now) && (link.validator().is_some() || self.accepted.of(sender).has_room(now))
    }

    /// Returns whether the node was asked for this height's bundle and hasn't made it yet.
    pub fn is_making(&self, height: u64, now: u64) -> bool {
        self.links.iter().any(|link| link.is_making(height, now))
    }

    /// Returns whether the node was asked for this height's bundle by a known validator, and hasn't made it yet.
    pub(crate) fn is_making_known(&self, height: u64, now: u64) -> bool {
        self.links.iter().any(|link| link.validator().is_some() && link.is_making(height, now))
    }

    /// Returns whether the node was asked for any bundle by somebody of whom nothing is known, and hasn't made it yet. Somebody whose last ask was
    /// nobody's counts for such ones alone, of which this link's may be one.
    pub(crate) fn is_asked_by_strangers(&self, id: LinkId, now: u64) -> bool {
        let has_erred = self
            .place_of(id)
            .is_some_and(|place| self.links[place].has_erred());
        self.links.iter().any(|link| link.validator().is_none()
            && link.is_asking(now)
            && (has_erred || !link.has_erred()))
    }

    /// Forgives each validator that doesn't owe a bundle for too long yet, as its height has ended.
    pub(crate) fn forgive(&mut self, now: u64) {
        for link in self.links.iter_mut() {
            if !link.is_late(now) {
                link.pay();
            }
        }
    }

    /// Returns whether a link takes what others said: the chosen ones of validators do, and of open links all but those of clients.
    fn takes_repair(&self, link: &PeerLink) -> bool {
        match self.keeping {
            Keeping::Open => link.is_open() && link.behind != Behind::Client,
            Keeping::Guarded => link.is_chosen,
        }
    }

    /// Returns the next link behind this one that takes what others said, and behind the last one the first.
    pub fn next_behind(&self, id: Option<LinkId>) -> Option<LinkId> {
        let after = id.map_or(0, |id| id.0.saturating_add(1));
        let next = self
            .links
            .iter()
            .find(|link| link.id.0 >= after && self.takes_repair(link));
        let link = match next {
            Some(link) => link,
            None => self.links.iter().find(|link| self.takes_repair(link))?,
        };
        Some(link.id)
    }

    /// Has an ask go to this link.
    pub fn want_ask(&mut self, id: LinkId) {
        if let Some(link) = self.link_mut(id) {
            link.wants_ask = true;
        }
    }

    /// Has an ask go to this link, whose validator owes a bundle from now on.
    pub(crate) fn ask(&mut self, id: LinkId, now: u64) {
        if let Some(link) = self.link_mut(id) {
            link.wants_ask = true;
            link.owe(now);
        }
    }

    /// Returns the link that is used of the first validator from this one on that has one, and behind the last one the first.
    pub fn next_validator(&self, from: u16) -> Option<(LinkId, u16)> {
        self.next_used(from, None)
    }

    /// Returns the same among those that don't owe a bundle for too long now.
    pub(crate) fn next_prompt(&self, from: u16, now: u64) -> Option<(LinkId, u16)> {
        self.next_used(from, Some(now))
    }

    /// Returns the same, where a time is given among those that don't owe a bundle for too long then.
    fn next_used(&self, from: u16, prompt_at: Option<u64>) -> Option<(LinkId, u16)> {
        let used = |link: &PeerLink| link
            .validator()
            .filter(|_| link.is_chosen && !prompt_at.is_some_and(|now| link.is_late(now)))
            .map(|validator| (link.id, validator));
        let later = self
            .links
            .iter()
            .filter_map(used)
            .filter(|next| next.1 >= from)
            .min_by_key(|next| next.1);
        later.or_else(|| self.links.iter().filter_map(used).min_by_key(|next| next.1))
    }

    /// Has an ask go to each validator.
    pub fn want_asks(&mut self) {
        for link in self.links.iter_mut() {
            if link.is_chosen {
                link.wants_ask = true;
            }
        }
    }

    /// Returns the links of validators on which nothing was sent for a while, and notes that something is now.
    pub fn quiet(&mut self, alloc: Global, now: u64) -> Result<Vec<LinkId>, AllocError> {
        let pause = self.most_quiet();
        let ids: Vec<LinkId> = self
            .links
            .iter()
            .filter(|link| link.is_quiet(now, pause))
            .map(|link| link.id)
            .collect(alloc)?;
        self.note_sent(&ids, now);
        Ok(ids)
    }

    /// Has an ask go to each validator's link on which nothing was sent for a while, and returns whether there is one.
    pub fn beat(&mut self, now: u64) -> bool {
        let pause = self.most_quiet();
        let mut any = false;
        for link in self.links.iter_mut() {
            if link.is_quiet(now, pause) {
                link.wants_ask = true;
                any = true;
            }
        }
        any
    }

    /// Notes that a second passed, and lets the links of validators be closed that are silent. Their next ones take their places.
    pub fn close_silent(&mut self) {
        for link in self.links.iter_mut() {
            link.tick();
        }
        if self.close_silent_for(self.most_silent()) {
            self.is_stirred = true;
        }
        self.choose_all();
    }

    /// Returns for how many seconds a link of a validator may be silent now. Where more than half are silent, and not just a few,
    /// all have more to do than they get done, and closing their links would give them more.
    fn most_silent(&self) -> u32 {
        let most = MOST_SILENT.saturating_mul(u32::from(sixteens(self.count)));
        let all = self.count_silent_for(0);
        let silent = self.count_silent_for(most);
        if silent >= MANY_SILENT && silent > all / 2 {
            most.max(MOST_SILENT_TOGETHER)
        } else {
            most
        }
    }

    /// Returns for how long nothing may be sent on a link of a validator, in milliseconds.
    fn most_quiet(&self) -> u64 {
        MOST_QUIET_MS.saturating_mul(u64::from(sixteens(self.count)))
    }

    fn count_silent_for(&self, seconds: u32) -> usize {
        self.links
            .iter()
            .filter(|link| link.is_silent_for(seconds))
            .count()
    }

    /// Lets the links of validators be closed that are silent for so many seconds, and returns whether there is one.
    fn close_silent_for(&mut self, seconds: u32) -> bool {
        let mut any = false;
        for link in self.links.iter_mut() {
            if link.is_silent_for(seconds) {
                link.close(Closing::Silent);
                any = true;
            }
        }
        any
    }

    /// Chooses among the links of each validator.
    fn choose_all(&mut self) {
        for validator in 0..self.count {
            self.choose(validator);
        }
    }

    /// Returns the next link that is to be closed and wasn't given yet, and why.
    pub fn next_closing(&mut self) -> Option<(LinkId, Closing)> {
        if !self.is_stirred {
            return None;
        }
        let link = self
            .links
            .iter_mut()
            .find(|link| link.closing.is_some() && !link.is_over)?;
        link.is_over = true;
        Some((link.id, link.closing?))
    }

    /// Returns the next link behind which a validator is that wasn't given yet, and which.
    pub fn next_met(&mut self) -> Option<(LinkId, u16)> {
        if !self.is_stirred {
            return None;
        }
        let link = self
            .links
            .iter_mut()
            .find(|link| link.wants_name && link.is_open())?;
        link.wants_name = false;
        Some((link.id, link.validator()?))
    }

    /// Returns the next link that the own messages of the height go to, since it has opened. Where there is none, nothing is to be done
    /// with any link.
    pub fn next_greeted(&mut self) -> Option<LinkId> {
        if !self.is_stirred {
            return None;
        }
        let found = self
            .links
            .iter_mut()
            .find(|link| link.is_open() && link.wants_own);
        let Some(link) = found else {
            self.is_stirred = false;
            return None;
        };
        link.wants_own = false;
        Some(link.id)
    }

    /// Returns whether a link to this validator is open that is enough: the one that was dialed and, where it is for the other one to dial,
    /// also one that showed it, or brought something new of it, no more than eight heights ago.
    pub fn is_linked(&self, validator: u16, is_theirs: bool) -> bool {
        self.links.iter().any(|link| link.is_of(validator)
            && (link.is_dialed() || (is_theirs && is_recent(link, self.height))))
    }
}

/// Returns whether it counts yet in this height that the link brought something new, or that its validator was found behind it.
fn is_recent(link: &PeerLink, height: u64) -> bool {
    height.saturating_sub(link.seen) < MOST_HEIGHTS
}
