//! One link, and who is behind it as far as it has shown.

ghost use Rattle.std.specs.Prelude.{◌≡◌, Some, None};
ghost use Rattle.peer_core.specs.Choosing.{is_open, behind_after, behind_by, gets_bundle, was_sent, sent_at};
ghost use Rattle.peer_core.specs.Efforts.{has_room, charged, later};

use crate::duty::Closing;
use crate::efforts::Account;
use edge_frames::LinkId;
use peer_links::Way;

/// How many frames in a row that are of no use close a link.
const MOST_USELESS: u32 = 1_000;

/// How often another one may be found behind a link: first whom somebody's frame names that was passed on, then whose link it is. What is
/// found more often is a game, in which each turn would be greeted and logged.
const MOST_TURNS: u32 = 4;

/// For how many seconds a link of a validator may be silent for each sixteen validators, as this validator sees them pass.
pub(crate) const MOST_SILENT: u32 = 10;

/// How long nothing is sent on a link of a validator for each sixteen validators until it is sent an ask, in milliseconds: often enough
/// that its other end doesn't take it for silent.
pub(crate) const MOST_QUIET_MS: u64 = 3_000;

/// How long a height that a link was sent a bundle of isn't answered again on it, in milliseconds.
pub(crate) const AGAIN_MS: u64 = 1_000;

/// For how long a node that was asked for a bundle isn't asked for it again unless it has made it, in milliseconds. A machine that has much
/// to do makes one in seconds, at 128 validators, and one for each second of them would take it over.
const MAKING_MS: u64 = 60_000;

/// How long a validator may owe a bundle that it was asked for until others are asked before it, in milliseconds.
const MOST_OWED_MS: u64 = 1_000;

/// After how long one that owes a bundle is asked as any other, in milliseconds: it may have been cut off, or behind itself.
const FORGIVEN_MS: u64 = 60_000;

/// Who is behind a link. It is learned and never trusted: it decides only what is worth sending.
#[derive(Clone, Copy, Debug, PartialEq, Eq)]
pub enum Behind {
    /// Nobody has shown.
    Nobody,
    /// A client, of which a transaction was taken or was known already.
    Client,
    /// A validator: the one whose address was dialed, or else who sent the last ask or bundle, or the first other frame.
    Validator(u16),
}

/// What a frame showed of the link that it came on.
#[derive(Clone, Copy, Debug, PartialEq, Eq)]
pub enum Shown {
    /// An ask or a bundle of this validator, which nobody passes on.
    Direct(u16),
    /// A proposal or a vote of this validator, which another may have passed on.
    Passed(u16),
    /// A transaction of a client.
    Client,
    /// Nothing: it can't be read, or its tags are wrong.
    Nothing,
}

impl Shown {
    /// The validator that said what the frame says.
    pub(crate) fn sender(self) -> Option<u16> {
        match self {
            Shown::Direct(validator) | Shown::Passed(validator) => Some(validator),
            Shown::Client | Shown::Nothing => None,
        }
    }
}

/// A bundle that was sent on a link, or asked for.
#[derive(Clone, Copy, Debug)]
struct Answered {
    height: u64,
    at: u64,
}

/// A link that is open, or closing.
#[derive(Clone, Copy, Debug)]
pub struct PeerLink {
    pub id: LinkId,
    pub way: Way,
    pub behind: Behind,
    /// When the link was opened.
    pub opened: u64,
    /// Which of all frames that were new to the node was the last one that came here from the validator behind it; 0 where none was.
    pub news: u64,
    /// The own height when the validator was found behind it, or when it last brought something new of that one.
    pub(crate) seen: u64,
    /// Whether it is the one of its validator's links that is sent what all get.
    pub is_chosen: bool,
    /// Whether the next ask that the node releases goes here.
    pub wants_ask: bool,
    /// Whether the own messages of the height go here, since it has opened.
    pub wants_own: bool,
    /// Whether the validator behind it wasn't given yet.
    pub wants_name: bool,
    /// Whether a frame of the validator behind it came on it.
    pub has_shown: bool,
    /// How often another one was found behind it.
    turns: u32,
    /// Why it is to be closed.
    pub closing: Option<Closing>,
    /// Whether its closing was given as a duty.
    pub is_over: bool,
    heard: u64,
    /// How many ticks passed since something came.
    silent: u32,
    sent: u64,
    useless: u32,
    /// The height whose bundle the peer asked for and wasn't sent.
    asked: Option<u64>,
    /// The height that the peer asked for last, and when it did so first.
    asked_first: Option<Answered>,
    answered: Option<Answered>,
    /// The last bundle that the node was asked for, as the peer asks.
    making: Option<Answered>,
    /// Whether the last ask that came here was nobody's.
    has_erred: bool,
    /// What was spent on asks that came here.
    account: Account,
    /// Since when its validator hasn't answered an ask of this one by a bundle.
    owes_since: Option<u64>,
}

impl PeerLink {
    /// A link that was opened now.
    pub(crate) fn new(id: LinkId, way: Way, now: u64) -> PeerLink {
        let behind = match way {
            Way::Dialed(validator) => Behind::Validator(validator),
            Way::Accepted => Behind::Nobody,
        };
        PeerLink {
            id,
            way,
            behind,
            opened: now,
            news: 0,
            seen: 0,
            is_chosen: false,
            wants_ask: false,
            wants_own: false,
            wants_name: false,
            has_shown: false,
            turns: 0,
            closing: None,
            is_over: false,
            heard: now,
            silent: 0,
            sent: now,
            useless: 0,
            asked: None,
            asked_first: None,
            answered: None,
            making: None,
            has_erred: false,
            account: Account::NEW,
            owes_since: None,
        }
    }

    /// Returns whether it is neither closed nor to be closed.
    pub fn is_open(&self) -> bool
        ensures { result ≡ is_open self.now }
    {
        self.closing.is_none()
    }

    /// Returns whether its address was dialed.
    pub fn is_dialed(&self) -> bool {
        matches!(self.way, Way::Dialed(_))
    }

    /// Returns whether it is the way to its validator: its address was dialed, and what is there has said something of that validator's, and not
    /// been silent for so many seconds.
    pub(crate) fn leads(&self, silent: u32) -> bool {
        self.is_dialed() && self.has_shown && self.silent < silent
    }

    /// Which of all frames that were new was the last one that came here; 0 where none was, or where it is silent for so many seconds.
    pub(crate) fn news_within(&self, silent: u32) -> u64 {
        if self.silent < silent { self.news } else { 0 }
    }

    /// Returns the validator behind it, if one is.
    pub fn validator(&self) -> Option<u16> {
        match self.behind {
            Behind::Validator(validator) => Some(validator),
            Behind::Nobody | Behind::Client => None,
        }
    }

    /// Returns whether it is open and has this behind it.
    pub fn has(&self, behind: Behind) -> bool {
        self.is_open() && self.behind == behind
    }

    /// Returns since when it has no more right to its place: a client since it was heard last, another one since it was opened.
    pub(crate) fn since(&self) -> u64 {
        match self.behind {
            Behind::Client => self.heard,
            Behind::Nobody | Behind::Validator(_) => self.opened,
        }
    }

    /// Returns whether it is open and this validator is behind it.
    pub fn is_of(&self, validator: u16) -> bool {
        self.has(Behind::Validator(validator))
    }

    /// Notes that bytes came.
    pub(crate) fn heard(&mut self, now: u64) {
        self.heard = now;
        self.silent = 0;
    }

    /// Notes that a frame is queued for it.
    pub(crate) fn sent(&mut self, now: u64) {
        self.sent = now;
    }

    /// Notes that a second passed. One in which this validator stood still, or came to nothing, counts once, however long it was.
    pub(crate) fn tick(&mut self) {
        self.silent = self.silent.saturating_add(1);
    }

    /// Returns whether a validator is behind it that has said nothing for so many seconds.
    pub(crate) fn is_silent_for(&self, seconds: u32) -> bool {
        self.is_open() && self.validator().is_some() && self.silent >= seconds
    }

    /// Returns whether a validator is behind it that was sent nothing for so many milliseconds.
    pub(crate) fn is_quiet(&self, now: u64, pause: u64) -> bool {
        self.is_open() && self.validator().is_some() && now.saturating_sub(self.sent) >= pause
    }

    /// Lets it be closed, for the first cause that comes.
    pub(crate) fn close(&mut self, closing: Closing)
        ensures { self.new.behind ≡ self.old.behind }
    {
        if self.closing.is_none() {
            self.closing = Some(closing);
        }
        self.is_chosen = false;
    }

    /// Returns who is behind it once a frame has shown this.
    fn behind_after(&self, shown: Shown) -> Behind
        ensures { result ≡ behind_after shown self.now.behind }
    {
        match (shown, self.behind) {
            (Shown::Direct(validator), _) => Behind::Validator(validator),
            (Shown::Passed(validator), Behind::Nobody | Behind::Client) => {
                Behind::Validator(validator)
            }
            (Shown::Client, Behind::Nobody) => Behind::Client,
            (_, behind) => behind,
        }
    }

    /// Returns who is behind it once a frame has shown this: where it was dialed, whose address that is.
    fn behind_by(&self, shown: Shown) -> Behind
        ensures { result ≡ behind_by self.now.way shown self.now.behind }
    {
        match self.way {
            Way::Dialed(_) => self.behind,
            Way::Accepted => self.behind_after(shown),
        }
    }

    /// Notes what a frame showed, and returns whether another one is behind it now. Too many frames in a row that show nothing
    /// let it be closed, and so do too many turns.
    pub(crate) fn show(&mut self, shown: Shown) -> bool
        ensures { self.new.behind ≡ behind_by self.old.way shown self.old.behind }
    {
        let is_turned = self.turn(self.behind_by(shown));
        self.count_useless(shown);
        self.has_shown |= shown.sender().is_some_and(|sender| self.is_of(sender));
        is_turned
    }

    /// Counts the frames in a row that show nothing.
    fn count_useless(&mut self, shown: Shown)
        ensures { self.new.behind ≡ self.old.behind }
    {
        if shown != Shown::Nothing {
            self.useless = 0;
            return;
        }
        self.useless = self.useless.saturating_add(1);
        if self.useless >= MOST_USELESS {
            self.close(Closing::Useless);
        }
    }

    /// Notes who is behind it, and returns whether that is another one than before.
    fn turn(&mut self, behind: Behind) -> bool
        ensures { self.new.behind ≡ behind }
    {
        if behind == self.behind {
            return false;
        }
        self.behind = behind;
        self.news = 0;
        self.has_shown = false;
        self.turns = self.turns.saturating_add(1);
        if self.turns > MOST_TURNS {
            self.close(Closing::Useless);
        }
        true
    }

    /// Notes that the peer asks for this height.
    pub(crate) fn ask(&mut self, height: u64, now: u64) {
        self.asked = Some(height);
        if self.asked_first.is_none_or(|asked| asked.height != height) {
            self.asked_first = Some(Answered { height, at: now });
        }
    }

    /// Returns for how long the peer has asked for what it asked for last, in milliseconds.
    pub(crate) fn asked_for(&self, now: u64) -> u64 {
        self.asked_first
            .map_or(0, |asked| now.saturating_sub(asked.at))
    }

    /// Returns whether the node was asked for this height's bundle within the last minute, as the peer asks, and hasn't made it yet. Where the
    /// last ask that came here was nobody's, the next one may be, too.
    pub(crate) fn is_making(&self, height: u64, now: u64) -> bool {
        !self.has_erred
            && self.is_asking(now)
            && self.making.is_some_and(|making| making.height == height)
    }

    /// Returns whether the node was asked for any bundle within the last minute, as the peer asks, and hasn't made it yet.
    pub(crate) fn is_asking(&self, now: u64) -> bool {
        let is_lately = |making: Answered| now.saturating_sub(making.at) < MAKING_MS;
        self.making.is_some_and(is_lately)
    }

    /// Returns whether the last ask that came here was nobody's.
    pub(crate) fn has_erred(&self) -> bool {
        self.has_erred
    }

    /// Notes that the node has made this height's bundle, and returns whether the peer's ask had it made.
    pub(crate) fn made(&mut self, height: u64) -> bool {
        let is_for = self.making.is_some_and(|making| making.height == height);
        if is_for {
            self.making = None;
        }
        is_for
    }

    /// Notes that the node is asked for this height's bundle.
    pub(crate) fn make(&mut self, height: u64, now: u64) {
        self.making = Some(Answered { height, at: now });
    }

    /// Notes that the node has answered an ask that came here, and forgets what the peer asked for where it refused it. An ask that has shown nobody
    /// was nobody's.
    pub(crate) fn answered_ask(&mut self, is_taken: bool, shown: Shown) {
        self.making = None;
        self.has_erred = shown == Shown::Nothing;
        if !is_taken {
            self.asked = None;
        }
    }

    /// Returns what was spent on asks that came here.
    pub(crate) fn account(&self) -> Account
        ensures { result ≡ self.now.account }
    {
        self.account
    }

    /// Returns whether more may be spent on asks that come here.
    pub(crate) fn has_room(&self, now: u64) -> bool
        ensures { result ≡ has_room self.now.account now }
    {
        self.account.has_room(now)
    }

    /// Charges so many milliseconds of its share.
    pub(crate) fn charge(&mut self, milliseconds: u64, now: u64)
        ensures { self.new ≡ record self.old { account = charged self.old.account milliseconds now } }
    {
        self.account.charge(milliseconds, now);
    }

    /// Goes on with what was spent on another link, where that is more.
    pub(crate) fn take_over(&mut self, debt: Account)
        ensures { self.new ≡ record self.old { account = later self.old.account debt } }
    {
        self.account = self.account.later(debt);
    }

    /// Notes that its validator is asked, which owes a bundle from now on, or for longer.
    pub(crate) fn owe(&mut self, now: u64) {
        if self.owed_for(now) >= FORGIVEN_MS {
            self.owes_since = None;
        }
        self.owes_since = self.owes_since.or(Some(now));
    }

    /// Notes that its validator owes nothing: a bundle of its decided a height, or that has ended in time.
    pub(crate) fn pay(&mut self) {
        self.owes_since = None;
    }

    /// Returns for how long its validator has owed a bundle, in milliseconds.
    fn owed_for(&self, now: u64) -> u64 {
        self.owes_since.map_or(0, |since| now.saturating_sub(since))
    }

    /// Returns whether its validator has owed a bundle for too long, and not so long that it is asked again.
    pub(crate) fn is_late(&self, now: u64) -> bool {
        let owed = self.owed_for(now);
        owed >= MOST_OWED_MS && owed < FORGIVEN_MS
    }

    /// Returns whether this height's bundle goes here: the peer asked for it, and wasn't sent it within the last second.
    pub fn wants_bundle(&self, height: u64, now: u64) -> bool
        ensures { result ≡ gets_bundle height now self.now }
    {
        self.is_open() && self.asked == Some(height) && !self.was_sent(height, now)
    }

    /// Returns whether this height's bundle was sent here within the last second.
    fn was_sent(&self, height: u64, now: u64) -> bool
        ensures { result ≡ was_sent height now self.now.answered }
    {
        match self.answered {
            Some(answered) => {
                answered.height == height && now.saturating_sub(answered.at) < AGAIN_MS
            }
            None => false,
        }
    }

    /// Notes that this height's bundle is sent here.
    pub(crate) fn answer(&mut self, height: u64, now: u64)
        ensures { self.new ≡ record self.old { sent = now; asked = None; answered = Some (sent_at height now) } }
    {
        self.sent = now;
        self.asked = None;
        self.answered = Some(Answered { height, at: now });
    }
}
