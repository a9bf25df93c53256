//! When an address is dialed.

ghost use Rattle.std.specs.Prelude.{◌≡◌, ◌≢◌, ◌<◌, IfSome};

use crate::manner::{Keeping, Manner};
use crate::ticking::{MOST_SMALL, sixteens};
use powers::MOST_VALIDATORS;

/// How many times its first value the pause before an address is dialed again has at most.
const MOST_PAUSES: u64 = 32;

/// What is known of dialing one address.
#[derive(Clone, Copy, Debug)]
struct Address {
    /// From when on it may be dialed; none where it isn't any more.
    due: Option<u64>,
    /// How long it isn't dialed after the next failure.
    pause: u64,
}

/// The addresses of the other validators, and when each is dialed next.
///
/// With open links each is dialed once. With guarded ones an address to which there is no link that is enough is dialed again after
/// a pause, which doubles with each failure in a row. A little is added to it, so that validators that were cut off together don't dial all at
/// once.
///
/// In a large cluster with guarded links each validator dials the half of the others that follow it, and the other half only where they
/// haven't dialed it for longer: one link for each pair takes half of the threads and places that two take.
#[derive(Debug, Drop)]
pub struct Redial {
    me: u16,
    count: u16,
    is_guarded: bool,
    first: u64,
    /// From which validator on it is looked for the next one.
    from: u16,
    addresses: [Address; MOST_VALIDATORS],
}

impl Redial {
    /// All addresses but the own one are to be dialed: at once, or behind a pause from now on where others dial first.
    pub fn new(me: u16, count: u16, manner: Manner, now: u64) -> Redial {
        let mut redial = Redial {
            me,
            count,
            is_guarded: manner.keeping == Keeping::Guarded,
            first: manner.redial,
            from: 0,
            addresses: [Address {
                due: Some(0),
                pause: manner.redial,
            }; MOST_VALIDATORS],
        };
        for validator in 0..count {
            if redial.is_dialed_by(validator) {
                redial.linked(validator, now);
            }
        }
        redial
    }

    /// Returns whether another validator dials this one first, in a large cluster with guarded links: it is in the half of the others
    /// that this one follows.
    pub(crate) fn is_dialed_by(&self, validator: u16) -> bool {
        let ahead = if validator >= self.me {
            validator - self.me
        } else {
            self.count.saturating_sub(self.me - validator)
        };
        self.is_guarded && self.count > MOST_SMALL && ahead > self.count / 2
    }

    /// Returns how long an address isn't dialed that has a link, or may get one: the first pause, or as many of them as there are sixteens of validators
    /// where the other one dials first, as it takes so much longer until all of a large cluster have links.
    fn pause_of(&self, validator: u16) -> u64 {
        if self.is_dialed_by(validator) {
            self.first.saturating_mul(u64::from(sixteens(self.count)))
        } else {
            self.first
        }
    }

    /// Returns which validator this one is.
    pub fn me(&self) -> u16 {
        self.me
    }

    /// Returns how many validators there are.
    pub fn count(&self) -> u16 {
        self.count
    }

    /// Returns the next validator behind the last one whose address is due, and has it due no more until it was dialed. So addresses that take
    /// long to be dialed leave all others their turn.
    pub fn next(&mut self, now: u64) -> Option<u16>
        ensures other { IfSome result (λ validator. validator ≢ self.old.me) }
        ensures known { IfSome result (λ validator. validator < self.old.count) }
    {
        let (me, count) = (self.me, self.count);
        for validator in (self.from..count).chain(0..self.from) {
            if validator != me && validator < count && self.take_due(validator, now) {
                self.from = validator + 1;
                return Some(validator);
            }
        }
        None
    }

    /// Returns whether a validator's address may be dialed now, and has it due no more.
    fn take_due(&mut self, validator: u16, now: u64) -> bool {
        let Some(address) = self.addresses.get_mut(usize::from(validator)) else {
            return false;
        };
        let is_due = address.due.is_some_and(|due| due <= now);
        if is_due {
            address.due = None;
        }
        is_due
    }

    /// Has an address looked at again after a pause, since a link to it is open, or may be soon.
    pub fn linked(&mut self, validator: u16, now: u64) {
        let pause = self.pause_of(validator);
        if let Some(address) = self.addresses.get_mut(usize::from(validator)) {
            address.pause = self.first;
            address.due = due_after(self.is_guarded, now, pause);
        }
    }

    /// Notes that an address couldn't be reached.
    pub fn failed(&mut self, validator: u16, now: u64) {
        let most = self.first.saturating_mul(MOST_PAUSES);
        let jitter = self.jitter(validator);
        if let Some(address) = self.addresses.get_mut(usize::from(validator)) {
            let pause = address.pause.saturating_add(jitter);
            address.due = due_after(self.is_guarded, now, pause);
            address.pause = address.pause.saturating_mul(2).min(most);
        }
    }

    /// Returns what is added to a pause: up to an eighth of the first one, another for each pair.
    fn jitter(&self, validator: u16) -> u64 {
        let pair = u64::from(self.me) * 31 + u64::from(validator) * 17;
        (self.first / 8).saturating_mul(pair % 8) / 8
    }
}

/// Returns when an address is due behind a pause; with open links it is no more.
fn due_after(is_guarded: bool, now: u64, pause: u64) -> Option<u64> {
    if is_guarded {
        Some(now.saturating_add(pause))
    } else {
        None
    }
}
