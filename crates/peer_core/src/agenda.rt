//! What a tick has to be done, until it was given as a duty.

/// How often a node settles, and its edge looks what is to be repaired, in milliseconds.
pub const TICK_MS: u64 = 1_000;

/// How long the pause grows before the own messages are sent again, in milliseconds.
const LONGEST_BEFORE_AGAIN_MS: u64 = 32_000;

/// How long the pause grows before one more validator is asked, in milliseconds: some of those that were asked may be cut off.
const LONGEST_BEFORE_ASK_MS: u64 = 8_000;

/// Pauses that double, from a second on, until something moves.
#[derive(Clone, Copy, Debug)]
struct Pauses {
    /// When this one is over.
    at: u64,
    pause: u64,
    longest: u64,
}

impl Pauses {
    /// The first one begins now, and the longest one takes so long.
    fn new(now: u64, longest: u64) -> Pauses {
        Pauses {
            at: now.saturating_add(TICK_MS),
            pause: TICK_MS,
            longest,
        }
    }

    /// Returns whether this one is over now. Then the next one begins.
    fn next(&mut self, now: u64) -> bool {
        if now < self.at {
            return false;
        }
        self.pause = self.pause.saturating_mul(2).min(self.longest);
        self.at = now.saturating_add(self.pause);
        true
    }
}

/// What is to be done, and when the next tick is.
#[derive(Clone, Copy, Debug)]
pub(crate) struct Agenda {
    /// When the next tick is.
    pub(crate) tick: u64,
    pub(crate) settles: bool,
    pub(crate) resends: bool,
    pub(crate) asks: bool,
    /// Whether an own message was lost for want of memory.
    pub(crate) unsent: bool,
    /// The pauses before the own messages are sent again.
    again: Pauses,
    /// The pauses before one more validator is asked.
    asking: Pauses,
}

impl Agenda {
    /// The first tick is a second from now. Where own messages of before are wanted they are released at once.
    pub(crate) fn new(now: u64, resends: bool) -> Agenda {
        Agenda {
            tick: now.saturating_add(TICK_MS),
            settles: false,
            resends,
            asks: false,
            unsent: false,
            again: Pauses::new(now, LONGEST_BEFORE_AGAIN_MS),
            asking: Pauses::new(now, LONGEST_BEFORE_ASK_MS),
        }
    }

    /// Returns whether it is time for a tick, and sets the next one.
    pub(crate) fn ticks(&mut self, now: u64) -> bool {
        if now < self.tick {
            return false;
        }
        self.tick = now.saturating_add(TICK_MS);
        true
    }

    /// Returns whether the own messages are sent again now, and doubles the pause until they are the next time.
    pub(crate) fn sends_again(&mut self, now: u64) -> bool {
        self.again.next(now)
    }

    /// Returns whether one more validator is asked now, and doubles the pause until the next one is.
    pub(crate) fn asks_more(&mut self, now: u64) -> bool {
        self.asking.next(now)
    }

    /// Begins with the shortest pause again, since an own message goes out.
    pub(crate) fn moved(&mut self, now: u64) {
        self.again = Pauses::new(now, LONGEST_BEFORE_AGAIN_MS);
    }

    /// Begins with the shortest pauses again, since another height has come.
    pub(crate) fn advanced(&mut self, now: u64) {
        self.again = Pauses::new(now, LONGEST_BEFORE_AGAIN_MS);
        self.asking = Pauses::new(now, LONGEST_BEFORE_ASK_MS);
    }
}

/// Returns whether a flag is set, and clears it.
pub(crate) fn take(flag: &mut bool) -> bool {
    let was = *flag;
    *flag = false;
    was
}
