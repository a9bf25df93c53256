//! When a height is held open, since nothing waits anywhere.

ghost use Rattle.std.specs.Prelude.{◌≡◌, ◌+◌, None, true, false, if◌then◌else◌};
ghost use Rattle.peer_core.specs.Resting.{rests, wait_of, is_held, holding, woken, stirred, is_drowsy, is_far, timeout_in, due_in, is_due, is_below, ends_by, without};

use protocol::{Step, Timeout};

/// A propose timeout that waits to be scheduled.
#[derive(Clone, Copy, Debug)]
struct HeldTimeout {
    timeout: Timeout,
    /// Until when, if nothing wakes the validator.
    due: u64,
}

/// Whether a validator rests.
///
/// At rest a proposer keeps back its proposal of no transactions, and the others don't begin to wait for it. A transaction that is
/// accepted, and a proposal of some, wake a validator: it then stays awake for as many heights as there are validators, and as long
/// as a transaction that it accepted may wait. Any other frame that no idle height brings stirs it: it is awake for this height.
#[derive(Clone, Copy, Debug)]
pub struct Rest {
    /// How long a height is held open, in milliseconds; with 0 none is.
    longest: u64,
    /// For how many heights a validator that woke stays awake.
    heights: u64,
    /// The height from which on it rests.
    awake_until: u64,
    /// Whether a transaction was accepted since it had nothing to propose.
    may_have: bool,
    held: Option<HeldTimeout>,
}

impl Rest {
    /// One of so many validators, which holds a height open for so long.
    pub fn new(longest: u64, count: u16) -> Rest
        ensures { result ≡ record { longest = longest; heights = count + 1; awake_until = 0; may_have = false; held = None } }
    {
        Rest {
            longest,
            heights: u64::from(count) + 1,
            awake_until: 0,
            may_have: false,
            held: None,
        }
    }

    /// Returns whether it rests in this height.
    pub fn rests(&self, height: u64) -> bool
        ensures { result ≡ rests self.now height }
    {
        self.longest > 0 && !self.may_have && height >= self.awake_until
    }

    /// Returns how long an own proposal of no transactions of this height waits, where it would wait so long awake.
    pub fn wait_of(&self, height: u64, idle: u64) -> u64
        ensures { result ≡ wait_of self.now height idle }
    {
        if self.rests(height) {
            self.longest.max(idle)
        } else {
            idle
        }
    }

    /// Takes the propose timeout of a height's first round where the validator rests, and returns whether it did.
    pub fn hold(&mut self, timeout: Timeout, now: u64) -> bool
        ensures answer { result ≡ is_held self.old timeout }
        ensures held { self.new ≡ holding self.old timeout now }
    {
        let is_first = timeout.kind == Step::Propose && timeout.round == 0;
        if !is_first || !self.rests(timeout.height) {
            return false;
        }
        self.held = Some(HeldTimeout {
            timeout,
            due: now.saturating_add(self.longest),
        });
        true
    }

    /// Keeps the validator awake, which is in this height.
    pub fn wake(&mut self, height: u64)
        ensures { self.new ≡ woken self.old height }
    {
        self.awake_until = self.awake_until.max(height.saturating_add(self.heights));
    }

    /// Keeps the validator awake in this height.
    pub fn stir(&mut self, height: u64)
        ensures { self.new ≡ stirred self.old height }
    {
        self.awake_until = self.awake_until.max(height.saturating_add(1));
    }

    /// Returns whether it would rest in this height, or before half of the validators had their turns, if no transaction waited.
    pub fn is_drowsy(&self, height: u64) -> bool
        ensures { result ≡ is_drowsy self.now height }
    {
        self.longest > 0 && self.awake_until <= height.saturating_add(self.heights / 2)
    }

    /// Returns whether it doesn't stay awake for so many heights.
    pub fn is_far(&self, count: u64) -> bool
        ensures { result ≡ is_far self.now count }
    {
        count >= self.heights
    }

    /// Notes that a transaction was accepted, so that one may wait.
    pub fn accepted(&mut self)
        ensures { self.new ≡ record self.old { may_have = true } }
    {
        self.may_have = true;
    }

    /// Notes that the validator proposed no transactions: none waits.
    pub fn proposed_none(&mut self)
        ensures { self.new ≡ record self.old { may_have = false } }
    {
        self.may_have = false;
    }

    /// Returns whether what waits no longer has to behind a frame of this height, which says that its height goes on. A timeout that waits
    /// may be of the next height already, as the node is told of a frame before its answer is looked at here: then that height may rest.
    pub fn ends_by(&self, height: u64) -> bool
        ensures { result ≡ ends_by self.now height }
    {
        let Some(held) = self.held else {
            return true;
        };
        held.timeout.height <= height || !self.rests(held.timeout.height)
    }

    /// Gives the timeout that waits, whenever it is due.
    pub fn take(&mut self) -> Option<Timeout>
        ensures given { result ≡ timeout_in self.old.held }
        ensures empty { self.new ≡ without self.old }
    {
        let held = self.held.take()?;
        Some(held.timeout)
    }

    /// Gives the timeout that waits, where its height was held open for long enough.
    pub fn take_due(&mut self, now: u64) -> Option<Timeout>
        ensures given { result ≡ (if is_due now self.old.held then timeout_in self.old.held else None) }
        ensures left { self.new ≡ (if is_due now self.old.held then without self.old else self.old) }
    {
        let held = self.held?;
        if held.due > now {
            return None;
        }
        self.take()
    }

    /// Forgets a timeout of a height below this one.
    pub fn forget_below(&mut self, height: u64)
        ensures { self.new ≡ (if is_below height self.old.held then without self.old else self.old) }
    {
        if self.held.is_some_and(|held| held.timeout.height < height) {
            self.held = None;
        }
    }

    /// Returns when the timeout that waits is due, if one does.
    pub fn next_due(&self) -> Option<u64>
        ensures { result ≡ due_in self.now.held }
    {
        let held = self.held?;
        Some(held.due)
    }
}
