//! When a node that is behind asks for what was decided.

ghost use Rattle.std.specs.Prelude.{◌≡◌, ◌+◌, ◌-◌, ◌≤◌, ◌<◌, true, false, nat_le, nat_lt, ◌&&◌};
ghost use Rattle.edge_frames.specs.Behind.{sight, with_seen, with_own};

use std::marker::Model;

/// What a node has seen of the heights above its own, and whether it asked.
///
/// A frame of the next height alone says little: validators don't decide at the same moment. So a
/// node waits for a moment where it is one height behind, and asks at once where it is two or more
/// behind, and after each decision until it has caught up. It asks once in each of its heights; that
/// an ask or its answer may be lost is the timer's affair, which asks each second.
#[derive(Debug, Drop)]
pub struct CatchUp {
    moment: u64,
    highest: u64,
    since: u64,
    has_asked: bool,
    is_catching_up: bool,
}

impl Model for CatchUp {
    ghost use Rattle.edge_frames.specs.Behind.{Sight, sight};

    ghost Value = { Sight };

    ghost view = { λ a. sight a.moment a.highest a.since a.has_asked a.is_catching_up };
}

impl CatchUp {
    /// Nothing was seen yet. `moment` is how many milliseconds a node waits where it is one height
    /// behind.
    pub fn new(moment: u64) -> CatchUp
        ensures { result ≡ sight moment 0 0 false false }
    {
        CatchUp {
            moment,
            highest: 0,
            since: 0,
            has_asked: false,
            is_catching_up: false,
        }
    }

    /// Notes that a frame of this height, which the node admitted, came now.
    pub fn saw(&mut self, height: u64, now: u64)
        ensures { self.new ≡ with_seen self.old height now }
    {
        if height > self.highest {
            self.highest = height;
            self.since = now;
        }
    }

    /// Notes that the node asked since `should_ask` said so. What the timer asks isn't noted: it comes
    /// also where the node is behind nobody.
    pub fn asked(&mut self)
        ensures { self.new ≡ record self.old { asked = true; catching_up = true } }
    {
        self.has_asked = true;
        self.is_catching_up = true;
    }

    /// Notes that the node decided, and is in the height `own` now.
    pub fn advanced(&mut self, own: u64)
        ensures { self.new ≡ with_own self.old own }
    {
        self.has_asked = false;
        self.is_catching_up = self.is_catching_up && own < self.highest;
    }

    /// Returns whether a frame of a height above `own` came.
    pub fn is_behind(&self, own: u64) -> bool
        ensures { result ≡ nat_lt own self.now.highest }
    {
        own < self.highest
    }

    /// Whether a node in the height `own` asks now.
    pub fn should_ask(&self, own: u64, now: u64) -> bool
        ensures asked { self.now.asked ≡ true → result ≡ false }
        ensures level { self.now.highest ≤ own → result ≡ false }
        // One behind it waits for a moment, unless it is catching up.
        ensures one { self.now.asked ≡ false → self.now.highest ≡ own + 1 → self.now.catching_up ≡ false
            → result ≡ nat_le self.now.moment (now - self.now.since) }
        ensures catching_up { self.now.asked ≡ false → own < self.now.highest → self.now.catching_up ≡ true → result ≡ true }
        ensures far { self.now.asked ≡ false → own + 2 ≤ self.now.highest → result ≡ true }
    {
        if self.has_asked {
            return false;
        }
        match self.highest.saturating_sub(own) {
            0 => false,
            1 => self.is_catching_up || now.saturating_sub(self.since) >= self.moment,
            _ => true,
        }
    }
}
