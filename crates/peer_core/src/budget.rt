//! How many frames may be sent to repair what was lost.

ghost use Rattle.std.specs.Prelude.{◌≡◌, ◌≤◌, ◌<◌, ◌-◌, MatchBool};
ghost use Rattle.peer_core.specs.Budgets.{each_second, refilled};

/// How many seconds' worth of frames may be saved up.
const MOST_SECONDS: u64 = 4;

/// The frames that a validator may still send to repair what may be lost: as many each second as one height costs it, two votes
/// for each other validator and a proposal's share. All validators together so send no more than the height itself would take.
#[derive(Clone, Copy, Debug)]
pub struct Budget {
    each_second: u32,
    left: u64,
}

impl Budget {
    /// One second's worth, for one of so many validators.
    pub fn new(count: u16) -> Budget
        ensures each { result.each_second ≡ each_second count }
        ensures left { result.left ≡ each_second count }
    {
        let each_second = u32::from(count) * 2;
        Budget {
            each_second,
            left: u64::from(each_second),
        }
    }

    /// Adds a second's worth. What is saved up is at most four.
    pub fn refill(&mut self)
        ensures { self.new ≡ refilled self.old }
    {
        let each_second = u64::from(self.each_second);
        self.left = self
            .left
            .saturating_add(each_second)
            .min(each_second * MOST_SECONDS);
    }

    /// Returns how many frames one second's worth is.
    pub fn each_second(&self) -> u32
        ensures { result ≡ self.now.each_second }
    {
        self.each_second
    }

    /// Returns how many frames may be sent now.
    pub fn left(&self) -> u64
        ensures { result ≡ self.now.left }
    {
        self.left
    }

    /// Takes what these frames cost, and returns whether there was so much.
    pub fn spend(&mut self, frames: u64) -> bool
        ensures { MatchBool result
            ((frames ≤ self.old.left) × (self.new ≡ record self.old { left = self.old.left - frames }))
            ((self.old.left < frames) × (self.new ≡ self.old)) }
    {
        if frames > self.left {
            return false;
        }
        self.left -= frames;
        true
    }
}
