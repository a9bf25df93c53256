//! Validators that don't reach others for a while.

/// Some validators that are cut off from the others.
#[derive(Clone, Copy)]
pub struct Partition {
    /// The first of them.
    pub first: u16,
    /// How many there are, from the first one on, in turn.
    pub members: u16,
    /// Of how many validators.
    pub count: u16,
    /// Whether only their bytes to others are held up.
    pub is_one_way: bool,
    /// Whether these bytes vanish; else they wait.
    pub vanishes: bool,
    /// When it heals.
    pub until: u64,
}

/// What becomes of bytes.
#[derive(Clone, Copy)]
pub enum Passage {
    /// They go on.
    Free,
    /// They wait until then.
    Held(u64),
    /// They vanish.
    Vanishes,
}

impl Partition {
    /// Returns whether a validator is one of those that are cut off.
    fn has(&self, validator: u16) -> bool {
        let turn = validator
            .saturating_add(self.count)
            .saturating_sub(self.first);
        turn.checked_rem(self.count)
            .is_some_and(|turn| turn < self.members)
    }

    /// What becomes of bytes from one validator to another.
    pub fn passage(&self, from: u16, to: u16) -> Passage {
        let is_out = self.has(from) && !self.has(to);
        let is_in = !self.has(from) && self.has(to);
        if !is_out && (self.is_one_way || !is_in) {
            Passage::Free
        } else if self.vanishes {
            Passage::Vanishes
        } else {
            Passage::Held(self.until)
        }
    }
}
