//! Clocks that run apart.

/// How a validator's clock runs: from an offset on, and faster or slower than virtual time.
#[derive(Clone, Copy)]
pub struct Drift {
    /// What it shows at virtual time 0, in milliseconds.
    pub offset: u64,
    /// How many milliseconds it counts in a thousand.
    pub rate: u64,
}

impl Drift {
    /// The clock of the virtual time.
    pub const NONE: Drift = Drift {
        offset: 0,
        rate: 1_000,
    };

    /// Returns what it shows at a virtual time.
    pub fn shown(self, at: u64) -> u64 {
        self.offset
            .saturating_add(at.saturating_mul(self.rate) / 1_000)
    }

    /// Returns the virtual time from which on it shows this or more.
    pub fn shows_from(self, shown: u64) -> u64 {
        let run = shown.saturating_sub(self.offset).saturating_mul(1_000);
        match run.checked_div(self.rate) {
            Some(at) => at.saturating_add(1),
            None => u64::MAX,
        }
    }
}
