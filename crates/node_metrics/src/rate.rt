//! How many items a second are delivered.

ghost use Rattle.std.specs.Prelude.{◌≡◌, ◌*◌, ◌/◌, ◌-◌, ◌^◌, ◌<◌, min, max};

/// How many counts are kept, one a second.
const COUNTS: usize = 10;

/// How long it is between two counts at least, in milliseconds.
const SECOND_MS: u64 = 1_000;

/// How many items were delivered at a time.
#[derive(Clone, Copy, Debug, PartialEq, Eq)]
struct Count {
    at: u64,
    delivered: u64,
}

/// The counts of the last ten seconds, as a ring.
#[derive(Clone, Copy, Debug, PartialEq, Eq)]
pub struct RecentRate {
    counts: [Count; COUNTS],
    /// The place of the oldest count.
    oldest: usize,
    /// When the newest one was noted.
    noted: u64,
    ghost in_range: { oldest < 10 },
}

/// Returns how many items a second these are, in so many milliseconds.
fn per_second(items: u64, milliseconds: u64) -> u64
    ensures { result ≡ min (items * 1000) (2 ^ 64 - 1) / max milliseconds 1 }
{
    items.saturating_mul(SECOND_MS) / milliseconds.max(1)
}

impl RecentRate {
    /// So many items are delivered now, and nothing was delivered just before.
    pub fn new(now: u64, delivered: u64) -> RecentRate {
        RecentRate {
            counts: [Count { at: now, delivered }; COUNTS],
            oldest: 0,
            noted: now,
        }
    }

    /// Notes how many items are delivered now, and returns how many were a second, over the last ten seconds.
    pub fn note(&mut self, now: u64, delivered: u64) -> u64 {
        if now.saturating_sub(self.noted) >= SECOND_MS {
            self.counts[self.oldest] = Count { at: now, delivered };
            self.oldest = (self.oldest + 1) % COUNTS;
            self.noted = now;
        }
        let oldest = self.counts[self.oldest];
        per_second(
            delivered.saturating_sub(oldest.delivered),
            now.saturating_sub(oldest.at),
        )
    }
}
