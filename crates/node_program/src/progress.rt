//! How far a validator is, as its log tells.

use log::{Log, info};
use status_words::Status;

/// How long it is between two lines at least, in milliseconds.
const PAUSE_MS: u64 = 30_000;

/// What the last line told.
#[derive(Drop)]
pub(crate) struct Progress {
    /// When it was told.
    since: u64,
    delivered: u64,
}

impl Progress {
    /// No line was told yet, and so many items were delivered before, as the journal has them.
    pub(crate) fn new(now: u64, delivered: u64) -> Progress {
        Progress {
            since: now,
            delivered,
        }
    }

    /// Tells a line where it is time.
    pub(crate) fn note<R: Log>(&mut self, rt: &R, now: u64, status: Status) {
        let passed = now.saturating_sub(self.since);
        if passed < PAUSE_MS {
            return;
        }
        let fresh = status.delivered.saturating_sub(self.delivered);
        info!(rt;
            "height {}, {} items, {} a second",
            status.height,
            status.delivered,
            fresh.saturating_mul(1_000) / passed
        );
        self.since = now;
        self.delivered = status.delivered;
    }
}
