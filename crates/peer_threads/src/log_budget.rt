//! How many lines on links are logged.

ghost use Rattle.std.specs.Prelude.{◌≡◌, ◌-◌, nat_lt};
ghost use Rattle.peer_threads.specs.Lines.{room};

use log::{Log, warn};

/// How many lines are logged at once at most.
const MOST_LINES: u64 = 512;

/// After how long one more may be, in milliseconds.
const LINE_MS: u64 = 250;

/// For how many lines there is room. Whoever opens connections in haste can't fill the disk that the log stands on.
#[derive(Clone, Copy, Debug)]
pub(crate) struct LogBudget {
    room: u64,
    /// Up to when the room was counted.
    since: u64,
    /// How many lines were left out since that was logged.
    left_out: u64,
}

impl LogBudget {
    /// There is room for as many as are logged at once.
    pub(crate) fn new(now: u64) -> LogBudget {
        LogBudget {
            room: MOST_LINES,
            since: now,
            left_out: 0,
        }
    }

    /// Returns whether a line may be logged now. Where some were left out before, their number is logged first.
    pub(crate) fn may_log<R: Log>(&mut self, rt: &R, now: u64) -> bool
        ensures { result ≡ nat_lt 0 (room self.old now) }
    {
        let may = self.spend(now);
        if may && self.left_out > 0 {
            warn!(rt; "{} lines on links are left out", self.left_out);
            self.left_out = 0;
        }
        may
    }

    /// Takes room for a line, or counts one that is left out, and returns which.
    fn spend(&mut self, now: u64) -> bool
        ensures answer { result ≡ nat_lt 0 (room self.old now) }
        ensures left { self.new.room ≡ room self.old now - 1 }
    {
        let gained = now.saturating_sub(self.since) / LINE_MS;
        if gained > 0 {
            self.since = now;
        }
        self.room = self.room.saturating_add(gained).min(MOST_LINES);
        let may = self.room > 0;
        if may {
            self.room -= 1;
        } else {
            self.left_out = self.left_out.saturating_add(1);
        }
        may
    }
}
