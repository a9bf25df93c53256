//! How soon what is accepted is delivered everywhere, two minutes after faults have ceased.

ghost use Rattle.std.specs.Prelude.{◌≡◌};
ghost use Rattle.cluster_checks.specs.Watching.{is_slow, counted};

/// Of how many transactions at least it is said whether they are slow.
const FEWEST: u64 = 64;

/// How many transactions were looked at, and how many of them were late.
#[derive(Clone, Copy, Debug, PartialEq, Eq)]
pub struct Pace {
    pub looked_at: u64,
    pub late: u64,
}

impl Pace {
    /// None was looked at.
    pub const NONE: Pace = Pace {
        looked_at: 0,
        late: 0,
    };

    /// Notes a transaction, which was late or not.
    pub fn note(&mut self, is_late: bool)
        ensures { self.new ≡ counted is_late self.old }
    {
        self.looked_at = self.looked_at.saturating_add(1);
        self.late = self.late.saturating_add(u64::from(is_late));
    }

    /// Returns whether more than half of them were late, where there are enough.
    pub fn is_slow(self) -> bool
        ensures { result ≡ is_slow self }
    {
        self.looked_at >= FEWEST && self.late > self.looked_at / 2
    }
}
