//! The heights of kept votes: one, wherever a node keeps them.

ghost use Rattle.std.specs.Prelude.{◌≡◌};
ghost use Rattle.vote_tally.specs.Told.{with_height};

/// The heights of the kept votes.
#[derive(Clone, Copy, Debug, PartialEq, Eq)]
pub enum Heights {
    /// No vote is kept.
    Nothing,
    /// All are of this height.
    One(u64),
    /// They may differ.
    Several,
}

impl Heights {
    /// The heights after one vote more.
    pub fn with(self, height: u64) -> Heights
        ensures { result ≡ with_height self height }
    {
        match self {
            Heights::Nothing => Heights::One(height),
            Heights::One(only) => {
                if only == height {
                    self
                } else {
                    Heights::Several
                }
            }
            Heights::Several => self,
        }
    }
}
