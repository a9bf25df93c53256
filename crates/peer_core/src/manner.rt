//! How a validator keeps its links, and its pace.

use proposer_turns::Turns;

/// How a validator keeps its links.
#[derive(Clone, Copy, Debug, PartialEq, Eq)]
pub enum Keeping {
    /// Each address is dialed once, and every frame goes to every link.
    Open,
    /// Addresses are dialed again, and a frame goes to whom it is worth sending: one link of each validator, whoever asked,
    /// and to clients their replies alone.
    Guarded,
}

/// How a validator's edge behaves. Times are milliseconds.
#[derive(Clone, Copy, Debug, PartialEq, Eq)]
pub struct Manner {
    pub keeping: Keeping,
    /// How long an own proposal of no transactions waits at most; with 0 none waits. Nodes whose propose timeout is no longer
    /// than this decide nothing before a transaction comes, but in later rounds.
    pub idle: u64,
    /// How long a height is held open while nothing waits anywhere; with 0 none is.
    pub rest: u64,
    /// After how long an address without an open link is dialed again; the pause doubles up to 32 of these.
    pub redial: u64,
    /// When it proposes, which says whether a transaction can wait for that.
    pub turns: Turns,
}

impl Manner {
    /// Open links, where nothing waits, no height is held open and no transaction is passed on.
    pub const PLAIN: Manner = Manner {
        keeping: Keeping::Open,
        idle: 0,
        rest: 0,
        redial: 0,
        turns: Turns::ALL,
    };
}
