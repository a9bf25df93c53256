//! Rules by name.

ghost use Rattle.std.specs.Prelude.{◌≡◌};
ghost use Rattle.round_machine.specs.Naming.{pick_in, tags_in};

use protocol::Timeout;
use round_states::Picked;
use transactions::Seq;

/// A rule that may fire, with line numbers of algorithm 1 of arXiv 1807.04938. A rule about a
/// proposal names its place among the kept ones.
#[derive(Clone, Copy, Debug, PartialEq, Eq)]
pub enum Rule {
    /// The first round of a height begins (lines 10 and 54).
    Start,
    /// A proposal that a quorum precommitted is decided (line 49).
    Decide(usize),
    /// A later round begins, in which a weak quorum has messages (line 55).
    SkipRound(u32),
    /// A proposal without a valid round is prevoted, or nil (line 22).
    PrevoteFresh(usize),
    /// A proposal whose value a quorum prevoted in its valid round is prevoted, or nil (line 28).
    PrevoteAgain(usize),
    /// A proposal that a quorum prevoted is locked and precommitted (line 36).
    Lock(usize),
    /// A quorum prevoted nil, so nil is precommitted (line 44).
    PrecommitNil,
    /// A quorum prevoted, so the timeout of prevotes is scheduled (line 34).
    AwaitPrevotes,
    /// A quorum precommitted, so the timeout of precommits is scheduled (line 47).
    AwaitPrecommits,
    /// A timeout of the present height, round and step is due (lines 57, 61 and 65).
    TimedOut(Timeout),
}

/// What a firing is handed.
#[derive(Drop)]
pub enum Input {
    /// For each other rule.
    Nothing,
    /// For a rule that begins a round, which are `Start`, `SkipRound` and a `TimedOut` of precommits:
    /// what the own number proposes where it is the proposer and has no valid value.
    Picked(Picked),
    /// For `Decide`: the tags of the own precommit for the decided id, one for each validator.
    OwnTags(Seq<[u8; 32]>),
}

impl Input {
    /// The picked value, if one was handed.
    pub(crate) fn into_picked(self) -> Option<Picked>
        ensures { result ≡ pick_in self }
    {
        match self {
            Input::Picked(picked) => Some(picked),
            Input::Nothing | Input::OwnTags(_) => None,
        }
    }

    /// The tags of the own precommit, if they were handed.
    pub(crate) fn own_tags(&self) -> &[[u8; 32]]
        ensures { result.now ≡ tags_in self.now }
    {
        match self {
            Input::OwnTags(tags) => tags.as_slice(),
            Input::Nothing | Input::Picked(_) => &[],
        }
    }
}
