//! The first words of executed lines.

/// What an executed line does, as far as it is drawn by more than its row.
#[derive(Clone, Copy, Debug, PartialEq, Eq)]
pub(crate) enum Verb {
    Deliver,
    Pass,
    Propose,
    Vote,
    Bundle,
    Tx,
    Raw,
    Open,
    Timeout,
    Restart,
    Fail,
    Ask,
    Resend,
    State,
}

impl Verb {
    const ALL: [Verb; 14] = [
        Verb::Deliver,
        Verb::Pass,
        Verb::Propose,
        Verb::Vote,
        Verb::Bundle,
        Verb::Tx,
        Verb::Raw,
        Verb::Open,
        Verb::Timeout,
        Verb::Restart,
        Verb::Fail,
        Verb::Ask,
        Verb::Resend,
        Verb::State,
    ];

    /// Returns the word for it in a schedule.
    fn word(self) -> &'static str {
        match self {
            Verb::Deliver => "deliver",
            Verb::Pass => "pass",
            Verb::Propose => "propose",
            Verb::Vote => "vote",
            Verb::Bundle => "bundle",
            Verb::Tx => "tx",
            Verb::Raw => "raw",
            Verb::Open => "open",
            Verb::Timeout => "timeout",
            Verb::Restart => "restart",
            Verb::Fail => "fail",
            Verb::Ask => "ask",
            Verb::Resend => "resend",
            Verb::State => "state",
        }
    }

    /// Finds the one with this word.
    pub(crate) fn of_word(word: &str) -> Option<Verb> {
        Verb::ALL.iter().copied().find(|verb| verb.word() == word)
    }
}
