//! Kinds of messages.

/// What a message is.
#[derive(Clone, Copy, Debug, PartialEq, Eq)]
pub(crate) enum Kind {
    Proposal,
    Prevote,
    Precommit,
    Ask,
    Bundle,
    Transaction,
    /// A frame of any bytes.
    Raw,
}

impl Kind {
    pub(crate) const ALL: [Kind; 7] = [
        Kind::Proposal,
        Kind::Prevote,
        Kind::Precommit,
        Kind::Ask,
        Kind::Bundle,
        Kind::Transaction,
        Kind::Raw,
    ];

    /// Returns the word for it in a report.
    pub(crate) fn word(self) -> &'static str {
        match self {
            Kind::Proposal => "proposal",
            Kind::Prevote => "prevote",
            Kind::Precommit => "precommit",
            Kind::Ask => "ask",
            Kind::Bundle => "bundle",
            Kind::Transaction => "tx",
            Kind::Raw => "raw",
        }
    }

    /// Returns the word for it in a legend.
    pub(crate) fn meaning(self) -> &'static str {
        match self {
            Kind::Transaction => "transaction",
            Kind::Raw => "any bytes",
            _ => self.word(),
        }
    }

    /// Returns the colour of what belongs to it.
    pub(crate) fn colour(self) -> &'static str {
        match self {
            Kind::Proposal => "#0b5fa5",
            Kind::Prevote => "#00855f",
            Kind::Precommit => "#c85000",
            Kind::Ask => "#b8579a",
            Kind::Bundle => "#6a3fa0",
            Kind::Transaction => "#8a6d00",
            Kind::Raw => "#666666",
        }
    }

    /// Finds the kind with this word.
    pub(crate) fn of_word(word: &str) -> Option<Kind> {
        Kind::ALL.iter().copied().find(|kind| kind.word() == word)
    }
}
