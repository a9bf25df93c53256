//! Why what comes is refused: the one table of names and numbers.

ghost use Rattle.std.specs.Prelude.{◌≡◌};
ghost use Rattle.protocol.specs.Answers.{numbers_of};

use std::alloc::{AllocError, AllocFailed};
use thiserror::Error;
use transactions::Fault;

/// Why a transaction is not queued: the first cause in the order 7, 1, 2, 3, 5, 9, 4, 6. A number is the one that clients of
/// a node see.
#[derive(Clone, Copy, Debug, PartialEq, Eq, Error)]
pub enum SubmitFault {
    /// 1: the validator has no key of the client.
    #[error("the client is unknown")]
    UnknownClient = 1,
    /// 2: there are more or fewer tags than validators, or the one for this validator is not right.
    #[error("a tag is wrong")]
    BadTag = 2,
    /// 3: its session is below that of the client's last delivered one, or one of its session with its number or a
    /// higher one is delivered or queued.
    #[error("the number is delivered or queued")]
    OldNumber = 3,
    /// 4: the number is not the next one of its session.
    #[error("a number before it is missing")]
    Gap = 4,
    /// 5: a close of its session is delivered or queued.
    #[error("the session is closed")]
    Closed = 5,
    /// 6: 64 transactions of the client are waiting.
    #[error("too many transactions of the client are waiting")]
    QueueFull = 6,
    /// 7: it has more than 1,024 bytes.
    #[error("the transaction is too long")]
    TooLong = 7,
    /// 8: a growth was refused memory, and no cause stands. The same transaction may come again. A node tells it as its own
    /// `OutOfMemory`.
    #[error("out of memory")]
    OutOfMemory = 8,
    /// 9: its session is neither the last one of what is delivered or queued nor, where that one is closed, the next.
    #[error("a session before it is not closed")]
    SessionAhead = 9,
}

/// Why a bundle decides nothing: the first cause in the order 2, 1, 3, 4.
#[derive(Clone, Copy, Debug, PartialEq, Eq, Error)]
pub enum JudgeFault {
    /// 1: those who are named as senders of its precommits have no quorum.
    #[error("the precommits are not from a quorum")]
    NoQuorum = 1,
    /// 2: its id is not its value's.
    #[error("the id is not the value's")]
    WrongDigest = 2,
    /// 3: those of whom a precommit has the right own tag have no quorum.
    #[error("the precommits with a right tag are not from a quorum")]
    BadTag = 3,
    /// 4: its value may not be delivered next.
    #[error("the value may not be delivered next")]
    NotValid = 4,
    /// 5: a growth was refused memory. The same bundle may come again. A node tells it as its own `OutOfMemory`.
    #[error("out of memory")]
    OutOfMemory = 5,
}

/// Why a call is refused. Nothing has changed then, but after `OutOfMemory` and `JournalFailed`: a message
/// was taken in whole or not at all, and each rule fired whole or not at all. After `OutOfMemory` `settle` goes on; after
/// `JournalFailed` each call that would change the node answers `Halted`.
///
/// A node tells `Halted` before any other cause, and then the first, in the order 1 to 6, 7, 10, 11, 12, 9, 8; for a
/// transaction after 4 those of `Submit` alone, and for a bundle after 7 those of `Bundle`.
#[derive(Clone, Copy, Debug, PartialEq, Eq, Error)]
pub enum Refusal {
    /// 1: the frame ends before its length, or its content before a field's end.
    #[error("the frame is cut short")]
    Truncated,
    /// 2: a count or a length is above its limit.
    #[error("a count or a length is above its limit")]
    TooLong,
    /// 3: no message has this kind.
    #[error("no message has this kind")]
    BadKind,
    /// 4: any other breach of the grammar, also bytes after the end.
    #[error("the frame spells no message")]
    BadSpelling,
    /// 5: the sender's number is no validator's.
    #[error("the sender is no validator")]
    UnknownSender,
    /// 6: there isn't one tag for each validator, or the own one is wrong.
    #[error("the own tag is not right")]
    BadTag,
    /// 7: it isn't of the own height; an ask isn't below it; a bundle is of height 2^48.
    #[error("the message is of another height")]
    OtherHeight,
    /// 8: its sender has 512 messages of this height, or two other proposals of this round.
    #[error("too many messages of its sender are kept")]
    VoterFull,
    /// 9: the same message is kept.
    #[error("the message is already kept")]
    Repeat,
    /// 10: its round is above 1,000,000, or a timeout would begin one above it.
    #[error("the round is above the last one")]
    RoundLimit,
    /// 11: a proposal of a round more than two above the own one.
    #[error("the proposal is too many rounds ahead")]
    RoundAhead,
    /// 12: a proposal that isn't from its round's proposer.
    #[error("the proposal is not from the round's proposer")]
    WrongProposer,
    /// 13: the transaction isn't queued.
    #[error("the transaction is not queued: {0}")]
    Submit(SubmitFault),
    /// 14: the bundle decides nothing.
    #[error("the bundle decides nothing: {0}")]
    Bundle(JudgeFault),
    /// 15: an earlier call answered `JournalFailed`: the node does nothing until its journal is opened again.
    #[error("the node has halted")]
    Halted,
    /// 16: a growth was refused memory.
    #[error("out of memory")]
    OutOfMemory,
    /// 17: the journal's device failed, so a record was not saved and what it says was not said. The node halts.
    #[error("the journal failed")]
    JournalFailed,
}

impl Refusal {
    /// The number of the refusal, 1 to 17.
    pub fn number(&self) -> u8
        ensures { result ≡ (numbers_of self.now).0 }
    {
        match self {
            Refusal::Truncated => 1,
            Refusal::TooLong => 2,
            Refusal::BadKind => 3,
            Refusal::BadSpelling => 4,
            Refusal::UnknownSender => 5,
            Refusal::BadTag => 6,
            Refusal::OtherHeight => 7,
            Refusal::VoterFull => 8,
            Refusal::Repeat => 9,
            Refusal::RoundLimit => 10,
            Refusal::RoundAhead => 11,
            Refusal::WrongProposer => 12,
            Refusal::Submit(_) => 13,
            Refusal::Bundle(_) => 14,
            Refusal::Halted => 15,
            Refusal::OutOfMemory => 16,
            Refusal::JournalFailed => 17,
        }
    }

    /// The number of the inner fault: 1 to 7 or 9 for a transaction, 1 to 4 for a bundle, else 0.
    pub fn inner(&self) -> u8
        ensures { result ≡ (numbers_of self.now).1 }
    {
        match self {
            Refusal::Submit(fault) => *fault as u8,
            Refusal::Bundle(fault) => *fault as u8,
            _ => 0,
        }
    }
}

impl From<AllocError> for SubmitFault {
    ghost use Rattle.protocol.specs.declared.refusal.SubmitFault.TheVariants.{OutOfMemory};

    ghost from_gives = { λ _ e. e ≡ OutOfMemory };

    fn from(_e: AllocError) -> SubmitFault {
        SubmitFault::OutOfMemory
    }
}

impl<T: Drop> From<AllocFailed<T>> for SubmitFault {
    ghost use Rattle.protocol.specs.declared.refusal.SubmitFault.TheVariants.{OutOfMemory};

    ghost from_gives = { λ _ e. e ≡ OutOfMemory };

    fn from(_e: AllocFailed<T>) -> SubmitFault {
        SubmitFault::OutOfMemory
    }
}

impl From<AllocError> for JudgeFault {
    ghost use Rattle.protocol.specs.declared.refusal.JudgeFault.TheVariants.{OutOfMemory};

    ghost from_gives = { λ _ e. e ≡ OutOfMemory };

    fn from(_e: AllocError) -> JudgeFault {
        JudgeFault::OutOfMemory
    }
}

impl From<AllocError> for Refusal {
    ghost use Rattle.protocol.specs.declared.refusal.Refusal.TheVariants.{OutOfMemory};

    ghost from_gives = { λ _ e. e ≡ OutOfMemory };

    fn from(_e: AllocError) -> Refusal {
        Refusal::OutOfMemory
    }
}

impl<T: Drop> From<AllocFailed<T>> for Refusal {
    ghost use Rattle.protocol.specs.declared.refusal.Refusal.TheVariants.{OutOfMemory};

    ghost from_gives = { λ _ e. e ≡ OutOfMemory };

    fn from(_e: AllocFailed<T>) -> Refusal {
        Refusal::OutOfMemory
    }
}

impl From<Fault> for Refusal {
    ghost use Rattle.protocol.specs.Answers.{of_fault};

    ghost from_gives = { λ fault e. e ≡ of_fault fault };

    fn from(fault: Fault) -> Refusal {
        match fault {
            Fault::Truncated => Refusal::Truncated,
            Fault::TooLong => Refusal::TooLong,
            Fault::BadSpelling => Refusal::BadSpelling,
            Fault::BadKind => Refusal::BadKind,
            Fault::OutOfMemory => Refusal::OutOfMemory,
        }
    }
}

impl From<SubmitFault> for Refusal {
    ghost use Rattle.protocol.specs.Answers.{of_submit};

    ghost from_gives = { λ fault e. e ≡ of_submit fault };

    fn from(fault: SubmitFault) -> Refusal {
        match fault {
            SubmitFault::OutOfMemory => Refusal::OutOfMemory,
            _ => Refusal::Submit(fault),
        }
    }
}

impl From<JudgeFault> for Refusal {
    ghost use Rattle.protocol.specs.Answers.{of_judgement};

    ghost from_gives = { λ fault e. e ≡ of_judgement fault };

    fn from(fault: JudgeFault) -> Refusal {
        match fault {
            JudgeFault::OutOfMemory => Refusal::OutOfMemory,
            _ => Refusal::Bundle(fault),
        }
    }
}
