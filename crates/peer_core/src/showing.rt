//! What a frame shows of the link that it came on.

use crate::heading::{Heading, Kind, is_transaction};
use crate::link::Shown;
use protocol::{Refusal, SubmitFault};

/// Returns whether the node took a validator's frame for its sender's: it took it in, or refused it for a cause that is looked for
/// behind its tags.
fn is_authentic(answer: Result<(), Refusal>) -> bool {
    matches!(
        answer,
        Ok(())
            | Err(
                Refusal::OtherHeight
                    | Refusal::RoundLimit
                    | Refusal::RoundAhead
                    | Refusal::WrongProposer
                    | Refusal::Repeat
                    | Refusal::VoterFull
                    | Refusal::Bundle(_)
            )
    )
}

/// Returns whether the node took a transaction for its client's.
fn is_of_client(answer: Result<(), Refusal>) -> bool {
    match answer {
        Ok(()) => true,
        Err(Refusal::Submit(fault)) => !matches!(
            fault,
            SubmitFault::TooLong | SubmitFault::UnknownClient | SubmitFault::BadTag
        ),
        Err(_) => false,
    }
}

/// Returns what a frame showed that was answered so.
pub fn shown_by(frame: &[u8], heading: Option<Heading>, answer: Result<(), Refusal>) -> Shown {
    match heading {
        Some(heading) if is_authentic(answer) => match heading.kind {
            Kind::Ask | Kind::Bundle => Shown::Direct(heading.sender),
            Kind::Proposal | Kind::Prevote | Kind::Precommit => Shown::Passed(heading.sender),
        },
        None if is_transaction(frame) && is_of_client(answer) => Shown::Client,
        _ => Shown::Nothing,
    }
}

/// Returns whether the node took something new in from a validator's frame, which comes once, whoever brings it. An ask is answered as often
/// as it comes.
pub fn is_taken_in(heading: Option<Heading>, answer: Result<(), Refusal>) -> bool {
    answer.is_ok() && heading.is_some_and(|heading| heading.kind != Kind::Ask)
}

/// Returns whether a validator's frame told the node something new: it took it in, or it is of a height that hasn't come.
pub fn is_news(heading: Option<Heading>, answer: Result<(), Refusal>, own: u64) -> bool {
    match (heading, answer) {
        (Some(_), Ok(())) => true,
        (Some(heading), Err(Refusal::OtherHeight)) => heading.height > own,
        _ => false,
    }
}
