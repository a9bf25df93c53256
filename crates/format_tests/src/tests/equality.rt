//! Votes and proposals that agree, and that differ in one field.

use super::value_of;
use messages::{Proposal, Step, Vote, same_proposal, same_vote};
use std::alloc::Global;
use std::process::Abort;
use transactions::Duplicate;

/// A prevote with a value.
const VOTE: Vote = Vote {
    step: Step::Prevote,
    height: 1,
    round: 2,
    sender: 3,
    content: Some([4; 32]),
};

/// Votes that differ from it in one field.
const OTHERS: [Vote; 6] = [
    Vote {
        step: Step::Precommit,
        ..VOTE
    },
    Vote { height: 2, ..VOTE },
    Vote { round: 3, ..VOTE },
    Vote { sender: 4, ..VOTE },
    Vote {
        content: None,
        ..VOTE
    },
    Vote {
        content: Some([5; 32]),
        ..VOTE
    },
];

#[test]
fn votes_that_differ(rt: HostRuntime) {
    assert!(rt; same_vote(&VOTE, &VOTE));
    for other in &OTHERS {
        assert!(rt; !same_vote(&VOTE, other));
    }
}

/// A proposal of a value of so many transactions.
fn proposal_of(rt: &impl Abort, alloc: Global, txs: usize) -> Proposal {
    Proposal {
        height: 1,
        round: 2,
        sender: 3,
        valid_round: Some(1),
        value: value_of(rt, alloc, txs),
    }
}

/// A proposal agrees with its copy.
fn assert_same_as_copy(rt: &impl Abort, alloc: Global, proposal: &Proposal) {
    let again = proposal.copy(alloc).expect(rt, "the copy has room");
    assert!(rt; same_proposal(proposal, &again));
}

/// The fields of a proposal beside its value: height, round, sender and valid round.
type Fields = (u64, u32, u16, Option<u32>);

/// A proposal of the same value that has these fields.
fn with_fields(rt: &impl Abort, alloc: Global, proposal: &Proposal, fields: &Fields) -> Proposal {
    Proposal {
        height: fields.0,
        round: fields.1,
        sender: fields.2,
        valid_round: fields.3,
        value: proposal.value.copy(alloc).expect(rt, "the copy has room"),
    }
}

/// Whether a proposal agrees with one of the same value that has these fields.
fn is_same_with(rt: &impl Abort, alloc: Global, proposal: &Proposal, fields: &Fields) -> bool {
    same_proposal(proposal, &with_fields(rt, alloc, proposal, fields))
}

/// A proposal agrees with none that has the same value and some of these fields.
fn assert_differs(rt: &impl Abort, alloc: Global, proposal: &Proposal, others: &[Fields]) {
    for fields in others {
        assert!(rt;
            !is_same_with(rt, alloc, proposal, fields),
            "with {fields:?}"
        );
    }
}

#[test]
fn proposals_that_agree(rt: HostRuntime) {
    let proposal = proposal_of(&rt, rt.alloc(), 1);
    assert_same_as_copy(&rt, rt.alloc(), &proposal);
    let same = &(1, 2, 3, Some(1));
    assert!(&rt; is_same_with(&rt, rt.alloc(), &proposal, same));
}

#[test]
fn proposals_that_differ(rt: HostRuntime) {
    let others = &[
        (2, 2, 3, Some(1)),
        (1, 3, 3, Some(1)),
        (1, 2, 4, Some(1)),
        (1, 2, 3, None),
    ];
    let proposal = proposal_of(&rt, rt.alloc(), 1);
    assert_differs(&rt, rt.alloc(), &proposal, others);
}

#[test]
fn proposals_of_two_values_differ(rt: HostRuntime) {
    let proposal = proposal_of(&rt, rt.alloc(), 1);
    let other = proposal_of(&rt, rt.alloc(), 0);
    assert!(&rt; !same_proposal(&proposal, &other));
}
