//! Timeouts that come due, and those that are scheduled.

use super::{Node, assert_same, on_node};
use protocol::{Refusal, Step, Timeout};
use std::process::Abort;

/// A timeout's kind, height and round, how many frames it lets out, and the round that it begins.
type Due = (Step, u64, u32, usize, Option<u32>);

/// Where no other's message comes. The fourth round is the own one: it proposes, and prevotes.
const ALONE: [Due; 11] = [
    (Step::Prevote, 0, 0, 0, None),
    (Step::Propose, 1, 0, 0, None),
    (Step::Propose, 0, 1, 0, None),
    (Step::Propose, 0, 0, 1, None),
    (Step::Propose, 0, 0, 0, None),
    (Step::Prevote, 0, 0, 1, None),
    (Step::Prevote, 0, 0, 0, None),
    (Step::Precommit, 0, 0, 0, Some(1)),
    (Step::Precommit, 0, 0, 0, None),
    (Step::Precommit, 0, 1, 0, Some(2)),
    (Step::Precommit, 0, 2, 2, None),
];

pub(super) fn due(kind: Step, height: u64, round: u32) -> Timeout {
    Timeout {
        kind,
        height,
        round,
    }
}

impl Node {
    /// The round of the first timeout that was scheduled since the last look.
    fn begun(&mut self) -> Option<u32> {
        Some(self.core.scheduled().first()?.round)
    }

    /// What is answered to a timeout, how many frames it lets out, and the round that it begins.
    fn fires(&mut self, timeout: Timeout) -> (Result<(), Refusal>, usize, Option<u32>) {
        let answer = self.core.fire_timeout(timeout);
        (answer, self.core.outgoing().len(), self.begun())
    }

    /// Each timeout comes due, and no message comes.
    fn stays_alone<R: Abort>(&mut self, rt: &R) {
        assert_same(rt, &self.begun(), &Some(0));
        for (kind, height, round, frames, next) in ALONE {
            let fired = self.fires(due(kind, height, round));
            assert_same(rt, &fired, &(Ok(()), frames, next));
        }
        assert_same(rt, &self.core.round(), &3);
        assert_same(rt, &self.core.fired(), &1);
    }
}

#[test]
fn rounds_of_one(rt: HostRuntime) {
    on_node(&rt, rt.alloc(), Node::stays_alone);
}
