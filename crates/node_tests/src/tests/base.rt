//! A copy of what a node has beside its delivered list and its journal.

use super::{Node, assert_same, on_node, vote};
use messages::{Body, Step as VoteStep};
use node_core::Base;
use protocol::Step;
use std::process::Abort;

/// It has a lock, its own prevote and precommit, and their frames; nobody has taken the timeouts.
fn is_locked(rt: &impl Abort, base: &Base) {
    assert_same(rt, &base.variables.height, &0);
    assert_same(rt, &base.variables.round, &0);
    assert_same(rt, &base.variables.step, &Step::Precommit);
    assert!(rt; base.variables.lock.is_some());
    assert_same(rt, &base.variables.proposals.len(), &1);
    assert_same(rt, &base.said.len(), &2);
    assert_same(rt, &base.outgoing.len(), &2);
    assert_same(rt, &base.frontier.next(7), &1);
}

impl Node {
    /// The frame of a body comes in, and is taken.
    fn is_told(&mut self, rt: &impl Abort, key: u8, body: &Body) {
        let frame = self.frame(rt, key, body);
        assert_same(rt, &self.core.handle(&frame), &Ok(()));
    }

    /// The proposal, two prevotes and a precommit come in, and the node is copied.
    fn is_copied<R: Abort>(&mut self, rt: &R) {
        let proposal = self.proposal(rt);
        self.is_told(rt, 0x00, &proposal);
        let id = self.id(rt);
        for (key, step, sender) in [
            (0x00, VoteStep::Prevote, 0),
            (0x11, VoteStep::Prevote, 1),
            (0x00, VoteStep::Precommit, 0),
        ] {
            self.is_told(rt, key, &vote(step, sender, id));
        }
        is_locked(rt, &self.core.base().expect(rt, "the copy has room"));
    }
}

#[test]
fn a_node_is_copied(rt: HostRuntime) {
    on_node(&rt, rt.alloc(), Node::is_copied);
}
