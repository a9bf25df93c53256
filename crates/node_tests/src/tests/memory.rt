//! Each call that is refused memory is made once more after `settle`: whichever growth is refused, the end is the same.

use super::timeouts::due;
use super::{Node, assert_same, on_node, vote};
use authenticators::hmac;
use messages::{Ask, Body, Bundle, Precommit, Step as VoteStep, spell_body};
use protocol::{Refusal, Step};
use std::alloc::Global;
use std::process::Abort;
use transactions::{Id, Seq};

/// A precommit for an id, with the tag for validator 3 under 32 times this byte.
fn precommit(rt: &impl Abort, alloc: Global, id: Id, sender: u16, key: u8) -> Precommit {
    let spelled = spell_body(alloc, &vote(VoteStep::Precommit, sender, id)).expect(
        rt,
        "the vote has a spelling",
    );
    let tags = [[0; 32], [0; 32], [0; 32], hmac(&[key; 32], &spelled)];
    let tags = tags.to_vec(alloc).expect(rt, "the tags have room");
    Precommit {
        sender,
        tags: Seq::from_vec(tags),
    }
}

impl Node {
    /// The precommits of validators 0, 1 and 2.
    fn precommits(&self, rt: &impl Abort, id: Id) -> Seq<Precommit> {
        let mut precommits = Seq::new(self.alloc);
        for (sender, key) in [(0, 0x00), (1, 0x11), (2, 0x22)] {
            precommits
                .push(precommit(rt, self.alloc, id, sender, key))
                .expect(rt, "the precommit has room");
        }
        precommits
    }

    /// Validator 0's bundle, which shows that height 0 decided the value.
    fn bundle(&self, rt: &impl Abort) -> Body {
        let id = self.id(rt);
        Body::Bundle(Bundle {
            height: 0,
            sender: 0,
            round: 0,
            id,
            value: self.value(rt),
            precommits: self.precommits(rt, id),
        })
    }

    /// Takes the frame in, and once more where memory was refused: it may have been taken in by then.
    fn takes_in(&mut self, rt: &impl Abort, frame: &[u8]) {
        let answer = self.core.handle(frame);
        if answer != Err(Refusal::OutOfMemory) {
            assert_same(rt, &answer, &Ok(()));
            return;
        }
        assert_same(rt, &self.core.settle(), &Ok(()));
        let again = self.core.handle(frame);
        assert!(rt; matches!(&again, Ok(()) | Err(Refusal::Repeat | Refusal::OtherHeight)));
    }

    /// The timeout is due, and once more where memory was refused.
    fn comes_due(&mut self, rt: &impl Abort, kind: Step, round: u32) {
        let due = due(kind, 0, round);
        if self.core.fire_timeout(due) != Ok(()) {
            assert_same(rt, &self.core.settle(), &Ok(()));
            assert_same(rt, &self.core.fire_timeout(due), &Ok(()));
        }
    }

    /// Takes the frame of a body in.
    fn takes(&mut self, rt: &impl Abort, key: u8, body: &Body) {
        let frame = self.frame(rt, key, body);
        self.takes_in(rt, &frame);
    }

    fn takes_votes(&mut self, rt: &impl Abort, id: Id) {
        for (step, sender, key) in [
            (VoteStep::Prevote, 0, 0x00),
            (VoteStep::Prevote, 1, 0x11),
            (VoteStep::Precommit, 0, 0x00),
            (VoteStep::Precommit, 1, 0x11),
        ] {
            self.takes(rt, key, &vote(step, sender, id));
        }
    }

    fn takes_a_proposal(&mut self, rt: &impl Abort) {
        let proposal = self.proposal(rt);
        self.takes(rt, 0x00, &proposal);
    }

    fn takes_a_bundle(&mut self, rt: &impl Abort) {
        let bundle = self.bundle(rt);
        self.takes(rt, 0x00, &bundle);
    }

    fn takes_an_ask(&mut self, rt: &impl Abort) {
        let ask = Ask {
            height: 0,
            sender: 1,
        };
        self.takes(rt, 0x11, &Body::Ask(ask));
    }

    fn decides_by_votes<R: Abort>(&mut self, rt: &R) {
        self.takes_a_proposal(rt);
        let id = self.id(rt);
        self.takes_votes(rt, id);
        self.has_decided(rt, 2);
    }

    fn decides_by_a_bundle<R: Abort>(&mut self, rt: &R) {
        self.takes_a_bundle(rt);
        self.takes_an_ask(rt);
        self.has_decided(rt, 1);
    }

    /// Height 0 is decided, and the next has begun; so many frames have gone out.
    pub(super) fn has_decided(&mut self, rt: &impl Abort, frames: usize) {
        assert_same(rt, &self.core.height(), &1);
        assert_same(rt, &self.core.delivered().len(), &1);
        assert_same(rt, &self.core.decisions().len(), &1);
        assert_same(rt, &self.core.frontier().next(7), &2);
        assert_same(rt, &self.core.outgoing().len(), &frames);
        assert_same(rt, &self.core.scheduled().len(), &2);
    }

    fn comes_to_its_round<R: Abort>(&mut self, rt: &R) {
        for (kind, round) in [
            (Step::Propose, 0),
            (Step::Prevote, 0),
            (Step::Precommit, 0),
            (Step::Precommit, 1),
            (Step::Precommit, 2),
        ] {
            self.comes_due(rt, kind, round);
        }
        assert_same(rt, &self.core.round(), &3);
        assert_same(rt, &self.core.outgoing().len(), &4);
    }
}

#[test]
fn a_height_by_votes(rt: HostRuntime) {
    on_node(&rt, rt.alloc(), Node::decides_by_votes);
}

#[test]
fn a_height_by_a_bundle(rt: HostRuntime) {
    on_node(&rt, rt.alloc(), Node::decides_by_a_bundle);
}

#[test]
fn rounds_of_one(rt: HostRuntime) {
    on_node(&rt, rt.alloc(), Node::comes_to_its_round);
}
