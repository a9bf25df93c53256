//! A stream of frames that is cut anywhere is answered as its frames are.

use super::{Node, assert_same, on_node, vote};
use messages::{Body, FrameReader, Step as VoteStep};
use protocol::Refusal;
use std::alloc::Global;
use std::process::Abort;

/// How many frames were taken in, and how many refused for their tag.
#[derive(Clone, Copy, Debug, PartialEq, Eq)]
struct Told {
    taken: usize,
    refused: usize,
}

impl Node {
    /// The frames by which height 0 decides, one behind the other, with one among them whose tag is wrong.
    fn stream(&self, rt: &impl Abort) -> Vec<u8> {
        let id = self.id(rt);
        let mut stream = self.frame(rt, 0x00, &self.proposal(rt));
        for (step, sender, key) in [
            (VoteStep::Prevote, 0, 0x00),
            (VoteStep::Prevote, 1, 0x22),
            (VoteStep::Prevote, 1, 0x11),
            (VoteStep::Precommit, 0, 0x00),
            (VoteStep::Precommit, 1, 0x11),
        ] {
            self.put_frame(rt, &mut stream, key, &vote(step, sender, id));
        }
        stream
    }

    /// Puts the frame of a body behind those of a stream.
    fn put_frame(&self, rt: &impl Abort, stream: &mut Vec<u8>, key: u8, body: &Body) {
        let frame = self.frame(rt, key, body);
        stream
            .extend_from_slice(&frame)
            .expect(rt, "the frame has room");
    }

    /// Takes in the frames that stand whole in the reader.
    fn takes_whole(&mut self, rt: &impl Abort, reader: &mut FrameReader, told: &mut Told) {
        for _ in 0..10 {
            match self.core.handle_next(reader) {
                Ok(true) => told.taken = told.taken.saturating_add(1),
                Ok(false) => return,
                Err(refusal) => {
                    assert_same(rt, &refusal, &Refusal::BadTag);
                    told.refused = told.refused.saturating_add(1);
                }
            }
        }
        panic!(rt; "the stream has fewer frames");
    }

    /// Takes in the stream in two pieces.
    fn takes_pieces(&mut self, rt: &impl Abort, first: &[u8], second: &[u8]) {
        let mut reader = FrameReader::new(self.alloc);
        let mut told = Told {
            taken: 0,
            refused: 0,
        };
        reader.feed(first).expect(rt, "the piece has room");
        self.takes_whole(rt, &mut reader, &mut told);
        reader.feed(second).expect(rt, "the piece has room");
        self.takes_whole(rt, &mut reader, &mut told);
        let wanted = Told {
            taken: 5,
            refused: 1,
        };
        assert_same(rt, &told, &wanted);
        assert_same(rt, &reader.finish(), &Ok(()));
        self.has_decided(rt, 2);
    }

    /// Takes in the proposal, and then a length above the limit.
    fn takes_too_long_a_length<R: Abort>(&mut self, rt: &R) {
        let mut reader = FrameReader::new(self.alloc);
        let proposal = self.frame(rt, 0x00, &self.proposal(rt));
        self.finds_too_long_a_length(rt, &mut reader, &proposal);
    }

    fn finds_too_long_a_length(
        &mut self,
        rt: &impl Abort,
        reader: &mut FrameReader,
        proposal: &[u8],
    ) {
        reader.feed(proposal).expect(rt, "the proposal has room");
        reader
            .feed(&[0x00, 0x10, 0x00, 0x01])
            .expect(rt, "the length has room");
        assert_same(rt, &self.core.handle_next(reader), &Ok(true));
        assert_same(rt, &self.core.handle_next(reader), &Err(Refusal::TooLong));
        assert_same(rt, &self.core.handle_next(reader), &Err(Refusal::TooLong));
    }
}

/// A validator that has begun takes in the stream, cut here where it is so long.
fn takes_cut_stream(rt: &impl Abort, alloc: Global, stream: &[u8], at: usize) {
    if let (Some(first), Some(second)) = (stream.get(..at), stream.get(at..)) {
        let mut node = Node::new(rt, alloc);
        node.takes_pieces(rt, first, second);
    }
}

#[test]
fn a_stream_is_cut_anywhere(rt: HostRuntime) {
    let stream = Node::new(&rt, rt.alloc()).stream(&rt);
    assert!(&rt; stream.len() < 2_000);
    for at in 0..2_000 {
        takes_cut_stream(&rt, rt.alloc(), &stream, at);
    }
}

#[test]
fn a_length_above_the_limit_ends_a_stream(rt: HostRuntime) {
    on_node(&rt, rt.alloc(), Node::takes_too_long_a_length);
}
