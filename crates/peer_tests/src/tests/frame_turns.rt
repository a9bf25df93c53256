//! How many turns it takes until all frames of a height are passed on.

use super::assert_same;
use bytes::Bytes;
use edge_frames::{HeightFrames, MOST_TURN_BYTES, MOST_TURN_FRAMES, SentFrame, turn_from};
use std::alloc::Global;
use std::process::Abort;

/// How many bytes the frame of a vote for a value has among 128 validators: 4 of its length, 48 of its body,
/// and 1 and 128 times 32 of its tags.
const VOTE_BYTES: usize = 4_149;

/// How many votes a validator says in four rounds.
const VOTES: usize = 8;

/// Keeps this frame once for each of so many senders.
fn say(rt: &impl Abort, kept: &mut HeightFrames, senders: u16, frame: &Bytes) {
    for sender in 0..senders {
        let shared = frame.clone().expect(rt, "no memory");
        kept.keep(sender, shared).expect(rt, "no room");
    }
}

/// A frame of so many zeros.
fn frame_of(rt: &impl Abort, alloc: Global, bytes: usize) -> Bytes {
    let zeros = vec![in alloc; 0u8; bytes].expect(rt, "no memory");
    Bytes::from_vec(zeros).expect(rt, "no memory")
}

/// The frames of so many bytes that each of so many senders said.
fn said(rt: &impl Abort, alloc: Global, senders: u16, bytes: usize) -> HeightFrames {
    let frame = frame_of(rt, alloc, bytes);
    let mut kept = HeightFrames::new(alloc);
    for _ in 0..VOTES {
        say(rt, &mut kept, senders, &frame);
    }
    kept
}

/// Whether a turn has no more frames than it may, and no more bytes but of a single frame.
fn is_short(frames: &[SentFrame]) -> bool {
    let mut bytes = 0usize;
    for sent in frames {
        bytes = bytes.saturating_add(sent.frame.len());
    }
    frames.len() <= MOST_TURN_FRAMES && (bytes <= MOST_TURN_BYTES || frames.len() == 1)
}

/// After how many turns each frame was passed on once, and the next turn begins at the front again.
fn turns_of<R: Abort>(rt: &R, frames: &[SentFrame]) -> usize {
    let mut place = 0;
    let mut passed = 0usize;
    for turns in 1..=frames.len() {
        let turn = turn_from(frames, place);
        assert!(rt; is_short(turn.frames));
        passed = passed.saturating_add(turn.frames.len());
        place = turn.next;
        if place == 0 {
            assert_same(rt, &passed, &frames.len());
            return turns;
        }
    }
    0
}

/// 126 frames of 4,149 bytes are 522,774 bytes, and one more would pass 524,288.
#[test]
fn four_rounds_of_128_validators_take_nine_turns(rt: HostRuntime) {
    let kept = said(&rt, rt.alloc(), 127, VOTE_BYTES);
    assert_same(&rt, &kept.frames().len(), &1_016);
    assert_same(&rt, &turn_from(kept.frames(), 0).next, &126);
    assert_same(&rt, &turns_of(&rt, kept.frames()), &9);
}

#[test]
fn short_and_long_frames_take_turns(rt: HostRuntime) {
    let alloc = rt.alloc();
    for (senders, turns) in [(3, 1), (127, 4)] {
        let short = said(&rt, alloc, senders, 181);
        assert_same(&rt, &turns_of(&rt, short.frames()), &turns);
    }
    let mut long = HeightFrames::new(alloc);
    for sender in 0..3 {
        let frame = frame_of(&rt, alloc, MOST_TURN_BYTES + 1);
        long.keep(sender, frame).expect(&rt, "no room");
    }
    assert_same(&rt, &turns_of(&rt, long.frames()), &3);
}
