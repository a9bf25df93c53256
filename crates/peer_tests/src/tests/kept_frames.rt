//! That early frames and those of a height come out as they went in, and what no contract says: that a call can succeed.

use super::assert_same;
use bytes::Bytes;
use edge_frames::{
    CatchUp, EarlyFrames, HeightFrames, KeepFault, LinkId, MOST_LINK_FRAMES, MOST_LINKS,
    MOST_SENDER_FRAMES, PassFault,
};
use std::alloc::{AllocError, Global};
use std::process::Abort;

/// A frame of one byte.
fn frame_of(alloc: Global, number: u8) -> Result<Bytes, AllocError> {
    Bytes::copy_from_slice(alloc, &[number])
}

/// The number in a frame.
fn number_of(frame: &Bytes) -> u8 {
    match frame.as_slice() {
        [number] => *number,
        _ => u8::MAX,
    }
}

/// Keeps a frame: none, or why not.
fn keep(
    alloc: Global,
    early: &mut EarlyFrames,
    link: u32,
    height: u64,
    number: u8,
) -> Option<KeepFault> {
    let Ok(frame) = frame_of(alloc, number) else {
        return Some(KeepFault::OutOfMemory);
    };
    early.keep(LinkId(link), height, frame).err()
}

/// The link and the number of the next frame of this height.
fn take(early: &mut EarlyFrames, height: u64) -> Option<(u32, u8)> {
    let (link, frame) = early.take(height)?;
    Some((link.0, number_of(&frame)))
}

/// Frames of these links, heights and numbers are kept.
fn assert_kept(rt: &impl Abort, alloc: Global, early: &mut EarlyFrames, frames: &[(u32, u64, u8)]) {
    for (link, height, number) in frames {
        assert_same(rt, &keep(alloc, early, *link, *height, *number), &None);
    }
}

/// The next frames of this height are of these links and numbers.
fn assert_taken(rt: &impl Abort, early: &mut EarlyFrames, height: u64, frames: &[(u32, u8)]) {
    for frame in frames {
        assert_same(rt, &take(early, height), &Some(*frame));
    }
}

/// Frames are given by height, in the order of their links.
fn assert_given(rt: &impl Abort, alloc: Global, early: &mut EarlyFrames) {
    let frames = [
        (7, 5, 1),
        (8, 4, 2),
        (7, 4, 3),
        (7, 3, 4),
        (7, 4, 5),
        (9, 4, 6),
    ];
    assert_kept(rt, alloc, early, &frames);
    early.forget(LinkId(9));
    early.forget_below(4);
    assert_same(rt, &take(early, 3), &None);
    assert_taken(rt, early, 4, &[(7, 3), (7, 5), (8, 2)]);
    assert_same(rt, &take(early, 4), &None);
    assert_taken(rt, early, 5, &[(7, 1)]);
}

#[test]
fn early_frames_are_given_once_their_height_has_come(rt: HostRuntime) {
    let mut early = EarlyFrames::new(rt.alloc());
    assert_given(&rt, rt.alloc(), &mut early);
}

/// Whether a link takes so many frames of this height.
fn fills(alloc: Global, early: &mut EarlyFrames, link: u32, height: u64, count: usize) -> bool {
    for _ in 0..count {
        if keep(alloc, early, link, height, 0).is_some() {
            return false;
        }
    }
    true
}

/// A frame is refused by a link that is full.
fn assert_link_full(
    rt: &impl Abort,
    alloc: Global,
    early: &mut EarlyFrames,
    (link, height, number): (u32, u64, u8),
) {
    let told = keep(alloc, early, link, height, number);
    assert_same(rt, &told, &Some(KeepFault::LinkFull));
}

/// A full link takes a frame of a lower height alone, and drops none of another link.
fn assert_full(rt: &impl Abort, alloc: Global, early: &mut EarlyFrames) {
    assert_kept(rt, alloc, early, &[(2, 9, 1)]);
    assert!(rt; fills(alloc, early, 1, 9, MOST_LINK_FRAMES));
    assert_link_full(rt, alloc, early, (1, 9, 2));
    assert_kept(rt, alloc, early, &[(1, 8, 3)]);
    assert_taken(rt, early, 8, &[(1, 3)]);
    assert_kept(rt, alloc, early, &[(1, 10, 4)]);
    assert_link_full(rt, alloc, early, (1, 10, 5));
    early.forget(LinkId(1));
    assert_taken(rt, early, 9, &[(2, 1)]);
}

#[test]
fn a_full_link_drops_none_of_another(rt: HostRuntime) {
    let mut early = EarlyFrames::new(rt.alloc());
    assert_full(&rt, rt.alloc(), &mut early);
}

/// Whether so many links take a frame each.
fn opens(alloc: Global, early: &mut EarlyFrames, count: usize) -> bool {
    let mut link = 0u32;
    for _ in 0..count {
        if keep(alloc, early, link, 9, 0).is_some() {
            return false;
        }
        link = link.saturating_add(1);
    }
    true
}

#[test]
fn one_link_more_than_may_be(rt: HostRuntime) {
    let mut early = EarlyFrames::new(rt.alloc());
    assert!(rt; opens(rt.alloc(), &mut early, MOST_LINKS));
    let told = keep(rt.alloc(), &mut early, 1000, 2, 1);
    assert_same(&rt, &told, &Some(KeepFault::TooManyLinks));
}

/// Keeps a frame to be passed on: none, or why not.
fn pass(alloc: Global, kept: &mut HeightFrames, sender: u16, number: u8) -> Option<PassFault> {
    let Ok(frame) = frame_of(alloc, number) else {
        return Some(PassFault::OutOfMemory);
    };
    kept.keep(sender, frame).err()
}

/// The sender and the number of the frame at a place.
fn kept_at(kept: &HeightFrames, place: usize) -> Option<(u16, u8)> {
    let sent = kept.frames().get(place)?;
    Some((sent.sender, number_of(&sent.frame)))
}

/// Whether a sender's frames are kept until it has no room.
fn fills_sender(alloc: Global, kept: &mut HeightFrames, sender: u16, count: usize) -> bool {
    for _ in 0..count {
        if pass(alloc, kept, sender, 0).is_some() {
            return false;
        }
    }
    true
}

/// Frames of these senders and numbers are kept.
fn assert_passes(rt: &impl Abort, alloc: Global, kept: &mut HeightFrames, frames: &[(u16, u8)]) {
    for (sender, number) in frames {
        assert_same(rt, &pass(alloc, kept, *sender, *number), &None);
    }
}

/// The frames that are kept, from the first one on, and none behind them.
fn assert_all(rt: &impl Abort, kept: &HeightFrames, frames: &[(u16, u8)]) {
    for place in 0..=frames.len() {
        assert_same(rt, &kept_at(kept, place), &frames.get(place).copied());
    }
}

/// Frames are kept in order until their sender has no room or the height is over.
fn assert_passed(rt: &impl Abort, alloc: Global, kept: &mut HeightFrames) {
    let frames = [(3, 1), (127, 2), (3, 3)];
    assert_passes(rt, alloc, kept, &frames);
    assert_all(rt, kept, &frames);
    assert!(rt; fills_sender(alloc, kept, 3, MOST_SENDER_FRAMES - 2));
    for (sender, fault) in [(3, PassFault::SenderFull), (128, PassFault::UnknownSender)] {
        assert_same(rt, &pass(alloc, kept, sender, 4), &Some(fault));
    }
    assert_passes(rt, alloc, kept, &[(4, 4)]);
    kept.clear();
    assert_all(rt, kept, &[]);
    assert_passes(rt, alloc, kept, &[(3, 5)]);
}

#[test]
fn frames_of_a_height_are_passed_on(rt: HostRuntime) {
    let mut kept = HeightFrames::new(rt.alloc());
    assert_passed(&rt, rt.alloc(), &mut kept);
}

#[test]
fn a_node_that_is_behind_asks(rt: HostRuntime) {
    let mut behind = CatchUp::new(100);
    behind.saw(5, 1_000);
    assert_same(&rt, &behind.should_ask(5, 9_000), &false);
    assert_same(&rt, &behind.should_ask(4, 1_099), &false);
    assert_same(&rt, &behind.should_ask(4, 1_100), &true);
    assert_same(&rt, &behind.should_ask(3, 1_000), &true);
    behind.asked();
    assert_same(&rt, &behind.should_ask(3, 1_050), &false);
    behind.advanced(4);
    assert_same(&rt, &behind.should_ask(4, 1_050), &true);
    behind.advanced(5);
    behind.saw(6, 2_000);
    assert_same(&rt, &behind.should_ask(5, 2_050), &false);
}
