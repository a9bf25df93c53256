//! Frames out of streams that are cut in any way.

use super::frames::frame_of_four;
use super::{assert_fault, assert_holds};
use messages::FrameReader;
use std::alloc::Global;
use transactions::Fault;

/// Whether the reader gives this frame next.
fn gives(reader: &mut FrameReader, frame: &[u8]) -> bool {
    matches!(reader.next_frame(), Ok(Some(given)) if given == frame)
}

/// Whether the reader has no whole frame to give.
fn gives_none(reader: &mut FrameReader) -> bool {
    matches!(reader.next_frame(), Ok(None))
}

/// Whether a frame that comes byte by byte is given once it is whole, and not before.
fn comes_byte_by_byte(reader: &mut FrameReader, frame: &[u8]) -> Result<bool, Fault> {
    let mut late = true;
    for byte in frame {
        late = late && gives_none(reader);
        reader.feed(&[*byte])?;
    }
    Ok(late && gives(reader, frame) && gives_none(reader) && reader.finish().is_ok())
}

/// Two frames, one behind the other.
#[derive(Clone, Copy)]
struct Pair<'a> {
    first: &'a [u8],
    second: &'a [u8],
}

/// Whether both frames come of a stream in two pieces, the first one as soon as it is whole.
fn come_in_two(
    reader: &mut FrameReader,
    frames: &Pair<'_>,
    front: &[u8],
    back: &[u8],
) -> Result<bool, Fault> {
    reader.feed(front)?;
    let early = gives(reader, frames.first);
    reader.feed(back)?;
    let first = early || gives(reader, frames.first);
    let both = first && gives(reader, frames.second) && gives_none(reader);
    Ok(both && early == (front.len() >= frames.first.len()))
}

/// Whether both frames come wherever the stream of them is cut.
fn come_cut_anywhere(
    reader: &mut FrameReader,
    frames: &Pair<'_>,
    stream: &[u8],
) -> Result<bool, Fault> {
    let mut come = true;
    for at in 0..=stream.len() {
        let (front, back) = stream.split_at(at);
        come = come && come_in_two(reader, frames, front, back)?;
    }
    Ok(come)
}

fn unknown_byte_by_byte(alloc: Global) -> Result<bool, Fault> {
    comes_byte_by_byte(&mut FrameReader::new(alloc), &[0, 0, 0, 1, 0x7f])
}

#[test]
fn byte_by_byte(rt: HostRuntime) {
    assert_holds(&rt, unknown_byte_by_byte(rt.alloc()));
}

/// A reply, as a frame.
const REPLY: [u8; 7] = [0, 0, 0, 3, 0x20, 13, 4];

/// Whether this frame and a reply come wherever the stream of them is cut.
fn with_reply_cut_anywhere(alloc: Global, frame: &[u8]) -> Result<bool, Fault> {
    let mut stream = Vec::new(alloc);
    stream.extend_from_slice(frame)?;
    stream.extend_from_slice(&REPLY)?;
    let frames = Pair {
        first: frame,
        second: &REPLY,
    };
    come_cut_anywhere(&mut FrameReader::new(alloc), &frames, &stream)
}

#[test]
fn cut_at_each_place(rt: HostRuntime) {
    let frame = frame_of_four(&rt, rt.alloc());
    assert_holds(&rt, with_reply_cut_anywhere(rt.alloc(), &frame));
}

/// Two frames, and the beginning of a third.
const TWO_AND_A_PART: [u8; 13] = [0, 0, 0, 1, 0x7f, 0, 0, 0, 2, 7, 8, 0, 0];

/// Whether the frames that stand whole in a reader can be looked at, twice too, before they are given.
fn are_looked_at_first(alloc: Global) -> Result<bool, Fault> {
    let (first, second) = (&TWO_AND_A_PART[..5], &TWO_AND_A_PART[5..11]);
    let mut reader = FrameReader::new(alloc);
    reader.feed(&TWO_AND_A_PART)?;
    let mut seen = true;
    for _ in 0..2 {
        let mut whole = reader.whole_frames();
        seen = seen && whole.next_whole() == Some(first);
        seen = seen && whole.next_whole() == Some(second);
        seen = seen && whole.next_whole().is_none();
    }
    Ok(seen && gives(&mut reader, first) && gives(&mut reader, second) && gives_none(&mut reader))
}

#[test]
fn looked_at_before_they_are_given(rt: HostRuntime) {
    assert_holds(&rt, are_looked_at_first(rt.alloc()));
}

/// Whether the fault is told of the next frame and of the end, also after a further piece.
fn is_too_long(reader: &mut FrameReader) -> Result<bool, Fault> {
    let told = matches!(reader.next_frame(), Err(Fault::TooLong));
    reader.feed(&[0, 0, 0, 0, 0])?;
    let again = matches!(reader.next_frame(), Err(Fault::TooLong));
    Ok(told && again && reader.finish() == Err(Fault::TooLong))
}

/// A whole frame comes before the length that is above the limit, and that one is the last word.
fn frame_before_too_long(alloc: Global) -> Result<bool, Fault> {
    let mut reader = FrameReader::new(alloc);
    reader.feed(&[0, 0, 0, 1, 0x7f, 0, 0x10, 0, 1])?;
    Ok(gives(&mut reader, &[0, 0, 0, 1, 0x7f]) && is_too_long(&mut reader)?)
}

#[test]
fn too_long_behind_a_frame(rt: HostRuntime) {
    assert_holds(&rt, frame_before_too_long(rt.alloc()));
}

/// The fault of the end of these bytes.
fn fault_of_end(alloc: Global, bytes: &[u8]) -> Option<Fault> {
    let mut reader = FrameReader::new(alloc);
    reader.feed(bytes).err().or(reader.finish().err())
}

#[test]
fn torn_frame(rt: HostRuntime) {
    assert_fault(&rt, fault_of_end(rt.alloc(), &[0, 0, 0]), Fault::Truncated);
}

/// Feeds this many sevens one by one, and says whether no frame came.
fn feed_sevens(reader: &mut FrameReader, count: usize) -> Result<bool, Fault> {
    let mut none = true;
    for _ in 0..count {
        reader.feed(&[7])?;
        none = none && gives_none(reader);
    }
    Ok(none)
}

/// How long the next frame is.
fn len_of_next(reader: &mut FrameReader) -> Option<usize> {
    match reader.next_frame() {
        Ok(Some(frame)) => Some(frame.len()),
        _ => None,
    }
}

/// The longest frame, byte by byte.
fn longest_frame(alloc: Global) -> Result<bool, Fault> {
    let mut reader = FrameReader::new(alloc);
    reader.feed(&[0, 0x10, 0, 0])?;
    let none = feed_sevens(&mut reader, 1_048_575)?;
    reader.feed(&[7])?;
    Ok(none && len_of_next(&mut reader) == Some(1_048_580))
}

#[test]
fn a_megabyte_byte_by_byte(rt: HostRuntime) {
    assert_holds(&rt, longest_frame(rt.alloc()));
}

#[test]
fn the_law_takes_nothing() {
    messages::pieces_law();
}
