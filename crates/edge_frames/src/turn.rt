//! Which of a height's frames are passed on next.

ghost use Rattle.std.specs.Prelude.{◌≡◌, ◌≤◌, ◌<◌, ◌+◌, length, take};
ghost use Rattle.edge_frames.specs.Turns.{FitsTurn, IsTurn, start};

use crate::height_frames::SentFrame;

/// How many frames are passed on in one turn at most.
pub const MOST_TURN_FRAMES: usize = 256;

/// How many bytes the frames of one turn have at most, where there are several.
///
/// A turn comes each second, and goes to each link. At 128 validators a round has 254 votes of the others,
/// of up to 4,149 bytes each, and its proposal. A turn takes 126 of these votes, so four rounds of them, 4.2
/// MB, take nine seconds. All 254 links to the others together get 133 MB each second, where all
/// frames of four rounds at once would be 1.1 GB, and 1,016 of the 1,024 places of each queue.
pub const MOST_TURN_BYTES: usize = 524_288;

/// The frames that are passed on in one turn.
#[derive(Clone, Copy, Debug)]
pub struct Turn<'a> {
    pub frames: &'a [SentFrame],
    /// The place where the next turn begins.
    pub next: usize,
}

/// The turn that begins at this place: as many of the frames from there on as fit one turn. The next one
/// begins behind them, and behind the last frame at the first one again.
#[tactic(auto, using(crate::proofs::Turning::turn_is))]
pub fn turn_from(frames: &[SentFrame], place: usize) -> Turn<'_>
    ensures { IsTurn frames.now place result.frames.now result.next }
{
    let start = start_of(place, frames.len());
    let rest = &frames[start..];
    let count = fitting(rest);
    Turn {
        frames: &rest[..count],
        next: start_of(start + count, frames.len()),
    }
}

/// Where a turn over so many frames begins: at this place, if it is one of theirs, else at the first one.
fn start_of(place: usize, count: usize) -> usize
    ensures place { result ≡ start place count }
    ensures within { result ≤ count }
{
    if place < count { place } else { 0 }
}

/// How many of the first frames fit one turn.
#[tactic(auto, using(crate::proofs::Turning::none_fits, crate::proofs::Turning::one_fits, crate::proofs::Turning::more_fit, crate::proofs::Turning::too_many, crate::proofs::Turning::too_long))]
fn fitting(frames: &[SentFrame]) -> usize
    ensures within { result ≤ length frames.now }
    ensures fits { FitsTurn (take result frames.now) }
    ensures next { result < length frames.now → ¬ FitsTurn (take (result + 1) frames.now) }
{
    let [first, ..] = frames else {
        return 0;
    };
    let mut bytes = first.frame.len();
    for count in 1..frames.len() {
        bytes += frames[count].frame.len();
        if count >= MOST_TURN_FRAMES || bytes > MOST_TURN_BYTES {
            return count;
        }
    }
    frames.len()
}
