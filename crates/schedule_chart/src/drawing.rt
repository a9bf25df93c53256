//! The parts of a picture.

use crate::escaped::Escaped;
use crate::kind::Kind;
use crate::lane::Lane;
use crate::mark::{Mark, Note};
use crate::row::Row;
use std::fmt;

/// Where the texts of rows begin.
const ROW_TEXT: usize = 8;
/// The most letters of the text of a row.
const ROW_LETTERS: usize = 44;
/// The most letters of the text of a mark, behind its first word.
const NOTE_LETTERS: usize = 20;
/// How far right of its mark a text is.
const NOTE_GAP: usize = 9;
/// Where lanes begin, and how far above that their names are.
const LANE_TOP: usize = 74;

const NAME_GAP: usize = 7;
/// How far the middle of a line of text is above its foot.
const HALF_LETTER: usize = 4;
/// How far left of a lane an arrow begins that nobody in the diagram sent.
const NOBODY_GAP: usize = 40;
/// How far an arrow swings out that comes back to its lane.
const SWING: usize = 34;

/// A point of the picture, right and down from its corner.
#[derive(Clone, Copy, Debug, PartialEq, Eq)]
pub(crate) struct Point {
    pub(crate) x: usize,
    pub(crate) y: usize,
}

/// Writes the line of a row, and its text.
pub(crate) fn write_row<W: fmt::Write>(
    row: &Row<'_>,
    width: usize,
    f: &mut fmt::Formatter<W>,
) -> fmt::Result {
    let (y, foot) = (row.top, row.top.saturating_add(HALF_LETTER));
    let text = Escaped {
        text: row.text,
        most: ROW_LETTERS,
    };
    write!(
        f,
        "<path class=\"row\" d=\"M{ROW_TEXT} {y}H{width}\"/><text class=\"row\" x=\"{ROW_TEXT}\" y=\"{foot}\">{text}</text>\n"
    )
}

/// Writes a lane, and its name.
pub(crate) fn write_lane<W: fmt::Write>(
    lane: &Lane,
    x: usize,
    height: usize,
    f: &mut fmt::Formatter<W>,
) -> fmt::Result {
    let party = lane.party;
    let name = LANE_TOP - NAME_GAP;
    let class = if lane.lies { "lane liar" } else { "lane" };
    write!(
        f,
        "<path class=\"{class}\" d=\"M{x} {LANE_TOP}V{height}\"/><text class=\"name\" x=\"{x}\" y=\"{name}\">{party}</text>\n"
    )
}

/// Writes an arrow. Where nobody sent it, it comes from the left.
pub(crate) fn write_arrow<W: fmt::Write>(
    kind: Kind,
    from: Option<Point>,
    to: Point,
    f: &mut fmt::Formatter<W>,
) -> fmt::Result {
    let (word, colour, Point { x, y }) = (kind.word(), kind.colour(), to);
    let start = from.unwrap_or(Point {
        x: x.saturating_sub(NOBODY_GAP),
        y,
    });
    let (from_x, from_y) = (start.x, start.y);
    write!(
        f,
        "<path class=\"arrow\" stroke=\"{colour}\" marker-end=\"url(#{word})\" d=\"M{from_x} {from_y}"
    )?;
    if from_x == x {
        let swing = x.saturating_sub(SWING);
        write!(f, "C{swing} {from_y} {swing} {y} {x} {y}\"/>\n")
    } else {
        write!(f, "L{x} {y}\"/>\n")
    }
}

/// Writes a mark, and its text.
pub(crate) fn write_note<W: fmt::Write>(
    note: &Note<'_>,
    at: Point,
    f: &mut fmt::Formatter<W>,
) -> fmt::Result {
    let Point { x, y } = at;
    write!(f, "<g transform=\"translate({x} {y})\">")?;
    write_mark(note.mark, f)?;
    write_note_text(note, f)?;
    f.write_str("</g>\n")
}

/// Writes a mark at the corner.
pub(crate) fn write_mark<W: fmt::Write>(mark: Mark, f: &mut fmt::Formatter<W>) -> fmt::Result {
    match mark {
        Mark::Sent(kind) | Mark::Said(kind) => {
            let colour = kind.colour();
            write!(f, "<circle r=\"3.2\" fill=\"{colour}\"/>")
        }
        _ => f.write_str(shape(mark)),
    }
}

/// Returns the shape of a mark that is no message's.
fn shape(mark: Mark) -> &'static str {
    match mark {
        Mark::Decided => "<path d=\"M0 -7L7 0L0 7L-7 0z\"/>",
        Mark::Refused => "<path class=\"cross\" d=\"M-4 -4L4 4M-4 4L4 -4\"/>",
        Mark::Timeout => "<circle class=\"empty\" r=\"5\"/><path class=\"thin\" d=\"M0 -3V0H3\"/>",
        Mark::Restarted =>
            "<path class=\"gap\" d=\"M0 -6V6\"/><path class=\"thin\" d=\"M-6 -6H6M-6 6H6\"/>",
        Mark::Failing => "<path class=\"fail\" d=\"M0 -6L6 5H-6z\"/>",
        Mark::Asked => "<path class=\"empty\" d=\"M-4 -4H4V4H-4z\"/>",
        Mark::Sent(_) | Mark::Said(_) | Mark::Ended => "",
    }
}

/// Writes the text of a mark that is at the corner. That of a message is higher, above the arrows that go down from there, and that of what the
/// row's line itself sent above its level arrow.
fn write_note_text<W: fmt::Write>(note: &Note<'_>, f: &mut fmt::Formatter<W>) -> fmt::Result {
    let (head, colour, class) = (note.head, colour_of(note.mark), class_of(note.mark));
    let text = Escaped {
        text: note.text,
        most: NOTE_LETTERS,
    };
    let foot = match note.mark {
        Mark::Said(_) => "-4",
        Mark::Sent(_) => "1",
        _ => "4",
    };
    write!(
        f,
        "<text class=\"{class}\" x=\"{NOTE_GAP}\" y=\"{foot}\" fill=\"{colour}\">{head} {text}</text>"
    )
}

/// Returns the colour of a mark's text.
fn colour_of(mark: Mark) -> &'static str {
    match mark {
        Mark::Sent(kind) | Mark::Said(kind) => kind.colour(),
        Mark::Refused => "#d00000",
        Mark::Decided => "#000000",
        Mark::Timeout | Mark::Restarted | Mark::Failing | Mark::Asked | Mark::Ended => "#444444",
    }
}

/// Returns the style of a mark's text.
fn class_of(mark: Mark) -> &'static str {
    match mark {
        Mark::Decided => "note decided",
        _ => "note",
    }
}
