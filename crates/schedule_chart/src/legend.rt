//! What the colours and the marks of a picture mean.

use crate::drawing::write_mark;
use crate::kind::Kind;
use crate::mark::Mark;
use std::fmt;

/// How wide the legend is.
pub(crate) const WIDTH: usize = 780;
/// How far its parts are from one another, and where the first is.
const PART_WIDTH: usize = 108;

const FIRST_PART: usize = 16;
/// How far right of a sign its meaning is.
const TEXT_GAP: usize = 36;

const STYLE: &str = "\
<style>
text{font-family:sans-serif;font-size:11px}
text.row{font-family:monospace;font-size:10px;fill:#333}
path.row{stroke:#ececec}
.lane{stroke:#888;stroke-width:1.5}
.liar{stroke-dasharray:6 4}
.name{font-weight:bold;font-size:13px;text-anchor:middle}
.arrow{fill:none;stroke-width:1.2}
.note{paint-order:stroke;stroke:#fff;stroke-width:3px;stroke-linejoin:round}
.decided{font-weight:bold}
.cross{stroke:#d00000;stroke-width:2.2}
.empty{fill:#fff;stroke:#444;stroke-width:1.4}
.thin{fill:none;stroke:#444;stroke-width:1.6}
.gap{stroke:#fff;stroke-width:5}
.fail{fill:#f2a100;stroke:#7a5200}
</style>
<rect width=\"100%\" height=\"100%\" fill=\"#fff\"/>
";

/// The marks that are explained, with their meanings.
const MARKS: [(Mark, &str); 6] = [
    (Mark::Decided, "decision"),
    (Mark::Timeout, "timeout"),
    (Mark::Restarted, "restart"),
    (Mark::Failing, "failing store"),
    (Mark::Refused, "refusal"),
    (Mark::Asked, "other line"),
];

/// Writes the style, the heads of arrows and the legend.
pub(crate) fn write_legend<W: fmt::Write>(f: &mut fmt::Formatter<W>) -> fmt::Result {
    f.write_str(STYLE)?;
    write_kinds(f)?;
    write_marks(f)?;
    f.write_str(
        "<path class=\"lane liar\" d=\"M664 36h28\"/><text x=\"700\" y=\"40\">Byzantine</text>\n",
    )
}

/// Writes each kind of message.
fn write_kinds<W: fmt::Write>(f: &mut fmt::Formatter<W>) -> fmt::Result {
    for (place, kind) in Kind::ALL.iter().enumerate() {
        write_kind(x_of(place), *kind, f)?;
    }
    Ok(())
}

/// Writes the head of a kind's arrows, an arrow and its meaning.
fn write_kind<W: fmt::Write>(x: usize, kind: Kind, f: &mut fmt::Formatter<W>) -> fmt::Result {
    let (word, colour, meaning) = (kind.word(), kind.colour(), kind.meaning());
    let text = x.saturating_add(TEXT_GAP);
    write!(
        f,
        "<marker id=\"{word}\" viewBox=\"0 0 8 8\" refX=\"8\" refY=\"4\" markerWidth=\"7\" markerHeight=\"7\" orient=\"auto\">"
    )?;
    write!(f, "<path d=\"M0 0L8 4L0 8z\" fill=\"{colour}\"/></marker>")?;
    write!(
        f,
        "<path class=\"arrow\" stroke=\"{colour}\" marker-end=\"url(#{word})\" d=\"M{x} 16h28\"/>"
    )?;
    write!(f, "<text x=\"{text}\" y=\"20\">{meaning}</text>\n")
}

/// Writes each mark that is explained.
fn write_marks<W: fmt::Write>(f: &mut fmt::Formatter<W>) -> fmt::Result {
    for (place, (mark, meaning)) in MARKS.iter().enumerate() {
        write_meaning(x_of(place), *mark, meaning, f)?;
    }
    Ok(())
}

/// Writes a mark and its meaning.
fn write_meaning<W: fmt::Write>(
    x: usize,
    mark: Mark,
    meaning: &str,
    f: &mut fmt::Formatter<W>,
) -> fmt::Result {
    let (middle, text) = (x.saturating_add(20), x.saturating_add(TEXT_GAP));
    write!(f, "<g transform=\"translate({middle} 36)\">")?;
    write_mark(mark, f)?;
    write!(f, "</g><text x=\"{text}\" y=\"40\">{meaning}</text>\n")
}

/// Returns where a part of the legend is.
fn x_of(place: usize) -> usize {
    place.saturating_mul(PART_WIDTH).saturating_add(FIRST_PART)
}
