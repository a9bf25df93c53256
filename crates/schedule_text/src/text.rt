//! The lines of a schedule's text.

ghost use Rattle.std.specs.Prelude.{◌≡◌, IfOk, map};
ghost use Rattle.schedule_text.specs.Texts.{is_reported, without_last_feed, kept_lines};

use crate::words::{is_silent, is_word};
use std::alloc::{AllocError, Global};

/// What a line of a report begins with in a schedule's text.
const MARK: &[u8; 5] = b"#    ";

/// Returns the lines of a text but those of a report that is in it.
pub(crate) fn kept_lines(alloc: Global, text: &[u8]) -> Result<Vec<&[u8]>, AllocError>
    ensures { IfOk result (λ lines. map (λ line. line.now) lines.items ≡ kept_lines text.now) }
{
    without_last_feed(text)
        .split(|byte| *byte == b'\n')
        .filter(|line| !is_reported(line))
        .collect(alloc)
}

/// Returns the text without the line feed at its end.
fn without_last_feed(text: &[u8]) -> &[u8]
    ensures { result.now ≡ without_last_feed text.now }
{
    match text {
        [lines @ .., b'\n'] => lines,
        _ => text,
    }
}

/// Returns whether a line is one of a report.
fn is_reported(line: &[u8]) -> bool
    ensures { result ≡ is_reported line.now }
{
    line.starts_with(MARK)
}

/// Returns whether a line is one of the setup.
pub(crate) fn is_setup(line: &[u8]) -> bool {
    let word = line.split(|byte| *byte == b' ').next().unwrap_or(line);
    is_word(word, "powers")
        || is_word(word, "clients")
        || is_word(word, "liars")
        || is_word(word, "value")
}

/// Returns whether a line of a schedule is executed.
pub(crate) fn is_executed(line: &[u8]) -> bool {
    !is_silent(line) && !is_setup(line)
}
