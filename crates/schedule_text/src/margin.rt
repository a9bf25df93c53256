//! What the lines of a report begin with.

use std::fmt;

/// The text in front of each line of a report.
#[derive(Clone, Copy)]
pub(crate) enum Margin {
    Nothing,
    /// The mark of a line of the report in a schedule, where it is a comment.
    Comment,
}

impl fmt::Display for Margin {
    fn fmt<W: fmt::Write>(&self, f: &mut fmt::Formatter<W>) -> fmt::Result {
        match self {
            Margin::Nothing => Ok(()),
            Margin::Comment => f.write_str("#    "),
        }
    }
}
