//! The line of where a journal ends within an entry, or is none any more.

ghost use Rattle.std.specs.Prelude.{Some};
ghost use Rattle.printed_lines.specs.Records.{end_line};

use std::fmt;

/// Why nothing more is read of a journal.
#[derive(Clone, Copy, Debug, PartialEq, Eq)]
pub enum End {
    /// So many bytes are left, which are less than a whole entry: a stop cut it short, or it is being written.
    Torn(usize),
    /// What stands there is no entry.
    Bad,
}

/// Where a journal ends, shown as its line without the line feed: `OFFSET BYTES torn`, or `OFFSET bad`.
#[derive(Clone, Copy, Debug)]
pub struct EndLine {
    /// Where what is left begins, in bytes from the beginning of the journal.
    pub offset: u64,
    pub end: End,
    /// Whether it is shown as a JSON object.
    pub is_json: bool,
}

impl fmt::Display for EndLine {
    ghost output = { λ line. Some (end_line line) };

    fn fmt<W: fmt::Write>(&self, f: &mut fmt::Formatter<W>) -> fmt::Result {
        let offset = self.offset;
        match (self.end, self.is_json) {
            (End::Torn(bytes), false) => write!(f, "{offset} {bytes} torn"),
            (End::Torn(bytes), true) => {
                write!(
                    f,
                    "{{\"offset\":{offset},\"bytes\":{bytes},\"step\":\"torn\"}}"
                )
            }
            (End::Bad, false) => write!(f, "{offset} bad"),
            (End::Bad, true) => write!(f, "{{\"offset\":{offset},\"step\":\"bad\"}}"),
        }
    }
}
