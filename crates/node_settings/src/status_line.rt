//! How far a validator is, as it tells who asks.

ghost use Rattle.std.specs.Prelude.{Some};
ghost use Rattle.node_settings.specs.Failures.{status_line};

use std::fmt;

/// What `tmnode run --status` tells, shown without its line feed: `height H delivered N links K`.
#[derive(Clone, Copy, Debug, PartialEq, Eq)]
pub struct StatusLine {
    /// The height that the validator is in.
    pub height: u64,
    /// How many items it has delivered.
    pub delivered: u64,
    /// How many links are open.
    pub links: u64,
}

impl fmt::Display for StatusLine {
    ghost output = { λ line. Some (status_line line) };

    fn fmt<W: fmt::Write>(&self, f: &mut fmt::Formatter<W>) -> fmt::Result {
        write!(
            f,
            "height {} delivered {} links {}",
            self.height, self.delivered, self.links
        )
    }
}
