//! The parties that send messages.

ghost use Rattle.std.specs.Prelude.{Some};
ghost use Rattle.authenticators.specs.Party.{shown};

use std::fmt;

/// Who sends a message. A validator also receives messages; a client only sends them.
///
/// It is shown as `v3` or `c7`.
#[derive(Clone, Copy, Debug, PartialEq, Eq)]
pub enum Party {
    /// A validator, by its number.
    Validator(u16),
    /// A client, by its number.
    Client(u16),
}

impl fmt::Display for Party {
    ghost output = { λ party. Some (shown party) };

    fn fmt<W: fmt::Write>(&self, f: &mut fmt::Formatter<W>) -> fmt::Result {
        match self {
            Party::Validator(number) => write!(f, "v{number}"),
            Party::Client(number) => write!(f, "c{number}"),
        }
    }
}
