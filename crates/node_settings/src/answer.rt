//! What a client is told of the transaction that it sent.

ghost use Rattle.std.specs.Prelude.{◌≡◌, Some};
ghost use Rattle.node_settings.specs.Failures.{answer_line, answer_status};

use messages::Reply;
use std::fmt;

/// A node's reply, as `tmnode send` tells it: `accepted`, or `refused A B` with the number of the refusal and the inner one.
#[derive(Clone, Copy, Debug, PartialEq, Eq)]
pub struct Answer {
    pub reply: Reply,
}

impl Answer {
    /// The exit status: 0 where the transaction was accepted, else 1.
    pub fn status(self) -> u8
        ensures { result ≡ answer_status self }
    {
        if self.reply.code == 0 { 0 } else { 1 }
    }
}

impl fmt::Display for Answer {
    ghost output = { λ answer. Some (answer_line answer) };

    fn fmt<W: fmt::Write>(&self, f: &mut fmt::Formatter<W>) -> fmt::Result {
        match self.reply.code {
            0 => f.write_str("accepted"),
            code => write!(f, "refused {code} {}", self.reply.inner),
        }
    }
}
