//! The line of a delivered item.

ghost use Rattle.std.specs.Prelude.{◌≡◌, Some};
ghost use Rattle.printed_lines.specs.Items.{sender_text, op_text, item_line, line_of_item, line_of_tx};

use crate::hexadecimal::Hex;
use std::fmt;
use transactions::{Item, Op, Tx};

/// A delivered item, shown as its line without the line feed: `POSITION CLIENT NUMBER HEX`, where CLIENT is `CLIENT.SESSION`
/// in a session after the client's first, and HEX is `close` for a close and `-` for no bytes.
#[derive(Clone, Copy, Debug)]
pub struct ItemLine<'a> {
    /// The position in the delivered list, from 0.
    pub position: u64,
    pub client: u16,
    pub session: u32,
    pub number: u64,
    pub op: &'a Op,
}

impl<'a> ItemLine<'a> {
    /// That of an item at this position.
    pub fn of_item(position: u64, item: &'a Item) -> ItemLine<'a>
        ensures { item_line result ≡ line_of_item position item.now }
    {
        ItemLine {
            position,
            client: item.client,
            session: item.session,
            number: item.number,
            op: &item.op,
        }
    }

    /// That of a transaction which is delivered at this position.
    pub fn of_tx(position: u64, tx: &'a Tx) -> ItemLine<'a>
        ensures { item_line result ≡ line_of_tx position tx.now }
    {
        ItemLine {
            position,
            client: tx.client,
            session: tx.session,
            number: tx.number,
            op: &tx.op,
        }
    }
}

impl fmt::Display for ItemLine<'_> {
    ghost output = { λ line. Some (item_line line) };

    fn fmt<W: fmt::Write>(&self, f: &mut fmt::Formatter<W>) -> fmt::Result {
        let sender = Sender {
            client: self.client,
            session: self.session,
        };
        let op = Deed(self.op);
        write!(f, "{} {sender} {} {op}", self.position, self.number)
    }
}

/// Who sent an item: a client in one of its sessions.
#[derive(Clone, Copy)]
struct Sender {
    client: u16,
    session: u32,
}

impl fmt::Display for Sender {
    ghost output = { λ sender. Some (sender_text sender.client sender.session) };

    fn fmt<W: fmt::Write>(&self, f: &mut fmt::Formatter<W>) -> fmt::Result {
        match self.session {
            0 => write!(f, "{}", self.client),
            session => write!(f, "{}.{session}", self.client),
        }
    }
}

/// What an item does.
#[derive(Clone, Copy)]
struct Deed<'a>(&'a Op);

impl fmt::Display for Deed<'_> {
    ghost output = { λ deed. Some (op_text deed.0.now) };

    fn fmt<W: fmt::Write>(&self, f: &mut fmt::Formatter<W>) -> fmt::Result {
        match self.0 {
            Op::Close => f.write_str("close"),
            Op::Bytes(bytes) if bytes.as_slice().is_empty() => f.write_str("-"),
            Op::Bytes(bytes) => write!(f, "{}", Hex(bytes.as_slice())),
        }
    }
}
