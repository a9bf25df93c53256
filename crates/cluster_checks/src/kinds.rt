//! What a frame is, by its front.

ghost use Rattle.std.specs.Prelude.{◌≡◌};
ghost use Rattle.cluster_checks.specs.Judging.{name_of};
ghost use Rattle.cluster_checks.specs.Watching.{is_of_round};

use std::fmt;
use transactions::fields::{u8_at, u16_at, u32_at, u64_at};
use transactions::{Fault, Tx};

/// What a frame brings.
#[derive(Clone, Copy, PartialEq, Eq, PartialOrd, Ord)]
pub enum Kind {
    Proposal = 0,
    Prevote = 1,
    Precommit = 2,
    Ask = 3,
    Bundle = 4,
    Transaction = 5,
    Reply = 6,
    /// No message.
    Other = 7,
}

/// All kinds, in order.
pub const KINDS: [Kind; 8] = [
    Kind::Proposal,
    Kind::Prevote,
    Kind::Precommit,
    Kind::Ask,
    Kind::Bundle,
    Kind::Transaction,
    Kind::Reply,
    Kind::Other,
];

impl Kind {
    /// The kind whose contents begin with this byte.
    fn of_byte(byte: u8) -> Kind {
        match byte {
            0x01 | 0x02 => Kind::Transaction,
            0x10 => Kind::Proposal,
            0x11 => Kind::Prevote,
            0x12 => Kind::Precommit,
            0x13 => Kind::Ask,
            0x14 => Kind::Bundle,
            0x20 => Kind::Reply,
            _ => Kind::Other,
        }
    }

    /// Its name.
    pub fn name(self) -> &'static str {
        match self {
            Kind::Proposal => "proposal",
            Kind::Prevote => "prevote",
            Kind::Precommit => "precommit",
            Kind::Ask => "ask",
            Kind::Bundle => "bundle",
            Kind::Transaction => "transaction",
            Kind::Reply => "reply",
            Kind::Other => "nonsense",
        }
    }

    /// Returns whether it is a proposal or a vote.
    pub fn is_of_round(self) -> bool
        ensures { result ≡ is_of_round self }
    {
        matches!(self, Kind::Proposal | Kind::Prevote | Kind::Precommit)
    }
}

impl fmt::Display for Kind {
    fn fmt<W: fmt::Write>(&self, f: &mut fmt::Formatter<W>) -> fmt::Result {
        let name = self.name();
        write!(f, "{name}")
    }
}

/// The kind of a frame, and where its message is of a validator, of which height, round and sender.
#[derive(Clone, Copy, PartialEq, Eq)]
pub struct Heading {
    pub kind: Kind,
    pub height: u64,
    /// 0 where the kind has none.
    pub round: u32,
    pub sender: u16,
}

impl Heading {
    /// The heading of a frame. Of a transaction, a reply and of nonsense all but the kind is 0.
    pub fn of_frame(frame: &[u8]) -> Heading {
        match u32_at(frame) {
            Ok((_, content)) => Heading::of_body(content),
            Err(_) => Heading::bare(Kind::Other),
        }
    }

    /// The heading of what begins as a body does.
    pub fn of_body(content: &[u8]) -> Heading {
        let kind = match content.first() {
            Some(byte) => Kind::of_byte(*byte),
            None => Kind::Other,
        };
        let found = match kind {
            Kind::Proposal | Kind::Prevote | Kind::Precommit => of_round(kind, content),
            Kind::Ask | Kind::Bundle => of_height(kind, content),
            Kind::Transaction | Kind::Reply | Kind::Other => Ok(Heading::bare(kind)),
        };
        found.unwrap_or(Heading::bare(Kind::Other))
    }

    fn bare(kind: Kind) -> Heading {
        Heading {
            kind,
            height: 0,
            round: 0,
            sender: 0,
        }
    }
}

impl fmt::Display for Heading {
    fn fmt<W: fmt::Write>(&self, f: &mut fmt::Formatter<W>) -> fmt::Result {
        let Heading {
            kind,
            height,
            round,
            sender,
        } = self;
        match kind {
            Kind::Transaction | Kind::Reply | Kind::Other => write!(f, "{kind}"),
            Kind::Ask | Kind::Bundle => write!(f, "{kind} of v{sender}, height {height}"),
            _ => write!(f, "{kind} of v{sender}, height {height}, round {round}"),
        }
    }
}

fn of_round(kind: Kind, content: &[u8]) -> Result<Heading, Fault> {
    let (_, rest) = u8_at(content)?;
    let (height, rest) = u64_at(rest)?;
    let (round, rest) = u32_at(rest)?;
    let (sender, _) = u16_at(rest)?;
    Ok(Heading {
        kind,
        height,
        round,
        sender,
    })
}

fn of_height(kind: Kind, content: &[u8]) -> Result<Heading, Fault> {
    let (_, rest) = u8_at(content)?;
    let (height, rest) = u64_at(rest)?;
    let (sender, _) = u16_at(rest)?;
    Ok(Heading {
        kind,
        height,
        round: 0,
        sender,
    })
}

/// A transaction by its client, session and number.
#[derive(Clone, Copy, PartialEq)]
pub struct TxName {
    pub client: u16,
    pub session: u32,
    pub number: u64,
}

impl TxName {
    /// The name of a transaction.
    pub fn of(tx: &Tx) -> TxName
        ensures { result ≡ name_of tx.now }
    {
        TxName {
            client: tx.client,
            session: tx.session,
            number: tx.number,
        }
    }

    /// The name of the transaction that a frame brings, if it brings one.
    pub fn of_frame(frame: &[u8]) -> Option<TxName> {
        name_in(frame).ok()
    }
}

fn name_in(frame: &[u8]) -> Result<TxName, Fault> {
    let (_, content) = u32_at(frame)?;
    let (kind, rest) = u8_at(content)?;
    let (client, rest) = u16_at(rest)?;
    let (session, rest) = match kind {
        1 => (0, rest),
        2 => u32_at(rest)?,
        _ => return Err(Fault::BadKind),
    };
    let (number, _) = u64_at(rest)?;
    Ok(TxName {
        client,
        session,
        number,
    })
}

/// The body within a frame that ends with so many tags.
pub fn body_within(frame: &[u8], tags: u16) -> Option<&[u8]> {
    let (_, content) = u32_at(frame).ok()?;
    let tags = usize::from(tags).saturating_mul(32).saturating_add(1);
    let length = content.len().checked_sub(tags)?;
    content.get(..length)
}
