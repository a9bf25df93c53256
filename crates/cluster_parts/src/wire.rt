//! Links between two ends.

use crate::lane::Lane;
use messages::FrameReader;
use std::alloc::Global;

/// What a link ends at.
#[derive(Clone, Copy, PartialEq)]
pub enum End {
    /// A validator, in one of its lives: each start begins another.
    Validator { number: u16, life: u32 },
    /// A client.
    Client(u16),
    /// Somebody who is no party.
    Stranger,
}

/// One of the two ends of a link.
#[derive(Clone, Copy, Debug)]
pub enum Side {
    /// Who dialed.
    Dialer,
    /// Who was dialed.
    Acceptor,
}

impl Side {
    /// The other one.
    pub fn other(self) -> Side {
        match self {
            Side::Dialer => Side::Acceptor,
            Side::Acceptor => Side::Dialer,
        }
    }
}

/// One end of a link: who it is, what it sends, and what it has read.
#[derive(Drop)]
pub struct Terminal {
    pub end: End,
    /// What this end sends.
    pub lane: Lane,
    /// What came here and is no whole frame yet.
    pub reader: FrameReader,
    /// Whether this end has left.
    pub is_gone: bool,
}

impl Terminal {
    fn new(alloc: Global, end: End) -> Terminal {
        Terminal {
            end,
            lane: Lane::new(alloc),
            reader: FrameReader::new(alloc),
            is_gone: false,
        }
    }
}

/// A link.
#[derive(Drop)]
pub struct Wire {
    dialer: Terminal,
    acceptor: Terminal,
    /// How long a byte is on its way at least, in milliseconds.
    pub delay: u64,
    /// How much longer it may be.
    pub jitter: u64,
    /// How many bytes go in a millisecond.
    pub pace: u64,
}

impl Wire {
    /// A link on which nothing was sent.
    pub fn new(alloc: Global, dialer: End, acceptor: End) -> Wire {
        Wire {
            dialer: Terminal::new(alloc, dialer),
            acceptor: Terminal::new(alloc, acceptor),
            delay: 1,
            jitter: 0,
            pace: 1_000,
        }
    }

    /// One of its ends.
    pub fn at(&self, side: Side) -> &Terminal {
        match side {
            Side::Dialer => &self.dialer,
            Side::Acceptor => &self.acceptor,
        }
    }

    /// One of its ends, to be changed.
    pub fn at_mut(&mut self, side: Side) -> &mut Terminal {
        match side {
            Side::Dialer => &mut self.dialer,
            Side::Acceptor => &mut self.acceptor,
        }
    }

    /// The side on which this end is, if it is one of them.
    pub fn side_of(&self, end: End) -> Option<Side> {
        if self.dialer.end == end {
            Some(Side::Dialer)
        } else if self.acceptor.end == end {
            Some(Side::Acceptor)
        } else {
            None
        }
    }

    /// Returns whether both ends have left.
    pub fn is_over(&self) -> bool {
        self.dialer.is_gone && self.acceptor.is_gone
    }
}
