//! One half of a link, and where peers come from.

ghost use Rattle.std.specs.Prelude.{◌≡◌, ℕ, length};
ghost use Rattle.peer_links.specs.Link.{IsPiece, Counts, IsTaken, CountsSent};

use std::alloc::AllocError;
use std::sync::Wait;
use std::time;

/// How many bytes a link gives at a time at most.
pub const PIECE_BYTES: usize = 16_384;

/// What a link gave.
#[derive(Clone, Copy, Debug, PartialEq, Eq)]
pub enum Received {
    /// So many bytes, from 1 to 16,384, stand at the front of the buffer.
    Piece(usize),
    /// Nothing has come yet. The link waited for it, for ten seconds at most.
    Idle,
    /// The peer sends nothing more.
    Ended,
    /// The link failed, and is of no more use.
    Failed,
}

/// What became of bytes that were to be sent.
#[derive(Clone, Copy, Debug, PartialEq, Eq)]
pub enum Sent {
    /// So many bytes from their front, at least 1, were taken. The rest is to be sent by a further call.
    Taken(usize),
    /// None was taken: there was none, or the peer takes nothing yet. The link waited for it, for ten seconds at most.
    Idle,
    /// The link failed, and is of no more use.
    Failed,
}

/// One half of a link to a peer. A call waits for the peer, but no longer than ten seconds where
/// nothing comes or nothing is taken: how long a peer may be slow, the caller decides.
pub trait Link {
    /// How many calls failed.
    ghost failures: { Self → ℕ };

    /// Reads what has come, up to 16,384 bytes, into the front of the buffer.
    fn recv<R: Wait + time::Clock>(&mut self, rt: &R, piece: &mut [u8; PIECE_BYTES]) -> Received
        ensures within { IsPiece result }
        ensures cause { Counts result (failures self.old) (failures self.new) };

    /// Sends as many of the bytes, from their front, as the peer takes now.
    fn send<R: Wait + time::Clock>(&mut self, rt: &R, bytes: &[u8]) -> Sent
        ensures within { IsTaken result (length bytes.now) }
        ensures cause { CountsSent result (failures self.old) (failures self.new) };

    /// Returns how many calls failed, up to the greatest u64.
    fn failures(&self) -> u64
        ensures { result ≡ failures self.now };
}

/// How a link to a peer came about.
#[derive(Clone, Copy, Debug, PartialEq, Eq)]
pub enum Way {
    /// The address of the validator with this number was dialed. Who answered there has not proved to be it.
    Dialed(u16),
    /// The peer dialed this node.
    Accepted,
}

/// A peer: the half of its link for the thread that reads, the half for the thread that writes, its
/// name for the log, and how its link came about.
#[derive(Drop)]
pub struct Peer<L: Drop> {
    pub reader: L,
    pub writer: L,
    pub name: String,
    pub way: Way,
}

/// What the source of peers gave.
#[derive(Drop)]
pub enum Next<L: Drop> {
    Peer(Peer<L>),
    /// No peer has come yet. The source waited for it for a moment.
    Idle,
    /// No peer will come any more.
    None,
}

/// Where peers come from.
pub trait Links {
    type Link: Link + Send + Drop;

    type Dialer: Dialer + Send + Drop;

    /// The number of the validator that this is.
    fn me(&self) -> u16;

    /// How many validators there are, this one among them: the others are dialed.
    fn validators(&self) -> u16;

    /// Makes a dialer that dials validators for this source.
    fn dialer(&mut self) -> Result<Self::Dialer, AllocError>;

    /// Returns the next peer, of those that came and those that a dialer reached. After `None` none comes.
    fn next<R: Wait + time::Clock>(&mut self, rt: &R) -> Next<Self::Link>;
}

/// What dials validators, on a thread of its own, so that it holds up nobody who comes. Whom to dial, and
/// how often, the caller decides.
pub trait Dialer {
    /// Dials the address of the validator with this number, and waits for it: at most a second, once its host's name is
    /// looked up, and a second before that where it was reached at an address that it has left. Whom it reached the source
    /// gives as a peer, with `Way::Dialed` of this number.
    fn dial<R: Wait + time::Clock>(&mut self, rt: &R, validator: u16) -> Dialed;
}

/// Whether a dial reached its peer.
#[derive(Clone, Copy, Debug, PartialEq, Eq)]
pub enum Dialed {
    /// It did, and the source gives the peer.
    Reached,
    /// It did not: nobody answered in that time, no address has this number, or the number is the node's own.
    Unreached,
}
