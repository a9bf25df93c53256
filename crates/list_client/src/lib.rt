//! A client's side, to be copied: it makes transactions, sends them to a validator, reads what that says of each, and
//! finds them in the list.
#![tactic(auto)]

ghost use Rattle.std.specs.Prelude.{◌≡◌, ℕ, List, Ok, IfOk};
ghost use Rattle.transactions.specs.Fields.{Gives};
ghost use Rattle.messages.specs.Framing.{SpellsFrame};
ghost use Rattle.list_client.specs.Sending.{sent};

use authenticators::{KeyRing, tag_all};
use messages::{Body, FrameReader, Message, Reply, read_reply, spell, spell_body};
use std::alloc::Global;
use std::io;
use std::io::{Read, Write};
use thiserror::Error;
use transactions::{Fault, Op, Seq, Tx};

/// Why a client has no reply.
#[derive(Debug, Drop, Error)]
pub enum ClientFault {
    #[error("the connection fails: {0}")]
    Connection(#[from] io::Error),
    #[error("what comes is no frame: {0}")]
    Frame(#[from] Fault),
    #[error("the validator has ended the connection")]
    Ended,
}

/// A client in one of its sessions.
#[derive(Clone, Copy, Debug, PartialEq, Eq)]
pub struct Sender {
    pub client: u16,
    /// 0, and one more after each close.
    pub session: u32,
}

impl Sender {
    /// The sender that the list names so: `CLIENT` in the client's first session, and `CLIENT.SESSION` in a later one.
    pub fn named(name: &str) -> Option<Sender> {
        let Some((client, session)) = name.split_once('.') else {
            let client = name.parse().ok()?;
            return Some(Sender { client, session: 0 });
        };
        let client = client.parse().ok()?;
        match session.parse().ok()? {
            0 => None,
            session => Some(Sender { client, session }),
        }
    }
}

/// The frame of a sender's transaction of this number, with a tag for each validator under the client's keys.
///
/// Faults: that of the transaction, where its numbers or its bytes are out of range; `OutOfMemory`.
pub fn frame_of(
    alloc: Global,
    keys: &KeyRing,
    sender: Sender,
    number: u64,
    op: Op,
) -> Result<Vec<u8>, Fault>
    ensures ok { IfOk result (λ frame. SpellsFrame frame.items (sent keys.now sender number op)) }
    // What has a frame is given it, unless memory runs out.
    ensures only { (bytes : List ℕ) → SpellsFrame bytes (sent keys.now sender number op) → Gives (λ v. v.items) result (Ok bytes) }
{
    let body = Body::Tx(Tx {
        client: sender.client,
        session: sender.session,
        number,
        op,
        tags: Seq::new(alloc),
    });
    let spelled = spell_body(alloc, &body)?;
    let tags = Seq::from_vec(tag_all(alloc, keys, &spelled)?);
    spell(alloc, &Message { body, tags })
}

/// A stream to a validator.
#[derive(Drop)]
pub struct Connection<S> {
    stream: S,
    reader: FrameReader,
}

impl<S: Read + Write> Connection<S> {
    /// Nothing was sent yet.
    pub fn new(alloc: Global, stream: S) -> Connection<S> {
        Connection {
            stream,
            reader: FrameReader::new(alloc),
        }
    }

    /// Sends a frame, and waits for the reply.
    pub fn ask(&mut self, frame: &[u8]) -> Result<Reply, ClientFault> {
        self.stream.write_all(frame)?;
        self.stream.flush()?;
        let mut piece = [0; 4_096];
        for _ in 0..u64::MAX {
            if let Some(reply) = self.reply_that_came()? {
                return Ok(reply);
            }
            match self.stream.read(&mut piece)? {
                0 => break,
                count => self.reader.feed(&piece[..count])?,
            }
        }
        Err(ClientFault::Ended)
    }

    /// The reply among the frames that came: a validator also sends what it says to all.
    fn reply_that_came(&mut self) -> Result<Option<Reply>, Fault> {
        for _ in 0..u64::MAX {
            let Some(frame) = self.reader.next_frame()? else {
                break;
            };
            if let Ok(reply) = read_reply(frame) {
                return Ok(Some(reply));
            }
        }
        Ok(None)
    }
}

/// Whose transaction stands in a line of the list, `POSITION SENDER NUMBER HEX`, and its number.
pub fn item_of(line: &str) -> Option<(Sender, u64)> {
    let mut words = line.split(' ').skip(1);
    let sender = Sender::named(words.next()?)?;
    let number = words.next()?.parse().ok()?;
    Some((sender, number))
}
