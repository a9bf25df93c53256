//! Frames out of bytes that come in pieces of any length, as a socket gives them.

ghost use Rattle.std.specs.Prelude.{◌≡◌, ◌≤◌, ◌++◌, ◌⊎◌, length, take, OnOk, IfErr, Err, MatchResult, MatchOption};
ghost use Rattle.std.specs.Borrow.{sem};
ghost use Rattle.transactions.specs.declared.fault.Fault.TheVariants.{Truncated, TooLong, OutOfMemory};
ghost use Rattle.messages.specs.Framing.{content_of};
ghost use Rattle.messages.specs.Pieces.{Held, IsFrame, IsNext, nothing, with_piece, finished};
ghost use Rattle.messages.specs.Lending.{shown, Leaves};

use crate::limits::LONGEST_CONTENT;
use byteorder::{BigEndian, ByteOrder};
use std::alloc::Global;
use std::marker::Model;
use transactions::Fault;

/// The bytes of a stream that are not given as frames yet.
///
/// A reader is fed what a socket gives, in pieces of any length, and lends the frames that stand in
/// it, whole and in order. Contracts see the bytes that it was fed and has not given, and whether it
/// told of a length above the limit.
///
/// Each byte is moved a bounded number of times, however the stream is cut, and the room that a
/// reader takes is at most proportional to the bytes that it held at once.
#[derive(Debug, Drop)]
pub struct FrameReader {
    /// What was fed, from some byte on.
    bytes: Vec<u8>,
    /// How many of these bytes were given.
    given: usize,
    /// Whether `next_frame` has answered `TooLong`.
    refused: bool,
}

impl Model for FrameReader {
    ghost use Rattle.std.specs.Prelude.{◌≤◌, drop, vec_len};
    ghost use Rattle.messages.specs.Pieces.{Held};

    ghost Value = { Held };

    ghost view = { λ r. record { rest = drop r.given r.bytes.items; refused = r.refused } };

    ghost invariant = { λ r. r.given ≤ vec_len r.bytes };
}

/// How many bytes the frame in front has, its length among them; `None` where it is not whole.
#[tactic(auto, unfolding(crate::specs::Framing::content_of, transactions::specs::Fields::limited, transactions::specs::Fields::whole))]
fn front_len(bytes: &[u8]) -> Result<Option<usize>, Fault>
    ensures { MatchResult result
        (λ front. MatchOption front (content_of bytes.now ≡ Err Truncated)
        (λ len. (len ≤ length bytes.now) × IsFrame (take len bytes.now)))
        (λ fault. (content_of bytes.now ≡ Err TooLong) × (fault ≡ TooLong)) }
{
    if bytes.len() < 4 {
        return Ok(None);
    }
    let len = BigEndian::read_u32(bytes) as usize;
    if len > LONGEST_CONTENT {
        return Err(Fault::TooLong);
    }
    if bytes.len() - 4 < len {
        return Ok(None);
    }
    Ok(Some(4 + len))
}

impl FrameReader {
    /// A reader that was fed nothing. It takes no memory.
    pub fn new(alloc: Global) -> FrameReader
        ensures { result ≡ nothing }
    {
        FrameReader {
            bytes: Vec::new(alloc),
            given: 0,
            refused: false,
        }
    }

    /// The bytes that are not given.
    fn rest(&self) -> &[u8]
        ensures { result.now ≡ self.now.rest }
    {
        &self.bytes[self.given..]
    }

    /// Makes room of the bytes that were given, once they are no fewer than those to be moved.
    fn forget_given(&mut self)
        ensures { self.new ≡ self.old }
    {
        let left = self.bytes.len() - self.given;
        if left > self.given {
            return;
        }
        self.bytes.copy_within(self.given.., 0);
        self.bytes.truncate(left);
        self.given = 0;
    }

    /// Takes the next piece of the stream, which may be empty.
    ///
    /// Faults: `OutOfMemory` (4), and then nothing of the piece is taken.
    pub fn feed(&mut self, piece: &[u8]) -> Result<(), Fault>
        ensures ok { OnOk result (self.new ≡ with_piece self.old piece.now) }
        ensures err { IfErr result (λ fault. (fault ≡ OutOfMemory) × (self.new ≡ self.old)) }
    {
        self.forget_given();
        self.bytes.extend_from_slice(piece)?;
        Ok(())
    }

    /// Gives the next frame: its length and its content, as `read` takes them. `None` where it is not
    /// whole yet, and then nothing changes.
    ///
    /// Faults: `TooLong` (2) where the next length is above 1,048,576, once each frame before it was
    /// given. It is told again whatever is fed behind it, so the stream is of no more use. It takes no
    /// memory: the frame is lent until the reader is used again.
    pub fn next_frame(&mut self) -> Result<Option<&[u8]>, Fault>
        // What is answered, and what is held once the frame is used no more.
        ensures* after { sem 𝓛 (Leaves self.entry (λ new. IsNext self.old (shown result) new)) }
        // What is answered.
        ensures answer { (new : Held) × IsNext self.old (shown result) new }
    {
        match front_len(self.rest()) {
            Err(fault) => {
                self.refused = true;
                Err(fault)
            }
            Ok(None) => Ok(None),
            Ok(Some(len)) => {
                let start = self.given;
                self.given = start + len;
                Ok(Some(&self.bytes[start..start + len]))
            }
        }
    }

    /// Returns the frames that stand whole in the reader, which stay there.
    pub fn whole_frames(&self) -> WholeFrames<'_>
        ensures { result ≡ self.now.rest }
    {
        WholeFrames { rest: self.rest() }
    }

    /// Whether the stream may end here: nothing is left.
    ///
    /// Faults: `TooLong` (2) once `next_frame` has answered it, else `Truncated` (1) where a part of a
    /// frame is left, or a frame that was not given. It takes no memory.
    pub fn finish(&self) -> Result<(), Fault>
        ensures { result ≡ finished self.now }
    {
        if self.refused {
            return Err(Fault::TooLong);
        }
        if self.given < self.bytes.len() {
            return Err(Fault::Truncated);
        }
        Ok(())
    }
}

/// The frames that stand whole in a reader, in order: for who looks at several before it takes any. Contracts see the bytes that are not
/// looked at yet.
#[derive(Debug, Drop)]
pub struct WholeFrames<'a> {
    rest: &'a [u8],
}

impl<'a> Model for WholeFrames<'a> {
    ghost use Rattle.std.specs.Prelude.{List, ℕ};

    ghost Value = { List ℕ };

    ghost view = { λ w. w.rest.now };
}

impl<'a> WholeFrames<'a> {
    /// Returns the next frame, as `next_frame` will give it, or nothing where none is whole or its length is above the limit.
    pub fn next_whole(&mut self) -> Option<&'a [u8]>
        ensures { MatchOption result
            ((self.new ≡ self.old) × ((content_of self.old ≡ Err Truncated) ⊎ (content_of self.old ≡ Err TooLong)))
            (λ frame. IsFrame frame.now × (self.old ≡ frame.now ++ self.new)) }
    {
        match front_len(self.rest) {
            Ok(Some(len)) => {
                let (frame, rest) = self.rest.split_at(len);
                self.rest = rest;
                Some(frame)
            }
            Ok(None) | Err(_) => None,
        }
    }
}
