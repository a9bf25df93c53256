//! Links in memory, whose course is written down before.

ghost use Rattle.std.specs.Prelude.{◌≡◌, ◌<◌, ◌-◌, length, max, min};
ghost use Rattle.peer_links.specs.Link.{IsPiece, Counts, IsTaken, CountsSent, one_more};
ghost use Rattle.peer_links.specs.Turn.{IsTurn};

use crate::link::{Link, PIECE_BYTES, Received, Sent};
use crate::wire::Wire;
use std::alloc::{AllocError, Global};
use std::collections::VecDeque;
use std::sync::{Arc, Wait};
use std::thread;
use std::time::{Clock, Duration};

/// How long a link waits where nothing comes or nothing is taken, in milliseconds, unless it is told
/// another time.
const TURN_MS: u64 = 1;

/// What a link in memory brings next.
#[derive(Drop)]
pub enum Step {
    /// These bytes, in pieces.
    Bytes(Vec<u8>),
    /// Nothing, until these bytes were sent so often on this wire.
    Hold {
        wire: Arc<Wire>,
        bytes: Vec<u8>,
        count: usize,
    },
    /// Nothing for ever, as from a peer that is gone without a word, while what is sent is taken: the link is half-open.
    Silence,
    /// A reset: both halves of the link fail from then on.
    Reset,
    /// The link's end.
    End,
}

/// One half of a link in memory.
///
/// What it brings is a list of steps; behind the last one nothing comes. What is sent on it is noted on
/// its wire. Each half fails once so many bytes went through it, if it is told to, once its wire was reset,
/// and after so many turns in which nothing came, so that no test waits for ever. The peer takes all that
/// is sent, unless it is told to be slow.
#[derive(Drop)]
pub struct MemoryLink {
    steps: VecDeque<Step>,
    /// How many bytes of the first step were given.
    given: usize,
    wire: Arc<Wire>,
    piece: usize,
    /// How many bytes one call of `send` takes at most.
    most_taken: usize,
    /// How many calls of `send` still take nothing.
    untaken_calls: u64,
    /// How many bytes go through before it fails.
    budget: usize,
    turns: u64,
    turn_ms: u64,
    failures: u64,
}

impl MemoryLink {
    /// Makes a link that brings nothing. It gives pieces of at most `piece` bytes, and of one at least, and
    /// fails after this many turns in which nothing came.
    pub fn new(alloc: Global, wire: Arc<Wire>, piece: usize, turns: u64) -> MemoryLink
        ensures { result.failures ≡ 0 }
    {
        MemoryLink {
            steps: VecDeque::new(alloc),
            given: 0,
            wire,
            piece: piece.clamp(1, PIECE_BYTES),
            most_taken: usize::MAX,
            untaken_calls: 0,
            budget: usize::MAX,
            turns,
            turn_ms: TURN_MS,
            failures: 0,
        }
    }

    /// Lets a turn in which nothing comes or nothing is taken last so many milliseconds: many links that
    /// wait so leave the processors to others.
    pub fn set_turn(&mut self, milliseconds: u64)
        ensures { self.new.failures ≡ self.old.failures }
    {
        self.turn_ms = milliseconds;
    }

    /// Adds what it brings next.
    pub fn add(&mut self, step: Step) -> Result<(), AllocError>
        ensures { self.new.failures ≡ self.old.failures }
    {
        self.steps.push_back(step)?;
        Ok(())
    }

    /// Lets it fail once so many bytes went through it.
    pub fn fail_after(&mut self, bytes: usize)
        ensures { self.new.failures ≡ self.old.failures }
    {
        self.budget = bytes;
    }

    /// Lets each call of `send` take at most so many bytes, and one at least.
    pub fn take_at_most(&mut self, bytes: usize)
        ensures most { self.new.most_taken ≡ max bytes 1 }
        ensures failures { self.new.failures ≡ self.old.failures }
    {
        self.most_taken = bytes.max(1);
    }

    /// Lets so many calls of `send` take nothing.
    pub fn take_nothing_for(&mut self, calls: u64)
        ensures calls { self.new.untaken_calls ≡ calls }
        ensures failures { self.new.failures ≡ self.old.failures }
    {
        self.untaken_calls = calls;
    }

    fn fail(&mut self)
        ensures { self.new.failures ≡ one_more self.old.failures }
    {
        self.failures = self.failures.saturating_add(1);
    }

    /// Returns whether it fails from now on.
    fn is_broken(&self) -> bool {
        self.budget == 0 || self.wire.is_reset()
    }

    /// Returns what the first step comes to, and how many bytes of it are in the buffer.
    fn look<R: Wait + Clock>(&self, rt: &R, piece: &mut [u8; PIECE_BYTES]) -> Turn
        ensures { IsTurn result }
    {
        match self.steps.front() {
            Some(Step::Bytes(bytes)) => {
                let most = self.piece.min(self.budget);
                copy_front(bytes.as_slice(), self.given, most, piece)
            }
            Some(Step::Hold { wire, bytes, count }) if wire.wait_for(rt, bytes, *count) =>
                Turn::Over,
            Some(Step::Hold { .. }) => Turn::Waited,
            Some(Step::Silence) => {
                self.wait_turn(rt);
                Turn::Silent
            }
            Some(Step::Reset) => {
                self.wire.reset();
                Turn::Over
            }
            Some(Step::End) => Turn::Ended,
            None => {
                self.wait_turn(rt);
                Turn::Waited
            }
        }
    }

    fn wait_turn<R: Clock>(&self, rt: &R) {
        thread::sleep(rt, Duration::from_millis(self.turn_ms));
    }

    /// Goes on to the next step.
    fn pass_over(&mut self)
        ensures { self.new.failures ≡ self.old.failures }
    {
        self.given = 0;
        let _ = self.steps.pop_front();
    }

    /// Counts a turn in which nothing came.
    fn wait_once(&mut self) -> Received
        ensures within { IsPiece result }
        ensures cause { Counts result self.old.failures self.new.failures }
    {
        if self.turns == 0 {
            self.fail();
            return Received::Failed;
        }
        self.turns -= 1;
        Received::Idle
    }

    /// Counts bytes of the first step that were given.
    fn count_given(&mut self, bytes: usize)
        ensures { self.new.failures ≡ self.old.failures }
    {
        self.given = self.given.saturating_add(bytes);
        self.count(bytes);
    }

    /// Counts bytes that went through.
    fn count(&mut self, bytes: usize)
        ensures { self.new.failures ≡ self.old.failures }
    {
        self.budget = self.budget.saturating_sub(bytes);
    }

    /// Counts down the calls that take nothing. Returns how many of so many bytes this call takes.
    fn next_taken(&mut self, length: usize) -> usize
        ensures none { 0 < self.old.untaken_calls → result ≡ 0 }
        ensures some { self.old.untaken_calls ≡ 0 → result ≡ min (min length self.old.most_taken) self.old.budget }
        ensures calls { self.new.untaken_calls ≡ self.old.untaken_calls - 1 }
        ensures failures { self.new.failures ≡ self.old.failures }
    {
        if self.untaken_calls > 0 {
            self.untaken_calls -= 1;
            return 0;
        }
        length.min(self.most_taken).min(self.budget)
    }
}

/// What a step comes to.
enum Turn {
    /// So many bytes of it are in the buffer.
    Gave(usize),
    /// Nothing is left of it.
    Over,
    /// It waits.
    Waited,
    /// It brings nothing, however long it is waited for.
    Silent,
    /// It is the end.
    Ended,
}

/// Copies what is left of the bytes, at most so many, into the front of the buffer.
fn copy_front(bytes: &[u8], given: usize, most: usize, piece: &mut [u8; PIECE_BYTES]) -> Turn
    ensures { IsTurn result }
{
    let left = bytes.len().saturating_sub(given);
    let count = left.min(most).min(PIECE_BYTES);
    if count == 0 {
        return Turn::Over;
    }
    piece[..count].copy_from_slice(&bytes[given..given + count]);
    Turn::Gave(count)
}

impl Link for MemoryLink {
    ghost failures = { λ l. l.failures };

    fn recv<R: Wait + Clock>(&mut self, rt: &R, piece: &mut [u8; PIECE_BYTES]) -> Received {
        if self.is_broken() {
            self.fail();
            return Received::Failed;
        }
        match self.look(rt, piece) {
            Turn::Gave(count) => {
                self.count_given(count);
                Received::Piece(count)
            }
            Turn::Over => {
                self.pass_over();
                Received::Idle
            }
            Turn::Waited => self.wait_once(),
            Turn::Silent => Received::Idle,
            Turn::Ended => Received::Ended,
        }
    }

    fn send<R: Wait + Clock>(&mut self, rt: &R, bytes: &[u8]) -> Sent {
        if self.is_broken() {
            self.fail();
            return Sent::Failed;
        }
        let taken = self.next_taken(bytes.len());
        if taken == 0 {
            self.wait_turn(rt);
            return Sent::Idle;
        }
        match self.wire.note(rt, &bytes[..taken]) {
            Ok(()) => {
                self.count(taken);
                Sent::Taken(taken)
            }
            Err(_) => {
                self.fail();
                Sent::Failed
            }
        }
    }

    fn failures(&self) -> u64 {
        self.failures
    }
}
