//! How far a store's bytes are read, which come piece by piece.

ghost use Rattle.std.specs.Prelude.{◌≡◌, ◌+◌, ◌++◌, [], ℕ, List, IfOk};
ghost use Rattle.std.specs.Str.{bytes_eq};
ghost use Rattle.vote_journal.specs.Planning.{Becomes, Comes, GoesOn, IsBehind, IsStage};

use crate::fault::JournalFault;
use crate::keeping::Kept;
use crate::scanning::{Scan, read_records};
use crate::standing::Standing;
use crate::store::Sink;
use powers::Powers;
use std::alloc::{AllocError, Global};
use std::mem;

/// What a journal begins with: the ASCII text TMJ1.
pub(crate) const HEADER: [u8; 4] = [0x54, 0x4d, 0x4a, 0x31];

/// What was read behind a header.
#[derive(Drop)]
pub(crate) struct Behind {
    pub(crate) standing: Standing,
    pub(crate) kept: Kept,
    /// How many bytes are read, the header among them.
    pub(crate) read: usize,
    /// The bytes behind those, which are less than a whole record.
    pub(crate) left: Vec<u8>,
}

impl Behind {
    /// Nothing yet.
    fn new(alloc: Global) -> Behind
        ensures { (powers : List ℕ) (me : ℕ) → IsBehind powers me [] result }
    {
        Behind {
            standing: Standing::new(alloc),
            kept: Kept::new(alloc),
            read: HEADER.len(),
            left: Vec::new(alloc),
        }
    }

    /// Reads on, over the bytes that follow.
    fn go_on(
        self,
        alloc: Global,
        me: u16,
        powers: &Powers,
        piece: &[u8],
    ) -> Result<Behind, JournalFault>
        ensures { (before : List ℕ) → IsBehind powers.now me before self → GoesOn powers.now me (before ++ piece.now) result }
    {
        let Behind {
            standing,
            kept,
            read,
            mut left,
        } = self;
        left.extend_from_slice(piece)?;
        let Scan {
            standing,
            kept,
            torn,
        } = read_records(alloc, me, powers, standing, kept, &left)?;
        let (whole, rest) = left.split_at(left.len().saturating_sub(torn));
        Ok(Behind {
            standing,
            kept,
            read: sum_of(read, whole.len())?,
            left: rest.to_vec(alloc)?,
        })
    }
}

/// The sum of two counts of bytes, which never is more than memory has.
fn sum_of(a: usize, b: usize) -> Result<usize, AllocError>
    ensures { IfOk result (λ sum. sum ≡ a + b) }
{
    a.checked_add(b).ok_or(AllocError)
}

/// How far a store's bytes are read.
#[derive(Drop)]
pub(crate) enum Stage {
    /// To their end: they are less than a header.
    Front(Vec<u8>),
    /// Past the header.
    Records(Behind),
}

impl Stage {
    /// Reads on, over the bytes that follow.
    fn go_on(
        self,
        alloc: Global,
        me: u16,
        powers: &Powers,
        piece: &[u8],
    ) -> Result<Stage, JournalFault>
        ensures { (before : List ℕ) → IsStage powers.now me before self → Comes powers.now me (before ++ piece.now) result }
    {
        match self {
            Stage::Front(front) => pass_header(alloc, me, powers, front, piece),
            Stage::Records(behind) => {
                let behind = behind.go_on(alloc, me, powers, piece)?;
                Ok(Stage::Records(behind))
            }
        }
    }
}

/// Whether these are the same bytes.
pub(crate) fn same_bytes(a: &[u8], b: &[u8]) -> bool
    ensures { result ≡ bytes_eq a.now b.now }
{
    a == b
}

/// Reads a store's first bytes and those that follow.
fn pass_header(
    alloc: Global,
    me: u16,
    powers: &Powers,
    front: Vec<u8>,
    piece: &[u8],
) -> Result<Stage, JournalFault>
    ensures { Comes powers.now me (front.items ++ piece.now) result }
{
    let mut bytes = front;
    bytes.extend_from_slice(piece)?;
    if bytes.len() < HEADER.len() {
        return Ok(Stage::Front(bytes));
    }
    let (header, behind) = bytes.split_at(HEADER.len());
    if !same_bytes(header, &HEADER) {
        return Err(JournalFault::BadRecord);
    }
    let behind = Behind::new(alloc).go_on(alloc, me, powers, behind)?;
    Ok(Stage::Records(behind))
}

/// Reads the journal of a validator while a store gives its bytes.
#[derive(Drop)]
pub(crate) struct Reading<'a> {
    alloc: Global,
    me: u16,
    powers: &'a Powers,
    stage: Result<Stage, JournalFault>,
}

impl<'a> Reading<'a> {
    /// Of a store that gave no bytes yet.
    pub(crate) fn new(alloc: Global, me: u16, powers: &'a Powers) -> Reading<'a>
        ensures { Becomes result [] result × (result.me ≡ me) × (result.powers.now ≡ powers.now) }
    {
        Reading {
            alloc,
            me,
            powers,
            stage: Ok(Stage::Front(Vec::new(alloc))),
        }
    }

    /// How far its bytes are read.
    pub(crate) fn into_stage(self) -> Result<Stage, JournalFault>
        ensures { result ≡ self.entry.stage }
    {
        let Reading {
            alloc: _,
            me: _,
            powers: _,
            stage,
        } = self;
        stage
    }
}

/// Reads on, over the bytes that follow, unless they are of no use any more.
fn read_on(
    stage: Result<Stage, JournalFault>,
    alloc: Global,
    me: u16,
    powers: &Powers,
    piece: &[u8],
) -> Result<Stage, JournalFault>
    ensures { (before : List ℕ) → Comes powers.now me before stage → Comes powers.now me (before ++ piece.now) result }
{
    match stage {
        Ok(stage) => stage.go_on(alloc, me, powers, piece),
        Err(fault) => Err(fault),
    }
}

impl Sink for Reading<'_> {
    ghost becomes = { Becomes };

    fn take(&mut self, piece: &[u8]) {
        let stage = mem::replace(&mut self.stage, Err(JournalFault::OutOfMemory));
        self.stage = read_on(stage, self.alloc, self.me, self.powers, piece);
    }
}
