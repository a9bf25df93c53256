//! An entry by itself.

ghost use Rattle.std.specs.Prelude.{◌≡◌, take, IfOk};
ghost use Rattle.journal_reader.specs.Entries.{IsEntryRead, sender_of, front_body, IsBodyIn, IsOwner};

use messages::{Body, read_body};
use protocol::Record;
use std::alloc::{AllocError, Global};
use transactions::Fault;
use vote_journal::{JournalFault, read_record};

/// The content of the mark that the form with sessions has begun: its kind, and the number of the form.
const MARK: [u8; 5] = [4, 0, 0, 0, 2];

/// The kind of an own precommit for a value: the body of the vote, and then the value.
const LOCK_KIND: u8 = 2;

/// How many bytes the body of a vote for a value has.
const VOTE_LEN: usize = 48;

/// What a journal has behind a length.
#[derive(Debug, Drop)]
pub enum Entry {
    /// A record of the validator of this number.
    Record { owner: u16, record: Record },
    /// The mark that the form with sessions has begun.
    Mark,
}

/// The party that a body is of.
fn sender_of(body: &Body) -> u16
    ensures { result ≡ sender_of body.now }
{
    match body {
        Body::Tx(tx) => tx.client,
        Body::Proposal(proposal) => proposal.sender,
        Body::Vote(vote) => vote.sender,
        Body::Ask(ask) => ask.sender,
        Body::Bundle(bundle) => bundle.sender,
    }
}

/// The bytes of a vote's body in front of the value that it locks.
#[tactic(auto, using(std::proofs::lemmas::List::take_min))]
fn lock_body(bytes: &[u8]) -> &[u8]
    ensures { result.now ≡ take 48 bytes.now }
{
    &bytes[..VOTE_LEN.min(bytes.len())]
}

/// The bytes of a content that are the body of a message, if it is a record's.
fn front_body(content: &[u8]) -> &[u8]
    ensures { result.now ≡ front_body content.now }
{
    match content {
        [] => content,
        [LOCK_KIND, bytes @ ..] => lock_body(bytes),
        [_, bytes @ ..] => bytes,
    }
}

/// The body that the bytes are, if they are any's.
fn body_in(alloc: Global, bytes: &[u8]) -> Result<Option<Body>, AllocError>
    ensures { IfOk result (IsBodyIn bytes.now) }
{
    match read_body(alloc, bytes) {
        Ok(body) => Ok(Some(body)),
        Err(Fault::OutOfMemory) => Err(AllocError),
        Err(_) => Ok(None),
    }
}

/// The validator whose record a content is, if it is any's.
#[tactic(auto, using(crate::proofs::Owners::owner_found, crate::proofs::Owners::owner_none))]
fn owner_in(alloc: Global, content: &[u8]) -> Result<Option<u16>, AllocError>
    ensures { IfOk result (IsOwner content.now) }
{
    match body_in(alloc, front_body(content))? {
        Some(body) => Ok(Some(sender_of(&body))),
        None => Ok(None),
    }
}

/// The entry that a content is: the mark, or a record of validator `owner`; where that is not known yet, of any.
///
/// Faults: `BadRecord` (3) for what is no such entry; `OutOfMemory` (2).
pub(crate) fn read_entry(
    alloc: Global,
    owner: Option<u16>,
    content: &[u8],
) -> Result<Entry, JournalFault>
    ensures { IsEntryRead owner content.now result }
{
    if content == MARK.as_slice() {
        return Ok(Entry::Mark);
    }
    let known = match owner {
        Some(known) => Some(known),
        None => owner_in(alloc, content).map_err(|_| JournalFault::OutOfMemory)?,
    };
    let Some(owner) = known else {
        return Err(JournalFault::BadRecord);
    };
    let record = read_record(alloc, owner, content)?;
    Ok(Entry::Record { owner, record })
}
