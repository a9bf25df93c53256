//! Whole messages as frames: a length, four bytes, and that many bytes of content.

ghost use Rattle.std.specs.Prelude.{◌≡◌, ◌≤◌, ◌+◌, ◌*◌, ◌++◌, List, ℕ, length, MatchResult, OnOk, IfOk, Ok, Err};
ghost use Rattle.transactions.specs.Fields.{Gives, Tells};
ghost use Rattle.transactions.specs.Grammar.{tags_spelling};
ghost use Rattle.messages.specs.declared.body.Message.{Message};
ghost use Rattle.messages.specs.Grammar.{body_spelling};
ghost use Rattle.messages.specs.Framing.{content_of, message_at, message_of, frame_spelling, IsMessage, SpellsFrame};
ghost use Rattle.messages.specs.Checking.{message_len, frame_spelled};

use crate::body::Message;
use crate::limits::LONGEST_CONTENT;
use crate::measuring::len_of_body;
use crate::reading::body_front;
use crate::writing::put_body;
use byteorder::{BigEndian, ByteOrder};
use std::alloc::{AllocError, Global};
use transactions::{Fault, len_of_tags, put_u32, tags_of};

/// The content of a frame, once it is measured.
#[tactic(auto, unfolding(crate::specs::Framing::content_of, transactions::specs::Fields::limited, transactions::specs::Fields::whole))]
pub(crate) fn content_in(frame: &[u8]) -> Result<&[u8], Fault>
    ensures { MatchResult result (λ content. content_of frame.now ≡ Ok content.now)
        (λ fault. content_of frame.now ≡ Err fault) }
{
    if frame.len() < 4 {
        return Err(Fault::Truncated);
    }
    let len = BigEndian::read_u32(frame) as usize;
    if len > LONGEST_CONTENT {
        return Err(Fault::TooLong);
    }
    let content = &frame[4..];
    if content.len() < len {
        return Err(Fault::Truncated);
    }
    if content.len() > len {
        return Err(Fault::BadSpelling);
    }
    Ok(content)
}

#[tactic(auto, unfolding(crate::specs::Framing::message_at))]
fn message_front(alloc: Global, bytes: &[u8]) -> Result<(Message, &[u8]), Fault>
    ensures { Gives (λ x. (x.0, x.1.now)) result (message_at bytes.now) }
{
    let (body, rest) = body_front(alloc, bytes)?;
    let (tags, rest) = tags_of(alloc, rest)?;
    Ok((Message { body, tags }, rest))
}

#[tactic(auto, unfolding(crate::specs::Framing::message_of, transactions::specs::Fields::whole))]
fn whole_message(alloc: Global, frame: &[u8]) -> Result<Message, Fault>
    ensures exact { Gives (λ x. x) result (message_of frame.now) }
    ensures measured { Tells result (content_of frame.now) }
{
    let content = content_in(frame)?;
    let (message, rest) = message_front(alloc, content)?;
    if !rest.is_empty() {
        return Err(Fault::BadSpelling);
    }
    Ok(message)
}

/// The message that a frame spells, all of the frame.
///
/// The frame is measured before anything in it is read: `Truncated` (1) for fewer than four bytes and
/// for less content than the length says, `TooLong` (2) for a length above 1,048,576, `BadSpelling`
/// (3) for bytes after the content. Then come the faults of `read_body`, and behind the body
/// `Truncated` (1), `TooLong` (2) for a count of tags above 128, and `BadSpelling` (3) for a count of 0
/// and for bytes after the tags; `OutOfMemory` (4).
pub fn read(alloc: Global, frame: &[u8]) -> Result<Message, Fault>
    // What is read is a message, and spelled so.
    ensures found { IfOk result (λ message. SpellsFrame frame.now message) }
    // What is spelled so is read, unless memory runs out.
    ensures only { (message : Message) → SpellsFrame frame.now message → Gives (λ x. x) result (Ok message) }
    // Which fault it is.
    ensures exact { Gives (λ x. x) result (message_of frame.now) }
    // No fault of its measure is hidden by want of memory.
    ensures measured { Tells result (content_of frame.now) }
{
    whole_message(alloc, frame)
}

/// How many bytes tags and their count are.
fn room_of_tags(tags: &[[u8; 32]]) -> usize
    ensures room { result ≡ length (tags_spelling tags.now) }
    ensures each { result ≡ 1 + 32 * length tags.now }
{
    1 + 32 * tags.len()
}

/// The bytes of the body within the frame that a message was read from.
///
/// The receiver's tag is over these bytes, so that it is checked without spelling the body again.
/// It takes no memory.
pub fn body_in<'a>(frame: &'a [u8], message: &Message) -> &'a [u8]
    requires { frame.now ≡ frame_spelling message.now }
    ensures { result.now ≡ body_spelling message.now.body }
{
    let (_, content) = frame.split_at(4);
    let (body, _) = content.split_at(content.len() - room_of_tags(message.tags.as_slice()));
    body
}

#[tactic(auto, unfolding(transactions::specs::Grammar::tags_spelling))]
fn put_tags(out: &mut Vec<u8>, tags: &[[u8; 32]]) -> Result<(), AllocError>
    requires { length tags.now ≤ 128 }
    ensures { OnOk result (out.new.items ≡ out.old.items ++ tags_spelling tags.now) }
{
    out.push(tags.len() as u8)?;
    for tag in tags {
        out.extend_from_slice(tag)?;
    }
    Ok(())
}

/// The frame of a body that is spelled already, with these tags.
///
/// A sender spells a body once, makes the tags over its bytes, and hands both here. Between 1 and 128
/// tags make the frame one that `read` accepts. A body of at most 1,044,479 bytes fits a frame with
/// 128 tags, and those of `spell_body` are shorter; so nothing but memory can be refused, which is
/// taken once, of the frame's length.
pub fn frame_of(alloc: Global, body: &[u8], tags: &[[u8; 32]]) -> Result<Vec<u8>, AllocError>
    requires few { length tags.now ≤ 128 }
    requires short { length body.now ≤ 1044479 }
    ensures { (message : Message) → body.now ≡ body_spelling message.body → tags.now ≡ message.tags
        → IfOk result (λ frame. frame.items ≡ frame_spelling message) }
{
    let len = body.len() + room_of_tags(tags);
    let mut out = Vec::with_capacity(alloc, 4 + len)?;
    put_u32(&mut out, len as u32)?;
    out.extend_from_slice(body)?;
    put_tags(&mut out, tags)?;
    Ok(out)
}

/// The length of a frame's content, or the first fault. It needs no look at the frame's limit: a body
/// has at most 1,024,720 bytes, and its tags have at most 4,097.
#[tactic(auto, unfolding(crate::specs::Checking::message_len))]
fn len_of_message(message: &Message) -> Result<usize, Fault>
    ensures len { result ≡ message_len message.now }
    ensures fits { OnOk result (IsMessage message.now) }
    ensures small { IfOk result (λ n. n ≤ 1028817) }
{
    let body = len_of_body(&message.body)?;
    let tags = len_of_tags(message.tags.as_slice())?;
    Ok(body + tags)
}

fn bytes_of_frame(alloc: Global, message: &Message) -> Result<Vec<u8>, Fault>
    ensures ok { OnOk result (IsMessage message.now) }
    ensures exact { Gives (λ v. v.items) result (frame_spelled message.now) }
{
    let len = len_of_message(message)?;
    let mut out = Vec::with_capacity(alloc, 4 + len)?;
    put_u32(&mut out, len as u32)?;
    put_body(&mut out, &message.body)?;
    put_tags(&mut out, message.tags.as_slice())?;
    Ok(out)
}

/// The one frame that spells a message, or the first fault: the body's, as `spell_body` has it, and
/// then the tags'.
///
/// Faults: those of `spell_body`; `TooLong` (2) for more than 128 tags, `BadSpelling` (3) for none;
/// `OutOfMemory` (4). Body and tags that have spellings always fit a frame together. Memory is taken
/// once, of the frame's length.
pub fn spell(alloc: Global, message: &Message) -> Result<Vec<u8>, Fault>
    // What is written spells the message.
    ensures ok { IfOk result (λ frame. SpellsFrame frame.items message.now) }
    // What has a spelling is written, unless memory runs out.
    ensures only { (bytes : List ℕ) → SpellsFrame bytes message.now → Gives (λ v. v.items) result (Ok bytes) }
    // Which fault it is.
    ensures exact { Gives (λ v. v.items) result (frame_spelled message.now) }
{
    bytes_of_frame(alloc, message)
}
