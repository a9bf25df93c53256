//! Replies: what a node answers to a client, as a frame of seven bytes.

ghost use Rattle.std.specs.Prelude.{◌≡◌, IfOk, Ok};
ghost use Rattle.transactions.specs.Fields.{whole};
ghost use Rattle.messages.specs.declared.replies.Reply.{Reply};
ghost use Rattle.messages.specs.Replies.{goes_with, reply_spelling, reply_at, reply_of, IsReply, SpellsReply};

use crate::framing::content_in;
use transactions::Fault;

/// The first byte of a reply's content, which no message has.
const KIND: u8 = 0x20;

/// Whether a node accepted what a client handed in.
#[derive(Clone, Copy, Debug, PartialEq, Eq)]
pub struct Reply {
    /// 0 where it was accepted, else the number of the refusal: 1 to 17.
    pub code: u8,
    /// With code 13, a transaction that was not queued, why: 1 to 9. With any other code 0.
    pub inner: u8,
}

/// The frame of a reply: the length 00000003, the kind 20, the code and the inner number.
///
/// It takes no memory.
pub fn spell_reply(reply: Reply) -> [u8; 7]
    requires { IsReply reply }
    ensures { result ≡ reply_spelling reply }
{
    [0, 0, 0, 3, KIND, reply.code, reply.inner]
}

/// Whether an inner number may stand behind a code.
fn goes_with(code: u8, inner: u8) -> bool
    ensures { result ≡ goes_with code inner }
{
    if code == 13 {
        (1..=9).contains(&inner)
    } else {
        inner == 0
    }
}

/// The reply that the content of a frame spells.
#[tactic(auto, unfolding(crate::specs::Replies::reply_at, transactions::specs::Fields::whole))]
fn reply_in(content: &[u8]) -> Result<Reply, Fault>
    ensures { result ≡ whole (reply_at content.now) }
{
    match content {
        [] => Err(Fault::Truncated),
        [kind, ..] if *kind != KIND => Err(Fault::BadKind),
        [_] => Err(Fault::Truncated),
        [_, code, ..] if *code > 17 => Err(Fault::BadSpelling),
        [_, _] => Err(Fault::Truncated),
        [_, code, inner] if goes_with(*code, *inner) => Ok(Reply {
            code: *code,
            inner: *inner,
        }),
        _ => Err(Fault::BadSpelling),
    }
}

#[tactic(auto, unfolding(crate::specs::Replies::reply_of))]
fn whole_reply(frame: &[u8]) -> Result<Reply, Fault>
    ensures { result ≡ reply_of frame.now }
{
    reply_in(content_in(frame)?)
}

/// The reply that a frame spells, all of the frame.
///
/// The frame is measured as `read` measures it. Then the faults are, at the first byte that is not
/// right: `Truncated` (1) for content of less than three bytes; `BadKind` (5) for another kind than
/// 20; `BadSpelling` (3) for a code above 17, an inner number that does not go with the code, and bytes
/// after it. It takes no memory.
pub fn read_reply(frame: &[u8]) -> Result<Reply, Fault>
    // What is read is a reply, and spelled so.
    ensures found { IfOk result (λ reply. SpellsReply frame.now reply) }
    // What is spelled so is read.
    ensures only { (reply : Reply) → SpellsReply frame.now reply → result ≡ Ok reply }
    // Which fault it is.
    ensures exact { result ≡ reply_of frame.now }
{
    whole_reply(frame)
}
