//! What the bytes that a visitor has sent ask for.

ghost use Rattle.std.specs.Prelude.{◌≡◌, ◌<◌, ◌≤◌, length, take};
ghost use Rattle.node_metrics.specs.Requests.{IsHeardIn, IsHeardBeyond, unless_too_large, with_body};

use crate::page::{Answer, Outcome, answer_to};
use httparse::spans::{EMPTY_HEADER_SPAN, parse_request};
use httparse::{Error, Status};

/// How many bytes the head of a request has at most.
pub const MOST_HEAD_BYTES: usize = 8_192;

/// How many fields it has at most.
pub const MOST_FIELDS: usize = 64;

/// What the bytes ask for that came so far.
#[derive(Clone, Copy, Debug, PartialEq, Eq)]
pub enum Heard {
    /// Nothing yet.
    Unfinished,
    Asked(Answer),
}

/// Returns the answer to what is no request that can be served.
fn refusal(outcome: Outcome) -> Answer
    ensures { result ≡ with_body outcome }
{
    Answer {
        outcome,
        has_body: true,
    }
}

/// Returns what these bytes ask for, as many as there are.
fn read_request(bytes: &[u8]) -> Heard
    ensures { IsHeardIn bytes.now result }
{
    let mut fields = [EMPTY_HEADER_SPAN; MOST_FIELDS];
    match parse_request(bytes, &mut fields) {
        Ok(Status::Complete(head)) => {
            Heard::Asked(answer_to(head.method.of(bytes), head.path.of(bytes)))
        }
        Ok(Status::Partial) => Heard::Unfinished,
        Err(Error::TooManyHeaders) => Heard::Asked(refusal(Outcome::TooLarge)),
        Err(_) => Heard::Asked(refusal(Outcome::BadRequest)),
    }
}

/// Returns the first bytes, so many of them, or all where there are fewer.
fn beginning_of(bytes: &[u8], count: usize) -> &[u8]
    ensures { result.now ≡ take count bytes.now }
{
    if count < bytes.len() {
        &bytes[..count]
    } else {
        bytes
    }
}

/// Returns the answer where a head has not ended within the limit.
fn unless_too_large(asked: Heard) -> Heard
    ensures { result ≡ unless_too_large asked }
{
    match asked {
        Heard::Unfinished => Heard::Asked(refusal(Outcome::TooLarge)),
        Heard::Asked(answer) => Heard::Asked(answer),
    }
}

/// Returns what these bytes ask for, which are all that came so far.
pub fn asked_by(bytes: &[u8]) -> Heard
    ensures within { length bytes.now ≤ 8192 → IsHeardIn bytes.now result }
    ensures beyond { 8192 < length bytes.now → IsHeardBeyond (take 8192 bytes.now) result }
{
    if bytes.len() <= MOST_HEAD_BYTES {
        return read_request(bytes);
    }
    unless_too_large(read_request(beginning_of(bytes, MOST_HEAD_BYTES)))
}
