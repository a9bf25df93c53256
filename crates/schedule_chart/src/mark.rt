//! Marks on lanes.

use crate::kind::Kind;
use crate::place::Place;

/// What is marked at a place.
#[derive(Clone, Copy, Debug, PartialEq, Eq)]
pub(crate) enum Mark {
    /// A message was sent that has a number.
    Sent(Kind),
    /// A message was sent by the row's line itself.
    Said(Kind),
    Decided,
    Refused,
    Timeout,
    Restarted,
    /// A call of a store is to fail.
    Failing,
    /// Another thing was asked of a validator or a client.
    Asked,
    /// Where a validator stands in the end.
    Ended,
}

/// A mark with its text, which is two parts.
#[derive(Clone, Copy, Debug)]
pub(crate) struct Note<'a> {
    pub(crate) place: Place,
    pub(crate) mark: Mark,
    pub(crate) head: &'a str,
    pub(crate) text: &'a str,
}

/// The way of a message.
#[derive(Clone, Copy, Debug)]
pub(crate) struct Arrow {
    pub(crate) kind: Kind,
    /// None where nobody in the diagram sent it.
    pub(crate) from: Option<Place>,
    pub(crate) to: Place,
}
