//! What a validator's threads are to do next.

use bytes::Bytes;
use edge_frames::LinkId;
use protocol::Timeout;
use thiserror::Error;

/// How much a frame matters to its receiver.
#[derive(Clone, Copy, Debug, PartialEq, Eq)]
pub enum Rank {
    /// It is queued where the link's queue has room.
    Fresh,
    /// It repairs what may be lost: it is queued only where few frames wait, and may be dropped.
    Repair,
}

/// A frame, and the links that it is queued for.
#[derive(Debug, Drop)]
pub struct Sending {
    pub frame: Bytes,
    pub links: Vec<LinkId>,
    pub rank: Rank,
}

/// Why a link is closed that didn't end by itself.
#[derive(Clone, Copy, Debug, Error, PartialEq, Eq)]
pub enum Closing {
    /// Nothing came from a validator for ten seconds, for each sixteen validators.
    #[error("silent for too long")]
    Silent,
    /// Another one had more right to its place.
    #[error("its place was wanted")]
    Replaced,
    /// A thousand frames in a row were of no validator and of no client, or its frames showed another one behind it for the fifth time.
    #[error("it sends nothing that can be used")]
    Useless,
}

/// Why a link isn't taken.
#[derive(Clone, Copy, Debug, Error, PartialEq, Eq)]
pub enum OpenFault {
    /// 384 links have a place, those that are closing among them.
    #[error("there are too many links")]
    TooMany,
    /// A growth was refused memory.
    #[error("out of memory")]
    OutOfMemory,
}

/// What is to be done next.
#[derive(Debug, Drop)]
pub enum Duty {
    /// To hand this frame in to the node, as if it came on this link now.
    HandIn(LinkId, Bytes),
    /// To have the node release an ask.
    Ask,
    /// To have the node fire what is enabled.
    Settle,
    /// To have the node release its own messages of the height again.
    Resend,
    /// To fire this timeout.
    Fire(Timeout),
    /// To queue this frame.
    Send(Sending),
    /// To close this link. What is queued for it is still sent.
    Close(LinkId, Closing),
    /// To log that this validator is behind this link.
    Meet(LinkId, u16),
}
