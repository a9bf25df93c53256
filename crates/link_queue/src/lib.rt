//! The frames that wait to be sent on one link.
//!
//! A [`LinkQueue`] holds at most 1,024 of them, with 16 MiB. Any thread offers a frame, which is one `Bytes`
//! that the queues of all links share, and never waits for room: a frame that finds none is
//! dropped, and its sender is told. The thread that writes to the link takes them in the order in
//! which they were taken in, and waits where there are none. Once the queue is closed it takes what
//! is left, and is then told that the queue ended.
//!
//! The locked state, [`Waiting`], says what a call does; a [`Queued`], a [`Dropped`] and an
//! [`Untaken`] are made there and nowhere else, so a call of a `LinkQueue` answers what such a state
//! answered. That a thread gets on is not claimed.
#![tactic(auto)]

mod history;
mod queue;
mod waiting;

pub use queue::LinkQueue;
pub use waiting::{
    Anything, Cause, Dropped, MOST_BYTES, MOST_FRAMES, Queued, Sent, Untaken, Waiting,
};
