//! What a node is asked to do.

ghost use Rattle.std.specs.Prelude.{◌≡◌};
ghost use Rattle.locked_node.specs.History.{heard, heard_by};

use frame_admission::Examined;
use protocol::{Refusal, Timeout};

/// What a node is asked to do.
#[derive(Clone, Copy, Debug)]
pub enum Event<'a> {
    /// To take in one whole frame.
    Frame(&'a [u8]),
    /// To fire a timeout that is due.
    Timeout(Timeout),
    /// To fire rules until none is enabled.
    Settle,
    /// To release an ask for the decision of its height.
    Ask,
    /// To release its own messages of the height once more.
    Resend,
}

/// What was asked, what was answered, and how often a rule fired by itself.
#[derive(Drop)]
pub(crate) struct Told<'a> {
    pub(crate) event: Event<'a>,
    pub(crate) answer: Result<(), Refusal>,
    pub(crate) fired: u64,
}

/// What a core is asked: what an event says, or to take in a frame that was examined.
#[derive(Drop)]
pub(crate) enum Request<'a> {
    Event(Event<'a>),
    Frame(Examined<'a>),
}

impl<'a> Request<'a> {
    /// The event that it is.
    pub(crate) fn event(&self) -> Event<'a>
        ensures { heard result ≡ heard_by self.now }
    {
        match self {
            Request::Event(event) => *event,
            Request::Frame(examined) => Event::Frame(examined.frame()),
        }
    }
}
