//! What a core is asked, as a call of it.

ghost use Rattle.locked_node.specs.History.{heard_by};
ghost use Rattle.locked_node.specs.Calls.{Does};

use crate::event::{Event, Request};
use frame_admission::Tagger;
use node_core::{NodeCore, Outlet};
use protocol::Refusal;
use vote_journal::Store;

/// Asks a core.
pub(crate) fn ask_core<S: Store + Drop, T: Tagger + Outlet>(
    core: &mut NodeCore<S>,
    tagger: &T,
    request: Request<'_>,
) -> Result<(), Refusal>
    ensures { Does (heard_by request.entry) result core.old core.new }
{
    match request {
        Request::Frame(examined) => core.handle_examined(tagger, examined),
        Request::Event(Event::Frame(frame)) => core.handle_with(tagger, frame),
        Request::Event(Event::Timeout(timeout)) => core.fire_timeout_with(tagger, timeout),
        Request::Event(Event::Settle) => core.settle_with(tagger),
        Request::Event(Event::Ask) => core.ask(),
        Request::Event(Event::Resend) => core.resend(),
    }
}
