//! What was handed to a node since its opening, which only clauses read.

ghost use Rattle.std.specs.Prelude.{◌≡◌, List, []};
ghost use Rattle.std.specs.Borrow.{ftrue};
ghost use Rattle.locked_node.specs.History.{Call, noted};

use crate::event::Told;
use std::marker::{Model, PhantomData};

/// The node as it was opened, a `C`, and the calls that handed something to it, the newest first. It
/// takes no memory.
#[derive(Drop)]
pub(crate) struct History<C> {
    of: PhantomData<C>,
    pub ghost base: { C },
    pub ghost calls: { List Call },
}

impl<C> Model for History<C> {
    ghost also_owns = { λ _. ftrue };
}

// It owns nothing.
unsafe impl<C: Send> Send for History<C> {}

impl<C> History<C> {
    /// The history of a node that is opened.
    pub(crate) fn since(_node: &C) -> History<C>
        ensures { (result.base ≡ _node.now) × (result.calls ≡ []) }
    {
        History { of: PhantomData }
    }

    /// The history with one call more.
    pub(crate) fn with(&self, _told: &Told<'_>) -> History<C>
        ensures { (result.base ≡ self.now.base) × (result.calls ≡ noted _told.now self.now.calls) }
    {
        History { of: PhantomData }
    }
}
