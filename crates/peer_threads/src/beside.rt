//! What is done beside the node while it is called.

use crate::shared::Shared;
use crate::tagging::SideBySide;
use authenticators::KeyRing;
use frame_admission::Tagger;
use log::Log;
use node_core::{LeavingFrame, Outlet};
use peer_links::Clock;
use status_words::Node;
use std::alloc::{AllocError, Global};
use std::sync::Wait;
use std::thread::Threads;
use std::time;
use vote_journal::Store;

/// Makes the tags of what the node releases side by side, and queues each frame as soon as it may leave: what the node saves behind it
/// in the same call doesn't keep it.
#[derive(Drop)]
pub(crate) struct Beside<
    'a,
    'b,
    R: Threads + Wait + time::Clock + Log,
    S: Store + Drop,
    J: Node,
    C: Clock,
> {
    rt: &'a R,
    shared: &'a Shared<'b, S, J, C>,
}

impl<'a, 'b, R: Threads + Wait + time::Clock + Log, S: Store + Drop, J: Node, C: Clock> Beside<
    'a,
    'b,
    R,
    S,
    J,
    C,
> {
    pub(crate) fn new(rt: &'a R, shared: &'a Shared<'b, S, J, C>) -> Beside<'a, 'b, R, S, J, C> {
        Beside { rt, shared }
    }
}

impl<R: Threads + Wait + time::Clock + Log, S: Store + Drop, J: Node, C: Clock> Tagger
    for Beside<'_, '_, R, S, J, C> {
    fn tags(
        &self,
        alloc: Global,
        ring: &KeyRing,
        body: &[u8],
    ) -> Result<Vec<[u8; 32]>, AllocError> {
        SideBySide::new(self.rt).tags(alloc, ring, body)
    }
}

impl<R: Threads + Wait + time::Clock + Log, S: Store + Drop, J: Node, C: Clock> Outlet
    for Beside<'_, '_, R, S, J, C> {
    fn let_go(&self, frame: &LeavingFrame) {
        let now = self.shared.clock.now_ms(self.rt);
        let mut desk = self.shared.desk.lock(self.rt);
        desk.let_go(self.rt, frame.as_slice(), now);
    }
}
