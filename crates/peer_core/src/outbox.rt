//! The frames that wait to be given as duties.

ghost use Rattle.std.specs.Prelude.{◌≡◌, ◌∷◌, ◌++◌, [], MatchBool, MatchOption};

use crate::duty::Sending;
use std::alloc::Global;
use std::collections::VecDeque;
use std::marker::Model;

/// How many frames wait at most.
pub const MOST_WAITING: usize = 1_024;

/// Frames that are to be sent, in order. What has no room is dropped, as any frame may be lost.
#[derive(Debug, Drop)]
pub struct Outbox {
    sendings: VecDeque<Sending>,
}

impl Model for Outbox {
    ghost use Rattle.std.specs.Prelude.{◌≤◌, List, length};
    ghost use Rattle.peer_core.specs.declared.duty.Sending.{Sending as AnySending};

    ghost Value = { List AnySending };

    ghost view = { λ a. a.sendings.items };

    ghost invariant = { λ a. length a.sendings.items ≤ 1024 };
}

impl Outbox {
    /// Nothing waits. It takes no memory.
    pub fn new(alloc: Global) -> Outbox
        ensures { result ≡ [] }
    {
        Outbox {
            sendings: VecDeque::new(alloc),
        }
    }

    /// Adds a frame behind the others, and returns whether there was room and memory for it.
    pub fn put(&mut self, sending: Sending) -> bool
        ensures { MatchBool result (self.new ≡ self.old ++ sending ∷ []) (self.new ≡ self.old) }
    {
        self.sendings.len() < MOST_WAITING && self.sendings.push_back(sending).is_ok()
    }

    /// Gives the first frame.
    pub fn take(&mut self) -> Option<Sending>
        ensures { MatchOption result ((self.old ≡ []) × (self.new ≡ [])) (λ sending. self.old ≡ sending ∷ self.new) }
    {
        self.sendings.pop_front()
    }
}
