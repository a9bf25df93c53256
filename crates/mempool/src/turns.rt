//! Taking transactions of several queues in turn.

ghost use Rattle.std.specs.Prelude.{◌≡◌, ◌<◌, All, length, map};
ghost use Rattle.std.specs.Iterator.{YieldsFirstRef, item_count};
ghost use Rattle.mempool.specs.Turns.{in_turn};

use std::collections::VecDeque;
use std::marker::Model;
use transactions::Tx;

/// What is still to come of several queues, of which one transaction each is taken in turn, again
/// and again. Contracts see the transactions in the order in which they come.
///
/// The first queue is the one whose turn it is; what is left of it goes to the end.
#[derive(Drop)]
pub struct Turns<'a> {
    queues: VecDeque<&'a [Tx]>,
}

impl<'a> Model for Turns<'a> {
    ghost use Rattle.std.specs.Prelude.{List, ◌<◌, All, length, map};
    ghost use Rattle.transactions.specs.declared.tx.Tx.{Tx as AnyTx};
    ghost use Rattle.mempool.specs.Turns.{in_turn};

    ghost Value = { List AnyTx };

    ghost view = { λ a. in_turn (map (λ queue. queue.now) a.queues.items) };

    ghost invariant = { λ a. All (λ queue. 0 < length queue.now) a.queues.items };
}

impl<'a> Turns<'a> {
    /// The turns of these queues, of which none is empty. It takes no memory.
    pub fn new(queues: VecDeque<&'a [Tx]>) -> Turns<'a>
        requires { All (λ queue. 0 < length queue.now) queues.items }
        ensures { result ≡ in_turn (map (λ queue. queue.now) queues.entry.items) }
    {
        Turns { queues }
    }
}

impl<'a> Iterator for Turns<'a> {
    type Item = &'a Tx;

    ghost next_gives = { YieldsFirstRef (λ s. s) };

    ghost remaining = { item_count (λ s. s) };

    fn next(&mut self) -> Option<&'a Tx> {
        let queue = self.queues.pop_front()?;
        let (first, rest) = queue.split_first()?;
        if !rest.is_empty() {
            self.queues.push_back_reserved(rest);
        }
        Some(first)
    }
}
