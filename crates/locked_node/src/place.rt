//! A place in the delivered list.

ghost use Rattle.std.specs.Prelude.{◌≡◌, ◌+◌, ◌<◌, ◌≤◌, ◌-◌, ◌^◌, ◌∷◌, [], min, length, drop, IfOk, IfSome, IfNone};
ghost use Rattle.protocol.specs.Values.{item};
ghost use Rattle.node_core.specs.Core.{delivered_in};
ghost use Rattle.locked_node.specs.Feeding.{IsPlace, IsNormal, left_at, after_one};

use messages::Bundle;
use std::alloc::{AllocError, Global};
use transactions::{Duplicate, Item, Tx};

/// So many items behind the first of a height. It may lie behind the height's last one.
#[derive(Clone, Copy, Debug)]
pub(crate) struct Place {
    pub(crate) height: usize,
    pub(crate) index: usize,
}

/// The same place, within its height or at the list's end.
pub(crate) fn normal(decisions: &[Bundle], place: Place) -> Place
    requires { IsPlace decisions.now place }
    ensures place { IsPlace decisions.now result }
    ensures same { left_at decisions.now result ≡ left_at decisions.now place }
    ensures normal { IsNormal decisions.now result }
{
    let mut height = place.height;
    let mut index = place.index;
    while height < decisions.len() && index >= decisions[height].value.txs.len() {
        index -= decisions[height].value.txs.len();
        height += 1;
    }
    Place { height, index }
}

/// The transaction at the place. None at the list's end.
pub(crate) fn tx_at(decisions: &[Bundle], place: Place) -> Option<&Tx>
    requires place { IsPlace decisions.now place }
    requires normal { IsNormal decisions.now place }
    ensures some { IfSome result (λ tx. left_at decisions.now place ≡ item tx.now ∷ left_at decisions.now (after_one place)) }
    ensures room { IfSome result (λ tx. place.index + 1 < 2 ^ 64) }
    ensures next { IfSome result (λ tx. IsPlace decisions.now (after_one place)) }
    ensures none { IfNone result (left_at decisions.now place ≡ []) }
{
    let bundle = decisions.get(place.height)?;
    let tx = bundle.value.txs.as_slice().get(place.index)?;
    Some(tx)
}

/// That a copy of an item was refused memory. Only `item_of` makes one.
#[derive(Debug, Drop)]
pub struct Uncopied {
    cause: AllocError,
}

/// What is delivered of a transaction, copied.
pub(crate) fn item_of(alloc: Global, tx: &Tx) -> Result<Item, Uncopied>
    ensures { IfOk result (λ i. i ≡ item tx.now) }
{
    match tx.op.copy(alloc) {
        Ok(op) => Ok(Item {
            client: tx.client,
            session: tx.session,
            number: tx.number,
            op,
        }),
        Err(cause) => Err(Uncopied { cause }),
    }
}

/// So many items and those of the decisions from this one on together, up to the greatest u64.
pub(crate) fn count_from(count: u64, decisions: &[Bundle], from: usize) -> u64
    requires { from ≤ length decisions.now }
    ensures { result ≡ min (count + length (delivered_in (drop from decisions.now))) (2 ^ 64 - 1) }
{
    count_with(count, &decisions[from..])
}

/// So many items and those of the decisions together, up to the greatest u64.
fn count_with(count: u64, decisions: &[Bundle]) -> u64
    ensures { result ≡ min (count + length (delivered_in decisions.now)) (2 ^ 64 - 1) }
{
    let mut all = count;
    for bundle in decisions {
        all = all.saturating_add(bundle.value.txs.len() as u64);
    }
    all
}
