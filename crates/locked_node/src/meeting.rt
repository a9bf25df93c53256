//! Whether items are a piece of the delivered list.

ghost use Rattle.std.specs.Prelude.{◌≡◌, ◌∷◌, ◌≤◌, ◌-◌, ◌^◌, min, drop, length, List, IfSome, IfNone};
ghost use Rattle.std.specs.Bool.{Decides};
ghost use Rattle.protocol.specs.Values.{Item as ItemValue};
ghost use Rattle.node_core.specs.Core.{delivered_in};
ghost use Rattle.locked_node.specs.Feeding.{IsPlace, left_at};
ghost use Rattle.locked_node.specs.Meeting.{AreNext, IsSegment};

use crate::place::{Place, normal, tx_at};
use messages::Bundle;
use subscriber_ring::Delivered;
use transactions::Item;

/// Whether the items follow one another in the delivered list, of this length, each at its position.
pub(crate) fn is_segment(decisions: &[Bundle], count: u64, items: &[Delivered]) -> bool
    requires { count ≡ min (length (delivered_in decisions.now)) (2 ^ 64 - 1) }
    ensures { Decides result (IsSegment (delivered_in decisions.now) items.now) }
{
    let Some(first) = items.first() else {
        return true;
    };
    follow_at(decisions, count, first.position, items)
}

/// Whether they do so from this position on.
fn follow_at(decisions: &[Bundle], count: u64, first: u64, items: &[Delivered]) -> bool
    requires { count ≡ min (length (delivered_in decisions.now)) (2 ^ 64 - 1) }
    ensures { Decides result ((first ≤ length (delivered_in decisions.now)) × AreNext (drop first (delivered_in decisions.now)) first items.now) }
{
    if first > count {
        return false;
    }
    let mut place = Place {
        height: 0,
        index: first as usize,
    };
    for (number, delivered) in items.iter().enumerate() {
        if delivered.position.checked_sub(first) != Some(number as u64) {
            return false;
        }
        let Some(next) = past_item(decisions, place, &delivered.item) else {
            return false;
        };
        place = next;
    }
    true
}

/// The place behind the item, where it stands at this one.
fn past_item(decisions: &[Bundle], place: Place, item: &Item) -> Option<Place>
    requires { IsPlace decisions.now place }
    ensures place { IfSome result (λ next. IsPlace decisions.now next) }
    ensures some { IfSome result (λ next. left_at decisions.now place ≡ item.now ∷ left_at decisions.now next) }
    ensures none { IfNone result ((rest : List ItemValue) → left_at decisions.now place ≡ item.now ∷ rest → ⊥) }
{
    let place = normal(decisions, place);
    let tx = tx_at(decisions, place)?;
    if tx.client != item.client
        || tx.session != item.session
        || tx.number != item.number
        || tx.op != item.op
    {
        return None;
    }
    Some(Place {
        height: place.height,
        index: place.index + 1,
    })
}
