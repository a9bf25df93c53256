//! Taking items.

use super::assert_same;
use locked_node::Subscription;
use std::process::Abort;
use std::sync::Wait;
use subscriber_ring::Delivered;
use transactions::Op;

/// The item that waits.
pub(super) fn next_of<R: Abort + Wait>(rt: &R, subscription: &mut Subscription) -> Delivered {
    let Some(delivered) = subscription.try_take(rt) else {
        panic!(rt; "an item waits");
    };
    delivered
}

/// It is client 7's first, at position 0.
pub(super) fn assert_first<R: Abort>(rt: &R, delivered: &Delivered) {
    assert_same(rt, &delivered.position, &0);
    assert_same(rt, &(delivered.item.client, delivered.item.number), &(7, 1));
    let Op::Bytes(contents) = &delivered.item.op else {
        panic!(rt; "it has contents");
    };
    assert!(rt; contents.as_slice() == b"a".as_slice());
}
