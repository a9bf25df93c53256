//! A transaction among those that wait.

ghost use Rattle.std.specs.Prelude.{◌≡◌, true, IfSome};
ghost use Rattle.transactions.specs.Equality.{tx_eq, op_eq, lists_eq};
ghost use Rattle.std.specs.Str.{bytes_eq};
ghost use Rattle.protocol.specs.Messages.{◌∈◌};

use transactions::{Op, Tx};

/// The transaction of this session and number, where it is of the queue's first session and the numbers go on one by
/// one.
pub(crate) fn numbered(waiting: &[Tx], session: u32, number: u64) -> Option<&Tx>
    ensures { IfSome result (λ tx. tx.now ∈ waiting.now) }
{
    let first = waiting.first()?;
    if session != first.session {
        return None;
    }
    let behind = number.checked_sub(first.number)?;
    waiting.get(behind as usize)
}

/// Whether two transactions are equal, the tags included.
pub(crate) fn is_same(a: &Tx, b: &Tx) -> bool
    ensures { result ≡ tx_eq a.now b.now }
{
    a.client == b.client
        && a.session == b.session
        && a.number == b.number
        && is_same_op(&a.op, &b.op)
        && are_same_tags(a.tags.as_slice(), b.tags.as_slice())
}

fn is_same_op(a: &Op, b: &Op) -> bool
    ensures { result ≡ op_eq a.now b.now }
{
    match (a, b) {
        (Op::Bytes(a), Op::Bytes(b)) => a.as_slice() == b.as_slice(),
        (Op::Close, Op::Close) => true,
        (Op::Bytes(_), Op::Close) | (Op::Close, Op::Bytes(_)) => false,
    }
}

fn are_same_tags(a: &[[u8; 32]], b: &[[u8; 32]]) -> bool
    ensures { result ≡ lists_eq bytes_eq a.now b.now }
{
    a == b
}
