//! Which value may be delivered next.

ghost use Rattle.transactions.specs.Grammar.{IsValue};

use super::assert_same;
use proposal_validity::{Frontier, frontier_law, valid_law};
use std::alloc::Global;
use std::process::Abort;
use transactions::{Data, Op, Seq, Shared, Tx, Value, spell_value};

/// A transaction's client, its session, its number, and whether it closes the session.
pub(crate) type Place = (u16, u32, u64, bool);

/// What a transaction asks for: the close of its session, or two bytes.
fn op_of(rt: &impl Abort, alloc: Global, closes: bool) -> Op {
    if closes {
        return Op::Close;
    }
    Op::Bytes(Data::from_slice(alloc, b"ab").expect(rt, "no memory"))
}

/// A transaction at this place, which closes or asks for two bytes.
pub(crate) fn tx(rt: &impl Abort, alloc: Global, place: Place) -> Tx {
    let (client, session, number, closes) = place;
    let mut tags = Seq::new(alloc);
    tags.push([9; 32]).expect(rt, "no memory");
    Tx {
        client,
        session,
        number,
        op: op_of(rt, alloc, closes),
        tags,
    }
}

/// A value of transactions at these places.
fn value(rt: &impl Abort, alloc: Global, list: &[Place]) -> Value
    ensures { IsValue result }
{
    let mut txs = Vec::new(alloc);
    for place in list {
        txs.push(tx(rt, alloc, *place)).expect(rt, "no memory");
    }
    let value = Value {
        txs: Shared::from_vec(alloc, txs).expect(rt, "no memory"),
    };
    let _spelling = spell_value(alloc, &value).expect(rt, "no value");
    value
}

/// Whether such a value may be delivered next.
fn admits(rt: &impl Abort, alloc: Global, frontier: &Frontier, list: &[Place]) -> bool {
    frontier.valid(&value(rt, alloc, list))
}

/// Each of these values may be delivered next, or not.
pub(crate) fn assert_admits(
    rt: &impl Abort,
    alloc: Global,
    frontier: &Frontier,
    cases: &[(&[Place], bool)],
) {
    for (list, admitted) in cases {
        assert_eq!(rt; admits(rt, alloc, frontier, list), *admitted, "at {list:?}");
    }
}

/// Delivers such a value.
pub(crate) fn deliver(rt: &impl Abort, alloc: Global, frontier: &mut Frontier, list: &[Place]) {
    let value = value(rt, alloc, list);
    assert!(rt; frontier.valid(&value));
    frontier.extend(&value).expect(rt, "no memory");
}

/// What is told of a client: its session, the number that comes next in it, and whether it is closed.
pub(crate) fn assert_stands(
    rt: &impl Abort,
    frontier: &Frontier,
    client: u16,
    standing: (u32, u64, bool),
) {
    let (session, next, closed) = standing;
    assert_same(rt, &frontier.session(client), &session);
    assert_same(rt, &frontier.next(client), &next);
    assert_same(rt, &frontier.is_closed(client), &closed);
}

#[test]
fn nothing_delivered(rt: HostRuntime) {
    let frontier = Frontier::new(rt.alloc());
    for client in [0, 7, 1023, u16::MAX] {
        assert_stands(&rt, &frontier, client, (0, 1, false));
    }
    let cases: [(&[Place], bool); 3] = [
        (&[], true),
        (&[(7, 0, 1, false)], true),
        (&[(7, 0, 2, false)], false),
    ];
    assert_admits(&rt, rt.alloc(), &frontier, &cases);
}

#[test]
fn nothing_of_a_session_follows_its_close(rt: HostRuntime) {
    let mut frontier = Frontier::new(rt.alloc());
    let list = [(7, 0, 1, false), (7, 0, 2, true)];
    deliver(&rt, rt.alloc(), &mut frontier, &list);
    assert_same(&rt, &frontier.next(7), &3);
    assert!(rt; frontier.is_closed(7));
    let cases: [(&[Place], bool); 4] = [
        (&[(7, 0, 3, false)], false),
        (&[(7, 0, 3, true)], false),
        (&[(8, 0, 1, false)], true),
        (&[(8, 0, 1, false), (7, 0, 3, false)], false),
    ];
    assert_admits(&rt, rt.alloc(), &frontier, &cases);
}

#[test]
fn numbers_within_a_value(rt: HostRuntime) {
    let cases: [(&[Place], bool); 7] = [
        (&[(7, 0, 1, false), (7, 0, 2, false)], true),
        (&[(7, 0, 1, false), (7, 0, 3, false)], false),
        (&[(7, 0, 1, false), (7, 0, 1, false)], false),
        (&[(7, 0, 2, false), (7, 0, 1, false)], false),
        (&[(7, 0, 1, false), (7, 0, 2, true)], true),
        (&[(7, 0, 1, true), (7, 0, 2, false)], false),
        (&[(7, 0, 1, true), (8, 0, 1, false)], true),
    ];
    assert_admits(&rt, rt.alloc(), &Frontier::new(rt.alloc()), &cases);
}

#[test]
fn two_clients_in_turn(rt: HostRuntime) {
    let mut frontier = Frontier::new(rt.alloc());
    let list = [
        (7, 0, 1, false),
        (8, 0, 1, false),
        (7, 0, 2, false),
        (8, 0, 2, true),
    ];
    deliver(&rt, rt.alloc(), &mut frontier, &list);
    assert_same(&rt, &frontier.next(7), &3);
    assert!(rt; !frontier.is_closed(7));
    assert_same(&rt, &frontier.next(8), &3);
    assert!(rt; frontier.is_closed(8));
    assert_same(&rt, &frontier.next(6), &1);
    let cases: [(&[Place], bool); 1] = [(&[(6, 0, 1, false), (7, 0, 3, false)], true)];
    assert_admits(&rt, rt.alloc(), &frontier, &cases);
}

#[test]
fn numbers_go_on_from_what_is_delivered(rt: HostRuntime) {
    let mut frontier = Frontier::new(rt.alloc());
    deliver(&rt, rt.alloc(), &mut frontier, &[(7, 0, 1, false)]);
    let cases: [(&[Place], bool); 4] = [
        (&[(7, 0, 1, false)], false),
        (&[(7, 0, 1, false), (7, 0, 2, false)], false),
        (&[(7, 0, 3, false)], false),
        (&[(7, 0, 2, false), (7, 0, 3, false)], true),
    ];
    assert_admits(&rt, rt.alloc(), &frontier, &cases);
    let list = [(1023, 0, 1, false), (7, 0, 2, false)];
    deliver(&rt, rt.alloc(), &mut frontier, &list);
    for (client, next) in [(7, 3), (1023, 2), (1022, 1)] {
        assert_same(&rt, &frontier.next(client), &next);
    }
}

#[test]
fn copies_are_equal(rt: HostRuntime) {
    let mut frontier = Frontier::new(rt.alloc());
    let list = [(7, 0, 1, false), (8, 0, 1, true)];
    deliver(&rt, rt.alloc(), &mut frontier, &list);
    let copy = frontier.copy(rt.alloc()).expect(&rt, "no memory");
    deliver(&rt, rt.alloc(), &mut frontier, &[(7, 0, 2, true)]);
    assert_same(&rt, &copy.next(7), &2);
    assert!(rt; !copy.is_closed(7));
    assert!(rt; copy.is_closed(8));
    assert_same(&rt, &frontier.next(7), &3);
}

#[test]
fn laws_take_nothing() {
    valid_law();
    frontier_law();
}
