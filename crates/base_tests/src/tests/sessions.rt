//! Which value may be delivered next where clients go on after a close.

use super::next_values::{Place, assert_admits, assert_stands, deliver};
use proposal_validity::Frontier;

#[test]
fn a_session_after_a_close(rt: HostRuntime) {
    let mut frontier = Frontier::new(rt.alloc());
    let list = [(7, 0, 1, false), (7, 0, 2, true)];
    deliver(&rt, rt.alloc(), &mut frontier, &list);
    assert_stands(&rt, &frontier, 7, (0, 3, true));
    let cases: [(&[Place], bool); 7] = [
        (&[(7, 1, 1, false)], true),
        (&[(7, 1, 1, true)], true),
        // The closed session's number goes on, in it or in the next one.
        (&[(7, 0, 3, false)], false),
        (&[(7, 1, 3, false)], false),
        // Its first number again, a number of the next session that isn't the first, and a session skipped.
        (&[(7, 0, 1, false)], false),
        (&[(7, 1, 2, false)], false),
        (&[(7, 2, 1, false)], false),
    ];
    assert_admits(&rt, rt.alloc(), &frontier, &cases);
}

#[test]
fn a_session_that_has_begun(rt: HostRuntime) {
    let mut frontier = Frontier::new(rt.alloc());
    deliver(&rt, rt.alloc(), &mut frontier, &[(7, 0, 1, true)]);
    deliver(&rt, rt.alloc(), &mut frontier, &[(7, 1, 1, false)]);
    assert_stands(&rt, &frontier, 7, (1, 2, false));
    let cases: [(&[Place], bool); 6] = [
        (&[(7, 1, 2, false)], true),
        (&[(7, 1, 2, true), (7, 2, 1, false)], true),
        (&[(7, 0, 2, false)], false),
        (&[(7, 1, 1, false)], false),
        // No close stands before the next session.
        (&[(7, 2, 1, false)], false),
        (&[(7, 1, 2, false), (7, 2, 1, false)], false),
    ];
    assert_admits(&rt, rt.alloc(), &frontier, &cases);
}

#[test]
fn sessions_within_a_value(rt: HostRuntime) {
    let cases: [(&[Place], bool); 7] = [
        (&[(7, 0, 1, true), (7, 1, 1, false)], true),
        (&[(7, 0, 1, false), (7, 1, 1, false)], false),
        (&[(7, 0, 1, true), (7, 1, 2, false)], false),
        (&[(7, 0, 1, true), (7, 2, 1, false)], false),
        (&[(7, 0, 1, true), (7, 0, 1, true)], false),
        (&[(7, 1, 1, false)], false),
        // Another client's close opens no session.
        (&[(7, 0, 1, true), (8, 1, 1, false)], false),
    ];
    assert_admits(&rt, rt.alloc(), &Frontier::new(rt.alloc()), &cases);
}

#[test]
fn three_sessions_in_one_value(rt: HostRuntime) {
    let mut frontier = Frontier::new(rt.alloc());
    let list = [
        (7, 0, 1, true),
        (8, 0, 1, false),
        (7, 1, 1, true),
        (8, 0, 2, true),
        (7, 2, 1, false),
    ];
    deliver(&rt, rt.alloc(), &mut frontier, &list);
    assert_stands(&rt, &frontier, 7, (2, 2, false));
    assert_stands(&rt, &frontier, 8, (0, 3, true));
    assert_stands(&rt, &frontier, 6, (0, 1, false));
    let copy = frontier.copy(rt.alloc()).expect(&rt, "no memory");
    deliver(&rt, rt.alloc(), &mut frontier, &[(8, 1, 1, false)]);
    assert_stands(&rt, &frontier, 8, (1, 2, false));
    assert_stands(&rt, &copy, 8, (0, 3, true));
    assert_stands(&rt, &copy, 7, (2, 2, false));
}
