//! Where a client stands, and which transaction is its next.

use super::next_values::tx;
use protocol::Standing;
use std::alloc::Global;
use std::process::Abort;

/// Whether a transaction of client 7 of this session and number is the next one there.
fn admits(rt: &impl Abort, alloc: Global, standing: Standing, session: u32, number: u64) -> bool {
    standing.admits(&tx(rt, alloc, (7, session, number, false)))
}

/// These sessions and numbers are admitted there, or not.
fn assert_admits(rt: &impl Abort, alloc: Global, standing: Standing, cases: &[(u32, u64, bool)]) {
    for (session, number, admitted) in cases {
        let found = admits(rt, alloc, standing, *session, *number);
        assert_eq!(rt; found, *admitted, "session {session}, number {number}");
    }
}

#[test]
fn a_client_of_which_there_is_nothing(rt: HostRuntime) {
    let cases = [(0, 1, true), (0, 0, false), (0, 2, false), (1, 1, false)];
    assert_admits(&rt, rt.alloc(), Standing::FRESH, &cases);
}

#[test]
fn standings_left_behind(rt: HostRuntime) {
    let open = Standing::left_by(&tx(&rt, rt.alloc(), (7, 3, 5, false)));
    let within = Standing {
        session: 3,
        last: 5,
        closed: false,
    };
    assert!(rt; open == within);
    let shut = Standing::left_by(&tx(&rt, rt.alloc(), (7, 3, 6, true)));
    let behind = Standing {
        session: 3,
        last: 6,
        closed: true,
    };
    assert!(rt; shut == behind);
    let cases = [
        (3, 6, true),
        (3, 5, false),
        (3, 7, false),
        (2, 6, false),
        (4, 6, false),
        (4, 1, false),
    ];
    assert_admits(&rt, rt.alloc(), open, &cases);
    let cases = [
        (4, 1, true),
        (3, 7, false),
        (3, 1, false),
        (4, 7, false),
        (4, 2, false),
        (5, 1, false),
    ];
    assert_admits(&rt, rt.alloc(), shut, &cases);
}

#[test]
fn nothing_follows_the_last(rt: HostRuntime) {
    let last_session = Standing {
        session: u32::MAX,
        last: 1,
        closed: true,
    };
    let cases = [(u32::MAX, 2, false), (u32::MAX, 1, false), (0, 1, false)];
    assert_admits(&rt, rt.alloc(), last_session, &cases);
    let last_number = Standing {
        session: 1,
        last: u64::MAX,
        closed: false,
    };
    let cases = [(1, 0, false), (1, u64::MAX, false), (2, 1, false)];
    assert_admits(&rt, rt.alloc(), last_number, &cases);
}
