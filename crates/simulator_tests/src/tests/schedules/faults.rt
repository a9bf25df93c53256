use super::{assert_run, world};
use std::alloc::Global;
use std::process::Abort;

/// Values, and a proposal of A, which is the first event.
const BEGINNING: &str = "\
value A 7:1:61
value B 1024:1:61
value C 65535:1:61
value D 7:0:61
value F 7:281474976710657:61
value G 7:18446744073709551615:close
propose 0 3 0 0 -1 A
# a comment is no event

";

/// A schedule in which this line comes after that beginning.
fn second_event(rt: &impl Abort, alloc: Global, line: &str) -> String {
    let lines = format!(in alloc; "{BEGINNING}{line}\nvote 0 3 prevote 0 0 nil\n");
    world(rt, alloc, lines.expect(rt, "no memory").as_str())
}

/// Each of these lines fails with the fault of the number that stands before it.
fn assert_each_fails(rt: &impl Abort, alloc: Global, rows: &str) {
    for row in rows.lines() {
        let (number, line) = row.split_once(' ').unwrap_or((row, ""));
        let schedule = second_event(rt, alloc, line);
        assert_second_fails(rt, alloc, schedule.as_bytes(), number);
    }
}

/// The second event fails with the fault of this number.
fn assert_second_fails(rt: &impl Abort, alloc: Global, schedule: &[u8], number: &str) {
    let err = format!(in alloc; "tmsim: event 2: fault {number}\n").expect(rt, "no memory");
    assert_run(rt, alloc, schedule, 3, "0 v3 prevote 0 0 A\n", err.as_str());
}

/// A number that is no validator's, and what can't be spelled.
#[test]
fn each_fault(rt: HostRuntime) {
    let rows = "\
2 vote 4 3 prevote 0 0 A
2 vote 0 4 prevote 0 0 nil
2 propose 64 3 0 0 -1 A
2 propose 0 65536 0 0 -1 A
2 vote 18446744073709551616 3 prevote 0 0 A
2 vote 0 340282366920938463463374607431768211456 prevote 0 0 A
2 propose 4 3 0 0 4294967295 A
4 propose 0 3 0 0 4294967295 A
4 propose 0 3 0 0 -1 B
4 propose 0 3 0 0 -1 C
4 vote 0 3 prevote 0 0 D
4 vote 0 3 precommit 9 9 F
4 vote 0 3 precommit 9 9 G
2 vote 4 3 precommit 9 9 G
2 bundle 0 4 0 0 A A 0
2 bundle 4 3 0 0 A A 0
2 bundle 0 3 0 0 B A 0,4
4 bundle 0 3 0 0 B A 0
4 bundle 0 3 0 0 A B 0
2 tx 4 1024:1:61
4 tx 3 1024:1:61
4 tx 3 7:0:61/0
4 tx 3 7.1:0:61
4 tx 3 1024.1:1:61
2 raw 4 -
2 timeout 4 propose 0 0
2 ask 18446744073709551616
2 resend 4
2 restart 4
2 restart 18446744073709551616
2 fail 4 0 -
1 deliver 1 3
1 deliver 99999999999999999999 4
2 deliver 0 4
2 send 8 61
2 close 18446744073709551616
6 open 7
2 open 8
2 open 18446744073709551616";
    assert_each_fails(&rt, rt.alloc(), rows);
}
