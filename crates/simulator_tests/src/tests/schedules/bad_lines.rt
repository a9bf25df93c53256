use super::{assert_run, world};
use std::alloc::Global;
use std::process::Abort;

/// Of each schedule the line of the number that stands before it is the first bad one: nothing is run.
/// A row has `;` for each line feed of its schedule.
fn assert_each_bad(rt: &impl Abort, alloc: Global, rows: &str) {
    for row in rows.lines() {
        let (line, schedule) = row.split_once(' ').unwrap_or((row, ""));
        let schedule = schedule.replace(alloc, ';', "\n").expect(rt, "no memory");
        assert_bad(rt, alloc, schedule.as_str(), line);
    }
}

/// In a world with the value A each of these lines is bad: nothing is run.
fn assert_each_bad_in_world(rt: &impl Abort, alloc: Global, lines: &str) {
    for line in lines.lines() {
        assert_bad_in_world(rt, alloc, line);
    }
}

/// In a world with the value A this line is the first bad one: nothing is run.
fn assert_bad_in_world(rt: &impl Abort, alloc: Global, line: &str) {
    let lines = format!(in alloc; "value A 7:1:61\n{line}\nvote 0 3 prevote 0 0 A\n");
    let schedule = world(rt, alloc, lines.expect(rt, "no memory").as_str());
    assert_bad(rt, alloc, schedule.as_str(), "5");
}

/// Of the schedule this line is the first bad one: nothing is run.
fn assert_bad(rt: &impl Abort, alloc: Global, schedule: &str, line: &str) {
    let err = format!(in alloc; "tmsim: line {line}\n").expect(rt, "no memory");
    assert_run(rt, alloc, schedule.as_bytes(), 2, "", err.as_str());
}

/// Setup lines that are bad, or stand where they may not, and texts that end too early.
#[test]
fn setup(rt: HostRuntime) {
    let rows = "\
1
2 ;
2 # nothing
2 powers 1 1 1 1
3 powers 1 1 1 1;;
4 powers 1 1 1 1;clients 8;liars 0 1 2;propose 0 3 0 0 -1 A;
1 clients 8;powers 1 1 1 1;
1 liars 0 1 2;
1 value A;
1 vote 0 3 prevote 0 0 nil;
1 pass;
1 state 3;
2 powers 1 1 1 1;pass;
4 powers 1 1 1 1;clients 8;value A;liars 0;
4 powers 1 1 1 1;clients 8;pass;liars 0;
4 powers 1 1 1 1;clients 8;pass;value A;
4 powers 1 1 1 1;clients 8;state 3;value A;
2 powers 1 1 1 1;liars 0 1 2;
2 powers 1 1 1 1;value A;
2 powers 1 1 1 1;vote 0 3 prevote 0 0 nil;
2 powers 1 1 1 1;powers 1 1 1 1;
3 powers 1 1 1 1;clients 8;clients 8;
3 powers 1 1 1 1;clients 8;vote 0 3 prevote 0 0 nil;
4 powers 1 1 1 1;clients 8;liars 0 1 2;liars 0 1 2;
5 powers 1 1 1 1;clients 8;liars 0 1 2;value A;liars 0 1 2;
6 powers 1 1 1 1;clients 8;liars 0 1 2;value A;vote 0 3 prevote 0 0 A;value B;
3 powers 1 1 1 1;clients 8;liars;
3 powers 1 1 1 1;clients 8;liars 0 1 4;
3 powers 1 1 1 1;clients 8;liars 0 1 18446744073709551616;
3 powers 1 1 1 1;clients 8;liars 0,1,2;
2 powers 1 1 1 1;clients;
2 powers 1 1 1 1;clients 0;
2 powers 1 1 1 1;clients 1025;
2 powers 1 1 1 1;clients 8 8;
1 powers;
1 powers 1;
1 powers 7 3;
1 powers 1 0 1 1;
1 powers 1 1 1 01;
1 powers 1 1 1 4294967296;
1 powers 1 1  1 1;
1 powers 1 1 1 1 ;
1 powers 1 1 1 1\r;
1  powers 1 1 1 1;
1 Powers 1 1 1 1;
1 powers 1 1 1 +1;
1  ;";
    assert_each_bad(&rt, rt.alloc(), rows);
}

/// Value lines and executed lines that are bad: nothing is run.
#[test]
fn lines_of_a_world(rt: HostRuntime) {
    let lines = "\
value
value\x20
value a
value ABCDEFGHI
value A1
value A
value N 7:1
value N 7:1:61:61
value N 7:1:
value N 7:1:6
value N 7:1:6G
value N 7:1:6A
value N 7:1:Close
value N 07:1:61
value N :1:61
value N 65536:1:61
value N 7.0:1:61
value N 7.:1:61
value N .1:1:61
value N .:1:61
value N 7.01:1:61
value N 7.1.1:1:61
value N 7.-:1:61
value N 7.4294967296:1:61
value N 07.1:1:61
value N 65536.1:1:61
value N 7:1.1:61
value N 7:18446744073709551616:61
value N 7:1:61\x20
value N 7:1:61/
value N 7:1:61/0,
value N 7:1:61/0,,1
value N 7:1:61/0/1
value N 7:1:61/4
value N 7:1:61/18446744073709551616
value N /0
value N -
propose 0 3 0 0 -1 N
propose 0 3 0 0 -1 nil
propose 0 3 0 0 -1
propose 0 3 0 0 -1 A A
propose 0 3 0 0 -2 A
propose 0 3 0 0 -0 A
propose 0 3 0 0 4294967296 A
propose 0 3 0 4294967296 -1 A
propose 0 3 18446744073709551616 0 -1 A
propose 0 3 00 0 -1 A
propose 3 3 0 0 -1 A
propose 0 1 0 0 -1 A
propose 0 0 0 0 -1 A
propose 4 0 0 0 -1 A
propose 3 4 0 0 -1 A
propose x 3 0 0 -1 A
vote 0 3 prevote 0 0 N
vote 0 3 propose 0 0 A
vote 0 3 prevote 0 0
vote 0 3 prevote 0 -1 A
vote 0 3 prevote 0 4294967296 A
vote 0 3 prevote 18446744073709551616 0 A
vote 3 3 prevote 0 0 A
vote 0 2 prevote 0 0 A
vote 0 3 prevote 0 0 A\t
vote 0 3 prevote 0 0 \u{e9}
bundle 0 3 0 0 A A
bundle 0 3 0 0 A A\x20
bundle 0 3 0 0 A A -
bundle 0 3 0 0 A A 0,
bundle 0 3 0 0 A A 0 1
bundle 0 3 0 0 A A 0,3
bundle 3 3 0 0 A A 0
bundle 0 1 0 0 A A 0
bundle 0 3 0 0 N A 0
bundle 0 3 0 0 A N 0
bundle 0 3 0 0 A nil 0
bundle 0 3 0 4294967296 A A 0
bundle 0 3 18446744073709551616 0 A A 0
tx 3
tx 3 A
tx 3 7:1:61 7:2:61
tx 3 7:1:61/4
tx 3 65536:1:61
tx 3 7.0:1:61
tx 0 7:1:61
raw 3
raw 3\x20
raw 3 0
raw 3 0A
raw 3 00 00
raw 0 00
timeout 3 propose 0
timeout 3 start 0 0
timeout 3 prevote 0 4294967296
timeout 3 precommit 18446744073709551616 0
timeout 0 propose 0 0
ask
ask 0
ask 3 0
send
send 7
send x 61
send 7 6
send 7 close
send 7 61 62
close
close 7 7
close -
close 7.1
open
open 7 7
open -
open 7.1
open x
deliver 0
deliver 0 2
deliver x 3
deliver 0 3 3
pass 3
state
state 0
state 4
state 3 3
state 65536
resend
restart
restart 0
restart 3 3
fail 3 1
fail 0 1 -
fail 3 - 1
fail 3 1 -1
fail 3 01 -
fail 3 1 --
fail 3 1 - -";
    assert_each_bad_in_world(&rt, rt.alloc(), lines);
}

/// A byte that is no text.
#[test]
fn byte_of_no_text(rt: HostRuntime) {
    let schedule = b"powers 1 1 1 1\nclients \xff\n";
    assert_run(&rt, rt.alloc(), schedule, 2, "", "tmsim: line 2\n");
}

/// Comments of any bytes and empty lines are skipped, and the last line may lack its line feed.
#[test]
fn skipped_lines(rt: HostRuntime) {
    let schedule =
        b"# \xff\r\n\n#powers\npowers 1 1 1 1\nclients 1024\n\nliars 2 0 1 0 2\n#\nvote 0 3 prevote 0 0 nil";
    assert_run(&rt, rt.alloc(), schedule, 0, "v3 at 0 0:\n", "");
}
