use super::{assert_left, assert_text};
use schedule_text::follow;
use std::alloc::Global;
use std::process::Abort;

/// A schedule without a report.
const SCHEDULE: &str = "\
# Validator 3 votes.

powers 1 1 1 1
clients 8
liars 0 1 2
value A 7:1:61
# (the setup ends here)
propose 0 3 0 0 -1 A
state 3
vote 0 3 prevote 0 0 A
# (one prevote is missing)
";

/// The same with its report in it.
const FOLLOWED: &str = "\
# Validator 3 votes.

powers 1 1 1 1
clients 8
liars 0 1 2
value A 7:1:61
# (the setup ends here)
propose 0 3 0 0 -1 A
#    0 v3 prevote 0 0 A
state 3
#    v3 state 0 0 prevote lock -1 nil valid -1 nil prevotes 1 precommits 0
#    v3 keeps v0 proposal 0 0 -1 A
vote 0 3 prevote 0 0 A
# (one prevote is missing)
#    v3 at 0 0:
";

/// What is written of a schedule with its report is this text, with this exit status and this text on standard error.
fn assert_followed(
    rt: &impl Abort,
    alloc: Global,
    schedule: &str,
    status: u8,
    out: &str,
    err: &str,
) {
    let mut reader = schedule.as_bytes();
    let mut written = Vec::new(alloc);
    let mut told = Vec::new(alloc);
    let left = follow(alloc, "f", &mut reader, &mut written, &mut told);
    assert_text(rt, schedule, &written, out);
    assert_text(rt, schedule, &told, err);
    assert_left(rt, schedule, left, status);
}

#[test]
fn a_report_is_under_its_lines(rt: HostRuntime) {
    assert_followed(&rt, rt.alloc(), SCHEDULE, 0, FOLLOWED, "");
}

#[test]
fn a_report_takes_the_place_of_an_earlier_one(rt: HostRuntime) {
    assert_followed(&rt, rt.alloc(), FOLLOWED, 0, FOLLOWED, "");
}

#[test]
fn a_text_ends_with_the_event_that_cannot_happen(rt: HostRuntime) {
    let alloc = rt.alloc();
    let setup = "powers 1 1\nclients 1\nvalue E\n";
    let first = "#    0 v0 proposal 0 0 -1 E\n#    1 v0 prevote 0 0 E\n";
    let schedule = format!(in alloc; "{setup}ask 2\npass\n").expect(&rt, "no memory");
    let followed = format!(in alloc; "{setup}{first}ask 2\n").expect(&rt, "no memory");
    let told = "tmsim: event 1: fault 2\n";
    assert_followed(&rt, alloc, schedule.as_str(), 3, followed.as_str(), told);
}

#[test]
fn nothing_is_written_of_a_bad_schedule(rt: HostRuntime) {
    let schedule = "powers 1 1\nclients 1\nask 7 7\n";
    assert_followed(&rt, rt.alloc(), schedule, 2, "", "tmsim: line 3\n");
}
