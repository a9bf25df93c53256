//! Schedules that are bad or end by a fault, streams that fail, schedules with their reports in them, and diagrams of those.

mod bad_lines;
mod charts;
mod faults;
mod followed;
mod streams;

use schedule_text::simulate;
use std::alloc::Global;
use std::process::Abort;

/// A world of four validators, of whom 0, 1 and 2 lie, and these lines.
fn world(rt: &impl Abort, alloc: Global, lines: &str) -> String {
    let setup = format!(in alloc; "powers 1 1 1 1\nclients 8\nliars 0 1 2\n{lines}");
    setup.expect(rt, "no memory")
}

/// A run of a schedule of the file `f` has this exit status, and leaves these texts on its streams.
fn assert_run(rt: &impl Abort, alloc: Global, schedule: &[u8], status: u8, out: &str, err: &str) {
    let text = str::from_utf8(schedule).unwrap_or("");
    let mut reader = schedule;
    let mut written = Vec::new(alloc);
    let mut told = Vec::new(alloc);
    let left = simulate(alloc, "f", &mut reader, &mut written, &mut told);
    assert_text(rt, text, &written, out);
    assert_text(rt, text, &told, err);
    assert_left(rt, text, left, status);
}

/// The run of a schedule left this exit status.
fn assert_left(rt: &impl Abort, schedule: &str, left: u8, status: u8) {
    assert_eq!(rt; left, status, "{schedule}");
}

/// This text was written in the run of a schedule.
fn assert_text(rt: &impl Abort, schedule: &str, written: &[u8], text: &str) {
    assert_eq!(rt; str::from_utf8(written), Ok(text), "{schedule}");
}
