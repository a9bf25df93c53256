use super::world;
use crate::tests::assert_same;
use schedule_text::{Failure, HELP, simulate};
use std::alloc::Global;
use std::io;
use std::io::{BufRead, ErrorKind, Read, Write};
use std::process::Abort;

/// A reader that gives its bytes, and then fails.
#[derive(Drop)]
struct Broken<'a> {
    rest: &'a [u8],
}

impl Read for Broken<'_> {
    fn read(&mut self, buf: &mut [u8]) -> io::Result<usize> {
        if self.rest.is_empty() {
            return Err(io::Error::from(ErrorKind::Other));
        }
        self.rest.read(buf)
    }
}

impl BufRead for Broken<'_> {
    fn fill_buf(&mut self) -> io::Result<&[u8]> {
        if self.rest.is_empty() {
            return Err(io::Error::from(ErrorKind::Other));
        }
        Ok(self.rest)
    }

    fn consume(&mut self, amount: usize) {
        self.rest = self.rest.get(amount..).unwrap_or(&[]);
    }
}

/// A writer that takes this many bytes.
#[derive(Drop)]
struct Full {
    room: usize,
}

impl Write for Full {
    fn write(&mut self, buf: &[u8]) -> io::Result<usize> {
        if buf.len() > self.room {
            return Err(io::Error::from(ErrorKind::Other));
        }
        self.room -= buf.len();
        Ok(buf.len())
    }

    fn flush(&mut self) -> io::Result<()> {
        Ok(())
    }
}

/// The reader fails behind these bytes.
fn assert_cannot_read(rt: &impl Abort, alloc: Global, rest: &[u8]) {
    let mut reader = Broken { rest };
    let mut out = Vec::new(alloc);
    let mut err = Vec::new(alloc);
    let status = simulate(alloc, "some file", &mut reader, &mut out, &mut err);
    assert_same(rt, &status, &2);
    assert!(rt; out.is_empty());
    assert_same(
        rt,
        &str::from_utf8(&err),
        &Ok("tmsim: cannot read some file\n"),
    );
}

/// A read that fails in the middle.
#[test]
fn failing_reader(rt: HostRuntime) {
    let schedule = world(&rt, rt.alloc(), "value A 7:1:61\npropose 0 3 0 0 -1 A\n");
    assert_cannot_read(&rt, rt.alloc(), schedule.as_bytes());
}

/// Where the writer takes so many bytes, this is the status, and nothing is told.
fn assert_status(rt: &impl Abort, alloc: Global, schedule: &[u8], room: usize, wanted: u8) {
    let mut reader = schedule;
    let mut out = Full { room };
    let mut err = Vec::new(alloc);
    let status = simulate(alloc, "f", &mut reader, &mut out, &mut err);
    assert_eq!(rt; status, wanted, "{room}");
    assert!(rt; err.is_empty());
}

/// A write that fails, at each byte of the report.
#[test]
fn failing_writer(rt: HostRuntime) {
    let schedule = world(&rt, rt.alloc(), "value A 7:1:61\npropose 0 3 0 0 -1 A\n");
    let length = "0 v3 prevote 0 0 A\nv3 at 0 0:\n".len();
    for room in 0..length {
        assert_status(&rt, rt.alloc(), schedule.as_bytes(), room, 5);
    }
    assert_status(&rt, rt.alloc(), schedule.as_bytes(), length, 0);
}

/// A failure that can't be told.
#[test]
fn failing_error_writer(rt: HostRuntime) {
    let alloc = rt.alloc();
    let mut out = Vec::new(alloc);
    let status = simulate(
        alloc,
        "f",
        &mut b"powers".as_slice(),
        &mut out,
        &mut Full { room: 5 },
    );
    assert_same(&rt, &status, &5);
}

fn assert_failure(rt: &impl Abort, alloc: Global, failure: Failure<'_>, status: u8, text: &str) {
    let mut err = Vec::new(alloc);
    assert_same(rt, &failure.tell(&mut err), &status);
    assert_same(rt, &str::from_utf8(&err), &Ok(text));
}

/// The texts and statuses that need no file.
#[test]
fn failures(rt: HostRuntime) {
    let usage = "tmsim: usage: tmsim FILE\n";
    assert_failure(&rt, rt.alloc(), Failure::Usage, 2, usage);
    let cannot_read = "tmsim: cannot read a b\n";
    assert_failure(&rt, rt.alloc(), Failure::CannotRead("a b"), 2, cannot_read);
    let out_of_memory = "tmsim: out of memory\n";
    assert_failure(&rt, rt.alloc(), Failure::OutOfMemory, 4, out_of_memory);
    assert_failure(&rt, rt.alloc(), Failure::CannotWrite, 5, "");
    assert!(rt; HELP.contains("tmsim FILE"));
}
