//! A client's side over a stream in memory, and lines of a list.

use super::assert_same;
use authenticators::{KeyRing, Party};
use list_client::{ClientFault, Connection, Sender, frame_of, item_of};
use messages::Reply;
use std::alloc::Global;
use std::io;
use std::io::{Read, Write};
use std::test::Fail;
use transactions::{Data, Fault, Op};

/// The keys of client 7 with two validators: of ones, and of twos.
const KEYS: &str =
    "c7 v0 0101010101010101010101010101010101010101010101010101010101010101\nc7 v1 0202020202020202020202020202020202020202020202020202020202020202\n";

/// The close of client 7 with number 2, and its tags' count.
const CLOSE: [u8; 17] = [0, 0, 0, 77, 1, 0, 7, 0, 0, 0, 0, 0, 0, 0, 2, 1, 2];

/// What the tags of the close begin with, as Python's module `hmac` makes them.
const TAGS: [[u8; 4]; 2] = [[244, 119, 85, 101], [154, 246, 116, 60]];

/// The byte 62 of client 7 with number 1 of session 1, and its tags' count.
const LATER: [u8; 24] = [
    0, 0, 0, 84, 2, 0, 7, 0, 0, 0, 1, 0, 0, 0, 0, 0, 0, 0, 1, 0, 0, 1, 0x62, 2,
];

/// What its tags begin with.
const TAGS_OF_LATER: [[u8; 4]; 2] = [[128, 199, 56, 69], [80, 90, 134, 191]];

/// A stream that gives these bytes, three at a time, and counts those that are sent.
#[derive(Drop)]
struct Line<'a> {
    given: &'a [u8],
    sent: usize,
}

impl Read for Line<'_> {
    fn read(&mut self, buf: &mut [u8]) -> io::Result<usize> {
        let most = buf.len().min(3);
        self.given.read(&mut buf[..most])
    }
}

impl Write for Line<'_> {
    fn write(&mut self, buf: &[u8]) -> io::Result<usize> {
        self.sent = self.sent.saturating_add(buf.len());
        Ok(buf.len())
    }

    fn flush(&mut self) -> io::Result<()> {
        Ok(())
    }
}

/// The frame of client 7's transaction of this session and number.
fn frame(alloc: Global, session: u32, number: u64, op: Op) -> Result<Vec<u8>, Fault> {
    match KeyRing::read(alloc, KEYS.as_bytes(), Party::Client(7), 2) {
        Ok(keys) => frame_of(alloc, &keys, Sender { client: 7, session }, number, op),
        Err(_) => Err(Fault::OutOfMemory),
    }
}

/// Whether the frame has these bytes, and then two tags that begin with these.
fn is_frame(frame: &[u8], front: &[u8], tags: &[[u8; 4]; 2]) -> bool {
    let Some(rest) = frame.strip_prefix(front) else {
        return false;
    };
    rest.len() == 64 && rest.starts_with(&tags[0]) && rest.get(32..36) == Some(tags[1].as_slice())
}

#[test]
fn close_has_a_tag_for_each(rt: HostRuntime) {
    let frame = frame(rt.alloc(), 0, 2, Op::Close);
    assert_same(
        &rt,
        &frame.map(|frame| is_frame(&frame, &CLOSE, &TAGS)),
        &Ok(true),
    );
}

#[test]
fn later_session_stands_in_the_frame(rt: HostRuntime) -> Result<(), Fail> {
    let op = Op::Bytes(Data::from_slice(rt.alloc(), b"b")?);
    let frame = frame(rt.alloc(), 1, 1, op);
    assert_same(
        &rt,
        &frame.map(|frame| is_frame(&frame, &LATER, &TAGS_OF_LATER)),
        &Ok(true),
    );
    Ok(())
}

#[test]
fn number_behind_the_last_is_refused(rt: HostRuntime) {
    let last = frame(rt.alloc(), 0, 1 << 48, Op::Close);
    let behind = frame(rt.alloc(), 0, (1 << 48) + 1, Op::Close);
    assert!(rt; last.is_ok());
    assert_same(&rt, &behind.err(), &Some(Fault::BadSpelling));
}

/// What is answered to five bytes over a stream that gives these, and how many were sent.
fn answer_of(alloc: Global, given: &[u8]) -> (Result<Reply, ClientFault>, usize) {
    let mut line = Line { given, sent: 0 };
    let answer = Connection::new(alloc, &mut line).ask(b"frame");
    (answer, line.sent)
}

#[test]
fn reply_is_found_among_frames(rt: HostRuntime) {
    let (answer, sent) = answer_of(
        rt.alloc(),
        &[0, 0, 0, 1, 0x13, 0, 0, 0, 3, 0x20, 13, 3, 0, 0],
    );
    assert_same(&rt, &answer.ok(), &Some(Reply { code: 13, inner: 3 }));
    assert_same(&rt, &sent, &5);
}

#[test]
fn stream_ends_before_the_reply(rt: HostRuntime) {
    let (answer, _) = answer_of(rt.alloc(), &[0, 0, 0, 3, 0x20, 0]);
    assert!(rt; matches!(&answer, Err(ClientFault::Ended)));
}

#[test]
fn stream_of_no_frames(rt: HostRuntime) {
    let (answer, _) = answer_of(rt.alloc(), &[255; 8]);
    assert!(rt; matches!(&answer, Err(ClientFault::Frame(Fault::TooLong))));
}

#[test]
fn lines_of_the_list(rt: HostRuntime) {
    for (line, session, number) in [
        ("12 7 1 68656c6c6f", 0, 1),
        ("13 7 2 close", 0, 2),
        ("14 7.1 1 -", 1, 1),
        ("15 7.4294967295 3 61", 4_294_967_295, 3),
    ] {
        let sender = Sender { client: 7, session };
        assert_eq!(rt; item_of(line), Some((sender, number)), "at {line:?}");
    }
    for line in [
        "",
        "12",
        "12 7",
        "12 -7 1 61",
        "12 70000 1 61",
        "12 7.0 1 61",
        "12 7. 1 61",
        "12 .1 1 61",
        "12 7.1.1 1 61",
        "12 7.4294967296 1 61",
    ] {
        assert_eq!(rt; item_of(line), None, "at {line:?}");
    }
}
