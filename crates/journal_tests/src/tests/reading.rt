//! Journals that are looked at, in pieces of any length.

use super::journals::{MARKED, PREVOTE, decided, joined, value};
use super::{assert_bytes, assert_same};
use journal_reader::{Found, JournalReader};
use printed_lines::{End, EndLine, ItemLine, Json, RecordLine};
use std::alloc::{AllocError, Global};
use std::fmt::Write;
use std::process::Abort;
use transactions::value_id;
use vote_journal::JournalFault;

/// What was told of a journal: its lines, each with a line feed, the number of a fault, or 0, and how many bytes are left where
/// there was none.
#[derive(Debug, PartialEq, Eq, Drop)]
struct Told {
    lines: String,
    left: usize,
    fault: u8,
}

/// Adds the line of an entry.
fn put_line(alloc: Global, lines: &mut String, found: &Found) -> Result<(), AllocError> {
    let line = RecordLine::of(alloc, found)?;
    writeln!(lines, "{line}")
}

/// Tells what was fed, as far as it goes.
fn tell_fed(alloc: Global, reader: &mut JournalReader, told: &mut Told) -> Result<(), AllocError> {
    for _ in 0..10 {
        match reader.next_entry(alloc) {
            Ok(Some(found)) => put_line(alloc, &mut told.lines, &found)?,
            Ok(None) => break,
            Err(fault) => {
                told.fault = fault as u8;
                break;
            }
        }
    }
    told.left = if told.fault == 0 { reader.left() } else { 0 };
    Ok(())
}

/// Tells a journal that is fed in pieces of this length.
fn tell_pieces<R: Abort + AllocGlobal>(
    rt: &R,
    reader: &mut JournalReader,
    told: &mut Told,
    bytes: &[u8],
    len: usize,
) {
    let mut has_begun = false;
    for piece in bytes.chunks(len.max(1)) {
        reader.feed(piece).expect(rt, "the piece has room");
        has_begun = has_begun || reader.read_header().expect(rt, "it is a header");
        if has_begun && told.fault == 0 {
            tell_fed(rt.alloc(), reader, told).expect(rt, "the lines have room");
        }
    }
}

/// What is told of a journal that is read in pieces of this length.
fn told_in<R: Abort + AllocGlobal>(rt: &R, bytes: &[u8], len: usize) -> Told {
    let mut reader = JournalReader::new(rt.alloc());
    let mut told = Told {
        lines: String::new(rt.alloc()),
        left: 0,
        fault: 0,
    };
    tell_pieces(rt, &mut reader, &mut told, bytes, len);
    told
}

/// The same for pieces of one byte, of seven, and of all.
fn told_of<R: Abort + AllocGlobal>(rt: &R, bytes: &[u8]) -> Told {
    let whole = told_in(rt, bytes, bytes.len());
    assert_same(rt, &told_in(rt, bytes, 1), &whole);
    assert_same(rt, &told_in(rt, bytes, 7), &whole);
    whole
}

/// The header, the mark, and these behind it.
fn behind_mark<R: Abort + AllocGlobal>(rt: &R, parts: &[&[u8]]) -> Vec<u8> {
    joined(rt, &[&MARKED, &joined(rt, parts)])
}

/// The digest of the value as digits.
fn digits<R: Abort + AllocGlobal>(rt: &R) -> String {
    let id = value_id(rt.alloc(), &value(rt, 1)).expect(rt, "the value has an id");
    let mut text = String::new(rt.alloc());
    for byte in id {
        write!(text, "{byte:02x}").expect(rt, "the digits have room");
    }
    text
}

/// What was told is these lines, with so many bytes left, and no fault.
fn assert_told<R: Abort + AllocGlobal>(rt: &R, told: &Told, lines: &str, left: usize) {
    assert_bytes(rt, told.lines.as_bytes(), lines.as_bytes());
    assert_same(rt, &told.left, &left);
    assert_same(rt, &told.fault, &0);
}

#[test]
fn prevote_for_nil(rt: HostRuntime) {
    let told = told_of(&rt, &behind_mark(&rt, &[&PREVOTE]));
    assert_told(&rt, &told, "4 9 mark\n13 21 0 0 prevote nil\n", 0);
}

/// The lines of a journal that decided the value with these digits.
fn lines_of_a_height<R: Abort + AllocGlobal>(rt: &R, id: &str) -> String {
    format!(in rt.alloc();
        "4 9 mark\n13 53 0 0 prevote {id}\n66 199 0 0 precommit {id} items 1\n265 592 0 0 decide {id} items 1 by 0,1,3\n"
    ).expect(rt, "the lines have room")
}

#[test]
fn a_height(rt: HostRuntime) {
    let wanted = lines_of_a_height(&rt, &digits(&rt));
    let told = told_of(&rt, &decided(&rt));
    assert_told(&rt, &told, &wanted, 0);
}

#[test]
fn torn_within_a_decision(rt: HostRuntime) {
    let whole = decided(&rt);
    let told = told_of(&rt, whole.get(..300).unwrap_or(&[]));
    assert_same(&rt, &told.left, &35);
    assert_same(&rt, &told.fault, &0);
}

#[test]
fn a_record_of_another_validator(rt: HostRuntime) {
    let whole = decided(&rt);
    let mixed = behind_mark(&rt, &[&PREVOTE, whole.get(13..).unwrap_or(&[])]);
    let told = told_of(&rt, &mixed);
    assert_bytes(
        &rt,
        told.lines.as_bytes(),
        b"4 9 mark\n13 21 0 0 prevote nil\n",
    );
    assert_same(&rt, &told.fault, &3);
}

#[test]
fn another_header(rt: HostRuntime) {
    let mut reader = JournalReader::new(rt.alloc());
    reader.feed(b"TMJ2").expect(&rt, "the header has room");
    assert!(rt; reader.read_header() == Err(JournalFault::BadRecord));
    assert_same(&rt, &reader.offset(), &0);
}

/// The object of the second record that the reader was fed.
fn object_of_the_second<R: Abort + AllocGlobal>(rt: &R, reader: &mut JournalReader) -> String {
    let _mark = reader.next_entry(rt.alloc()).expect(rt, "it is a record");
    let found = reader.next_entry(rt.alloc()).expect(rt, "it is a record");
    let found = found.expect(rt, "there is a vote");
    let line = RecordLine::of(rt.alloc(), &found).expect(rt, "the line has room");
    format!(in rt.alloc(); "{}", Json(line)).expect(rt, "the object has room")
}

#[test]
fn objects(rt: HostRuntime) {
    let mut reader = JournalReader::new(rt.alloc());
    reader
        .feed(&behind_mark(&rt, &[&PREVOTE]))
        .expect(&rt, "the journal has room");
    let has_begun = reader.read_header().expect(&rt, "it is a header");
    assert_same(&rt, &has_begun, &true);
    assert_bytes(
        &rt,
        object_of_the_second(&rt, &mut reader).as_bytes(),
        br#"{"offset":13,"bytes":21,"height":0,"round":0,"step":"prevote","content":null}"#,
    );
}

/// The end of a journal is told so.
fn assert_end<R: Abort + AllocGlobal>(rt: &R, end: End, is_json: bool, wanted: &[u8]) {
    let line = EndLine {
        offset: 34,
        end,
        is_json,
    };
    let text = format!(in rt.alloc(); "{line}").expect(rt, "the line has room");
    assert_bytes(rt, text.as_bytes(), wanted);
}

#[test]
fn ends(rt: HostRuntime) {
    assert_end(&rt, End::Torn(5), false, b"34 5 torn");
    assert_end(
        &rt,
        End::Torn(5),
        true,
        br#"{"offset":34,"bytes":5,"step":"torn"}"#,
    );
    assert_end(&rt, End::Bad, true, br#"{"offset":34,"step":"bad"}"#);
}

#[test]
fn item_of_a_transaction(rt: HostRuntime) {
    let value = value(&rt, 1);
    let tx = value
        .txs
        .as_slice()
        .first()
        .expect(&rt, "there is a transaction");
    let line = format!(in rt.alloc(); "{}", ItemLine::of_tx(5, tx));
    assert_bytes(
        &rt,
        line.expect(&rt, "the line has room").as_bytes(),
        b"5 7 1 61",
    );
}
