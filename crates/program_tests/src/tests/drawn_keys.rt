//! Keys that are drawn, and the key files of their parties.

use super::{assert_same, assert_text};
use authenticators::{Key, KeyRing, Party};
use key_making::{DrawFault, KeyTable};
use std::alloc::{AllocError, Global};
use std::process::Abort;

/// As many bytes as so many keys have: key number k has the byte k + 1 alone.
fn source_of(alloc: Global, keys: u8) -> Result<Vec<u8>, AllocError> {
    let mut bytes = Vec::new(alloc);
    for key in 0..keys {
        for _ in 0..32 {
            bytes.push(key.wrapping_add(1))?;
        }
    }
    Ok(bytes)
}

/// The keys of two validators and three clients, for which all of ten keys' bytes are taken.
fn drawn(rt: &impl Abort, alloc: Global) -> KeyTable {
    let bytes = source_of(alloc, 10).expect(rt, "the bytes have room");
    let mut source = bytes.as_slice();
    let table = KeyTable::draw(alloc, &mut source, 2, 3).expect(rt, "there is a table");
    assert!(rt; source.is_empty());
    table
}

/// The key file of a party, if there is such a party.
fn file_if_any(
    alloc: Global,
    table: &KeyTable,
    party: Party,
) -> Result<Option<String>, AllocError> {
    let is_party = match party {
        Party::Validator(number) => number < table.validators(),
        Party::Client(number) => number < table.clients(),
    };
    if is_party {
        Ok(Some(table.file_of(alloc, party)?))
    } else {
        Ok(None)
    }
}

/// The key file of a party that there is.
fn file_of(rt: &impl Abort, alloc: Global, table: &KeyTable, party: Party) -> String {
    file_if_any(alloc, table, party)
        .expect(rt, "the file has room")
        .expect(rt, "there is the party")
}

/// Writes the line of a file, of which the last word stands for 32 times its two digits.
fn put_line(text: &mut String, line: &str) -> Result<(), AllocError> {
    if let Some((pair, digits)) = line.rsplit_once(' ') {
        text.push_str(pair)?;
        text.push(' ')?;
        for _ in 0..32 {
            text.push_str(digits)?;
        }
        text.push('\n')?;
    }
    Ok(())
}

/// The file of these lines.
fn file_with(alloc: Global, lines: &str) -> Result<String, AllocError> {
    let mut text = String::new(alloc);
    for line in lines.split('\n') {
        put_line(&mut text, line)?;
    }
    Ok(text)
}

/// The party's file is these lines, where a word of two digits stands for 32 times that byte.
fn assert_file(rt: &impl Abort, alloc: Global, table: &KeyTable, party: Party, lines: &str) {
    let found = file_of(rt, alloc, table, party);
    let wanted = file_with(alloc, lines).expect(rt, "the file has room");
    assert_text(rt, lines, &found, &wanted);
}

/// What a party sends to a validator, both hold the same key for, each by its own file.
fn assert_shared(rt: &impl Abort, alloc: Global, table: &KeyTable) {
    let parties = [
        Party::Validator(0),
        Party::Validator(1),
        Party::Client(0),
        Party::Client(2),
    ];
    for from in parties {
        for to in 0..2 {
            assert_pair(rt, alloc, table, from, to);
        }
    }
}

/// The keys that a party reads of its file.
fn ring_of(rt: &impl Abort, alloc: Global, table: &KeyTable, party: Party) -> KeyRing {
    let file = file_of(rt, alloc, table, party);
    KeyRing::read(alloc, file.as_bytes(), party, 2).expect(rt, "there is a ring")
}

/// The two hold the same key for what one sends to the other.
fn assert_pair(rt: &impl Abort, alloc: Global, table: &KeyTable, from: Party, to: u16) {
    let sender = ring_of(rt, alloc, table, from);
    let receiver = ring_of(rt, alloc, table, Party::Validator(to));
    assert!(rt;
        is_same(sender.outgoing(to), receiver.incoming(from)),
        "{from} v{to}"
    );
}

/// Whether both keys are there, and are the same.
fn is_same(one: Option<&Key>, other: Option<&Key>) -> bool {
    match (one, other) {
        (Some(one), Some(other)) => one.bytes() == other.bytes(),
        _ => false,
    }
}

#[test]
fn files_of_two_validators(rt: HostRuntime) {
    let alloc = rt.alloc();
    let table = drawn(&rt, alloc);
    for (party, lines) in [
        (
            Party::Validator(0),
            "v0 v0 01\nv1 v0 03\nv0 v1 02\nc0 v0 05\nc1 v0 07\nc2 v0 09",
        ),
        (
            Party::Validator(1),
            "v0 v1 02\nv1 v0 03\nv1 v1 04\nc0 v1 06\nc1 v1 08\nc2 v1 0a",
        ),
        (Party::Client(1), "c1 v0 07\nc1 v1 08"),
    ] {
        assert_file(&rt, alloc, &table, party, lines);
    }
}

#[test]
fn both_ends_hold_the_key(rt: HostRuntime) {
    let alloc = rt.alloc();
    assert_shared(&rt, alloc, &drawn(&rt, alloc));
}

/// Why no keys are drawn from these bytes, if none are.
fn fault_of(alloc: Global, mut source: &[u8]) -> Option<DrawFault> {
    KeyTable::draw(alloc, &mut source, 2, 3).err()
}

#[test]
fn keys_of_too_few_bytes(rt: HostRuntime) {
    let alloc = rt.alloc();
    let bytes = source_of(alloc, 10).expect(&rt, "the bytes have room");
    let few = &bytes[..bytes.len().saturating_sub(1)];
    assert_same(&rt, &fault_of(alloc, few), &Some(DrawFault::NoBytes));
}

#[test]
fn a_key_by_its_place(rt: HostRuntime) {
    let alloc = rt.alloc();
    let bytes = source_of(alloc, 10).expect(&rt, "the bytes have room");
    let mut source = bytes.as_slice();
    let table = KeyTable::draw(alloc, &mut source, 2, 3).expect(&rt, "there is a table");
    let key = *table.key(Party::Client(1), 0);
    assert!(rt; key == [7; 32]);
}
