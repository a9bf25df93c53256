//! Key files and the rings that they give.

use authenticators::{Key, KeyRing, KeysFault, Party, hmac, is_right, tag_all};
use std::alloc::{AllocError, Global};
use std::fmt::Display;
use std::process::Abort;
use std::test::Fail;

const ONES: &str = "1111111111111111111111111111111111111111111111111111111111111111";

const TWOS: &str = "2222222222222222222222222222222222222222222222222222222222222222";

/// Of the keys of the first of two validators, its own and that of what the other sends.
const TWO_LINES: &str = "v0 v0 K\nv1 v0 K\n";

/// The keys of the first of two validators.
const THREE_LINES: &str = "v0 v0 K\nv1 v0 K\nv0 v1 L\n";

/// The text with a key of ones for each `K`, and one of twos for each `L`.
fn with_keys(alloc: Global, text: &str) -> Result<String, AllocError> {
    let ones = text.replace(alloc, 'K', ONES)?;
    ones.replace(alloc, 'L', TWOS)
}

/// What a text gives to a party; `K` stands for a key of ones in it, and `L` for one of twos.
fn read(alloc: Global, text: &str, me: Party, validators: u16) -> Result<KeyRing, KeysFault> {
    let text = with_keys(alloc, text)?;
    KeyRing::read(alloc, text.as_bytes(), me, validators)
}

/// Why a text gives no ring to a party.
fn fault_of(alloc: Global, text: &str, me: Party, validators: u16) -> Option<KeysFault> {
    read(alloc, text, me, validators).err()
}

/// Why a text and one more behind it give no ring to the first of two validators.
fn fault_behind(alloc: Global, front: &str, text: &str) -> Option<KeysFault> {
    match format!(in alloc; "{front}{text}") {
        Ok(text) => fault_of(alloc, &text, Party::Validator(0), 2),
        Err(error) => Some(error.into()),
    }
}

/// Each of these texts behind the front gives this fault, or none, to the first of two validators.
fn assert_faults(
    rt: &impl Abort,
    alloc: Global,
    front: &str,
    texts: &[&str],
    fault: Option<KeysFault>,
) {
    for text in texts {
        assert_eq!(rt; fault_behind(alloc, front, text), fault, "at {text:?}");
    }
}

/// Whether these are the bytes of a key, all alike, or there is no key.
fn is_key(key: Option<&Key>, byte: Option<u8>) -> bool {
    match (key, byte) {
        (Some(key), Some(byte)) => *key.bytes() == [byte; 32],
        (None, None) => true,
        _ => false,
    }
}

/// What these parties send to the ring's has these keys, or none.
fn assert_incoming(rt: &impl Abort, ring: &KeyRing, wanted: &[(Party, Option<u8>)]) {
    for (from, byte) in wanted {
        assert!(rt; is_key(ring.incoming(*from), *byte), "from {from}");
    }
}

/// What the ring's party sends to these validators has these keys, or none.
fn assert_outgoing(rt: &impl Abort, ring: &KeyRing, wanted: &[(u16, Option<u8>)]) {
    for (to, byte) in wanted {
        assert!(rt; is_key(ring.outgoing(*to), *byte), "to {to}");
    }
}

/// The text gives a ring to this party, one of two validators or a client, with these keys.
fn assert_ring(
    rt: &impl Abort,
    alloc: Global,
    text: &str,
    me: Party,
    incoming: &[(Party, Option<u8>)],
    outgoing: &[(u16, Option<u8>)],
) -> Result<(), KeysFault> {
    let ring = read(alloc, text, me, 2)?;
    assert!(rt; ring.me() == me && ring.count() == 2);
    assert_incoming(rt, &ring, incoming);
    assert_outgoing(rt, &ring, outgoing);
    Ok(())
}

/// Whether this is shown as the text.
fn is_shown<T: Display>(alloc: Global, thing: &T, wanted: &str) -> Result<bool, AllocError> {
    Ok(thing.to_string(alloc)?.as_str() == wanted)
}

#[test]
fn parties_are_shown(rt: HostRuntime) {
    assert!(rt; is_shown(rt.alloc(), &Party::Validator(3), "v3") == Ok(true));
    assert!(rt; is_shown(rt.alloc(), &Party::Client(7), "c7") == Ok(true));
}

#[test]
fn faults_are_shown(rt: HostRuntime) {
    assert!(rt; is_shown(rt.alloc(), &KeysFault::Repeated, "a key comes twice") == Ok(true));
}

#[test]
fn faults_are_numbered(rt: HostRuntime) {
    assert!(rt; KeysFault::BadLine as u8 == 1);
    assert!(rt; KeysFault::Missing as u8 == 2);
    assert!(rt; KeysFault::Repeated as u8 == 3);
    assert!(rt; KeysFault::OutOfMemory as u8 == 4);
}

#[test]
fn ring_of_a_validator(rt: HostRuntime) -> Result<(), KeysFault> {
    assert_ring(
        &rt,
        rt.alloc(),
        "v0 v0 K\nv1 v0 L\nv0 v1 L\n",
        Party::Validator(0),
        &[
            (Party::Validator(0), Some(0x11)),
            (Party::Validator(1), Some(0x22)),
            (Party::Validator(2), None),
            (Party::Client(0), None),
            (Party::Client(1023), None),
            (Party::Client(1024), None),
        ],
        &[(0, Some(0x11)), (1, Some(0x22)), (2, None)],
    )
}

#[test]
fn known_clients(rt: HostRuntime) -> Result<(), KeysFault> {
    assert_ring(
        &rt,
        rt.alloc(),
        "c0 v0 L\nv0 v0 K\nv1 v0 K\nv0 v1 K\nc1023 v0 L",
        Party::Validator(0),
        &[
            (Party::Client(0), Some(0x22)),
            (Party::Client(1), None),
            (Party::Client(1023), Some(0x22)),
        ],
        &[],
    )
}

/// The keys of a client of two validators.
const OF_A_CLIENT: &str = "c7 v1 L\nc7 v0 K\n";

#[test]
fn ring_of_a_client(rt: HostRuntime) -> Result<(), KeysFault> {
    assert_ring(
        &rt,
        rt.alloc(),
        OF_A_CLIENT,
        Party::Client(7),
        &[(Party::Validator(0), None), (Party::Client(7), None)],
        &[(0, Some(0x11)), (1, Some(0x22))],
    )
}

#[test]
fn rings_of_other_clients(rt: HostRuntime) {
    let one_more = fault_of(rt.alloc(), OF_A_CLIENT, Party::Client(7), 3);
    assert!(rt; one_more == Some(KeysFault::Missing));
    let one_less = fault_of(rt.alloc(), OF_A_CLIENT, Party::Client(7), 1);
    assert!(rt; one_less == Some(KeysFault::BadLine));
    let another = fault_of(rt.alloc(), OF_A_CLIENT, Party::Client(8), 2);
    assert!(rt; another == Some(KeysFault::BadLine));
}

#[test]
fn missing_keys(rt: HostRuntime) {
    let texts = &["", TWO_LINES, "v0 v0 K\nv0 v1 K\n", "v1 v0 K\nv0 v1 K\n"];
    assert_faults(&rt, rt.alloc(), "", texts, Some(KeysFault::Missing));
}

#[test]
fn first_fault_is_told(rt: HostRuntime) {
    let repeated = &["v0 v0 K\nv0 v0 K\nwrong\n"];
    assert_faults(&rt, rt.alloc(), "", repeated, Some(KeysFault::Repeated));
    let wrong = &["v0 v0 K\nwrong\nv0 v0 K\n", "v0 v0 K\nv0 v0 K1\n"];
    assert_faults(&rt, rt.alloc(), "", wrong, Some(KeysFault::BadLine));
}

#[test]
fn lines_that_are_taken(rt: HostRuntime) {
    let lines = &["", "\n# a comment \t\r é\n\n#\n", "c7 v0 K", "c1023 v0 K\n"];
    assert_faults(&rt, rt.alloc(), THREE_LINES, lines, None);
}

#[test]
fn pairs_that_come_twice(rt: HostRuntime) {
    let lines = &["v0 v0 K", "v1 v0 K", "v0 v1 K", "c7 v0 K\nc7 v0 L\n"];
    assert_faults(
        &rt,
        rt.alloc(),
        THREE_LINES,
        lines,
        Some(KeysFault::Repeated),
    );
}

/// Lines of other forms.
const BAD_LINES: [&str; 28] = [
    "v1 v1 K",
    "v0  v1 K",
    "c7 v0  K",
    "c7 v1 K",
    "c7 c0 K",
    "v2 v0 K",
    "v0 v2 K",
    "c1024 v0 K",
    "c65536 v0 K",
    "c65543 v0 K",
    "c07 v0 K",
    "c00 v0 K",
    "c v0 K",
    "7 v0 K",
    "C7 v0 K",
    "c+7 v0 K",
    "c7 v0 K ",
    " c7 v0 K",
    "c7 v0 K\r",
    "c7\tv0 K",
    "c7 v0 K1",
    "c7 v0 K11",
    "c7 v0 K K",
    "c7 v0 K k",
    "c7 v0",
    " ",
    "\r\n",
    " # no comment",
];

/// Lines with keys of other forms.
const BAD_KEYS: [&str; 5] = [
    "c7 v0 ",
    "c7 v0 111111111111111111111111111111111111111111111111111111111111111",
    "c7 v0 11111111111111111111111111111111111111111111111111111111111111",
    "c7 v0 g111111111111111111111111111111111111111111111111111111111111111",
    "c7 v0 é11111111111111111111111111111111111111111111111111111111111111",
];

#[test]
fn lines_of_other_forms(rt: HostRuntime) {
    assert_faults(
        &rt,
        rt.alloc(),
        THREE_LINES,
        &BAD_LINES,
        Some(KeysFault::BadLine),
    );
}

#[test]
fn keys_of_other_forms(rt: HostRuntime) {
    assert_faults(
        &rt,
        rt.alloc(),
        THREE_LINES,
        &BAD_KEYS,
        Some(KeysFault::BadLine),
    );
}

/// Whether the line, in which the digits stand as they are, gives a client its one key, of these bytes.
fn gives_key(alloc: Global, line: &str, byte: u8) -> bool {
    match KeyRing::read(alloc, line.as_bytes(), Party::Client(7), 1) {
        Ok(ring) => is_key(ring.outgoing(0), Some(byte)),
        Err(_) => false,
    }
}

#[test]
fn digits_of_either_case(rt: HostRuntime) {
    let line = "c7 v0 aBAbabABaBAbabABaBAbabABaBAbabABaBAbabABaBAbabABaBAbabABaBAbabAB\n";
    assert!(rt; gives_key(rt.alloc(), line, 0xab));
}

/// Whether the second of two tags alone is right under the second key.
fn second_is_right(key: &Key, tags: &[[u8; 32]]) -> bool {
    is_right(2, key, 1, b"body", tags) && !is_right(2, key, 0, b"body", tags)
}

/// Whether these are the first validator's tags of a body, for both.
fn are_tags_of_body(tags: &[[u8; 32]]) -> bool {
    let wanted = [hmac(&[0x11; 32], b"body"), hmac(&[0x22; 32], b"body")];
    tags == wanted.as_slice() && second_is_right(&Key::new([0x22; 32]), tags)
}

/// Whether the keys of the first validator give its tags.
fn tags_are_made(alloc: Global) -> Result<bool, KeysFault> {
    let ring = read(alloc, THREE_LINES, Party::Validator(0), 2)?;
    let tags = tag_all(alloc, &ring, b"body")?;
    Ok(are_tags_of_body(&tags))
}

#[test]
fn tags_for_all(rt: HostRuntime) {
    assert!(rt; tags_are_made(rt.alloc()) == Ok(true));
}
