//! Tags, with the values of RFC 4231 (test cases 1 to 4, 6 and 7).

use authenticators::{Key, check, hmac, is_right};
use hex::FromHex;
use std::alloc::{AllocError, Global};
use std::process::Abort;

/// Under this key the text has this tag, which is taken for it.
fn assert_tag(rt: &impl Abort, key: &[u8], text: &[u8], digits: &str) {
    let tag = hmac(key, text);
    assert!(rt;
        <[u8; 32] as FromHex>::from_hex(digits) == Ok(tag),
        "{digits}"
    );
    assert!(rt; check(key, text, &tag), "{digits}");
}

/// The key of test case 4.
const COUNTED: [u8; 25] = [
    1, 2, 3, 4, 5, 6, 7, 8, 9, 10, 11, 12, 13, 14, 15, 16, 17, 18, 19, 20, 21, 22, 23, 24, 25,
];

#[test]
fn tags_of_the_standard(rt: HostRuntime) {
    assert_tag(
        &rt,
        &[0x0b; 20],
        b"Hi There",
        "b0344c61d8db38535ca8afceaf0bf12b881dc200c9833da726e9376c2e32cff7",
    );
    assert_tag(
        &rt,
        b"Jefe",
        b"what do ya want for nothing?",
        "5bdcc146bf60754e6a042426089575c75a003f089d2739839dec58b964ec3843",
    );
    assert_tag(
        &rt,
        &[0xaa; 20],
        &[0xdd; 50],
        "773ea91e36800e46854db8ebd09181a72959098b3ef8c122d9635514ced565fe",
    );
    assert_tag(
        &rt,
        &COUNTED,
        &[0xcd; 50],
        "82558a389a443c0ea4cc819899f2083a85f0faa3e578f8077a2e3ff46729665b",
    );
}

#[test]
fn tags_under_long_keys(rt: HostRuntime) {
    assert_tag(
        &rt,
        &[0xaa; 131],
        b"Test Using Larger Than Block-Size Key - Hash Key First",
        "60e431591ee0b67f0d8a26aacbf5b77f8e0bc6213728c5140546040f0ee37f54",
    );
    assert_tag(
        &rt,
        &[0xaa; 131],
        b"This is a test using a larger than block-size key and a larger than block-size data. The key needs to be hashed before being used by the HMAC algorithm.",
        "9b09ffa71b942fcb27635fbcd5b0e944bfdc63644f0713938a7f51535c3a35e2",
    );
}

// The values here are those of Python's module `hmac`.
#[test]
fn keys_about_one_block(rt: HostRuntime) {
    assert_tag(
        &rt,
        &[0xaa; 64],
        b"Hi There",
        "ebef34e13d0a0fe04593d043bc7a865106db0604211d404c18206d862e5d7852",
    );
    assert_tag(
        &rt,
        &[0xaa; 65],
        b"Hi There",
        "00af6c42340b99e2e1d9a1cdf1547be431fe2e9bab3215c68d013ba858891927",
    );
    assert_tag(
        &rt,
        b"",
        b"",
        "b613679a0814d9ec772f95d778c35fc5ff1697c493715653c6c712144292c5ad",
    );
}

/// The text of test case 2, whose key is `Jefe`.
const QUESTION: &[u8; 28] = b"what do ya want for nothing?";

/// Its tag.
const ANSWER: [u8; 32] = [
    0x5b, 0xdc, 0xc1, 0x46, 0xbf, 0x60, 0x75, 0x4e, 0x6a, 0x04, 0x24, 0x26, 0x08, 0x95, 0x75, 0xc7,
    0x5a, 0x00, 0x3f, 0x08, 0x9d, 0x27, 0x39, 0x83, 0x9d, 0xec, 0x58, 0xb9, 0x64, 0xec, 0x38, 0x43,
];

/// Whether the tag of the question is taken with this byte at this place.
fn is_taken_with(place: usize, byte: u8) -> bool {
    let mut tag = ANSWER;
    if let Some(at) = tag.get_mut(place) {
        *at = byte;
    }
    check(b"Jefe", QUESTION, &tag)
}

#[test]
fn other_bytes_are_no_tag(rt: HostRuntime) {
    assert!(rt; is_taken_with(31, 0x43));
    assert!(rt; !is_taken_with(31, 0x42));
    assert!(rt; !is_taken_with(0, 0xdb));
    assert!(rt; !check(b"Jefe", QUESTION, &ANSWER[..31]));
    assert!(rt; !check(b"Jefe", QUESTION, b""));
}

#[test]
fn tags_of_other_texts_and_keys(rt: HostRuntime) {
    assert!(rt; !check(b"Jefe", b"what do ya want for nothing", &ANSWER));
    assert!(rt; !check(b"jefe", QUESTION, &ANSWER));
}

/// Whether the second of these tags alone is right, and for the second of two validators alone.
fn second_is_right(key: &Key, wrong: [u8; 32], right: [u8; 32]) -> bool {
    is_right(2, key, 1, b"body", &[wrong, right])
        && !is_right(2, key, 0, b"body", &[wrong, right])
        && !is_right(2, key, 1, b"body", &[right, wrong])
        && !is_right(3, key, 1, b"body", &[wrong, right])
        && !is_right(1, key, 1, b"body", &[wrong, right])
        && !is_right(2, key, 2, b"body", &[wrong, right])
        && !is_right(2, key, 1, b"body", &[])
}

#[test]
fn one_tag_for_each_validator(rt: HostRuntime) {
    let wrong = hmac(&[1; 32], b"body");
    let right = hmac(&[2; 32], b"body");
    assert!(rt; second_is_right(&Key::new([2; 32]), wrong, right));
}

/// The key `Jefe`, with the zeros behind it that change no tag.
fn jefe() -> [u8; 32] {
    let mut bytes = [0; 32];
    bytes[..4].copy_from_slice(b"Jefe");
    bytes
}

/// Whether the key's debug text shows none of its bytes.
fn is_hidden(alloc: Global, key: &Key) -> Result<bool, AllocError> {
    Ok(format!(in alloc; "{key:?}")?.as_str() == "Key { .. }")
}

#[test]
fn key_made_ready(rt: HostRuntime) {
    let key = Key::new(jefe());
    assert!(rt; key.tag(QUESTION) == ANSWER);
    assert!(rt; *key.bytes() == jefe());
    assert!(rt; is_hidden(rt.alloc(), &key) == Ok(true));
}
