//! HMAC-SHA-256 tags (RFC 2104, section 2, over FIPS 180-4, section 6.2).

ghost use Rattle.std.specs.Prelude.{◌≡◌, ℕ, List, ◌≤◌, length};
ghost use Rattle.std.specs.Str.{bytes_eq};
ghost use Rattle.sha2.specs.Hashers.{Holds256};
ghost use Rattle.authenticators.specs.Tags.{padded, hmac, is_right};
ghost use Rattle.authenticators.specs.Pads.{IsPadded};

use crate::Key;
use sha2::{Digest, Sha256};

/// The length of a block of SHA-256, in bytes: a longer key is hashed first.
const BLOCK: usize = 64;

/// The byte of the inner pad.
const INNER: u8 = 0x36;

/// The byte of the outer pad.
const OUTER: u8 = 0x5c;

/// The tag of a text under a key, each of any length.
///
/// It takes no memory.
pub fn hmac(key: &[u8], text: &[u8]) -> [u8; 32]
    ensures { result ≡ hmac key.now text.now }
{
    Pads::new(key).tag(text)
}

/// Whether these bytes are the tag of the text under the key: only the 32 right bytes are.
///
/// The comparison goes on behind a difference, so that its time doesn't tell where the bytes differ; no clause speaks
/// of time. It takes no memory.
pub fn check(key: &[u8], text: &[u8], tag: &[u8]) -> bool
    ensures { result ≡ bytes_eq tag.now (hmac key.now text.now) }
{
    are_same(tag, &hmac(key, text))
}

/// Whether there are as many tags as validators, and the tag for validator `me` is the right one under this key.
///
/// The tags for the others are under keys that `me` doesn't have. It takes no memory.
#[tactic(auto, using(crate::proofs::Blocks::no_tag_is_wrong), unfolding(crate::specs::Tags::is_right))]
pub fn is_right(count: u16, key: &Key, me: u16, text: &[u8], tags: &[[u8; 32]]) -> bool
    ensures { result ≡ is_right count key.now me text.now tags.now }
{
    if tags.len() != count as usize {
        return false;
    }
    match tags.get(me as usize) {
        Some(tag) => are_same(tag, &key.tag(text)),
        None => false,
    }
}

/// The hashers of HMAC's two digests, each after the block that the key makes.
#[derive(Drop)]
pub(crate) struct Pads {
    inner: Sha256,
    outer: Sha256,
}

impl Pads {
    /// Those of a key of any length.
    pub(crate) fn new(key: &[u8]) -> Pads
        ensures { IsPadded result key.now }
    {
        if key.len() > BLOCK {
            Pads::of(&Sha256::digest(key))
        } else {
            Pads::of(key)
        }
    }

    /// Those of a key of at most one block.
    fn of(key: &[u8]) -> Pads
        requires { length key.now ≤ 64 }
        ensures inner { Holds256 result.inner (padded key.now 54) }
        ensures outer { Holds256 result.outer (padded key.now 92) }
    {
        Pads {
            inner: Sha256::new_with_prefix(&padded(key, INNER)),
            outer: Sha256::new_with_prefix(&padded(key, OUTER)),
        }
    }

    /// The tag of a text under the key.
    #[tactic(auto, unfolding(crate::specs::Tags::hmac))]
    pub(crate) fn tag(&self, text: &[u8]) -> [u8; 32]
        ensures { (key : List ℕ) → IsPadded self.now key → result ≡ hmac key text.now }
    {
        let mut inner = copy_of(&self.inner);
        inner.update(text);
        let mut outer = copy_of(&self.outer);
        outer.update(&inner.finalize());
        outer.finalize()
    }
}

/// A hasher that holds the same.
fn copy_of(hasher: &Sha256) -> Sha256
    ensures { result ≡ hasher.now }
{
    match hasher.clone() {
        Ok(copy) => copy,
        Err(_) => unreachable!(),
    }
}

/// A block that begins with the key and ends in zeros, with each byte xor this one.
fn padded(key: &[u8], pad: u8) -> [u8; 64]
    requires { length key.now ≤ 64 }
    ensures { result ≡ padded key.now pad }
{
    let mut block = [pad; BLOCK];
    for (place, byte) in key.iter().enumerate() {
        block[place] = byte ^ pad;
    }
    block
}

/// Whether two texts are the same. All their bytes are compared, also behind a difference.
fn are_same(left: &[u8], right: &[u8]) -> bool
    ensures { result ≡ bytes_eq left.now right.now }
{
    if left.len() != right.len() {
        return false;
    }
    let mut difference = 0;
    for (one, other) in left.iter().zip(right) {
        difference |= one ^ other;
    }
    difference == 0
}
