//! A key that two parties share, made ready for tags.

ghost use Rattle.std.specs.Prelude.{◌≡◌};
ghost use Rattle.authenticators.specs.Tags.{hmac};

use crate::tagging::Pads;
use std::fmt;
use std::marker::Model;

/// The key of what one party sends to another, made ready for tags.
///
/// HMAC begins each of its two digests with a block that the key alone makes. Both blocks are hashed when the key is made,
/// and not for each tag (RFC 2104, section 4), which halves the work for a short text. Clauses see a key as its 32 bytes.
/// Its debug text shows none of them.
#[derive(Drop)]
pub struct Key {
    bytes: [u8; 32],
    pads: Pads,
}

impl Model for Key {
    ghost use Rattle.std.specs.Prelude.{ℕ, List};
    ghost use Rattle.authenticators.specs.Pads.{IsPadded};

    ghost Value = { List ℕ };

    ghost view = { λ a. a.bytes };

    ghost invariant = { λ a. IsPadded a.pads a.bytes };
}

impl Key {
    /// A key of these bytes.
    pub fn new(bytes: [u8; 32]) -> Key
        ensures { result ≡ bytes }
    {
        Key {
            bytes,
            pads: Pads::new(&bytes),
        }
    }

    /// Its bytes.
    pub fn bytes(&self) -> &[u8; 32]
        ensures { result.now ≡ self.now }
    {
        &self.bytes
    }

    /// The tag of a text under the key: that of [`crate::hmac`].
    ///
    /// It takes no memory.
    pub fn tag(&self, text: &[u8]) -> [u8; 32]
        ensures { result ≡ hmac self.now text.now }
    {
        self.pads.tag(text)
    }
}

impl fmt::Debug for Key {
    fn fmt<W: fmt::Write>(&self, f: &mut fmt::Formatter<W>) -> fmt::Result {
        f.write_str("Key { .. }")
    }
}
