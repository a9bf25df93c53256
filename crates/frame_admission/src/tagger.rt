//! Who makes the tags of own messages.

ghost use Rattle.std.specs.Prelude.{◌≡◌, length, IfOk};
ghost use Rattle.authenticators.specs.Ring.{tags_of};

use authenticators::{KeyRing, tag_all};
use std::alloc::{AllocError, Global};

/// Makes the tags of an own message, which are independent of one another: one for each validator, over one body.
pub trait Tagger {
    /// The tags of a body that the ring's party sends, for each validator in turn.
    fn tags(&self, alloc: Global, ring: &KeyRing, body: &[u8]) -> Result<Vec<[u8; 32]>, AllocError>
        ensures tags { IfOk result (λ tags. tags.items ≡ tags_of ring.now body.now) }
        ensures count { IfOk result (λ tags. length tags.items ≡ ring.now.count) };
}

/// Makes one tag after the other.
#[derive(Clone, Copy, Debug)]
pub struct InTurn;

impl Tagger for InTurn {
    fn tags(
        &self,
        alloc: Global,
        ring: &KeyRing,
        body: &[u8],
    ) -> Result<Vec<[u8; 32]>, AllocError> {
        tag_all(alloc, ring, body)
    }
}
