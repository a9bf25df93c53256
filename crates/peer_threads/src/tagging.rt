//! Tags of long messages are made side by side.

ghost use Rattle.std.specs.Prelude.{◌≡◌, ◌<◌, ◌∷◌, ℕ, List, IfOk, drop, slice_index_or};
ghost use Rattle.authenticators.specs.Ring.{tags_of};

use authenticators::{KeyRing, tag_all};
use frame_admission::Tagger;
use std::alloc::{AllocError, Global};
use std::thread;
use std::thread::Threads;

/// From how many bytes on a body's tags are made in several threads: below that one thread has made them before another has begun.
const LONG_BODY_BYTES: usize = 16_384;

/// Makes the tags of a long body in as many threads as there are tags, and those of a short one in turn.
#[derive(Drop)]
pub(crate) struct SideBySide<'a, R: Threads> {
    rt: &'a R,
}

impl<'a, R: Threads> SideBySide<'a, R> {
    pub(crate) fn new(rt: &'a R) -> SideBySide<'a, R> {
        SideBySide { rt }
    }
}

impl<R: Threads> Tagger for SideBySide<'_, R> {
    fn tags(
        &self,
        alloc: Global,
        ring: &KeyRing,
        body: &[u8],
    ) -> Result<Vec<[u8; 32]>, AllocError> {
        if body.len() < LONG_BODY_BYTES {
            return tag_all(alloc, ring, body);
        }
        // `count` ensures that there are as many keys as validators.
        let _ = ring.count();
        tags_from(self.rt, alloc, ring, 0, body)
    }
}

/// The tags of a body for this validator and all behind it, each made in a thread of its own where one can be made.
fn tags_from<R: Threads>(
    rt: &R,
    alloc: Global,
    ring: &KeyRing,
    from: usize,
    body: &[u8],
) -> Result<Vec<[u8; 32]>, AllocError>
    ensures { IfOk result (λ tags. tags.items ≡ drop from (tags_of ring.now body.now)) }
{
    if from >= ring.count() as usize {
        return Ok(Vec::new(alloc));
    }
    let next = from + 1;
    let (first, rest) = thread::join(
        rt,
        || -> [u8; 32]
            requires { from < ring.now.count }
            ensures { (d : List ℕ) → slice_index_or (tags_of ring.entry.now body.entry.now) from d ≡ result }
        { tag_for(ring, from, body) },
        || -> Result<Vec<[u8; 32]>, AllocError>
            ensures { IfOk result (λ tags. tags.items ≡ drop next (tags_of ring.entry.now body.entry.now)) }
        { tags_from(rt, alloc, ring, next, body) },
    );
    in_front(alloc, first, rest)
}

/// A tag and those behind it.
fn in_front(
    alloc: Global,
    first: [u8; 32],
    rest: Result<Vec<[u8; 32]>, AllocError>,
) -> Result<Vec<[u8; 32]>, AllocError>
    ensures { (behind : List (List ℕ)) → IfOk rest (λ tags. tags.items ≡ behind) → IfOk result (λ tags. tags.items ≡ first ∷ behind) }
{
    let mut behind = rest?;
    let mut tags = Vec::with_capacity(alloc, 1 + behind.len())?;
    tags.push(first)?;
    tags.append(&mut behind)?;
    Ok(tags)
}

/// The tag of a body for one validator.
fn tag_for(ring: &KeyRing, place: usize, body: &[u8]) -> [u8; 32]
    requires { place < ring.now.count }
    ensures { (d : List ℕ) → slice_index_or (tags_of ring.now body.now) place d ≡ result }
{
    // `count` ensures that there is a key for each validator.
    let _ = ring.count();
    match ring.outgoing(place as u16) {
        Some(key) => key.tag(body),
        None => unreachable!(),
    }
}
