//! Validator 3 of four of power 1. The key of what validator S sends to it is 32 times the byte 0xSS, that of what client C
//! sends 32 times the byte 0xcC, and that of what it sends to the others 32 times 0x44.

ghost use Rattle.std.specs.Prelude.{◌≡◌, [], false, length};
ghost use Rattle.protocol.specs.Tags.{Validator};
ghost use Rattle.protocol.specs.State.{Node as ProtocolNode};
ghost use Rattle.vote_journal.specs.Layout.{IsWhole};
ghost use Rattle.node_core.specs.Core.{Stands};

mod bells;
mod clients;
mod edges;
mod failing;
mod frame_turns;
mod frames;
mod kept_frames;
mod running;

use crate::same::assert_same;
use authenticators::{KeyRing, Party};
use node_core::{Config, NodeCore};
use powers::Powers;
use std::alloc::Global;
use std::process::Abort;
use vote_journal::{Journal, MemoryStore};

const KEYS: &[u8] = b"v0 v3 0000000000000000000000000000000000000000000000000000000000000000
v1 v3 1111111111111111111111111111111111111111111111111111111111111111
v2 v3 2222222222222222222222222222222222222222222222222222222222222222
v3 v3 3333333333333333333333333333333333333333333333333333333333333333
v3 v0 4444444444444444444444444444444444444444444444444444444444444444
v3 v1 4444444444444444444444444444444444444444444444444444444444444444
v3 v2 4444444444444444444444444444444444444444444444444444444444444444
c0 v3 c0c0c0c0c0c0c0c0c0c0c0c0c0c0c0c0c0c0c0c0c0c0c0c0c0c0c0c0c0c0c0c0
c1 v3 c1c1c1c1c1c1c1c1c1c1c1c1c1c1c1c1c1c1c1c1c1c1c1c1c1c1c1c1c1c1c1c1
c2 v3 c2c2c2c2c2c2c2c2c2c2c2c2c2c2c2c2c2c2c2c2c2c2c2c2c2c2c2c2c2c2c2c2
c3 v3 c3c3c3c3c3c3c3c3c3c3c3c3c3c3c3c3c3c3c3c3c3c3c3c3c3c3c3c3c3c3c3c3
c4 v3 c4c4c4c4c4c4c4c4c4c4c4c4c4c4c4c4c4c4c4c4c4c4c4c4c4c4c4c4c4c4c4c4
c5 v3 c5c5c5c5c5c5c5c5c5c5c5c5c5c5c5c5c5c5c5c5c5c5c5c5c5c5c5c5c5c5c5c5
c6 v3 c6c6c6c6c6c6c6c6c6c6c6c6c6c6c6c6c6c6c6c6c6c6c6c6c6c6c6c6c6c6c6c6
c7 v3 c7c7c7c7c7c7c7c7c7c7c7c7c7c7c7c7c7c7c7c7c7c7c7c7c7c7c7c7c7c7c7c7
";

/// Validator 3's ring.
fn ring_of(rt: &impl Abort, alloc: Global) -> KeyRing
    ensures { (result.me ≡ Validator 3) × (result.count ≡ 4) }
{
    let ring = KeyRing::read(alloc, KEYS, Party::Validator(3), 4).expect(rt, "the keys are read");
    assert_ring(rt, &ring);
    ring
}

/// The ring is validator 3's, of four.
fn assert_ring(rt: &impl Abort, ring: &KeyRing)
    ensures { (ring.now.me ≡ Validator 3) × (ring.now.count ≡ 4) }
{
    assert_eq!(rt; ring.me(), Party::Validator(3));
    assert_eq!(rt; ring.count(), 4);
}

/// Four validators of power 1.
fn powers_of(rt: &impl Abort, alloc: Global) -> Powers
    ensures { length result ≡ 4 }
{
    let each = vec![in alloc; 1, 1, 1, 1].expect(rt, "no memory");
    let powers = Powers::new(each).expect(rt, "the powers are admitted");
    assert_eq!(rt; powers.count(), 4);
    powers
}

/// Its journal without records, on a store in memory whose call of this number fails.
fn journal_of(rt: &impl Abort, alloc: Global, powers: &Powers, failing: u64) -> Journal<MemoryStore>
    ensures state { (result.me ≡ 3) × (result.failed ≡ false) }
    ensures empty { IsWhole powers.now 3 result.store.bytes.items [] }
{
    let store = MemoryStore::new(Vec::new(alloc), failing, 0);
    let Ok(opened) = Journal::open(alloc, store, 3, powers) else {
        panic!(rt; "the store opens");
    };
    let Ok(journal) = opened.without_records() else {
        panic!(rt; "it has no records");
    };
    journal
}

/// It has not begun.
fn core_of(rt: &impl Abort, alloc: Global, failing: u64) -> NodeCore<MemoryStore>
    ensures { (n : ProtocolNode) × Stands n result }
{
    let powers = powers_of(rt, alloc);
    let ring = ring_of(rt, alloc);
    let journal = journal_of(rt, alloc, &powers, failing);
    NodeCore::new(alloc, Config { me: 3, powers }, ring, journal)
}
