//! Validator 3 of four of power 1. The key of what validator S sends to it is 32 times the byte 0xSS, and that of what
//! client 7 sends 32 times the byte 0x77.

ghost use Rattle.std.specs.Prelude.{◌≡◌, [], false, length};
ghost use Rattle.protocol.specs.Tags.{Validator};
ghost use Rattle.protocol.specs.State.{Node as ProtocolNode};
ghost use Rattle.vote_journal.specs.Layout.{IsWhole};
ghost use Rattle.node_core.specs.Core.{Stands};

mod frames;
mod leaving;
mod sharing;
mod taking;
mod threads;

use crate::same::assert_same;
use authenticators::{KeyRing, Party};
use node_core::{Config, NodeCore};
use powers::Powers;
use std::alloc::Global;
use std::process::Abort;
use vote_journal::{Journal, MemoryStore};

/// What a call that only memory can fail is expected to find.
const MEMORY: &str = "memory is left";

const KEYS: &[u8] = b"v0 v3 0000000000000000000000000000000000000000000000000000000000000000
v1 v3 1111111111111111111111111111111111111111111111111111111111111111
v2 v3 2222222222222222222222222222222222222222222222222222222222222222
v3 v3 3333333333333333333333333333333333333333333333333333333333333333
v3 v0 4444444444444444444444444444444444444444444444444444444444444444
v3 v1 4444444444444444444444444444444444444444444444444444444444444444
v3 v2 4444444444444444444444444444444444444444444444444444444444444444
c7 v3 7777777777777777777777777777777777777777777777777777777777777777
";

/// Validator 3's ring.
fn ring_of(rt: &impl Abort, alloc: Global) -> KeyRing
    ensures { (result.me ≡ Validator 3) × (result.count ≡ 4) }
{
    let ring = KeyRing::read(alloc, KEYS, Party::Validator(3), 4).expect(rt, "they are keys");
    assert_ring(rt, &ring);
    ring
}

fn assert_ring(rt: &impl Abort, ring: &KeyRing)
    ensures { (ring.now.me ≡ Validator 3) × (ring.now.count ≡ 4) }
{
    assert_eq!(rt; ring.me(), Party::Validator(3));
    assert_eq!(rt; ring.count(), 4);
}

fn powers_of(rt: &impl Abort, alloc: Global) -> Powers
    ensures { length result ≡ 4 }
{
    let four = vec![in alloc; 1, 1, 1, 1].expect(rt, MEMORY);
    let powers = Powers::new(four).expect(rt, "they are powers");
    assert_same(rt, &powers.count(), &4);
    powers
}

/// Its journal without records, on a store in memory.
fn journal_of(rt: &impl Abort, alloc: Global, powers: &Powers) -> Journal<MemoryStore>
    ensures state { (result.me ≡ 3) × (result.failed ≡ false) }
    ensures empty { IsWhole powers.now 3 result.store.bytes.items [] }
{
    let store = MemoryStore::new(Vec::new(alloc), 0, 0);
    let Ok(opened) = Journal::open(alloc, store, 3, powers) else {
        panic!(rt; "the store opens");
    };
    let Ok(journal) = opened.without_records() else {
        panic!(rt; "it has no records");
    };
    journal
}

/// It has not begun.
fn core_of(rt: &impl Abort, alloc: Global) -> NodeCore<MemoryStore>
    ensures { (n : ProtocolNode) × Stands n result }
{
    let powers = powers_of(rt, alloc);
    let ring = ring_of(rt, alloc);
    let journal = journal_of(rt, alloc, &powers);
    NodeCore::new(alloc, Config { me: 3, powers }, ring, journal)
}
