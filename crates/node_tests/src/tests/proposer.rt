//! Validator 0 of four of equal power proposes first.

use super::{assert_same, four_powers, journal_of, ring_of};
use node_core::{Config, NodeCore};
use protocol::Refusal;
use std::process::Abort;
use vote_journal::MemoryStore;

const KEYS: &[u8] = b"v0 v0 0000000000000000000000000000000000000000000000000000000000000000
v1 v0 1111111111111111111111111111111111111111111111111111111111111111
v2 v0 2222222222222222222222222222222222222222222222222222222222222222
v3 v0 3333333333333333333333333333333333333333333333333333333333333333
v0 v1 4444444444444444444444444444444444444444444444444444444444444444
v0 v2 4444444444444444444444444444444444444444444444444444444444444444
v0 v3 4444444444444444444444444444444444444444444444444444444444444444
";

/// The body of its proposal of no transactions at height 0 and round 0, without a valid round.
const PROPOSAL: [u8; 21] = [
    0x10, 0, 0, 0, 0, 0, 0, 0, 0, 0, 0, 0, 0, 0, 0, 0, 0, 0, 0, 0, 0,
];

/// Its proposal is saved and released; the sync of its prevote fails, so it halts and doesn't say it.
fn halts_at_its_prevote(rt: &impl Abort, core: &mut NodeCore<MemoryStore>) {
    assert_same(rt, &core.settle(), &Err(Refusal::JournalFailed));
    let frames = core.outgoing();
    assert_eq!(rt; frames.len(), 1);
    assert!(rt; frames[0].len() > 4 && frames[0][4..].starts_with(&PROPOSAL));
    assert!(rt; core.has_halted());
    assert_same(rt, &core.settle(), &Err(Refusal::Halted));
    assert_same(rt, &core.outgoing().len(), &0);
}

/// The store's third sync fails: the first is the opening's, and the second the proposal's.
#[test]
fn third_sync_fails(rt: HostRuntime) {
    let powers = four_powers(&rt, rt.alloc());
    let ring = ring_of(&rt, rt.alloc(), KEYS, 0, 4);
    let journal = journal_of(&rt, rt.alloc(), 0, &powers, 7, 0);
    let mut core = NodeCore::new(rt.alloc(), Config { me: 0, powers }, ring, journal);
    halts_at_its_prevote(&rt, &mut core);
}
