//! A validator that comes back over the bytes of a store.

ghost use Rattle.std.specs.Prelude.{◌≡◌, ◌<◌, false, IfErr, length};
ghost use Rattle.node_core.specs.Opening.{IsRead};

use super::timeouts::due;
use super::{assert_same, four_powers, ring_of};
use node_core::{Config, NodeCore};
use powers::Powers;
use protocol::Step;
use std::alloc::{AllocFailed, Global};
use std::process::Abort;
use vote_journal::{Journal, MemoryStore, Opened};

/// Validator 2's ring among the four, whose keys only its own messages need.
const KEYS: &[u8] = b"v0 v2 0000000000000000000000000000000000000000000000000000000000000000
v1 v2 1111111111111111111111111111111111111111111111111111111111111111
v2 v2 2222222222222222222222222222222222222222222222222222222222222222
v3 v2 3333333333333333333333333333333333333333333333333333333333333333
v2 v0 4444444444444444444444444444444444444444444444444444444444444444
v2 v1 4444444444444444444444444444444444444444444444444444444444444444
v2 v3 4444444444444444444444444444444444444444444444444444444444444444
";

/// Validator 2's journal of one record: its prevote for nil at height 0 and round 0.
const NIL_PREVOTE: [u8; 34] = [
    0x54, 0x4d, 0x4a, 0x31, 0, 0, 0, 5, 4, 0, 0, 0, 2, 0, 0, 0, 0x11, 0x01, 0x11, 0, 0, 0, 0, 0, 0,
    0, 0, 0, 0, 0, 0, 0, 2, 0,
];

/// Validator 2's journal of one record: its proposal of the empty value at height 0 and round 0, saved while that round was its
/// own to propose in. Now it is validator 0's.
const OTHERS_ROUND: [u8; 30] = [
    0x54, 0x4d, 0x4a, 0x31, 0, 0, 0, 0x16, 0x01, 0x10, 0, 0, 0, 0, 0, 0, 0, 0, 0, 0, 0, 0, 0, 2, 0,
    0, 0, 0, 0, 0,
];

/// A node that came back, or what was opened, handed back.
type Comeback = Result<NodeCore<MemoryStore>, AllocFailed<Opened<MemoryStore>>>;

/// What validator `me` finds in these bytes.
fn opened_of(
    rt: &impl Abort,
    alloc: Global,
    me: u16,
    powers: &Powers,
    bytes: &[u8],
) -> Opened<MemoryStore>
    ensures state { (result.journal.me ≡ me) × (result.journal.failed ≡ false) }
    ensures read { IsRead powers.now me result.journal.store.bytes.items result.decisions.items result.own.items }
{
    let bytes = bytes.to_vec(alloc).expect(rt, "the bytes have room");
    let Ok(opened) = Journal::open(alloc, MemoryStore::new(bytes, 0, 0), me, powers) else {
        panic!(rt; "the store opens");
    };
    opened
}

/// Validator `me` comes back over what was opened.
fn come_back(
    rt: &impl Abort,
    alloc: Global,
    keys: &[u8],
    me: u16,
    powers: &Powers,
    opened: Opened<MemoryStore>,
) -> Comeback
    requires me { me < length powers.now }
    requires state { (opened.journal.me ≡ me) × (opened.journal.failed ≡ false) }
    requires read { IsRead powers.now me opened.journal.store.bytes.items opened.decisions.items opened.own.items }
    ensures back { IfErr result (λ e. e.value ≡ opened) }
{
    let ring = ring_of(rt, alloc, keys, me, powers.count());
    let powers = powers.copy(alloc).expect(rt, "the powers have room");
    NodeCore::open(alloc, Config { me, powers }, ring, opened)
}

/// Validator `me` of four of power 1 over these bytes. What a refusal hands back serves once more.
fn node_over(
    rt: &impl Abort,
    alloc: Global,
    keys: &[u8],
    me: u16,
    bytes: &[u8],
) -> NodeCore<MemoryStore>
    requires { me < 4 }
{
    let powers = four_powers(rt, alloc);
    let opened = opened_of(rt, alloc, me, &powers, bytes);
    let refused = match come_back(rt, alloc, keys, me, &powers, opened) {
        Ok(core) => return core,
        Err(refused) => refused,
    };
    let Ok(core) = come_back(rt, alloc, keys, me, &powers, refused.value) else {
        panic!(rt; "it comes back");
    };
    core
}

/// It prevotes as its timeout of proposals comes due.
fn prevotes_anew(rt: &impl Abort, core: &mut NodeCore<MemoryStore>) {
    assert_same(rt, &core.height(), &0);
    assert_same(rt, &core.settle(), &Ok(()));
    assert_same(rt, &core.outgoing().len(), &0);
    assert_same(rt, &core.fire_timeout(due(Step::Propose, 0, 0)), &Ok(()));
    assert_same(rt, &core.outgoing().len(), &1);
}

/// The record of a prevote was cut short: it was never sent, and is saved anew.
#[test]
fn a_cut_vote_is_said_anew(rt: HostRuntime) {
    let mut core = node_over(&rt, rt.alloc(), KEYS, 2, &NIL_PREVOTE[..18]);
    prevotes_anew(&rt, &mut core);
    assert_same(&rt, &core.close().bytes(), &NIL_PREVOTE.as_slice());
}

/// Its proposal is kept and sent again, and no rule uses it: it prevotes as its timeout of proposals comes due.
fn keeps_what_no_rule_uses(rt: &impl Abort, core: &mut NodeCore<MemoryStore>) {
    assert_same(rt, &core.resend(), &Ok(()));
    assert_same(rt, &core.outgoing().len(), &1);
    prevotes_anew(rt, core);
    assert_same(rt, &core.resend(), &Ok(()));
    assert_same(rt, &core.outgoing().len(), &2);
}

/// Who proposes in which round may have been decided otherwise when a journal was begun.
#[test]
fn a_proposal_in_anothers_round_is_kept(rt: HostRuntime) {
    let mut core = node_over(&rt, rt.alloc(), KEYS, 2, &OTHERS_ROUND);
    keeps_what_no_rule_uses(&rt, &mut core);
}
