//! The text of a fault of a world, and that the calls of a world's core get on.

ghost use Rattle.std.specs.Prelude.{◌≡◌, length};
ghost use Rattle.protocol.specs.Tags.{Validator};

use super::assert_same;
use authenticators::{KeyRing, Party};
use node_core::{Config, NodeCore};
use powers::Powers;
use protocol::{Refusal, Step, Timeout};
use std::alloc::{AllocError, Global};
use std::process::Abort;
use stopped_cores::{begin_again, end};
use transactions::Seq;
use vote_journal::{Journal, MemoryStore};
use world_schedule::{FaultNumber, RunFault, hand_frame, hand_timeout, settle};

/// The keys of validator 1 of two.
const KEYS: &[u8] = b"v0 v1 0000000000000000000000000000000000000000000000000000000000000000
v1 v1 1111111111111111111111111111111111111111111111111111111111111111
v1 v0 1111111111111111111111111111111111111111111111111111111111111111
";

/// Whether the fault of an event with this number shows as this text.
fn shows(alloc: Global, event: u64, number: FaultNumber, wanted: &str) -> Result<bool, AllocError> {
    let fault = RunFault {
        event,
        number,
        told: Seq::new(alloc),
    };
    Ok(format!(in alloc; "{fault}")?.as_str() == wanted)
}

#[test]
fn faults_show_their_event_and_number(rt: HostRuntime) {
    let alloc = rt.alloc();
    assert!(rt; shows(alloc, 1, FaultNumber::NoSuchMessage, "event 1: fault 1") == Ok(true));
    assert!(rt;
        shows(
            alloc,
            20,
            FaultNumber::from(AllocError),
            "event 20: fault 5"
        ) == Ok(true)
    );
}

fn own_ring(rt: &impl Abort, alloc: Global) -> KeyRing
    ensures { (result.me ≡ Validator 1) × (result.count ≡ 2) }
{
    let ring = KeyRing::read(alloc, KEYS, Party::Validator(1), 2).expect(rt, "they are keys");
    assert_ring(rt, &ring);
    ring
}

fn assert_ring(rt: &impl Abort, ring: &KeyRing)
    ensures { (ring.now.me ≡ Validator 1) × (ring.now.count ≡ 2) }
{
    assert_eq!(rt; ring.me(), Party::Validator(1));
    assert_eq!(rt; ring.count(), 2);
}

fn two_powers(rt: &impl Abort, alloc: Global) -> Powers
    ensures { length result ≡ 2 }
{
    let each = vec![in alloc; 1, 1].expect(rt, "two numbers have room");
    let powers = Powers::new(each).expect(rt, "they are powers");
    assert_same(rt, &powers.count(), &2);
    powers
}

/// Each call is made once.
fn assert_calls(rt: &impl Abort, core: &mut NodeCore<MemoryStore>) {
    let due = Timeout {
        kind: Step::Propose,
        height: 0,
        round: 0,
    };
    assert_same(rt, &settle(core), &Ok(()));
    assert_same(
        rt,
        &hand_frame(core, &[0, 0, 0, 0]),
        &Err(Refusal::Truncated),
    );
    assert_same(rt, &hand_timeout(core, due), &Ok(()));
    assert!(rt; core.round() == 0 && core.fired() == 0);
}

#[test]
fn calls_of_a_core(rt: HostRuntime) {
    let alloc = rt.alloc();
    let ring = own_ring(&rt, alloc);
    let powers = two_powers(&rt, alloc);
    let journal = Journal::in_memory(alloc, 1).expect(&rt, "the journal has room");
    let mut core = NodeCore::new(alloc, Config { me: 1, powers }, ring, journal);
    assert_calls(&rt, &mut core);
    comes_back(&rt, alloc, core);
}

/// It ends, and another one over its store has said what it said: a prevote of nil.
fn comes_back(rt: &impl Abort, alloc: Global, core: NodeCore<MemoryStore>) {
    let store = end(core);
    let ring = own_ring(rt, alloc);
    let powers = two_powers(rt, alloc);
    let Ok(again) = begin_again(alloc, Config { me: 1, powers }, ring, store) else {
        panic!(rt; "it comes back");
    };
    assert_said(rt, &again);
}

/// It has said one message.
fn assert_said(rt: &impl Abort, core: &NodeCore<MemoryStore>) {
    let base = core.base().expect(rt, "the copy has room");
    assert_same(rt, &base.said.len(), &1);
}
