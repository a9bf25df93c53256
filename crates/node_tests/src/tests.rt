//! What no schedule tells of a node: its calls and what they answer, the timeouts that it schedules, streams of frames, memory that
//! is refused, and journals that others wrote; and of worlds of a few nodes. What a node answers to frames, `schedules/` tells.
//!
//! Most are of validator 3 of four of power 1. The key of what validator S sends to it is 32 times the byte 0xSS, and that of
//! what client 7 sends 32 times the byte 0x77.

ghost use Rattle.std.specs.Prelude.{◌≡◌, [], false, length};
ghost use Rattle.protocol.specs.Tags.{Validator};
ghost use Rattle.vote_journal.specs.Layout.{IsWhole};

mod base;
mod core_calls;
mod memory;
mod opening;
mod parties;
mod proposer;
mod streams;
mod timeouts;
mod worlds;

use authenticators::{KeyRing, Party, hmac};
use messages::{Body, Proposal, Step as VoteStep, Vote, frame_of, spell_body};
use node_core::{Config, NodeCore};
use powers::Powers;
use std::alloc::Global;
use std::fmt::Debug;
use std::process::Abort;
use transactions::{Id, Value, read_value, value_id};
use vote_journal::{Journal, MemoryStore};

/// Ends the test where what was found is not what is wanted, and shows both.
fn assert_same<R: Abort, T: PartialEq + Debug>(rt: &R, found: &T, wanted: &T) {
    assert_eq!(rt; found, wanted);
}

const KEYS: &[u8] = b"v0 v3 0000000000000000000000000000000000000000000000000000000000000000
v1 v3 1111111111111111111111111111111111111111111111111111111111111111
v2 v3 2222222222222222222222222222222222222222222222222222222222222222
v3 v3 3333333333333333333333333333333333333333333333333333333333333333
v3 v0 4444444444444444444444444444444444444444444444444444444444444444
v3 v1 4444444444444444444444444444444444444444444444444444444444444444
v3 v2 4444444444444444444444444444444444444444444444444444444444444444
c7 v3 7777777777777777777777777777777777777777777777777777777777777777
";

/// A validator's ring among so many.
fn ring_of(rt: &impl Abort, alloc: Global, keys: &[u8], me: u16, count: u16) -> KeyRing
    ensures { (result.me ≡ Validator me) × (result.count ≡ count) }
{
    let ring = KeyRing::read(alloc, keys, Party::Validator(me), count).expect(
        rt,
        "the keys make a ring",
    );
    assert_ring(rt, &ring, me, count);
    ring
}

fn assert_ring(rt: &impl Abort, ring: &KeyRing, me: u16, count: u16)
    ensures { (ring.now.me ≡ Validator me) × (ring.now.count ≡ count) }
{
    assert_eq!(rt; ring.me(), Party::Validator(me));
    assert_eq!(rt; ring.count(), count);
}

/// The powers of four validators of power 1.
fn four_powers(rt: &impl Abort, alloc: Global) -> Powers
    ensures { length result ≡ 4 }
{
    let each = vec![in alloc; 1, 1, 1, 1].expect(rt, "four numbers have room");
    let powers = Powers::new(each).expect(rt, "they are powers");
    assert_same(rt, &powers.count(), &4);
    powers
}

/// Validator `me`'s journal without records, on a store in memory. Call number `failing` of the store fails, and of an append
/// that many bytes stay.
fn journal_of(
    rt: &impl Abort,
    alloc: Global,
    me: u16,
    powers: &Powers,
    failing: u64,
    keep: usize,
) -> Journal<MemoryStore>
    ensures state { (result.me ≡ me) × (result.failed ≡ false) }
    ensures empty { IsWhole powers.now me result.store.bytes.items [] }
{
    let store = MemoryStore::new(Vec::new(alloc), failing, keep);
    let Ok(opened) = Journal::open(alloc, store, me, powers) else {
        panic!(rt; "the store opens");
    };
    let Ok(journal) = opened.without_records() else {
        panic!(rt; "it has no records");
    };
    journal
}

fn begin(rt: &impl Abort, core: &mut NodeCore<MemoryStore>) {
    assert!(rt; !core.is_settled());
    assert_same(rt, &core.settle(), &Ok(()));
}

/// The bytes of the value of client 7's number 1, the byte 0x61: the transaction, and the tags for validators 0 to 3.
fn value_spelling() -> [u8; 146] {
    let tx = [1, 0, 7, 0, 0, 0, 0, 0, 0, 0, 1, 0, 0, 1, 0x61];
    let mut bytes = [0; 146];
    bytes[1] = 1;
    bytes[2..17].copy_from_slice(&tx);
    bytes[17] = 4;
    bytes[114..].copy_from_slice(&hmac(&[0x77; 32], &tx));
    bytes
}

/// The validator and what comes to it.
#[derive(Drop)]
struct Node {
    alloc: Global,
    core: NodeCore<MemoryStore>,
}

impl Node {
    /// It has begun.
    fn new(rt: &impl Abort, alloc: Global) -> Node {
        let powers = four_powers(rt, alloc);
        let ring = ring_of(rt, alloc, KEYS, 3, 4);
        let journal = journal_of(rt, alloc, 3, &powers, 0, 0);
        let mut core = NodeCore::new(alloc, Config { me: 3, powers }, ring, journal);
        begin(rt, &mut core);
        Node { alloc, core }
    }

    /// The frame of a body, whose tag for this validator is made under 32 times this byte.
    fn frame(&self, rt: &impl Abort, key: u8, body: &Body) -> Vec<u8> {
        let spelled = spell_body(self.alloc, body).expect(rt, "the body has a spelling");
        assert!(rt; spelled.len() < 2_000);
        let tags = [[0; 32], [0; 32], [0; 32], hmac(&[key; 32], &spelled)];
        frame_of(self.alloc, &spelled, &tags).expect(rt, "the frame has room")
    }

    /// The value of client 7's number 1.
    fn value(&self, rt: &impl Abort) -> Value {
        read_value(self.alloc, &value_spelling()).expect(rt, "the spelling is a value's")
    }

    /// Its id.
    fn id(&self, rt: &impl Abort) -> Id {
        value_id(self.alloc, &self.value(rt)).expect(rt, "the value has an id")
    }

    /// Validator 0's proposal of it at height 0 and round 0.
    fn proposal(&self, rt: &impl Abort) -> Body {
        Body::Proposal(Proposal {
            height: 0,
            round: 0,
            sender: 0,
            valid_round: None,
            value: self.value(rt),
        })
    }
}

/// Lets a validator that has begun go through a test's steps.
fn on_node<R: Abort, F: FnOnce(&mut Node, &R)>(rt: &R, alloc: Global, steps: F)
    requires { F.IsAlwaysCallable steps }
{
    let mut node = Node::new(rt, alloc);
    steps(&mut node, rt);
}

/// A vote for an id at height 0 and round 0.
fn vote(step: VoteStep, sender: u16, id: Id) -> Body {
    Body::Vote(Vote {
        step,
        height: 0,
        round: 0,
        sender,
        content: Some(id),
    })
}
