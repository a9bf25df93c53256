//! Validator 1 of four. Of a frame nothing is made but its front, since nothing else is looked at.

mod helping;
mod linking;
mod resting;
mod sending;
mod turns;

use bytes::Bytes;
use edge_frames::LinkId;
use peer_core::{Duty, Keeping, Manner, PeerCore, Sending};
use peer_links::Way;
use proposer_turns::Turns;
use protocol::Refusal;
use std::alloc::AllocGlobal;
use std::fmt::Debug;
use std::process::Abort;
use timeouts::Plan;

/// Ends the test where what was found is not what is wanted, and shows both.
fn assert_same<R: Abort, T: PartialEq + Debug>(rt: &R, found: &T, wanted: &T) {
    assert_eq!(rt; found, wanted);
}

const PROPOSAL: u8 = 0x10;

const PREVOTE: u8 = 0x11;

const PRECOMMIT: u8 = 0x12;

const ASK: u8 = 0x13;

const BUNDLE: u8 = 0x14;

const GUARDED: Manner = Manner {
    keeping: Keeping::Guarded,
    idle: 0,
    rest: 0,
    redial: 1_000,
    turns: Turns::ALL,
};

/// Lets validator 1 of four go through a test's steps.
fn on_edge<R: Abort + AllocGlobal, F: FnOnce(&R, &mut PeerCore)>(rt: &R, manner: Manner, steps: F)
    requires { F.IsAlwaysCallable steps }
{
    on_edge_of(rt, 1, 4, manner, steps);
}

/// Lets validator 1 of twenty go through a test's steps, where a bundle takes long to make.
fn on_large_edge<R: Abort + AllocGlobal, F: FnOnce(&R, &mut PeerCore)>(rt: &R, steps: F)
    requires { F.IsAlwaysCallable steps }
{
    on_edge_of(rt, 1, 20, GUARDED, steps);
}

/// Lets validator `me` of `count`, whose timeouts last a second, go through a test's steps.
fn on_edge_of<R: Abort + AllocGlobal, F: FnOnce(&R, &mut PeerCore)>(
    rt: &R,
    me: u16,
    count: u16,
    manner: Manner,
    steps: F,
)
    requires { F.IsAlwaysCallable steps }
{
    let plan = Plan::new(rt.alloc(), 1_000, 0).expect(rt, "the plan has room");
    let mut edge = PeerCore::new(rt.alloc(), me, count, manner, plan, 0);
    steps(rt, &mut edge);
}

/// The front of a proposal of no transactions or of a vote for a value, of round 0.
fn of_round(kind: u8, height: u8, sender: u8) -> [u8; 25] {
    [
        0, 0, 0, 21, kind, 0, 0, 0, 0, 0, 0, 0, height, 0, 0, 0, 0, 0, sender, 255, 255, 255, 255,
        0, 0,
    ]
}

/// The front of an ask or a bundle.
fn of_height(kind: u8, height: u8, sender: u8) -> [u8; 15] {
    [0, 0, 0, 11, kind, 0, 0, 0, 0, 0, 0, 0, height, 0, sender]
}

/// The numbers of the links that a frame goes to.
fn links_of(sending: &Sending) -> u32 {
    sending.links.iter().fold(
        0,
        |sum: u32, link| sum.saturating_mul(10).saturating_add(link.0),
    )
}

/// The numbers of the links that a released frame goes to, as one number's digits; 0 where it goes to none.
fn released<R: Abort + AllocGlobal>(rt: &R, edge: &mut PeerCore, frame: &[u8], now: u64) -> u32 {
    let frame = Bytes::copy_from_slice(rt.alloc(), frame).expect(rt, "the frame has room");
    match edge.released(frame, now).expect(rt, "the links have room") {
        Some(sending) => links_of(&sending),
        None => 0,
    }
}

/// Hands in a frame that came on a link and was answered so, by a node in this height.
fn came(
    edge: &mut PeerCore,
    link: u32,
    frame: &[u8],
    answer: Result<(), Refusal>,
    height: u64,
    now: u64,
) {
    if !edge.expect(LinkId(link), frame, now) {
        return;
    }
    let _ = edge.answered(LinkId(link), frame, answer, height, now);
}

/// An ask of height 0 by a validator, as it comes on a link that it has opened.
fn asks(edge: &mut PeerCore, link: u32, validator: u8, now: u64) {
    came(
        edge,
        link,
        &of_height(ASK, 0, validator),
        Err(Refusal::OtherHeight),
        0,
        now,
    );
}

/// Opens a link, which is let in.
fn open<R: Abort>(rt: &R, edge: &mut PeerCore, link: LinkId, way: Way, now: u64) {
    edge.opened(link, way, now).expect(rt, "the link is let in");
}

/// Opens links 1, 2 and 3, which were dialed: to validators 0, 2 and 3.
fn dial_all<R: Abort>(rt: &R, edge: &mut PeerCore) {
    open(rt, edge, LinkId(1), Way::Dialed(0), 0);
    open(rt, edge, LinkId(2), Way::Dialed(2), 0);
    open(rt, edge, LinkId(3), Way::Dialed(3), 0);
}

/// What came of a machine's duties.
#[derive(Clone, Copy, Debug, PartialEq, Eq)]
struct Done {
    asks: u32,
    fired: u32,
    closed: u32,
    handed_in: u32,
    sent: u32,
}

const NOTHING: Done = Done {
    asks: 0,
    fired: 0,
    closed: 0,
    handed_in: 0,
    sent: 0,
};

/// Takes the duties until none is left, at most a thousand, and counts them.
fn duties(edge: &mut PeerCore, now: u64) -> Done {
    let mut done = NOTHING;
    for _ in 0..1_000 {
        let Some(duty) = edge.next_duty(now) else {
            break;
        };
        count(&mut done, &duty);
    }
    done
}

fn count(done: &mut Done, duty: &Duty) {
    let counter = match duty {
        Duty::Ask => &mut done.asks,
        Duty::Fire(_) => &mut done.fired,
        Duty::Close(..) => &mut done.closed,
        Duty::HandIn(..) => &mut done.handed_in,
        Duty::Send(_) => &mut done.sent,
        Duty::Settle | Duty::Resend | Duty::Meet(..) => return,
    };
    *counter = counter.saturating_add(1);
}

/// How often the node is to send its own messages again, among at most a thousand duties.
fn resends(edge: &mut PeerCore, now: u64) -> u32 {
    let mut count = 0u32;
    for _ in 0..1_000 {
        match edge.next_duty(now) {
            Some(Duty::Resend) => count = count.saturating_add(1),
            Some(_) => {}
            None => break,
        }
    }
    count
}
