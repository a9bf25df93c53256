//! When a validator proposes next.

use super::assert_same;
use powers::Powers;
use proposer_turns::Turns;
use std::alloc::AllocGlobal;
use std::process::Abort;

/// The powers of a cluster.
fn powers_of<R: Abort + AllocGlobal>(rt: &R, powers: &[u32]) -> Powers {
    let powers = powers.to_vec(rt.alloc()).expect(rt, "the powers have room");
    Powers::new(powers).expect(rt, "the powers are a cluster's")
}

/// The turns of a validator among these powers.
pub(crate) fn turns_of<R: Abort + AllocGlobal>(rt: &R, powers: &[u32], validator: u16) -> Turns {
    Turns::of(&powers_of(rt, powers), validator)
}

/// How many heights after this one a validator proposes next, found by looking at each.
fn looked_up(powers: &Powers, validator: u16, height: u64) -> Option<u64> {
    (1..=powers.total()).find(|count| powers.proposer(height.saturating_add(*count), 0)
        == validator)
}

/// A validator's next turn comes after as many heights as looking at each finds.
fn assert_next<R: Abort>(rt: &R, powers: &Powers, validator: u16) {
    let turns = Turns::of(powers, validator);
    for height in 0..powers.total().saturating_mul(2) {
        let found = turns.heights_to_next(height);
        assert_same(rt, &Some(found), &looked_up(powers, validator, height));
    }
}

/// Each validator's.
fn assert_turns<R: Abort + AllocGlobal>(rt: &R, powers: &[u32]) {
    let powers = powers_of(rt, powers);
    for validator in 0..powers.count() {
        assert_next(rt, &powers, validator);
    }
}

#[test]
fn the_next_turn_is_found(rt: HostRuntime) {
    assert_turns(&rt, &[1, 1, 1, 1]);
    assert_turns(&rt, &[2, 1, 1, 1]);
    assert_turns(&rt, &[5, 3, 2]);
    assert_turns(&rt, &[1, 7, 7, 6]);
}

#[test]
fn every_turn(rt: HostRuntime) {
    for height in [0, 1, u64::MAX] {
        assert_same(&rt, &Turns::ALL.heights_to_next(height), &1);
    }
}
