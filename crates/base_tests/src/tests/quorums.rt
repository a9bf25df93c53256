//! Powers, quorums and proposers.

use super::assert_same;
use powers::{MOST_VALIDATORS, Powers, PowersFault};
use std::alloc::Global;
use std::process::Abort;

/// The powers of validators, in their order.
fn powers_of(rt: &impl Abort, alloc: Global, list: &[u32]) -> Powers {
    let list = Vec::from_slice(alloc, list).expect(rt, "no memory");
    Powers::new(list).expect(rt, "the powers are wrong")
}

/// What a list is refused for, if it is.
fn fault_of(rt: &impl Abort, alloc: Global, list: &[u32]) -> Option<PowersFault> {
    let list = Vec::from_slice(alloc, list).expect(rt, "no memory");
    Powers::new(list).err()
}

/// Whether these are the least powers that are a quorum and a weak quorum.
fn begin_at(powers: &Powers, quorum: u64, weak: u64) -> bool {
    powers.is_quorum(quorum)
        && !powers.is_quorum(quorum.saturating_sub(1))
        && powers.is_weak(weak)
        && !powers.is_weak(weak.saturating_sub(1))
}

#[test]
fn thresholds(rt: HostRuntime) {
    assert!(rt; begin_at(&powers_of(&rt, rt.alloc(), &[1, 1, 1]), 3, 2));
    assert!(rt; begin_at(&powers_of(&rt, rt.alloc(), &[5, 3, 2]), 7, 4));
}

/// The numbers of three validators of powers 5, 3 and 2.
fn assert_numbers(rt: &impl Abort, powers: &Powers) {
    assert_same(rt, &powers.total(), &10);
    assert_same(rt, &powers.count(), &3);
    assert_same(rt, &powers.power_of(0), &Some(5));
    assert_same(rt, &powers.power_of(2), &Some(2));
    assert_same(rt, &powers.power_of(3), &None);
    let mut members = [false; MOST_VALIDATORS];
    assert_same(rt, &powers.power_of_set(&members), &0);
    members[0] = true;
    members[2] = true;
    members[3] = true;
    members[127] = true;
    assert_same(rt, &powers.power_of_set(&members), &7);
}

/// Whether powers 5, 3 and 2 propose five, three and two times in ten heights or rounds in a row.
fn assert_turns(rt: &impl Abort, powers: &Powers) {
    for (number, proposer) in [(0u32, 0), (4, 0), (5, 1), (7, 1), (8, 2), (9, 2), (10, 0)] {
        assert_same(rt, &powers.proposer(u64::from(number), 0), &proposer);
        assert_same(rt, &powers.proposer(0, number), &proposer);
    }
    // The height and the round are added: 5, 8 and 10.
    for (height, round, proposer) in [(2, 3, 1), (1, 7, 2), (6, 4, 0)] {
        assert_same(rt, &powers.proposer(height, round), &proposer);
    }
    // 2^64 - 1 ends in 5, and so does 2^32 - 1: the sums end in 0, and in 8, where 2^64 + 2 as 2 would give 0.
    assert_same(rt, &powers.proposer(u64::MAX, u32::MAX), &0);
    assert_same(rt, &powers.proposer(u64::MAX, 3), &2);
}

#[test]
fn validators(rt: HostRuntime) {
    let uneven = powers_of(&rt, rt.alloc(), &[5, 3, 2]);
    assert_numbers(&rt, &uneven);
    assert_turns(&rt, &uneven);
    assert_numbers(&rt, &uneven.copy(rt.alloc()).expect(&rt, "no memory"));
}

/// The proposers of these heights and rounds.
fn assert_proposers(rt: &impl Abort, powers: &Powers, proposers: &[(u64, u32, u16)]) {
    for (height, round, proposer) in proposers {
        assert_same(rt, &powers.proposer(*height, *round), proposer);
    }
}

#[test]
fn proposers(rt: HostRuntime) {
    let equal = powers_of(&rt, rt.alloc(), &[1; 128]);
    assert_proposers(&rt, &equal, &[(127, 0, 127), (127, 1, 0)]);
    let great = powers_of(&rt, rt.alloc(), &[u32::MAX; 128]);
    let proposers = [
        (4_294_967_294, 0, 0),
        (4_294_967_294, 1, 1),
        (549_755_813_759, 0, 127),
        (great.total(), 0, 0),
    ];
    assert_proposers(&rt, &great, &proposers);
    assert_same(&rt, &great.total(), &549_755_813_760);
}

/// Lists of powers, and what each is refused for, if it is.
const FAULTS: [(&[u32], Option<PowersFault>); 10] = [
    (&[], Some(PowersFault::Empty)),
    (&[1; 129], Some(PowersFault::TooMany)),
    (&[0; 129], Some(PowersFault::TooMany)),
    (&[1; 128], None),
    (&[1, 0, 1], Some(PowersFault::ZeroPower)),
    (&[0, 9], Some(PowersFault::ZeroPower)),
    (&[7, 3], Some(PowersFault::Dominant)),
    (&[1], Some(PowersFault::Dominant)),
    (&[2, 1], None),
    (&[u32::MAX; 128], None),
];

#[test]
fn faults(rt: HostRuntime) {
    for (list, fault) in FAULTS {
        assert_same(&rt, &fault_of(&rt, rt.alloc(), list), &fault);
    }
}

#[test]
fn numbers_of_faults(rt: HostRuntime) {
    assert_same(&rt, &PowersFault::Empty.number(), &1);
    assert_same(&rt, &PowersFault::Dominant.number(), &4);
}
