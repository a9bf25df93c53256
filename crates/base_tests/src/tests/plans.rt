//! Plans of timeouts.

use super::assert_same;
use protocol::{Step, Timeout};
use std::process::Abort;
use timeouts::{Plan, PlanFault, account_law};

/// A timeout of this kind, height and round.
fn timeout(kind: Step, height: u64, round: u32) -> Timeout {
    Timeout {
        kind,
        height,
        round,
    }
}

/// Schedules a timeout at this time.
fn schedule(rt: &impl Abort, plan: &mut Plan, now: u64, timeout: Timeout) {
    plan.schedule(now, timeout).expect(rt, "no memory");
}

#[test]
fn a_timeout_of_round_2(rt: HostRuntime) {
    let mut plan = Plan::new(rt.alloc(), 1000, 500).expect(&rt, "no plan");
    let proposal = timeout(Step::Propose, 0, 2);
    assert_same(&rt, &plan.next_due(), &None);
    schedule(&rt, &mut plan, 10, proposal);
    assert_same(&rt, &plan.next_due(), &Some(2010));
    assert_same(&rt, &plan.due(2009), &None);
    assert_same(&rt, &plan.due(2010), &Some(proposal));
    assert_same(&rt, &plan.due(2010), &None);
}

#[test]
fn limits(rt: HostRuntime) {
    for (start, delta) in [(86_400_001, 0), (0, 86_400_001)] {
        let fault = Plan::new(rt.alloc(), start, delta).err();
        assert_same(&rt, &fault, &Some(PlanFault::TooLong));
        assert_same(&rt, &fault.map(PlanFault::number), &Some(1));
    }
    let mut plan = Plan::new(rt.alloc(), 86_400_000, 86_400_000).expect(&rt, "no plan");
    let last = timeout(Step::Precommit, u64::MAX, u32::MAX);
    schedule(&rt, &mut plan, u64::MAX - 5, last);
    assert_same(&rt, &plan.next_due(), &Some(u64::MAX));
    schedule(&rt, &mut plan, 0, last);
    // (2^32 - 1) * 86,400,000 + 86,400,000
    assert_same(&rt, &plan.next_due(), &Some(371_085_174_374_400_000));
}

#[test]
fn in_order_of_time_and_of_scheduling(rt: HostRuntime) {
    let mut plan = Plan::new(rt.alloc(), 100, 0).expect(&rt, "no plan");
    for (now, height) in [(30, 4), (10, 1), (30, 5), (20, 3), (10, 2)] {
        schedule(&rt, &mut plan, now, timeout(Step::Prevote, height, 0));
    }
    plan.forget_below(2);
    for height in [2, 3, 4, 5] {
        assert_same(
            &rt,
            &plan.due(1000),
            &Some(timeout(Step::Prevote, height, 0)),
        );
    }
    assert_same(&rt, &plan.due(1000), &None);
}

#[test]
fn the_law_takes_nothing() {
    account_law();
}
