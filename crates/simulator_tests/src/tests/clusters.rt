//! That a run is repeated by its seed, that a cluster without faults delivers all, and that a disk which breaks its promise is found.

use super::assert_same;
use bytes::Bytes;
use cluster_actors::{Deed, Out, Outbox};
use cluster_checks::{
    Asked, Costs, EarlyWatch, Failed, Heading, Kind, Pace, Settings, SpeechWatch, Trouble, Troubles,
};
use cluster_parts::{Chance, Drift};
use cluster_world::World;
use edge_frames::LinkId;
use peer_core::Keeping;
use protocol::Refusal;
use std::alloc::Global;
use std::test::Fail;

/// How many events a run has at most.
const MOST_EVENTS: u64 = 8_000;

/// What came of a run.
#[derive(Clone, Copy, Debug, PartialEq, Eq)]
struct Outcome {
    failed: Option<Failed>,
    costs: Costs,
}

/// A run of four validators with these faults.
fn asked(seed: u64, troubles: Troubles) -> Asked {
    Asked {
        validators: Some(4),
        liars: Some(0),
        clients: Some(2),
        keeping: Some(Keeping::Guarded),
        rest: Some(0),
        troubles,
        ..Asked::of_seed(seed)
    }
}

/// Runs a world for some events, or until it fails.
fn run(world: &mut World) -> Outcome {
    let mut failed = None;
    for _ in 0..MOST_EVENTS {
        match world.step() {
            Ok(Some(_)) => {}
            Ok(None) => break,
            Err(found) => {
                failed = Some(found);
                break;
            }
        }
    }
    Outcome {
        failed,
        costs: world.costs(),
    }
}

/// What comes of a run.
fn outcome_of(alloc: Global, asked: Asked) -> Result<Outcome, Fail> {
    let mut world = World::new(alloc, Settings::drawn(alloc, asked)?)?;
    Ok(run(&mut world))
}

#[test]
fn same_seed_same_figures(rt: HostRuntime) -> Result<(), Fail> {
    let alloc = rt.alloc();
    let first = outcome_of(alloc, asked(3, Troubles::ALL))?;
    let second = outcome_of(alloc, asked(3, Troubles::ALL))?;
    let other = outcome_of(alloc, asked(4, Troubles::ALL))?;
    assert_same(&rt, &first, &second);
    assert!(rt; first != other);
    Ok(())
}

#[test]
fn all_is_delivered_without_faults(rt: HostRuntime) -> Result<(), Fail> {
    let found = outcome_of(rt.alloc(), asked(5, Troubles::NONE))?;
    assert_same(&rt, &found.failed, &None);
    assert!(rt; found.costs.delivered > 0);
    assert!(rt; found.costs.accepted >= found.costs.delivered);
    assert_same(&rt, &found.costs.round, &0);
    assert_same(&rt, &found.costs.sent(Kind::Other).frames, &0);
    Ok(())
}

#[test]
fn lost_bytes_are_found(rt: HostRuntime) -> Result<(), Fail> {
    let alloc = rt.alloc();
    let mut stops = Troubles::NONE;
    stops.set(Trouble::Stops, true);
    let mut world = World::new(alloc, Settings::drawn(alloc, asked(7, stops))?)?;
    for validator in 0..4 {
        world.plant_forgetful_disk(validator);
    }
    assert!(rt; run(&mut world).failed.is_some());
    Ok(())
}

#[test]
fn early_frames_are_awaited(rt: HostRuntime) -> Result<(), Fail> {
    let mut watch = EarlyWatch::new(rt.alloc());
    let early = prevote_of(2, 8);
    let later = Heading { height: 9, ..early };
    watch.answered(5, early, Err(Refusal::OtherHeight), 7)?;
    watch.answered(5, later, Err(Refusal::OtherHeight), 7)?;
    assert!(rt; watch.lost(7).is_none());
    assert!(rt; watch.lost(8) == Some((5, early)));
    watch.answered(5, early, Ok(()), 8)?;
    assert!(rt; watch.lost(8).is_none());
    watch.answered(5, later, Err(Refusal::OtherHeight), 8)?;
    assert!(rt; watch.lost(9) == Some((5, later)));
    watch.ended(5);
    assert!(rt; watch.lost(9).is_none());
    Ok(())
}

#[test]
fn dialed_links_are_greeted(rt: HostRuntime) -> Result<(), Fail> {
    let mut watch = SpeechWatch::new(rt.alloc(), 2);
    watch.begins(8);
    watch.dialed(5)?;
    watch.dialed(7)?;
    assert!(rt; watch.owed(8).is_none());
    watch.sent(prevote_of(3, 8));
    assert!(rt; watch.owed(8).is_none());
    watch.sent(prevote_of(2, 8));
    assert_same(&rt, &watch.owed(8), &Some(5));
    watch.forget(5);
    assert_same(&rt, &watch.owed(8), &Some(7));
    assert!(rt; watch.owed(9).is_none());
    watch.forget(7);
    assert!(rt; watch.owed(8).is_none());
    Ok(())
}

#[test]
fn replies_where_nothing_was_heard(rt: HostRuntime) -> Result<(), Fail> {
    let alloc = rt.alloc();
    let mut out = Outbox::new(alloc);
    let reply = Bytes::copy_from_slice(alloc, &[0])?;
    out.outs.push(Out::Reply(LinkId(3), reply))?;
    let heard = Deed::Hear(LinkId(3), Vec::new(alloc)).heard();
    assert!(rt; out.astray(heard).is_none());
    assert_same(&rt, &out.astray(Some(LinkId(4))), &Some(LinkId(3)));
    assert_same(&rt, &out.astray(Deed::Wake.heard()), &Some(LinkId(3)));
    Ok(())
}

#[test]
fn proposals_of_heights_that_are_over(rt: HostRuntime) {
    let mut watch = SpeechWatch::new(rt.alloc(), 2);
    watch.begins(8);
    watch.sent(prevote_of(2, 7));
    let proposal = Heading {
        kind: Kind::Proposal,
        ..prevote_of(2, 8)
    };
    watch.sent(proposal);
    watch.begins(9);
    watch.sent(proposal);
    assert!(rt; watch.outdated().is_none());
    watch.begins(10);
    watch.sent(prevote_of(2, 8));
    assert!(rt; watch.outdated().is_none());
    watch.sent(proposal);
    assert!(rt; watch.outdated() == Some(proposal));
}

/// A prevote of a validator in round 0 of a height.
fn prevote_of(sender: u16, height: u64) -> Heading {
    Heading {
        kind: Kind::Prevote,
        height,
        round: 0,
        sender,
    }
}

#[test]
fn pace_of_transactions(rt: HostRuntime) {
    let mut pace = Pace::NONE;
    for _ in 0..32 {
        pace.note(true);
        pace.note(false);
    }
    let Pace { looked_at, late } = pace;
    assert_same(&rt, &(looked_at, late), &(64, 32));
    assert!(rt; !pace.is_slow());
    pace.note(true);
    assert!(rt; pace.is_slow());
}

#[test]
fn words_of_troubles(rt: HostRuntime) {
    assert_same(&rt, &Troubles::of_words("all"), &Some(Troubles::ALL));
    assert_same(&rt, &Troubles::of_words("none"), &Some(Troubles::NONE));
    assert_same(&rt, &Troubles::of_words("cuts,flood"), &None);
    let some = Troubles::of_words("cuts,drift");
    assert!(rt; some.is_some_and(|some| some.has(Trouble::Cuts) && !some.has(Trouble::Stops)));
}

#[test]
fn clocks_drift(rt: HostRuntime) {
    let slow = Drift {
        offset: 7,
        rate: 900,
    };
    assert_same(&rt, &slow.shown(10_000), &9_007);
    assert!(rt; slow.shown(slow.shows_from(9_007)) >= 9_007);
}

#[test]
fn chance_keeps_its_bounds(rt: HostRuntime) {
    let mut chance = Chance::new(1);
    for _ in 0..100 {
        let number = chance.between(3, 5);
        assert!(rt; (3..=5).contains(&number));
    }
    assert_same(&rt, &chance.place(0), &None);
}
