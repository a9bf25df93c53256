//! Early frames, catching up, and what is sent again.

use super::{
    ASK, BUNDLE, GUARDED, PRECOMMIT, PREVOTE, PROPOSAL, asks, assert_same, came, dial_all, duties,
    of_height, of_round, on_edge, on_edge_of, on_large_edge, open, released, resends,
};
use edge_frames::LinkId;
use peer_core::{Duty, Grounds, Manner, PeerCore, Sending};
use peer_links::Way;
use protocol::Refusal;
use std::alloc::AllocGlobal;
use std::process::Abort;

#[test]
fn an_early_frame_is_handed_in_once_its_height_has_come(rt: HostRuntime) {
    on_edge(
        &rt,
        GUARDED,
        try_an_early_frame_is_handed_in_once_its_height_has_come,
    );
}

fn try_an_early_frame_is_handed_in_once_its_height_has_come<R: Abort + AllocGlobal>(
    rt: &R,
    edge: &mut PeerCore,
) {
    dial_all(rt, edge);
    let early = of_round(PREVOTE, 1, 2);
    came(edge, 2, &early, Err(Refusal::OtherHeight), 0, 0);
    assert_same(rt, &duties(edge, 0).handed_in, &0);
    assert!(rt; edge.told(1, 10));
    assert!(rt; !edge.told(1, 10));
    assert_same(rt, &duties(edge, 10).handed_in, &1);
    assert_same(rt, &duties(edge, 10).handed_in, &0);
}

/// A validator that is two heights behind asks one link at once, and where that brings nothing within a second all.
#[test]
fn who_is_behind_asks_one_and_then_all(rt: HostRuntime) {
    on_edge(&rt, GUARDED, try_who_is_behind_asks_one_and_then_all);
}

fn try_who_is_behind_asks_one_and_then_all<R: Abort + AllocGlobal>(rt: &R, edge: &mut PeerCore) {
    dial_all(rt, edge);
    let _ = duties(edge, 0);
    let ask = of_height(ASK, 0, 1);
    assert_same(rt, &released(rt, edge, &ask, 0), &123);
    let later = of_height(ASK, 2, 2);
    came(edge, 2, &later, Err(Refusal::OtherHeight), 0, 0);
    assert_same(rt, &duties(edge, 0).asks, &1);
    assert_same(rt, &released(rt, edge, &ask, 0), &1);
    assert_same(rt, &duties(edge, 1_000).asks, &1);
    assert_same(rt, &released(rt, edge, &ask, 1_000), &123);
}

/// In height 2 of four validators all that are behind ask validator 2 first, and then the next one, so that one bundle is made for all.
#[test]
fn who_is_behind_asks_whom_the_others_ask(rt: HostRuntime) {
    on_edge(&rt, GUARDED, try_who_is_behind_asks_whom_the_others_ask);
}

fn try_who_is_behind_asks_whom_the_others_ask<R: Abort + AllocGlobal>(rt: &R, edge: &mut PeerCore) {
    dial_all(rt, edge);
    let _ = duties(edge, 0);
    let own = |height: u8| of_height(ASK, height, 1);
    let _ = released(rt, edge, &own(2), 0);
    came(
        edge,
        1,
        &of_height(ASK, 4, 0),
        Err(Refusal::OtherHeight),
        2,
        0,
    );
    assert_same(rt, &duties(edge, 0).asks, &1);
    assert_same(rt, &released(rt, edge, &own(2), 0), &2);
    edge.told(3, 10);
    assert_same(rt, &duties(edge, 10).asks, &1);
    assert_same(rt, &released(rt, edge, &own(3), 10), &3);
}

/// Of four validators 0 doesn't answer. In height 4 it would be asked first again, and another one is, until it has brought a bundle that decides, or a
/// minute has passed.
#[test]
fn who_does_not_answer_is_asked_last(rt: HostRuntime) {
    on_edge(&rt, GUARDED, try_who_does_not_answer_is_asked_last);
}

fn try_who_does_not_answer_is_asked_last<R: Abort + AllocGlobal>(rt: &R, edge: &mut PeerCore) {
    dial_all(rt, edge);
    let _ = duties(edge, 0);
    let own = |height: u8| of_height(ASK, height, 1);
    let _ = released(rt, edge, &own(0), 0);
    let later = of_height(ASK, 30, 2);
    came(edge, 2, &later, Err(Refusal::OtherHeight), 0, 0);
    assert_same(rt, &duties(edge, 0).asks, &1);
    assert_same(rt, &released(rt, edge, &own(0), 0), &1);
    assert_same(rt, &duties(edge, 1_000).asks, &1);
    assert_same(rt, &released(rt, edge, &own(0), 1_000), &123);
    assert_same(rt, &asked_in(rt, edge, 4, 1_100), &2);
    let bundle = of_height(BUNDLE, 4, 0);
    came(edge, 1, &bundle, Err(Refusal::OtherHeight), 5, 1_200);
    assert_same(rt, &asked_in(rt, edge, 8, 1_300), &2);
    came(edge, 1, &of_height(BUNDLE, 8, 0), Ok(()), 9, 1_400);
    assert_same(rt, &asked_in(rt, edge, 12, 1_500), &1);
    assert_same(rt, &asked_in(rt, edge, 16, 2_500), &2);
    let _ = duties(edge, 61_400);
    let _ = released(rt, edge, &own(16), 61_400);
    assert_same(rt, &asked_in(rt, edge, 20, 61_500), &1);
}

/// Brings the edge to this height, and returns the links that it asks there.
fn asked_in<R: Abort + AllocGlobal>(rt: &R, edge: &mut PeerCore, height: u8, now: u64) -> u32 {
    assert!(rt; edge.told(u64::from(height), now));
    assert_same(rt, &duties(edge, now).asks, &1);
    released(rt, edge, &of_height(ASK, height, 1), now)
}

/// In a large cluster a validator that is behind asks one more after 1, 3 and 7 seconds, so that few make a bundle.
#[test]
fn who_is_behind_in_a_large_cluster_asks_few(rt: HostRuntime) {
    on_large_edge(&rt, try_who_is_behind_in_a_large_cluster_asks_few);
}

fn try_who_is_behind_in_a_large_cluster_asks_few<R: Abort + AllocGlobal>(
    rt: &R,
    edge: &mut PeerCore,
) {
    assert_same(rt, &released(rt, edge, &of_round(PREVOTE, 0, 1), 0), &0);
    dial_all(rt, edge);
    assert_same(rt, &duties(edge, 0).asks, &0);
    came(
        edge,
        2,
        &of_height(ASK, 2, 2),
        Err(Refusal::OtherHeight),
        0,
        0,
    );
    assert_same(rt, &duties(edge, 0).asks, &1);
    let ask = of_height(ASK, 0, 1);
    assert_same(rt, &released(rt, edge, &ask, 0), &1);
    for (second, links) in [(1, 2), (2, 0), (3, 3), (4, 0), (5, 0), (6, 0), (7, 1)] {
        let asks = duties(edge, second * 1_000).asks;
        let asked = if asks == 0 {
            0
        } else {
            released(rt, edge, &ask, second * 1_000)
        };
        assert_same(rt, &asked, &links);
    }
}

/// In a large cluster the last own vote is said on links that open or would seem silent, since an ask would be answered.
#[test]
fn in_a_large_cluster_a_vote_is_a_sign_of_life(rt: HostRuntime) {
    on_large_edge(&rt, try_in_a_large_cluster_a_vote_is_a_sign_of_life);
}

fn try_in_a_large_cluster_a_vote_is_a_sign_of_life<R: Abort + AllocGlobal>(
    rt: &R,
    edge: &mut PeerCore,
) {
    let vote = of_round(PREVOTE, 0, 1);
    assert_same(rt, &released(rt, edge, &vote, 0), &0);
    edge.told(1, 0);
    open(rt, edge, LinkId(1), Way::Dialed(0), 0);
    assert_sent_first(rt, edge, 0, &vote);
    assert_same(rt, &duties(edge, 2_000).sent, &0);
    assert_sent_first(rt, edge, 3_000, &vote);
    assert_same(rt, &duties(edge, 4_000).asks, &0);
}

/// In a large cluster at rest an own prevote that waits behind the own proposal is no sign of life: it would say that the height goes on.
#[test]
fn in_a_large_cluster_a_held_vote_is_not_said(rt: HostRuntime) {
    let resting = Manner {
        rest: 60_000,
        ..GUARDED
    };
    on_edge_of(
        &rt,
        1,
        20,
        resting,
        try_in_a_large_cluster_a_held_vote_is_not_said,
    );
}

fn try_in_a_large_cluster_a_held_vote_is_not_said<R: Abort + AllocGlobal>(
    rt: &R,
    edge: &mut PeerCore,
) {
    let vote = of_round(PREVOTE, 0, 1);
    assert_same(rt, &released(rt, edge, &vote, 0), &0);
    edge.told(1, 0);
    assert_same(rt, &released(rt, edge, &of_round(PROPOSAL, 1, 1), 0), &0);
    let held = of_round(PREVOTE, 1, 1);
    assert_same(rt, &released(rt, edge, &held, 0), &0);
    open(rt, edge, LinkId(1), Way::Dialed(0), 0);
    let done = duties(edge, 0);
    assert_same(rt, &(done.sent, done.asks), &(0, 1));
}

/// Who rests in a large cluster has no vote of its height to say, and asks: a vote of the height before tells nobody who is in that height that it is behind.
#[test]
fn in_a_large_cluster_who_rests_asks(rt: HostRuntime) {
    let resting = Manner {
        rest: 60_000,
        ..GUARDED
    };
    on_edge_of(&rt, 1, 20, resting, try_in_a_large_cluster_who_rests_asks);
}

fn try_in_a_large_cluster_who_rests_asks<R: Abort + AllocGlobal>(rt: &R, edge: &mut PeerCore) {
    open(rt, edge, LinkId(1), Way::Dialed(0), 0);
    let _ = duties(edge, 0);
    let vote = of_round(PREVOTE, 0, 1);
    assert_same(rt, &released(rt, edge, &vote, 0), &1);
    assert_sent_first(rt, edge, 3_000, &vote);
    edge.told(1, 3_000);
    assert_same(rt, &duties(edge, 5_000).asks, &0);
    assert_same(rt, &duties(edge, 6_000).asks, &1);
}

/// In a large cluster who asks for the height that was left a moment ago isn't answered: it may have asked before it decided.
#[test]
fn in_a_large_cluster_a_late_ask_is_passed_over(rt: HostRuntime) {
    on_large_edge(&rt, try_in_a_large_cluster_a_late_ask_is_passed_over);
}

fn try_in_a_large_cluster_a_late_ask_is_passed_over<R: Abort + AllocGlobal>(
    rt: &R,
    edge: &mut PeerCore,
) {
    dial_all(rt, edge);
    assert_same(rt, &duties(edge, 0).asks, &3);
    edge.told(2, 100);
    let late = of_height(ASK, 1, 0);
    assert!(rt; !edge.expect(LinkId(1), &late, 500));
    assert!(rt; edge.expect(LinkId(2), &of_height(ASK, 0, 2), 500));
    assert!(rt; edge.expect(LinkId(1), &late, 600));
}

/// Behind eight asks of a large cluster each validator is asked twice, since it may answer only who has asked for longer.
#[test]
fn who_is_behind_for_long_asks_each_twice(rt: HostRuntime) {
    on_large_edge(&rt, try_who_is_behind_for_long_asks_each_twice);
}

fn try_who_is_behind_for_long_asks_each_twice<R: Abort + AllocGlobal>(rt: &R, edge: &mut PeerCore) {
    assert_same(rt, &released(rt, edge, &of_round(PREVOTE, 0, 1), 0), &0);
    dial_all(rt, edge);
    let _ = duties(edge, 0);
    came(
        edge,
        2,
        &of_height(ASK, 2, 2),
        Err(Refusal::OtherHeight),
        0,
        0,
    );
    let ask = of_height(ASK, 0, 1);
    let asked = [
        (0, 1),
        (1_000, 2),
        (3_000, 3),
        (7_000, 1),
        (15_000, 2),
        (23_000, 3),
        (31_000, 1),
        (39_000, 2),
        (47_000, 3),
        (55_000, 3),
        (63_000, 1),
        (71_000, 1),
    ];
    for (now, link) in asked {
        for open in 1..=3 {
            edge.heard(LinkId(open), now);
        }
        assert_same(rt, &duties(edge, now).asks, &1);
        assert_same(rt, &released(rt, edge, &ask, now), &link);
    }
}

/// Of twenty validators 15 and 18 don't make the bundle of height 0 at once. Where one that does comes back it is asked next.
#[test]
fn who_makes_a_bundle_at_once_is_asked_first(rt: HostRuntime) {
    on_large_edge(&rt, try_who_makes_a_bundle_at_once_is_asked_first);
}

fn try_who_makes_a_bundle_at_once_is_asked_first<R: Abort + AllocGlobal>(
    rt: &R,
    edge: &mut PeerCore,
) {
    let ask = of_height(ASK, 0, 1);
    assert_same(rt, &falls_behind(rt, edge, &ask), &1);
    open(rt, edge, LinkId(3), Way::Dialed(5), 0);
    let _ = duties(edge, 500);
    assert_same(rt, &duties(edge, 1_000).asks, &1);
    assert_same(rt, &released(rt, edge, &ask, 1_000), &3);
}

/// Where none comes back the same one is asked again, which makes it for who has asked for five seconds.
#[test]
fn who_makes_a_bundle_later_is_asked_again(rt: HostRuntime) {
    on_large_edge(&rt, try_who_makes_a_bundle_later_is_asked_again);
}

fn try_who_makes_a_bundle_later_is_asked_again<R: Abort + AllocGlobal>(
    rt: &R,
    edge: &mut PeerCore,
) {
    let ask = of_height(ASK, 0, 1);
    assert_same(rt, &falls_behind(rt, edge, &ask), &1);
    for now in [1_000, 3_000, 7_000] {
        assert_same(rt, &duties(edge, now).asks, &1);
        assert_same(rt, &released(rt, edge, &ask, now), &1);
    }
}

/// Opens links 1 and 2 to validators 15 and 18, brings a frame of two heights later, and returns the links that the first ask goes to.
fn falls_behind<R: Abort + AllocGlobal>(rt: &R, edge: &mut PeerCore, ask: &[u8]) -> u32 {
    assert_same(rt, &released(rt, edge, &of_round(PREVOTE, 0, 1), 0), &0);
    open(rt, edge, LinkId(1), Way::Dialed(15), 0);
    open(rt, edge, LinkId(2), Way::Dialed(18), 0);
    let _ = duties(edge, 0);
    let later = of_height(ASK, 2, 15);
    came(edge, 1, &later, Err(Refusal::OtherHeight), 0, 0);
    assert_same(rt, &duties(edge, 0).asks, &1);
    released(rt, edge, ask, 0)
}

/// Of twenty validators the eight from number 5 on make the bundle of height 5 for whoever asks, and validator 1 only for who has asked for five seconds.
#[test]
fn in_a_large_cluster_eight_make_a_bundle(rt: HostRuntime) {
    on_large_edge(&rt, try_in_a_large_cluster_eight_make_a_bundle);
}

fn try_in_a_large_cluster_eight_make_a_bundle<R: Abort + AllocGlobal>(rt: &R, edge: &mut PeerCore) {
    dial_all(rt, edge);
    edge.told(30, 0);
    for (height, is_handed_in) in [(5, false), (13, false), (14, true), (1, true), (2, false)] {
        let ask = of_height(ASK, height, 2);
        assert_same(rt, &edge.expect(LinkId(2), &ask, 9_000), &is_handed_in);
    }
    let ask = of_height(ASK, 5, 0);
    assert!(rt; !edge.expect(LinkId(1), &ask, 9_000));
    assert!(rt; !edge.expect(LinkId(1), &ask, 13_999));
    assert!(rt; edge.expect(LinkId(1), &ask, 14_000));
}

/// A bundle that was made goes to any validator that asks for it, also from one that makes none for who has only just asked.
#[test]
fn in_a_large_cluster_a_made_bundle_goes_to_any(rt: HostRuntime) {
    on_large_edge(&rt, try_in_a_large_cluster_a_made_bundle_goes_to_any);
}

fn try_in_a_large_cluster_a_made_bundle_goes_to_any<R: Abort + AllocGlobal>(
    rt: &R,
    edge: &mut PeerCore,
) {
    dial_all(rt, edge);
    edge.told(30, 0);
    let ask = of_height(ASK, 5, 0);
    assert!(rt; !edge.expect(LinkId(1), &ask, 9_000));
    assert!(rt; edge.expect(LinkId(1), &ask, 14_000));
    let bundle = of_height(BUNDLE, 5, 1);
    assert_same(rt, &released(rt, edge, &bundle, 14_000), &1);
    let _ = duties(edge, 14_000);
    assert!(rt; !edge.expect(LinkId(2), &of_height(ASK, 5, 2), 14_000));
    assert_same(rt, &duties(edge, 14_000).sent, &1);
}

/// Where several ask for one height of whom nothing is known, one bundle a second is made for all of them.
#[test]
fn in_a_large_cluster_strangers_share_a_bundle(rt: HostRuntime) {
    on_large_edge(&rt, try_in_a_large_cluster_strangers_share_a_bundle);
}

fn try_in_a_large_cluster_strangers_share_a_bundle<R: Abort + AllocGlobal>(
    rt: &R,
    edge: &mut PeerCore,
) {
    edge.told(30, 0);
    for link in [7, 8, 9] {
        open(rt, edge, LinkId(link), Way::Accepted, 0);
    }
    assert!(rt; edge.expect(LinkId(7), &of_height(ASK, 1, 5), 5_000));
    assert!(rt; !edge.expect(LinkId(8), &of_height(ASK, 1, 6), 5_000));
    let bundle = of_height(BUNDLE, 1, 1);
    assert_same(rt, &released(rt, edge, &bundle, 5_000), &78);
    assert!(rt; !edge.expect(LinkId(9), &of_height(ASK, 1, 9), 5_999));
    assert!(rt; edge.expect(LinkId(9), &of_height(ASK, 1, 9), 6_000));
}

/// The own messages are sent again after 1, 3 and 7 seconds.
#[test]
fn own_messages_are_sent_again_by_doubling_pauses(rt: HostRuntime) {
    on_edge(
        &rt,
        GUARDED,
        try_own_messages_are_sent_again_by_doubling_pauses,
    );
}

fn try_own_messages_are_sent_again_by_doubling_pauses<R: Abort + AllocGlobal>(
    rt: &R,
    edge: &mut PeerCore,
) {
    dial_all(rt, edge);
    let _ = duties(edge, 0);
    let prevote = of_round(PREVOTE, 0, 1);
    assert_same(rt, &released(rt, edge, &prevote, 0), &123);
    assert_same(rt, &released(rt, edge, &prevote, 0), &0);
    for (second, sent) in [(1, 1), (2, 0), (3, 1), (4, 0), (5, 0), (6, 0), (7, 1)] {
        assert_same(rt, &duties(edge, second * 1_000).sent, &sent);
    }
}

/// With open links too the own messages are sent again after 1, 3 and 7 seconds.
#[test]
fn over_open_links_the_own_messages_are_sent_again_by_doubling_pauses(rt: HostRuntime) {
    on_edge(
        &rt,
        Manner::PLAIN,
        try_over_open_links_the_own_messages_are_sent_again_by_doubling_pauses,
    );
}

fn try_over_open_links_the_own_messages_are_sent_again_by_doubling_pauses<R: Abort + AllocGlobal>(
    rt: &R,
    edge: &mut PeerCore,
) {
    let _ = resends(edge, 0);
    for (second, again) in [(1, 1), (2, 0), (3, 1), (4, 0), (5, 0), (6, 0), (7, 1)] {
        assert_same(rt, &resends(edge, second * 1_000), &again);
    }
}

/// What another one said goes to one link at a time where a height stands still.
#[test]
fn what_others_said_is_passed_on_by_turns(rt: HostRuntime) {
    on_edge(&rt, GUARDED, try_what_others_said_is_passed_on_by_turns);
}

fn try_what_others_said_is_passed_on_by_turns<R: Abort + AllocGlobal>(rt: &R, edge: &mut PeerCore) {
    dial_all(rt, edge);
    let _ = duties(edge, 0);
    came(edge, 2, &of_round(PREVOTE, 0, 2), Ok(()), 0, 0);
    assert_same(rt, &duties(edge, 999).sent, &0);
    assert_same(rt, &duties(edge, 1_000).sent, &1);
    assert_same(rt, &duties(edge, 2_000).sent, &1);
}

/// A link that has opened is sent the own messages of the height, and an ask.
#[test]
fn who_comes_is_told_the_own_messages(rt: HostRuntime) {
    on_edge(&rt, GUARDED, try_who_comes_is_told_the_own_messages);
}

fn try_who_comes_is_told_the_own_messages<R: Abort + AllocGlobal>(rt: &R, edge: &mut PeerCore) {
    assert_same(rt, &released(rt, edge, &of_round(PREVOTE, 0, 1), 0), &0);
    open(rt, edge, LinkId(7), Way::Accepted, 0);
    assert_same(rt, &duties(edge, 0).sent, &0);
    asks(edge, 7, 2, 0);
    let done = duties(edge, 0);
    assert_same(rt, &(done.sent, done.asks), &(1, 1));
    assert_same(rt, &released(rt, edge, &of_height(ASK, 0, 1), 0), &7);
}

/// The front of a prevote of this round for a value, by a validator.
fn prevote_of(round: u8, sender: u8) -> [u8; 25] {
    let mut frame = of_round(PREVOTE, 0, sender);
    frame[16] = round;
    frame
}

/// The first frame that is to be sent, at most a thousand duties on.
fn first_sent(edge: &mut PeerCore, now: u64) -> Option<Sending> {
    for _ in 0..1_000 {
        if let Duty::Send(sending) = edge.next_duty(now)? {
            return Some(sending);
        }
    }
    None
}

/// The first frame that is to be sent is this one.
fn assert_sent_first<R: Abort>(rt: &R, edge: &mut PeerCore, now: u64, frame: &[u8]) {
    let sending = first_sent(edge, now).expect(rt, "a frame is to be sent");
    assert!(rt; sending.frame.as_slice() == frame);
}

/// Where the height stays, the prevotes by which a validator precommitted a value are passed on before all others.
#[test]
fn what_a_lock_rests_on_is_passed_on_first(rt: HostRuntime) {
    on_edge(&rt, GUARDED, try_what_a_lock_rests_on_is_passed_on_first);
}

fn try_what_a_lock_rests_on_is_passed_on_first<R: Abort + AllocGlobal>(
    rt: &R,
    edge: &mut PeerCore,
) {
    dial_all(rt, edge);
    let _ = duties(edge, 0);
    for round in [7, 8, 1, 9] {
        came(edge, 2, &prevote_of(round, 2), Ok(()), 0, 0);
    }
    let mut precommit = of_round(PRECOMMIT, 0, 1);
    precommit[16] = 1;
    assert_same(rt, &released(rt, edge, &precommit, 0), &123);
    assert_sent_first(rt, edge, 33_000, &precommit);
    assert_sent_first(rt, edge, 33_000, &prevote_of(1, 2));
}

/// A whole vote of height 0 for the value whose digest is this byte, again and again.
fn vote_for(kind: u8, round: u8, sender: u8, value: u8) -> [u8; 52] {
    let mut frame = [value; 52];
    frame[..20].copy_from_slice(&[
        0, 0, 0, 48, kind, 0, 0, 0, 0, 0, 0, 0, 0, 0, 0, 0, round, 0, sender, 1,
    ]);
    frame
}

/// A precommit says which prevotes it rests on: those of its round for its value. One of a lower round changes nothing.
#[test]
fn a_precommit_rests_on_the_prevotes_for_its_value(rt: HostRuntime) {
    let of_three = Grounds::after(None, &vote_for(PRECOMMIT, 3, 1, 5));
    let wanted = Grounds {
        round: 3,
        value: Some([5; 32]),
    };
    assert_same(&rt, &of_three, &Some(wanted));
    assert_same(
        &rt,
        &Grounds::after(of_three, &vote_for(PRECOMMIT, 2, 1, 6)),
        &Some(wanted),
    );
    assert_same(
        &rt,
        &Grounds::after(of_three, &vote_for(PREVOTE, 4, 1, 6)),
        &Some(wanted),
    );
    assert!(rt; wanted.includes(&vote_for(PREVOTE, 3, 2, 5)));
    assert!(rt; !wanted.includes(&vote_for(PREVOTE, 3, 2, 6)));
    assert!(rt; !wanted.includes(&vote_for(PREVOTE, 4, 2, 5)));
    assert!(rt; !wanted.includes(&vote_for(PRECOMMIT, 3, 2, 5)));
}

/// A Byzantine validator sends hundreds of votes before the one by which this validator locks a value: that one is passed on all the same,
/// and before all others.
#[test]
fn a_flood_hides_no_prevote_that_a_lock_rests_on(rt: HostRuntime) {
    on_edge(
        &rt,
        Manner::PLAIN,
        try_a_flood_hides_no_prevote_that_a_lock_rests_on,
    );
}

fn try_a_flood_hides_no_prevote_that_a_lock_rests_on<R: Abort + AllocGlobal>(
    rt: &R,
    edge: &mut PeerCore,
) {
    dial_all(rt, edge);
    let _ = duties(edge, 0);
    for value in 10..=250u8 {
        came(edge, 2, &vote_for(PREVOTE, 0, 2, value), Ok(()), 0, 0);
    }
    let prevote = vote_for(PREVOTE, 0, 2, 5);
    came(edge, 2, &prevote, Ok(()), 0, 0);
    let precommit = vote_for(PRECOMMIT, 0, 1, 5);
    assert_same(rt, &released(rt, edge, &precommit, 0), &123);
    assert_sent_first(rt, edge, 1_000, &prevote);
}
