//! To whom a frame goes.

use super::{
    ASK, BUNDLE, GUARDED, PRECOMMIT, PREVOTE, PROPOSAL, asks, assert_same, came, dial_all, duties,
    of_height, of_round, on_edge, on_edge_of, open, released, resends,
};
use edge_frames::LinkId;
use peer_core::{Duty, Manner, PeerCore};
use peer_links::Way;
use protocol::Refusal;
use std::alloc::AllocGlobal;
use std::process::Abort;

#[test]
fn with_open_links_every_frame_goes_to_every_link(rt: HostRuntime) {
    on_edge(
        &rt,
        Manner::PLAIN,
        try_with_open_links_every_frame_goes_to_every_link,
    );
}

fn try_with_open_links_every_frame_goes_to_every_link<R: Abort + AllocGlobal>(
    rt: &R,
    edge: &mut PeerCore,
) {
    dial_all(rt, edge);
    open(rt, edge, LinkId(4), Way::Accepted, 0);
    assert_same(rt, &released(rt, edge, &of_round(PREVOTE, 0, 1), 0), &1_234);
    assert_same(rt, &released(rt, edge, &of_height(ASK, 0, 1), 0), &1_234);
}

#[test]
fn a_stranger_is_sent_nothing(rt: HostRuntime) {
    on_edge(&rt, GUARDED, try_a_stranger_is_sent_nothing);
}

fn try_a_stranger_is_sent_nothing<R: Abort + AllocGlobal>(rt: &R, edge: &mut PeerCore) {
    open(rt, edge, LinkId(1), Way::Accepted, 0);
    open(rt, edge, LinkId(2), Way::Dialed(2), 0);
    assert_same(rt, &released(rt, edge, &of_round(PREVOTE, 0, 1), 0), &2);
    asks(edge, 1, 0, 1);
    assert_same(rt, &released(rt, edge, &of_round(PREVOTE, 1, 1), 2), &12);
}

/// Of a validator's links the one that was dialed here is used, once something of that validator's came on it; else the one that brought
/// news last.
#[test]
fn one_link_of_a_validator_is_used(rt: HostRuntime) {
    on_edge(&rt, GUARDED, try_one_link_of_a_validator_is_used);
}

fn try_one_link_of_a_validator_is_used<R: Abort + AllocGlobal>(rt: &R, edge: &mut PeerCore) {
    dial_all(rt, edge);
    for link in [(4, 0), (5, 2), (6, 0)] {
        open(rt, edge, LinkId(link.0), Way::Accepted, 0);
        asks(edge, link.0, link.1, 1);
    }
    came(edge, 4, &of_round(PREVOTE, 0, 0), Ok(()), 0, 2);
    assert_same(rt, &released(rt, edge, &of_round(PREVOTE, 0, 1), 2), &234);
    asks(edge, 1, 0, 3);
    came(edge, 5, &of_round(PREVOTE, 0, 2), Ok(()), 0, 3);
    assert_same(rt, &released(rt, edge, &of_round(PREVOTE, 1, 1), 3), &135);
    came(edge, 2, &of_round(PREVOTE, 1, 2), Ok(()), 0, 4);
    assert_same(rt, &released(rt, edge, &of_round(PREVOTE, 2, 1), 4), &123);
    edge.ended(LinkId(1));
    assert_same(rt, &released(rt, edge, &of_round(PREVOTE, 3, 1), 5), &234);
    came(edge, 6, &of_round(PREVOTE, 1, 0), Ok(()), 0, 6);
    assert_same(rt, &released(rt, edge, &of_round(PREVOTE, 4, 1), 6), &236);
    edge.ended(LinkId(2));
    assert_same(rt, &released(rt, edge, &of_round(PREVOTE, 5, 1), 7), &356);
}

/// Whose address was dialed stays behind the link, whatever the other end hands on.
#[test]
fn a_dialed_link_stays_its_validators(rt: HostRuntime) {
    on_edge(&rt, GUARDED, try_a_dialed_link_stays_its_validators);
}

fn try_a_dialed_link_stays_its_validators<R: Abort + AllocGlobal>(rt: &R, edge: &mut PeerCore) {
    dial_all(rt, edge);
    asks(edge, 2, 2, 1);
    asks(edge, 1, 2, 1);
    came(edge, 1, &of_round(PREVOTE, 0, 2), Ok(()), 0, 1);
    assert_same(rt, &released(rt, edge, &of_round(PREVOTE, 0, 1), 2), &123);
    edge.ended(LinkId(2));
    assert_same(rt, &released(rt, edge, &of_round(PREVOTE, 1, 1), 3), &13);
}

/// A dialed link that has been silent for nine seconds is left for one that brought news, until it is heard again.
#[test]
fn a_dead_dialed_link_is_left(rt: HostRuntime) {
    on_edge(&rt, GUARDED, try_a_dead_dialed_link_is_left);
}

fn try_a_dead_dialed_link_is_left<R: Abort + AllocGlobal>(rt: &R, edge: &mut PeerCore) {
    dial_all(rt, edge);
    asks(edge, 1, 0, 0);
    open(rt, edge, LinkId(4), Way::Accepted, 0);
    asks(edge, 4, 0, 0);
    came(edge, 4, &of_round(PREVOTE, 0, 0), Ok(()), 0, 0);
    for second in 1..=8u64 {
        edge.heard(LinkId(4), second * 1_000);
        let _ = duties(edge, second * 1_000);
    }
    assert_same(
        rt,
        &released(rt, edge, &of_round(PREVOTE, 0, 1), 8_500),
        &123,
    );
    edge.heard(LinkId(4), 8_500);
    let _ = duties(edge, 9_000);
    assert_same(
        rt,
        &released(rt, edge, &of_round(PREVOTE, 1, 1), 9_500),
        &234,
    );
    edge.heard(LinkId(1), 9_600);
    edge.heard(LinkId(4), 9_600);
    let _ = duties(edge, 10_000);
    assert_same(
        rt,
        &released(rt, edge, &of_round(PREVOTE, 2, 1), 10_500),
        &1,
    );
}

/// A link that takes over where one ended is sent the own messages.
#[test]
fn who_takes_over_is_told_the_own_messages(rt: HostRuntime) {
    on_edge(&rt, GUARDED, try_who_takes_over_is_told_the_own_messages);
}

fn try_who_takes_over_is_told_the_own_messages<R: Abort + AllocGlobal>(
    rt: &R,
    edge: &mut PeerCore,
) {
    dial_all(rt, edge);
    asks(edge, 1, 0, 0);
    open(rt, edge, LinkId(4), Way::Accepted, 0);
    asks(edge, 4, 0, 0);
    let _ = duties(edge, 0);
    assert_same(rt, &released(rt, edge, &of_round(PREVOTE, 0, 1), 1), &123);
    assert_same(rt, &duties(edge, 1).sent, &0);
    edge.ended(LinkId(1));
    assert_same(rt, &duties(edge, 2).sent, &1);
}

/// The kind of the frame that is to be sent first.
fn first_kind_sent(edge: &mut PeerCore, now: u64) -> Option<u8> {
    for _ in 0..1_000 {
        if let Duty::Send(sending) = edge.next_duty(now)? {
            return sending.frame.as_slice().get(4).copied();
        }
    }
    None
}

/// Of the own messages that are sent again the newest go first.
#[test]
fn the_newest_own_message_is_sent_again_first(rt: HostRuntime) {
    on_edge(&rt, GUARDED, try_the_newest_own_message_is_sent_again_first);
}

fn try_the_newest_own_message_is_sent_again_first<R: Abort + AllocGlobal>(
    rt: &R,
    edge: &mut PeerCore,
) {
    dial_all(rt, edge);
    let _ = duties(edge, 0);
    for kind in [PREVOTE, PRECOMMIT] {
        assert_same(rt, &released(rt, edge, &of_round(kind, 0, 1), 0), &123);
    }
    assert_same(rt, &first_kind_sent(edge, 1_000), &Some(PRECOMMIT));
}

/// A bundle goes to who asked for its height, and not again within a second.
#[test]
fn a_bundle_goes_to_who_asked(rt: HostRuntime) {
    on_edge(&rt, GUARDED, try_a_bundle_goes_to_who_asked);
}

fn try_a_bundle_goes_to_who_asked<R: Abort + AllocGlobal>(rt: &R, edge: &mut PeerCore) {
    dial_all(rt, edge);
    let bundle = of_height(BUNDLE, 0, 1);
    assert_same(rt, &released(rt, edge, &bundle, 0), &0);
    came(edge, 2, &of_height(ASK, 0, 2), Ok(()), 1, 0);
    assert_same(rt, &released(rt, edge, &bundle, 0), &2);
    came(edge, 2, &of_height(ASK, 0, 2), Ok(()), 1, 500);
    assert_same(rt, &released(rt, edge, &bundle, 500), &0);
    came(edge, 2, &of_height(ASK, 0, 2), Ok(()), 1, 1_000);
    assert_same(rt, &released(rt, edge, &bundle, 1_000), &2);
}

/// A proposal of no transactions waits, and the vote behind it; then both go out in their order.
#[test]
fn an_idle_proposal_waits(rt: HostRuntime) {
    let manner = Manner {
        idle: 500,
        ..GUARDED
    };
    on_edge(&rt, manner, try_an_idle_proposal_waits);
}

fn try_an_idle_proposal_waits<R: Abort + AllocGlobal>(rt: &R, edge: &mut PeerCore) {
    dial_all(rt, edge);
    let _ = duties(edge, 0);
    assert_same(rt, &released(rt, edge, &of_round(PROPOSAL, 0, 1), 0), &0);
    assert_same(rt, &released(rt, edge, &of_round(PREVOTE, 0, 1), 0), &0);
    assert_same(rt, &duties(edge, 499).sent, &0);
    assert_same(rt, &duties(edge, 500).sent, &2);
}

/// The node is asked once for a bundle: who asks meanwhile waits for it, and who asks later is sent the frame that was made.
#[test]
fn who_asks_for_one_bundle_shares_it(rt: HostRuntime) {
    on_edge(&rt, GUARDED, try_who_asks_for_one_bundle_shares_it);
}

fn try_who_asks_for_one_bundle_shares_it<R: Abort + AllocGlobal>(rt: &R, edge: &mut PeerCore) {
    dial_all(rt, edge);
    edge.told(1, 0);
    assert!(rt; edge.expect(LinkId(1), &of_height(ASK, 0, 0), 0));
    assert!(rt; !edge.expect(LinkId(2), &of_height(ASK, 0, 2), 0));
    assert_same(rt, &released(rt, edge, &of_height(BUNDLE, 0, 1), 0), &12);
    let _ = duties(edge, 0);
    assert!(rt; !edge.expect(LinkId(3), &of_height(ASK, 0, 3), 0));
    assert_same(rt, &duties(edge, 0).sent, &1);
    assert!(rt; !edge.expect(LinkId(1), &of_height(ASK, 0, 0), 500));
    assert_same(rt, &duties(edge, 500).sent, &0);
    assert!(rt; edge.expect(LinkId(1), &of_height(ASK, 1, 0), 500));
}

/// A node that takes long to make a bundle isn't asked for it again before a minute has passed. Once it is made it may be.
#[test]
fn a_bundle_is_made_once_however_long_it_takes(rt: HostRuntime) {
    on_edge(
        &rt,
        GUARDED,
        try_a_bundle_is_made_once_however_long_it_takes,
    );
}

fn try_a_bundle_is_made_once_however_long_it_takes<R: Abort + AllocGlobal>(
    rt: &R,
    edge: &mut PeerCore,
) {
    dial_all(rt, edge);
    edge.told(1, 0);
    assert!(rt; edge.expect(LinkId(1), &of_height(ASK, 0, 0), 0));
    assert!(rt; !edge.expect(LinkId(2), &of_height(ASK, 0, 2), 59_000));
    assert!(rt; edge.expect(LinkId(3), &of_height(ASK, 0, 3), 60_000));
}

/// Of 128 validators none has this one make bundles without end: one of 400,000 bytes costs its link more than fifty seconds, of which ten are free.
/// Another validator's asks aren't touched, nor those on another link of the same one, on which somebody else may pass for it.
#[test]
fn who_asks_for_much_waits(rt: HostRuntime) {
    on_edge_of(&rt, 1, 128, GUARDED, try_who_asks_for_much_waits);
}

fn try_who_asks_for_much_waits<R: Abort + AllocGlobal>(rt: &R, edge: &mut PeerCore) {
    dial_all(rt, edge);
    open(rt, edge, LinkId(5), Way::Accepted, 0);
    came(
        edge,
        5,
        &of_round(PREVOTE, 0, 2),
        Err(Refusal::Repeat),
        0,
        0,
    );
    edge.told(1_000, 0);
    assert!(rt; edge.expect(LinkId(2), &of_height(ASK, 0, 2), 9_000));
    assert_same(rt, &released(rt, edge, &bundle_of(0), 9_000), &2);
    assert!(rt; !edge.expect(LinkId(2), &of_height(ASK, 1, 2), 9_000));
    assert!(rt; edge.expect(LinkId(3), &of_height(ASK, 1, 3), 9_000));
    assert_same(rt, &released(rt, edge, &bundle_of(1), 9_000), &23);
    assert!(rt; edge.expect(LinkId(5), &of_height(ASK, 122, 2), 9_000));
    edge.ended(LinkId(2));
    open(rt, edge, LinkId(6), Way::Dialed(2), 9_000);
    assert!(rt; !edge.expect(LinkId(6), &of_height(ASK, 123, 2), 51_002));
    assert!(rt; edge.expect(LinkId(6), &of_height(ASK, 124, 2), 51_003));
}

/// A long bundle of this height.
fn bundle_of(height: u8) -> [u8; 400_000] {
    let mut bundle = [0; 400_000];
    bundle[..15].copy_from_slice(&of_height(BUNDLE, height, 1));
    bundle
}

/// Who asks for two kept bundles in turn is sent no more of them than it may be, and again once a while has passed.
#[test]
fn kept_bundles_cost_their_asker(rt: HostRuntime) {
    on_edge_of(&rt, 1, 128, GUARDED, try_kept_bundles_cost_their_asker);
}

fn try_kept_bundles_cost_their_asker<R: Abort + AllocGlobal>(rt: &R, edge: &mut PeerCore) {
    dial_all(rt, edge);
    edge.told(1_000, 0);
    for (height, sender, link) in [(0, 3, 3), (1, 0, 1)] {
        assert!(rt; edge.expect(LinkId(link), &of_height(ASK, height, sender), 9_000));
        assert_same(rt, &released(rt, edge, &bundle_of(height), 9_000), &link);
    }
    let _ = duties(edge, 9_000);
    for _ in 0..500 {
        let _ = edge.expect(LinkId(2), &of_height(ASK, 0, 2), 9_000);
        let _ = edge.expect(LinkId(2), &of_height(ASK, 1, 2), 9_000);
    }
    assert_same(rt, &duties(edge, 9_000).sent, &25);
    let _ = edge.expect(LinkId(2), &of_height(ASK, 0, 2), 10_000);
    assert_same(rt, &duties(edge, 10_000).sent, &1);
}

/// An ask that comes on a link which has ended or is closed isn't handed in: nobody would get its bundle.
#[test]
fn asks_behind_a_links_end_are_passed_over(rt: HostRuntime) {
    on_edge(&rt, GUARDED, try_asks_behind_a_links_end_are_passed_over);
}

fn try_asks_behind_a_links_end_are_passed_over<R: Abort + AllocGlobal>(
    rt: &R,
    edge: &mut PeerCore,
) {
    dial_all(rt, edge);
    edge.told(5, 0);
    let ask = of_height(ASK, 0, 2);
    edge.ended(LinkId(2));
    assert!(rt; !edge.expect(LinkId(2), &ask, 0));
    for number in 10..75 {
        open(rt, edge, LinkId(number), Way::Accepted, 0);
    }
    assert!(rt; !edge.expect(LinkId(10), &ask, 0));
    assert!(rt; edge.expect(LinkId(11), &ask, 0));
}

/// A stranger whose asks are nobody's doesn't keep a validator from being answered.
#[test]
fn false_asks_keep_nobody_waiting(rt: HostRuntime) {
    on_edge(&rt, GUARDED, try_false_asks_keep_nobody_waiting);
}

fn try_false_asks_keep_nobody_waiting<R: Abort + AllocGlobal>(rt: &R, edge: &mut PeerCore) {
    dial_all(rt, edge);
    open(rt, edge, LinkId(7), Way::Accepted, 0);
    edge.told(1, 0);
    let ask = of_height(ASK, 0, 3);
    came(edge, 7, &ask, Err(Refusal::BadTag), 1, 0);
    assert!(rt; edge.expect(LinkId(7), &ask, 1));
    assert!(rt; edge.expect(LinkId(1), &of_height(ASK, 0, 0), 1));
}

/// Where memory was refused for an own message, the node is to release its own messages again at the next tick, once.
#[test]
fn what_was_lost_is_released_again(rt: HostRuntime) {
    on_edge(&rt, GUARDED, try_what_was_lost_is_released_again);
}

fn try_what_was_lost_is_released_again<R: Abort + AllocGlobal>(rt: &R, edge: &mut PeerCore) {
    assert_same(rt, &resends(edge, 0), &1);
    edge.lost();
    assert_same(rt, &resends(edge, 999), &0);
    assert_same(rt, &resends(edge, 1_000), &1);
    assert_same(rt, &resends(edge, 2_000), &0);
}
