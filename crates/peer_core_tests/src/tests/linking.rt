//! Which links are kept, and who is dialed.

use super::{
    ASK, GUARDED, PREVOTE, asks, assert_same, came, dial_all, duties, of_height, of_round, on_edge,
    on_edge_of, on_large_edge, open, released,
};
use edge_frames::LinkId;
use peer_core::{Duty, MOST_STRANGERS, Manner, OpenFault, PeerCore};
use peer_links::Way;
use protocol::Refusal;
use std::alloc::AllocGlobal;
use std::process::Abort;

/// Who is dialed at a time, as one number's digits behind a 1.
fn dialed(edge: &mut PeerCore, now: u64) -> u32 {
    let mut digits = 1u32;
    for _ in 0..4 {
        let Some(validator) = edge.next_dial(now) else {
            break;
        };
        digits = digits
            .saturating_mul(10)
            .saturating_add(u32::from(validator));
        edge.dialed(validator, false, now);
    }
    digits
}

#[test]
fn with_open_links_each_address_is_dialed_once(rt: HostRuntime) {
    on_edge(
        &rt,
        Manner::PLAIN,
        try_with_open_links_each_address_is_dialed_once,
    );
}

fn try_with_open_links_each_address_is_dialed_once<R: Abort + AllocGlobal>(
    rt: &R,
    edge: &mut PeerCore,
) {
    assert!(rt; !edge.dials_again());
    assert_same(rt, &dialed(edge, 0), &1_023);
    assert_same(rt, &dialed(edge, 1_000_000), &1);
}

/// The pause doubles with each failure, and a little is added to it.
#[test]
fn an_address_is_dialed_again(rt: HostRuntime) {
    on_edge(&rt, GUARDED, try_an_address_is_dialed_again);
}

fn try_an_address_is_dialed_again<R: Abort + AllocGlobal>(rt: &R, edge: &mut PeerCore) {
    assert!(rt; edge.dials_again());
    assert_same(rt, &dialed(edge, 0), &1_023);
    assert_same(rt, &dialed(edge, 999), &1);
    assert_same(rt, &dialed(edge, 1_125), &1_023);
    assert_same(rt, &dialed(edge, 3_124), &1);
    assert_same(rt, &dialed(edge, 3_250), &1_023);
}

/// An address with an open link isn't dialed, and is a second after it has ended.
#[test]
fn a_link_that_ended_comes_back(rt: HostRuntime) {
    on_edge(&rt, GUARDED, try_a_link_that_ended_comes_back);
}

fn try_a_link_that_ended_comes_back<R: Abort + AllocGlobal>(rt: &R, edge: &mut PeerCore) {
    dial_all(rt, edge);
    assert_same(rt, &dialed(edge, 5_000), &1);
    edge.ended(LinkId(2));
    assert_same(rt, &dialed(edge, 6_000), &12);
}

/// Dials whom it is time to dial, who are all reached by links of their numbers, and returns who they are, a bit for each.
fn dial_those_due<R: Abort>(rt: &R, edge: &mut PeerCore, now: u64) -> u32 {
    let mut dialed = 0u32;
    for _ in 0..20 {
        let Some(validator) = edge.next_dial(now) else {
            break;
        };
        edge.dialed(validator, true, now);
        open(
            rt,
            edge,
            LinkId(u32::from(validator)),
            Way::Dialed(validator),
            now,
        );
        dialed |= 1u32.checked_shl(u32::from(validator)).unwrap_or(0);
    }
    dialed
}

/// Of twenty validators, validator 1 dials 2 to 11 at once, and the others only where they haven't dialed it within a second.
#[test]
fn in_a_large_cluster_one_of_a_pair_dials(rt: HostRuntime) {
    on_large_edge(&rt, try_in_a_large_cluster_one_of_a_pair_dials);
}

fn try_in_a_large_cluster_one_of_a_pair_dials<R: Abort + AllocGlobal>(rt: &R, edge: &mut PeerCore) {
    assert_same(rt, &dial_those_due(rt, edge, 0), &0b1111_1111_1100);
    assert_same(rt, &dial_those_due(rt, edge, 999), &0);
    open(rt, edge, LinkId(50), Way::Accepted, 999);
    asks(edge, 50, 15, 999);
    assert_same(
        rt,
        &dial_those_due(rt, edge, 1_000),
        &0b1111_0111_0000_0000_0001,
    );
}

/// A link on which a validator has shown may have had nothing new to bring; eight heights later its validator is dialed. One that brought
/// something lately isn't.
#[test]
fn in_a_large_cluster_who_brings_nothing_is_dialed(rt: HostRuntime) {
    on_large_edge(&rt, try_in_a_large_cluster_who_brings_nothing_is_dialed);
}

fn try_in_a_large_cluster_who_brings_nothing_is_dialed<R: Abort + AllocGlobal>(
    rt: &R,
    edge: &mut PeerCore,
) {
    for (link, validator) in [(50, 15), (51, 16)] {
        open(rt, edge, LinkId(link), Way::Accepted, 0);
        asks(edge, link, validator, 0);
    }
    let _ = dial_those_due(rt, edge, 0);
    let _ = dial_those_due(rt, edge, 1_000);
    came(edge, 51, &of_round(PREVOTE, 7, 16), Ok(()), 7, 1_000);
    assert_same(rt, &dial_those_due(rt, edge, 2_000), &0);
    came(edge, 51, &of_round(PREVOTE, 8, 16), Ok(()), 8, 2_000);
    assert_same(rt, &dial_those_due(rt, edge, 3_000), &0b1000_0000_0000_0000);
}

/// Whom a validator of a large cluster is to dial it dials, also where a link shows that one already: it may be another one's.
#[test]
fn in_a_large_cluster_who_is_to_dial_dials(rt: HostRuntime) {
    on_large_edge(&rt, try_in_a_large_cluster_who_is_to_dial_dials);
}

fn try_in_a_large_cluster_who_is_to_dial_dials<R: Abort + AllocGlobal>(
    rt: &R,
    edge: &mut PeerCore,
) {
    open(rt, edge, LinkId(50), Way::Accepted, 0);
    asks(edge, 50, 5, 0);
    assert_same(rt, &dial_those_due(rt, edge, 0), &0b1111_1111_1100);
}

/// Of a validator's links that were accepted a new one takes the place of one that brought nothing, or nothing for long: links 4 and 5
/// brought something once, then link 6 comes.
#[test]
fn who_comes_back_gets_a_place(rt: HostRuntime) {
    on_edge(&rt, GUARDED, try_who_comes_back_gets_a_place);
}

fn try_who_comes_back_gets_a_place<R: Abort + AllocGlobal>(rt: &R, edge: &mut PeerCore) {
    dial_all(rt, edge);
    for link in [4, 5] {
        open(rt, edge, LinkId(link), Way::Accepted, 0);
        asks(edge, link, 0, 0);
        came(edge, link, &of_round(PREVOTE, 0, 0), Ok(()), 0, 0);
    }
    let _ = duties(edge, 0);
    open(rt, edge, LinkId(6), Way::Accepted, 0);
    asks(edge, 6, 0, 0);
    assert_same(rt, &closed(edge, 0), &6);
    came(edge, 3, &of_round(PREVOTE, 8, 3), Ok(()), 8, 0);
    open(rt, edge, LinkId(7), Way::Accepted, 0);
    came(
        edge,
        7,
        &of_height(ASK, 8, 0),
        Err(Refusal::OtherHeight),
        8,
        0,
    );
    assert_same(rt, &closed(edge, 0), &4);
}

/// The links that are to be closed, as one number's digits.
fn closed(edge: &mut PeerCore, now: u64) -> u32 {
    let mut digits = 0u32;
    for _ in 0..1_000 {
        match edge.next_duty(now) {
            Some(Duty::Close(link, _)) => digits = digits.saturating_mul(10).saturating_add(link.0),
            Some(_) => {}
            None => break,
        }
    }
    digits
}

/// Who turns from one validator into another again and again is closed, whatever it brings.
#[test]
fn who_turns_too_often_is_closed(rt: HostRuntime) {
    on_edge(&rt, GUARDED, try_who_turns_too_often_is_closed);
}

fn try_who_turns_too_often_is_closed<R: Abort + AllocGlobal>(rt: &R, edge: &mut PeerCore) {
    open(rt, edge, LinkId(4), Way::Accepted, 0);
    for validator in [0, 2, 0, 2] {
        asks(edge, 4, validator, 0);
        assert_same(rt, &closed(edge, 0), &0);
    }
    asks(edge, 4, 0, 0);
    assert_same(rt, &closed(edge, 0), &4);
}

/// What can be sent on again and again is no news: asks, and what is of a height that hasn't come.
#[test]
fn what_may_be_replayed_is_no_news(rt: HostRuntime) {
    on_edge(&rt, GUARDED, try_what_may_be_replayed_is_no_news);
}

fn try_what_may_be_replayed_is_no_news<R: Abort + AllocGlobal>(rt: &R, edge: &mut PeerCore) {
    for link in [4, 5] {
        open(rt, edge, LinkId(link), Way::Accepted, 0);
        asks(edge, link, 0, 0);
    }
    came(edge, 4, &of_round(PREVOTE, 0, 0), Ok(()), 0, 0);
    came(edge, 5, &of_height(ASK, 0, 0), Ok(()), 1, 0);
    came(
        edge,
        5,
        &of_height(ASK, 9, 0),
        Err(Refusal::OtherHeight),
        1,
        0,
    );
    assert_same(rt, &released(rt, edge, &of_round(PREVOTE, 0, 1), 1), &4);
}

/// An address whose turn it was waits until all others that are due had theirs.
#[test]
fn each_address_has_its_turn(rt: HostRuntime) {
    on_edge(&rt, GUARDED, try_each_address_has_its_turn);
}

fn try_each_address_has_its_turn<R: Abort + AllocGlobal>(rt: &R, edge: &mut PeerCore) {
    for (now, validator) in [(0, 0), (5_000, 2), (10_000, 3), (15_000, 0)] {
        assert_same(rt, &edge.next_dial(now), &Some(validator));
        edge.dialed(validator, false, now);
    }
}

#[test]
fn a_silent_validator_is_closed(rt: HostRuntime) {
    on_edge(&rt, GUARDED, try_a_silent_validator_is_closed);
}

fn try_a_silent_validator_is_closed<R: Abort + AllocGlobal>(rt: &R, edge: &mut PeerCore) {
    dial_all(rt, edge);
    for second in 1..=9u64 {
        assert_same(rt, &duties(edge, second * 1_000).closed, &0);
        if second == 5 {
            edge.heard(LinkId(1), 5_000);
        }
    }
    assert_same(rt, &duties(edge, 10_000).closed, &2);
    assert!(rt; edge.has_links());
}

/// Of forty-eight validators one may be silent for three times as long as of sixteen, and says something three times as seldom.
#[test]
fn in_a_large_cluster_silence_is_longer(rt: HostRuntime) {
    on_edge_of(
        &rt,
        1,
        48,
        GUARDED,
        try_in_a_large_cluster_silence_is_longer,
    );
}

fn try_in_a_large_cluster_silence_is_longer<R: Abort + AllocGlobal>(rt: &R, edge: &mut PeerCore) {
    dial_all(rt, edge);
    let _ = duties(edge, 0);
    for second in 1..=29u64 {
        let done = duties(edge, second * 1_000);
        assert_same(rt, &done.closed, &0);
        assert_same(rt, &done.asks, &u32::from(second >= 9));
    }
    assert_same(rt, &duties(edge, 30_000).closed, &3);
}

/// Where most of many validators are silent they have too much to do, as this one has: their links are given a minute.
#[test]
fn many_silent_validators_are_given_time(rt: HostRuntime) {
    on_edge_of(
        &rt,
        0,
        16,
        GUARDED,
        try_many_silent_validators_are_given_time,
    );
}

fn try_many_silent_validators_are_given_time<R: Abort + AllocGlobal>(rt: &R, edge: &mut PeerCore) {
    for other in 1..=15u16 {
        open(rt, edge, LinkId(u32::from(other)), Way::Dialed(other), 0);
    }
    for second in 1..=59u64 {
        assert_same(rt, &duties(edge, second * 1_000).closed, &0);
    }
    assert_same(rt, &duties(edge, 60_000).closed, &15);
}

/// A validator that was stopped for half a minute doesn't take the others for silent.
#[test]
fn a_time_that_stood_still_is_no_silence(rt: HostRuntime) {
    on_edge(&rt, GUARDED, try_a_time_that_stood_still_is_no_silence);
}

fn try_a_time_that_stood_still_is_no_silence<R: Abort + AllocGlobal>(rt: &R, edge: &mut PeerCore) {
    dial_all(rt, edge);
    assert_same(rt, &duties(edge, 1_000).closed, &0);
    assert_same(rt, &duties(edge, 31_000).closed, &0);
    assert_same(rt, &duties(edge, 32_000).closed, &0);
}

/// One stranger more than may be: the first one goes. One that has shown to be a validator stays.
#[test]
fn the_oldest_stranger_makes_room(rt: HostRuntime) {
    on_edge(&rt, GUARDED, try_the_oldest_stranger_makes_room);
}

fn try_the_oldest_stranger_makes_room<R: Abort + AllocGlobal>(rt: &R, edge: &mut PeerCore) {
    open(rt, edge, LinkId(0), Way::Accepted, 0);
    asks(edge, 0, 2, 0);
    for stranger in 1..=64u32 {
        open(
            rt,
            edge,
            LinkId(stranger),
            Way::Accepted,
            u64::from(stranger),
        );
    }
    assert_same(rt, &MOST_STRANGERS, &64);
    assert_same(rt, &duties(edge, 70).closed, &0);
    open(rt, edge, LinkId(65), Way::Accepted, 70);
    assert_same(rt, &duties(edge, 70).closed, &1);
}

/// A thousand frames that can't be used close a link.
#[test]
fn a_link_of_no_use_is_closed(rt: HostRuntime) {
    on_edge(&rt, Manner::PLAIN, try_a_link_of_no_use_is_closed);
}

fn try_a_link_of_no_use_is_closed<R: Abort + AllocGlobal>(rt: &R, edge: &mut PeerCore) {
    open(rt, edge, LinkId(0), Way::Accepted, 0);
    for _ in 0..999 {
        came(edge, 0, &[0, 0, 0, 1, 0x7f], Err(Refusal::BadKind), 0, 0);
    }
    assert_same(rt, &duties(edge, 0).closed, &0);
    came(edge, 0, &[0, 0, 0, 1, 0x7f], Err(Refusal::BadKind), 0, 0);
    assert_same(rt, &duties(edge, 0).closed, &1);
}

/// Three links of validators, of which one ends, one of a client and one of nobody who has shown.
#[test]
fn links_are_counted(rt: HostRuntime) {
    on_edge(&rt, GUARDED, try_links_are_counted);
}

fn try_links_are_counted<R: Abort + AllocGlobal>(rt: &R, edge: &mut PeerCore) {
    dial_all(rt, edge);
    edge.ended(LinkId(2));
    open(rt, edge, LinkId(7), Way::Accepted, 0);
    let counts = edge.link_counts();
    assert!(rt; (counts.validators, counts.clients, counts.strangers) == (2, 0, 1));
    assert!(rt; edge.kept() == 0);
}

/// An own message that comes back shows nobody: whoever sends it has heard it, as all have.
#[test]
fn an_own_message_shows_nobody(rt: HostRuntime) {
    on_edge(&rt, GUARDED, try_an_own_message_shows_nobody);
}

fn try_an_own_message_shows_nobody<R: Abort + AllocGlobal>(rt: &R, edge: &mut PeerCore) {
    open(rt, edge, LinkId(7), Way::Accepted, 0);
    let own = of_round(PREVOTE, 0, 1);
    came(edge, 7, &own, Err(Refusal::Repeat), 0, 0);
    let ask = of_height(ASK, 0, 1);
    came(edge, 7, &ask, Err(Refusal::OtherHeight), 0, 0);
    let counts = edge.link_counts();
    assert_same(rt, &(counts.strangers, counts.validators), &(1, 0));
    came(
        edge,
        7,
        &of_round(PREVOTE, 0, 2),
        Err(Refusal::Repeat),
        0,
        0,
    );
    assert_same(rt, &edge.link_counts().validators, &1);
    edge.told(1, 0);
    assert!(rt; !edge.expect(LinkId(7), &ask, 0));
}

/// No more than 384 links have a place; the next one is taken once one of them has ended.
#[test]
fn a_link_too_many_is_refused(rt: HostRuntime) {
    on_edge(&rt, GUARDED, try_a_link_too_many_is_refused);
}

fn try_a_link_too_many_is_refused<R: Abort + AllocGlobal>(rt: &R, edge: &mut PeerCore) {
    for number in 0..384 {
        open(rt, edge, LinkId(number), Way::Accepted, 0);
    }
    let refused = edge.opened(LinkId(384), Way::Accepted, 0);
    assert_same(rt, &refused, &Err(OpenFault::TooMany));
    edge.ended(LinkId(7));
    open(rt, edge, LinkId(384), Way::Accepted, 0);
}
