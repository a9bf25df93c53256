//! Which of a validator's links is sent what all get.
//!
//! Both of two validators may have dialed the other, so there may be two links between them. Each uses the one that it dialed
//! itself, once something came back: it leads to the other's address, while on one that it accepted whoever is nearer can hand on
//! the other's frames, and so pass for it. Where none leads there, it uses the one on which something new of the other came last,
//! as who only replays has none.

use crate::link::PeerLink;

/// Returns whether a link is a better choice than another one of the same validator, where one that is silent for so many seconds
/// leads nowhere, and what it brought counts no more.
fn is_better(link: &PeerLink, other: &PeerLink, silent: u32) -> bool {
    if link.leads(silent) == other.leads(silent) {
        link.news_within(silent) > other.news_within(silent)
    } else {
        link.leads(silent)
    }
}

/// Returns the place of the best link of a validator. Among equal ones it is the first.
pub(crate) fn best_of(links: &[PeerLink], validator: u16, silent: u32) -> Option<usize> {
    let mut best: Option<usize> = None;
    for (place, link) in links.iter().enumerate() {
        if link.is_of(validator) && is_first_or_better(links, link, best, silent) {
            best = Some(place);
        }
    }
    best
}

/// Returns whether a link is better than the best one before it, if there is one.
fn is_first_or_better(
    links: &[PeerLink],
    link: &PeerLink,
    best: Option<usize>,
    silent: u32,
) -> bool {
    match best {
        Some(place) => links
            .get(place)
            .is_none_or(|other| is_better(link, other, silent)),
        None => true,
    }
}

/// Marks the link at this place as its validator's chosen one, and no other of its links.
pub(crate) fn mark_chosen(links: &mut [PeerLink], validator: u16, chosen: Option<usize>) {
    for place in 0..links.len() {
        if links[place].validator() == Some(validator) {
            links[place].is_chosen = chosen == Some(place);
        }
    }
}
