//! What the validator reports over HTTP.

use locked_node::LockedNode;
use log::{Log, warn};
use node_meters::Meters;
use node_metrics::{RecentRate, Report, Server, Turn};
use node_settings::VERSION;
use peer_links::Clock;
use peer_threads::Bell;
use status_words::{Node, Seat};
use std::alloc::Global;
use std::net::TcpListener;
use std::sync::Wait;
use std::time::Duration;
use std::{io, thread, time};
use vote_journal::Store;

/// How long it waits where nobody is there, in milliseconds.
const TURN_MS: u64 = 250;

/// The same where somebody is there who does nothing.
const SHORT_TURN_MS: u64 = 5;

/// The same where nobody can be let in.
const FAILED_TURN_MS: u64 = 200;

/// What is reported, and where it comes from.
#[derive(Drop)]
struct Reporter<'a, J: Node> {
    seat: Seat<J>,
    rate: RecentRate,
    meters: &'a Meters,
}

impl<J: Node> Reporter<'_, J> {
    /// Returns what is reported now, which takes no lock.
    fn report<S: Store + Drop>(&mut self, node: &LockedNode<S, J>, now: u64) -> Report {
        let status = node.status(&mut self.seat);
        let sample = self.meters.sample();
        Report {
            version: VERSION,
            height: status.height,
            delivered: status.delivered,
            rate: self.rate.note(now, status.delivered),
            undecided: now.saturating_sub(sample.decided),
            sample,
        }
    }
}

/// Answers requests until the node's threads have ended, as the bell says.
pub(crate) fn report_until_end<S: Store + Drop, J: Node, C: Clock, R: Wait + time::Clock + Log>(
    rt: &R,
    alloc: Global,
    node: &LockedNode<S, J>,
    meters: &Meters,
    listener: &TcpListener,
    clock: &C,
    bell: &Bell,
) {
    let mut seat = node.seat(rt);
    let delivered = node.status(&mut seat).delivered;
    let mut reporter = Reporter {
        seat,
        rate: RecentRate::new(clock.now_ms(rt), delivered),
        meters,
    };
    let mut server = Server::new(alloc);
    for _ in rt.forever() {
        if bell.is_over(rt) {
            break;
        }
        let now = clock.now_ms(rt);
        let report = reporter.report(node, now);
        let pause = pause_after(rt, server.turn(listener, &report, now));
        if pause > 0 {
            thread::sleep(rt, Duration::from_millis(pause));
        }
    }
}

/// Returns for how many milliseconds it waits after a turn, and logs one that failed.
fn pause_after<R: Log>(rt: &R, turn: io::Result<Turn>) -> u64 {
    match turn {
        Ok(Turn::Busy) => 0,
        Ok(Turn::Waiting) => SHORT_TURN_MS,
        Ok(Turn::Empty) => TURN_MS,
        Err(error) => {
            warn!(rt; "nobody can ask for metrics: {error}");
            FAILED_TURN_MS
        }
    }
}
