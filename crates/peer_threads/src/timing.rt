//! The thread of the time.

ghost use Rattle.std.specs.Prelude.{◌≡◌, ◌-◌, min};

use crate::shared::Shared;
use log::Log;
use node_meters::Links;
use peer_core::LinkCounts;
use peer_links::Clock;
use status_words::Node;
use std::sync::Wait;
use std::thread::Threads;
use std::time;
use vote_journal::Store;

/// How long the timer waits at most, in milliseconds. Where another thread brings something that is due before, it wakes the timer.
pub const MOST_WAIT_MS: u64 = 1_000;

/// How long it is between two looks at what the node and the edge have, in milliseconds.
const MEASURE_MS: u64 = 1_000;

/// How long the timer waits now: until what comes next, but no longer than a second.
pub fn wait_until(now: u64, next: u64) -> u64
    ensures { result ≡ min (next - now) 1000 }
{
    next.saturating_sub(now).min(MOST_WAIT_MS)
}

/// The same counts, as meters show them.
fn links_of(counts: LinkCounts) -> Links
    ensures { (result.validators ≡ counts.validators) × (result.clients ≡ counts.clients) × (result.strangers ≡ counts.strangers) }
{
    Links {
        validators: counts.validators as u64,
        clients: counts.clients as u64,
        strangers: counts.strangers as u64,
    }
}

impl<S: Store + Drop, J: Node, C: Clock> Shared<'_, S, J, C> {
    /// Does what is due at its time, until all ends.
    pub(crate) fn run_timer<R: Threads + Wait + time::Clock + Log + Sync>(&self, rt: &R) {
        let mut seat = self.node.seat(rt);
        let mut due = 0;
        for _ in rt.forever() {
            if self.has_ended(rt) {
                break;
            }
            self.follow(rt, &mut seat);
            self.look(rt, &mut seat);
            due = self.measure_at(rt, due);
            self.wait(rt, due);
        }
    }

    /// Measures where it is due, and returns when it is due again.
    fn measure_at<R: Wait + time::Clock>(&self, rt: &R, due: u64) -> u64 {
        let now = self.clock.now_ms(rt);
        if now < due {
            return due;
        }
        self.measure(rt);
        now.saturating_add(MEASURE_MS)
    }

    /// Notes what the node and the edge have now.
    fn measure<R: Wait>(&self, rt: &R) {
        let gauges = self.node.gauges(rt);
        self.meters.set_step(gauges.round, gauges.step);
        self.meters.set_queued(gauges.queued);
        let desk = self.desk.lock(rt);
        self.meters.set_links(links_of(desk.core.link_counts()));
        self.meters.set_kept(desk.core.kept() as u64);
        self.meters.set_dropped(desk.lost());
    }

    /// Waits for what comes next and until it is to be measured, or until another thread brings something that comes before that.
    fn wait<R: Wait + time::Clock>(&self, rt: &R, due: u64) {
        let now = self.clock.now_ms(rt);
        let next = self.desk.lock(rt).sleeps_from(now).min(due);
        self.clock
            .wait_for_ring(rt, &self.alarm, wait_until(now, next));
    }
}
