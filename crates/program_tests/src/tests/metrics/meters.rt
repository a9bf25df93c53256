//! Meters, and a store whose syncs are counted.

use metered_store::MeteredStore;
use node_meters::{Links, Meters, Sample, Syncs, Traffic};
use protocol::{Refusal, Step, SubmitFault};
use std::process::Abort;
use std::test::Fail;
use vote_journal::{MemoryStore, Sink, Store};

/// Meters on which everything was counted.
pub(super) fn meters() -> Meters {
    let meters = Meters::new();
    meters.received_bytes(100);
    meters.received_frame();
    meters.received_frame();
    meters.sent_bytes(70);
    meters.sent_frame();
    meters.fired_timeout();
    meters.refused(Refusal::Truncated);
    meters.refused(Refusal::Submit(SubmitFault::Gap));
    meters.refused(Refusal::Submit(SubmitFault::BadTag));
    meters.refused(Refusal::JournalFailed);
    meters.synced(1_500_000_000);
    meters.synced(2_000_000);
    meters.decided(5_000);
    meters.set_step(3, Step::Prevote);
    meters.set_queued(8);
    meters.set_kept(9);
    meters.set_dropped(4);
    meters.set_links(Links {
        validators: 3,
        clients: 2,
        strangers: 1,
    });
    meters
}

#[test]
fn what_is_counted_is_shown(rt: HostRuntime) {
    assert_sample(&rt, &meters().sample());
}

fn assert_sample(rt: &impl Abort, sample: &Sample) {
    assert!(rt; sample.round == 3 && sample.step == Step::Prevote);
    assert!(rt; (sample.queued, sample.kept) == (8, 9));
    assert!(rt; (sample.timeouts, sample.decided) == (1, 5_000));
    assert_traffic(rt, sample.traffic);
    let syncs = Syncs {
        count: 2,
        nanoseconds: 1_502_000_000,
    };
    assert!(rt; sample.syncs == syncs);
    assert_refusals(rt, sample);
}

fn assert_traffic(rt: &impl Abort, traffic: Traffic) {
    let wanted = Traffic {
        frames_received: 2,
        bytes_received: 100,
        frames_sent: 1,
        bytes_sent: 70,
        frames_dropped: 4,
    };
    assert!(rt; traffic == wanted);
}

/// The refusals 1, 13 twice and 17.
fn assert_refusals(rt: &impl Abort, sample: &Sample) {
    let mut sum: u64 = 0;
    for refused in &sample.refusals {
        let weight = (refused.number as u64).saturating_mul(refused.count);
        sum = sum.saturating_add(weight);
    }
    assert!(rt; sum == 1 + 2 * 13 + 17);
}

/// All that a store gives.
#[derive(Drop)]
struct Given {
    bytes: Vec<u8>,
    is_whole: bool,
}

impl Sink for Given {
    ghost becomes = { λ _ _ _. Unit {0} };

    fn take(&mut self, piece: &[u8]) {
        self.is_whole &= self.bytes.extend_from_slice(piece).is_ok();
    }
}

#[test]
fn syncs_are_counted(rt: HostRuntime) -> Result<(), Fail> {
    let meters = Meters::new();
    let held = MemoryStore::new(vec![in rt.alloc(); 1u8]?, 4, 0);
    let mut store = MeteredStore::new(held, &meters, &rt);
    assert!(rt; store.append(&[2, 3]).is_ok());
    assert!(rt; store.cut(2).is_ok());
    assert!(rt; store.sync().is_ok());
    assert!(rt; store.sync().is_err());
    assert!(rt; store.failures() == 1);
    let mut given = Given {
        bytes: Vec::new(rt.alloc()),
        is_whole: true,
    };
    store.read(rt.alloc(), &mut given)?;
    assert!(rt; given.is_whole && given.bytes.as_slice() == [1u8, 2].as_slice());
    assert!(rt; meters.sample().syncs.count == 2);
    Ok(())
}
