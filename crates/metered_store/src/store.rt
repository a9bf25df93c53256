//! The store, which passes each call on.

ghost use Rattle.std.specs.Prelude.{◌≡◌};

use node_meters::Meters;
use std::alloc::Global;
use std::time::{Clock, Duration};
use vote_journal::{DeviceFailed, Sink, Store, StoreFault};

/// A store whose syncs are counted, with the time that they take.
#[derive(Drop)]
pub struct MeteredStore<'a, S, R> {
    store: S,
    meters: &'a Meters,
    rt: &'a R,
}

impl<'a, S, R: Clock> MeteredStore<'a, S, R> {
    /// The store, whose syncs are counted by these meters.
    pub fn new(store: S, meters: &'a Meters, rt: &'a R) -> MeteredStore<'a, S, R>
        ensures { result.store ≡ store }
    {
        MeteredStore { store, meters, rt }
    }

    /// Returns the time of a clock that isn't set back, where there is one.
    fn time(&self) -> Option<Duration> {
        self.rt.monotonic().ok()
    }
}

/// Returns how many nanoseconds lie between two times, and 0 where one isn't known.
fn nanoseconds_between(began: Option<Duration>, ended: Option<Duration>) -> u64 {
    let (Some(began), Some(ended)) = (began, ended) else {
        return 0;
    };
    u64::try_from(ended.saturating_sub(began).as_nanos()).unwrap_or(u64::MAX)
}

impl<S: Store, R: Clock> Store for MeteredStore<'_, S, R> {
    ghost seen = { λ metered. S.seen metered.store };

    ghost may_leave = { λ metered. S.may_leave metered.store };

    ghost failures = { λ metered. S.failures metered.store };

    fn failures(&self) -> u64 {
        self.store.failures()
    }

    fn read<T: Sink>(&mut self, alloc: Global, sink: &mut T) -> Result<(), StoreFault> {
        self.store.read(alloc, sink)
    }

    fn append(&mut self, bytes: &[u8]) -> Result<(), StoreFault> {
        self.store.append(bytes)
    }

    fn cut(&mut self, len: usize) -> Result<(), DeviceFailed> {
        self.store.cut(len)
    }

    fn sync(&mut self) -> Result<(), DeviceFailed> {
        let began = self.time();
        let synced = self.store.sync();
        self.meters.synced(nanoseconds_between(began, self.time()));
        synced
    }
}
