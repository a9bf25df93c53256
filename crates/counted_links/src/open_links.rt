//! How many links are open.

use std::sync::atomic::{AtomicU64, Ordering};

/// How many links are open, as threads share it.
#[derive(Drop)]
pub struct OpenLinks {
    count: AtomicU64,
}

impl OpenLinks {
    /// None is open.
    pub fn new() -> OpenLinks {
        OpenLinks {
            count: AtomicU64::new(0),
        }
    }

    /// How many are open now.
    pub fn count(&self) -> u64 {
        self.count.load(Ordering::SeqCst)
    }
}

/// One open link among those that are counted.
pub(crate) struct Place<'a> {
    open: &'a OpenLinks,
}

impl<'a> Place<'a> {
    /// One more is open, until the place is let go.
    pub(crate) fn take(open: &'a OpenLinks) -> Place<'a> {
        open.count.fetch_add(1, Ordering::SeqCst);
        Place { open }
    }
}

impl Drop for Place<'_> {
    fn drop(self) {
        self.open.count.fetch_sub(1, Ordering::SeqCst);
        let Self { open: _ } = self;
    }
}
