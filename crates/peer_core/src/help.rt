//! What is done for those who ask for bundles.

use crate::heading::heading_of;
use crate::link::AGAIN_MS;
use crate::own::OwnFrames;
use bytes::Bytes;
use std::alloc::Global;

/// When a height's bundle was made.
#[derive(Clone, Copy, Debug)]
struct MadeBundle {
    height: u64,
    at: u64,
}

/// The bundles that were made.
#[derive(Debug, Drop)]
pub(crate) struct Help {
    /// The bundles that the node made last, for who asks for one of them next.
    bundles: OwnFrames,
    /// The last of them.
    last: Option<MadeBundle>,
}

impl Help {
    /// Nobody has asked. It takes no memory.
    pub(crate) fn new(alloc: Global) -> Help {
        Help {
            bundles: OwnFrames::new(alloc),
            last: None,
        }
    }

    /// Keeps this height's bundle, which was made now. Without memory for it, it is made once more.
    pub(crate) fn keep(&mut self, frame: &Bytes, height: u64, now: u64) {
        self.last = Some(MadeBundle { height, at: now });
        let _ = self.bundles.keep(frame);
    }

    /// Returns this height's bundle, if it is one of those that the node made last.
    pub(crate) fn made(&self, height: u64) -> Option<Bytes> {
        let found = self.bundles.frames().iter().find(|made| heading_of(&made.frame).is_ok_and(
            |heading| heading.height == height,
        ))?;
        found.frame.clone().ok()
    }

    /// Returns whether this height's bundle was the last one that was made, within the last second. Who has shown nothing, but for an ask that the node
    /// wasn't handed, gets the next one, so that many of them have one made each second, and not each of them.
    pub(crate) fn made_lately(&self, height: u64, now: u64) -> bool {
        self.last.is_some_and(|made| {
            made.height == height && now.saturating_sub(made.at) < AGAIN_MS
        })
    }
}
