//! Whether frames that came before their height are handed in once it has come.

ghost use Rattle.std.specs.Prelude.{◌≡◌, ◌==◌, ◌+◌, ◌<◌, ◌≤◌, Some, None, Err, OnOk};
ghost use Rattle.std.specs.List.{find};
ghost use Rattle.cluster_checks.specs.declared.kinds.Heading.{Heading};
ghost use Rattle.cluster_checks.specs.declared.kinds.Kind.TheVariants.{Ask};
ghost use Rattle.protocol.specs.declared.refusal.Refusal.TheVariants.{OtherHeight};
ghost use Rattle.cluster_checks.specs.Watching.{early_of, KeepsOtherLinks};

use crate::kinds::{Heading, Kind};
use protocol::Refusal;
use std::alloc::{AllocError, Global};
use std::collections::BTreeMap;

/// Of each link the first frame of the next height that came too early. A validator's edge has room for it whatever else the link
/// brings, so it has to be handed in when its height has come.
#[derive(Drop)]
pub struct EarlyWatch {
    first: BTreeMap<u32, Heading>,
}

impl EarlyWatch {
    /// No frame yet. It takes no memory.
    pub fn new(alloc: Global) -> EarlyWatch {
        EarlyWatch {
            first: BTreeMap::new(alloc),
        }
    }

    /// Notes how a link's frame was answered by a node that is then at this height.
    pub fn answered(
        &mut self,
        link: u32,
        heading: Heading,
        answer: Result<(), Refusal>,
        height: u64,
    ) -> Result<(), AllocError>
        ensures noted { early_of self.old.first link ≡ None → answer ≡ Err OtherHeight → heading.height ≡ height + 1 → ¬ (heading.kind ≡ Ask) → OnOk result (early_of self.new.first link ≡ Some heading) }
        ensures kept { (noted : Heading) → early_of self.old.first link ≡ Some noted → height < noted.height → early_of self.new.first link ≡ Some noted }
        ensures handed { early_of self.old.first link ≡ Some heading → heading.height ≤ height → early_of self.new.first link ≡ None }
        ensures others { KeepsOtherLinks link self.old.first self.new.first }
    {
        let is_next = heading.height == height.saturating_add(1) && heading.kind != Kind::Ask;
        match self.first.get(&link) {
            Some(noted) if *noted == heading => {
                if heading.height <= height {
                    self.first.remove(&link);
                }
            }
            Some(noted) if noted.height > height => {}
            _ => {
                if is_next && answer == Err(Refusal::OtherHeight) {
                    self.first.insert(link, heading)?;
                }
            }
        }
        Ok(())
    }

    /// Forgets a link that is closed, or has ended.
    pub fn ended(&mut self, link: u32)
        ensures ended { early_of self.new.first link ≡ None }
        ensures others { KeepsOtherLinks link self.old.first self.new.first }
    {
        self.first.remove(&link);
    }

    /// Returns a frame that had to be handed in at this height and was not, after all that was due is done, and its link.
    pub fn lost(&self, height: u64) -> Option<(u32, Heading)>
        ensures { result ≡ find (λ noted. noted.1.height == height) self.now.first.entries }
    {
        for (link, heading) in self.first.iter() {
            if heading.height == height {
                return Some((*link, *heading));
            }
        }
        None
    }
}
