//! Decisions, each at the place of its height.

ghost use Rattle.std.specs.Prelude.{◌≡◌, ◌+◌, ◌-◌, ◌<◌, ◌≤◌, ◌==◌, ◌++◌, ◌∷◌, [], IfOk, IfErr, OnOk, OnErr, find, length, slice_get};
ghost use Rattle.std.specs.Option.{option_copied};
ghost use Rattle.height_catchup.specs.Kept.{IsInPlace};

use messages::Bundle;
use std::alloc::{AllocError, AllocFailed, Global};
use std::marker::Model;
use transactions::copy_all;

/// The decisions of a validator from height 0 on, in order of height, with none left out. Contracts
/// see them as a list, beside how many more there is room for.
#[derive(Drop)]
pub struct Decisions {
    alloc: Global,
    bundles: Vec<Bundle>,
}

impl Model for Decisions {
    ghost use Rattle.std.specs.Prelude.{◌-◌, vec_len, vec_capacity};
    ghost use Rattle.height_catchup.specs.Kept.{Kept, IsInPlace};

    ghost Value = { Kept };

    ghost view = { λ a. record { bundles = a.bundles.items; room = vec_capacity a.bundles - vec_len a.bundles } };

    ghost invariant = { λ a. IsInPlace a.bundles.items };
}

impl Decisions {
    /// No decision yet. It takes no memory.
    pub fn new(alloc: Global) -> Decisions
        ensures { result ≡ record { bundles = []; room = 0 } }
    {
        Decisions {
            alloc,
            bundles: Vec::new(alloc),
        }
    }

    /// The decisions of a list in order of height, none left out, as an opened journal has them. It takes no memory.
    pub fn of(alloc: Global, bundles: Vec<Bundle>) -> Decisions
        requires { IsInPlace bundles.items }
        ensures { result.bundles ≡ bundles.items }
    {
        Decisions { alloc, bundles }
    }

    /// How many heights are decided: the first that isn't.
    pub fn len(&self) -> usize
        ensures len { result ≡ length self.now.bundles }
        ensures placed { IsInPlace self.now.bundles }
    {
        self.bundles.len()
    }

    /// Whether no height is decided.
    pub fn is_empty(&self) -> bool
        ensures { result ≡ (length self.now.bundles == 0) }
    {
        self.bundles.is_empty()
    }

    /// The decisions, in order of height.
    pub fn as_slice(&self) -> &[Bundle]
        ensures { result.now ≡ self.now.bundles }
    {
        &self.bundles
    }

    /// Keeps the decision of the next height. Refused for want of memory, it is handed back.
    pub fn keep(&mut self, bundle: Bundle) -> Result<(), AllocFailed<Bundle>>
        requires { bundle.height ≡ length self.old.bundles }
        ensures ok { OnOk result (self.new.bundles ≡ self.old.bundles ++ bundle ∷ []) }
        ensures err { OnErr result (self.new ≡ self.old) }
        ensures back { IfErr result (λ e. e.value ≡ bundle) }
    {
        if self.reserve(1).is_err() {
            return Err(AllocFailed { value: bundle });
        }
        self.keep_reserved(bundle);
        Ok(())
    }

    /// Makes room for this many more decisions.
    pub fn reserve(&mut self, additional: usize) -> Result<(), AllocError>
        ensures ok { OnOk result (additional ≤ self.new.room) }
        ensures same { self.new.bundles ≡ self.old.bundles }
        ensures err { OnErr result (self.new ≡ self.old) }
    {
        self.bundles.reserve(additional)
    }

    /// Keeps the decision of the next height in room that was made before. It takes no memory.
    pub fn keep_reserved(&mut self, bundle: Bundle)
        requires height { bundle.height ≡ length self.old.bundles }
        requires room { 0 < self.old.room }
        ensures { self.new ≡ record { bundles = self.old.bundles ++ bundle ∷ []; room = self.old.room - 1 } }
    {
        self.bundles.push_reserved(bundle);
    }

    /// The decision of a height, if it is kept. It is found by its place, and takes no memory.
    pub fn bundle_for(&self, height: u64) -> Option<&Bundle>
        ensures bundle { option_copied result ≡ find (λ b. b.height == height) self.now.bundles }
        ensures place { option_copied result ≡ slice_get self.now.bundles height }
    {
        self.bundles.get(height as usize)
    }

    /// Equal decisions. Their values are shared and not copied.
    pub fn copy(&self) -> Result<Decisions, AllocError>
        ensures { IfOk result (λ copy. copy.bundles ≡ self.now.bundles) }
    {
        Ok(Decisions {
            alloc: self.alloc,
            bundles: copy_all(self.alloc, &self.bundles)?,
        })
    }
}
