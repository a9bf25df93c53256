//! What came of the last dial of each address.

ghost use Rattle.std.specs.Prelude.{◌≡◌, IfOk, false, replicate, slice_index_or, slice_set};

use std::alloc::{AllocError, Global};
use std::mem;

/// For each address, by its validator's number, whether its last dial failed. That of an address that was
/// never dialed did not.
#[derive(Drop)]
pub(crate) struct LastDials {
    failed: Vec<bool>,
}

impl LastDials {
    /// Makes a list of so many addresses, none of which was dialed.
    pub(crate) fn new(alloc: Global, addresses: usize) -> Result<LastDials, AllocError>
        ensures { IfOk result (λ dials. dials.failed.items ≡ replicate addresses false) }
    {
        Ok(LastDials {
            failed: vec![in alloc; false; addresses]?,
        })
    }

    /// Notes whether a dial failed. Returns whether the dial of that address before it failed.
    pub(crate) fn note(&mut self, validator: u16, failed: bool) -> bool
        ensures before { result ≡ slice_index_or self.old.failed.items validator false }
        ensures noted { self.new.failed.items ≡ slice_set self.old.failed.items validator failed }
    {
        match self.failed.get_mut(usize::from(validator)) {
            Some(last) => mem::replace(last, failed),
            None => false,
        }
    }
}
