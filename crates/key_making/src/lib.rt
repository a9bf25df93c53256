//! The keys of all parties, drawn from a source of random bytes, and the key file of each.
//!
//! A key file is read by `authenticators::KeyRing`. Nothing here opens a file.
#![tactic(auto)]

ghost use Rattle.key_making.specs.Rings.{SharedLaw};

mod file;
mod table;

pub use table::{DrawFault, KeyTable};

/// Who sends and who receives hold the same key, each from its own file.
pub fn shared_law()
    ensures { SharedLaw }
{}
