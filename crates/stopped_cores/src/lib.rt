//! Validators' cores over stores of any kind, through stops.
//!
//! `world_schedule` says the headline of cores after calls, and of what they come back to where their store is in
//! memory. Here the store is any: whatever its calls did as they failed, and wherever a stop came, a core that is opened
//! over it again is its validator's after those calls and a restart. So the headline holds of what cores deliver that
//! keep their journals on files.
//!
//! The theorems are contracts of functions that do nothing; `end` and `begin_again` make the calls that they speak of.
#![tactic(auto)]

pub use ending::{begin_again, end};
pub use laws::{comes_back_law, goes_on_law, stopped_cores_law};

mod ending;
mod laws;
