//! Which rule fires next, and the plan of it: what its firing saves, changes and schedules.
//!
//! A caller takes messages in, and then fires the first enabled rule until there is none. A timeout that
//! is due and a bundle that decides are rules that a caller names itself. Line numbers are those of
//! algorithm 1 of arXiv 1807.04938.
#![tactic(auto)]

mod content;
mod deciding;
mod naming;
mod planning;
mod rule;
mod seeking;
mod skipping;
mod timing;

pub use naming::enabled;
pub use planning::{plan, plan_by_bundle};
pub use rule::{Input, Rule};
pub use timing::{holds_timeout, timeout_refusal};
