//! The join of one validator's code, over its own keys, with the theorem over a whole world.
//!
//! What a `NodeCore` ensures it ensures in the setting that its own ring of keys tells of, which has no key that others
//! share among themselves. The theorem is over one setting, in which every key has its place. Each law here is a step from
//! the one to the other: a validator's node moves alike in settings that it sees alike; so each call of a core is a list of
//! events of a run of the whole; so what the cores of a world tell that they delivered is one list.
//!
//! The types of a world's events and of its report stand here too.
#![tactic(auto)]

mod brought;
mod chronicle;
mod clients;
mod core_laws;
mod ending;
mod ends_laws;
mod event;
mod fault;
mod handing;
mod happening;
mod laws;
mod numbering;
mod opening;
mod passing;
mod report;
mod restarting;
mod seat;
mod stage;
mod validator;
mod validators;
mod world;

pub use core_laws::{
    answered_law, called_law, core_law, count_law, growing_law, handed_law, headline_law, kept_law,
    own_law, step_law,
};
pub use ends_laws::{ends_law, outcome_law, reports_law, scene_law};
pub use event::{Event, Failing};
pub use fault::RunFault;
pub use handing::{hand_frame, hand_timeout, settle};
pub use laws::{delivered_law, made_law, past_law, report_law, ring_law, run_law, seeing_law};
pub use protocol::{agree_law, begins_law, sent_law};
pub use report::{Answer, Decision, End, Release, Report, Told, What};
pub use world::World;
pub use world_parties::{Bundling, FaultNumber, Parties, Proposing, Tagged, Voting};
