//! A journal's store whose syncs are counted.
#![tactic(auto)]

mod store;

pub use store::MeteredStore;
