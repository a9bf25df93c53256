//! Who acts in a simulated cluster: validators that run, clients, and Byzantine validators.
//!
//! Each is a value: it says what it sends, and `cluster_world` sends it.
#![tactic(auto)]

mod client;
mod engine;
mod liar;
mod post;

pub use client::{Client, Waiting, right_for};
pub use engine::{Deed, Engine, Out, Outbox};
pub use liar::{Liar, Lie, Treatment, no_value};
pub use post::{Post, Seat};
