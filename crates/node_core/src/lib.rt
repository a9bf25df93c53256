//! A validator's node over bytes: frames come in, and released frames go out.
//!
//! A `NodeCore` is handed whole frames and due timeouts. Each is refused with a number, or taken in, and then
//! rules fire until none is enabled but a timeout's or a bundle's. What the rules release lies as frames in
//! `outgoing`, and the timeouts that they schedule in `scheduled`, until the caller takes them: the core
//! itself reads no socket and no clock. An `Outlet` is shown each frame while the call goes on.
//!
//! What it says and decides is saved in its journal first. `NodeCore::open` is the validator that an opened journal tells
//! of, and `NodeCore::new` one whose journal has no records.
//!
//! Line numbers are those of algorithm 1 of arXiv 1807.04938.
#![tactic(auto)]

mod base;
mod calls;
mod carrying;
mod firing;
mod node;
mod opening;
mod outlet;
mod taking;

pub use base::{Base, Variables};
pub use node::{Config, NodeCore};
pub use outlet::{LeavingFrame, Outlet};
