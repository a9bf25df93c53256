//! A deterministic simulator of whole clusters: validators at their edge (`peer_core`) over nodes (`node_core`) over disks that
//! a stop may cut short, links that fail in many ways, clients, and Byzantine validators and clients, all from one seed.
//!
//! After each event of a validator it is looked whether what must hold does; the first failure ends the run.
#![tactic(auto)]

mod clients;
mod concluding;
mod lies;
mod lives;
mod looking;
mod network;
mod striking;
mod world;

pub use world::{BOUND_MS, World};
