//! The parts of a simulated world of validators: chance, a virtual agenda, links, and disks that a stop may cut short.
//!
//! All of them are plain values. Times are milliseconds of virtual time.
#![tactic(auto)]

mod agenda;
mod chance;
mod clock;
mod disk;
mod drive;
mod lane;
mod wire;

pub use agenda::{Agenda, Moment};
pub use chance::Chance;
pub use clock::Drift;
pub use disk::DiskStore;
pub use drive::{Drive, Strike};
pub use lane::{Flow, Lane, MOST_FRAMES, MOST_REPAIR, Written};
pub use wire::{End, Side, Terminal, Wire};
