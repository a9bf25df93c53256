//! A validator, whether it runs or not.

use crate::engine::Engine;
use cluster_checks::{Progress, Witness};
use cluster_parts::{DiskStore, Drift, Drive, End};

/// Whether a validator runs.
#[derive(Drop)]
pub enum Seat {
    /// It runs.
    Up(Box<Engine>),
    /// It has stopped, and its disk has this.
    Down(DiskStore),
    /// It is being started or stopped.
    Between,
}

/// A validator, over all of its lives.
#[derive(Drop)]
pub struct Post {
    pub number: u16,
    /// Whether it is Byzantine.
    pub is_liar: bool,
    /// Whether its disk loses synced bytes as it stops.
    pub is_forgetful: bool,
    pub drift: Drift,
    /// Its disk.
    pub drive: Drive,
    pub seat: Seat,
    /// How often it was started.
    pub life: u32,
    /// For when it is to be woken, in virtual time.
    pub wake: Option<u64>,
    /// What is known of what it said and saved.
    pub witness: Witness,
    /// How far its list was compared.
    pub progress: Progress,
    /// How far it was compared in an earlier life.
    pub before: Progress,
}

impl Post {
    /// What its links end at, in this life.
    pub fn end(&self) -> End {
        End::Validator {
            number: self.number,
            life: self.life,
        }
    }

    /// The validator, where it runs.
    pub fn engine(&mut self) -> Option<&mut Engine> {
        match &mut self.seat {
            Seat::Up(engine) => Some(engine),
            Seat::Down(_) | Seat::Between => None,
        }
    }

    /// Returns whether it runs.
    pub fn is_up(&self) -> bool {
        matches!(self.seat, Seat::Up(_))
    }
}
