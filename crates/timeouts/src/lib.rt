//! The timeouts that a validator scheduled, and when each is due.
//!
//! A timeout of round r lasts `start + r * delta` milliseconds, so that in later rounds the
//! validators wait longer for each other (`timeoutPropose(r)`, `timeoutPrevote(r)` and
//! `timeoutPrecommit(r)` of arXiv 1807.04938, algorithm 1, lines 21, 35 and 48). Times are
//! milliseconds since a moment that the caller chose.
#![tactic(auto)]

ghost use Rattle.std.specs.Prelude.{◌≡◌, ◌<◌, All, IfNone, OnOk, OnErr};
ghost use Rattle.std.specs.List.Sorted.{IsNonDecreasingBy};
ghost use Rattle.timeouts.specs.Waiting.{planned, lasting, due_of, placed, given, left, earliest, of_heights_from};
ghost use Rattle.timeouts.specs.Laws.{AccountLaw};
ghost use Rattle.timeouts.specs.Numbers.{number_of};

use protocol::{MOST_MILLISECONDS, Timeout};
use std::alloc::{AllocFailed, Global};
use std::collections::VecDeque;
use std::marker::Model;

/// Why a plan is not made, or a timeout not scheduled.
#[derive(Clone, Copy, Debug, PartialEq, Eq, thiserror::Error)]
pub enum PlanFault {
    /// 1: `start` or `delta` is above 86,400,000.
    #[error("start or delta is above 86,400,000 milliseconds")]
    TooLong = 1,
    /// 2: a growth was refused memory.
    #[error("out of memory")]
    OutOfMemory = 2,
}

impl PlanFault {
    /// The number of the fault, 1 or 2.
    pub fn number(self) -> u8
        ensures { result ≡ number_of self }
    {
        self as u8
    }
}

impl<T: Drop> From<AllocFailed<T>> for PlanFault {
    ghost use Rattle.timeouts.specs.declared.PlanFault.TheVariants.{OutOfMemory};

    ghost from_gives = { λ _ e. e ≡ OutOfMemory };

    fn from(_e: AllocFailed<T>) -> PlanFault {
        PlanFault::OutOfMemory
    }
}

/// A timeout, and when it is due.
#[derive(Clone, Copy, Debug, PartialEq, Eq)]
struct Due {
    at: u64,
    timeout: Timeout,
}

/// The timeouts that were scheduled and neither given nor forgotten.
///
/// They are held in order of time, the earliest first, so that none has to be looked for.
#[derive(Debug, Drop)]
pub struct Plan {
    start: u64,
    delta: u64,
    due: VecDeque<Due>,
}

impl Model for Plan {
    ghost use Rattle.std.specs.Prelude.{◌≤◌};
    ghost use Rattle.std.specs.List.Sorted.{IsNonDecreasingBy};
    ghost use Rattle.timeouts.specs.Waiting.{Waiting};

    ghost Value = { Waiting };

    ghost view = { λ a. record { start = a.start; delta = a.delta; due = a.due.items } };

    ghost invariant = { λ a. (a.start ≤ 86400000) × (a.delta ≤ 86400000) × IsNonDecreasingBy (λ d. d.at) a.due.items };
}

impl Plan {
    /// A plan in which nothing waits, or `TooLong` (1). A timeout of round 0 lasts `start`
    /// milliseconds, and in each further round `delta` more. It takes no memory.
    pub fn new(alloc: Global, start: u64, delta: u64) -> Result<Plan, PlanFault>
        ensures { result ≡ planned start delta }
    {
        if start > MOST_MILLISECONDS || delta > MOST_MILLISECONDS {
            return Err(PlanFault::TooLong);
        }
        Ok(Plan {
            start,
            delta,
            due: VecDeque::new(alloc),
        })
    }

    /// Schedules a timeout, whose time begins now. One that would be due past the greatest `u64` is
    /// due then. The fault is `OutOfMemory` (2).
    pub fn schedule(&mut self, now: u64, timeout: Timeout) -> Result<(), PlanFault>
        ensures ok { OnOk result (self.new ≡ record self.old { due = placed (due_of self.old now timeout) self.old.due }) }
        ensures err { OnErr result (self.new ≡ self.old) }
        ensures fault { OnErr result (result ≡ Err PlanFault.OutOfMemory) }
    {
        let at = now.saturating_add(self.lasting(timeout.round));
        let place = self.due.partition_point(|earlier| earlier.at <= at);
        self.due.insert(place, Due { at, timeout })?;
        Ok(())
    }

    /// Gives the earliest timeout that is due now, and no longer holds it; of equal times the one
    /// that was scheduled first. It takes no memory, and looks at the earliest alone.
    pub fn due(&mut self, now: u64) -> Option<Timeout>
        ensures given { result ≡ given now self.old.due }
        ensures left { self.new ≡ record self.old { due = left now self.old.due } }
        // None is given only where none is due.
        ensures none { IfNone result (All (λ d. now < d.at) self.old.due) }
    {
        if self.next_due()? > now {
            return None;
        }
        let earliest = self.due.pop_front()?;
        Some(earliest.timeout)
    }

    /// Forgets the timeouts of the heights below this one. It takes no memory.
    pub fn forget_below(&mut self, height: u64)
        ensures { self.new ≡ record self.old { due = of_heights_from height self.old.due } }
    {
        self.due.retain(|due| due.timeout.height >= height);
    }

    /// When the next timeout is due, if one waits: until then `due` gives none.
    pub fn next_due(&self) -> Option<u64>
        ensures next { result ≡ earliest self.now.due }
        ensures ordered { IsNonDecreasingBy (λ d. d.at) self.now.due }
    {
        let next = self.due.front()?;
        Some(next.at)
    }

    /// How long a timeout of this round lasts, in milliseconds.
    fn lasting(&self, round: u32) -> u64
        ensures { result ≡ lasting self.now round }
    {
        self.start + u64::from(round) * self.delta
    }
}

/// A plan gives what the plain account of its calls gives: of all that was scheduled and neither
/// given nor forgotten, the first of the least time.
pub fn account_law()
    ensures { AccountLaw }
{}
