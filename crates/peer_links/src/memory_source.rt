//! Where peers in memory come from.

use crate::link::{Dialed, Dialer, Links, Next, Peer, Way};
use crate::memory_link::MemoryLink;
use std::alloc::{AllocError, Global};
use std::collections::VecDeque;
use std::sync::{Arc, Mutex, Wait};
use std::time::{Clock, Duration};
use std::{mem, thread};

/// How long the source waits where no peer comes, in milliseconds.
const TURN_MS: u64 = 1;

/// What is to come of one dial.
#[derive(Drop)]
struct Dial {
    validator: u16,
    /// The peer that is reached, if any is.
    peer: Option<Peer<MemoryLink>>,
}

/// The peers that a dialer reached and the source has not given, as the two share them.
type Reached = Arc<Mutex<VecDeque<Peer<MemoryLink>>>>;

/// Peers in memory, given one after the other: those that its dialer reached, and those that come of
/// themselves.
#[derive(Drop)]
pub struct MemoryLinks {
    alloc: Global,
    peers: VecDeque<Peer<MemoryLink>>,
    /// What is to come of dials, until a dialer has it.
    dials: VecDeque<Dial>,
    reached: Reached,
    /// How many turns the source waits before it says that none comes any more.
    turns: u64,
    me: u16,
    validators: u16,
}

impl MemoryLinks {
    /// Makes a source of no peers. Where none is left it answers `Idle` so many times, and then `None`.
    pub fn new(alloc: Global, turns: u64) -> Result<MemoryLinks, AllocError> {
        Ok(MemoryLinks {
            alloc,
            peers: VecDeque::new(alloc),
            dials: VecDeque::new(alloc),
            reached: Arc::new(alloc, Mutex::new(VecDeque::new(alloc)))?,
            turns,
            me: 0,
            validators: 0,
        })
    }

    /// The peers of validator `me` of so many, which dials the others. Else there is none to be dialed.
    pub fn among(self, me: u16, validators: u16) -> MemoryLinks {
        MemoryLinks {
            me,
            validators,
            ..self
        }
    }

    /// Adds a peer that comes of itself, behind the others.
    pub fn add(&mut self, peer: Peer<MemoryLink>) -> Result<(), AllocError> {
        self.peers.push_back(peer)?;
        Ok(())
    }

    /// Lets the next dial of this validator, behind those that were added before, reach this peer, which
    /// then has `Way::Dialed` of this number.
    pub fn add_reached(
        &mut self,
        validator: u16,
        peer: Peer<MemoryLink>,
    ) -> Result<(), AllocError> {
        let way = Way::Dialed(validator);
        self.add_dial(validator, Some(Peer { way, ..peer }))
    }

    /// Lets the next dial of this validator, behind those that were added before, reach nobody.
    pub fn add_unreached(&mut self, validator: u16) -> Result<(), AllocError> {
        self.add_dial(validator, None)
    }

    fn add_dial(
        &mut self,
        validator: u16,
        peer: Option<Peer<MemoryLink>>,
    ) -> Result<(), AllocError> {
        self.dials.push_back(Dial { validator, peer })?;
        Ok(())
    }

    /// Takes the peer that was reached or came first, if any is left.
    fn take<R: Wait>(&mut self, rt: &R) -> Option<Peer<MemoryLink>> {
        if let Some(peer) = self.reached.lock(rt).pop_front() {
            return Some(peer);
        }
        self.peers.pop_front()
    }
}

/// Dials as it was written down in the source before the dialer was made: a dial of a validator comes to
/// what was added for it next, and reaches nobody where nothing is left for it.
#[derive(Drop)]
pub struct MemoryDialer {
    dials: VecDeque<Dial>,
    reached: Reached,
}

impl MemoryDialer {
    /// Takes the peer that the next dial of this validator reaches, if it reaches any.
    fn take_peer(&mut self, validator: u16) -> Option<Peer<MemoryLink>> {
        let place = self
            .dials
            .iter()
            .position(|dial| dial.validator == validator)?;
        self.dials.remove(place)?.peer
    }
}

impl Dialer for MemoryDialer {
    fn dial<R: Wait + Clock>(&mut self, rt: &R, validator: u16) -> Dialed {
        let Some(peer) = self.take_peer(validator) else {
            return Dialed::Unreached;
        };
        match self.reached.lock(rt).push_back(peer) {
            Ok(()) => Dialed::Reached,
            Err(_) => Dialed::Unreached,
        }
    }
}

impl Links for MemoryLinks {
    type Link = MemoryLink;

    type Dialer = MemoryDialer;

    fn me(&self) -> u16 {
        self.me
    }

    fn validators(&self) -> u16 {
        self.validators
    }

    fn dialer(&mut self) -> Result<MemoryDialer, AllocError> {
        let reached = Arc::try_clone(&self.reached)?;
        Ok(MemoryDialer {
            dials: mem::replace(&mut self.dials, VecDeque::new(self.alloc)),
            reached,
        })
    }

    fn next<R: Wait + Clock>(&mut self, rt: &R) -> Next<MemoryLink> {
        if let Some(peer) = self.take(rt) {
            return Next::Peer(peer);
        }
        if self.turns == 0 {
            return Next::None;
        }
        self.turns -= 1;
        thread::sleep(rt, Duration::from_millis(TURN_MS));
        Next::Idle
    }
}
