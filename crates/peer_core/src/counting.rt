//! How much a validator's edge has, for who watches it.

ghost use Rattle.std.specs.Prelude.{◌≡◌, ◌+◌, ◌-◌, ◌^◌, min, length, filter};
ghost use Rattle.peer_core.specs.Counting.{is_validators, is_clients, is_strangers};

use crate::edge::PeerCore;
use crate::link::{Behind, PeerLink};
use crate::links::PeerLinks;

/// How many links are open, by who is behind them.
#[derive(Clone, Copy, Debug, PartialEq, Eq)]
pub struct LinkCounts {
    pub validators: usize,
    pub clients: usize,
    pub strangers: usize,
}

impl PeerLink {
    /// Returns whether it is open, with a validator behind it.
    fn is_validators(&self) -> bool
        ensures { result ≡ is_validators self.now }
    {
        self.is_open() && matches!(self.behind, Behind::Validator(_))
    }

    /// Returns whether it is open, with a client behind it.
    fn is_clients(&self) -> bool
        ensures { result ≡ is_clients self.now }
    {
        self.is_open() && matches!(self.behind, Behind::Client)
    }

    /// Returns whether it is open, and nobody behind it has shown.
    fn is_strangers(&self) -> bool
        ensures { result ≡ is_strangers self.now }
    {
        self.is_open() && matches!(self.behind, Behind::Nobody)
    }
}

impl PeerLinks {
    /// Returns how many links are open, by who is behind them.
    pub fn counts(&self) -> LinkCounts
        ensures validators { result.validators ≡ length (filter is_validators self.now.links.items) }
        ensures clients { result.clients ≡ length (filter is_clients self.now.links.items) }
        ensures strangers { result.strangers ≡ length (filter is_strangers self.now.links.items) }
    {
        LinkCounts {
            validators: self.validators(),
            clients: self.clients(),
            strangers: self.strangers(),
        }
    }

    fn validators(&self) -> usize
        ensures { result ≡ length (filter is_validators self.now.links.items) }
    {
        self.links
            .iter()
            .filter(|link| link.is_validators())
            .count()
    }

    fn clients(&self) -> usize
        ensures { result ≡ length (filter is_clients self.now.links.items) }
    {
        self.links.iter().filter(|link| link.is_clients()).count()
    }

    fn strangers(&self) -> usize
        ensures { result ≡ length (filter is_strangers self.now.links.items) }
    {
        self.links.iter().filter(|link| link.is_strangers()).count()
    }
}

impl PeerCore {
    /// Returns how many links are open, by who is behind them.
    pub fn link_counts(&self) -> LinkCounts
        ensures validators { result.validators ≡ length (filter is_validators self.now.links.links.items) }
        ensures clients { result.clients ≡ length (filter is_clients self.now.links.links.items) }
        ensures strangers { result.strangers ≡ length (filter is_strangers self.now.links.links.items) }
    {
        self.links.counts()
    }

    /// Returns how many frames of the height are kept: own ones, and others to be passed on.
    pub fn kept(&self) -> usize
        ensures { result ≡ min (length self.now.own + length self.now.taken) (2 ^ 64 - 1) }
    {
        let taken = self.taken.frames().len();
        self.own.frames().len().saturating_add(taken)
    }
}
