//! Links to peers over TCP, and the time by the host's clock.
//!
//! A node listens on its own address and takes what dials it, while its dialer dials the others' addresses
//! when it is told to. No call but the dialer's waits longer than ten seconds where nothing comes or nothing
//! is taken, so that who reads or writes can look whether it is to end. A dial waits for a second, and before it
//! as long as the system takes to look a host's name up.
#![tactic(auto)]

mod addresses;
mod dialing;
mod host_clock;
mod last_dials;
mod source;
mod tcp_link;

pub use dialing::TcpDialer;
pub use host_clock::HostClock;
pub use source::TcpLinks;
pub use tcp_link::TcpLink;
