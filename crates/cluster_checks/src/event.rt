//! What happens in a world.

use crate::trouble::Trouble;
use cluster_parts::Side;
use std::fmt;

/// What happens at one moment.
#[derive(Clone, Copy)]
pub enum Event {
    /// A validator is started over what its disk has.
    Start(u16),
    /// A validator stops.
    Stop(u16),
    /// The time has come for which a validator's edge waits.
    Wake { validator: u16, life: u32 },
    /// A validator's dialing comes to an end.
    Dial { from: u16, life: u32, to: u16 },
    /// What waits on a link goes out.
    Write { wire: u32, side: Side },
    /// A piece of bytes arrives that this side sent.
    Arrive { wire: u32, side: Side },
    /// This side sees that the link has ended.
    Ends { wire: u32, side: Side },
    /// A client's turn has come.
    Turn(u16),
    /// A Byzantine validator's turn has come.
    Lie(u16),
    /// A fault comes.
    Strike(Trouble),
    /// Partitions whose time is over heal.
    Heal,
    /// Faults cease.
    Calm,
    /// It is looked whether all goes on.
    Look,
}

impl fmt::Display for Event {
    fn fmt<W: fmt::Write>(&self, f: &mut fmt::Formatter<W>) -> fmt::Result {
        match self {
            Event::Start(validator) => write!(f, "start v{validator}"),
            Event::Stop(validator) => write!(f, "stop v{validator}"),
            Event::Wake { validator, life } => write!(f, "wake v{validator} (life {life})"),
            Event::Dial { from, life, to } => write!(f, "dial v{to} by v{from} (life {life})"),
            Event::Write { wire, side } => write!(f, "write on link {wire} by its {side:?}"),
            Event::Arrive { wire, side } => write!(f, "bytes on link {wire} from its {side:?}"),
            Event::Ends { wire, side } => write!(f, "link {wire} ends at its {side:?}"),
            Event::Turn(client) => write!(f, "turn of client {client}"),
            Event::Lie(validator) => write!(f, "turn of liar v{validator}"),
            Event::Strike(trouble) => write!(f, "trouble: {trouble}"),
            Event::Heal => write!(f, "heal"),
            Event::Calm => write!(f, "calm"),
            Event::Look => write!(f, "look"),
        }
    }
}
