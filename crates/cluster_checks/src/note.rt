//! What is told of an event, for who looks for the cause of a failure.

use crate::event::Event;
use crate::kinds::{Heading, Kind};
use cluster_parts::Moment;
use peer_core::Closing;
use protocol::Refusal;
use std::alloc::{AllocError, Global};
use std::collections::VecDeque;
use std::fmt;

/// How many lines are kept: those of the last 20 events, and more.
const MOST_LINES: usize = 400;

/// How many events a failure is told with.
const MOST_EVENTS: usize = 20;

/// What is told.
#[derive(Clone, Copy)]
pub enum Note {
    /// An event begins.
    Begins(Moment, Event),
    /// A frame was handed in.
    TookIn {
        validator: u16,
        link: u32,
        heading: Heading,
        answer: Result<(), Refusal>,
    },
    /// A frame is queued for so many links.
    Sends {
        validator: u16,
        heading: Heading,
        links: u64,
    },
    /// A link is closed.
    Closes {
        validator: u16,
        link: u32,
        closing: Closing,
    },
    /// A link is open.
    Opens {
        link: u32,
        from: u16,
        to: u16,
    },
    /// A validator doesn't reach another one.
    NotReached {
        from: u16,
        to: u16,
    },
    /// A validator runs again.
    Runs {
        validator: u16,
        height: u64,
    },
    /// A validator has stopped, and its disk has so many bytes.
    Stopped {
        validator: u16,
        bytes: u64,
    },
    /// A validator delivers a height.
    Delivers {
        validator: u16,
        height: u64,
    },
    /// A client's transaction was accepted.
    Accepted {
        validator: u16,
        client: u16,
        session: u32,
        number: u64,
    },
    /// A frame had no room.
    Dropped {
        link: u32,
        kind: Kind,
    },
    /// These validators are cut off, both ways or one way, and their bytes vanish or wait, until then.
    CutOff {
        first: u16,
        members: u16,
        is_one_way: bool,
        vanishes: bool,
        until: u64,
    },
    /// A link is cut, or loses its bytes.
    Cut {
        link: u32,
        is_lost: bool,
    },
}

impl fmt::Display for Note {
    fn fmt<W: fmt::Write>(&self, f: &mut fmt::Formatter<W>) -> fmt::Result {
        match self {
            Note::Begins(moment, event) => {
                let at = moment.at;
                write!(f, "{at} ms: {event}")
            }
            Note::TookIn { .. }
            | Note::Sends { .. }
            | Note::Accepted { .. }
            | Note::Dropped { .. } => { self.fmt_frame(f) }
            Note::Closes { .. } | Note::Opens { .. } | Note::NotReached { .. } | Note::Cut { .. } =>
                { self.fmt_link(f) }
            Note::Runs { .. } | Note::Stopped { .. } | Note::Delivers { .. } => self.fmt_life(f),
            Note::CutOff { .. } => self.fmt_partition(f),
        }
    }
}

impl Note {
    /// Writes what is told of a frame.
    fn fmt_frame<W: fmt::Write>(&self, f: &mut fmt::Formatter<W>) -> fmt::Result {
        match self {
            Note::TookIn {
                validator,
                link,
                heading,
                answer,
            } => match answer {
                Ok(()) => write!(f, "    v{validator} takes in {heading} (link {link})"),
                Err(refusal) => {
                    write!(
                        f,
                        "    v{validator} refuses {heading} (link {link}): {refusal}"
                    )
                }
            },
            Note::Sends {
                validator,
                heading,
                links,
            } => write!(f, "    v{validator} sends {heading} to {links} links"),
            Note::Accepted {
                validator,
                client,
                session,
                number,
            } => write!(
                f,
                "    v{validator} accepts c{client}.{session} number {number}"
            ),
            Note::Dropped { link, kind } => write!(f, "    a {kind} is dropped on link {link}"),
            _ => Ok(()),
        }
    }

    /// Writes what is told of a link.
    fn fmt_link<W: fmt::Write>(&self, f: &mut fmt::Formatter<W>) -> fmt::Result {
        match self {
            Note::Closes {
                validator,
                link,
                closing,
            } => write!(f, "    v{validator} closes link {link}: {closing}"),
            Note::Opens { link, from, to } => write!(f, "    link {link} from v{from} to v{to}"),
            Note::NotReached { from, to } => write!(f, "    v{from} doesn't reach v{to}"),
            Note::Cut { link, is_lost } => {
                let how = if *is_lost {
                    "loses its bytes"
                } else {
                    "is cut"
                };
                write!(f, "    link {link} {how}")
            }
            _ => Ok(()),
        }
    }

    /// Writes what is told of a validator's life.
    fn fmt_life<W: fmt::Write>(&self, f: &mut fmt::Formatter<W>) -> fmt::Result {
        match self {
            Note::Runs { validator, height } => {
                write!(f, "    v{validator} runs from height {height} on")
            }
            Note::Stopped { validator, bytes } => {
                write!(
                    f,
                    "    v{validator} has stopped, its disk has {bytes} bytes"
                )
            }
            Note::Delivers { validator, height } => {
                write!(f, "    v{validator} delivers height {height}")
            }
            _ => Ok(()),
        }
    }

    /// Writes what is told of a partition.
    fn fmt_partition<W: fmt::Write>(&self, f: &mut fmt::Formatter<W>) -> fmt::Result {
        match self {
            Note::CutOff {
                first,
                members,
                is_one_way,
                vanishes,
                until,
            } => {
                let ways = if *is_one_way { "one way" } else { "both ways" };
                let how = if *vanishes {
                    "bytes vanish"
                } else {
                    "bytes wait"
                };
                write!(
                    f,
                    "    {members} validators from v{first} on are cut off {ways}, {how}, until {until} ms"
                )
            }
            _ => Ok(()),
        }
    }
}

/// The last lines.
#[derive(Drop)]
pub struct Notes {
    lines: VecDeque<Note>,
    /// How many of the lines are new.
    fresh: usize,
}

impl Notes {
    /// No lines.
    pub fn new(alloc: Global) -> Notes {
        Notes {
            lines: VecDeque::new(alloc),
            fresh: 0,
        }
    }

    /// Adds a line. An event's own line begins what is new.
    pub fn add(&mut self, note: Note) -> Result<(), AllocError> {
        if matches!(note, Note::Begins(..)) {
            self.fresh = 0;
        }
        if self.lines.len() >= MOST_LINES {
            self.lines.pop_front();
        }
        self.fresh = self.fresh.saturating_add(1).min(MOST_LINES);
        match self.lines.push_back(note) {
            Ok(()) => Ok(()),
            Err(_) => Err(AllocError),
        }
    }

    /// The lines of the last event.
    pub fn last_event(&self, alloc: Global) -> Result<Vec<Note>, AllocError> {
        self.behind(alloc, self.lines.len().saturating_sub(self.fresh))
    }

    /// The lines of the last events, as far as they are kept.
    pub fn last_events(&self, alloc: Global) -> Result<Vec<Note>, AllocError> {
        let mut start = self.lines.len();
        let mut events = 0usize;
        for (place, line) in self.lines.iter().enumerate().rev() {
            if matches!(line, Note::Begins(..)) {
                events = events.saturating_add(1);
                start = place;
            }
            if events >= MOST_EVENTS {
                break;
            }
        }
        self.behind(alloc, start)
    }

    fn behind(&self, alloc: Global, start: usize) -> Result<Vec<Note>, AllocError> {
        let mut lines = Vec::new(alloc);
        for line in self.lines.iter().skip(start) {
            lines.push(*line)?;
        }
        Ok(lines)
    }
}
