//! What a run costs.

use crate::kinds::{KINDS, Kind};
use crate::pace::Pace;
use std::fmt;

/// How many hashes a tag is: RFC 2104 has one within another.
const HASHES: u64 = 2;

/// How many frames, and how many bytes they have.
#[derive(Clone, Copy, Debug, PartialEq, Eq)]
pub struct Load {
    pub frames: u64,
    /// How many bytes these have.
    pub bytes: u64,
}

impl Load {
    const NONE: Load = Load {
        frames: 0,
        bytes: 0,
    };

    fn add(&mut self, bytes: u64) {
        self.frames = self.frames.saturating_add(1);
        self.bytes = self.bytes.saturating_add(bytes);
    }
}

/// What validators sent, by kind, and what came of it.
#[derive(Clone, Copy, Debug, PartialEq, Eq)]
pub struct Costs {
    sent: [Load; 8],
    /// Frames that had no room.
    pub dropped: u64,
    /// Items of the longest list.
    pub delivered: u64,
    /// The highest height.
    pub height: u64,
    /// The highest round in which a correct validator was.
    pub round: u32,
    /// The most proposals that a correct validator kept at once.
    pub kept: u64,
    /// The most frames of a height that a correct validator's edge kept at once.
    pub frames: u64,
    /// How many tags validators made for the frames that they sent.
    pub tags_made: u64,
    /// How many frames validators took in, of each of which the own tag is checked.
    pub tags_checked: u64,
    /// How often a validator was started, but for the first time.
    pub restarts: u64,
    /// How many transactions were accepted.
    pub accepted: u64,
    /// How soon those were delivered that were accepted in calm.
    pub pace: Pace,
    /// How many links there were.
    pub links: u64,
    /// How often nothing was looked at, as a validator was bound by a lock from before its restart, or a height went on round by
    /// round.
    pub bound: u64,
    pub events: u64,
    /// The virtual time, in milliseconds.
    pub at: u64,
}

impl Costs {
    /// Nothing was sent.
    pub const NONE: Costs = Costs {
        sent: [Load::NONE; 8],
        dropped: 0,
        delivered: 0,
        height: 0,
        round: 0,
        kept: 0,
        frames: 0,
        tags_made: 0,
        tags_checked: 0,
        restarts: 0,
        accepted: 0,
        pace: Pace::NONE,
        links: 0,
        bound: 0,
        events: 0,
        at: 0,
    };

    /// Counts a frame that is queued.
    pub fn send(&mut self, kind: Kind, bytes: u64) {
        if let Some(load) = self.sent.get_mut(kind as usize) {
            load.add(bytes);
        }
    }

    /// What was sent of a kind.
    pub fn sent(&self, kind: Kind) -> Load {
        self.sent.get(kind as usize).copied().unwrap_or(Load::NONE)
    }
}

impl fmt::Display for Costs {
    fn fmt<W: fmt::Write>(&self, f: &mut fmt::Formatter<W>) -> fmt::Result {
        let Costs {
            dropped,
            delivered,
            height,
            round,
            kept,
            frames,
            tags_made,
            tags_checked,
            restarts,
            accepted,
            pace,
            links,
            bound,
            events,
            at,
            ..
        } = self;
        let seconds = at / 1_000;
        write!(
            f,
            "{seconds} s, {events} events, height {height}, {delivered} delivered, {accepted} accepted, "
        )?;
        write!(
            f,
            "highest round {round}, at most {kept} proposals and {frames} frames kept, {restarts} restarts, {links} links, {dropped} frames dropped"
        )?;
        let Pace { looked_at, late } = pace;
        write!(f, ", {late} of {looked_at} late in calm")?;
        if *bound > 0 {
            write!(f, ", {bound} looks left out")?;
        }
        let tags = tags_made.saturating_add(*tags_checked);
        let hashes = tags
            .saturating_mul(HASHES)
            .checked_div(*delivered)
            .unwrap_or(0);
        write!(
            f,
            "\n  tags: {tags_made} made, {tags_checked} checked, {hashes} hashes per delivered transaction"
        )?;
        for kind in KINDS {
            let Load { frames, bytes } = self.sent(kind);
            let each = bytes.checked_div(*delivered).unwrap_or(0);
            write!(
                f,
                "\n  {kind}: {frames} frames, {bytes} bytes, {each} bytes per delivered transaction"
            )?;
        }
        Ok(())
    }
}
