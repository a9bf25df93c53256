//! Frames that came before their height, of all links.

ghost use Rattle.std.specs.Prelude.{◌≡◌, ◌≢◌, ℕ, [], None, All, OnOk, OnErr, MatchOption, IsOkUnless, nat_eq, length};
ghost use Rattle.indexmap.specs.IndexMap.{get};
ghost use Rattle.edge_frames.specs.Early.{early, placed, IsLongest};
ghost use Rattle.edge_frames.specs.Links.{frames_of, with_frames, without, from_height, refusal, opening, IsGiven, IsOpened, IsWithout};

use crate::fault::KeepFault;
use crate::link_frames::LinkFrames;
use bytes::Bytes;
use indexmap::IndexMap;
use std::alloc::Global;
use std::marker::Model;

/// How many links may have early frames.
pub const MOST_LINKS: usize = 384;

/// The number of a link, which no other link that a peer has at the same time has.
#[derive(Clone, Copy, Debug, PartialEq, Eq)]
pub struct LinkId(pub u32);

/// The frames that came before their heights, for each link, until their heights have come.
///
/// After each decision the caller forgets the lower heights (`forget_below`), and takes those of the
/// height that has come (`take`) until there are none. A link's frames never drop another's.
#[derive(Drop)]
pub struct EarlyFrames {
    alloc: Global,
    links: IndexMap<u32, LinkFrames>,
}

impl Model for EarlyFrames {
    ghost use Rattle.std.specs.Prelude.{List, map};
    ghost use Rattle.edge_frames.specs.Links.{OfLink, of_link};

    ghost Value = { List OfLink };

    ghost view = { λ a. map (λ e. of_link e.0 e.1) a.links.entries };
}

impl EarlyFrames {
    /// No frames. It takes no memory.
    pub fn new(alloc: Global) -> EarlyFrames
        ensures { result ≡ [] }
    {
        EarlyFrames {
            alloc,
            links: IndexMap::new(alloc),
        }
    }

    /// Keeps a link's frame until its height has come. Where the link is full, its last frames of
    /// greater heights are dropped for it.
    pub fn keep(&mut self, link: LinkId, height: u64, frame: Bytes) -> Result<(), KeepFault>
        ensures answer { MatchOption (refusal link.0 (early height frame) self.old) (IsOkUnless result KeepFault.OutOfMemory) (λ fault. result ≡ Err fault) }
        ensures kept { OnOk result (IsLongest (placed (early height frame) (frames_of link.0 self.old)) (frames_of link.0 self.new)) }
        ensures place { OnOk result (self.new ≡ with_frames link.0 (frames_of link.0 self.new) self.old) }
        ensures others { (other : ℕ) → other ≢ link.0 → frames_of other self.new ≡ frames_of other self.old }
        ensures err { OnErr result (self.new ≡ self.old) }
    {
        match self.links.get_mut(&link.0) {
            Some(frames) => frames.keep(height, frame),
            None => open_link(&mut self.links, self.alloc, link.0, height, frame),
        }
    }

    /// Gives the first frame of this height that the first link with one has, and no longer holds it.
    /// It takes no memory.
    pub fn take(&mut self, height: u64) -> Option<(LinkId, Bytes)>
        ensures { MatchOption result
            (All (IsWithout height) self.old × (self.new ≡ self.old))
            (λ given. IsGiven height self.old given.0.0 given.1 self.new) }
    {
        for place in 0..self.links.len() {
            let link = *self.links.get_index(place)?.0;
            if let Some(frame) = self.links[place].take(height) {
                return Some((LinkId(link), frame));
            }
        }
        None
    }

    /// Forgets the frames of the heights below this one. It takes no memory.
    pub fn forget_below(&mut self, height: u64)
        ensures { self.new ≡ from_height height self.old }
    {
        // A proof knows what is written at a place, but not what is written through `values_mut`.
        for place in 0..self.links.len() {
            self.links[place].forget_below(height);
        }
    }

    /// Forgets a link that ended. It takes no memory.
    pub fn forget(&mut self, link: LinkId)
        ensures { self.new ≡ without link.0 self.old }
    {
        self.links.shift_remove(&link.0);
    }
}

/// Keeps the first frame of a link that has none.
fn open_link(
    links: &mut IndexMap<u32, LinkFrames>,
    alloc: Global,
    link: u32,
    height: u64,
    frame: Bytes,
) -> Result<(), KeepFault>
    requires { get nat_eq links.old link ≡ None }
    ensures answer { MatchOption (opening (early height frame) (length links.old.entries)) (IsOkUnless result KeepFault.OutOfMemory) (λ fault. result ≡ Err fault) }
    ensures ok { OnOk result (IsOpened (early height frame) link links.old.entries links.new.entries) }
    ensures err { OnErr result (links.new.entries ≡ links.old.entries) }
{
    if links.len() >= MOST_LINKS {
        return Err(KeepFault::TooManyLinks);
    }
    let mut frames = LinkFrames::new(alloc);
    frames.keep(height, frame)?;
    links.insert(link, frames)?;
    Ok(())
}
