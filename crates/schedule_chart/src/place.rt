//! Places in a diagram.

/// A place on a lane.
#[derive(Clone, Copy, Debug, PartialEq, Eq)]
pub(crate) struct Place {
    pub(crate) row: usize,
    /// How many lines of text below the top of its row.
    pub(crate) slot: usize,
    pub(crate) lane: usize,
}
