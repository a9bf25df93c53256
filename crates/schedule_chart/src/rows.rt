//! Rows.

ghost use Rattle.std.specs.Prelude.{◌≡◌, ◌≤◌, true};
ghost use Rattle.schedule_chart.specs.Extent.{are_within};

use crate::row::Row;
use std::alloc::{AllocError, Global};

/// Where the first row begins, below the legend and the names of the lanes.
const FIRST_TOP: usize = 92;
/// How far the lines of text in a row are from one another.
pub(crate) const SLOT_HEIGHT: usize = 15;
/// How far a row is from the text above it.
const ROW_GAP: usize = 17;

/// The rows of a diagram, from the top down.
#[derive(Drop)]
pub(crate) struct Rows<'a> {
    each: Vec<Row<'a>>,
    /// Where they end.
    foot: usize,
    ghost within: { are_within foot each.items ≡ true },
}

impl<'a> Rows<'a> {
    /// Begins with none.
    pub(crate) fn new(alloc: Global) -> Rows<'a> {
        Rows {
            each: Vec::new(alloc),
            foot: FIRST_TOP,
        }
    }

    /// Returns them in order.
    pub(crate) fn as_slice(&self) -> &[Row<'a>]
        ensures { result.now ≡ self.now.each.items }
    {
        self.each.as_slice()
    }

    /// Returns where they end.
    pub(crate) fn foot(&self) -> usize
        ensures { result ≡ self.now.foot }
    {
        self.foot
    }

    /// Returns the place of the present row.
    pub(crate) fn present(&self) -> usize {
        self.each.len().saturating_sub(1)
    }

    /// Returns where a row begins.
    pub(crate) fn top_of(&self, row: usize) -> usize {
        match self.each.get(row) {
            Some(row) => row.top,
            None => self.foot,
        }
    }

    /// Begins a row beneath the others.
    pub(crate) fn begin(&mut self, text: &'a str) -> Result<(), AllocError> {
        let top = self.foot;
        self.each.push(Row { text, top })?;
        self.make_room(0);
        Ok(())
    }

    /// Makes room in the present row for a line of text in a slot.
    #[tactic(auto, using(crate::proofs::Extent::within_lower))]
    pub(crate) fn make_room(&mut self, slot: usize)
        ensures { self.old.foot ≤ self.new.foot }
    {
        let top = self.top_of(self.present());
        let height = slot.saturating_add(1).saturating_mul(SLOT_HEIGHT);
        let foot = top.saturating_add(height).saturating_add(ROW_GAP);
        self.foot = self.foot.max(foot);
    }
}
