//! A diagram.

ghost use Rattle.std.specs.Prelude.{◌≡◌, ◌≤◌, true, length, IfOk};
ghost use Rattle.schedule_chart.specs.Extent.{lane_x, are_within};

use crate::drawing::{Point, write_arrow, write_lane, write_note, write_row};
use crate::lanes::{Lanes, lane_x};
use crate::legend;
use crate::mark::{Arrow, Note};
use crate::place::Place;
use crate::reading::Reading;
use crate::rows::{Rows, SLOT_HEIGHT};
use std::alloc::{AllocError, Global};
use std::fmt;

/// A space-time diagram of a run. What it displays is an SVG document.
#[derive(Drop)]
pub struct Chart<'a> {
    lanes: Lanes,
    rows: Rows<'a>,
    arrows: Vec<Arrow>,
    notes: Vec<Note<'a>>,
    width: usize,
    height: usize,
}

impl<'a> Chart<'a> {
    /// Makes the diagram of a schedule with its report in it. A line of another form has no more than its row.
    pub fn read(alloc: Global, text: &'a [u8]) -> Result<Chart<'a>, AllocError>
        // All is within the picture.
        ensures lanes { IfOk result (λ chart. lane_x (length chart.lanes.each.items) ≤ chart.width) }
        ensures rows { IfOk result (λ chart. are_within chart.height chart.rows.each.items ≡ true) }
    {
        let mut reading = Reading::new(alloc)?;
        reading.take_text(text)?;
        Ok(Chart::of_reading(reading))
    }

    /// Makes the diagram of what was read.
    fn of_reading(reading: Reading<'a>) -> Chart<'a>
        ensures lanes { lane_x (length result.lanes.each.items) ≤ result.width }
        ensures rows { are_within result.height result.rows.each.items ≡ true }
    {
        let Reading {
            lanes,
            rows,
            arrows,
            notes,
            messages: _,
            is_over: _,
        } = reading;
        let (edge, foot) = (lane_x(lanes.as_slice().len()), rows.foot());
        Chart {
            lanes,
            rows,
            arrows,
            notes,
            width: edge.max(legend::WIDTH),
            height: foot,
        }
    }
}

impl Chart<'_> {
    /// Returns where a place is in the picture.
    fn point(&self, place: Place) -> Point {
        let depth = place.slot.saturating_mul(SLOT_HEIGHT);
        Point {
            x: lane_x(place.lane),
            y: self.rows.top_of(place.row).saturating_add(depth),
        }
    }

    /// Writes the rows.
    fn write_rows<W: fmt::Write>(&self, f: &mut fmt::Formatter<W>) -> fmt::Result {
        for row in self.rows.as_slice() {
            write_row(row, self.width, f)?;
        }
        Ok(())
    }

    /// Writes the lanes.
    fn write_lanes<W: fmt::Write>(&self, f: &mut fmt::Formatter<W>) -> fmt::Result {
        for (place, lane) in self.lanes.as_slice().iter().enumerate() {
            write_lane(lane, lane_x(place), self.height, f)?;
        }
        Ok(())
    }

    /// Writes the ways of messages.
    fn write_arrows<W: fmt::Write>(&self, f: &mut fmt::Formatter<W>) -> fmt::Result {
        for arrow in self.arrows.iter() {
            let from = arrow.from.map(|place| self.point(place));
            write_arrow(arrow.kind, from, self.point(arrow.to), f)?;
        }
        Ok(())
    }

    /// Writes the marks.
    fn write_notes<W: fmt::Write>(&self, f: &mut fmt::Formatter<W>) -> fmt::Result {
        for note in self.notes.iter() {
            write_note(note, self.point(note.place), f)?;
        }
        Ok(())
    }
}

impl fmt::Display for Chart<'_> {
    fn fmt<W: fmt::Write>(&self, f: &mut fmt::Formatter<W>) -> fmt::Result {
        let (width, height) = (self.width, self.height);
        write!(
            f,
            "<svg xmlns=\"http://www.w3.org/2000/svg\" width=\"{width}\" height=\"{height}\">\n"
        )?;
        legend::write_legend(f)?;
        self.write_rows(f)?;
        self.write_lanes(f)?;
        self.write_arrows(f)?;
        self.write_notes(f)?;
        f.write_str("</svg>\n")
    }
}
