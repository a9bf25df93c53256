//! One step each, on the two words and by one seat or pass.

ghost use Rattle.std.specs.Prelude.{◌≡◌, ◌≤◌};
ghost use Rattle.status_words.specs.Seen.{unseen, with_height, with_delivered, AllIn, IsOf};
ghost use Rattle.status_words.specs.Rule.{sitting, with_own, told, shown};
ghost use Rattle.status_words.specs.Steps.{IsAt, Publishes, Sits};

use crate::rule::{
    Blanks, ChecksDelivered, ChecksHeight, LoadsDelivered, LoadsHeight, Notes, Published, Shows,
    Sight, StoresDelivered, StoresHeight, Tells,
};
use crate::words::Status;
use atomic_table::{Seat as TableSeat, Table};
use std::alloc::Global;

/// The two words.
pub(crate) type Cells = Table<(), Sight, Status, Published, Global>;

/// A seat or a pass at the words. It has no bytes.
pub(crate) type Knower = TableSeat<(), Sight>;

const HEIGHT: usize = 0;

const DELIVERED: usize = 1;

pub(crate) fn store_height(cells: &Cells, pass: &mut Knower, height: u64)
    requires pass { IsAt cells.now pass.old × Publishes pass.old }
    requires later { pass.old.me.0.own.height ≤ height }
    ensures pass { IsAt cells.now pass.new }
    ensures stored { pass.new.me.0 ≡ with_own pass.old.me.0 (with_height pass.old.me.0.own height) }
{
    cells.shared.store::<StoresHeight>(pass, HEIGHT, height);
}

pub(crate) fn store_delivered(cells: &Cells, pass: &mut Knower, delivered: u64)
    requires pass { IsAt cells.now pass.old × Publishes pass.old }
    requires later { pass.old.me.0.own.delivered ≤ delivered }
    ensures pass { IsAt cells.now pass.new }
    ensures stored { pass.new.me.0 ≡ with_own pass.old.me.0 (with_delivered pass.old.me.0.own delivered) }
{
    cells
        .shared
        .store::<StoresDelivered>(pass, DELIVERED, delivered);
}

pub(crate) fn load_height(cells: &Cells, seat: &mut Knower) -> u64
    requires seat { IsAt cells.now seat.old × Sits seat.old }
    ensures seat { IsAt cells.now seat.new }
    ensures loaded { seat.new.me.0 ≡ with_own seat.old.me.0 (with_height seat.old.me.0.own result) }
    ensures later { seat.old.me.0.own.height ≤ result }
{
    cells.shared.load::<LoadsHeight>(seat, HEIGHT)
}

pub(crate) fn load_delivered(cells: &Cells, seat: &mut Knower) -> u64
    requires seat { IsAt cells.now seat.old × Sits seat.old }
    ensures seat { IsAt cells.now seat.new }
    ensures loaded { seat.new.me.0 ≡ with_own seat.old.me.0 (with_delivered seat.old.me.0.own result) }
    ensures later { seat.old.me.0.own.delivered ≤ result }
{
    cells.shared.load::<LoadsDelivered>(seat, DELIVERED)
}

/// A load by the publishing pass, which finds what it stored.
pub(crate) fn check_height(cells: &Cells, pass: &mut Knower)
    requires pass { IsAt cells.now pass.old × Publishes pass.old }
    ensures same { IsAt cells.now pass.new × (pass.new.me.0 ≡ pass.old.me.0) }
    ensures shown { (pass.old.me.0.shown.height ≤ pass.old.me.0.own.height) × AllIn pass.old.me.0.shown.heights pass.old.me.0.own.heights }
{
    cells.shared.load::<ChecksHeight>(pass, HEIGHT);
}

/// A load by the publishing pass, which finds what it stored.
pub(crate) fn check_delivered(cells: &Cells, pass: &mut Knower)
    requires pass { IsAt cells.now pass.old × Publishes pass.old }
    ensures same { IsAt cells.now pass.new × (pass.new.me.0 ≡ pass.old.me.0) }
    ensures shown { (pass.old.me.0.shown.delivered ≤ pass.old.me.0.own.delivered) × AllIn pass.old.me.0.shown.counts pass.old.me.0.own.counts }
{
    cells.shared.load::<ChecksDelivered>(pass, DELIVERED);
}

/// A note, or a seat split off a seat: a copy of what the other has seen or published.
pub(crate) fn note(cells: &Cells, from: &mut Knower) -> Knower
    requires from { IsAt cells.now from.old }
    ensures same { IsAt cells.now from.new × (from.new.me.0 ≡ from.old.me.0) }
    ensures note { IsAt cells.now result × (result.me.0 ≡ sitting from.old.me.0.own) }
{
    cells.shared.split_seat::<Notes>(from)
}

/// A seat that has seen nothing.
pub(crate) fn blank(cells: &Cells, from: &mut Knower) -> Knower
    requires from { IsAt cells.now from.old }
    ensures same { IsAt cells.now from.new × (from.new.me.0 ≡ from.old.me.0) }
    ensures blank { IsAt cells.now result × (result.me.0 ≡ sitting unseen) }
{
    cells.shared.split_seat::<Blanks>(from)
}

/// A seat takes in a note, which is spent.
pub(crate) fn tell(cells: &Cells, seat: &mut Knower, note: Knower)
    requires seat { IsAt cells.now seat.old × Sits seat.old }
    requires note { IsAt cells.now note }
    ensures told { IsAt cells.now seat.new × (seat.new.me.0 ≡ told seat.old.me.0 note.me.0) }
{
    cells.shared.join_seat::<Tells>(seat, note);
}

/// The publishing pass takes in a note, which is spent.
pub(crate) fn show(cells: &Cells, pass: &mut Knower, note: Knower)
    requires pass { IsAt cells.now pass.old }
    requires note { IsAt cells.now note }
    ensures shown { IsAt cells.now pass.new × (pass.new.me.0 ≡ shown pass.old.me.0 note.me.0) }
{
    cells.shared.join_seat::<Shows>(pass, note);
}

/// A note of the seat is shown to the publishing pass: what the seat has seen was published.
pub(crate) fn lay_beside(cells: &Cells, pass: &mut Knower, seat: &mut Knower)
    requires pass { IsAt cells.now pass.old × Publishes pass.old }
    requires seat { IsAt cells.now seat.old }
    ensures pass { IsAt cells.now pass.new × Publishes pass.new × (pass.new.me.0.own ≡ pass.old.me.0.own) }
    ensures seat { IsAt cells.now seat.new × (seat.new.me.0 ≡ seat.old.me.0) }
    ensures of_these { IsOf pass.new.me.0.own seat.new.me.0.own }
{
    let back = note(cells, seat);
    show(cells, pass, back);
    check_height(cells, pass);
    check_delivered(cells, pass);
}
