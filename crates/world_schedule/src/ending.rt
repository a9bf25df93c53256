//! How validators end.

ghost use Rattle.std.specs.Prelude.{◌≡◌, ◌++◌, map, flat_map, IfOk, OnOk};
ghost use Rattle.protocol.specs.Values.{item, items};
ghost use Rattle.world_schedule.specs.Worlds.{end_in, end_of_stopped, ends_in};

use crate::report::End;
use crate::restarting::Stopped;
use crate::seat::Seat;
use crate::validator::Validator;
use crate::validators::Validators;
use std::alloc::{AllocError, Global};
use transactions::{Duplicate, Item, Seq, Tx, Value};

impl Validators {
    /// How each ends, in order of number.
    pub(crate) fn ends(&self, alloc: Global) -> Result<Vec<End>, AllocError>
        ensures { IfOk result (λ ends. ends.items ≡ flat_map ends_in self.now.each.items) }
    {
        let mut ends = Vec::new(alloc);
        for seat in &self.each {
            put_end(alloc, &mut ends, seat)?;
        }
        Ok(ends)
    }
}

fn put_end(alloc: Global, ends: &mut Vec<End>, seat: &Seat) -> Result<(), AllocError>
    ensures { OnOk result (ends.new.items ≡ ends.old.items ++ ends_in seat.now) }
{
    match seat {
        Seat::Liar => Ok(()),
        Seat::Up(validator) => Ok(ends.push(validator.end(alloc)?)?),
        Seat::Closed(stopped) => Ok(ends.push(stopped.end(alloc)?)?),
    }
}

impl Validator {
    /// How the validator ends.
    fn end(&self, alloc: Global) -> Result<End, AllocError>
        ensures { IfOk result (λ end. end ≡ end_in self.now) }
    {
        Ok(End {
            validator: self.number,
            height: self.core.height(),
            round: self.core.round(),
            delivered: Seq::from_vec(items_of(alloc, self.core.delivered())?),
        })
    }
}

impl Stopped {
    /// How the validator ends: where it stood before its opening failed.
    fn end(&self, alloc: Global) -> Result<End, AllocError>
        ensures { IfOk result (λ end. end ≡ end_of_stopped self.now) }
    {
        Ok(End {
            validator: self.number,
            height: self.height,
            round: self.round,
            delivered: Seq::from_vec(items_of(alloc, &self.delivered)?),
        })
    }
}

/// The items of these values.
fn items_of(alloc: Global, values: &[Value]) -> Result<Vec<Item>, AllocError>
    ensures { IfOk result (λ found. found.items ≡ flat_map items values.now) }
{
    let mut items = Vec::new(alloc);
    for value in values {
        put_items(alloc, &mut items, value.txs.as_slice())?;
    }
    Ok(items)
}

fn put_items(alloc: Global, items: &mut Vec<Item>, txs: &[Tx]) -> Result<(), AllocError>
    ensures { OnOk result (items.new.items ≡ items.old.items ++ map item txs.now) }
{
    for tx in txs {
        items.push(Item {
            client: tx.client,
            session: tx.session,
            number: tx.number,
            op: tx.op.copy(alloc)?,
        })?;
    }
    Ok(())
}
