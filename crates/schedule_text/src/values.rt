//! The values of a schedule, by name and by id.

ghost use Rattle.std.specs.Prelude.{◌≡◌, Some, IfOk, length, map};
ghost use Rattle.protocol.specs.Values.{Tx};
ghost use Rattle.protocol.specs.Messages.{OfTx};
ghost use Rattle.world_parties.specs.Sending.{bare_tx, submitted};
ghost use Rattle.schedule_text.specs.Values.{tx_of, value_of};

use indexmap::IndexMap;
use messages::{Body, Message, read};
use std::alloc::{AllocError, Global};
use transactions::{Duplicate, Fault, Id, Seq, Shared, Tx, Value, len_of_tx_body, value_id};
use world_parties::{Parties, Tagged};

/// The values of a schedule, in order of their lines.
#[derive(Drop)]
pub(crate) struct Values {
    by_name: IndexMap<String, Value>,
    /// The place of the first value with an id.
    first_with: IndexMap<Id, usize>,
}

impl Values {
    pub(crate) fn new(alloc: Global) -> Values {
        Values {
            by_name: IndexMap::new(alloc),
            first_with: IndexMap::new(alloc),
        }
    }

    /// The value with this name.
    pub(crate) fn get(&self, name: &str) -> Option<&Value> {
        self.by_name.get(name)
    }

    /// The first name, in order of the lines, of a value with this id.
    pub(crate) fn name_of(&self, id: &Id) -> Option<&str> {
        let place = self.first_with.get(id)?;
        let (name, _) = self.by_name.get_index(*place)?;
        Some(name.as_str())
    }

    /// Gives a name that has none yet to the value. One that has no spelling has no id.
    pub(crate) fn define(
        &mut self,
        alloc: Global,
        name: &str,
        value: Value,
    ) -> Result<(), AllocError> {
        let place = self.by_name.len();
        let id = value_id(alloc, &value);
        let name = String::from_str(alloc, name)?;
        self.by_name.insert(name, value)?;
        match id {
            Ok(id) => self.note(id, place),
            Err(Fault::OutOfMemory) => Err(AllocError),
            Err(_) => Ok(()),
        }
    }

    /// Notes the place of a value with this id, where it is the first one.
    fn note(&mut self, id: Id, place: usize) -> Result<(), AllocError> {
        if !self.first_with.contains_key(&id) {
            self.first_with.insert(id, place)?;
        }
        Ok(())
    }
}

/// The value of these items.
pub(crate) fn value_of(
    alloc: Global,
    lines: &[Tagged],
    parties: &Parties,
) -> Result<Value, AllocError>
    ensures { IfOk result (λ value. value ≡ value_of (length parties.now.powers) lines.now) }
{
    let mut txs = Vec::with_capacity(alloc, lines.len())?;
    for line in lines {
        txs.push(tx_of(alloc, line, parties)?)?;
    }
    Ok(Value {
        txs: Shared::from_vec(alloc, txs)?,
    })
}

/// The transaction with its tags; without any where it has no spelling, so that no value with it has one.
fn tx_of(alloc: Global, line: &Tagged, parties: &Parties) -> Result<Tx, AllocError>
    ensures { IfOk result (λ tx. tx ≡ tx_of (length parties.now.powers) line.now) }
{
    let bare = bare_tx(alloc, line)?;
    match len_of_tx_body(&bare) {
        Ok(_) => tagged_tx(alloc, line, parties),
        Err(_) => Ok(bare),
    }
}

/// The transaction without tags.
fn bare_tx(alloc: Global, line: &Tagged) -> Result<Tx, AllocError>
    ensures { IfOk result (λ tx. tx ≡ bare_tx line.now) }
{
    Ok(Tx {
        client: line.item.client,
        session: line.item.session,
        number: line.item.number,
        op: line.item.op.copy(alloc)?,
        tags: Seq::new(alloc),
    })
}

/// The transaction as it comes in a frame of its own.
fn tagged_tx(alloc: Global, line: &Tagged, parties: &Parties) -> Result<Tx, AllocError>
    ensures { IfOk result (λ tx. tx ≡ record (bare_tx line.now) { tags = (submitted (length parties.now.powers) line.now).tags }) }
{
    let Ok(frame) = parties.frame_of_tx(alloc, line) else {
        return Err(AllocError);
    };
    match read(alloc, &frame) {
        Ok(message) => tx_in(message).ok_or(AllocError),
        Err(_) => Err(AllocError),
    }
}

/// The transaction that a client's message brings.
fn tx_in(message: Message) -> Option<Tx>
    ensures { (tx : Tx) → message.body ≡ OfTx tx → result ≡ Some (record tx { tags = message.tags }) }
{
    let Message { body, tags } = message;
    match body {
        Body::Tx(tx) => Some(Tx { tags, ..tx }),
        _ => None,
    }
}
