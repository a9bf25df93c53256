//! Values beside their ids.

ghost use Rattle.std.specs.Prelude.{◌≡◌, IfOk};
ghost use Rattle.sha2.specs.Sha256.{sha256};
ghost use Rattle.transactions.specs.Grammar.{value_spelling};

use crate::sequence::Duplicate;
use crate::tx::{Id, Value};
use std::alloc::{AllocError, Global};
use std::marker::Model;

/// A value and its id, which is found once and goes with it. Contracts see the value.
#[derive(Debug, Drop)]
pub struct Named {
    value: Value,
    id: Id,
}

impl Model for Named {
    ghost use Rattle.std.specs.Prelude.{◌≡◌};
    ghost use Rattle.sha2.specs.Sha256.{sha256};
    ghost use Rattle.transactions.specs.Grammar.{value_spelling};
    ghost use Rattle.transactions.specs.declared.tx.Value.{Value as AnyValue};

    ghost Value = { AnyValue };

    ghost view = { λ a. a.value };

    ghost invariant = { λ a. a.id ≡ sha256 (value_spelling a.value) };
}

impl Named {
    /// The value with this id, which has to be its own.
    pub fn new(value: Value, id: Id) -> Named
        requires { id ≡ sha256 (value_spelling value) }
        ensures { result ≡ value }
    {
        Named { value, id }
    }

    /// The value.
    pub fn value(&self) -> &Value
        ensures { result.now ≡ self.now }
    {
        &self.value
    }

    /// Its id.
    pub fn id(&self) -> Id
        ensures { result ≡ sha256 (value_spelling self.now) }
    {
        self.id
    }

    /// The value alone.
    pub fn into_value(self) -> Value
        ensures { result ≡ self }
    {
        let Named { value, id: _ } = self;
        value
    }
}

impl Duplicate for Named {
    fn copy(&self, alloc: Global) -> Result<Named, AllocError> {
        Ok(Named {
            value: self.value.copy(alloc)?,
            id: self.id,
        })
    }
}
