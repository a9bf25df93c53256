//! The keys of all parties.

ghost use Rattle.std.specs.Prelude.{◌≡◌, ◌<◌, ◌≤◌, [], ◌∷◌, ◌++◌, All, length, IfOk, OnOk};
ghost use Rattle.std.specs.Io.KnownBytes.{Consumes};
ghost use Rattle.std.specs.List.{flat_map};
ghost use Rattle.key_making.specs.Table.{key_of, row_of, IsParty, IsKey};

use authenticators::Party;
use std::alloc::{AllocError, AllocFailed, Global};
use std::io::{ErrorKind, Read};
use std::marker::Model;

/// Why no keys are made.
#[derive(Clone, Copy, Debug, PartialEq, Eq, thiserror::Error)]
pub enum DrawFault {
    /// The source gave fewer bytes than the keys have, or failed.
    #[error("no random bytes are left")]
    NoBytes,
    /// No memory is left.
    #[error("out of memory")]
    OutOfMemory,
}

impl From<AllocError> for DrawFault {
    ghost use Rattle.key_making.specs.declared.table.DrawFault.TheVariants.{OutOfMemory};

    ghost from_gives = { λ _ fault. fault ≡ OutOfMemory };

    fn from(_error: AllocError) -> DrawFault {
        DrawFault::OutOfMemory
    }
}

impl<T: Drop> From<AllocFailed<T>> for DrawFault {
    ghost use Rattle.key_making.specs.declared.table.DrawFault.TheVariants.{OutOfMemory};

    ghost from_gives = { λ _ fault. fault ≡ OutOfMemory };

    fn from(_error: AllocFailed<T>) -> DrawFault {
        DrawFault::OutOfMemory
    }
}

/// A key of 32 bytes for what each validator and each client sends to each validator, itself among them.
///
/// Clauses see it as a `Table`. It has no debug text, since it is secret.
#[derive(Drop)]
pub struct KeyTable {
    validators: u16,
    clients: u16,
    /// Sender after sender, the validators first, and for each the receivers in turn.
    pub(crate) keys: Vec<[u8; 32]>,
}

impl Model for KeyTable {
    ghost use Rattle.key_making.specs.Table.{Table, IsTable};

    ghost Value = { Table };

    ghost view = { λ a. record { validators = a.validators; clients = a.clients; keys = a.keys.items } };

    ghost invariant = { λ a. IsTable (record { validators = a.validators; clients = a.clients; keys = a.keys.items }) };
}

impl KeyTable {
    /// Draws a key for each sender and each validator from a source of random bytes: 32 bytes a key, sender after sender.
    ///
    /// The keys are as hard to guess as the source's bytes; no clause speaks of that. Where they can't all be made, none is
    /// handed out, and what was drawn is lost.
    pub fn draw<R: Read>(
        alloc: Global,
        source: &mut R,
        validators: u16,
        clients: u16,
    ) -> Result<KeyTable, DrawFault>
        requires validators { validators ≤ 128 }
        requires clients { clients ≤ 1024 }
        ensures size { IfOk result (λ table. (table.validators ≡ validators) × (table.clients ≡ clients)) }
        ensures drawn { IfOk result (λ table. Consumes (R.remaining source.old) (R.remaining source.new) (flat_map (λ key. key) table.keys)) }
    {
        let count = (usize::from(validators) + usize::from(clients)) * usize::from(validators);
        let keys = draw_keys(alloc, source, count)?;
        Ok(KeyTable {
            validators,
            clients,
            keys,
        })
    }

    /// How many validators there are.
    pub fn validators(&self) -> u16
        ensures count { result ≡ self.now.validators }
        ensures few { result ≤ 128 }
    {
        self.validators
    }

    /// How many clients there are.
    pub fn clients(&self) -> u16
        ensures count { result ≡ self.now.clients }
        ensures few { result ≤ 1024 }
    {
        self.clients
    }

    /// The key of what a party sends to a validator.
    #[tactic(auto, unfolding(crate::specs::Table::key_of))]
    pub fn key(&self, from: Party, to: u16) -> &[u8; 32]
        requires from { IsParty self.now from }
        requires to { to < self.now.validators }
        ensures { result.now ≡ key_of self.now from to }
    {
        let row = match from {
            Party::Validator(number) => usize::from(number),
            Party::Client(number) => usize::from(self.validators) + usize::from(number),
        };
        &self.keys[row * usize::from(self.validators) + usize::from(to)]
    }
}

/// Draws so many keys.
fn draw_keys<R: Read>(
    alloc: Global,
    source: &mut R,
    count: usize,
) -> Result<Vec<[u8; 32]>, DrawFault>
    ensures count { IfOk result (λ keys. length keys.items ≡ count) }
    ensures keys { IfOk result (λ keys. All IsKey keys.items) }
    ensures drawn { IfOk result (λ keys. Consumes (R.remaining source.old) (R.remaining source.new) (flat_map (λ key. key) keys.items)) }
{
    let mut keys = Vec::with_capacity(alloc, count)?;
    for _ in 0..count {
        let key = draw_key(source)?;
        add_key(&mut keys, &key)?;
    }
    Ok(keys)
}

/// Adds a key behind the others.
fn add_key(keys: &mut Vec<[u8; 32]>, key: &[u8; 32]) -> Result<(), DrawFault>
    ensures ok { OnOk result (keys.new.items ≡ keys.old.items ++ key.now ∷ []) }
    ensures key { IsKey key.now }
{
    keys.push(*key)?;
    Ok(())
}

/// Draws one key.
fn draw_key<R: Read>(source: &mut R) -> Result<[u8; 32], DrawFault>
    ensures { IfOk result (λ key. Consumes (R.remaining source.old) (R.remaining source.new) key) }
{
    let mut key = [0u8; 32];
    match source.read_exact(&mut key) {
        Ok(()) => Ok(key),
        Err(error) if error.kind() == ErrorKind::OutOfMemory => Err(DrawFault::OutOfMemory),
        Err(_) => Err(DrawFault::NoBytes),
    }
}
