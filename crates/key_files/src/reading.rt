//! Reading a party's keys.

ghost use Rattle.std.specs.Prelude.{◌≡◌, ◌⊎◌, IfOk, Ok};
ghost use Rattle.authenticators.specs.Keys.{ring_of};
ghost use Rattle.node_settings.specs.declared.failure.Failure.TheVariants.{OutOfMemory};

use authenticators::{KeyRing, Party, held_law};
use node_settings::{Failure, KeysTrouble};
use std::alloc::Global;
use std::io::ErrorKind;
use std::rt::Files;
use std::{fs, io};

/// The failure of a call of the system: `OutOfMemory` where memory was refused, else this one.
pub fn memory_or(error: &io::Error, other: Failure) -> Failure
    ensures { (result ≡ other) ⊎ (result ≡ OutOfMemory) }
{
    match error.kind() {
        ErrorKind::OutOfMemory => Failure::OutOfMemory,
        _ => other,
    }
}

/// The keys of a party, as the text of its key file tells them.
fn ring_in(alloc: Global, text: &[u8], me: Party, validators: u16) -> Result<KeyRing, Failure>
    ensures of_these { IfOk result (λ ring. (ring.me ≡ me) × (ring.count ≡ validators)) }
    ensures told { IfOk result (λ ring. ring_of me validators text.now ≡ Ok ring) }
{
    held_law();
    Ok(KeyRing::read(alloc, text, me, validators)?)
}

/// The keys of a party among so many validators, from the key file of this name.
pub fn read_ring<R: Files + AllocGlobal>(
    rt: &R,
    name: &str,
    me: Party,
    validators: u16,
) -> Result<KeyRing, Failure>
    ensures { IfOk result (λ ring. (ring.me ≡ me) × (ring.count ≡ validators)) }
{
    ring_in(rt.alloc(), &key_text(rt, name)?, me, validators)
}

/// The same keys twice: for a node, and for who examines frames before the node takes them.
pub fn read_rings<R: Files + AllocGlobal>(
    rt: &R,
    name: &str,
    me: Party,
    validators: u16,
) -> Result<(KeyRing, KeyRing), Failure>
    ensures of_these { IfOk result (λ rings. (rings.0.me ≡ me) × (rings.0.count ≡ validators)) }
    ensures same { IfOk result (λ rings. rings.1 ≡ rings.0) }
{
    let text = key_text(rt, name)?;
    let ring = ring_in(rt.alloc(), &text, me, validators)?;
    Ok((ring, ring_in(rt.alloc(), &text, me, validators)?))
}

/// The text of a key file.
fn key_text<R: Files + AllocGlobal>(rt: &R, name: &str) -> Result<Vec<u8>, Failure> {
    fs::read(rt, name).map_err(|error| memory_or(&error, Failure::Keys(KeysTrouble::Unreadable)))
}
