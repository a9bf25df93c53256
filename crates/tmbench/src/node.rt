//! The node that is measured: validator 3 of four of power 1.

ghost use Rattle.std.specs.Prelude.{◌≡◌, IfOk, length};
ghost use Rattle.protocol.specs.Tags.{Validator};
ghost use Rattle.protocol.specs.State.{Node as ProtocolNode};
ghost use Rattle.node_core.specs.Core.{Stands};

use crate::fault::BenchFault;
use authenticators::{KeyRing, Party};
use node_core::{Config, NodeCore};
use powers::Powers;
use std::alloc::{AllocError, Global};
use std::fmt::Write;
use vote_journal::{Journal, MemoryStore};

/// Its number.
pub(crate) const ME: u16 = 3;

/// The keys of the validators, which are all the same.
const KEYS: &str = "v0 v3 1111111111111111111111111111111111111111111111111111111111111111
v1 v3 1111111111111111111111111111111111111111111111111111111111111111
v2 v3 1111111111111111111111111111111111111111111111111111111111111111
v3 v3 1111111111111111111111111111111111111111111111111111111111111111
v3 v0 1111111111111111111111111111111111111111111111111111111111111111
v3 v1 1111111111111111111111111111111111111111111111111111111111111111
v3 v2 1111111111111111111111111111111111111111111111111111111111111111
";

/// Its core, with the keys of so many clients, over a journal in memory. It has not begun.
pub(crate) fn new_core(alloc: Global, clients: u16) -> Result<NodeCore<MemoryStore>, BenchFault>
    ensures { IfOk result (λ core. (n : ProtocolNode) × Stands n core) }
{
    let powers = four(alloc)?;
    let ring = ring(alloc, clients)?;
    let journal = Journal::in_memory(alloc, ME)?;
    Ok(NodeCore::new(alloc, Config { me: ME, powers }, ring, journal))
}

/// Four validators of power 1.
pub(crate) fn four(alloc: Global) -> Result<Powers, BenchFault>
    ensures { IfOk result (λ powers. length powers ≡ 4) }
{
    let Ok(powers) = Powers::new(vec![in alloc; 1, 1, 1, 1]?) else {
        return Err(BenchFault::NoNode);
    };
    if powers.count() != 4 {
        return Err(BenchFault::NoNode);
    }
    Ok(powers)
}

/// Its keys.
pub(crate) fn ring(alloc: Global, clients: u16) -> Result<KeyRing, BenchFault>
    ensures { IfOk result (λ ring. (ring.me ≡ Validator 3) × (ring.count ≡ 4)) }
{
    let text = key_file(alloc, clients)?;
    let Ok(ring) = KeyRing::read(alloc, text.as_bytes(), Party::Validator(ME), 4) else {
        return Err(BenchFault::NoNode);
    };
    if ring.me() != Party::Validator(ME) || ring.count() != 4 {
        return Err(BenchFault::NoNode);
    }
    Ok(ring)
}

/// The text of its key file.
fn key_file(alloc: Global, clients: u16) -> Result<String, AllocError> {
    let mut text = String::from_str(alloc, KEYS)?;
    for client in 0..clients {
        writeln!(
            text,
            "c{client} v3 1111111111111111111111111111111111111111111111111111111111111111"
        )?;
    }
    Ok(text)
}
