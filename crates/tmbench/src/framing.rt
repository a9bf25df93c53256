//! The frames that a validator is given, and the bytes that have to be hashed for them.

use crate::fault::BenchFault;
use authenticators::hmac;
use messages::{Body, frame_of, spell_body};
use std::alloc::Global;
use transactions::{Data, Op, Seq, Tx};

/// The key of every pair.
pub(crate) const KEY: [u8; 32] = [0x11; 32];

/// A frame, and what its receiver hashes of it.
#[derive(Drop)]
pub(crate) struct Frame {
    pub(crate) bytes: Vec<u8>,
    /// Each of these is hashed under a key.
    pub(crate) tagged: Vec<Vec<u8>>,
    /// This is hashed without one: a proposal's value.
    pub(crate) digested: Vec<u8>,
}

/// The frame of a body, with a tag for each of four validators, who all have one key.
pub(crate) fn framed(alloc: Global, body: &Body) -> Result<Frame, BenchFault> {
    let spelled = spell_body(alloc, body)?;
    let tag = hmac(&KEY, &spelled);
    let bytes = frame_of(alloc, &spelled, &[tag; 4])?;
    let mut tagged = Vec::new(alloc);
    tagged.push(spelled)?;
    Ok(Frame {
        bytes,
        tagged,
        digested: Vec::new(alloc),
    })
}

/// A client's transaction of 64 bytes, without tags.
pub(crate) fn tx(alloc: Global, client: u16, number: u64) -> Result<Tx, BenchFault> {
    Ok(Tx {
        client,
        session: 0,
        number,
        op: op(alloc)?,
        tags: Seq::new(alloc),
    })
}

/// 64 bytes.
pub(crate) fn op(alloc: Global) -> Result<Op, BenchFault> {
    Ok(Op::Bytes(Data::from_vec(vec![in alloc; 7u8; 64]?)))
}
