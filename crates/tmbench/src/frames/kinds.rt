//! The frames of each kind.

use crate::fault::BenchFault;
use crate::framing::{Frame, KEY, framed, tx};
use authenticators::hmac;
use messages::{Body, Proposal, Step, Vote};
use std::alloc::Global;
use transactions::{Seq, Shared, Tx, Value, len_of_tx_body, put_tx_body, spell_value};

/// How many clients send transactions.
pub(crate) const CLIENTS: u16 = 8;

/// What is measured.
#[derive(Clone, Copy, Debug, PartialEq, Eq)]
pub(crate) enum Kind {
    /// Prevotes for nil by three validators, of ten rounds.
    Prevotes,
    /// Transactions of 64 bytes, 64 of each of eight clients.
    Transactions,
    /// A proposal of 256 transactions of 64 bytes.
    Proposal,
}

impl Kind {
    /// The kind that the word names.
    pub(crate) fn read(word: String) -> Result<Kind, BenchFault> {
        match word.as_str() {
            "prevotes" => Ok(Kind::Prevotes),
            "transactions" => Ok(Kind::Transactions),
            "proposal" => Ok(Kind::Proposal),
            _ => Err(BenchFault::Wrong(word, "prevotes, transactions or proposal")),
        }
    }
}

/// The frames of a turn.
pub(crate) fn frames_of(alloc: Global, kind: Kind) -> Result<Vec<Frame>, BenchFault> {
    match kind {
        Kind::Prevotes => prevotes(alloc),
        Kind::Transactions => transactions(alloc),
        Kind::Proposal => {
            let mut frames = Vec::new(alloc);
            frames.push(proposal(alloc)?)?;
            Ok(frames)
        }
    }
}

fn prevotes(alloc: Global) -> Result<Vec<Frame>, BenchFault> {
    let mut frames = Vec::new(alloc);
    for place in 0..30u16 {
        let vote = Vote {
            step: Step::Prevote,
            height: 0,
            round: u32::from(place / 3),
            sender: place % 3,
            content: None,
        };
        frames.push(framed(alloc, &Body::Vote(vote))?)?;
    }
    Ok(frames)
}

fn transactions(alloc: Global) -> Result<Vec<Frame>, BenchFault> {
    let mut frames = Vec::new(alloc);
    for place in 0..512u16 {
        let tx = tx(alloc, place % CLIENTS, u64::from(place / CLIENTS) + 1)?;
        frames.push(framed(alloc, &Body::Tx(tx))?)?;
    }
    Ok(frames)
}

/// The proposal of validator 0, and what is hashed for its transactions.
fn proposal(alloc: Global) -> Result<Frame, BenchFault> {
    let (txs, bodies) = proposed(alloc)?;
    let value = Value {
        txs: Shared::from_vec(alloc, txs)?,
    };
    let digested = spell_value(alloc, &value)?;
    let body = Body::Proposal(Proposal {
        height: 0,
        round: 0,
        sender: 0,
        valid_round: None,
        value,
    });
    let mut frame = framed(alloc, &body)?;
    for body in bodies {
        frame.tagged.push(body)?;
    }
    frame.digested = digested;
    Ok(frame)
}

/// The transactions of the proposal, with their tags, and the bodies that the tags are of.
fn proposed(alloc: Global) -> Result<(Vec<Tx>, Vec<Vec<u8>>), BenchFault> {
    let mut txs = Vec::new(alloc);
    let mut bodies = Vec::new(alloc);
    for number in 1..257u64 {
        let bare = tx(alloc, 7, number)?;
        let body = tx_body(alloc, &bare)?;
        txs.push(Tx {
            tags: tags(alloc, &body)?,
            ..bare
        })?;
        bodies.push(body)?;
    }
    Ok((txs, bodies))
}

/// The body of a transaction, of which its tags are.
fn tx_body(alloc: Global, tx: &Tx) -> Result<Vec<u8>, BenchFault> {
    let mut body = Vec::with_capacity(alloc, len_of_tx_body(tx)?)?;
    put_tx_body(&mut body, tx)?;
    Ok(body)
}

/// A tag for each of four validators, who all have one key.
fn tags(alloc: Global, body: &[u8]) -> Result<Seq<[u8; 32]>, BenchFault> {
    let tag = hmac(&KEY, body);
    Ok(Seq::from_vec(vec![in alloc; tag; 4]?))
}
