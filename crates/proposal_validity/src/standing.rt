//! How transactions change what is known of clients.

ghost use Rattle.std.specs.Prelude.{◌≡◌, ◌≤◌, ◌<◌, ℕ, All, OnErr, OnOk, length};
ghost use Rattle.transactions.specs.Grammar.{IsTx};
ghost use Rattle.proposal_validity.specs.Standing.{standing, IsStanding};
ghost use Rattle.proposal_validity.specs.Course.{after, items_of};

use protocol::Standing;
use std::alloc::AllocError;
use transactions::Tx;

/// The least number above each client's.
pub fn past_last(txs: &[Tx]) -> usize
    requires { All IsTx txs.now }
    ensures { All (λ tx. tx.client < result) txs.now }
{
    let mut len = 0usize;
    for tx in txs {
        len = len.max(tx.client as usize + 1);
    }
    len
}

/// Makes room for this many clients.
pub fn grow(standings: &mut Vec<Standing>, len: usize) -> Result<(), AllocError>
    ensures same { OnOk result ((client : ℕ) → standing standings.new.items client ≡ standing standings.old.items client) }
    ensures len { OnOk result (len ≤ length standings.new.items) }
    ensures small { All IsStanding standings.old.items → All IsStanding standings.new.items }
    ensures err { OnErr result (standings.new.items ≡ standings.old.items) }
{
    if standings.len() < len {
        standings.resize(len, Standing::FRESH)?;
    }
    Ok(())
}

/// Delivers the transactions one by one.
pub fn pass(standings: &mut [Standing], txs: &[Tx])
    requires spelled { All IsTx txs.now }
    requires room { All (λ tx. tx.client < length standings.old) txs.now }
    ensures each { (client : ℕ) → standing standings.new client ≡ after client (items_of txs.now) (standing standings.old client) }
    ensures small { All IsStanding standings.old → All IsStanding standings.new }
{
    for tx in txs {
        standings[tx.client as usize] = Standing::left_by(tx);
    }
}
