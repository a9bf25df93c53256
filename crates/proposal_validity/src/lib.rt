//! Which value may be delivered next.
//!
//! A client numbers the transactions of a session 1, 2, .. and may close it; after that it may go on in the
//! next session, from 1 again. Its sessions are 0, 1, .. A delivered list keeps the clients' order if each
//! client's transactions stand in it in that order. What has to be remembered of such a list is a
//! frontier: each client's last session and number, and whether the session is closed.
#![tactic(auto)]

ghost use Rattle.std.specs.Prelude.{◌≡◌, ◌≤◌, ◌+◌, ◌^◌, ◌++◌, ℕ, suc, [], List, All, IfOk, OnErr, OnOk, length, true};
ghost use Rattle.transactions.specs.Grammar.{IsTx, IsValue};
ghost use Rattle.protocol.specs.Values.{Item, item, items, valid};
ghost use Rattle.proposal_validity.specs.Standing.{standing, IsFrontierOf, IsStanding};
ghost use Rattle.proposal_validity.specs.Course.{all_fit, items_of};
ghost use Rattle.proposal_validity.specs.Laws.{FrontierLaw, ValidLaw};

mod standing;

use protocol::{MOST_CLIENTS, Standing};
use standing::{grow, pass, past_last};
use std::alloc::{AllocError, Global};
use std::marker::Model;
use transactions::{Tx, Value};

/// For each client its session, the number of its last transaction, and whether the session is closed.
///
/// It stands for the delivered list that left it behind, and answers without it. It takes memory for
/// the clients up to the highest that was ever delivered.
#[derive(Debug, Drop)]
pub struct Frontier {
    standings: Vec<Standing>,
}

impl Model for Frontier {
    ghost use Rattle.std.specs.Prelude.{All};
    ghost use Rattle.proposal_validity.specs.Standing.{Standings, IsStanding};

    ghost Value = { Standings };

    ghost view = { λ a. a.standings.items };

    ghost invariant = { λ a. All IsStanding a.standings.items };
}

impl Frontier {
    /// What is left behind where nothing is delivered. It takes no memory.
    pub fn new(alloc: Global) -> Frontier
        ensures { IsFrontierOf [] result }
    {
        Frontier {
            standings: Vec::new(alloc),
        }
    }

    /// The session of the client's last transaction: 0 for a client that has none.
    pub fn session(&self, client: u16) -> u32
        ensures { result ≡ (standing self.now client).session }
    {
        self.standing(client).session
    }

    /// The number that follows the client's last one in its session, 1 to 2^48 + 1: 1 for a client that has none.
    pub fn next(&self, client: u16) -> u64
        ensures next { result ≡ suc (standing self.now client).last }
        ensures small { result ≤ 2 ^ 48 + 1 }
    {
        self.standing(client).last + 1
    }

    /// Whether the client's session is closed.
    pub fn is_closed(&self, client: u16) -> bool
        ensures { result ≡ (standing self.now client).closed }
    {
        self.standing(client).closed
    }

    /// Whether the value may be delivered next: whether each of its transactions is its client's next,
    /// after those delivered and those before it in the value.
    ///
    /// It takes no memory, and looks at each transaction once: the place of each client's last one in the
    /// value is marked on the stack.
    pub fn valid(&self, value: &Value) -> bool
        requires { IsValue value.now }
        ensures { (d : List Item) → IsFrontierOf d self.now → result ≡ valid d value.now }
    {
        self.all_fit(value.txs.as_slice())
    }

    /// Delivers a value that is valid.
    ///
    /// It takes memory only where the value has a client above all that were delivered. Refused for
    /// want of memory, the frontier is as before.
    pub fn extend(&mut self, value: &Value) -> Result<(), AllocError>
        requires spelled { IsValue value.now }
        requires valid { (d : List Item) → IsFrontierOf d self.old → valid d value.now ≡ true }
        ensures ok { OnOk result ((d : List Item) → IsFrontierOf d self.old → IsFrontierOf (d ++ items value.now) self.new) }
        ensures err { OnErr result (self.new ≡ self.old) }
    {
        let txs = value.txs.as_slice();
        grow(&mut self.standings, past_last(txs))?;
        pass(&mut self.standings, txs);
        Ok(())
    }

    /// An equal frontier, or want of memory.
    pub fn copy(&self, alloc: Global) -> Result<Frontier, AllocError>
        ensures { IfOk result (λ copy. copy ≡ self.now) }
    {
        Ok(Frontier {
            standings: Vec::from_slice(alloc, self.standings.as_slice())?,
        })
    }

    /// Where the client stands.
    #[tactic(auto, unfolding(crate::specs::Standing::standing))]
    pub fn standing(&self, client: u16) -> Standing
        ensures standing { result ≡ standing self.now client }
        ensures small { IsStanding result }
    {
        self.standings
            .get(client as usize)
            .copied()
            .unwrap_or(Standing::FRESH)
    }

    fn all_fit(&self, txs: &[Tx]) -> bool
        requires few { length txs.now ≤ 256 }
        requires spelled { All IsTx txs.now }
        ensures { result ≡ all_fit (standing self.now) (items_of txs.now) }
    {
        let mut last_places: [Option<u8>; MOST_CLIENTS as usize] = [None; MOST_CLIENTS as usize];
        for (i, tx) in txs.iter().enumerate() {
            let client = tx.client as usize;
            let standing = match last_places[client] {
                Some(place) => Standing::left_by(&txs[place as usize]),
                None => self.standing(tx.client),
            };
            if !standing.admits(tx) {
                return false;
            }
            last_places[client] = Some(i as u8);
        }
        true
    }
}

/// A list goes on in the clients' order exactly where each further transaction is its client's next.
pub fn valid_law()
    ensures { ValidLaw }
{}

/// Lists that leave the same frontier behind admit the same values next.
pub fn frontier_law()
    ensures { FrontierLaw }
{}
