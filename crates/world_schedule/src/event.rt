//! What is done to a world.

use protocol::Timeout;
use transactions::{Op, Seq};
use world_parties::{Bundling, Proposing, Tagged, Voting};

/// A call of a store that is to fail, as when its device does.
///
/// A call of a validator whose save failed answers 17, and each later one 15, until its validator is opened again. An opening
/// that fails answers 17, and there is no settling after it; then each call answers 15 too.
#[derive(Clone, Copy, Debug, PartialEq, Eq)]
pub struct Failing {
    /// Its number, of the appends, cuts and syncs from now on, from 1; 0 for none.
    pub call: u64,
    /// How many bytes of an append stay; all, where there are fewer.
    pub keep: u64,
}

/// One event of a world. A number of a validator, of a client or of a message may be anyone's or nobody's: which it has to
/// be is told by the fault of a run.
#[derive(Debug, Drop)]
pub enum Event {
    /// A client sends its next number, with right tags. The message is numbered.
    Send(u64, Op),
    /// A client that sent its close begins its next session. Nothing is told of it.
    Open(u64),
    /// The message of this number comes to a correct validator.
    Deliver(u64, u64),
    /// Each message that was released before comes to each correct validator but its sender to which it hasn't been
    /// brought, in order of its number and then of theirs.
    Pass,
    /// A timeout is due at a correct validator.
    Timeout(u64, Timeout),
    /// A correct validator lets an ask for its height go.
    Ask(u64),
    /// A correct validator lets its own messages of its height go again.
    Resend(u64),
    /// A correct validator ends, is opened again over its journal as its store has it, and is settled. What its journal
    /// holds that was never told is told then.
    Restart(u64),
    /// From now on a call of a correct validator's store fails. Nothing is told of it until then.
    Fail(u64, Failing),
    /// A transaction comes to a correct validator.
    Submit(u64, Tagged),
    /// A liar's proposal comes to a correct validator.
    Propose(u64, Proposing),
    /// A liar's vote comes to a correct validator.
    Vote(u64, Voting),
    /// A liar's bundle comes to a correct validator.
    Bundle(u64, Bundling),
    /// One frame of any bytes comes to a correct validator.
    Frame(u64, Seq<u8>),
}
