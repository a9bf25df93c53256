//! What a Tendermint validator is, over plain values, and the theorems about any run of many of them.
//!
//! Each theorem is the contract of a function that does nothing. A run is any list of events: bytes come to a
//! validator, a rule or a timeout fires, a validator stops and is opened again over its journal, a client sends.
#![tactic(auto)]

mod limits;
mod records;
mod refusal;
mod standing;
mod types;

ghost use Rattle.protocol.specs.Examples.{WorkedCases, WorkedRuns};
ghost use Rattle.protocol.specs.Order.{EnabledLaw, FirstLaw, QuietLaw};
ghost use Rattle.protocol.specs.Laws.{AgreeLaw, BeginsLaw, CertificateLaw, FifoLaw, FrameLaw, HistoryLaw, JudgeLaw, LastsLaw, LockLaw, NoLaterQuorumLaw, OneVoteLaw, RefusedLaw, ReplayLaw, ReportLaw, SentLaw, TaggedLaw, TimeoutLaw};
ghost use Rattle.protocol.specs.Witness.{PremisesMetLaw};

pub use limits::{
    LAST_CLIENT, LAST_NUMBER, LONGEST_CONTENT, LONGEST_TX_BODY, MOST_CLIENTS, MOST_DATA,
    MOST_HEIGHT, MOST_MESSAGES, MOST_MILLISECONDS, MOST_PRECOMMITS, MOST_PROPOSALS, MOST_ROUNDS,
    MOST_TAGS, MOST_TXS, MOST_VALIDATORS, MOST_VALUE_BYTES, MOST_WAITING, ROUNDS_AHEAD,
};
pub use records::{Act, OwnMessage, Record};
pub use refusal::{JudgeFault, Refusal, SubmitFault};
pub use standing::Standing;
pub use types::{Stamp, Step, Timeout, ValueAt};

/// Within a height a validator's own messages grow in round and step, over restarts too, and each vote that it released is in
/// its journal: it never votes twice in one step of a round. Where nothing is forged, so are the own votes that it
/// keeps, and its precommit for a value followed a quorum of prevotes for the value in that round.
pub fn one_vote_law()
    ensures { OneVoteLaw }
{}

/// At every validator the delivered list, the height and the lock are as its journal tells: a stop forgets none of
/// them, and the lock is its last own precommit for a value of the present height.
pub fn lock_law()
    ensures { LockLaw }
{}

/// Where a quorum precommitted a value in some round, no later round of that height has a quorum of prevotes for
/// another value: why two rounds can't decide differently.
pub fn no_later_quorum_law()
    ensures { NoLaterQuorumLaw }
{}

/// A validator's earlier delivered list begins its later one: nothing delivered is taken back.
pub fn lasts_law()
    ensures { LastsLaw }
{}

/// Of two correct validators' delivered lists, at any two moments of a run, one begins the other.
pub fn agree_law()
    ensures { AgreeLaw }
{}

/// A correct client's items in a correct validator's delivered list begin what the client sent: none is forged,
/// left out in between, repeated or reordered.
pub fn sent_law()
    ensures { SentLaw }
{}

/// In every validator's delivered list a session's transactions are its numbers from one, each once, with nothing after
/// its close, and a client's sessions stand in order.
pub fn fifo_law()
    ensures { FifoLaw }
{}

/// The headline: agreement at any two moments, that an earlier list begins the later one, and each client's order
/// and origin, whatever less than a third of the power does.
pub fn begins_law()
    ensures { BeginsLaw }
{}

/// Where the order of the rules names none, none holds but a timeout's or a bundle's.
pub fn quiet_law()
    ensures { QuietLaw }
{}

/// A rule that the order names holds.
pub fn enabled_law()
    ensures { EnabledLaw }
{}

/// No rule that comes before the one that the order names holds.
pub fn first_law()
    ensures { FirstLaw }
{}

/// Each decision's id is its value's, and its certificate names a quorum, whose tags are right for the validator that
/// decided.
pub fn certificate_law()
    ensures { CertificateLaw }
{}

/// What is refused changes nothing and releases nothing.
pub fn refused_law()
    ensures { RefusedLaw }
{}

/// Nothing stands against a bundle of the present height exactly where the rule that decides by it may fire.
pub fn judge_law()
    ensures { JudgeLaw }
{}

/// A due timeout is refused exactly where it would end a round at the limit of rounds. Where its rule doesn't hold, it
/// changes nothing.
pub fn timeout_law()
    ensures { TimeoutLaw }
{}

/// A body whose fields are in range is, with its tags, a message whose frame is read again, and each of up to 128
/// receivers finds its own tag right. The longest content, a bundle's with 128 precommits, has at most 1,028,817 bytes of
/// the 1,048,576 that a frame may have.
pub fn tagged_law()
    ensures { TaggedLaw }
{}

/// Bytes are read as a message exactly where they spell its frame: what a validator takes bytes for doesn't depend on
/// how they are read.
pub fn frame_law()
    ensures { FrameLaw }
{}

/// What a call does to a node, releases and schedules is what its events do in a run: its input's event, and a firing
/// for each rule that the order names along the way.
pub fn history_law()
    ensures { HistoryLaw }
{}

/// The node that a history of calls replays is the one that the history's events leave, so the other laws speak of it.
pub fn replay_law()
    ensures { ReplayLaw }
{}

/// A run's report tells each refusal, each released body in order, and each decision in a validator's journal in order,
/// but those that the journal got as its validator stopped: these the report can't tell, and the law names them.
pub fn report_law()
    ensures { ReportLaw }
{}

/// Runs of four validators that compute, over frames with tags and ids that another program made: a decision of a
/// client's transaction; a lock that holds against a new proposal, lets go after a quorum of an earlier round, and
/// outlasts a stop; and a bundle that decides a value which was prevoted nil for its wrong tags.
pub fn worked_runs()
    ensures { WorkedRuns }
{}

/// The premises of the headline hold together with a run in which something happens: of four validators one lies, a
/// client sends, two validators decide what it sent, one of them after a stop within a firing and by a bundle that it
/// asked for.
pub fn premises_met_law()
    ensures { PremisesMetLaw }
{}

/// Single cases that compute: tallies, what a lock allows, which values are valid, timeouts, the order, and refusals.
pub fn worked_cases()
    ensures { WorkedCases }
{}
