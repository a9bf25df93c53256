//! Schedules as texts: what is done to a world of validators and clients, line by line, and the report of the run.
//!
//! A schedule is a text of lines, each ended by a line feed; the last may lack it. An empty line
//! and one that begins with `#` are skipped. Any other line is words with single spaces between
//! them. Numbers are decimal without leading zeros, and bytes are lower case hexadecimal, `-` for
//! none. A LIST is validators' numbers with commas between them. Setup lines come first, in this
//! order:
//!
//! - `powers P P ..`, once: the power of each validator, from number 0 on.
//! - `clients N`, once: clients 0 to N - 1, N from 1 to 1,024.
//! - `liars V V ..`, at most once: the validators that lie; all others are correct.
//! - `value NAME ITEM ..`, any number: a value by name, one to eight letters A to Z, each name
//!   once. An item is `CLIENT:NUMBER:BYTES` or `CLIENT:NUMBER:close`, and its tags are right for
//!   every validator; with `/LIST` behind it, for the listed ones alone, and the others are zeros.
//!   In a session after the client's first, from 1 on, it begins with `CLIENT.SESSION`.
//!   With no item it is the empty value.
//!
//! Then the world begins, and the executed lines follow, each an event of it:
//!
//! - `send C BYTES` and `close C`: client C sends its next transaction, which is a message with a number.
//! - `open C`: client C, which has closed its session, begins its next one.
//! - `deliver M P`: message number M comes to the correct validator P.
//! - `pass`: each message so far comes to each correct validator but its sender to which it wasn't brought.
//! - `propose S P H R VR NAME`: liar S's proposal of height H and round R comes to P. VR, the valid round, is -1
//!   for none.
//! - `vote S P KIND H R CONTENT`: liar S's vote comes to P. KIND is `prevote` or `precommit`, and
//!   CONTENT a name or `nil`.
//! - `bundle S P H R NAME IDNAME LIST`: liar S's bundle comes to P: the value NAME under the id of
//!   IDNAME, with a precommit by each liar of the list, as often as it stands there.
//! - `tx P ITEM`: this transaction comes to P.
//! - `raw P BYTES`: one frame comes to P, these bytes, of any number.
//! - `timeout P KIND H R`: P's timeout is due. KIND is `propose`, `prevote` or `precommit`.
//! - `ask P`: P asks for the decision of its height.
//! - `resend P`: P sends its own messages of the height again. A report tells of none that it has told of.
//! - `restart P`: P ends, and is opened again over its store as it stands, synced or not, and settled. A decision that it
//!   finds there and that was never told is told now.
//! - `fail P CALL KEEP`: of the appends, cuts and syncs of P's store from now on, counted from 1, the one of number CALL
//!   fails. Of an append the first KEEP bytes stay, none for `-`, all where there are fewer; a cut or a sync does nothing.
//!   Each such line counts by itself; where several come at one call, the latest tells what stays. Where P can't be opened
//!   again for it, P refuses all as one that has halted, until it is opened.
//!
//! One line is no event: `state P` tells how P stands, and which proposals it keeps.
//!
//! A schedule may have its report in it (`follow`): under each line what it caused, each line of the report behind `#` and four
//! spaces.
//!
//! What comes, comes as a frame, with right tags but where an item says otherwise. The keys, the messages, the calls of the
//! validators and what is told are those of a `World`.
#![tactic(auto)]

mod cast;
mod fault;
mod following;
mod items;
mod lines;
mod margin;
mod numbers;
mod program;
mod report;
mod running;
mod schedule;
mod standing;
mod steps;
mod text;
mod values;
mod words;

pub use fault::Failure;
pub use following::follow;
pub use program::{HELP, simulate};
