//! The words of a command line of `tmnode`, as typed settings, what it tells, and how it ends: each fault with its line on
//! standard error and its exit status.
//!
//! - `tmnode run --id I --powers P,P,.. --keys FILE --journal FILE --peers ADDR,ADDR,.. --start MS --delta MS
//!   [--idle MS] [--rest MS] [--links open|guarded] [--redial MS] [--from POSITION] [--stop K] [--log LEVEL]
//!   [--status ADDR] [--metrics ADDR] [--config FILE]`
//!   is a validator: number I of those with these powers and addresses.
//! - `tmnode send --id C --validators N --keys FILE --to ADDR,ADDR,.. --number M [--session S]` with one of `--data HEX`,
//!   `--close` and `--file FILE` sends transactions of one session of client C.
//! - `tmnode keys --validators N --clients C --out DIR` makes the key file of each of so many validators and clients.
//! - `tmnode journal FILE [--height H] [--json|--list] [--follow]` prints what a journal holds.
//! - `--help`, also behind `run`, `send`, `keys` or `journal`, and `--version` ask for a page.
//!
//! Numbers are decimal digits alone. Nothing here opens a file or a socket.
#![tactic(auto)]

mod answer;
mod command;
mod failure;
mod invocation;
mod lists;
mod looking;
mod options;
mod running;
mod sending;
mod status_line;

pub use answer::Answer;
pub use command::{VERSION, is_run_option};
pub use failure::{ConfigTrouble, Failure, JournalTrouble, KeysTrouble};
pub use invocation::{
    Invocation, Keeping, KeysSettings, Page, RunSettings, SendSettings, Sending, SettingsFault,
    settings,
};
pub use looking::{JournalForm, JournalSettings};
pub use sending::line_op;
pub use status_line::StatusLine;
