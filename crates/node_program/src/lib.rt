//! The program `tmnode`: a validator that serves its peers over TCP, a client that sends transactions, and the maker of
//! their key files.
//!
//! `tmnode run` reads its key file, opens its journal, and serves. From position 0 on, or from that of `--from`, also after a
//! restart, it prints each delivered item as its line (`printed_lines`). `tmnode send` prints what the validators answered.
//! `tmnode keys` writes the key file of each validator and client, `v0.keys` and so on and `c0.keys` and so on, and prints
//! nothing. `tmnode journal` prints what a journal holds. A failure is a line on standard error, and the exit status tells which
//! it was.
#![tactic(auto)]

mod metrics;
mod opening;
mod printing;
mod program;
mod progress;
mod telling;
mod validator;

pub use program::{node_program, tell};
