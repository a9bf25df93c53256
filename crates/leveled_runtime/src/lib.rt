//! A runtime that logs up to a level of the program's choice.
//!
//! What threads and a network need is passed on. The handle of `log` that has a level too passes on no dial with a limit and
//! no look-up of a name; and a function that starts threads and is generic over it can't be called under a bound on the
//! streams of the runtime inside.
#![tactic(auto)]

mod forward;
mod leveled;

pub use leveled::Leveled;
