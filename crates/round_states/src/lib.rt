//! A validator's state: its typed rounds, what it takes in, and what its rules are made of.
//!
//! What a rule does is a [`Plan`]: what it saves, what it changes, what it schedules. Making one changes nothing and can be
//! refused memory. [`State::make_room`] takes the memory that the change wants, the plan's record is saved
//! ([`vote_journal::Journal::save`]), and [`State::apply`] changes the state, which can't fail.
//!
//! The rounds are typed by their step, so a second vote of one state in one step does not compile: a [`Said`], which alone
//! gives its message, takes the step that the message spends and the [`vote_journal::Saved`] that only a save makes. A copy
//! of a state is another state, at the same step.
//!
//! A validator that comes back is made of its journal's records: [`State::replay_decision`] begins the height behind a
//! decision, and [`State::replay_own`] puts the validator where it stood as it said a message, so it says none twice.
#![tactic(auto)]

mod applying;
mod certificate;
mod places;
mod planning;
mod plans;
mod replaying;
mod room;
mod rounds;
mod said;
mod state;
mod taking;

pub use plans::{Change, Picked, Plan};
pub use room::Room;
pub use said::{Said, release};
pub use state::{KeptProposal, State};
