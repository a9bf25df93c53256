//! What a simulated cluster is like, what happens in it, and what must hold of it: the one list that all correct validators deliver, and
//! what each of them said and saved.
//!
//! Nothing here runs: `cluster_world` does, and asks after each event.
#![tactic(auto)]

mod costs;
mod early;
mod event;
mod failure;
mod judge;
mod kinds;
mod note;
mod pace;
mod partition;
mod settings;
mod speech;
mod trouble;
mod witness;

pub use costs::{Costs, Load};
pub use early::EarlyWatch;
pub use event::Event;
pub use failure::{Failed, Failure};
pub use judge::{Judge, Progress};
pub use kinds::{Heading, KINDS, Kind, TxName, body_within};
pub use note::{Note, Notes};
pub use pace::Pace;
pub use partition::{Partition, Passage};
pub use settings::{Asked, Settings, small};
pub use speech::SpeechWatch;
pub use trouble::{TROUBLES, Trouble, Troubles};
pub use witness::Witness;
