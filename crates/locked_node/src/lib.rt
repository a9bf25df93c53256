//! One node, shared by threads.
#![tactic(auto)]

mod calls;
mod event;
mod feeding;
mod history;
mod laws;
mod lent;
mod meeting;
mod node;
mod place;
mod subscription;

pub use event::Event;
pub use feeding::Stop;
pub use laws::{certificates_law, count_law, subscribers_law};
pub use lent::{Ahead, Done, Gauges, Met, Offered, State, Stepped};
pub use node::{HeldNode, LockedNode, Released, words_for};
pub use place::Uncopied;
pub use subscription::{SubscribeFault, Subscription};
