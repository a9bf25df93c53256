//! Links that are counted while they are open.
//!
//! A link is open until its half that writes is let go. The count is read without a lock.
#![tactic(auto)]

mod counted;
mod open_links;

pub use counted::{CountedLink, CountedLinks};
pub use open_links::OpenLinks;
