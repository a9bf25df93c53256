//! What a validator reports to who watches it, over HTTP/1.1.
//!
//! [`Server`] answers at most sixteen visitors at a time, each once: [`Report`]s as Prometheus' text or as JSON, and whether the
//! validator is alive. It never waits, and needs nothing of the node: who runs it hands in the report and the time.
#![tactic(auto)]

mod metric;
mod page;
mod rate;
mod report;
mod request;
mod response;
mod server;
mod status_json;
mod text;
mod visitor;

pub use page::{Answer, Outcome, Page, answer_to};
pub use rate::RecentRate;
pub use report::Report;
pub use request::{Heard, MOST_FIELDS, MOST_HEAD_BYTES, asked_by};
pub use response::response_for;
pub use server::{MOST_VISITORS, Server, Turn};
pub use status_json::StatusJson;
pub use text::MetricsText;
