//! Space-time diagrams of runs, as SVG.
//!
//! A diagram is made from a schedule with its report in it, as `tmsim --follow` writes it. Each validator and each client that takes
//! part has a lane, a vertical line with its name on top; time goes down, with a row for each executed line. An arrow goes from
//! where a message was sent to where it comes, in the colour of its kind. Decisions, timeouts, restarts, failing stores and refusals
//! are marks on a lane.
#![tactic(auto)]

mod chart;
mod drawing;
mod escaped;
mod kind;
mod lane;
mod lanes;
mod legend;
mod mark;
mod messages;
mod place;
mod reading;
mod row;
mod rows;
mod verb;
mod words;

pub use chart::Chart;
