//! The lines of a validator's state.

use crate::report::{Content, Round, write_proposal};
use crate::values::Values;
use messages::Step;
use protocol::ValueAt;
use round_states::{KeptProposal, State};
use std::fmt;

/// The line of a validator's state: where it stands, its lock, its valid value, and the power whose votes of the round it
/// keeps. Of one that is closed there is no more to tell.
#[derive(Clone, Copy)]
pub(crate) struct StateLine<'a> {
    pub(crate) validator: u16,
    pub(crate) state: Option<&'a State>,
    pub(crate) values: &'a Values,
}

impl fmt::Display for StateLine<'_> {
    fn fmt<W: fmt::Write>(&self, f: &mut fmt::Formatter<W>) -> fmt::Result {
        let validator = self.validator;
        let Some(state) = self.state else {
            return write!(f, "v{validator} state closed");
        };
        let (height, round, step) = (state.height(), state.round(), word_of(state.step()));
        write!(f, "v{validator} state {height} {round} {step}")?;
        self.write_value("lock", state.lock(), f)?;
        self.write_value("valid", state.valid_value(), f)?;
        let prevotes = state.tally().power_any(round, Step::Prevote);
        let precommits = state.tally().power_any(round, Step::Precommit);
        write!(f, " prevotes {prevotes} precommits {precommits}")
    }
}

impl StateLine<'_> {
    fn write_value<W: fmt::Write>(
        &self,
        what: &str,
        at: Option<&ValueAt>,
        f: &mut fmt::Formatter<W>,
    ) -> fmt::Result {
        let id = at.map(|at| at.value.id());
        let round = Round(at.map(|at| at.round));
        let content = Content::new(id.as_ref(), self.values);
        write!(f, " {what} {round} {content}")
    }
}

/// The word for a step.
fn word_of(step: protocol::Step) -> &'static str {
    match step {
        protocol::Step::Propose => "propose",
        protocol::Step::Prevote => "prevote",
        protocol::Step::Precommit => "precommit",
    }
}

/// The line of a proposal that a validator keeps.
#[derive(Clone, Copy)]
pub(crate) struct KeptLine<'a> {
    pub(crate) validator: u16,
    pub(crate) kept: &'a KeptProposal,
    pub(crate) values: &'a Values,
}

impl fmt::Display for KeptLine<'_> {
    fn fmt<W: fmt::Write>(&self, f: &mut fmt::Formatter<W>) -> fmt::Result {
        let validator = self.validator;
        let content = Content::new(Some(&self.kept.id), self.values);
        write!(f, "v{validator} keeps ")?;
        write_proposal(&self.kept.proposal, content, f)
    }
}
