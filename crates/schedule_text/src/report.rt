//! The lines of a report.

use crate::values::Values;
use messages::{Ask, Body, Bundle, Proposal, Step, Vote};
use std::alloc::{AllocError, Global};
use std::fmt;
use transactions::{Id, Item, Op, Tx, value_id};
use world_schedule::{Answer, Decision, End, Release, Told, What};

/// A line of a report, without its line feed.
#[derive(Clone, Copy)]
pub(crate) struct ReportLine<'a> {
    told: &'a Told,
    /// The id of the value that is proposed in it.
    id: Option<Id>,
    values: &'a Values,
}

impl<'a> ReportLine<'a> {
    /// The line of what is told, by the names of these values.
    pub(crate) fn new(
        alloc: Global,
        told: &'a Told,
        values: &'a Values,
    ) -> Result<ReportLine<'a>, AllocError> {
        let id = proposed_in(alloc, &told.what)?;
        Ok(ReportLine { told, id, values })
    }
}

/// Whether there is a line of it: there is none of a call that went well.
pub(crate) fn is_shown(told: &Told) -> bool {
    !matches!(&told.what, What::Answered(Answer { number: 0, .. }))
}

/// The id of the value that is proposed.
fn proposed_in(alloc: Global, what: &What) -> Result<Option<Id>, AllocError> {
    let What::Released(
        Release {
            body: Body::Proposal(proposal),
            ..
        },
    ) = what
    else {
        return Ok(None);
    };
    match value_id(alloc, &proposal.value) {
        Ok(id) => Ok(Some(id)),
        Err(_) => Err(AllocError),
    }
}

impl fmt::Display for ReportLine<'_> {
    fn fmt<W: fmt::Write>(&self, f: &mut fmt::Formatter<W>) -> fmt::Result {
        match (&self.told.what, self.told.validator) {
            (What::Answered(answer), Some(validator)) => write_refusal(validator, answer, f),
            (What::Decided(decision), Some(validator)) => {
                self.write_decision(validator, decision, f)
            }
            (What::Released(release), _) => {
                let number = release.number;
                write!(f, "{number} ")?;
                self.write_body(&release.body, f)
            }
            // Of a client its messages alone are told.
            (_, None) => Ok(()),
        }
    }
}

impl ReportLine<'_> {
    fn content<'b>(&'b self, id: Option<&'b Id>) -> Content<'b> {
        Content::new(id, self.values)
    }

    fn write_decision<W: fmt::Write>(
        &self,
        validator: u16,
        decision: &Decision,
        f: &mut fmt::Formatter<W>,
    ) -> fmt::Result {
        let content = self.content(Some(&decision.id));
        let (height, round) = (decision.height, decision.round);
        write!(f, "v{validator} decides {height} {round} {content}")
    }

    fn write_body<W: fmt::Write>(&self, body: &Body, f: &mut fmt::Formatter<W>) -> fmt::Result {
        match body {
            Body::Proposal(proposal) => write_proposal(proposal, self.content(self.id.as_ref()), f),
            Body::Vote(vote) => write_vote(vote, self.content(vote.content.as_ref()), f),
            Body::Ask(ask) => write_ask(ask, f),
            Body::Bundle(bundle) => write_bundle(bundle, self.content(Some(&bundle.id)), f),
            Body::Tx(tx) => write_tx(tx, f),
        }
    }
}

fn write_refusal<W: fmt::Write>(
    validator: u16,
    answer: &Answer,
    f: &mut fmt::Formatter<W>,
) -> fmt::Result {
    let number = answer.number;
    match answer.inner {
        0 => write!(f, "v{validator} refuses {number}"),
        inner => write!(f, "v{validator} refuses {number} {inner}"),
    }
}

pub(crate) fn write_proposal<W: fmt::Write>(
    proposal: &Proposal,
    content: Content<'_>,
    f: &mut fmt::Formatter<W>,
) -> fmt::Result {
    let (sender, height, round) = (proposal.sender, proposal.height, proposal.round);
    let valid_round = Round(proposal.valid_round);
    write!(
        f,
        "v{sender} proposal {height} {round} {valid_round} {content}"
    )
}

fn write_vote<W: fmt::Write>(
    vote: &Vote,
    content: Content<'_>,
    f: &mut fmt::Formatter<W>,
) -> fmt::Result {
    let (sender, height, round) = (vote.sender, vote.height, vote.round);
    let kind = match vote.step {
        Step::Prevote => "prevote",
        Step::Precommit => "precommit",
    };
    write!(f, "v{sender} {kind} {height} {round} {content}")
}

fn write_ask<W: fmt::Write>(ask: &Ask, f: &mut fmt::Formatter<W>) -> fmt::Result {
    let (sender, height) = (ask.sender, ask.height);
    write!(f, "v{sender} ask {height}")
}

fn write_bundle<W: fmt::Write>(
    bundle: &Bundle,
    content: Content<'_>,
    f: &mut fmt::Formatter<W>,
) -> fmt::Result {
    let (sender, height, round) = (bundle.sender, bundle.height, bundle.round);
    write!(f, "v{sender} bundle {height} {round} {content}")
}

fn write_tx<W: fmt::Write>(tx: &Tx, f: &mut fmt::Formatter<W>) -> fmt::Result {
    let (sender, number, op) = (Sender(tx.client, tx.session), tx.number, OpText(&tx.op));
    write!(f, "c{sender} tx {number} {op}")
}

/// A client, and its session where it isn't the first.
#[derive(Clone, Copy)]
struct Sender(u16, u32);

impl fmt::Display for Sender {
    fn fmt<W: fmt::Write>(&self, f: &mut fmt::Formatter<W>) -> fmt::Result {
        let (client, session) = (self.0, self.1);
        match session {
            0 => write!(f, "{client}"),
            _ => write!(f, "{client}.{session}"),
        }
    }
}

/// A round: -1 for none.
#[derive(Clone, Copy)]
pub(crate) struct Round(pub(crate) Option<u32>);

impl fmt::Display for Round {
    fn fmt<W: fmt::Write>(&self, f: &mut fmt::Formatter<W>) -> fmt::Result {
        match self.0 {
            Some(round) => write!(f, "{round}"),
            None => f.write_str("-1"),
        }
    }
}

/// Nil, or an id by the first name of its values, or else by its digits.
#[derive(Clone, Copy)]
pub(crate) struct Content<'a> {
    id: Option<&'a Id>,
    values: &'a Values,
}

impl<'a> Content<'a> {
    pub(crate) fn new(id: Option<&'a Id>, values: &'a Values) -> Content<'a> {
        Content { id, values }
    }
}

impl fmt::Display for Content<'_> {
    fn fmt<W: fmt::Write>(&self, f: &mut fmt::Formatter<W>) -> fmt::Result {
        let Some(id) = self.id else {
            return f.write_str("nil");
        };
        match self.values.name_of(id) {
            Some(name) => f.write_str(name),
            None => write_digits(id, f),
        }
    }
}

/// What a transaction asks for, as in an item.
#[derive(Clone, Copy)]
struct OpText<'a>(&'a Op);

impl fmt::Display for OpText<'_> {
    fn fmt<W: fmt::Write>(&self, f: &mut fmt::Formatter<W>) -> fmt::Result {
        match self.0 {
            Op::Close => f.write_str("close"),
            Op::Bytes(contents) if contents.len() == 0 => f.write_str("-"),
            Op::Bytes(contents) => write_digits(contents.as_slice(), f),
        }
    }
}

/// Two digits for each byte.
fn write_digits<W: fmt::Write>(bytes: &[u8], f: &mut fmt::Formatter<W>) -> fmt::Result {
    for byte in bytes {
        write!(f, "{byte:02x}")?;
    }
    Ok(())
}

/// The end line of a validator: where it stands, and what was delivered.
#[derive(Clone, Copy)]
pub(crate) struct EndLine<'a>(pub(crate) &'a End);

impl fmt::Display for EndLine<'_> {
    fn fmt<W: fmt::Write>(&self, f: &mut fmt::Formatter<W>) -> fmt::Result {
        let (validator, height, round) = (self.0.validator, self.0.height, self.0.round);
        write!(f, "v{validator} at {height} {round}:")?;
        for item in self.0.delivered.as_slice() {
            write_item(item, f)?;
        }
        Ok(())
    }
}

fn write_item<W: fmt::Write>(item: &Item, f: &mut fmt::Formatter<W>) -> fmt::Result {
    let (sender, number) = (Sender(item.client, item.session), item.number);
    let op = OpText(&item.op);
    write!(f, " {sender}:{number}:{op}")
}
