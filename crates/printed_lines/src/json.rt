//! What a journal holds as JSON (RFC 8259): an object a line.

ghost use Rattle.std.specs.Prelude.{Some};
ghost use Rattle.printed_lines.specs.Records.{telling, json_of, head_json, value_json, content_json, valid_json, record_json};

use crate::hexadecimal::Hex;
use crate::record_line::{Place, RecordLine, Said, Senders, step_word};
use std::fmt;
use transactions::Id;

/// A line of a journal as a JSON object, with the fields `offset`, `bytes`, `step` and, but for a mark, `height`, `round`,
/// `content` (null for nil), and where they are known `items`, `valid_round` (null for none) and `by`.
#[derive(Clone, Copy, Debug)]
pub struct Json<'a>(pub RecordLine<'a>);

impl fmt::Display for Json<'_> {
    ghost output = { λ json. Some (record_json json.0) };

    fn fmt<W: fmt::Write>(&self, f: &mut fmt::Formatter<W>) -> fmt::Result {
        let RecordLine {
            offset,
            bytes,
            said,
        } = &self.0;
        let fields = Fields(*said);
        write!(f, "{{\"offset\":{offset},\"bytes\":{bytes},{fields}}}")
    }
}

/// The fields behind where the entry stands.
#[derive(Clone, Copy)]
struct Fields<'a>(Said<'a>);

impl fmt::Display for Fields<'_> {
    ghost output = { λ fields. Some (json_of (telling fields.0)) };

    fn fmt<W: fmt::Write>(&self, f: &mut fmt::Formatter<W>) -> fmt::Result {
        match &self.0 {
            Said::Mark => f.write_str("\"step\":\"mark\""),
            Said::Proposal {
                place,
                id,
                items,
                valid_round,
            } => {
                let head = Head(*place, "propose");
                let value = ValueFields(*id, *items);
                let valid = ValidRound(*valid_round);
                write!(f, "{head},{value},\"valid_round\":{valid}")
            }
            Said::Vote {
                place,
                step,
                content,
            } => {
                let head = Head(*place, step_word(*step));
                let content = Content(*content);
                write!(f, "{head},\"content\":{content}")
            }
            Said::Lock { place, id, items } => {
                let head = Head(*place, "precommit");
                write!(f, "{head},{}", ValueFields(*id, *items))
            }
            Said::Decision {
                place,
                id,
                items,
                precommits,
            } => {
                let head = Head(*place, "decide");
                let value = ValueFields(*id, *items);
                let senders = Senders(precommits);
                write!(f, "{head},{value},\"by\":[{senders}]")
            }
        }
    }
}

/// A height, a round and a step.
#[derive(Clone, Copy)]
struct Head(Place, &'static str);

impl fmt::Display for Head {
    ghost output = { λ head. Some (head_json head.0.height head.0.round head.1.now) };

    #[tactic(auto, unfolding(crate::specs::Records::head_json))]
    fn fmt<W: fmt::Write>(&self, f: &mut fmt::Formatter<W>) -> fmt::Result {
        let Head(Place { height, round }, step) = self;
        write!(
            f,
            "\"height\":{height},\"round\":{round},\"step\":\"{step}\""
        )
    }
}

/// A value: its id, and how many items it has.
#[derive(Clone, Copy)]
struct ValueFields(Id, usize);

impl fmt::Display for ValueFields {
    ghost output = { λ value. Some (value_json value.0 value.1) };

    #[tactic(auto, unfolding(crate::specs::Records::value_json))]
    fn fmt<W: fmt::Write>(&self, f: &mut fmt::Formatter<W>) -> fmt::Result {
        let ValueFields(id, items) = self;
        write!(f, "\"content\":\"{}\",\"items\":{items}", Hex(id))
    }
}

/// An id, or null.
#[derive(Clone, Copy)]
struct Content(Option<Id>);

impl fmt::Display for Content {
    ghost output = { λ content. Some (content_json content.0) };

    #[tactic(auto, unfolding(crate::specs::Records::content_json))]
    fn fmt<W: fmt::Write>(&self, f: &mut fmt::Formatter<W>) -> fmt::Result {
        match &self.0 {
            Some(id) => write!(f, "\"{}\"", Hex(id)),
            None => f.write_str("null"),
        }
    }
}

/// A round, or null.
#[derive(Clone, Copy)]
struct ValidRound(Option<u32>);

impl fmt::Display for ValidRound {
    ghost output = { λ valid. Some (valid_json valid.0) };

    #[tactic(auto, unfolding(crate::specs::Records::valid_json))]
    fn fmt<W: fmt::Write>(&self, f: &mut fmt::Formatter<W>) -> fmt::Result {
        match self.0 {
            Some(round) => write!(f, "{round}"),
            None => f.write_str("null"),
        }
    }
}
