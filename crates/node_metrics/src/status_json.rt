//! A report as JSON (RFC 8259).

ghost use Rattle.std.specs.Prelude.{◌≡◌, Some};
ghost use Rattle.node_metrics.specs.Json.{number_field, word_field, seconds_field, step_word, head_fields, place_fields, delivered_fields, link_fields, status_json};

use crate::report::Report;
use crate::text::Seconds;
use node_meters::{Links, Sample};
use protocol::Step;
use std::fmt;

/// A field whose value is a number.
#[derive(Clone, Copy)]
struct NumberField(&'static str, u64);

impl fmt::Display for NumberField {
    ghost output = { λ field. Some (number_field field.0.now field.1) };

    #[tactic(auto, unfolding(crate::specs::Json::number_field))]
    fn fmt<W: fmt::Write>(&self, f: &mut fmt::Formatter<W>) -> fmt::Result {
        let NumberField(name, value) = *self;
        write!(f, "\"{name}\":{value}")
    }
}

/// A field whose value is a text, in which nothing has to be escaped.
#[derive(Clone, Copy)]
struct WordField(&'static str, &'static str);

impl fmt::Display for WordField {
    ghost output = { λ field. Some (word_field field.0.now field.1.now) };

    #[tactic(auto, unfolding(crate::specs::Json::word_field))]
    fn fmt<W: fmt::Write>(&self, f: &mut fmt::Formatter<W>) -> fmt::Result {
        let WordField(name, value) = *self;
        write!(f, "\"{name}\":\"{value}\"")
    }
}

/// A field whose value is a time in milliseconds, shown in seconds.
#[derive(Clone, Copy)]
struct SecondsField(&'static str, u64);

impl fmt::Display for SecondsField {
    ghost output = { λ field. Some (seconds_field field.0.now field.1) };

    #[tactic(auto, unfolding(crate::specs::Json::seconds_field))]
    fn fmt<W: fmt::Write>(&self, f: &mut fmt::Formatter<W>) -> fmt::Result {
        let SecondsField(name, milliseconds) = *self;
        let seconds = Seconds(milliseconds);
        write!(f, "\"{name}\":{seconds}")
    }
}

/// A report as one JSON object on one line.
#[derive(Clone, Copy)]
pub struct StatusJson<'a>(pub &'a Report);

impl fmt::Display for StatusJson<'_> {
    ghost output = { λ json. Some (status_json json.0.now) };

    #[tactic(auto, unfolding(crate::specs::Json::status_json))]
    fn fmt<W: fmt::Write>(&self, f: &mut fmt::Formatter<W>) -> fmt::Result {
        write!(
            f,
            "{{{},{},{},{}}}\n",
            HeadFields(self.0),
            PlaceFields(&self.0.sample),
            DeliveredFields(self.0),
            LinkFields(self.0.sample.links)
        )
    }
}

/// The version, the height, and how long the validator has been in it.
#[derive(Clone, Copy)]
struct HeadFields<'a>(&'a Report);

impl fmt::Display for HeadFields<'_> {
    ghost output = { λ fields. Some (head_fields fields.0.now) };

    #[tactic(auto, unfolding(crate::specs::Json::head_fields))]
    fn fmt<W: fmt::Write>(&self, f: &mut fmt::Formatter<W>) -> fmt::Result {
        let version = WordField("version", self.0.version);
        let height = NumberField("height", self.0.height);
        let undecided = SecondsField("undecided_seconds", self.0.undecided);
        write!(f, "{version},{height},{undecided}")
    }
}

/// Where in its height the validator is, and what waits.
#[derive(Clone, Copy)]
struct PlaceFields<'a>(&'a Sample);

impl fmt::Display for PlaceFields<'_> {
    ghost output = { λ fields. Some (place_fields fields.0.now) };

    #[tactic(auto, unfolding(crate::specs::Json::place_fields))]
    fn fmt<W: fmt::Write>(&self, f: &mut fmt::Formatter<W>) -> fmt::Result {
        let round = NumberField("round", u64::from(self.0.round));
        let step = WordField("step", step_word(self.0.step));
        let queued = NumberField("queued", self.0.queued);
        write!(f, "{round},{step},{queued}")
    }
}

/// What was delivered, and how fast.
#[derive(Clone, Copy)]
struct DeliveredFields<'a>(&'a Report);

impl fmt::Display for DeliveredFields<'_> {
    ghost output = { λ fields. Some (delivered_fields fields.0.now) };

    #[tactic(auto, unfolding(crate::specs::Json::delivered_fields))]
    fn fmt<W: fmt::Write>(&self, f: &mut fmt::Formatter<W>) -> fmt::Result {
        let delivered = NumberField("delivered", self.0.delivered);
        let rate = NumberField("items_per_second", self.0.rate);
        write!(f, "{delivered},{rate}")
    }
}

/// The links, by who is behind them.
#[derive(Clone, Copy)]
struct LinkFields(Links);

impl fmt::Display for LinkFields {
    ghost output = { λ fields. Some (link_fields fields.0) };

    #[tactic(auto, unfolding(crate::specs::Json::link_fields))]
    fn fmt<W: fmt::Write>(&self, f: &mut fmt::Formatter<W>) -> fmt::Result {
        let validators = NumberField("validators", self.0.validators);
        let clients = NumberField("clients", self.0.clients);
        let strangers = NumberField("strangers", self.0.strangers);
        write!(f, "\"links\":{{{validators},{clients},{strangers}}}")
    }
}

/// Returns the word for a step.
fn step_word(step: Step) -> &'static str
    ensures { result.now ≡ step_word step }
{
    match step {
        Step::Propose => "propose",
        Step::Prevote => "prevote",
        Step::Precommit => "precommit",
    }
}
