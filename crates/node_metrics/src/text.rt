//! A report in the text form of Prometheus, version 0.0.4.

ghost use Rattle.std.specs.Prelude.{◌≡◌, Some};
ghost use Rattle.node_metrics.specs.Text.{reading_text, seconds_text, timed_text, labelled_text, progress_text, round_text, steps_text, links_text, traffic_text, journal_text, refusals_text, metrics_text, is_at, refusal_text};

use crate::metric::{Head, Metric};
use crate::report::Report;
use node_meters::{Links, Refused, Sample, Syncs, Traffic};
use protocol::Step;
use std::fmt;

/// A metric with its only reading.
#[derive(Clone, Copy)]
struct Reading(Metric, u64);

impl fmt::Display for Reading {
    ghost output = { λ reading. Some (reading_text reading.0 reading.1) };

    #[tactic(auto, unfolding(crate::specs::Text::reading_text))]
    fn fmt<W: fmt::Write>(&self, f: &mut fmt::Formatter<W>) -> fmt::Result {
        let Reading(metric, value) = *self;
        let head = Head(metric);
        write!(f, "{head}pomtsjef_{metric} {value}\n")
    }
}

/// Milliseconds, shown as seconds with three decimals.
#[derive(Clone, Copy)]
pub(crate) struct Seconds(pub(crate) u64);

impl fmt::Display for Seconds {
    ghost output = { λ seconds. Some (seconds_text seconds.0) };

    #[tactic(auto, unfolding(crate::specs::Text::seconds_text))]
    fn fmt<W: fmt::Write>(&self, f: &mut fmt::Formatter<W>) -> fmt::Result {
        let whole = self.0 / 1_000;
        let tenths = self.0 / 100 % 10;
        let hundredths = self.0 / 10 % 10;
        let thousandths = self.0 % 10;
        write!(f, "{whole}.{tenths}{hundredths}{thousandths}")
    }
}

/// A metric with its only reading, a time in milliseconds.
#[derive(Clone, Copy)]
struct Timed(Metric, u64);

impl fmt::Display for Timed {
    ghost output = { λ timed. Some (timed_text timed.0 timed.1) };

    #[tactic(auto, unfolding(crate::specs::Text::timed_text))]
    fn fmt<W: fmt::Write>(&self, f: &mut fmt::Formatter<W>) -> fmt::Result {
        let Timed(metric, milliseconds) = *self;
        let (head, seconds) = (Head(metric), Seconds(milliseconds));
        write!(f, "{head}pomtsjef_{metric} {seconds}\n")
    }
}

/// A reading of a metric with one label: its name, and its value.
#[derive(Clone, Copy)]
struct Labelled(Metric, &'static str, &'static str, u64);

impl fmt::Display for Labelled {
    ghost output = { λ reading. Some (labelled_text reading.0 reading.1.now reading.2.now reading.3) };

    #[tactic(auto, unfolding(crate::specs::Text::labelled_text))]
    fn fmt<W: fmt::Write>(&self, f: &mut fmt::Formatter<W>) -> fmt::Result {
        let Labelled(metric, label, word, value) = *self;
        write!(f, "pomtsjef_{metric}{{{label}=\"{word}\"}} {value}\n")
    }
}

/// A report in the text form of Prometheus.
#[derive(Clone, Copy)]
pub struct MetricsText<'a>(pub &'a Report);

impl fmt::Display for MetricsText<'_> {
    ghost output = { λ text. Some (metrics_text text.0.now) };

    #[tactic(auto, unfolding(crate::specs::Text::metrics_text))]
    fn fmt<W: fmt::Write>(&self, f: &mut fmt::Formatter<W>) -> fmt::Result {
        let sample = &self.0.sample;
        write!(
            f,
            "{}{}{}{}{}{}",
            Progress(self.0),
            Rounds(sample),
            LinkReadings(sample.links),
            TrafficReadings(sample.traffic),
            JournalReadings(sample.syncs, sample.timeouts),
            Refusals(&sample.refusals)
        )
    }
}

/// How far the validator is.
#[derive(Clone, Copy)]
struct Progress<'a>(&'a Report);

impl fmt::Display for Progress<'_> {
    ghost output = { λ progress. Some (progress_text progress.0.now) };

    #[tactic(auto, unfolding(crate::specs::Text::progress_text))]
    fn fmt<W: fmt::Write>(&self, f: &mut fmt::Formatter<W>) -> fmt::Result {
        let report = self.0;
        write!(
            f,
            "{}{}{}{}{}",
            Head(Metric::BuildInfo),
            Labelled(Metric::BuildInfo, "version", report.version, 1),
            Reading(Metric::Height, report.height),
            Reading(Metric::Delivered, report.delivered),
            Timed(Metric::Undecided, report.undecided)
        )
    }
}

/// Where in its height the validator is, and what it keeps.
#[derive(Clone, Copy)]
struct Rounds<'a>(&'a Sample);

impl fmt::Display for Rounds<'_> {
    ghost output = { λ rounds. Some (round_text rounds.0.now) };

    #[tactic(auto, unfolding(crate::specs::Text::round_text))]
    fn fmt<W: fmt::Write>(&self, f: &mut fmt::Formatter<W>) -> fmt::Result {
        write!(
            f,
            "{}{}{}{}",
            Reading(Metric::Round, u64::from(self.0.round)),
            Steps(self.0.step),
            Reading(Metric::Queued, self.0.queued),
            Reading(Metric::Kept, self.0.kept)
        )
    }
}

/// The step of the round: a reading for each step, 1 for the one that it is.
#[derive(Clone, Copy)]
struct Steps(Step);

impl fmt::Display for Steps {
    ghost output = { λ steps. Some (steps_text steps.0) };

    #[tactic(auto, unfolding(crate::specs::Text::steps_text))]
    fn fmt<W: fmt::Write>(&self, f: &mut fmt::Formatter<W>) -> fmt::Result {
        let step = self.0;
        write!(
            f,
            "{}{}{}{}",
            Head(Metric::Step),
            Labelled(Metric::Step, "step", "propose", is_at(Step::Propose, step)),
            Labelled(Metric::Step, "step", "prevote", is_at(Step::Prevote, step)),
            Labelled(
                Metric::Step,
                "step",
                "precommit",
                is_at(Step::Precommit, step)
            )
        )
    }
}

/// Returns 1 where the step is this one, else 0.
#[tactic(auto, unfolding(crate::specs::Text::is_at))]
fn is_at(step: Step, this: Step) -> u64
    ensures { result ≡ is_at step this }
{
    u64::from(step == this)
}

/// The links, by who is behind them.
#[derive(Clone, Copy)]
struct LinkReadings(Links);

impl fmt::Display for LinkReadings {
    ghost output = { λ links. Some (links_text links.0) };

    #[tactic(auto, unfolding(crate::specs::Text::links_text))]
    fn fmt<W: fmt::Write>(&self, f: &mut fmt::Formatter<W>) -> fmt::Result {
        let links = &self.0;
        write!(
            f,
            "{}{}{}{}",
            Head(Metric::Links),
            Labelled(Metric::Links, "kind", "validator", links.validators),
            Labelled(Metric::Links, "kind", "client", links.clients),
            Labelled(Metric::Links, "kind", "stranger", links.strangers)
        )
    }
}

/// What went over links.
#[derive(Clone, Copy)]
struct TrafficReadings(Traffic);

impl fmt::Display for TrafficReadings {
    ghost output = { λ traffic. Some (traffic_text traffic.0) };

    #[tactic(auto, unfolding(crate::specs::Text::traffic_text))]
    fn fmt<W: fmt::Write>(&self, f: &mut fmt::Formatter<W>) -> fmt::Result {
        write!(
            f,
            "{}{}{}{}{}",
            Reading(Metric::ReceivedFrames, self.0.frames_received),
            Reading(Metric::ReceivedBytes, self.0.bytes_received),
            Reading(Metric::SentFrames, self.0.frames_sent),
            Reading(Metric::SentBytes, self.0.bytes_sent),
            Reading(Metric::DroppedFrames, self.0.frames_dropped)
        )
    }
}

/// What the journal's syncs took, and how many timeouts were fired.
#[derive(Clone, Copy)]
struct JournalReadings(Syncs, u64);

impl fmt::Display for JournalReadings {
    ghost output = { λ journal. Some (journal_text journal.0 journal.1) };

    #[tactic(auto, unfolding(crate::specs::Text::journal_text))]
    fn fmt<W: fmt::Write>(&self, f: &mut fmt::Formatter<W>) -> fmt::Result {
        let milliseconds = self.0.nanoseconds / 1_000_000;
        write!(
            f,
            "{}{}{}",
            Reading(Metric::Syncs, self.0.count),
            Timed(Metric::SyncSeconds, milliseconds),
            Reading(Metric::Timeouts, self.1)
        )
    }
}

/// How many calls of the node were refused, by the number of the refusal.
#[derive(Clone, Copy)]
struct Refusals<'a>(&'a [Refused]);

impl fmt::Display for Refusals<'_> {
    ghost output = { λ refusals. Some (refusals_text refusals.0.now) };

    #[tactic(auto, unfolding(crate::specs::Text::refusals_text))]
    fn fmt<W: fmt::Write>(&self, f: &mut fmt::Formatter<W>) -> fmt::Result {
        write!(f, "{}", Head(Metric::Refusals))?;
        for refused in self.0 {
            write!(f, "{}", RefusalReading(*refused))?;
        }
        Ok(())
    }
}

/// How many calls of the node were refused with one number.
#[derive(Clone, Copy)]
struct RefusalReading(Refused);

impl fmt::Display for RefusalReading {
    ghost output = { λ reading. Some (refusal_text reading.0) };

    #[tactic(auto, unfolding(crate::specs::Text::refusal_text))]
    fn fmt<W: fmt::Write>(&self, f: &mut fmt::Formatter<W>) -> fmt::Result {
        let Refused { number, count } = self.0;
        let metric = Metric::Refusals;
        write!(f, "pomtsjef_{metric}{{number=\"{number}\"}} {count}\n")
    }
}
