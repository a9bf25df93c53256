//! The metrics that are reported.

ghost use Rattle.std.specs.Prelude.{Some};
ghost use Rattle.node_metrics.specs.Metrics.{name_of, help_of, kind_of, head_text};

use std::fmt;

/// A metric. It is shown as its name, without the prefix `pomtsjef_`.
#[derive(Clone, Copy)]
pub(crate) enum Metric {
    BuildInfo,
    Height,
    Delivered,
    Undecided,
    Round,
    Step,
    Queued,
    Kept,
    Links,
    ReceivedFrames,
    ReceivedBytes,
    SentFrames,
    SentBytes,
    DroppedFrames,
    Syncs,
    SyncSeconds,
    Timeouts,
    Refusals,
}

impl fmt::Display for Metric {
    ghost output = { λ metric. Some (name_of metric) };

    fn fmt<W: fmt::Write>(&self, f: &mut fmt::Formatter<W>) -> fmt::Result {
        f.write_str(match self {
            Metric::BuildInfo => "build_info",
            Metric::Height => "height",
            Metric::Delivered => "delivered_items_total",
            Metric::Undecided => "undecided_seconds",
            Metric::Round => "round",
            Metric::Step => "step",
            Metric::Queued => "queued_transactions",
            Metric::Kept => "kept_frames",
            Metric::Links => "links",
            Metric::ReceivedFrames => "received_frames_total",
            Metric::ReceivedBytes => "received_bytes_total",
            Metric::SentFrames => "sent_frames_total",
            Metric::SentBytes => "sent_bytes_total",
            Metric::DroppedFrames => "dropped_frames_total",
            Metric::Syncs => "journal_syncs_total",
            Metric::SyncSeconds => "journal_sync_seconds_total",
            Metric::Timeouts => "fired_timeouts_total",
            Metric::Refusals => "refusals_total",
        })
    }
}

/// What a metric is, in words.
#[derive(Clone, Copy)]
struct Help(Metric);

impl fmt::Display for Help {
    ghost output = { λ help. Some (help_of help.0) };

    fn fmt<W: fmt::Write>(&self, f: &mut fmt::Formatter<W>) -> fmt::Result {
        f.write_str(match self.0 {
            Metric::BuildInfo => "The version of the program.",
            Metric::Height => "The height that is being decided.",
            Metric::Delivered => "Delivered items, of earlier runs too.",
            Metric::Undecided => "Seconds since the height began.",
            Metric::Round => "The round of the height.",
            Metric::Step => "1 for the step of the round.",
            Metric::Queued => "Transactions that wait to be proposed.",
            Metric::Kept => "Frames of the height that are kept.",
            Metric::Links => "Links, by who is behind them.",
            Metric::ReceivedFrames => "Whole frames that came.",
            Metric::ReceivedBytes => "Bytes that came.",
            Metric::SentFrames => "Frames taken from queues to be written.",
            Metric::SentBytes => "Bytes that links took.",
            Metric::DroppedFrames => "Frames that a queue had no room for.",
            Metric::Syncs => "Syncs of the journal.",
            Metric::SyncSeconds => "Seconds that these took.",
            Metric::Timeouts => "Timeouts that the node took.",
            Metric::Refusals => "Refused calls of the node.",
        })
    }
}

/// The kind of a metric. A counter never goes down while the program runs.
#[derive(Clone, Copy)]
struct Kind(Metric);

impl fmt::Display for Kind {
    ghost output = { λ kind. Some (kind_of kind.0) };

    fn fmt<W: fmt::Write>(&self, f: &mut fmt::Formatter<W>) -> fmt::Result {
        f.write_str(match self.0 {
            Metric::Delivered
            | Metric::ReceivedFrames
            | Metric::ReceivedBytes
            | Metric::SentFrames
            | Metric::SentBytes
            | Metric::DroppedFrames
            | Metric::Syncs
            | Metric::SyncSeconds
            | Metric::Timeouts
            | Metric::Refusals => "counter",
            _ => "gauge",
        })
    }
}

/// The two lines before the readings of a metric: what it is, and its kind.
#[derive(Clone, Copy)]
pub(crate) struct Head(pub(crate) Metric);

impl fmt::Display for Head {
    ghost output = { λ head. Some (head_text head.0) };

    #[tactic(auto, unfolding(crate::specs::Metrics::head_text))]
    fn fmt<W: fmt::Write>(&self, f: &mut fmt::Formatter<W>) -> fmt::Result {
        let metric = self.0;
        let (help, kind) = (Help(metric), Kind(metric));
        write!(
            f,
            "# HELP pomtsjef_{metric} {help}\n# TYPE pomtsjef_{metric} {kind}\n"
        )
    }
}
