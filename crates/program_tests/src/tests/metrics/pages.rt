//! The pages, as they were written by hand.

use super::meters::meters;
use node_metrics::{MetricsText, RecentRate, Report, StatusJson};
use std::process::Abort;
use std::test::Fail;

/// A report of what was counted.
pub(super) fn report() -> Report {
    Report {
        version: "1.2.3",
        height: 40,
        delivered: 500,
        rate: 25,
        undecided: 12_034,
        sample: meters().sample(),
    }
}

/// Whether a text has this line.
fn has_line(text: &str, line: &str) -> bool {
    text.lines().any(|found| found == line)
}

#[test]
fn the_report_as_text(rt: HostRuntime) -> Result<(), Fail> {
    let text = format!(in rt.alloc(); "{}", MetricsText(&report()))?;
    for line in [
        "# HELP pomtsjef_height The height that is being decided.",
        "# TYPE pomtsjef_height gauge",
        "pomtsjef_height 40",
        "pomtsjef_build_info{version=\"1.2.3\"} 1",
        "# TYPE pomtsjef_delivered_items_total counter",
        "pomtsjef_delivered_items_total 500",
        "pomtsjef_undecided_seconds 12.034",
        "pomtsjef_round 3",
        "pomtsjef_step{step=\"propose\"} 0",
        "pomtsjef_step{step=\"prevote\"} 1",
        "pomtsjef_queued_transactions 8",
        "pomtsjef_kept_frames 9",
        "pomtsjef_links{kind=\"stranger\"} 1",
        "pomtsjef_received_bytes_total 100",
        "pomtsjef_dropped_frames_total 4",
        "pomtsjef_journal_syncs_total 2",
        "pomtsjef_journal_sync_seconds_total 1.502",
        "pomtsjef_fired_timeouts_total 1",
        "pomtsjef_refusals_total{number=\"13\"} 2",
        "pomtsjef_refusals_total{number=\"17\"} 1",
    ] {
        assert!(rt; has_line(&text, line), "{line}");
    }
    Ok(())
}

#[test]
fn the_report_as_json(rt: HostRuntime) -> Result<(), Fail> {
    let text = format!(in rt.alloc(); "{}", StatusJson(&report()))?;
    assert!(rt;
        text.starts_with(
            "{\"version\":\"1.2.3\",\"height\":40,\"undecided_seconds\":12.034,\"round\":3,"
        )
    );
    assert!(rt;
        text.contains(
            "3,\"step\":\"prevote\",\"queued\":8,\"delivered\":500,\"items_per_second\":25,"
        )
    );
    assert!(rt; text.ends_with("5,\"links\":{\"validators\":3,\"clients\":2,\"strangers\":1}}\n"));
    Ok(())
}

/// A hundred items a second, and then none.
#[test]
fn the_rate_is_that_of_ten_seconds(rt: HostRuntime) {
    let mut rate = RecentRate::new(0, 7);
    try_the_rate(&rt, &mut rate);
}

fn try_the_rate(rt: &impl Abort, rate: &mut RecentRate) {
    assert!(rt; rate.note(0, 7) == 0);
    for second in 1..=30u64 {
        let _ = rate.note(second * 1_000, 7 + second * 100);
    }
    assert!(rt; rate.note(30_500, 3_057) == 100);
    for second in 31..=41u64 {
        let _ = rate.note(second * 1_000, 3_057);
    }
    assert!(rt; rate.note(41_500, 3_057) == 0);
}
