//! What a validator reports.

use node_meters::Sample;

/// What a validator reports of itself at a moment.
#[derive(Clone, Copy, Debug, PartialEq, Eq)]
pub struct Report {
    /// The version of the program.
    pub version: &'static str,
    /// The height that the validator is in.
    pub height: u64,
    /// How many items it has delivered.
    pub delivered: u64,
    /// How many of them a second, over the last ten seconds.
    pub rate: u64,
    /// For how many milliseconds it has been in its height.
    pub undecided: u64,
    pub sample: Sample,
}
