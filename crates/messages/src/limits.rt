//! The limits of a frame.

use transactions::MOST_TAGS;

/// The most bytes of content that a frame has.
pub const LONGEST_CONTENT: usize = 1_048_576;

/// The most precommits of a bundle: one of each validator.
pub const MOST_PRECOMMITS: usize = MOST_TAGS;
