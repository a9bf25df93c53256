//! The limits of the protocol. Those of bytes, and of what stands in a frame, are in `transactions` and `messages`, which read
//! and write them, and are named here once more.

pub use authenticators::MOST_CLIENTS;
pub use messages::{LONGEST_CONTENT, MOST_PRECOMMITS};
pub use powers::MOST_VALIDATORS;
pub use transactions::{
    LAST_CLIENT, LAST_NUMBER, LONGEST_TX_BODY, MOST_DATA, MOST_TAGS, MOST_TXS, MOST_VALUE_BYTES,
};

/// This many heights are decided: the last is one below it.
pub const MOST_HEIGHT: u64 = 1 << 48;

/// The last round of a height, of which rounds are numbered from 0.
pub const MOST_ROUNDS: u32 = 1_000_000;

/// How many rounds a kept proposal may be ahead of the own one.
pub const ROUNDS_AHEAD: u32 = 2;

/// The most messages of another validator that are kept of a height: its votes and its proposals.
pub const MOST_MESSAGES: usize = 512;

/// The most proposals of one sender that are kept of a round.
pub const MOST_PROPOSALS: usize = 2;

/// The most transactions of a client that wait to be proposed.
pub const MOST_WAITING: usize = 64;

/// The greatest beginning of a timeout and the greatest growth from round to round, in milliseconds: a day.
pub const MOST_MILLISECONDS: u64 = 86_400_000;
