//! The limits of a transaction and of a value.

/// The greatest number of a client.
pub const LAST_CLIENT: u16 = 1_023;

/// The greatest number of a transaction, 2^48.
pub const LAST_NUMBER: u64 = 1 << 48;

/// The most bytes that a transaction asks to have delivered.
pub const MOST_DATA: usize = 1_024;

/// The most bytes of a transaction without its tags: its kind, client, session, number, what is asked for, a length, and the data.
pub const LONGEST_TX_BODY: usize = 1 + 2 + 4 + 8 + 1 + 2 + MOST_DATA;

/// The most tags of a message or a transaction: one for each validator.
pub const MOST_TAGS: usize = 128;

/// The most transactions of a value.
pub const MOST_TXS: usize = 256;

/// The most bytes of a value.
pub const MOST_VALUE_BYTES: usize = 500_000;
