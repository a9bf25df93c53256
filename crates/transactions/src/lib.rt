//! Transactions and values, and the bytes that spell them.
//!
//! Numbers are big-endian, and fields stand in order with nothing between them.
//!
//! - The body of a transaction: its kind, one byte, 01 within the client's first session and 02
//!   after it; the client, two bytes, at most 1,023; behind kind 02 the session, four bytes, from 1;
//!   the number, eight bytes, from 1 to 2^48; what is asked for, one byte: 00 for bytes, whose length
//!   follows in two bytes, at most 1,024, and then they themselves; or 01 for a close.
//! - Tags: their count, one byte, from 1 to 128, and 32 bytes for each.
//! - A transaction: its body, then its tags; at most 5,139 bytes.
//! - A value: the count of its transactions, two bytes, at most 256, and the transactions; at most
//!   500,000 bytes in all.
//!
//! Each thing has one spelling at most, and bytes spell one thing at most.
#![tactic(auto)]

mod data;
mod fault;
pub mod fields;
mod limits;
mod named;
mod reading;
mod sequence;
mod tx;
mod writing;

pub use data::Data;
pub use fault::Fault;
pub use limits::{
    LAST_CLIENT, LAST_NUMBER, LONGEST_TX_BODY, MOST_DATA, MOST_TAGS, MOST_TXS, MOST_VALUE_BYTES,
};
pub use named::Named;
pub use reading::{read_tx, read_value, tags_of, tx_fields_of, value_front};
pub use sequence::{Duplicate, Seq, Shared, copy_all};
pub use tx::{Id, Item, Op, Tx, Value, same_value};
pub use writing::{
    len_of_tags, len_of_tx_body, len_of_value, put_tags, put_tx_body, put_u16, put_u32, put_u64,
    put_value, spell_tx, spell_value, value_id,
};
