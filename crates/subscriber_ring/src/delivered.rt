//! What a ring carries.

use transactions::Item;

/// An item of the delivered list with its position in it.
#[derive(Debug, PartialEq, Eq, Drop)]
pub struct Delivered {
    /// The position in the delivered list, from 0.
    pub position: u64,
    pub item: Item,
}
