//! Where a client stands.

ghost use Rattle.std.specs.Prelude.{◌≡◌, ◌==◌, suc};
ghost use Rattle.protocol.specs.Values.{item, left_by, fits};

use transactions::{Op, Tx};

/// Where a client stands after its transactions, in the order in which they are delivered.
///
/// Its next one is of this session and has the number after the last one's; or, where the session is
/// closed, it is number 1 of the session after it.
#[derive(Clone, Copy, Debug, PartialEq, Eq)]
pub struct Standing {
    /// The session of its last transaction; 0 where it has none.
    pub session: u32,
    /// The number of its last transaction; 0 where it has none.
    pub last: u64,
    /// Whether its last transaction closes the session.
    pub closed: bool,
}

impl Standing {
    /// A client of which there is nothing.
    pub const FRESH: Standing = Standing {
        session: 0,
        last: 0,
        closed: false,
    };

    /// A client whose last transaction is this one.
    pub fn left_by(tx: &Tx) -> Standing
        ensures { result ≡ left_by (item tx.now) }
    {
        Standing {
            session: tx.session,
            last: tx.number,
            closed: matches!(tx.op, Op::Close),
        }
    }

    /// Whether the transaction is the client's next.
    pub fn admits(self, tx: &Tx) -> bool
        ensures { result ≡ fits self (item tx.now) }
    {
        if self.closed {
            follows(u64::from(tx.session), u64::from(self.session)) && tx.number == 1
        } else {
            tx.session == self.session && follows(tx.number, self.last)
        }
    }
}

/// Whether the number is the one after the last.
fn follows(number: u64, last: u64) -> bool
    ensures { result ≡ (number == suc last) }
{
    number > last && number - last == 1
}
