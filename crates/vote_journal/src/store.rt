//! What a journal is kept on.

ghost use Rattle.std.specs.Prelude.{◌≡◌, ◌≤◌, ◌++◌, ℕ, List, length, take, OnOk, IsErrOf};
ghost use Rattle.vote_journal.specs.Store.{Just, Only, NoMore, Adds, Begun, Shortened, Counts, CountsDevice};

use std::alloc::Global;
use thiserror::Error;

/// The device failed in a call of a store.
#[derive(Clone, Copy, Debug, Error, PartialEq, Eq)]
#[error("the device failed")]
pub struct DeviceFailed;

/// Why a store did not read or append.
#[derive(Clone, Copy, Debug, Error, PartialEq, Eq)]
pub enum StoreFault {
    /// The device failed; of an append a beginning may have been done.
    #[error("the device failed")]
    Device,
    /// There is no memory; nothing was done.
    #[error("out of memory")]
    OutOfMemory,
}

/// Who takes in the bytes that a store gives, piece by piece.
pub trait Sink {
    /// The one becomes the other by taking these bytes in.
    ghost becomes: { Self → List ℕ → Self → Type 0 };

    /// Takes the next bytes in.
    fn take(&mut self, piece: &[u8])
        ensures { (start : Self) (before : List ℕ) → becomes start before self.old → becomes start (before ++ piece.now) self.new };
}

/// Bytes that outlast a stop once they are synced.
///
/// Its contracts speak of what a stop could leave, at each moment between two calls. A stop within a call is the stop
/// after that call failed half done: the clauses on stops hold whatever a call answers.
pub trait Store {
    /// The bytes that stand.
    ghost seen: { Self → List ℕ };

    /// The bytes that a stop at this moment may leave.
    ghost may_leave: { Self → List ℕ → Type 0 };

    /// How many calls failed for the device.
    ghost failures: { Self → ℕ };

    /// How many calls failed for the device, up to the greatest u64.
    fn failures(&self) -> u64
        ensures { result ≡ failures self.now };

    /// Gives all bytes to a sink, in order, as pieces of any lengths: they are some that a stop could have left, and what a
    /// stop leaves now. Memory is taken for one piece at most. Where it fails, the sink may have some of them.
    fn read<T: Sink>(&mut self, alloc: Global, sink: &mut T) -> Result<(), StoreFault>
        ensures given { OnOk result ((start : T) (before : List ℕ) → T.becomes start before sink.old → T.becomes start (before ++ seen self.new) sink.new) }
        ensures found { OnOk result (Just (seen self.new) (may_leave self.new)) }
        ensures stop { NoMore (may_leave self.old) (may_leave self.new) }
        ensures cause { Counts result (failures self.old) (failures self.new) };

    /// Adds bytes at the end. Until the next sync a stop may leave a beginning of them.
    fn append(&mut self, bytes: &[u8]) -> Result<(), StoreFault>
        ensures added { OnOk result (seen self.new ≡ seen self.old ++ bytes.now) }
        ensures nothing { IsErrOf result StoreFault.OutOfMemory → (seen self.new ≡ seen self.old) × NoMore (may_leave self.old) (may_leave self.new) }
        // What stands after the device failed has a beginning of them.
        ensures began { IsErrOf result StoreFault.Device → Begun (seen self.old) bytes.now (seen self.new) }
        ensures stop { Adds (Begun (seen self.old) bytes.now) (may_leave self.old) (may_leave self.new) }
        ensures cause { Counts result (failures self.old) (failures self.new) };

    /// Keeps the first bytes. Until the next sync a stop may leave more of those that stood.
    fn cut(&mut self, len: usize) -> Result<(), DeviceFailed>
        requires { len ≤ length (seen self.old) }
        ensures kept { OnOk result (seen self.new ≡ take len (seen self.old)) }
        ensures stop { Adds (Shortened len (seen self.old)) (may_leave self.old) (may_leave self.new) }
        ensures cause { CountsDevice result (failures self.old) (failures self.new) };

    /// Makes what stands lasting: after it a stop leaves just that.
    fn sync(&mut self) -> Result<(), DeviceFailed>
        ensures stands { seen self.new ≡ seen self.old }
        ensures lasting { OnOk result (Only (seen self.old) (may_leave self.new)) }
        ensures stop { NoMore (may_leave self.old) (may_leave self.new) }
        ensures cause { CountsDevice result (failures self.old) (failures self.new) };
}
