//! Who is shown frames before a call ends.

ghost use Rattle.std.specs.Prelude.{◌≡◌};

use frame_admission::InTurn;

/// The frame of an own message that is saved, so that it may leave. Nothing else is one.
#[derive(Drop)]
pub struct LeavingFrame {
    pub(crate) bytes: Vec<u8>,
}

impl LeavingFrame {
    /// The bytes of the frame.
    pub fn as_slice(&self) -> &[u8]
        ensures { result.now ≡ self.now.bytes.items }
    {
        self.bytes.as_slice()
    }
}

/// Is shown what a call of a node releases while the call goes on, so that no frame waits until what the call does behind it is
/// saved too.
pub trait Outlet {
    /// Is shown a frame. It stays among the node's outgoing ones: who sends it now passes over it then.
    fn let_go(&self, frame: &LeavingFrame);
}

/// Nothing leaves before its call ends.
impl Outlet for InTurn {
    fn let_go(&self, _frame: &LeavingFrame) {}
}
