//! What a node lets in.

ghost use Rattle.std.specs.Prelude.{◌≡◌, ℕ, IfOk};
ghost use Rattle.messages.specs.Framing.{IsMessage};
ghost use Rattle.protocol.specs.Tags.{Setting};
ghost use Rattle.protocol.specs.Rings.{IsRingOf};
ghost use Rattle.frame_admission.specs.Gate.{admission, IsAnswer};

use crate::examined::{Examined, LetIn};
use authenticators::KeyRing;
use messages::Message;
use protocol::Refusal;
use std::alloc::Global;

/// The message that a frame spells, if a known party sent it to the ring's validator.
///
/// The tag is checked over the bytes in the frame, so memory is taken for the message alone. Refused are, in this order:
/// a frame that spells no message, by its first fault; an unknown sender; a wrong tag, or another number of tags than
/// there are validators. A transaction is let in whoever sent it.
pub fn admit(alloc: Global, ring: &KeyRing, frame: &[u8]) -> Result<Message, Refusal>
    ensures answer { (c : Setting) (p : ℕ) → IsRingOf c p ring.now → IsAnswer (admission c p frame.now) result }
    ensures lawful { IfOk result IsMessage }
{
    let LetIn { message, found: _ } = Examined::new(alloc, ring, frame).let_in(ring)?;
    Ok(message)
}
