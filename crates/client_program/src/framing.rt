//! Transactions as frames.

ghost use Rattle.std.specs.Prelude.{◌≡◌, ◌<◌, ◌+◌, ◌^◌, ℕ, List, Err, IfOk, IfErr};
ghost use Rattle.transactions.specs.declared.fault.Fault.TheVariants.{OutOfMemory as NoMemory};
ghost use Rattle.node_settings.specs.declared.failure.Failure.TheVariants.{OutOfMemory};
ghost use Rattle.messages.specs.Framing.{SpellsFrame};
ghost use Rattle.client_program.specs.Sending.{sent_message, sent_tx, IsFrameOfLine, IsOfLine};
ghost use Rattle.node_settings.specs.Words.{line_op};
ghost use Rattle.node_settings.specs.declared.invocation.SettingsFault.TheVariants.{Usage};

use authenticators::{KeyRing, tag_all};
use messages::{Body, Message, spell, spell_body};
use node_settings::{Failure, SettingsFault, line_op};
use protocol::LAST_NUMBER;
use std::alloc::Global;
use transactions::{Fault, Op, Seq, Tx};

/// Why a transaction has no spelling.
fn failure_of(fault: Fault) -> Failure
    ensures { fault ≡ NoMemory → result ≡ OutOfMemory }
{
    match fault {
        Fault::OutOfMemory => Failure::OutOfMemory,
        _ => Failure::Usage,
    }
}

/// The transaction as a body.
fn body_of(alloc: Global, client: u16, session: u32, number: u64, op: Op) -> Body
    ensures { result ≡ sent_tx client session number op }
{
    Body::Tx(Tx {
        client,
        session,
        number,
        op,
        tags: Seq::new(alloc),
    })
}

/// The frame of a body, with the tags for each validator under the keys of its sender.
fn frame_with(alloc: Global, ring: &KeyRing, body: Body) -> Result<Vec<u8>, Failure>
    ensures ok { IfOk result (λ frame. SpellsFrame frame.items (sent_message ring.now body)) }
    // What has a frame is sent, unless memory runs out.
    ensures only { (bytes : List ℕ) → SpellsFrame bytes (sent_message ring.now body) → IfErr result (λ failure. failure ≡ OutOfMemory) }
{
    let spelled = match spell_body(alloc, &body) {
        Ok(spelled) => spelled,
        Err(fault) => return Err(failure_of(fault)),
    };
    let Ok(tags) = tag_all(alloc, ring, &spelled) else {
        return Err(Failure::OutOfMemory);
    };
    let tags = Seq::from_vec(tags);
    match spell(alloc, &Message { body, tags }) {
        Ok(frame) => Ok(frame),
        Err(fault) => Err(failure_of(fault)),
    }
}

/// Who sends: a client in one of its sessions, and its keys.
#[derive(Clone, Copy)]
pub(crate) struct Sender<'k> {
    pub(crate) client: u16,
    pub(crate) session: u32,
    pub(crate) ring: &'k KeyRing,
}

impl Sender<'_> {
    /// The frame of the session's transaction of this number.
    pub(crate) fn frame_of(&self, alloc: Global, number: u64, op: Op) -> Result<Vec<u8>, Failure>
        ensures ok { IfOk result (λ frame. SpellsFrame frame.items (sent_message self.now.ring.now (sent_tx self.now.client self.now.session number op))) }
        ensures only { (bytes : List ℕ) → SpellsFrame bytes (sent_message self.now.ring.now (sent_tx self.now.client self.now.session number op)) → IfErr result (λ failure. failure ≡ OutOfMemory) }
    {
        let body = body_of(alloc, self.client, self.session, number, op);
        frame_with(alloc, self.ring, body)
    }

    /// The frames of the transactions that the lines of a text are, numbered from `first` on. The failure is `Line` for the
    /// first line that is none, or that comes behind the last number that there is.
    pub(crate) fn frames_of(
        &self,
        alloc: Global,
        first: u64,
        text: &str,
    ) -> Result<Vec<Vec<u8>>, Failure> {
        let mut frames = Vec::new(alloc);
        for line in text.lines() {
            let frame = self.frame_of_line(alloc, first, frames.len() as u64, line)?;
            if frames.push(frame).is_err() {
                return Err(Failure::OutOfMemory);
            }
        }
        Ok(frames)
    }

    /// The frame of the transaction that a line is, behind so many others.
    fn frame_of_line(
        &self,
        alloc: Global,
        first: u64,
        place: u64,
        line: &str,
    ) -> Result<Vec<u8>, Failure>
        ensures ok { IfOk result (λ frame. IsFrameOfLine self.now.ring.now self.now.client self.now.session (first + place) line.now frame.items) }
        ensures past { 2 ^ 48 < first + place → IfErr result IsOfLine }
        ensures none { line_op line.now ≡ Err Usage → IfErr result IsOfLine }
    {
        let number = first.saturating_add(place);
        let bad = Failure::Line(place.saturating_add(1));
        match line_op(alloc, line) {
            Ok(op) if number <= LAST_NUMBER => self.frame_of(alloc, number, op),
            Err(SettingsFault::OutOfMemory) => Err(Failure::OutOfMemory),
            _ => Err(bad),
        }
    }
}
