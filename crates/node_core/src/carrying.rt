//! What a plan says is spelled, and let go once it is said.

ghost use Rattle.std.specs.Prelude.{◌≡◌, ◌∷◌, [], None, IfOk, IfSome, OnOk, map, option_map, option_to_list};
ghost use Rattle.messages.specs.Grammar.{IsBody};
ghost use Rattle.protocol.specs.Messages.{body_of};
ghost use Rattle.protocol.specs.Records.{act_of, record_of};
ghost use Rattle.protocol.specs.Rules.{released_by};
ghost use Rattle.vote_journal.specs.Grammar.{record_spelling, IsRecord};
ghost use Rattle.round_states.specs.Plans.{says, IsOfPlace};
ghost use Rattle.node_core.specs.Core.{frame_by};
ghost use Rattle.node_core.specs.Firing.{bytes_in};

use crate::node::NodeCore;
use crate::outlet::{LeavingFrame, Outlet};
use frame_admission::{Tagger, bytes_of, frame_of_body};
use messages::Body;
use protocol::{OwnMessage, Record};
use round_states::{Plan, Said};
use std::alloc::AllocError;
use vote_journal::{Store, spell_own, spell_record};

/// The frame of an own message, which is not to be sent before the message is said.
#[derive(Drop)]
pub(crate) struct OwnFrame {
    bytes: Vec<u8>,
}

impl OwnFrame {
    /// The frame, once its message is said.
    fn release(self, _said: &Said) -> LeavingFrame
        ensures { result.bytes ≡ self.bytes }
    {
        LeavingFrame { bytes: self.bytes }
    }
}

/// The bytes of what a plan says: its record as the journal has it, and the frame of its message, which share the bytes of
/// the message's body.
#[derive(Drop)]
pub(crate) struct Spelled {
    pub(crate) record: Vec<u8>,
    pub(crate) frame: Option<OwnFrame>,
}

impl<S: Store + Drop> NodeCore<S> {
    /// Spells what a plan says, once.
    pub(crate) fn spelled<T: Tagger>(&self, tagger: &T, plan: &Plan) -> Result<Spelled, AllocError>
        requires place { IsOfPlace self.now.machine plan.now.change (says plan.now) }
        ensures record { IfOk result (λ w. IfSome (says plan.now) (λ r. IsRecord self.now.machine.me r → w.record.items ≡ record_spelling self.now.machine.me r)) }
        ensures frame { IfOk result (λ w. bytes_in w.frame ≡ map (frame_by self.now) (option_to_list (released_by self.now.machine.me (says plan.now)))) }
        ensures body { OnOk result (IfSome (released_by self.now.machine.me (says plan.now)) IsBody) }
    {
        match (self.state.message_of(plan)?, &plan.entry) {
            (Some(body), Some(Record::Own(message))) => self.spelled_own(tagger, message, &body),
            (Some(_), _) => unreachable!(),
            (None, entry) => Ok(Spelled {
                record: self.spelled_record(entry)?,
                frame: None,
            }),
        }
    }
}

impl<S: Store + Drop> NodeCore<S> {
    /// Spells an own message by its body.
    fn spelled_own<T: Tagger>(
        &self,
        tagger: &T,
        message: &OwnMessage,
        body: &Body,
    ) -> Result<Spelled, AllocError>
        requires body { body.now ≡ body_of self.now.machine.me message.now.height message.now.round (act_of message.now.act) }
        requires fits { IsBody body.now }
        ensures record { let r = record_of (Record.Own message.now) in IfOk result (λ w. IsRecord self.now.machine.me r → w.record.items ≡ record_spelling self.now.machine.me r) }
        ensures frame { IfOk result (λ w. bytes_in w.frame ≡ frame_by self.now body.now ∷ []) }
    {
        let bytes = bytes_of(self.alloc, body)?;
        let record = spell_own(self.alloc, message, &bytes)?;
        let frame = OwnFrame {
            bytes: frame_of_body(self.alloc, tagger, &self.ring, &bytes)?,
        };
        Ok(Spelled {
            record,
            frame: Some(frame),
        })
    }

    /// The bytes of a record, if there is one.
    fn spelled_record(&self, entry: &Option<Record>) -> Result<Vec<u8>, AllocError>
        ensures { IfOk result (λ bytes. IfSome (option_map record_of entry.now) (λ r. IsRecord self.now.machine.me r → bytes.items ≡ record_spelling self.now.machine.me r)) }
    {
        match entry {
            None => Ok(Vec::new(self.alloc)),
            Some(entry) => spell_record(self.alloc, self.state.me(), entry),
        }
    }
}

/// The frame of an own message that is said, which was shown to the outlet.
pub(crate) fn released<T: Outlet>(
    outlet: &T,
    frame: Option<OwnFrame>,
    said: &Option<Said>,
) -> Option<Vec<u8>>
    requires { said.now ≡ None → bytes_in frame ≡ [] }
    ensures { map (λ f. f.items) (option_to_list result) ≡ bytes_in frame }
{
    match (frame, said) {
        (Some(frame), Some(said)) => {
            let leaving = frame.release(said);
            outlet.let_go(&leaving);
            Some(leaving.bytes)
        }
        _ => None,
    }
}
