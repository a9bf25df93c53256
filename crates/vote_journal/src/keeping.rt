//! What is kept of the records of a journal as it is read.

ghost use Rattle.std.specs.Prelude.{◌≡◌, ◌++◌, ◌∷◌, [], List, MatchResult};
ghost use Rattle.protocol.specs.Messages.{Record as AnyRecord};
ghost use Rattle.protocol.specs.Records.{record_of};
ghost use Rattle.vote_journal.specs.Grammar.{Entry};
ghost use Rattle.vote_journal.specs.Order.{entry_of, records_in};
ghost use Rattle.vote_journal.specs.Kept.{Keeps};

use crate::fault::JournalFault;
use messages::Bundle;
use protocol::{OwnMessage, Record};
use std::alloc::Global;

/// The decisions, and the own messages since the last of them, the oldest first.
#[derive(Drop)]
pub(crate) struct Kept {
    pub(crate) decisions: Vec<Bundle>,
    pub(crate) own: Vec<OwnMessage>,
}

impl Kept {
    /// Of no records.
    pub(crate) fn new(alloc: Global) -> Kept
        ensures { Keeps [] result.decisions.items result.own.items }
    {
        Kept {
            decisions: Vec::new(alloc),
            own: Vec::new(alloc),
        }
    }

    fn keep_decision(&mut self, bundle: Bundle) -> Result<(), JournalFault>
        ensures { MatchResult result (λ _. (self.new.decisions.items ≡ self.old.decisions.items ++ bundle ∷ []) × (self.new.own.items ≡ [])) (λ e. e ≡ JournalFault.OutOfMemory) }
    {
        if self.decisions.push(bundle).is_err() {
            return Err(JournalFault::OutOfMemory);
        }
        self.own.clear();
        Ok(())
    }

    fn keep_own(&mut self, message: OwnMessage) -> Result<(), JournalFault>
        ensures { MatchResult result (λ _. (self.new.decisions.items ≡ self.old.decisions.items) × (self.new.own.items ≡ self.old.own.items ++ message ∷ [])) (λ e. e ≡ JournalFault.OutOfMemory) }
    {
        match self.own.push(message) {
            Ok(()) => Ok(()),
            Err(_) => Err(JournalFault::OutOfMemory),
        }
    }

    /// Keeps what follows the others: a record, or the mark, which tells nothing. A decision lets go of the own messages
    /// before it.
    pub(crate) fn keep(&mut self, entry: Option<Record>) -> Result<(), JournalFault>
        ensures { MatchResult result (λ _. (es : List Entry) → Keeps (records_in es) self.old.decisions.items self.old.own.items → Keeps (records_in (es ++ entry_of entry ∷ [])) self.new.decisions.items self.new.own.items) (λ e. e ≡ JournalFault.OutOfMemory) }
    {
        match entry {
            None => Ok(()),
            Some(entry) => self.keep_record(entry),
        }
    }

    fn keep_record(&mut self, entry: Record) -> Result<(), JournalFault>
        ensures { MatchResult result (λ _. (rs : List AnyRecord) → Keeps rs self.old.decisions.items self.old.own.items → Keeps (rs ++ record_of entry ∷ []) self.new.decisions.items self.new.own.items) (λ e. e ≡ JournalFault.OutOfMemory) }
    {
        match entry {
            Record::Own(message) => self.keep_own(message),
            Record::Decided(bundle) => self.keep_decision(bundle),
        }
    }
}
