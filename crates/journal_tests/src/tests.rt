//! Journals in memory and in files.

ghost use Rattle.std.specs.Prelude.{◌≡◌, false};

use protocol::Record;
use std::fmt::Debug;
use std::process::Abort;
use vote_journal::{Journal, JournalFault, Store, spell_record};

mod files;
mod journals;
mod longest;
mod marks;
mod reading;
mod strikes;

/// Ends the test where what was found is not what is wanted, and shows both.
fn assert_same<R: Abort, T: PartialEq + Debug>(rt: &R, found: &T, wanted: &T) {
    assert_eq!(rt; found, wanted);
}

/// Ends the test where other bytes were found than are wanted.
fn assert_bytes<R: Abort>(rt: &R, found: &[u8], wanted: &[u8]) {
    assert!(rt; found == wanted);
}

/// Why a record of validator 2 is not saved, if it isn't.
fn refused_save<R: Abort + AllocGlobal, S: Store + Drop>(
    rt: &R,
    journal: &mut Journal<S>,
    entry: Record,
) -> Option<JournalFault>
    requires running { journal.old.failed ≡ false }
    requires me { journal.old.me ≡ 2 }
    ensures { journal.new.me ≡ 2 }
{
    let spelled = spell_record(rt.alloc(), 2, &entry).expect(rt, "the record has room");
    journal.save(entry, &spelled).err()
}
