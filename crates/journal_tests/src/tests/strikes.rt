//! Journals in memory, and stores whose calls are struck from outside.

use super::journals::{HEADER, MARKED, joined, powers};
use super::{assert_bytes, assert_same, refused_save};
use messages::{Body, Step, Vote};
use protocol::{Act, OwnMessage, Record};
use std::process::Abort;
use vote_journal::{Journal, JournalFault, Store, Strikes, StrikingStore, body_of};

/// The prevote for nil at height 0 and round 0: its record has 21 bytes.
fn nil_prevote() -> OwnMessage {
    OwnMessage {
        height: 0,
        round: 0,
        act: Act::Prevoting(None),
    }
}

#[test]
fn body_of_a_prevote(rt: HostRuntime) {
    let expected = Vote {
        step: Step::Prevote,
        height: 0,
        round: 0,
        sender: 2,
        content: None,
    };
    let body = body_of(rt.alloc(), 2, &nil_prevote()).expect(&rt, "the body has room");
    assert!(rt; matches!(&body, Body::Vote(vote) if *vote == expected));
}

/// Strikes of no call.
fn strikes<R: Abort + AllocGlobal>(rt: &R) -> Strikes {
    Strikes::new(rt.alloc()).expect(rt, "the strikes have room")
}

/// What strikes the same calls.
fn shared<R: Abort + AllocGlobal>(rt: &R, strikes: &Strikes) -> Strikes {
    strikes.clone().expect(rt, "the count fits")
}

/// Strikes a call, so that so many bytes stay.
fn strike<R: Abort + AllocGlobal>(rt: &R, strikes: &Strikes, call: u64, keep: usize) {
    strikes.strike(call, keep).expect(rt, "the strike has room");
}

/// A journal in memory holds the header, the mark and what is saved.
#[test]
fn journal_in_memory(rt: HostRuntime) {
    let mut journal = Journal::in_memory(rt.alloc(), 2).expect(&rt, "the journal has room");
    let refused = refused_save(&rt, &mut journal, Record::Own(nil_prevote()));
    assert_same(&rt, &refused, &None);
    assert_same(&rt, &journal.close().bytes().len(), &34);
}

/// Journals in memory hold the header and the mark as they begin.
#[test]
fn journals_in_memory_begin(rt: HostRuntime) {
    let plain = Journal::in_memory(rt.alloc(), 2).expect(&rt, "the journal has room");
    assert_bytes(&rt, plain.close().bytes(), &MARKED);
    let struck = Journal::struck_by(rt.alloc(), 2, strikes(&rt));
    let struck = struck.expect(&rt, "the journal has room");
    assert_bytes(&rt, struck.close().bytes(), &MARKED);
}

/// The opening of a store with the header alone fails where its append of the mark is struck, and so many bytes of the mark
/// stand then.
fn assert_marking_fails<R: Abort + AllocGlobal>(rt: &R, keep: usize) {
    let strikes = strikes(rt);
    strike(rt, &strikes, 1, keep);
    let store = StrikingStore::new(joined(rt, &[&HEADER]), strikes);
    match Journal::open(rt.alloc(), store, 2, &powers(rt)) {
        Ok(_) => rt.panic("opened"),
        Err(refused) => {
            assert_same(rt, &refused.fault, &JournalFault::Failed);
            assert_bytes(rt, refused.store.bytes(), &MARKED[..keep.min(9) + 4]);
        }
    }
}

#[test]
fn struck_mark(rt: HostRuntime) {
    for keep in 0..10 {
        assert_marking_fails(&rt, keep);
    }
}

/// Whether the save of a prevote fails where that call is struck while a journal owns the store, and so many bytes stand
/// then.
fn fails_saving<R: Abort + AllocGlobal>(rt: &R, call: u64, keep: usize, len: usize) -> bool {
    let strikes = strikes(rt);
    let struck = Journal::struck_by(rt.alloc(), 2, shared(rt, &strikes));
    let mut journal = struck.expect(rt, "the journal has room");
    strike(rt, &strikes, call, keep);
    let is_refused = refused_save(rt, &mut journal, Record::Own(nil_prevote())).is_some();
    let has_failed = journal.has_failed();
    let has_len = journal.close().bytes().len() == len;
    is_refused && has_failed && has_len
}

#[test]
fn struck_saves(rt: HostRuntime) {
    // A beginning of the append stays, or all of it; then the sync is struck; and no call, or one that doesn't come.
    assert_same(&rt, &fails_saving(&rt, 1, 10, 23), &true);
    assert_same(&rt, &fails_saving(&rt, 1, 22, 34), &true);
    assert_same(&rt, &fails_saving(&rt, 2, 0, 34), &true);
    assert_same(&rt, &fails_saving(&rt, 0, 0, 34), &false);
    assert_same(&rt, &fails_saving(&rt, 3, 0, 34), &false);
}

/// Of an append, a sync, a cut and two syncs, the append, the cut and the sync behind it are struck.
fn assert_struck<R: Abort + AllocGlobal>(rt: &R, store: &mut StrikingStore, strikes: &Strikes) {
    strike(rt, strikes, 1, 1);
    strike(rt, strikes, 1, 3);
    strike(rt, strikes, 3, 0);
    assert!(rt; store.append(b"abcd").is_err());
    strike(rt, strikes, 3, 0);
    assert!(rt; store.sync().is_ok());
    assert!(rt; store.cut(0).is_err());
    assert!(rt; store.sync().is_err());
    assert!(rt; store.sync().is_ok());
}

/// Each strike counts by itself, the latest on a call says what stays, and none outlasts its call.
#[test]
fn strikes_by_number(rt: HostRuntime) {
    let strikes = strikes(&rt);
    let mut store = StrikingStore::new(Vec::new(rt.alloc()), shared(&rt, &strikes));
    assert_struck(&rt, &mut store, &strikes);
    assert_same(&rt, &store.failures(), &3);
    assert_bytes(&rt, store.bytes(), b"abc");
}
