//! Journals in files.

ghost use Rattle.std.specs.Prelude.{◌≡◌};

use super::journals::{joined, powers};
use super::{assert_bytes, assert_same, refused_save};
use journal_file::{FileFault, FileStore};
use powers::Powers;
use protocol::{Act, OwnMessage, Record};
use std::fs::{self, File, Files};
use std::process::Abort;
use vote_journal::{Journal, Sink, Store, StoreFault};

const FOLDER: &str = "journal_file_test";

const PATH: &str = "journal_file_test/journal";

const OTHER_FOLDER: &str = "journal_file_refusals";

const OTHER_PATH: &str = "journal_file_refusals/journal";

const LONG_FOLDER: &str = "journal_file_pieces";

const LONG_PATH: &str = "journal_file_pieces/journal";

/// The header, the mark and the records of validator 2's prevotes for nil in rounds 0 and 1.
const BYTES: [u8; 55] = [
    0x54, 0x4d, 0x4a, 0x31, 0, 0, 0, 5, 4, 0, 0, 0, 2, 0, 0, 0, 0x11, 1, 0x11, 0, 0, 0, 0, 0, 0, 0,
    0, 0, 0, 0, 0, 0, 2, 0, 0, 0, 0, 0x11, 1, 0x11, 0, 0, 0, 0, 0, 0, 0, 0, 0, 0, 0, 1, 0, 2, 0,
];

/// The record of a prevote for nil.
fn prevote(round: u32) -> Record {
    Record::Own(OwnMessage {
        height: 0,
        round,
        act: Act::Prevoting(None),
    })
}

/// How many own messages the file's journal has, once it is opened.
fn count<R: Abort + AllocGlobal + Files<File = File>>(rt: &R, powers: &Powers) -> usize {
    match Journal::open(rt.alloc(), store_at(rt, PATH), 2, powers) {
        Ok(opened) => opened.own.len(),
        Err(_) => rt.panic("not opened"),
    }
}

/// The store in this file.
fn store_at<R: Abort + AllocGlobal + Files<File = File>>(rt: &R, path: &str) -> FileStore {
    FileStore::open(rt, path).expect(rt, "the file is free")
}

/// Saves a prevote in an open journal.
fn assert_saved<R: Abort + AllocGlobal + Files<File = File>>(
    rt: &R,
    journal: &mut Journal<FileStore>,
    round: u32,
)
    requires { journal.old.me ≡ 2 }
    ensures { journal.new.me ≡ 2 }
{
    assert!(rt; !journal.has_failed());
    assert_same(rt, &refused_save(rt, journal, prevote(round)), &None);
}

/// Two prevotes are saved in an empty file.
fn assert_both_saved<R: Abort + AllocGlobal + Files<File = File>>(rt: &R) {
    match Journal::open(rt.alloc(), store_at(rt, PATH), 2, &powers(rt)) {
        Ok(opened) => {
            let mut journal = opened.journal;
            assert_saved(rt, &mut journal, 0);
            assert_saved(rt, &mut journal, 1);
        }
        Err(_) => rt.panic("not opened"),
    }
}

/// The file holds these bytes.
fn assert_held<R: Abort + AllocGlobal + Files<File = File>>(rt: &R, bytes: &[u8]) {
    let found = fs::read(rt, PATH).expect(rt, "the file is read");
    assert_bytes(rt, &found, bytes);
}

/// How many records are whole in so many bytes.
fn whole_records(len: usize) -> usize {
    len.saturating_sub(13) / 21
}

/// The bytes of a file open with so many own messages, and just these bytes are kept.
fn assert_opens<R: Abort + AllocGlobal + Files<File = File>>(
    rt: &R,
    powers: &Powers,
    bytes: &[u8],
    own: usize,
    kept: &[u8],
) {
    fs::write(rt, PATH, bytes).expect(rt, "the file is written");
    assert_same(rt, &count(rt, powers), &own);
    assert_held(rt, kept);
}

/// The first bytes, so many, open with the records that are whole in them, and just these are kept.
fn assert_opens_cut<R: Abort + AllocGlobal + Files<File = File>>(
    rt: &R,
    powers: &Powers,
    len: usize,
) {
    let whole = whole_records(len);
    let kept = whole.saturating_mul(21).saturating_add(13);
    assert_opens(
        rt,
        powers,
        &BYTES[..len.min(55)],
        whole,
        &BYTES[..kept.min(55)],
    );
}

/// The file opens wherever it is cut.
fn assert_opens_cut_anywhere<R: Abort + AllocGlobal + Files<File = File>>(rt: &R, powers: &Powers) {
    for len in 0..56 {
        assert_opens_cut(rt, powers, len);
    }
}

/// A file of the two records without a mark, which may be cut short, opens with both, and has it then.
fn assert_old_file_is_marked<R: Abort + AllocGlobal + Files<File = File>>(rt: &R, powers: &Powers) {
    let wanted = joined(rt, &[&BYTES[..4], &BYTES[13..], &BYTES[4..13]]);
    for len in 46..56 {
        let cut = wanted.get(..len).expect(rt, "there are 55 bytes");
        assert_opens(rt, powers, cut, 2, &wanted);
    }
}

/// Makes the folder anew.
fn begin<R: Abort + AllocGlobal + Files<File = File>>(rt: &R, folder: &str) {
    let _ = fs::remove_dir_all(rt, folder);
    fs::create_dir(rt, folder).expect(rt, "the folder is made");
}

/// Removes the folder.
fn end<R: Abort + AllocGlobal + Files<File = File>>(rt: &R, folder: &str) {
    fs::remove_dir_all(rt, folder).expect(rt, "the folder is removed");
}

/// Whether no store can be opened at this path.
fn is_unusable<R: Abort + AllocGlobal + Files<File = File>>(rt: &R, path: &str) -> bool {
    matches!(FileStore::open(rt, path), Err(FileFault::Unusable(_)))
}

/// Whether another store holds the file.
fn is_busy<R: Abort + AllocGlobal + Files<File = File>>(rt: &R, path: &str) -> bool {
    matches!(FileStore::open(rt, path), Err(FileFault::Busy))
}

/// All that a store gives.
#[derive(Drop)]
struct Given {
    bytes: Vec<u8>,
    is_whole: bool,
}

impl Sink for Given {
    ghost becomes = { λ _ _ _. Unit {0} };

    fn take(&mut self, piece: &[u8]) {
        self.is_whole &= self.bytes.extend_from_slice(piece).is_ok();
    }
}

/// All that a store gives.
fn given_by<R: Abort + AllocGlobal>(rt: &R, store: &mut FileStore) -> Result<Vec<u8>, StoreFault> {
    let mut given = Given {
        bytes: Vec::new(rt.alloc()),
        is_whole: true,
    };
    store.read(rt.alloc(), &mut given)?;
    assert!(rt; given.is_whole);
    Ok(given.bytes)
}

/// A store of which the file wasn't read does nothing.
fn assert_unread<R: Abort + AllocGlobal + Files<File = File>>(rt: &R, path: &str) {
    let mut store = store_at(rt, path);
    assert!(rt; store.append(b"c").is_err());
    assert!(rt; given_by(rt, &mut store).is_err());
    assert_same(rt, &store.failures(), &2);
}

/// A store that was written gives nothing it holds any more, and from that failed call on does nothing.
fn assert_shut<R: Abort + AllocGlobal + Files<File = File>>(rt: &R, store: &mut FileStore) {
    assert_bytes(
        rt,
        &given_by(rt, store).expect(rt, "the store is read"),
        b"",
    );
    assert!(rt; store.append(b"ab").is_ok());
    assert!(rt; store.sync().is_ok());
    assert_same(rt, &store.failures(), &0);
    assert!(rt; given_by(rt, store).is_err());
    assert_same(rt, &store.failures(), &1);
    assert!(rt; store.append(b"c").is_err());
    assert!(rt; store.cut(0).is_err());
    assert!(rt; store.sync().is_err());
    assert_same(rt, &store.failures(), &4);
}

/// A store gives what it holds once, and is held by one alone.
fn assert_read_once<R: Abort + AllocGlobal + Files<File = File>>(rt: &R, path: &str) {
    let mut store = store_at(rt, path);
    assert_shut(rt, &mut store);
    assert_same(rt, &is_busy(rt, path), &true);
    drop(store);
}

/// A store reads these bytes.
fn assert_read<R: Abort + AllocGlobal + Files<File = File>>(rt: &R, path: &str, bytes: &[u8]) {
    let mut store = store_at(rt, path);
    let found = given_by(rt, &mut store).expect(rt, "the store is read");
    assert_bytes(rt, &found, bytes);
}

#[test]
fn journals_in_files(rt: HostRuntime) {
    let powers = powers(&rt);
    begin(&rt, FOLDER);
    assert_both_saved(&rt);
    assert_held(&rt, &BYTES);
    assert_opens_cut_anywhere(&rt, &powers);
    assert_old_file_is_marked(&rt, &powers);
    end(&rt, FOLDER);
}

#[test]
fn refusals(rt: HostRuntime) {
    begin(&rt, OTHER_FOLDER);
    // A directory that is not there, and one where a file is wanted.
    assert_same(
        &rt,
        &is_unusable(&rt, "journal_file_refusals/missing/journal"),
        &true,
    );
    assert_same(&rt, &is_unusable(&rt, OTHER_FOLDER), &true);
    assert_read_once(&rt, OTHER_PATH);
    assert_read(&rt, OTHER_PATH, b"ab");
    assert_unread(&rt, OTHER_PATH);
    assert_read(&rt, OTHER_PATH, b"ab");
    end(&rt, OTHER_FOLDER);
}

#[test]
fn files_of_several_pieces(rt: HostRuntime) {
    begin(&rt, LONG_FOLDER);
    let mut bytes = vec![in rt.alloc(); 7; 600_000].expect(&rt, "the bytes have room");
    bytes.push(8).expect(&rt, "the byte has room");
    let mut store = store_at(&rt, LONG_PATH);
    assert_bytes(
        &rt,
        &given_by(&rt, &mut store).expect(&rt, "the store is read"),
        b"",
    );
    assert!(rt; store.append(&bytes).is_ok());
    assert!(rt; store.sync().is_ok());
    drop(store);
    assert_read(&rt, LONG_PATH, &bytes);
    end(&rt, LONG_FOLDER);
}
