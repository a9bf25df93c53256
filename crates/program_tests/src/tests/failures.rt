//! How the program ends.

use super::{assert_same, assert_text};
use authenticators::KeysFault;
use config_file::ConfigFault;
use messages::Reply;
use node_settings::{
    Answer, ConfigTrouble, Failure, JournalTrouble, KeysTrouble, SettingsFault, StatusLine,
};
use std::alloc::Global;
use std::process::Abort;
use vote_journal::JournalFault;

/// The failure has this line on standard error, and this exit status.
fn assert_end(rt: &impl Abort, alloc: Global, failure: Failure, line: &str, status: u8) {
    let text = format!(in alloc; "{failure}").expect(rt, "the line has room");
    assert_text(rt, "the line", &text, line);
    assert_same(rt, &failure.status(), &status);
}

#[test]
fn each_failure(rt: HostRuntime) {
    let rows: [(Failure, &str, u8); 16] = [
        (SettingsFault::Usage.into(), "tmnode: usage", 2),
        (
            Failure::Config(ConfigTrouble::Unreadable),
            "tmnode: config 0",
            2,
        ),
        (
            ConfigFault::NotToml(17).into(),
            "tmnode: config 1 line 17",
            2,
        ),
        (ConfigFault::NotAnOption.into(), "tmnode: config 2", 2),
        (Failure::Keys(KeysTrouble::Unreadable), "tmnode: keys 0", 3),
        (KeysFault::BadLine.into(), "tmnode: keys 1", 3),
        (KeysFault::Missing.into(), "tmnode: keys 2", 3),
        (KeysFault::Repeated.into(), "tmnode: keys 3", 3),
        (Failure::Keys(KeysTrouble::Unwritten), "tmnode: keys 4", 3),
        (Failure::Keys(KeysTrouble::NoBytes), "tmnode: keys 5", 3),
        (
            Failure::Journal(JournalTrouble::Unopened),
            "tmnode: journal 0",
            4,
        ),
        (JournalFault::Failed.into(), "tmnode: journal 1", 4),
        (JournalFault::BadRecord.into(), "tmnode: journal 3", 4),
        (Failure::CannotListen, "tmnode: cannot listen", 5),
        (Failure::CannotConnect, "tmnode: cannot connect", 5),
        (Failure::Halted, "tmnode: halted", 6),
    ];
    for (failure, line, status) in rows {
        assert_end(&rt, rt.alloc(), failure, line, status);
    }
}

#[test]
fn each_want_of_memory(rt: HostRuntime) {
    let rows: [Failure; 3] = [
        SettingsFault::OutOfMemory.into(),
        KeysFault::OutOfMemory.into(),
        JournalFault::OutOfMemory.into(),
    ];
    for failure in rows {
        assert_end(&rt, rt.alloc(), failure, "tmnode: out of memory", 7);
    }
}

/// The reply is told by this line, and by this exit status.
fn assert_answer(rt: &impl Abort, alloc: Global, reply: Reply, line: &str, status: u8) {
    let answer = Answer { reply };
    let text = format!(in alloc; "{answer}").expect(rt, "the line has room");
    assert_text(rt, "the line", &text, line);
    assert_same(rt, &answer.status(), &status);
}

#[test]
fn answers(rt: HostRuntime) {
    for (code, inner, line, status) in [
        (0, 0, "accepted", 0),
        (13, 4, "refused 13 4", 1),
        (7, 0, "refused 7 0", 1),
    ] {
        assert_answer(&rt, rt.alloc(), Reply { code, inner }, line, status);
    }
}

#[test]
fn how_far_it_is(rt: HostRuntime) {
    let line = StatusLine {
        height: 12,
        delivered: 0,
        links: 7,
    };
    let text = format!(in rt.alloc(); "{line}").expect(&rt, "the line has room");
    assert_text(&rt, "the line", &text, "height 12 delivered 0 links 7");
}
