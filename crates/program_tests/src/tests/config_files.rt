//! Configuration files, and the words that they give.

use super::{assert_text, put_words};
use config_file::{ConfigFault, all_words, config_named, words_of};
use std::alloc::{AllocError, Global};
use std::process::Abort;

/// The words of a command line and those that a file of this text gives beside them, with one space before each of these.
fn given(alloc: Global, line: &str, text: &str) -> Result<String, AllocError> {
    let words: Vec<&str> = line.split(' ').collect(alloc)?;
    shown(alloc, &words, &words_of(alloc, text, &words))
}

/// These words and those of a file, or why it gives none.
fn shown(
    alloc: Global,
    words: &[&str],
    configured: &Result<Vec<String>, ConfigFault>,
) -> Result<String, AllocError> {
    match configured {
        Ok(configured) => joined(alloc, words, configured),
        Err(ConfigFault::NotToml(line)) => format!(in alloc; "not TOML at line {line}"),
        Err(ConfigFault::NotAnOption) => format!(in alloc; "not an option"),
        Err(ConfigFault::OutOfMemory) => Err(AllocError),
    }
}

/// These words and those of a file, with a space before each.
fn joined(alloc: Global, words: &[&str], configured: &[String]) -> Result<String, AllocError> {
    let mut line = String::new(alloc);
    put_words(&mut line, &all_words(alloc, words, configured)?)?;
    Ok(line)
}

/// The text gives these words beside those of the line.
fn assert_given(rt: &impl Abort, alloc: Global, line: &str, text: &str, wanted: &str) {
    let found = given(alloc, line, text).expect(rt, "the words have room");
    assert_text(rt, text, &found, wanted);
}

#[test]
fn entries_become_words(rt: HostRuntime) {
    let alloc = rt.alloc();
    let rows = [
        ("a run", "", " a run"),
        ("a run", "# nothing\n\n", " a run"),
        ("a run", "start = 5", " a run --start=5"),
        (
            "a run --id 0",
            "start = 5\nlinks = \"guarded\"\ndelta = 0\n",
            " a run --id 0 --delta=0 --links=guarded --start=5",
        ),
        (
            "a run",
            "powers = [1, 2, 3]\npeers = [\"h:1\", \"h:2\"]",
            " a run --peers=h:1,h:2 --powers=1,2,3",
        ),
        (
            "a run --start 7",
            "start = 5\nrest = 1",
            " a run --start 7 --rest=1",
        ),
        ("a run --start=7", "start = 5", " a run --start=7"),
        (
            "a run --startle=7 start",
            "start = 5",
            " a run --startle=7 start --start=5",
        ),
        (
            "a run",
            "journal = \"with = and -- and  blanks\"",
            " a run --journal=with = and -- and  blanks",
        ),
    ];
    for (line, text, wanted) in rows {
        assert_given(&rt, alloc, line, text, wanted);
    }
}

#[test]
fn what_is_no_configuration(rt: HostRuntime) {
    let alloc = rt.alloc();
    let rows = [
        ("start = ", "not TOML at line 1"),
        ("start = 5\n\nid = 1\nid = 2\n", "not TOML at line 4"),
        ("start 5", "not TOML at line 1"),
        ("config = \"other\"", "not an option"),
        ("starts = 5", "not an option"),
        ("Start = 5", "not an option"),
        ("start = -5", "not an option"),
        ("start = 5.0", "not an option"),
        ("start = true", "not an option"),
        ("powers = []", "not an option"),
        ("powers = [1, [2]]", "not an option"),
        ("[start]\nms = 5", "not an option"),
        ("start = 2026-11-27", "not an option"),
    ];
    for (text, wanted) in rows {
        assert_given(&rt, alloc, "a run --start 5", text, wanted);
    }
}

/// The line names this configuration file, if any.
fn assert_named(rt: &impl Abort, alloc: Global, line: &str, wanted: Option<&str>) {
    let words: Vec<&str> = line
        .split(' ')
        .collect(alloc)
        .expect(rt, "the words have room");
    assert!(rt; config_named(&words) == wanted, "{line}");
}

#[test]
fn files_are_named(rt: HostRuntime) {
    let rows = [
        ("a run", None),
        ("a run --id 0 --config f --start 1", Some("f")),
        ("a run --config=g --config h", Some("g")),
        ("a run --config= --config h", Some("")),
        ("a run --config", None),
        ("a run --configs h", None),
        ("a send --config f", None),
        ("a --config f run", None),
        ("run --config f", None),
        ("a", None),
    ];
    for (line, wanted) in rows {
        assert_named(&rt, rt.alloc(), line, wanted);
    }
}
