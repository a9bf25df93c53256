//! Command lines, and what they ask for.

use super::{assert_text, put_words};
use node_settings::{
    Invocation, JournalSettings, KeysSettings, RunSettings, SendSettings, Sending, SettingsFault,
    line_op, settings,
};
use powers::Powers;
use std::alloc::{AllocError, Global};
use std::process::Abort;
use transactions::Op;

/// What the words of a line ask for, as a text. One space stands between words.
fn asked(alloc: Global, line: &str) -> Result<String, AllocError> {
    let words: Vec<&str> = line.split(' ').collect(alloc)?;
    shown(alloc, &settings(alloc, &words))
}

/// What is asked for, as a text, or that nothing is.
fn shown(
    alloc: Global,
    asked: &Result<Invocation<'_>, SettingsFault>,
) -> Result<String, AllocError> {
    let mut text = String::new(alloc);
    put_asked(&mut text, asked)?;
    Ok(text)
}

/// Writes what is asked for behind the text, or that nothing is.
fn put_asked(
    text: &mut String,
    asked: &Result<Invocation<'_>, SettingsFault>,
) -> Result<(), AllocError> {
    match asked {
        Ok(Invocation::Run(run)) => put_run(text, run),
        Ok(Invocation::Send(send)) => put_send(text, send),
        Ok(Invocation::Keys(keys)) => put_keys(text, keys),
        Ok(Invocation::Journal(journal)) => put_journal(text, journal),
        Ok(Invocation::Page(page)) => write!(text, "{page}"),
        Err(fault) => write!(text, "{fault}"),
    }
}

/// Writes what a run is told behind the text.
fn put_run(text: &mut String, run: &RunSettings<'_>) -> Result<(), AllocError> {
    put_powers(text, run.me, &run.powers)?;
    put_words(text, &run.peers)?;
    put_times(text, run)?;
    put_ways(text, run)?;
    put_address(text, run.status)?;
    put_address(text, run.metrics)
}

/// Writes which of how many validators a run is, and the sum of their powers.
fn put_powers(text: &mut String, me: u16, powers: &Powers) -> Result<(), AllocError> {
    write!(text, "{me} of {}, power {}", powers.count(), powers.total())
}

/// Writes the files of a run, and its times.
fn put_times(text: &mut String, run: &RunSettings<'_>) -> Result<(), AllocError> {
    write!(text, ", {} {}, ", run.keys, run.journal)?;
    write!(
        text,
        "{} {} {} {}",
        run.start, run.delta, run.idle, run.rest
    )
}

/// Writes how links are kept, what is printed, and what is logged.
fn put_ways(text: &mut String, run: &RunSettings<'_>) -> Result<(), AllocError> {
    write!(text, ", {:?} {}, ", run.keeping, run.redial)?;
    write!(text, "{} {:?} {}", run.from, run.stop, run.level)
}

/// Writes an address, if there is one.
fn put_address(text: &mut String, address: Option<&str>) -> Result<(), AllocError> {
    match address {
        Some(address) => write!(text, " {address}"),
        None => Ok(()),
    }
}

/// Writes what a transaction asks for.
fn put_op(text: &mut String, op: &Op) -> Result<(), AllocError> {
    match op {
        Op::Bytes(bytes) => write!(text, "{:?}", bytes.as_slice()),
        Op::Close => text.push_str("close"),
    }
}

/// Writes what is sent, by whom, and to whom.
fn put_send(text: &mut String, send: &SendSettings<'_>) -> Result<(), AllocError> {
    write!(text, "{}.{} to", send.client, send.session)?;
    put_words(text, &send.to)?;
    write!(
        text,
        " of {}, {}, {} ",
        send.validators, send.keys, send.number
    )?;
    match &send.sending {
        Sending::One(op) => put_op(text, op),
        Sending::Lines(file) => write!(text, "lines of {file}"),
    }
}

/// Writes for how many parties keys are made, and where.
fn put_keys(text: &mut String, keys: &KeysSettings<'_>) -> Result<(), AllocError> {
    write!(
        text,
        "{} and {} in {}",
        keys.validators, keys.clients, keys.out
    )
}

/// Writes which journal is printed, and how.
fn put_journal(text: &mut String, journal: &JournalSettings<'_>) -> Result<(), AllocError> {
    write!(text, "{} {:?} ", journal.file, journal.height)?;
    write!(text, "{} {:?}", journal.follows, journal.form)
}

/// The line asks for this.
fn assert_asked(rt: &impl Abort, alloc: Global, line: &str, wanted: &str) {
    let text = asked(alloc, line).expect(rt, "the text has room");
    assert_text(rt, line, &text, wanted);
}

/// Each of these lines, behind this beginning, is no command line.
fn assert_usage(rt: &impl Abort, alloc: Global, front: &str, lines: &str) {
    for rest in lines.split('\n') {
        let line = format!(in alloc; "{front}{rest}").expect(rt, "the line has room");
        assert_asked(rt, alloc, &line, "usage");
    }
}

/// The line of a run that ends with these words asks for a run that is told so behind its files and times.
fn assert_run(rt: &impl Abort, alloc: Global, words: &str, told: &str) {
    let line = format!(in alloc;
        "tmnode run --id 0 --powers 1,1 --keys k --journal j --peers a,b --start 2 --delta 2 {words}"
    ).expect(rt, "the line has room");
    let wanted = format!(in alloc; "0 of 2, power 2 a b, k j, 2 2 1 {told}").expect(
        rt,
        "the text has room",
    );
    assert_asked(rt, alloc, &line, &wanted);
}

/// The line of a client that ends with these words asks for this.
fn assert_sent(rt: &impl Abort, alloc: Global, words: &str, wanted: &str) {
    let line = format!(in alloc;
        "tmnode send --id 7 --validators 4 --keys k --to a:1 --number 2 {words}"
    ).expect(rt, "the line has room");
    assert_asked(rt, alloc, &line, wanted);
}

#[test]
fn run_lines(rt: HostRuntime) {
    let alloc = rt.alloc();
    assert_asked(
        &rt,
        alloc,
        "tmnode run --id 1 --powers 5,3 --keys k --journal j --peers a:1,b:2 --start 0 --delta 86400000 --stop 1",
        "1 of 2, power 8 a:1 b:2, k j, 0 86400000 0 0, Open 1000, 0 Some(1) INFO",
    );
    assert_asked(
        &rt,
        alloc,
        "tmnode run --from=5 --delta 2 --start=00200 --peers a,b,c --journal=j --keys k --powers 1,1,1 --id 0",
        "0 of 3, power 3 a b c, k j, 200 2 100 0, Open 1000, 5 None INFO",
    );
    assert_asked(
        &rt,
        alloc,
        "tmnode run --id 0 --powers 1,1 --keys k --journal j --peers a,b --start 9 --delta 2 --idle 9",
        "0 of 2, power 2 a b, k j, 9 2 9 0, Open 1000, 0 None INFO",
    );
    assert_asked(
        &rt,
        alloc,
        "tmnode run --status s:1 --id 0 --powers 1,1 --keys k --journal j --peers a,b --start 2 --delta 2 --log wArn",
        "0 of 2, power 2 a b, k j, 2 2 1 0, Open 1000, 0 None WARN s:1",
    );
    assert_asked(
        &rt,
        alloc,
        "tmnode run --config c --metrics m:1 --id 0 --powers 1,1 --keys k --journal j --peers a,b --start 2 --delta 2",
        "0 of 2, power 2 a b, k j, 2 2 1 0, Open 1000, 0 None INFO m:1",
    );
}

#[test]
fn links_of_run_lines(rt: HostRuntime) {
    let alloc = rt.alloc();
    for (words, told) in [
        ("--links open --redial 1", "0, Open 1, 0 None INFO"),
        ("--links=guarded --rest 0", "0, Guarded 1000, 0 None INFO"),
        (
            "--redial 86400000 --rest 86400000 --links guarded",
            "86400000, Guarded 86400000, 0 None INFO",
        ),
    ] {
        assert_run(&rt, alloc, words, told);
    }
    assert_usage(
        &rt,
        alloc,
        "tmnode run --id 0 --powers 1,1 --keys k --journal j --peers a,b --start 2 --delta 2 ",
        "--links closed\n--links Open\n--links \n--links\n--links open --links open\n--redial 0\n--redial 86400001\n\
--redial\n--redial 1s\n--rest 86400001\n--rest -1\n--rest\n--rest 1 --rest 1",
    );
}

#[test]
fn levels_of_run_lines(rt: HostRuntime) {
    for (words, told) in [
        ("--log off", "0, Open 1000, 0 None OFF"),
        ("--log error", "0, Open 1000, 0 None ERROR"),
        ("--log warn", "0, Open 1000, 0 None WARN"),
        ("--log info", "0, Open 1000, 0 None INFO"),
        ("--log debug", "0, Open 1000, 0 None DEBUG"),
        ("--log trace", "0, Open 1000, 0 None TRACE"),
    ] {
        assert_run(&rt, rt.alloc(), words, told);
    }
}

#[test]
fn bad_run_lines(rt: HostRuntime) {
    let alloc = rt.alloc();
    assert_usage(
        &rt,
        alloc,
        "tmnode run --powers 1,1,1 --peers a,b,c --keys k --journal j --id ",
        "0 --start 1\n0 --delta 1\n3 --start 1 --delta 1\n-1 --start 1 --delta 1\n+1 --start 1 --delta 1\n \
0x1 --start 1 --delta 1\n --start 1 --delta 1\n0 --start 86400001 --delta 1\n0 --start 1 --delta 86400001\n\
0 --start 1 --delta 1 --stop 0\n0 --start 1 --delta 1 --stop 18446744073709551616\n0 --start 1 --delta 1 x\n\
0 --start 1 --delta 1 --from -1\n0 --start 1 --delta 1 --from 18446744073709551616\n0 --start 1 --delta 1 --from\n\
0 --start 1 --delta 1 --start 2\n0 --start 1 --delta 1 --other 2\n0 --start 1 --delta 3 --idle 2\n\
0 --start 1 --delta 1 --idle -1\n0 --start 1 --delta 1 --log\n0 --start 1 --delta 1 --log loud\n\
0 --start 1 --delta 1 --log \n0 --start 1 --delta 1 --log info --log info\n0 --start 1 --delta 1 --status\n\
0 --start 1 --delta 1 --status a --status a",
    );
    assert_usage(
        &rt,
        alloc,
        "tmnode run --start 1 --delta 1 --keys k --journal j --id 0 --powers ",
        "1,1,1 --peers a,b\n1,1 --peers a,b,c\n1 --peers a\n --peers a\n1,0,1 --peers a,b,c\n1,,1 --peers a,b,c\n\
7,3 --peers a,b\n1,1,4294967296 --peers a,b,c\n1,1,-1 --peers a,b,c\n1,1,1",
    );
}

#[test]
fn send_lines(rt: HostRuntime) {
    let alloc = rt.alloc();
    assert_asked(
        &rt,
        alloc,
        "tmnode send --id 1023 --validators 128 --keys k --to a:1 --number 281474976710656 --data 61fF",
        "1023.0 to a:1 of 128, k, 281474976710656 [97, 255]",
    );
    assert_asked(
        &rt,
        alloc,
        "tmnode send --id 0 --validators 2 --keys k --to a:1 --number 1 --data ",
        "0.0 to a:1 of 2, k, 1 []",
    );
    assert_asked(
        &rt,
        alloc,
        "tmnode send --close --id 7 --validators 4 --keys k --to a:1 --number 2",
        "7.0 to a:1 of 4, k, 2 close",
    );
    assert_asked(
        &rt,
        alloc,
        "tmnode send --id 7 --validators 4 --keys k --to a:1,b:2 --number 2 --file f",
        "7.0 to a:1 b:2 of 4, k, 2 lines of f",
    );
}

#[test]
fn sessions_of_send_lines(rt: HostRuntime) {
    let alloc = rt.alloc();
    for (words, wanted) in [
        ("--session 0 --data 61", "7.0 to a:1 of 4, k, 2 [97]"),
        ("--session=007 --close", "7.7 to a:1 of 4, k, 2 close"),
        (
            "--session 4294967295 --file f",
            "7.4294967295 to a:1 of 4, k, 2 lines of f",
        ),
    ] {
        assert_sent(&rt, alloc, words, wanted);
    }
    assert_usage(
        &rt,
        alloc,
        "tmnode send --id 7 --validators 4 --keys k --to a --number 2 --close ",
        "--session 4294967296\n--session -1\n--session 1.0\n--session \n--session\n\
--session 1 --session 1",
    );
}

/// What a line of a file is to do, as a text.
fn shown_line(alloc: Global, line: &str) -> Result<String, AllocError> {
    let mut text = String::new(alloc);
    put_line(&mut text, &line_op(alloc, line))?;
    Ok(text)
}

/// Writes what the line of a file is to do, or that it is none.
fn put_line(text: &mut String, op: &Result<Op, SettingsFault>) -> Result<(), AllocError> {
    match op {
        Ok(op) => put_op(text, op),
        Err(SettingsFault::Usage) => text.push_str("usage"),
        Err(SettingsFault::OutOfMemory) => Err(AllocError),
    }
}

/// The line of a file is to do this.
fn assert_line(rt: &impl Abort, alloc: Global, line: &str, wanted: &str) {
    let text = shown_line(alloc, line).expect(rt, "the text has room");
    assert_text(rt, line, &text, wanted);
}

#[test]
fn lines_of_files(rt: HostRuntime) {
    let alloc = rt.alloc();
    for (line, wanted) in [
        ("61fF", "[97, 255]"),
        ("-", "[]"),
        ("close", "close"),
        ("", "usage"),
        (" ", "usage"),
        ("6", "usage"),
        ("Close", "usage"),
        ("--", "usage"),
    ] {
        assert_line(&rt, alloc, line, wanted);
    }
    let long = "00".repeat(alloc, 1025).expect(&rt, "the line has room");
    assert_line(&rt, alloc, &long, "usage");
}

#[test]
fn bad_send_lines(rt: HostRuntime) {
    let alloc = rt.alloc();
    assert_usage(
        &rt,
        alloc,
        "tmnode send --keys k --to a ",
        "--id 7 --validators 4 --number 2\n--id 7 --validators 4 --number 2 --close --data 61\n\
--id 7 --validators 4 --number 2 --data 6\n--id 7 --validators 4 --number 2 --data 6g\n\
--id 1024 --validators 4 --number 2 --close\n--id 7 --validators 1 --number 2 --close\n\
--id 7 --validators 129 --number 2 --close\n--id 7 --validators 4 --number 0 --close\n\
--id 7 --validators 4 --number 281474976710657 --close\n--id 7 --validators 4 --close\n\
--id 7 --validators 4 --number 2 --close --file f\n--id 7 --validators 4 --number 2 --data 61 --file f",
    );
    let data = "00".repeat(alloc, 1025).expect(&rt, "the data have room");
    let line = format!(in alloc;
        "tmnode send --keys k --to a --id 7 --validators 4 --number 2 --data {data}"
    ).expect(&rt, "the line has room");
    assert_asked(&rt, alloc, &line, "usage");
}

#[test]
fn keys_lines(rt: HostRuntime) {
    let alloc = rt.alloc();
    assert_asked(
        &rt,
        alloc,
        "tmnode keys --validators 128 --clients 1024 --out d/e",
        "128 and 1024 in d/e",
    );
    assert_asked(
        &rt,
        alloc,
        "tmnode keys --out=. --clients 0 --validators 2",
        "2 and 0 in .",
    );
}

#[test]
fn bad_keys_lines(rt: HostRuntime) {
    let alloc = rt.alloc();
    assert_usage(
        &rt,
        alloc,
        "tmnode keys ",
        "--validators 4 --clients 8\n--validators 4 --out d\n--clients 8 --out d\n--validators 1 --clients 8 --out d\n\
--validators 129 --clients 8 --out d\n--validators 4 --clients 1025 --out d\n--validators 4 --clients -1 --out d\n\
--validators 4 --clients  --out d\n--validators 4 --clients 8 --out d e\n--validators 4 --clients 8 --out d --out d\n\
--validators 4 --clients 8 --out d --keys k\n--validators 4 --clients 8 --out",
    );
}

#[test]
fn other_lines(rt: HostRuntime) {
    let alloc = rt.alloc();
    assert_usage(
        &rt,
        alloc,
        "tmnode",
        "\n \n walk\n help\n --id 1\n run\n send\n keys\n -x",
    );
}

/// The page has each of these words.
fn assert_words(rt: &impl Abort, page: &str, words: &[&str]) {
    for word in words {
        assert!(rt; page.contains(*word), "{word}: {page}");
    }
}

/// The line asks for a page that has each of these words.
fn assert_page(rt: &impl Abort, alloc: Global, line: &str, words: &[&str]) {
    let page = asked(alloc, line).expect(rt, "the page has room");
    assert_words(rt, &page, words);
}

#[test]
fn pages(rt: HostRuntime) {
    let alloc = rt.alloc();
    assert_asked(&rt, alloc, "tmnode --version", "tmnode 0.1.0\n");
    assert_page(
        &rt,
        alloc,
        "tmnode --help",
        &["run", "send", "keys", "--version"],
    );
    assert_page(
        &rt,
        alloc,
        "tmnode run --help",
        &[
            "--id <I>",
            "--rest <MS>",
            "--links <KEEPING>",
            "--redial <MS>",
            "--stop <K>",
            "--log <LEVEL>",
            "--status <ADDR>",
        ],
    );
    assert_page(
        &rt,
        alloc,
        "tmnode send --help",
        &["--data <HEX>", "--close", "--file <FILE>", "--session <S>"],
    );
    assert_page(
        &rt,
        alloc,
        "tmnode keys --help",
        &["--clients <C>", "--out <DIR>"],
    );
}

#[test]
fn journals(rt: HostRuntime) {
    let alloc = rt.alloc();
    assert_asked(&rt, alloc, "tmnode journal j", "j None false Lines");
    assert_asked(
        &rt,
        alloc,
        "tmnode journal --follow --height 0 --json j",
        "j Some(0) true Json",
    );
    assert_asked(&rt, alloc, "tmnode journal j --list", "j None false List");
    for line in [
        "tmnode journal",
        "tmnode journal j k",
        "tmnode journal j --height x",
        "tmnode journal j --list --json",
    ] {
        assert_asked(&rt, alloc, line, "usage");
    }
}
