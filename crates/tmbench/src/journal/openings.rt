//! A journal that is opened, and the memory that it then takes.

use crate::fault::BenchFault;
use crate::node::{ME, four};
use journal_file::FileStore;
use std::alloc::Global;
use std::fs;
use std::fs::File;
use std::rt::{Clock, Files};
use std::time::Instant;
use vote_journal::{Journal, Opened};

/// Where the system tells what memory this process has.
const STATUS: &str = "/proc/self/status";

/// Opens a journal, and tells what is kept of it, how long that took, and the memory of this process after it.
pub(crate) fn opened<R: Clock + Files<File = File> + AllocGlobal>(
    rt: &R,
    path: &str,
) -> Result<String, BenchFault> {
    let alloc = rt.alloc();
    let powers = four(alloc)?;
    let store = FileStore::open(rt, path)?;
    let start = Instant::now(rt)?;
    match Journal::open(alloc, store, ME, &powers) {
        Ok(opened) => told(rt, &opened, start),
        Err(refused) => Err(refused.fault.into()),
    }
}

/// What is kept of a journal whose opening started then.
fn told<R: Clock + Files + AllocGlobal>(
    rt: &R,
    opened: &Opened<FileStore>,
    start: Instant,
) -> Result<String, BenchFault> {
    let took = start.elapsed(rt)?;
    let alloc: Global = rt.alloc();
    let decisions = opened.decisions.len();
    let messages = opened.own.len();
    let milliseconds = took.as_millis();
    let kilobytes = resident(rt)?;
    Ok(format!(in alloc;
        "{decisions} decisions and {messages} own messages, {milliseconds} ms, {kilobytes} KB\n"
    )?)
}

/// The memory of this process, in KB.
fn resident(rt: &(impl Files + AllocGlobal)) -> Result<u64, BenchFault> {
    let text = fs::read_to_string(rt, STATUS)?;
    kilobytes_in(text.as_str()).ok_or(BenchFault::NoMemoryTold)
}

/// What the line on resident memory says.
fn kilobytes_in(text: &str) -> Option<u64> {
    for line in text.lines() {
        if let Some(rest) = line.strip_prefix("VmRSS:") {
            return rest.split_whitespace().next()?.parse().ok();
        }
    }
    None
}
