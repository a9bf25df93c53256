//! Saves, one after the other.

ghost use Rattle.std.specs.Prelude.{◌≡◌, false, IfOk};

use crate::fault::BenchFault;
use crate::node::{ME, four};
use journal_file::FileStore;
use protocol::{Act, OwnMessage, Record};
use std::alloc::Global;
use std::fs::File;
use std::rt::{Clock, Files};
use std::time::{Duration, Instant};
use vote_journal::{Journal, JournalFault, Opened, Store, spell_record};

/// The prevote for nil in a round of height 0.
fn prevote(round: u32) -> Record {
    Record::Own(OwnMessage {
        height: 0,
        round,
        act: Act::Prevoting(None),
    })
}

/// Saves so many prevotes, and tells how long one takes, and how long an append and a sync of as many bytes.
pub(crate) fn saved<R: Clock + Files<File = File> + AllocGlobal>(
    rt: &R,
    path: &str,
    count: u32,
) -> Result<String, BenchFault> {
    let alloc = rt.alloc();
    let mut journal = opened(rt, path)?;
    let saving = time_of_saves(rt, alloc, &mut journal, count)?;
    told(rt, alloc, &mut journal.close(), count, saving)
}

/// The journal on the file.
fn opened<R: Files<File = File> + AllocGlobal>(
    rt: &R,
    path: &str,
) -> Result<Journal<FileStore>, BenchFault>
    ensures { IfOk result (λ journal. journal.me ≡ 3) }
{
    let alloc = rt.alloc();
    let powers = four(alloc)?;
    let store = FileStore::open(rt, path)?;
    match Journal::open(alloc, store, ME, &powers) {
        Ok(
            Opened {
                journal,
                decisions: _,
                own: _,
            },
        ) => Ok(journal),
        Err(refused) => Err(refused.fault.into()),
    }
}

/// What a save took of so many that took this long, and what a sync takes.
fn told(
    rt: &impl Clock,
    alloc: Global,
    store: &mut FileStore,
    count: u32,
    saving: Duration,
) -> Result<String, BenchFault> {
    let syncing = time_of_syncs(rt, alloc, store, count)?;
    let each = microseconds_each(saving, count);
    let synced = microseconds_each(syncing, count);
    Ok(format!(in alloc; "{count} saves, {each} us each, of which the sync {synced} us\n")?)
}

/// How long so many saves take.
fn time_of_saves(
    rt: &impl Clock,
    alloc: Global,
    journal: &mut Journal<FileStore>,
    count: u32,
) -> Result<Duration, BenchFault>
    requires { journal.old.me ≡ 3 }
{
    let start = Instant::now(rt)?;
    for round in 0..count {
        if journal.has_failed() {
            return Err(BenchFault::Journal(JournalFault::Failed));
        }
        save_one(alloc, journal, round)?;
    }
    Ok(start.elapsed(rt)?)
}

/// Saves the prevote of a round.
fn save_one(alloc: Global, journal: &mut Journal<FileStore>, round: u32) -> Result<(), BenchFault>
    requires running { journal.old.failed ≡ false }
    requires me { journal.old.me ≡ 3 }
    ensures { journal.new.me ≡ 3 }
{
    let entry = prevote(round);
    let spelled = spell_record(alloc, ME, &entry)?;
    journal.save(entry, &spelled)?;
    Ok(())
}

/// How long the syncs take of so many appends of a record's bytes.
fn time_of_syncs(
    rt: &impl Clock,
    alloc: Global,
    store: &mut FileStore,
    count: u32,
) -> Result<Duration, BenchFault> {
    let bytes = spell_record(alloc, ME, &prevote(count))?;
    let mut took = Duration::ZERO;
    for _ in 0..count {
        store.append(&bytes)?;
        let start = Instant::now(rt)?;
        store.sync()?;
        took = took.saturating_add(start.elapsed(rt)?);
    }
    Ok(took)
}

/// The microseconds for each of so many saves.
fn microseconds_each(took: Duration, count: u32) -> u128 {
    took.as_micros()
        .checked_div(u128::from(count))
        .unwrap_or_default()
}
