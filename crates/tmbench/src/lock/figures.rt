//! The lines of figures: the quickest of some turns counts.

use crate::fault::BenchFault;
use crate::lock::frames::{CLIENTS, OF_EACH, frames};
use crate::lock::load::{Load, READS};
use crate::lock::passing::passing;
use std::alloc::Global;
use std::rt::Clock;
use std::sync::Wait;
use std::thread::Threads;
use std::time::Duration;

/// How long it takes so many threads to hand the frames in, and a core alone to take them in.
pub(crate) fn handled<R: Clock + Threads + Wait + Sync>(
    rt: &R,
    alloc: Global,
    threads: u32,
    turns: u32,
) -> Result<String, BenchFault> {
    let frames = frames(alloc)?;
    let (shared, alone) = handling(rt, &load_of(alloc, &frames, threads), turns)?;
    let count = frames.len();
    Ok(format!(in alloc;
        "{count} frames by {threads} threads in {shared} ns, by the core alone in {alone} ns\n"
    )?)
}

/// The frames of whole clients for each of so many threads.
fn load_of<'a>(alloc: Global, frames: &'a [Vec<u8>], threads: u32) -> Load<'a> {
    let clients = u32::from(CLIENTS).div_ceil(threads.max(1));
    Load {
        alloc,
        frames,
        share: clients as usize * usize::from(OF_EACH),
        handers: threads as usize,
        readers: 0,
    }
}

/// The nanoseconds of the quickest of so many turns on a shared node, and by a core alone.
fn handling<R: Clock + Threads + Wait + Sync>(
    rt: &R,
    load: &Load<'_>,
    turns: u32,
) -> Result<(u128, u128), BenchFault> {
    let mut shared = Duration::MAX;
    let mut alone = Duration::MAX;
    for _ in 0..turns {
        shared = shared.min(load.shared(rt)?);
        alone = alone.min(load.alone(rt)?);
    }
    Ok((shared.as_nanos(), alone.as_nanos()))
}

/// How long reads of the status take beside a thread that hands frames in, and beside none.
pub(crate) fn read<R: Clock + Threads + Wait + Sync>(
    rt: &R,
    alloc: Global,
    turns: u32,
) -> Result<String, BenchFault> {
    let frames = frames(alloc)?;
    let (busy, quiet) = reading(rt, &load_of(alloc, &frames, 1), turns)?;
    Ok(format!(in alloc;
        "{READS} reads in {busy} ns beside a thread that hands frames in, in {quiet} ns beside none\n"
    )?)
}

/// The nanoseconds of the quickest reads of so many turns beside threads that hand frames in, and beside none.
fn reading<R: Clock + Threads + Wait + Sync>(
    rt: &R,
    load: &Load<'_>,
    turns: u32,
) -> Result<(u128, u128), BenchFault> {
    let beside = Load {
        readers: 1,
        ..*load
    };
    let without = Load {
        handers: 0,
        ..beside
    };
    let mut busy = Duration::MAX;
    let mut quiet = Duration::MAX;
    for _ in 0..turns {
        busy = busy.min(beside.shared(rt)?);
        quiet = quiet.min(without.shared(rt)?);
    }
    Ok((busy.as_nanos(), quiet.as_nanos()))
}

/// How long it takes so many items to pass through a ring.
pub(crate) fn passed<R: Clock + Threads + Wait + Sync>(
    rt: &R,
    alloc: Global,
    items: u32,
) -> Result<String, BenchFault> {
    let took = passing(rt, alloc, u64::from(items))?.as_nanos();
    Ok(format!(in alloc; "{items} items in {took} ns\n")?)
}
