//! Runs, and what is printed of them.

use crate::words::Wanted;
use cluster_checks::{Asked, Failed, Failure, Note, Settings, TROUBLES, Troubles};
use cluster_world::World;
use std::alloc::{AllocError, Global};
use std::fmt;
use std::io::Write;

/// Why a program ends without having told what came of a run.
#[derive(Clone, Copy, Debug, PartialEq, Eq, thiserror::Error)]
pub enum Trouble {
    /// The powers are none's.
    #[error("the powers are not those of a cluster")]
    Usage,
    /// No memory is left.
    #[error("out of memory")]
    OutOfMemory,
    /// The output can't be written.
    #[error("the output cannot be written")]
    CannotWrite,
}

impl Trouble {
    /// The exit status.
    pub fn status(self) -> u8 {
        match self {
            Trouble::Usage => 2,
            Trouble::OutOfMemory => 4,
            Trouble::CannotWrite => 5,
        }
    }
}

impl From<AllocError> for Trouble {
    fn from(_e: AllocError) -> Trouble {
        Trouble::OutOfMemory
    }
}

impl From<std::io::Error> for Trouble {
    fn from(_e: std::io::Error) -> Trouble {
        Trouble::CannotWrite
    }
}

impl From<Failure> for Trouble {
    fn from(failure: Failure) -> Trouble {
        match failure {
            Failure::OutOfMemory => Trouble::OutOfMemory,
            _ => Trouble::Usage,
        }
    }
}

/// The settings of a run in a line.
#[derive(Drop)]
struct Shown<'a>(&'a Settings);

impl fmt::Display for Shown<'_> {
    fn fmt<W: fmt::Write>(&self, f: &mut fmt::Formatter<W>) -> fmt::Result {
        let Settings {
            powers,
            liars,
            clients,
            span,
            calm,
            troubles,
            keeping,
            rest,
            idle,
            start,
            delta,
            pause,
            delay,
            ..
        } = self.0;
        write!(
            f,
            "powers {powers:?}, liars {liars:?}, {clients} clients, {span} ms, calm at {calm} ms, faults {troubles}, "
        )?;
        write!(
            f,
            "{keeping:?} links, rest {rest}, idle {idle}, start {start}, delta {delta}, pause {pause}, delay {delay}"
        )
    }
}

/// Does what is wanted: the exit status, 1 where a run fails.
pub fn done<W: Write>(alloc: Global, wanted: &Wanted, out: &mut W) -> Result<u8, Trouble> {
    let found = run(alloc, wanted, &wanted.asked, out, true)?;
    let Some(_) = found else {
        return Ok(0);
    };
    if wanted.shrinks {
        shrink(alloc, wanted, out)?;
    }
    Ok(1)
}

/// Runs a cluster, and prints what came of it: how it failed, if it did.
fn run<W: Write>(
    alloc: Global,
    wanted: &Wanted,
    asked: &Asked,
    out: &mut W,
    tells: bool,
) -> Result<Option<Failed>, Trouble> {
    let settings = Settings::drawn(alloc, asked.copy(alloc)?)?;
    let mut world = World::new(alloc, settings)?;
    run_world(alloc, wanted, &mut world, out, tells)
}

/// Runs a cluster that stands. (It is borrowed, since each way out of a function proves anew that what it owns is dropped.)
fn run_world<W: Write>(
    alloc: Global,
    wanted: &Wanted,
    world: &mut World,
    out: &mut W,
    tells: bool,
) -> Result<Option<Failed>, Trouble> {
    let traces = tells && wanted.traces;
    let failed = steps(alloc, world, wanted.until, traces, out)?;
    if tells {
        tell(alloc, world, failed, traces, out)?;
    }
    match failed {
        Some(
            Failed {
                failure: Failure::OutOfMemory,
                ..
            },
        ) => Err(Trouble::OutOfMemory),
        failed => Ok(failed),
    }
}

/// Lets events happen until the run is over, as many as are wanted have happened, or one fails.
fn steps<W: Write>(
    alloc: Global,
    world: &mut World,
    until: Option<u64>,
    traces: bool,
    out: &mut W,
) -> Result<Option<Failed>, Trouble> {
    for _ in 0..until.unwrap_or(u64::MAX) {
        let stepped = world.step();
        if traces {
            tell_lines(&world.notes().last_event(alloc)?, out)?;
        }
        match stepped {
            Ok(Some(_)) => {}
            Ok(None) => break,
            Err(failed) => return Ok(Some(failed)),
        }
    }
    Ok(None)
}

/// Prints what was noted.
fn tell_lines<W: Write>(lines: &[Note], out: &mut W) -> Result<(), Trouble> {
    for line in lines {
        writeln!(out, "{line}")?;
    }
    Ok(())
}

/// Prints the last events of a run that failed, a line of result, and figures.
fn tell<W: Write>(
    alloc: Global,
    world: &World,
    failed: Option<Failed>,
    was_traced: bool,
    out: &mut W,
) -> Result<(), Trouble> {
    let seed = world.settings().seed;
    let shown = Shown(world.settings());
    let costs = world.costs();
    match failed {
        Some(failed) => {
            if !was_traced {
                tell_lines(&world.notes().last_events(alloc)?, out)?;
            }
            writeln!(out, "seed {seed}: failed: {failed}")?;
        }
        None => writeln!(out, "seed {seed}: passed")?,
    }
    writeln!(out, "{shown}")?;
    writeln!(out, "{costs}")?;
    Ok(())
}

/// Runs the seed again without each kind of faults in turn, and prints those without which it doesn't fail.
fn shrink<W: Write>(alloc: Global, wanted: &Wanted, out: &mut W) -> Result<(), Trouble> {
    let mut left = wanted.asked.troubles;
    for trouble in TROUBLES {
        if left.has(trouble) {
            let mut fewer = left;
            fewer.set(trouble, false);
            let asked = with_troubles(alloc, &wanted.asked, fewer)?;
            if run(alloc, wanted, &asked, out, false)?.is_some() {
                left = fewer;
            }
        }
    }
    let seed = wanted.asked.seed;
    writeln!(out, "seed {seed} fails with --faults {left}")?;
    Ok(())
}

/// The same run with these faults.
fn with_troubles(alloc: Global, asked: &Asked, troubles: Troubles) -> Result<Asked, AllocError> {
    let mut copied = asked.copy(alloc)?;
    copied.troubles = troubles;
    Ok(copied)
}
