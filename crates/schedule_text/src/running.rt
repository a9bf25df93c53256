//! The run of a schedule.

ghost use Rattle.std.specs.Prelude.{◌≡◌, ◌≢◌, [], ℕ, Bool, List, IfOk, IfErr};
ghost use Rattle.world_parties.specs.Cast.{Cast};
ghost use Rattle.world_schedule.specs.Reports.{Made};
ghost use Rattle.world_schedule.specs.Worlds.{HasOpened, IsWorld, IsReport};
ghost use Rattle.schedule_text.specs.Failures.{status_of};

use crate::fault::Failure;
use crate::margin::Margin;
use crate::report::{EndLine, ReportLine, is_shown};
use crate::schedule::{Schedule, Stretch};
use crate::standing::{KeptLine, StateLine};
use crate::values::Values;
use std::alloc::{AllocError, Global};
use std::fmt;
use std::io::Write;
use world_schedule::{End, Event, Report, RunFault, Told, World};

/// A run of a schedule, whose report is written as it goes on.
#[derive(Drop)]
pub(crate) struct Run<'a> {
    alloc: Global,
    values: &'a Values,
    world: World,
    /// How many events happened.
    before: u64,
    margin: Margin,
}

impl<'a> Run<'a> {
    /// The world's beginning.
    pub(crate) fn new(
        alloc: Global,
        schedule: &'a Schedule,
        margin: Margin,
    ) -> Result<Run<'a>, AllocError>
        ensures { IfOk result (λ run. HasOpened schedule.now.cast.parties.powers schedule.now.cast.clients schedule.now.cast.liars.items run.world × (run.before ≡ 0)) }
    {
        Ok(Run {
            alloc,
            values: &schedule.values,
            world: schedule.cast.world(alloc)?,
            before: 0,
            margin,
        })
    }

    /// Runs stretches in turn.
    pub(crate) fn tell_stretches<'f, W: Write>(
        &mut self,
        stretches: &[Stretch],
        out: &mut W,
    ) -> Result<(), Failure<'f>>
        ensures quiet { IfErr result (λ failure. status_of failure ≢ 2) }
        ensures none { stretches.now ≡ [] → self.new ≡ self.old }
    {
        for stretch in stretches {
            self.tell_stretch(stretch, out)?;
        }
        Ok(())
    }

    /// Runs a stretch, and tells the state behind it.
    fn tell_stretch<'f, W: Write>(
        &mut self,
        stretch: &Stretch,
        out: &mut W,
    ) -> Result<(), Failure<'f>>
        ensures { IfErr result (λ failure. status_of failure ≢ 2) }
    {
        self.tell_events(&stretch.events, out)?;
        self.tell_state(stretch.validator, out)
    }

    /// Runs events, and tells of them.
    pub(crate) fn tell_events<'f, W: Write>(
        &mut self,
        events: &[Event],
        out: &mut W,
    ) -> Result<Report, Failure<'f>>
        ensures quiet { IfErr result (λ failure. status_of failure ≢ 2) }
        ensures handed { (cast : Cast) (ms : List Made) (brought : ℕ → ℕ → Bool) → IsWorld cast ms brought self.old.world → IfOk result (λ report. IsReport cast ms brought events.now self.old.world self.new.world report) }
    {
        match self.world.run(events) {
            Ok(report) => {
                self.before = self.before.saturating_add(events.len() as u64);
                self.write_all(report.told.as_slice(), out)?;
                Ok(report)
            }
            Err(fault) => {
                self.write_all(fault.told.as_slice(), out)?;
                Err(self.failure(&fault))
            }
        }
    }

    /// The failure of an event, counted from the first one of the schedule.
    fn failure<'f>(&self, fault: &RunFault) -> Failure<'f>
        ensures { status_of result ≡ 3 }
    {
        Failure::Event(self.before.saturating_add(fault.event), fault.number)
    }

    fn write_all<'f, W: Write>(&self, told: &[Told], out: &mut W) -> Result<(), Failure<'f>>
        ensures { IfErr result (λ failure. status_of failure ≢ 2) }
    {
        for told in told {
            if is_shown(told) {
                let line = ReportLine::new(self.alloc, told, self.values)?;
                write_line(self.margin, &line, out)?;
            }
        }
        Ok(())
    }

    /// Tells a validator's state, and the proposals that it keeps.
    pub(crate) fn tell_state<'f, W: Write>(
        &self,
        validator: u16,
        out: &mut W,
    ) -> Result<(), Failure<'f>>
        ensures { IfErr result (λ failure. status_of failure ≢ 2) }
    {
        let values = self.values;
        let state = self.world.state(u64::from(validator));
        write_line(
            self.margin,
            &StateLine {
                validator,
                state,
                values,
            },
            out,
        )?;
        let Some(state) = state else {
            return Ok(());
        };
        for kept in state.kept() {
            write_line(
                self.margin,
                &KeptLine {
                    validator,
                    kept,
                    values,
                },
                out,
            )?;
        }
        Ok(())
    }
}

/// Writes how the validators end.
pub(crate) fn write_ends<'a, W: Write>(
    margin: Margin,
    ends: &[End],
    out: &mut W,
) -> Result<(), Failure<'a>>
    ensures { IfErr result (λ failure. status_of failure ≡ 5) }
{
    for end in ends {
        write_line(margin, &EndLine(end), out)?;
    }
    Ok(())
}

/// Writes a line behind its margin, and its line feed.
fn write_line<'a, L: fmt::Display, W: Write>(
    margin: Margin,
    line: &L,
    out: &mut W,
) -> Result<(), Failure<'a>>
    ensures { IfErr result (λ failure. status_of failure ≡ 5) }
{
    match writeln!(out, "{margin}{line}") {
        Ok(()) => Ok(()),
        Err(_) => Err(Failure::CannotWrite),
    }
}
