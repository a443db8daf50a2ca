// A schedule that is replayed on a region of a source's run.

ghost use Rattle.std.specs.Prelude.{◌≡◌, ◌↔◌, All, map, IfOk, IfErr, IsTrue};
ghost use Rattle.hx_word.specs.Entry.{EntryFits};
ghost use Rattle.hx_answer.specs.Replays.{digit, AreNamesOf, IsFrom, IsReplayOf, IsWorker, Reaches, RefusesEntry, RefusesReplay, RefusesWorkers};
ghost use Rattle.hx_answer.specs.declared.replaying.NoTrace.TheVariants as no_trace;
ghost use Rattle.hx_word.specs.declared.plain.Reached.TheVariants as reached;

use crate::digits::{are_workers, numbers_of};
use hx_exec::executable::Executable;
use hx_frame::Capacities;
use hx_names::names_of;
use hx_run::{Refusal, executable_of, parse_source};
use hx_trace::{Called, Told, TraceError, replay_told};
use hx_tree::outcome::Settings;
use hx_word::entry::Entry;
use hx_word::plain::{Plain, Reached};
use std::alloc::{AllocError, Global};
use thiserror::Error;

/// A schedule, and the region that it is for.
#[derive(Clone, Copy, Debug)]
pub struct Schedule<'a> {
    /// Which of the regions that the run opens, counted from 1.
    pub nth: u64,
    /// How many words the run to the region may have.
    pub steps: u64,
    /// How many workers there are, and how much their tables hold.
    pub settings: Settings,
    /// A digit for each entry, the number of its worker: `0` to `9`, and `a` to `f` for 10 to 15.
    pub digits: &'a [u8],
    /// What is shown of it.
    pub shown: Shown,
}

/// What is shown of a replay.
#[derive(Clone, Copy, PartialEq, Eq, Debug)]
pub enum Shown {
    /// The listing of its trace.
    Trace,
    /// A line for each of its events, and that listing.
    Events,
    /// A picture of its events, as SVG.
    Picture,
    /// A table of them.
    Table,
}

/// What a schedule came to, and what the words are called that its events tell of.
#[derive(Drop)]
pub struct Replayed {
    pub told: Told,
    pub names: Vec<Called>,
}

/// Why there is no trace.
#[derive(Clone, Copy, PartialEq, Eq, Debug, Error)]
pub enum NoTrace {
    /// The source or its input is refused, or memory was.
    #[error(transparent)]
    Refused(Refusal),
    /// The run ends before it opens so many regions.
    #[error("no such region entry")]
    NoEntry,
    /// It doesn't come to the region within its steps.
    #[error("not ended")]
    NotEnded,
    /// 40 or 41.
    #[error(transparent)]
    Schedule(TraceError),
}

impl From<Refusal> for NoTrace {
    ghost from_gives = { λ e r. r ≡ no_trace.Refused e };

    fn from(e: Refusal) -> NoTrace {
        NoTrace::Refused(e)
    }
}

impl From<TraceError> for NoTrace {
    ghost from_gives = { λ e r. r ≡ no_trace.Schedule e };

    fn from(e: TraceError) -> NoTrace {
        NoTrace::Schedule(e)
    }
}

// The region and its entry.
fn reach(
    alloc: Global,
    code: &Executable,
    input: &[i32],
    nth: u64,
    steps: u64,
) -> Result<(u32, Entry), NoTrace>
    ensures reached { IfOk result (λ r. Reaches code.now input.now nth steps (reached.At r.0 r.1)) }
    ensures refused { IfErr result (RefusesEntry code.now input.now nth steps) }
{
    let plain = match Plain::new(alloc, code, input) {
        Ok(plain) => plain,
        Err(e) => return Err(NoTrace::Refused(Refusal::from(e))),
    };
    if nth == 0 {
        return Err(NoTrace::NoEntry);
    }
    match plain.entry_at(alloc, nth, steps) {
        Ok(Reached::At(region, entry)) => Ok((region, entry)),
        Ok(Reached::Ended) => Err(NoTrace::NoEntry),
        Ok(Reached::More) => Err(NoTrace::NotEnded),
        Err(_) => Err(NoTrace::Refused(Refusal::Memory)),
    }
}

// What a schedule comes to from a region's entry.
fn told_from(
    alloc: Global,
    code: &Executable,
    region: u32,
    entry: &Entry,
    settings: Settings,
    digits: &[u8],
) -> Result<Told, TraceError>
    requires { EntryFits code.now region entry.now }
    ensures told { IfOk result (IsFrom code.now region entry.now settings digits.now) }
    ensures refused { IfErr result (RefusesWorkers settings digits.now) }
{
    if !are_workers(digits, settings.workers) {
        return Err(TraceError::NoSuchWorker);
    }
    let Ok(schedule) = numbers_of(alloc, digits) else {
        return Err(TraceError::Memory);
    };
    let capacities = Capacities {
        marks: settings.marks,
        buffer: settings.buffer,
    };
    let slots = settings.workers;
    replay_told(
        alloc,
        code,
        region,
        entry,
        slots,
        capacities,
        schedule.as_slice(),
    )
}

/// Replays a schedule on a region of the run of a source on an input.
///
/// An `Ok` is the trace of the schedule from the region's entry and its events, as `hx_trace::replay_told` promises them, and what the
/// words of that region are called. Refusals, in this order: those of `hx_run::compile`; 61; `NoEntry` and `NotEnded`; 40 where a byte
/// of the schedule is no worker's digit. 41 and the other refusals for want of memory say nothing. The settings are looked at no further
/// than that, and what is shown not at all.
pub fn replay_of(
    alloc: Global,
    source: &[u8],
    input: &[i32],
    asked: &Schedule<'_>,
) -> Result<Replayed, NoTrace>
    ensures told { IfOk result (IsReplayOf source.now input.now asked.now) }
    ensures refused { IfErr result (RefusesReplay source.now input.now asked.now) }
{
    let code = executable_of(alloc, source)?;
    let (region, entry) = reach(alloc, &code, input, asked.nth, asked.steps)?;
    let told = told_from(alloc, &code, region, &entry, asked.settings, asked.digits)?;
    let Ok(names) = names_in(alloc, source, &code, region) else {
        return Err(NoTrace::Refused(Refusal::Memory));
    };
    Ok(Replayed { told, names })
}

// What the words of a region of a source's code are called. The source has been read before, so an `Err` is for want of memory.
fn names_in(
    alloc: Global,
    source: &[u8],
    code: &Executable,
    region: u32,
) -> Result<Vec<Called>, AllocError>
    ensures { IfOk result (λ v. AreNamesOf source.now code.now region v.items) }
{
    let Ok(program) = parse_source(alloc, source) else {
        return Err(AllocError);
    };
    names_of(alloc, &program, code.code(), region)
}
