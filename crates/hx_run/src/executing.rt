// A source that is read, run and told of.

ghost use Rattle.std.specs.Prelude.{◌≡◌, ◌↔◌, ◌+◌, ◌-◌, ◌^◌, ◌<◌, IfOk, IfErr, IsErrOf};
ghost use Rattle.hx_run.specs.Headline.{AreInRange, IsFinishOf, RefusesRun};
ghost use Rattle.hx_run.specs.Executions.{failed_reads, failed_writes, IsDone, Refuses, RefusesSettings};

use crate::reading::read_source;
use crate::refusal::Refusal;
use crate::running::{PlainRan, are_in_range, run, run_plain};
use crate::showing::{Tail, show};
use hx_device::{ByteSink, ByteSource};
use hx_pool::Gate;
use hx_tree::outcome::{End, Finish, Settings};
use std::alloc::Global;
use std::sync::Wait;
use std::thread::Threads;

/// How a program is run, and what is written behind what it prints.
#[derive(Clone, Copy, PartialEq, Eq, Debug)]
pub enum Mode {
    /// To its end, its marked loops on threads.
    Run { tail: Tail },
    /// On one thread, for at most so many words of its code.
    Plain { steps: u64, tail: Tail },
}

/// What an execution comes to.
#[derive(Clone, Copy, PartialEq, Eq, Debug)]
pub enum Done {
    /// The run is over, by this end.
    Finished(End),
    /// It isn't over after its steps.
    NotEnded,
}

/// `execute` in mode `Plain`, which waits for nothing.
pub fn execute_plain<S: ByteSource, K: ByteSink>(
    alloc: Global,
    source: &mut S,
    input: &[i32],
    out: &mut K,
    steps: u64,
    tail: Tail,
) -> Result<Done, Refusal>
    requires source { S.failures source.old < 2 ^ 64 - 1 }
    requires out { K.failures out.old < 2 ^ 64 - 1 }
    ensures done { IfOk result (IsDone (Mode.Plain steps tail) input.now (S.rest source.old) (S.rest source.new) (K.written out.old) (K.written out.new)) }
    ensures refused { IfErr result (Refuses (Mode.Plain steps tail) input.now (S.rest source.old) (S.rest source.new) (K.written out.old) (K.written out.new)) }
    ensures settings { ¬ (IsErrOf result Refusal.Settings) }
    ensures reads { S.failures source.new ≡ S.failures source.old + failed_reads result }
    ensures writes { K.failures out.new ≡ K.failures out.old + failed_writes result }
{
    let bytes = read_source(alloc, source)?;
    match run_plain(alloc, bytes.as_slice(), input, steps)? {
        PlainRan::Ended(finish) => show(alloc, bytes.as_slice(), &finish, tail, out),
        PlainRan::More => Ok(Done::NotEnded),
    }
}

// `run` with settings in range: what is refused is the source or the input, or memory is wanting.
fn finish_of<R: Threads + Wait + Sync, G: Gate>(
    alloc: Global,
    rt: &R,
    source: &[u8],
    input: &[i32],
    settings: Settings,
    gate: &G,
) -> Result<Finish, Refusal>
    requires { AreInRange settings }
    ensures finish { IfOk result (IsFinishOf source.now input.now) }
    ensures refused { IfErr result (RefusesRun source.now input.now) }
{
    run(alloc, rt, source, input, settings, gate)
}

// `execute` in mode `Run`, with settings in range.
fn execute_run<R: Threads + Wait + Sync, S: ByteSource, K: ByteSink, G: Gate>(
    alloc: Global,
    rt: &R,
    source: &mut S,
    input: &[i32],
    out: &mut K,
    settings: Settings,
    tail: Tail,
    gate: &G,
) -> Result<Done, Refusal>
    requires range { AreInRange settings }
    requires source { S.failures source.old < 2 ^ 64 - 1 }
    requires out { K.failures out.old < 2 ^ 64 - 1 }
    ensures done { IfOk result (IsDone (Mode.Run tail) input.now (S.rest source.old) (S.rest source.new) (K.written out.old) (K.written out.new)) }
    ensures refused { IfErr result (Refuses (Mode.Run tail) input.now (S.rest source.old) (S.rest source.new) (K.written out.old) (K.written out.new)) }
    ensures settings { ¬ (IsErrOf result Refusal.Settings) }
    ensures reads { S.failures source.new ≡ S.failures source.old + failed_reads result }
    ensures writes { K.failures out.new ≡ K.failures out.old + failed_writes result }
{
    let bytes = read_source(alloc, source)?;
    let finish = finish_of(alloc, rt, bytes.as_slice(), input, settings, gate)?;
    show(alloc, bytes.as_slice(), &finish, tail, out)
}

/// Reads a source, runs its program on an input, and writes what it prints, and behind that, where they are asked for, the report of the
/// run and a line for each global. In mode `Run` the marked loops run on as many threads as the settings have workers, and the gate is told where each worker
/// stands; mode `Plain` doesn't look at the settings.
///
/// `Finished` has the end of a finish as `run` and `run_plain` promise one, whose whole text, with what was asked for, was written;
/// `NotEnded` comes in mode `Plain` alone, where the run isn't over after its steps, and nothing was written. Refusals, in this order:
/// 60 exactly where the settings are out of range in mode `Run`, before anything is read; 63 exactly where the source has failed in
/// this call; those of `run`; 64 exactly where the output has failed in this call, with a beginning of the output written. After every
/// other refusal nothing was written. 62 and the other refusals for want of memory say nothing of the source.
pub fn execute<R: Threads + Wait + Sync, S: ByteSource, K: ByteSink, G: Gate>(
    alloc: Global,
    rt: &R,
    mode: Mode,
    source: &mut S,
    input: &[i32],
    out: &mut K,
    settings: Settings,
    gate: &G,
) -> Result<Done, Refusal>
    requires source { S.failures source.old < 2 ^ 64 - 1 }
    requires out { K.failures out.old < 2 ^ 64 - 1 }
    ensures done { IfOk result (IsDone mode input.now (S.rest source.old) (S.rest source.new) (K.written out.old) (K.written out.new)) }
    ensures refused { IfErr result (Refuses mode input.now (S.rest source.old) (S.rest source.new) (K.written out.old) (K.written out.new)) }
    ensures settings { IsErrOf result Refusal.Settings ↔ RefusesSettings mode settings }
    ensures reads { S.failures source.new ≡ S.failures source.old + failed_reads result }
    ensures writes { K.failures out.new ≡ K.failures out.old + failed_writes result }
{
    match mode {
        Mode::Run { tail } => {
            if !are_in_range(settings) {
                return Err(Refusal::Settings);
            }
            execute_run(alloc, rt, source, input, out, settings, tail, gate)
        }
        Mode::Plain { steps, tail } => execute_plain(alloc, source, input, out, steps, tail),
    }
}
