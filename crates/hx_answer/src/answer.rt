// What each command does.

ghost use Rattle.std.specs.Prelude.{◌≡◌, ℕ, ◌+◌, ◌-◌, ◌^◌, ◌<◌, IfOk};
ghost use Rattle.hx_answer.specs.Answers.{failed_devices, CheckAnswer, ExecutionAnswer, IsShown, ReplayAnswer, ShowsText, WordsAnswer};

use crate::replaying::{Replayed, Schedule, Shown, replay_of};
use crate::status::{
    Status, tell_execution, tell_memory, tell_no_trace, tell_refusal, tell_write_failed,
};
use hx_device::{ByteSink, ByteSource, write_all};
use hx_lower::listing as words_listing;
use hx_run::{Mode, Refusal, Unwatched, are_in_range, compile, execute, read_source};
use hx_timeline::{picture, table};
use hx_trace::{listing as trace_listing, told_listing};
use hx_tree::outcome::Settings;
use std::alloc::{AllocError, Global};
use std::io::Write;
use std::sync::Wait;
use std::thread::Threads;

/// Runs a source on an input, as `hx_run::execute` does, and tells what came of it on the error stream.
///
/// The status is that of its end: `Done` or `Fault` where the run is over and its text, and what was asked for behind it, were written;
/// `Refused` for a refusal or a run that isn't over, and `Memory` for want of it, with nothing written; `Device` exactly where the source or
/// the output has failed in this call.
pub fn answer_execution<R: Threads + Wait + Sync, S: ByteSource, K: ByteSink, E: Write>(
    alloc: Global,
    rt: &R,
    mode: Mode,
    source: &mut S,
    input: &[i32],
    settings: Settings,
    out: &mut K,
    err: &mut E,
) -> Status
    requires source { S.failures source.old < 2 ^ 64 - 1 }
    requires out { K.failures out.old < 2 ^ 64 - 1 }
    ensures answer { ExecutionAnswer mode settings input.now (S.rest source.old) (S.rest source.new) (K.written out.old) (K.written out.new) result }
    ensures devices { S.failures source.new + K.failures out.new ≡ S.failures source.old + K.failures out.old + failed_devices result }
{
    let executed = execute(alloc, rt, mode, source, input, out, settings, &Unwatched);
    tell_execution(err, &executed, steps_of(mode))
}

/// How many steps a mode gives a run.
pub(crate) fn steps_of(mode: Mode) -> u64 {
    match mode {
        Mode::Run { tail: _ } => 0,
        Mode::Plain { steps, tail: _ } => steps,
    }
}

/// Writes a text.
pub(crate) fn show_text<K: ByteSink, E: Write>(text: &[u8], out: &mut K, err: &mut E) -> Status
    requires { K.failures out.old < 2 ^ 64 - 1 }
    ensures shown { ShowsText text.now (K.written out.old) (K.written out.new) result }
    ensures devices { K.failures out.new ≡ K.failures out.old + failed_devices result }
{
    match write_all(out, text) {
        Ok(()) => Status::Done,
        Err(_) => tell_write_failed(err),
    }
}

/// Writes `ok` and the end of a line where a source is that of an accepted program.
///
/// Statuses are as in `answer_execution`, but for `Fault`, which doesn't come.
pub fn answer_check<S: ByteSource, K: ByteSink, E: Write>(
    alloc: Global,
    source: &mut S,
    out: &mut K,
    err: &mut E,
) -> Status
    requires source { S.failures source.old < 2 ^ 64 - 1 }
    requires out { K.failures out.old < 2 ^ 64 - 1 }
    ensures answer { CheckAnswer (S.rest source.old) (S.rest source.new) (K.written out.old) (K.written out.new) result }
    ensures devices { S.failures source.new + K.failures out.new ≡ S.failures source.old + K.failures out.old + failed_devices result }
{
    let bytes = match read_source(alloc, source) {
        Ok(bytes) => bytes,
        Err(refusal) => return tell_refusal(err, &refusal),
    };
    match compile(alloc, bytes.as_slice()) {
        Ok(_code) => show_text(b"ok\n", out, err),
        Err(refusal) => tell_refusal(err, &refusal),
    }
}

/// Writes the listing of the code of a source.
///
/// Statuses are as in `answer_check`.
pub fn answer_words<S: ByteSource, K: ByteSink, E: Write>(
    alloc: Global,
    source: &mut S,
    out: &mut K,
    err: &mut E,
) -> Status
    requires source { S.failures source.old < 2 ^ 64 - 1 }
    requires out { K.failures out.old < 2 ^ 64 - 1 }
    ensures answer { WordsAnswer (S.rest source.old) (S.rest source.new) (K.written out.old) (K.written out.new) result }
    ensures devices { S.failures source.new + K.failures out.new ≡ S.failures source.old + K.failures out.old + failed_devices result }
{
    let bytes = match read_source(alloc, source) {
        Ok(bytes) => bytes,
        Err(refusal) => return tell_refusal(err, &refusal),
    };
    let code = match compile(alloc, bytes.as_slice()) {
        Ok(code) => code,
        Err(refusal) => return tell_refusal(err, &refusal),
    };
    match words_listing(alloc, &code) {
        Ok(text) => show_text(text.as_slice(), out, err),
        Err(_) => tell_memory(err),
    }
}

/// Replays a schedule on a region of a source's run, and writes what is to be shown of it.
///
/// Statuses are as in `answer_check`; `Refused` comes, in this order, for settings that are out of range, before anything is read, for
/// what `replay_of` refuses of the source and its input, and for a schedule that names no worker.
pub fn answer_replay<S: ByteSource, K: ByteSink, E: Write>(
    alloc: Global,
    source: &mut S,
    input: &[i32],
    asked: &Schedule<'_>,
    out: &mut K,
    err: &mut E,
) -> Status
    requires source { S.failures source.old < 2 ^ 64 - 1 }
    requires out { K.failures out.old < 2 ^ 64 - 1 }
    ensures answer { ReplayAnswer input.now asked.now (S.rest source.old) (S.rest source.new) (K.written out.old) (K.written out.new) result }
    ensures devices { S.failures source.new + K.failures out.new ≡ S.failures source.old + K.failures out.old + failed_devices result }
{
    if !are_in_range(asked.settings) {
        return tell_refusal(err, &Refusal::Settings);
    }
    let bytes = match read_source(alloc, source) {
        Ok(bytes) => bytes,
        Err(refusal) => return tell_refusal(err, &refusal),
    };
    let replayed = match replay_of(alloc, bytes.as_slice(), input, asked) {
        Ok(replayed) => replayed,
        Err(why) => return tell_no_trace(err, why, asked.steps),
    };
    match shown_of(alloc, asked.shown, &replayed) {
        Ok(text) => show_text(text.as_slice(), out, err),
        Err(_) => tell_memory(err),
    }
}

// What is shown of a replay.
fn shown_of(alloc: Global, shown: Shown, replayed: &Replayed) -> Result<Vec<u8>, AllocError>
    ensures { IfOk result (λ text. IsShown shown replayed.now text.items) }
{
    match shown {
        Shown::Trace => trace_listing(alloc, &replayed.told.trace),
        Shown::Events => told_listing(alloc, &replayed.names, &replayed.told),
        Shown::Picture => picture(alloc, &replayed.names, &replayed.told),
        Shown::Table => table(alloc, &replayed.names, &replayed.told),
    }
}
