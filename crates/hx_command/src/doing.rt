// What each command does.

ghost use Rattle.std.specs.Prelude.{◌≤◌, ◌≡◌, ◌≢◌, IfOk};
ghost use Rattle.hx_answer.specs.declared.status.Status.TheVariants as status;

use crate::files::{input_of, open_source};
use crate::request::{Paths, Request, read_words};
use clap::error::{Error, ErrorKind};
use hx_answer::{
    Asked, Kept, Schedule, Status, answer_advise, answer_check, answer_execution, answer_explain,
    answer_replay, answer_words, explain_check, explain_execution, tell_memory, tell_no_number,
    tell_write_failed,
};
use hx_device::{Reading, Writing};
use hx_run::Mode;
use hx_tree::outcome::Settings;
use std::alloc::Global;
use std::convert::AsStr;
use std::io;
use std::io::Write;
use std::rt::Files;
use std::sync::Wait;
use std::thread::Threads;

// The input is read and parsed first, and then the source is opened.
fn inputs_of<R: Files + AllocGlobal, E: Write>(
    rt: &R,
    paths: &Paths<'_>,
    err: &mut E,
) -> Result<(Vec<i32>, Reading<R::File>), Status>
    ensures { IfOk result (λ r. r.1.failures ≡ 0) }
{
    let input = input_of(rt, paths, err)?;
    let source = open_source(rt, paths.source, paths.explains, err)?;
    Ok((input, source))
}

fn execute_file<R: Files + AllocGlobal + Threads + Wait + Sync, W: Write, E: Write>(
    rt: &R,
    paths: &Paths<'_>,
    mode: Mode,
    settings: Settings,
    out: &mut W,
    err: &mut E,
) -> Status {
    let (input, mut source) = match inputs_of(rt, paths, err) {
        Ok(both) => both,
        Err(status) => return status,
    };
    let mut out = Writing::new(out);
    let input = input.as_slice();
    if paths.explains {
        let mut source = Kept::new(rt.alloc(), source);
        explain_execution(
            rt.alloc(),
            rt,
            mode,
            &mut source,
            input,
            settings,
            &mut out,
            err,
        )
    } else {
        answer_execution(
            rt.alloc(),
            rt,
            mode,
            &mut source,
            input,
            settings,
            &mut out,
            err,
        )
    }
}

fn replay_file<R: Files + AllocGlobal, W: Write, E: Write>(
    rt: &R,
    paths: &Paths<'_>,
    asked: &Schedule<'_>,
    out: &mut W,
    err: &mut E,
) -> Status {
    let (input, mut source) = match inputs_of(rt, paths, err) {
        Ok(both) => both,
        Err(status) => return status,
    };
    let mut out = Writing::new(out);
    answer_replay(
        rt.alloc(),
        &mut source,
        input.as_slice(),
        asked,
        &mut out,
        err,
    )
}

fn advise_file<R: Files + AllocGlobal, W: Write, E: Write>(
    rt: &R,
    paths: &Paths<'_>,
    steps: u64,
    out: &mut W,
    err: &mut E,
) -> Status {
    let (input, mut source) = match inputs_of(rt, paths, err) {
        Ok(both) => both,
        Err(status) => return status,
    };
    let mut out = Writing::new(out);
    let input = input.as_slice();
    answer_advise(rt.alloc(), &mut source, input, steps, &mut out, err)
}

fn check_file<R: Files + AllocGlobal, W: Write, E: Write>(
    rt: &R,
    paths: &Paths<'_>,
    out: &mut W,
    err: &mut E,
) -> Status {
    let mut source = match open_source(rt, paths.source, paths.explains, err) {
        Ok(source) => source,
        Err(status) => return status,
    };
    let mut out = Writing::new(out);
    if paths.explains {
        let mut source = Kept::new(rt.alloc(), source);
        explain_check(rt.alloc(), &mut source, &mut out, err)
    } else {
        answer_check(rt.alloc(), &mut source, &mut out, err)
    }
}

fn list_file<R: Files + AllocGlobal, W: Write, E: Write>(
    rt: &R,
    path: &str,
    out: &mut W,
    err: &mut E,
) -> Status {
    match open_source(rt, path, false, err) {
        Ok(mut source) => answer_words(rt.alloc(), &mut source, &mut Writing::new(out), err),
        Err(status) => status,
    }
}

fn explain_number<W: Write, E: Write>(
    alloc: Global,
    asked: Option<Asked>,
    out: &mut W,
    err: &mut E,
) -> Status {
    match asked {
        Some(asked) => answer_explain(alloc, asked, &mut Writing::new(out), err),
        None => tell_no_number(err),
    }
}

// Help goes to the output, and what is wrong with a command line to the error stream.
fn tell_command_line<W: Write, E: Write>(error: &Error, out: &mut W, err: &mut E) -> Status
    ensures { result ≢ status.Fault }
{
    if error.kind() == ErrorKind::OutOfMemory {
        return tell_memory(err);
    }
    if error.use_stderr() {
        let _ = write!(err, "{error}");
        return Status::Refused;
    }
    match write!(out, "{error}").and_then(|()| out.flush()) {
        Ok(()) => Status::Done,
        Err(_) => tell_write_failed(err),
    }
}

/// Says why there are no words of a command line: 3 where there was no memory for them, and 2 where one of them isn't UTF-8.
pub fn tell_no_words<E: Write>(error: &io::Error, err: &mut E) -> u8
    ensures { result ≤ 4 }
{
    if error.kind() == io::ErrorKind::OutOfMemory {
        return tell_memory(err).code();
    }
    let _ = err.write_all(b"hydra: a word of the command line is not UTF-8\n");
    Status::Refused.code()
}

/// Does what a command line asks for, and answers the status to exit with: 0 for a normal end, or where what was asked
/// for was printed; 1 for a program's fault; 2 for a refusal, a run that isn't over, a region that no run enters, or a wrong command
/// line; 3 for want of memory; 4 for a file or stream that failed.
///
/// Printed text, reports, traces, listings and help go to `out`. A fault or a refusal is told on `err` in one line, with its number
/// and, where it has one, its place.
pub fn command<R: Files + AllocGlobal + Threads + Wait + Sync, S: AsStr, W: Write, E: Write>(
    rt: &R,
    words: &[S],
    out: &mut W,
    err: &mut E,
) -> u8
    ensures { result ≤ 4 }
{
    let status = match read_words(rt.alloc(), words) {
        Ok(Some(Request::Execute(paths, mode, settings))) => {
            execute_file(rt, &paths, mode, settings, out, err)
        }
        Ok(Some(Request::Replay(paths, asked))) => replay_file(rt, &paths, &asked, out, err),
        Ok(Some(Request::Advise(paths, steps))) => advise_file(rt, &paths, steps, out, err),
        Ok(Some(Request::Check(paths))) => check_file(rt, &paths, out, err),
        Ok(Some(Request::Explain(asked))) => explain_number(rt.alloc(), asked, out, err),
        Ok(Some(Request::Words(path))) => list_file(rt, path, out, err),
        Ok(None) => Status::Refused,
        Err(error) => tell_command_line(&error, out, err),
    };
    status.code()
}
