// What is written of a finish.

ghost use Rattle.std.specs.Prelude.{◌≡◌, ℕ, ◌+◌, ◌-◌, ◌^◌, ◌<◌, ◌++◌, List, take, is_err, if◌then◌else◌, IfOk, IfErr, OnOk, OnErr};
ghost use Rattle.std.specs.Io.KnownBytes.{Appends};
ghost use Rattle.hx_tree.specs.Tree.{Program as ProgramTree};
ghost use Rattle.hx_stats.specs.Globals.{globals_text};
ghost use Rattle.hx_run.specs.Sources.{IsSourceOf};
ghost use Rattle.hx_run.specs.Executions.{failed_writes, tail_of, IsShown, RefusesToShow};

use crate::executing::Done;
use crate::refusal::Refusal;
use crate::source::parse_source;
use hx_device::{ByteSink, Failed, write_all};
use hx_stats::{put_globals, report};
use hx_tree::outcome::Finish;
use std::alloc::{AllocError, Global};

/// What is written behind the text of a finish, in this order.
#[derive(Clone, Copy, PartialEq, Eq, Debug)]
pub struct Tail {
    /// The report of the run.
    pub stats: bool,
    /// A line for each global.
    pub globals: bool,
}

// Puts a line for each global of the program of a source behind a text. The program has run, so it isn't read only where memory is
// refused.
fn put_globals_of(
    alloc: Global,
    text: &mut Vec<u8>,
    source: &[u8],
    words: &[i32],
) -> Result<(), AllocError>
    ensures { OnOk result ((p : ProgramTree) → IsSourceOf source.now p → text.new.items ≡ text.old.items ++ globals_text p words.now) }
{
    let Ok(program) = parse_source(alloc, source) else {
        return Err(AllocError);
    };
    put_globals(text, &program, words)
}

// What is written behind the text of a finish.
fn tail_text(
    alloc: Global,
    source: &[u8],
    finish: &Finish,
    tail: Tail,
) -> Result<Vec<u8>, AllocError>
    ensures { IfOk result (λ v. (p : ProgramTree) → IsSourceOf source.now p → v.items ≡ tail_of tail p finish.now) }
{
    let mut text = Vec::new(alloc);
    if tail.stats {
        text = report(alloc, finish)?;
    }
    if tail.globals {
        put_globals_of(alloc, &mut text, source, finish.outcome.globals.as_slice())?;
    }
    Ok(text)
}

// Two texts, one behind the other.
fn write_both<K: ByteSink>(out: &mut K, first: &[u8], second: &[u8]) -> Result<(), Failed>
    requires { K.failures out.old < 2 ^ 64 - 1 }
    ensures written { OnOk result (Appends (K.written out.old) (K.written out.new) (first.now ++ second.now)) }
    ensures beginning { OnErr result ((n : ℕ) × Appends (K.written out.old) (K.written out.new) (take n (first.now ++ second.now))) }
    ensures count { K.failures out.new ≡ K.failures out.old + (if is_err result then 1 else 0) }
{
    write_all(out, first)?;
    write_all(out, second)
}

/// Writes a finish of a source. What stands behind its text is made before anything is written.
pub(crate) fn show<K: ByteSink>(
    alloc: Global,
    source: &[u8],
    finish: &Finish,
    tail: Tail,
    out: &mut K,
) -> Result<Done, Refusal>
    requires { K.failures out.old < 2 ^ 64 - 1 }
    ensures shown { IfOk result (λ d. (p : ProgramTree) → IsSourceOf source.now p → IsShown tail p finish.now (K.written out.old) (K.written out.new) d) }
    ensures refused { IfErr result (λ e. (p : ProgramTree) → IsSourceOf source.now p → RefusesToShow tail p finish.now (K.written out.old) (K.written out.new) e) }
    ensures count { K.failures out.new ≡ K.failures out.old + failed_writes result }
{
    let Ok(behind) = tail_text(alloc, source, finish, tail) else {
        return Err(Refusal::Memory);
    };
    match write_both(out, finish.outcome.text.as_slice(), behind.as_slice()) {
        Ok(()) => Ok(Done::Finished(finish.outcome.end)),
        Err(Failed) => Err(Refusal::WriteFailed),
    }
}
