// What numbers mean, and what is told of a refusal or a fault behind its line.

ghost use Rattle.std.specs.Prelude.{◌≡◌, ◌+◌, ◌-◌, ◌^◌, ◌<◌, is_some, IfOk};
ghost use Rattle.hx_answer.specs.Answers.{failed_devices, CheckAnswer, ExecutionAnswer};
ghost use Rattle.hx_answer.specs.Explanations.{explained_text, is_asked, ExplainAnswer};

use crate::answer::{answer_check, show_text, steps_of};
use crate::status::{Status, tell, tell_execution, tell_memory, tell_no_number};
use hx_case::{case_of_fault, case_of_input, case_of_settings, case_of_source};
use hx_device::{ByteSink, ByteSource, Failed};
use hx_explain::{Explanation, fault_texts, refusal_texts};
use hx_run::{Done, Mode, Refusal, Unwatched, compile, execute};
use hx_tree::outcome::{End, Settings};
use std::alloc::{AllocError, Global};
use std::io::Write;
use std::sync::Wait;
use std::thread::Threads;

/// What is to be explained.
#[derive(Clone, Copy, PartialEq, Eq, Debug)]
pub enum Asked {
    /// The number of a refusal.
    Refusal(u32),
    /// The kind of a fault.
    Fault(u32),
}

// What a number means, with a wrong source and a right one.
fn explanation_text(alloc: Global, texts: &Explanation) -> Result<Vec<u8>, AllocError>
    ensures { IfOk result (λ v. v.items ≡ explained_text texts.now) }
{
    let mut text = Vec::from_slice(alloc, texts.meaning.as_bytes())?;
    text.extend_from_slice(b"\nwrong: ")?;
    text.extend_from_slice(texts.wrong.as_bytes())?;
    text.extend_from_slice(b"\nright: ")?;
    text.extend_from_slice(texts.right.as_bytes())?;
    text.extend_from_slice(b"\n")?;
    Ok(text)
}

// The texts of a number.
fn texts_of(asked: Asked) -> Option<Explanation>
    ensures { is_some result ≡ is_asked asked }
{
    match asked {
        Asked::Refusal(number) => refusal_texts(number),
        Asked::Fault(kind) => fault_texts(kind),
    }
}

/// Writes what a number of a refusal or of a fault means, with a wrong source and a right one, each on a line of its own.
///
/// The status is `Done` where it was written, `Refused` exactly where there is no such number, `Memory` for want of it, and `Device`
/// exactly where the output has failed in this call.
#[tactic(auto, using(crate::proofs::Explanations::explanation_shown))]
pub fn answer_explain<K: ByteSink, E: Write>(
    alloc: Global,
    asked: Asked,
    out: &mut K,
    err: &mut E,
) -> Status
    requires { K.failures out.old < 2 ^ 64 - 1 }
    ensures answer { ExplainAnswer asked (K.written out.old) (K.written out.new) result }
    ensures devices { K.failures out.new ≡ K.failures out.old + failed_devices result }
{
    let Some(texts) = texts_of(asked) else {
        return tell_no_number(err);
    };
    match explanation_text(alloc, &texts) {
        Ok(text) => show_text(text.as_slice(), out, err),
        Err(_) => tell_memory(err),
    }
}

/// A source that keeps what is read of it, as far as there is memory.
#[derive(Drop)]
pub struct Kept<S> {
    source: S,
    bytes: Vec<u8>,
    is_whole: bool,
}

impl<S: ByteSource> Kept<S> {
    /// The source, of which nothing is kept yet.
    pub fn new(alloc: Global, source: S) -> Kept<S>
        ensures { result.source ≡ source }
    {
        Kept {
            source,
            bytes: Vec::new(alloc),
            is_whole: true,
        }
    }

    // What was read, where all of it is kept.
    fn kept(&self) -> Option<&[u8]> {
        if self.is_whole {
            Some(self.bytes.as_slice())
        } else {
            None
        }
    }
}

impl<S: ByteSource> ByteSource for Kept<S> {
    ghost rest = { λ s. S.rest s.source };

    ghost failures = { λ s. S.failures s.source };

    fn read(&mut self, buffer: &mut [u8]) -> Result<usize, Failed> {
        let count = self.source.read(buffer)?;
        if self.bytes.extend_from_slice(&buffer[..count]).is_err() {
            self.is_whole = false;
        }
        Ok(count)
    }
}

// A refusal of what was run with this input and these settings.
fn case_of_refusal(
    alloc: Global,
    source: &[u8],
    input: &[i32],
    settings: Settings,
    refusal: &Refusal,
) -> Result<Vec<u8>, AllocError> {
    match refusal {
        Refusal::Settings => case_of_settings(alloc, settings),
        Refusal::InputTooLong => case_of_input(alloc, source, input.len()),
        Refusal::ReadFailed => Vec::from_slice(
            alloc,
            b"The source opens, and can't be read. It may be a directory.\n",
        ),
        Refusal::WriteFailed => Vec::from_slice(alloc, b"The output takes no more.\n"),
        _ => case_of_source(alloc, source, refusal.number(), refusal.pos()),
    }
}

// What an execution has come to, in more words.
fn case_of_execution(
    alloc: Global,
    source: &[u8],
    input: &[i32],
    settings: Settings,
    executed: &Result<Done, Refusal>,
) -> Result<Vec<u8>, AllocError> {
    match executed {
        Ok(Done::Finished(End::Fault(fault))) => case_of_fault(alloc, source, *fault),
        Ok(_) => Ok(Vec::new(alloc)),
        Err(refusal) => case_of_refusal(alloc, source, input, settings, refusal),
    }
}

/// `answer_execution`, which tells more of a refusal and of a fault: behind its line come, where it has a place, the line of the source
/// with a mark below it, and a sentence that tells this case from others of its number.
pub fn explain_execution<R: Threads + Wait + Sync, S: ByteSource, K: ByteSink, E: Write>(
    alloc: Global,
    rt: &R,
    mode: Mode,
    source: &mut Kept<S>,
    input: &[i32],
    settings: Settings,
    out: &mut K,
    err: &mut E,
) -> Status
    requires source { S.failures source.old.source < 2 ^ 64 - 1 }
    requires out { K.failures out.old < 2 ^ 64 - 1 }
    ensures answer { ExecutionAnswer mode settings input.now (S.rest source.old.source) (S.rest source.new.source) (K.written out.old) (K.written out.new) result }
    ensures devices { S.failures source.new.source + K.failures out.new ≡ S.failures source.old.source + K.failures out.old + failed_devices result }
{
    let executed = execute(alloc, rt, mode, source, input, out, settings, &Unwatched);
    let status = tell_execution(err, &executed, steps_of(mode));
    if let Some(bytes) = source.kept() {
        if let Ok(text) = case_of_execution(alloc, bytes, input, settings, &executed) {
            tell(err, text.as_slice());
        }
    }
    status
}

// The refusal of a source, in more words.
fn tell_source<E: Write>(alloc: Global, source: &[u8], err: &mut E) {
    if let Err(refusal) = compile(alloc, source) {
        if let Ok(text) = case_of_source(alloc, source, refusal.number(), refusal.pos()) {
            tell(err, text.as_slice());
        }
    }
}

/// `answer_check`, which tells more of a refusal, as `explain_execution` does.
pub fn explain_check<S: ByteSource, K: ByteSink, E: Write>(
    alloc: Global,
    source: &mut Kept<S>,
    out: &mut K,
    err: &mut E,
) -> Status
    requires source { S.failures source.old.source < 2 ^ 64 - 1 }
    requires out { K.failures out.old < 2 ^ 64 - 1 }
    ensures answer { CheckAnswer (S.rest source.old.source) (S.rest source.new.source) (K.written out.old) (K.written out.new) result }
    ensures devices { S.failures source.new.source + K.failures out.new ≡ S.failures source.old.source + K.failures out.old + failed_devices result }
{
    let status = answer_check(alloc, source, out, err);
    if status == Status::Refused {
        if let Some(bytes) = source.kept() {
            tell_source(alloc, bytes, err);
        }
    }
    status
}
