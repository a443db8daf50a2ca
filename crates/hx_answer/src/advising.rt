// What holds the marked loops of a source's program back.

ghost use Rattle.std.specs.Prelude.{◌≡◌, ◌+◌, ◌-◌, ◌^◌, ◌<◌, IfErr, IfOk, OnOk};
ghost use Rattle.hx_code.specs.Machine.{opening_machine};
ghost use Rattle.hx_advise.specs.Runs.{IsAdvice};
ghost use Rattle.hx_run.specs.Headline.{RefusesRun};
ghost use Rattle.hx_run.specs.Runs.{RefusesInput};
ghost use Rattle.hx_answer.specs.Answers.{failed_devices, AdviceAnswer, HasCode, IsAdvised};

use crate::advice::{Heading, put_advice, put_end};
use crate::answer::show_text;
use crate::status::{Status, tell_refusal};
use hx_advise::{Advice, Seen, advise};
use hx_code::code::Code;
use hx_device::{ByteSink, ByteSource};
use hx_exec::executable::Executable;
use hx_names::{lines_of, names_of};
use hx_run::{Refusal, executable_of, parse_source, read_source};
use hx_tree::tree::Program;
use std::alloc::{AllocError, Global};
use std::io::Write;

/// Code of a source, and what was seen of its loops.
#[derive(Drop)]
pub struct Advised {
    pub code: Executable,
    pub advice: Advice,
}

// The name of the function that a region stands in.
fn function_of(code: &Code, region: usize) -> &[u8] {
    let Some(region) = code.regions().get(region) else {
        return b"";
    };
    let Some(spot) = code.spots().get(region.start as usize) else {
        return b"";
    };
    match code.functions().get(spot.function as usize) {
        Some(function) => &function.name,
        None => b"",
    }
}

// What was seen of a loop.
fn put_loop(
    alloc: Global,
    text: &mut Vec<u8>,
    program: &Program,
    code: &Code,
    heading: &Heading<'_>,
    seen: &Seen,
) -> Result<(), AllocError> {
    match u32::try_from(heading.region) {
        Ok(region) => {
            let names = names_of(alloc, program, code, region)?;
            put_advice(text, heading, &names, seen)
        }
        Err(_) => Ok(()),
    }
}

// The advice as text. The source has been read before, so an `Err` is for want of memory.
fn text_of(
    alloc: Global,
    source: &[u8],
    code: &Code,
    advice: &Advice,
    steps: u64,
) -> Result<Vec<u8>, AllocError> {
    let Ok(program) = parse_source(alloc, source) else {
        return Err(AllocError);
    };
    let lines = lines_of(alloc, source, &program)?;
    let mut text = Vec::new(alloc);
    for (region, seen) in advice.loops.iter().enumerate() {
        let heading = Heading {
            region,
            function: function_of(code, region),
            line: lines.get(region).copied(),
        };
        put_loop(alloc, &mut text, &program, code, &heading, seen)?;
    }
    put_end(&mut text, advice.loops.len(), advice.has_ended, steps)?;
    Ok(text)
}

// What is seen of the loops of code.
fn seen_of(alloc: Global, code: &Executable, input: &[i32], steps: u64) -> Result<Advice, Refusal>
    ensures advice { IfOk result (IsAdvice code.now (opening_machine code.now input.now) steps) }
    ensures refused { IfErr result (RefusesInput code.now input.now) }
{
    match advise(alloc, code, input, steps) {
        Ok(advice) => Ok(advice),
        Err(e) => Err(Refusal::from(e)),
    }
}

/// Runs a source on an input on one thread, for at most so many words of its code, and sees of each of its marked loops what holds it back.
///
/// An `Ok` is what `hx_advise::advise` promises of code of the source. Refusals, in this order: those of `hx_run::compile`; 61. Those for
/// want of memory say nothing.
pub fn advised_of(
    alloc: Global,
    source: &[u8],
    input: &[i32],
    steps: u64,
) -> Result<Advised, Refusal>
    ensures advised { IfOk result (IsAdvised source.now input.now steps) }
    ensures refused { IfErr result (RefusesRun source.now input.now) }
{
    let code = executable_of(alloc, source)?;
    let advice = seen_of(alloc, &code, input, steps)?;
    Ok(Advised { code, advice })
}

/// What `advised_of` sees, as text.
///
/// An `Ok` means that the source has code. Refusals are those of `advised_of`.
pub fn advice_of(
    alloc: Global,
    source: &[u8],
    input: &[i32],
    steps: u64,
) -> Result<Vec<u8>, Refusal>
    ensures code { OnOk result (HasCode source.now) }
    ensures refused { IfErr result (RefusesRun source.now input.now) }
{
    let advised = advised_of(alloc, source, input, steps)?;
    match text_of(alloc, source, advised.code.code(), &advised.advice, steps) {
        Ok(text) => Ok(text),
        Err(_) => Err(Refusal::Memory),
    }
}

/// Tells of each marked loop of a source what holds it back in a run on an input.
///
/// Statuses are as in `answer_check`; `Refused` comes for what `advice_of` refuses.
pub fn answer_advise<S: ByteSource, K: ByteSink, E: Write>(
    alloc: Global,
    source: &mut S,
    input: &[i32],
    steps: u64,
    out: &mut K,
    err: &mut E,
) -> Status
    requires source { S.failures source.old < 2 ^ 64 - 1 }
    requires out { K.failures out.old < 2 ^ 64 - 1 }
    ensures answer { AdviceAnswer input.now (S.rest source.old) (S.rest source.new) (K.written out.old) (K.written out.new) result }
    ensures devices { S.failures source.new + K.failures out.new ≡ S.failures source.old + K.failures out.old + failed_devices result }
{
    let bytes = match read_source(alloc, source) {
        Ok(bytes) => bytes,
        Err(refusal) => return tell_refusal(err, &refusal),
    };
    match advice_of(alloc, bytes.as_slice(), input, steps) {
        Ok(text) => show_text(text.as_slice(), out, err),
        Err(refusal) => tell_refusal(err, &refusal),
    }
}
