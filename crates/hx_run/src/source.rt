// From the bytes of a source to its code.

ghost use Rattle.std.specs.Prelude.{IfOk, IfErr};
ghost use Rattle.hx_tree.specs.Grammar.{Spells};
ghost use Rattle.hx_tree.specs.View.{program_of};
ghost use Rattle.hx_run.specs.Headline.{IsCodeOf};
ghost use Rattle.hx_run.specs.Refusals.{RefusesSource};
ghost use Rattle.hx_run.specs.Sources.{IsSpelledAlone};

use crate::refusal::Refusal;
use hx_check::check::check;
use hx_code::code::Code;
use hx_exec::executable::Executable;
use hx_lex::tokens;
use hx_lower::{LowerError, lower};
use hx_parse::parse;
use hx_tree::tree::Program;
use std::alloc::Global;

/// The program that a source spells, whether it is accepted or not.
///
/// An `Ok` is the one tree that the source spells. Refusals: 1 to 5, 10 and 11 mean that it spells none; 6 and 12 that memory was
/// refused, which says nothing of the source.
pub fn parse_source(alloc: Global, source: &[u8]) -> Result<Program, Refusal>
    ensures spelled { IfOk result (λ p. IsSpelledAlone source.now (program_of p)) }
    ensures refused { IfErr result (RefusesSource source.now) }
{
    let tokens = tokens(alloc, source)?;
    Ok(parse(alloc, tokens.as_slice())?)
}

/// The code of a source.
///
/// An `Ok` is code that takes the inputs of the accepted program that the source spells, and ends, with its text, its globals,
/// its end and its whole turns, exactly where the program does. Refusals: 1 to 5, 10, 11 and 20 to 26 mean that the source is
/// that of no accepted program; 6, 12, 27 and 30 that memory was refused, which says nothing of the source.
pub fn compile(alloc: Global, source: &[u8]) -> Result<Code, Refusal>
    ensures code { IfOk result (IsCodeOf source.now) }
    ensures refused { IfErr result (RefusesSource source.now) }
{
    let program = parse_source(alloc, source)?;
    let checked = check(alloc, program)?;
    Ok(lower(alloc, &checked)?)
}

/// The code of a source with its table of instructions, by which it is run.
///
/// An `Ok` is as in `compile`, and so are the refusals; 30 also means that memory for the table was refused.
pub fn executable_of(alloc: Global, source: &[u8]) -> Result<Executable, Refusal>
    ensures code { IfOk result (IsCodeOf source.now) }
    ensures refused { IfErr result (RefusesSource source.now) }
{
    let code = compile(alloc, source)?;
    match Executable::new(alloc, code) {
        Ok(executable) => Ok(executable),
        Err(_) => Err(Refusal::Lower(LowerError::Memory)),
    }
}
