// Whole programs.

ghost use Rattle.std.specs.Prelude.{◌≡◌, IfOk, IfErr, codes};
ghost use Rattle.hx_tree.specs.View.{program_of};
ghost use Rattle.hx_tree.specs.World.{look_up};
ghost use Rattle.hx_tree.specs.Accepted.{IsAccepted};
ghost use Rattle.hx_check.specs.Refusals.{Refuses};
ghost use Rattle.hx_resolved.specs.Views.{resolved_of};
ghost use Rattle.hx_check.specs.Views.{symbols_in};
ghost use Rattle.hx_resolved.specs.Resolve.{int_word, array_words};
ghost use Rattle.hx_check.specs.Reading.{IsReading, IsFault, check_program};

use crate::checked::Checked;
use crate::error::CheckError;
use crate::function::functions;
use crate::height::program_fits;
use crate::opening::opening;
use crate::table::Symbols;
use hx_resolved::program::{Program, Words};
use hx_resolved::symbol::Symbol;
use hx_tree::limits::HEIGHT_LIMIT;
use hx_tree::tree;
use std::alloc::Global;

/// The words of an array, where the name is one's.
fn array_words(symbols: &Symbols, text: &[u8]) -> Option<Words>
    ensures { result ≡ array_words (look_up (symbols_in symbols.now) text.now) }
{
    match symbols.look_up(text) {
        Some(Symbol::Array(base, length)) => Some(Words { base, length }),
        _ => None,
    }
}

/// The store word of an int, where the name is one's.
fn int_word(symbols: &Symbols, text: &[u8]) -> Option<u32>
    ensures { result ≡ int_word (look_up (symbols_in symbols.now) text.now) }
{
    match symbols.look_up(text) {
        Some(Symbol::Int(word)) => Some(word),
        _ => None,
    }
}

fn resolved(alloc: Global, program: &tree::Program) -> Result<Program, CheckError>
    ensures { IsReading (check_program (program_of program.now)) resolved_of result }
{
    if !program_fits(program, HEIGHT_LIMIT as u32) {
        return Err(CheckError::TooLarge);
    }
    let symbols = Symbols::of_items(alloc, &program.items)?;
    let main = symbols.main()?;
    let functions = functions(alloc, &program.items, &symbols)?;
    Ok(Program {
        functions,
        main,
        opening: opening(alloc, &program.items)?,
        input: array_words(&symbols, b"in"),
        input_length: int_word(&symbols, b"n_in"),
    })
}

/// Checks a tree and resolves its names.
///
/// `Ok` exactly where the tree is accepted, memory aside: its names are known, stand once in a scope
/// and are used as what they are, `break` and `continue` stand in loops, there is an `int main()`
/// without parameters, and no limit is passed. Otherwise the first fault is answered: those of the
/// declarations first, in source order (21, 26), then 25, then those of the bodies in source order,
/// each body's leftmost first, and of two at one place the lower number. 26 for a function comes
/// before the faults of its body. A tree higher than the limit is 26 without a place, before all else.
/// 27 is want of memory. Scopes are those of ISO/IEC 9899:2011, 6.2.1.
pub fn check(alloc: Global, program: tree::Program) -> Result<Checked, CheckError>
    ensures same { IfOk result (λ c. c ≡ program) }
    ensures accepted { IfOk result (λ c. IsAccepted (program_of program)) }
    ensures refused { IfErr result (λ e. Refuses e (IsAccepted (program_of program))) }
    ensures first { IfErr result (λ e. IsFault (check_program (program_of program)) e) }
{
    let resolved = resolved(alloc, &program)?;
    Ok(Checked {
        tree: program,
        program: resolved,
    })
}
