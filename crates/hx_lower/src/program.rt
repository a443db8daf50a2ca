// The words of functions and of whole programs, with what is told of them.

ghost use Rattle.std.specs.Prelude.{◌≡◌, ◌<◌, ◌^◌, IfOk, OkIff, OnOk, length, map, option_map};
ghost use Rattle.hx_resolved.specs.Views.{resolved_function, resolved_of};
ghost use Rattle.hx_code.specs.Validation.{code_of as code_with};
ghost use Rattle.hx_lowering.specs.Draft.{function_draft, functions_draft, draft_of, code_of};
ghost use Rattle.hx_lowering.specs.Lines as lines;

use crate::draft::{Drafted, Version, array_of};
use crate::statement::put_stmts;
use crate::target::Targets;
use hx_code::table::{Func, Tables};
use hx_code::word::{Array, Word};
use hx_resolved::program::{Function, Program, Words};
use std::alloc::{AllocError, Global};

/// Puts the words of a function, whose end returns 0, and the function behind the others.
pub(crate) fn put_function(
    alloc: Global,
    draft: &mut Drafted,
    f: &Function,
    globals: u32,
) -> Result<(), AllocError>
    ensures { OnOk result (draft.new ≡ function_draft (resolved_function f.now) globals draft.old) }
{
    let entry = draft.place();
    let version = Version::plain(draft.function_count()?, globals);
    put_stmts(alloc, draft, &f.body, &version, &Targets::none())?;
    draft.put(&version, 0, Word::Const(0))?;
    draft.put(&version, 1, Word::Ret)?;
    draft.put_function(Func {
        name: f.name.clone()?,
        entry,
        parameters: f.parameters,
        privates: f.privates,
    })
}

/// Puts the words of functions, one behind another.
pub(crate) fn put_functions(
    alloc: Global,
    draft: &mut Drafted,
    fs: &[Function],
    globals: u32,
) -> Result<(), AllocError>
    ensures { OnOk result (draft.new ≡ functions_draft (map resolved_function fs.now) globals draft.old) }
{
    for f in fs {
        put_function(alloc, draft, f, globals)?;
    }
    Ok(())
}

// The words of the array that the input fills, where there is one.
fn input_of(input: Option<Words>) -> Option<Array>
    ensures { result ≡ option_map lines.array_of input }
{
    match input {
        None => None,
        Some(words) => Some(array_of(words)),
    }
}

// How many words the globals have.
fn global_count(opening: &Vec<i32>) -> Result<u32, AllocError>
    ensures { OkIff result (length opening.now.items < 2 ^ 32) (length opening.now.items) }
{
    match u32::try_from(opening.len()) {
        Ok(globals) => Ok(globals),
        Err(_) => Err(AllocError),
    }
}

fn copied(opening: &Vec<i32>) -> Result<Vec<i32>, AllocError>
    ensures { IfOk result (λ copy. copy.items ≡ opening.now.items) }
{
    opening.clone()
}

// All that is put for a program with so many words of globals.
fn drafted(alloc: Global, program: &Program, globals: u32) -> Result<Drafted, AllocError>
    requires { globals ≡ length program.now.opening.items }
    ensures { IfOk result (λ draft. draft ≡ draft_of (resolved_of program.now)) }
{
    let mut draft = Drafted::new(alloc);
    put_functions(alloc, &mut draft, &program.functions, globals)?;
    Ok(draft)
}

/// The words of a program, with what is told of them.
///
/// Fails for want of memory, or where 32 bits don't number the words.
pub(crate) fn words_and_tables(
    alloc: Global,
    program: &Program,
) -> Result<(Vec<Word>, Tables), AllocError>
    ensures code { IfOk result (λ both. code_with both.0.items both.1 ≡ code_of (resolved_of program.now)) }
    ensures few { IfOk result (λ both. length both.0.items < 2 ^ 32) }
{
    let globals = global_count(&program.opening)?;
    let draft = drafted(alloc, program, globals)?;
    let words = draft.words(alloc)?;
    let spots = draft.spots(alloc)?;
    let (functions, regions) = draft.into_tables();
    let opening = copied(&program.opening)?;
    let tables = Tables {
        spots,
        functions,
        regions,
        globals,
        opening,
        main: program.main,
        input: input_of(program.input),
        input_length: program.input_length,
    };
    Ok((words, tables))
}
