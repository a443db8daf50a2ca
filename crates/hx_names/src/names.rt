// The names of a region's words.

ghost use Rattle.std.specs.Option.{option_map_or};
ghost use Rattle.std.specs.Prelude.{◌≡◌, ◌+◌, [], ◌++◌, IfOk, OnOk, map, filter_map, sum_by, option_map, option_copied, option_to_list, slice_get};
ghost use Rattle.hx_tree.specs.Accepted.{shape_words};
ghost use Rattle.hx_tree.specs.Meaning.{functions_of, globals_of};
ghost use Rattle.hx_tree.specs.View.{shape_of, global_of, func_of, program_of};
ghost use Rattle.hx_names.specs.Names.{named, place, is_array, global_name, global_names, private_names, carried_name, carried_names, names};

use crate::locals::private_names;
use hx_code::code::Code;
use hx_code::table::{Carried, Region};
use hx_trace::Called;
use hx_tree::tree::{Func, GlobalDecl, Item, Program, Shape};
use std::alloc::{AllocError, Global};

/// The names of the words that a region's turns share: those of the globals of its program, in source order, and then those of the
/// locals that it carries. They are of use where the code is that of the program; of a region that it hasn't there are the globals
/// alone. An `Err` means that an allocation was refused.
pub fn names_of(
    alloc: Global,
    program: &Program,
    code: &Code,
    region: u32,
) -> Result<Vec<Called>, AllocError>
    ensures { IfOk result (λ v. map named v.items ≡ names (program_of program.now) code.now region) }
{
    let mut names = global_names(alloc, program)?;
    put_region(alloc, &mut names, program, code, region)?;
    Ok(names)
}

fn global_names(alloc: Global, program: &Program) -> Result<Vec<Called>, AllocError>
    ensures { IfOk result (λ v. map named v.items ≡ global_names (globals_of (program_of program.now)) 0) }
{
    let mut names = Vec::new(alloc);
    let mut base = 0u32;
    for item in &program.items {
        if let Item::Globals(globals) = item {
            base = put_globals(alloc, &mut names, globals, base)?;
        }
    }
    Ok(names)
}

// The names of some globals, of which the first has the word `base`, and the word behind them.
fn put_globals(
    alloc: Global,
    names: &mut Vec<Called>,
    globals: &[GlobalDecl],
    base: u32,
) -> Result<u32, AllocError>
    ensures names { OnOk result (map named names.new.items ≡ map named names.old.items ++ global_names (map global_of globals.now) base) }
    ensures base { IfOk result (λ word. word ≡ place (base + sum_by (λ g. shape_words g.shape) (map global_of globals.now))) }
{
    let mut word = base;
    for global in globals {
        names.push(called(alloc, global, word)?)?;
        word = word.saturating_add(words_of(&global.shape));
    }
    Ok(word)
}

fn called(alloc: Global, global: &GlobalDecl, base: u32) -> Result<Called, AllocError>
    ensures { IfOk result (λ c. named c ≡ global_name (global_of global.now) base) }
{
    Ok(Called {
        base,
        length: words_of(&global.shape),
        is_array: is_array(&global.shape),
        name: Vec::from_slice(alloc, &global.name.text)?,
    })
}

fn words_of(shape: &Shape) -> u32
    ensures { result ≡ shape_words (shape_of shape.now) }
{
    match shape {
        Shape::Int(_) => 1,
        Shape::Array(length, _) => *length,
    }
}

fn is_array(shape: &Shape) -> bool
    ensures { result ≡ is_array (shape_of shape.now) }
{
    match shape {
        Shape::Int(_) => false,
        Shape::Array(_, _) => true,
    }
}

// The names of the locals that the region of this number carries, where there is one.
fn put_region(
    alloc: Global,
    names: &mut Vec<Called>,
    program: &Program,
    code: &Code,
    region: u32,
) -> Result<(), AllocError>
    ensures { OnOk result (map named names.new.items ≡ map named names.old.items ++ option_map_or (carried_names (program_of program.now) code.now) (slice_get code.now.regions region) []) }
{
    match code.regions().get(region as usize) {
        Some(region) => put_locals(alloc, names, program, code, region),
        None => Ok(()),
    }
}

// The names of the locals that a region carries.
fn put_locals(
    alloc: Global,
    names: &mut Vec<Called>,
    program: &Program,
    code: &Code,
    region: &Region,
) -> Result<(), AllocError>
    ensures { OnOk result (map named names.new.items ≡ map named names.old.items ++ carried_names (program_of program.now) code.now region.now) }
{
    let Some(spot) = code.spots().get(region.start as usize) else {
        return Ok(());
    };
    match function_at(program, spot.function) {
        Some(function) => put_carried(alloc, names, function, &region.carried, code.globals()),
        None => Ok(()),
    }
}

// The function of this number, counted from 0 in source order.
fn function_at(program: &Program, number: u32) -> Option<&Func>
    ensures { option_map func_of (option_copied result) ≡ slice_get (functions_of (program_of program.now)) number }
{
    let mut left = number;
    for item in &program.items {
        if let Item::Function(function) = item {
            if left == 0 {
                return Some(function);
            }
            left -= 1;
        }
    }
    None
}

// The names of the locals of a function that are carried in the cells behind so many words.
fn put_carried(
    alloc: Global,
    names: &mut Vec<Called>,
    function: &Func,
    carried: &[Carried],
    globals: u32,
) -> Result<(), AllocError>
    ensures { OnOk result (map named names.new.items ≡ map named names.old.items ++ filter_map (carried_name (private_names (func_of function.now)) globals) carried.now) }
{
    let privates = private_names(alloc, function)?;
    for one in carried {
        put_one(alloc, names, &privates, *one, globals)?;
    }
    Ok(())
}

fn put_one(
    alloc: Global,
    names: &mut Vec<Called>,
    privates: &[&[u8]],
    one: Carried,
    globals: u32,
) -> Result<(), AllocError>
    ensures { OnOk result (map named names.new.items ≡ map named names.old.items ++ option_to_list (carried_name (map (λ r. r.now) privates.now) globals one)) }
{
    if let Some(name) = privates.get(one.private as usize) {
        names.push(Called {
            base: globals.saturating_add(one.cell),
            length: 1,
            is_array: false,
            name: Vec::from_slice(alloc, name)?,
        })?;
    }
    Ok(())
}
