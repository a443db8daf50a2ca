// Functions, checked and resolved.

ghost use Rattle.std.specs.Prelude.{◌≡◌, ◌≤◌, ◌+◌, [], ◌∷◌, map, length, IfOk};
ghost use Rattle.hx_tree.specs.declared.limits.TheConstants.{PRIVATE_LIMIT};
ghost use Rattle.hx_tree.specs.View.{name_of, func_of, item_of};
ghost use Rattle.hx_tree.specs.Meaning.{texts_of};
ghost use Rattle.hx_tree.specs.Accepted.{is_among};
ghost use Rattle.hx_resolved.specs.Symbols.{numbered};
ghost use Rattle.hx_resolved.specs.Views.{resolved_function, resolved_functions_in};
ghost use Rattle.hx_check.specs.Views.{symbols_in, known_of, scope_of};
ghost use Rattle.hx_check.specs.Reading.{IsReading, check_distinct, with_parameters, check_function, check_functions};

use crate::declare::param_names;
use crate::error::CheckError;
use crate::here::Here;
use crate::locals::{Locals, Scope, Scopes};
use crate::need::function_need;
use crate::privates::private_words;
use crate::statement::statements;
use crate::table::Symbols;
use hx_resolved::program::Function;
use hx_tree::tree::{Func, Item, Name};
use std::alloc::{AllocError, Global};

fn is_among(text: &[u8], names: &[Name]) -> bool
    ensures { result ≡ is_among text.now (texts_of (map name_of names.now)) }
{
    for x in names {
        if x.text.as_slice() == text {
            return true;
        }
    }
    false
}

/// Refuses a parameter that stands twice.
fn check_distinct(names: &[Name]) -> Result<(), CheckError>
    ensures { result ≡ check_distinct (map name_of names.now) [] }
{
    for (i, x) in names.iter().enumerate() {
        if is_among(x.text.as_slice(), &names[..i]) {
            return Err(CheckError::DoubledName(x.pos));
        }
    }
    Ok(())
}

/// The scope of these parameters, whose private words are counted from `first`.
fn numbered(alloc: Global, names: &[Name], first: u32) -> Result<Scope, AllocError>
    requires { first + length names.now ≤ PRIVATE_LIMIT }
    ensures { IfOk result (λ s. scope_of s ≡ numbered (map name_of names.now) first) }
{
    match names {
        [] => Ok(Scope::Empty),
        [x, rest @ ..] => {
            let outer = numbered(alloc, rest, first + 1)?;
            let text = Vec::from_slice(alloc, x.text.as_slice())?;
            Ok(Scope::Local(text, first, Box::new(alloc, outer)?))
        }
    }
}

/// What is known where a function begins.
fn with_parameters(alloc: Global, names: &[Name]) -> Result<Locals, AllocError>
    requires { length names.now ≤ PRIVATE_LIMIT }
    ensures { IfOk result (λ l. known_of l ≡ with_parameters (map name_of names.now)) }
{
    let scope = numbered(alloc, names, 0)?;
    Ok(Locals {
        scopes: Scopes::Inside(scope, Box::new(alloc, Scopes::Outside)?),
        next: names.len() as u32,
    })
}

/// A function: its limits, then its parameters, then its body.
fn function(alloc: Global, f: &Func, symbols: &Symbols) -> Result<Function, CheckError>
    ensures { IsReading (check_function (func_of f.now) (symbols_in symbols.now)) resolved_function result }
{
    let privates = private_words(f)?;
    let need = function_need(f)?;
    let names = param_names(&f.params);
    check_distinct(names)?;
    let here = Here {
        returns: f.returns,
        privates,
        in_loop: false,
        is_marked: false,
    };
    let mut locals = with_parameters(alloc, names)?;
    let body = statements(alloc, &f.body, symbols, here, &mut locals)?;
    Ok(Function {
        name: Vec::from_slice(alloc, f.name.text.as_slice())?,
        parameters: names.len() as u32,
        privates,
        need,
        body,
    })
}

/// The functions of a program, in source order.
pub(crate) fn functions(
    alloc: Global,
    items: &[Item],
    symbols: &Symbols,
) -> Result<Vec<Function>, CheckError>
    ensures { IsReading (check_functions (map item_of items.now) (symbols_in symbols.now) []) resolved_functions_in result }
{
    let mut all = Vec::new(alloc);
    for item in items {
        if let Item::Function(f) = item {
            all.push(function(alloc, f, symbols)?)?;
        }
    }
    Ok(all)
}
