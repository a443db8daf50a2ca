// Expressions and assignments, checked and resolved.

ghost use Rattle.std.specs.Prelude.{◌≡◌, [], map, option_map};
ghost use Rattle.hx_tree.specs.Tree.{exprs};
ghost use Rattle.hx_tree.specs.View.{expr_of, place_of, assignment_of};
ghost use Rattle.hx_resolved.specs.Views.{resolved_expr, resolved_place, resolved_assignment, resolved_exprs_in};
ghost use Rattle.hx_check.specs.Views.{symbols_in, scopes_of};
ghost use Rattle.hx_check.specs.Reading.{IsReading, check_expr, check_exprs, check_place, check_assignment, check_or_zero, check_test, check_step};

use crate::error::CheckError;
use crate::locals::Scopes;
use crate::make::call;
use crate::names::{array_named, function_named, int_named};
use crate::table::Symbols;
use hx_resolved::program::{Assignment, Expr, Place};
use hx_tree::limits::CONSTANT_LIMIT;
use hx_tree::token::Pos;
use hx_tree::tree;
use hx_tree::tree::Operator;
use std::alloc::Global;

/// The place of an operator that has no place: a sum or a difference by 1 has no fault.
const NO_PLACE: Pos = Pos { line: 0, col: 0 };

/// An expression whose value is wanted.
#[cycle(expressions)]
pub(crate) fn expression(
    alloc: Global,
    e: &tree::Expr,
    symbols: &Symbols,
    scopes: &Scopes,
) -> Result<Expr, CheckError>
    ensures { IsReading (check_expr (expr_of e.now) (symbols_in symbols.now) (scopes_of scopes.now)) resolved_expr result }
{
    match e {
        tree::Expr::Number(number) => {
            if *number > CONSTANT_LIMIT {
                return Err(CheckError::TooLarge);
            }
            Ok(Expr::Number(*number))
        }
        tree::Expr::Variable(x) => Ok(int_named(symbols, scopes, x)?.read()),
        tree::Expr::Element(x, index) => {
            let words = array_named(symbols, scopes, x)?;
            let index = boxed_expression(alloc, index, symbols, scopes)?;
            Ok(Expr::Element(words, x.pos, index))
        }
        tree::Expr::Call(f, args) => {
            let number = function_named(symbols, scopes, true, f, args.len())?;
            let args = arguments(alloc, args, symbols, scopes)?;
            Ok(call(number, f.pos, args))
        }
        tree::Expr::Paren(inner) => expression(alloc, inner, symbols, scopes),
        tree::Expr::Unary(op, operand) => {
            let operand = boxed_expression(alloc, operand, symbols, scopes)?;
            Ok(Expr::Unary(*op, operand))
        }
        tree::Expr::Binary(op, pos, left, right) => {
            let left = boxed_expression(alloc, left, symbols, scopes)?;
            let right = boxed_expression(alloc, right, symbols, scopes)?;
            Ok(Expr::Binary(*op, *pos, left, right))
        }
        tree::Expr::Conditional(test, chosen, other) => {
            let test = boxed_expression(alloc, test, symbols, scopes)?;
            let chosen = boxed_expression(alloc, chosen, symbols, scopes)?;
            let other = boxed_expression(alloc, other, symbols, scopes)?;
            Ok(Expr::Conditional(test, chosen, other))
        }
    }
}

/// An expression that stands in another.
#[cycle(expressions)]
fn boxed_expression(
    alloc: Global,
    e: &tree::Expr,
    symbols: &Symbols,
    scopes: &Scopes,
) -> Result<Box<Expr>, CheckError>
    ensures { IsReading (check_expr (expr_of e.now) (symbols_in symbols.now) (scopes_of scopes.now)) (λ b. resolved_expr b.value) result }
{
    let e = expression(alloc, e, symbols, scopes)?;
    Ok(Box::new(alloc, e)?)
}

/// The arguments of a call, from left to right.
#[cycle(expressions)]
pub(crate) fn arguments(
    alloc: Global,
    es: &[tree::Expr],
    symbols: &Symbols,
    scopes: &Scopes,
) -> Result<Vec<Expr>, CheckError>
    ensures { IsReading (check_exprs (exprs (map expr_of es.now)) (symbols_in symbols.now) (scopes_of scopes.now) []) resolved_exprs_in result }
{
    let mut all = Vec::new(alloc);
    for e in es {
        all.push(expression(alloc, e, symbols, scopes)?)?;
    }
    Ok(all)
}

fn place(
    alloc: Global,
    p: &tree::Place,
    symbols: &Symbols,
    scopes: &Scopes,
) -> Result<Place, CheckError>
    ensures { IsReading (check_place (place_of p.now) (symbols_in symbols.now) (scopes_of scopes.now)) resolved_place result }
{
    match p {
        tree::Place::Variable(x) => Ok(int_named(symbols, scopes, x)?.write()),
        tree::Place::Element(x, index) => {
            let words = array_named(symbols, scopes, x)?;
            let index = expression(alloc, index, symbols, scopes)?;
            Ok(Place::Element(words, x.pos, index))
        }
    }
}

/// An assignment; `p++` and `p--` are updates by 1.
pub(crate) fn assignment(
    alloc: Global,
    a: &tree::Assignment,
    symbols: &Symbols,
    scopes: &Scopes,
) -> Result<Assignment, CheckError>
    ensures { IsReading (check_assignment (assignment_of a.now) (symbols_in symbols.now) (scopes_of scopes.now)) resolved_assignment result }
{
    match a {
        tree::Assignment::Set(p, right) => {
            let to = place(alloc, p, symbols, scopes)?;
            let right = expression(alloc, right, symbols, scopes)?;
            Ok(Assignment::Set(to, right))
        }
        tree::Assignment::Update(p, op, pos, right) => {
            let to = place(alloc, p, symbols, scopes)?;
            let right = expression(alloc, right, symbols, scopes)?;
            Ok(Assignment::Update(to, *op, *pos, right))
        }
        tree::Assignment::Increment(p) => {
            let to = place(alloc, p, symbols, scopes)?;
            Ok(Assignment::Update(to, Operator::Add, NO_PLACE, Expr::Number(1)))
        }
        tree::Assignment::Decrement(p) => {
            let to = place(alloc, p, symbols, scopes)?;
            Ok(Assignment::Update(to, Operator::Sub, NO_PLACE, Expr::Number(1)))
        }
    }
}

/// A value that may be absent: then it is 0.
pub(crate) fn value_or_zero(
    alloc: Global,
    e: &Option<tree::Expr>,
    symbols: &Symbols,
    scopes: &Scopes,
) -> Result<Expr, CheckError>
    ensures { IsReading (check_or_zero (option_map expr_of e.now) (symbols_in symbols.now) (scopes_of scopes.now)) resolved_expr result }
{
    match e {
        Some(e) => expression(alloc, e, symbols, scopes),
        None => Ok(Expr::Number(0)),
    }
}

/// The test of a loop, which may be absent.
pub(crate) fn test(
    alloc: Global,
    e: &Option<tree::Expr>,
    symbols: &Symbols,
    scopes: &Scopes,
) -> Result<Option<Expr>, CheckError>
    ensures { IsReading (check_test (option_map expr_of e.now) (symbols_in symbols.now) (scopes_of scopes.now)) (λ t. option_map resolved_expr t) result }
{
    match e {
        Some(e) => Ok(Some(expression(alloc, e, symbols, scopes)?)),
        None => Ok(None),
    }
}

/// The step of a loop, which may be absent.
pub(crate) fn step(
    alloc: Global,
    a: &Option<tree::Assignment>,
    symbols: &Symbols,
    scopes: &Scopes,
) -> Result<Option<Assignment>, CheckError>
    ensures { IsReading (check_step (option_map assignment_of a.now) (symbols_in symbols.now) (scopes_of scopes.now)) (λ s. option_map resolved_assignment s) result }
{
    match a {
        Some(a) => Ok(Some(assignment(alloc, a, symbols, scopes)?)),
        None => Ok(None),
    }
}
