// Places that jumps go to, told before the words on the way are put.

ghost use Rattle.std.specs.Prelude.{◌≡◌, ◌+◌, ◌<◌, ◌^◌, IfErr, IfOk, OkIff};
ghost use Rattle.hx_resolved.specs.Views.{resolved_clauses, resolved_expr, resolved_stmt};
ghost use Rattle.hx_lowering.specs.Draft.{targets, do_targets, no_targets};
ghost use Rattle.hx_lowering.specs.Size as size;

use crate::size::{expr_size, stmt_size, test_size, turn_size};
use hx_resolved::program::{Clauses, Expr, Stmt};
use std::alloc::AllocError;
use std::marker::Model;

/// Where `break` and `continue` go.
#[derive(Drop)]
pub struct Targets {
    break_to: u32,
    continue_to: u32,
}

impl Model for Targets {
    ghost use Rattle.hx_lowering.specs.Draft as draft;

    ghost Value = { draft.Targets };

    ghost view = { λ to. record { break_to = to.break_to; continue_to = to.continue_to } };
}

impl Targets {
    /// Those of a function's body, which no loop is around.
    pub(crate) fn none() -> Targets
        ensures { result ≡ no_targets }
    {
        Targets {
            break_to: 0,
            continue_to: 0,
        }
    }

    /// Those of a turn that begins at a place, with a body of so many words.
    pub(crate) fn of_turn(clauses: &Clauses, body: u32, start: u32) -> Result<Targets, AllocError>
        ensures { IfOk result (λ to. to ≡ targets (resolved_clauses clauses.now) body start) }
    {
        let turn = counted(turn_size(clauses, body))?;
        let test = counted(test_size(&clauses.test))?;
        Ok(Targets {
            break_to: behind(start, turn, 1)?,
            continue_to: behind(start, test, body)?,
        })
    }

    /// Those of the body of a `do`, of so many words, which begins at a place.
    pub(crate) fn of_do(test: &Expr, body: u32, start: u32) -> Result<Targets, AllocError>
        ensures { IfOk result (λ to. to ≡ do_targets (resolved_expr test.now) body start) }
    {
        let words = counted(expr_size(test))?;
        let continue_to = behind(start, body, 0)?;
        Ok(Targets {
            break_to: behind(continue_to, words, 1)?,
            continue_to,
        })
    }

    /// Where `break` goes.
    pub(crate) fn break_to(&self) -> u32
        ensures { result ≡ self.now.break_to }
    {
        self.break_to
    }

    /// Where `continue` goes.
    pub(crate) fn continue_to(&self) -> u32
        ensures { result ≡ self.now.continue_to }
    {
        self.continue_to
    }
}

/// A count of words, where 32 bits have one.
pub(crate) fn counted(words: Option<u32>) -> Result<u32, AllocError>
    ensures counted { IfOk result (λ n. words ≡ Some n) }
    ensures uncounted { IfErr result (λ _. words ≡ None) }
{
    match words {
        Some(n) => Ok(n),
        None => Err(AllocError),
    }
}

/// The place behind two parts.
pub(crate) fn behind(place: u32, part: u32, other: u32) -> Result<u32, AllocError>
    ensures { OkIff result (place + part + other < 2 ^ 32) (place + part + other) }
{
    let behind = u64::from(place) + u64::from(part) + u64::from(other);
    if behind <= u64::from(u32::MAX) {
        Ok(behind as u32)
    } else {
        Err(AllocError)
    }
}

/// The place behind an `if`'s test with its jump, and the statement that it guards.
pub(crate) fn behind_if(place: u32, test: &Expr, inner: &Stmt) -> Result<u32, AllocError>
    ensures { OkIff result (place + size.expr_size (resolved_expr test.now) + 1 + size.stmt_size (resolved_stmt inner.now) < 2 ^ 32) (place + size.expr_size (resolved_expr test.now) + 1 + size.stmt_size (resolved_stmt inner.now)) }
{
    let first = counted(expr_size(test))?;
    let second = counted(stmt_size(inner))?;
    behind(behind(place, first, 1)?, second, 0)
}

/// Where the other statement of an `if` that begins at a place stands, and the place behind it.
pub(crate) fn places_of_else(
    place: u32,
    test: &Expr,
    inner: &Stmt,
    other: &Stmt,
) -> Result<(u32, u32), AllocError>
    ensures { let at = place + size.expr_size (resolved_expr test.now) + 1 + size.stmt_size (resolved_stmt inner.now) + 1 in IfOk result (λ places. (places.0 ≡ at) × (places.1 ≡ at + size.stmt_size (resolved_stmt other.now))) }
{
    let other_at = behind(behind_if(place, test, inner)?, 1, 0)?;
    let exit = behind(other_at, counted(stmt_size(other))?, 0)?;
    Ok((other_at, exit))
}

/// Where the version of a region whose first word stands at a place begins, where the plain loop does, and the place behind it.
pub(crate) fn places_of_region(
    place: u32,
    clauses: &Clauses,
    body: &Stmt,
) -> Result<(u32, u32, u32), AllocError>
    ensures { let turn = size.turn_size (resolved_clauses clauses.now) (size.stmt_size (resolved_stmt body.now)) in IfOk result (λ places. (places.0 ≡ place + 1) × (places.1 ≡ place + 1 + (turn + 2)) × (places.2 ≡ place + 1 + (turn + 2) + (turn + 1))) }
{
    let turn = counted(turn_size(clauses, counted(stmt_size(body))?))?;
    let start = behind(place, 1, 0)?;
    let plain = behind(start, turn, 2)?;
    let exit = behind(plain, turn, 1)?;
    Ok((start, plain, exit))
}
