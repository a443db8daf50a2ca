// The words of expressions.

ghost use Rattle.std.specs.Prelude.{◌≡◌, ◌+◌, ◌<◌, ◌^◌, ◌≤◌, OnOk, OkIff, IfOk, map, length, pos};
ghost use Rattle.hx_code.specs.declared.word.Word.TheVariants.{Const, Jump, JumpFalse, JumpTrue};
ghost use Rattle.hx_resolved.specs.Resolved.{exprs};
ghost use Rattle.hx_resolved.specs.Views.{resolved_expr};
ghost use Rattle.hx_lowering.specs.Draft.{with_lines};
ghost use Rattle.hx_lowering.specs.Lines as lines;
ghost use Rattle.hx_lowering.specs.Size as size;

use crate::draft::{Drafted, Version, array_of};
use crate::size::expr_size;
use crate::target::{behind, counted};
use hx_code::word::Word;
use hx_resolved::program::Expr;
use hx_tree::tree::BinaryOp;
use std::alloc::AllocError;

/// Puts the words of an expression, whose value comes on top of so many operands.
#[cycle(expressions)]
pub(crate) fn put_expr(
    draft: &mut Drafted,
    e: &Expr,
    version: &Version<'_>,
    height: u32,
) -> Result<(), AllocError>
    requires { height ≤ length draft.old.lines }
    ensures words { OnOk result (draft.new ≡ with_lines draft.old (lines.expr_lines (resolved_expr e.now) version.now height draft.old.lines)) }
    ensures longer { OnOk result (length draft.old.lines < length draft.new.lines) }
{
    match e {
        Expr::Number(n) => put_number(draft, *n, version, height),
        Expr::Private(k) => put_private(draft, *k, version, height),
        Expr::Word(a) => draft.put(version, height, Word::Glob(*a)),
        Expr::Element(words, at, index) => {
            put_part(
                draft,
                index,
                version,
                height,
                Word::Elem(array_of(*words), *at),
            )
        }
        Expr::Call(function, at, arguments) => {
            put_call(
                draft,
                arguments,
                version,
                height,
                Word::Call(*function, *at),
            )
        }
        Expr::Unary(op, inner) => put_part(draft, inner, version, height, Word::Unary(*op)),
        Expr::Binary(BinaryOp::Strict(op), at, left, right) => {
            put_expr(draft, left, version, height)?;
            let above = draft.above(height);
            put_part(draft, right, version, above, Word::Binary(*op, *at))
        }
        Expr::Binary(BinaryOp::And, _, left, right) => {
            let zero_at = behind_sides(draft.place(), left, right)?;
            put_part(draft, left, version, height, Word::JumpFalse(zero_at))?;
            put_last_of_and(draft, right, version, height, zero_at)
        }
        Expr::Binary(BinaryOp::Or, _, left, right) => {
            let one_at = behind_sides(draft.place(), left, right)?;
            put_part(draft, left, version, height, Word::JumpTrue(one_at))?;
            put_last_of_or(draft, right, version, height, one_at)
        }
        Expr::Conditional(test, chosen, other) => {
            let (other_at, exit) = places_of_other(draft.place(), test, chosen, other)?;
            put_part(draft, test, version, height, Word::JumpFalse(other_at))?;
            put_part(draft, chosen, version, height, Word::Jump(exit))?;
            put_expr(draft, other, version, height)
        }
    }
}

fn put_number(
    draft: &mut Drafted,
    n: u32,
    version: &Version<'_>,
    height: u32,
) -> Result<(), AllocError>
    ensures words { OnOk result (draft.new ≡ with_lines draft.old (lines.put version.now height (Const (pos n)) draft.old.lines)) }
    ensures longer { OnOk result (length draft.new.lines ≡ length draft.old.lines + 1) }
{
    draft.put(version, height, constant(n)?)
}

fn put_private(
    draft: &mut Drafted,
    private: u32,
    version: &Version<'_>,
    height: u32,
) -> Result<(), AllocError>
    ensures words { OnOk result (draft.new ≡ with_lines draft.old (lines.put version.now height (lines.get_private version.now private) draft.old.lines)) }
    ensures longer { OnOk result (length draft.new.lines ≡ length draft.old.lines + 1) }
{
    draft.put(version, height, version.get_private(private)?)
}

/// Puts the words of a part, and behind them a word that finds its value on top.
#[cycle(expressions)]
pub(crate) fn put_part(
    draft: &mut Drafted,
    part: &Expr,
    version: &Version<'_>,
    height: u32,
    word: Word,
) -> Result<(), AllocError>
    requires { height ≤ length draft.old.lines }
    ensures words { OnOk result (draft.new ≡ with_lines draft.old (lines.put version.now (height + 1) word (lines.expr_lines (resolved_expr part.now) version.now height draft.old.lines))) }
    ensures longer { OnOk result (length draft.old.lines < length draft.new.lines) }
{
    put_expr(draft, part, version, height)?;
    let above = draft.above(height);
    draft.put(version, above, word)
}

/// Puts the words of a call: those of its arguments, and behind them a word that finds all of their values on top.
#[cycle(expressions)]
pub(crate) fn put_call(
    draft: &mut Drafted,
    arguments: &[Expr],
    version: &Version<'_>,
    height: u32,
    word: Word,
) -> Result<(), AllocError>
    requires { height ≤ length draft.old.lines }
    ensures words { OnOk result (draft.new ≡ with_lines draft.old (lines.put version.now (height + length arguments.now) word (lines.exprs_lines (exprs (map resolved_expr arguments.now)) version.now height draft.old.lines))) }
    ensures longer { OnOk result (length draft.old.lines < length draft.new.lines) }
{
    let above = put_exprs(draft, arguments, version, height)?;
    draft.put(version, above, word)
}

// The right side of `&&`, which jumps to the 0 at the end where it is 0, and that end.
#[cycle(expressions)]
fn put_last_of_and(
    draft: &mut Drafted,
    right: &Expr,
    version: &Version<'_>,
    height: u32,
    zero_at: u32,
) -> Result<(), AllocError>
    requires over { zero_at + 1 < 2 ^ 32 }
    requires height { height ≤ length draft.old.lines }
    ensures words { let v = version.now in OnOk result (draft.new ≡ with_lines draft.old (lines.put v height (Const (pos 0)) (lines.put v (height + 1) (Jump (zero_at + 1)) (lines.put v height (Const (pos 1)) (lines.put v (height + 1) (JumpFalse zero_at) (lines.expr_lines (resolved_expr right.now) v height draft.old.lines)))))) }
    ensures longer { OnOk result (length draft.old.lines < length draft.new.lines) }
{
    put_part(draft, right, version, height, Word::JumpFalse(zero_at))?;
    put_outcome(draft, version, height, zero_at, 1, 0)
}

// The right side of `||`, which jumps to the 1 at the end where it isn't 0, and that end.
#[cycle(expressions)]
fn put_last_of_or(
    draft: &mut Drafted,
    right: &Expr,
    version: &Version<'_>,
    height: u32,
    one_at: u32,
) -> Result<(), AllocError>
    requires over { one_at + 1 < 2 ^ 32 }
    requires height { height ≤ length draft.old.lines }
    ensures words { let v = version.now in OnOk result (draft.new ≡ with_lines draft.old (lines.put v height (Const (pos 1)) (lines.put v (height + 1) (Jump (one_at + 1)) (lines.put v height (Const (pos 0)) (lines.put v (height + 1) (JumpTrue one_at) (lines.expr_lines (resolved_expr right.now) v height draft.old.lines)))))) }
    ensures longer { OnOk result (length draft.old.lines < length draft.new.lines) }
{
    put_part(draft, right, version, height, Word::JumpTrue(one_at))?;
    put_outcome(draft, version, height, one_at, 0, 1)
}

// The end of `&&` or `||`, whose last word stands at a place: the value where no side decides, a jump over that word, and the
// value where a side does.
fn put_outcome(
    draft: &mut Drafted,
    version: &Version<'_>,
    height: u32,
    last: u32,
    undecided: i32,
    decided: i32,
) -> Result<(), AllocError>
    requires over { last + 1 < 2 ^ 32 }
    requires height { height ≤ length draft.old.lines }
    ensures words { OnOk result (draft.new ≡ with_lines draft.old (lines.put version.now height (Const decided) (lines.put version.now (height + 1) (Jump (last + 1)) (lines.put version.now height (Const undecided) draft.old.lines)))) }
    ensures longer { OnOk result (length draft.old.lines < length draft.new.lines) }
{
    draft.put(version, height, Word::Const(undecided))?;
    let above = draft.above(height);
    draft.put(version, above, Word::Jump(last + 1))?;
    draft.put(version, height, Word::Const(decided))
}

// The place of the last word of `&&` or `||`, whose sides begin at a place. There is one where 32 bits have the place behind
// it as well, where the jump over it goes.
fn behind_sides(place: u32, left: &Expr, right: &Expr) -> Result<u32, AllocError>
    ensures { OkIff result (place + size.expr_size (resolved_expr left.now) + 1 + size.expr_size (resolved_expr right.now) + 4 < 2 ^ 32) (place + size.expr_size (resolved_expr left.now) + 1 + size.expr_size (resolved_expr right.now) + 3) }
{
    let Some(first) = expr_size(left) else {
        return Err(AllocError);
    };
    let Some(second) = expr_size(right) else {
        return Err(AllocError);
    };
    let behind = u64::from(place) + u64::from(first) + u64::from(second) + 4;
    if behind < u64::from(u32::MAX) {
        Ok(behind as u32)
    } else {
        Err(AllocError)
    }
}

// Where the last part of a conditional expression that begins at a place stands, and the place behind it.
fn places_of_other(
    place: u32,
    test: &Expr,
    chosen: &Expr,
    other: &Expr,
) -> Result<(u32, u32), AllocError>
    ensures { let at = place + size.expr_size (resolved_expr test.now) + 1 + size.expr_size (resolved_expr chosen.now) + 1 in IfOk result (λ places. (places.0 ≡ at) × (places.1 ≡ at + size.expr_size (resolved_expr other.now))) }
{
    let behind_test = behind(place, counted(expr_size(test))?, 1)?;
    let other_at = behind(behind_test, counted(expr_size(chosen))?, 1)?;
    let exit = behind(other_at, counted(expr_size(other))?, 0)?;
    Ok((other_at, exit))
}

// The word of a number: a constant of an accepted program fits 32 bits with their sign.
fn constant(n: u32) -> Result<Word, AllocError>
    ensures { OkIff result (n < 2 ^ 31) (Const (pos n)) }
{
    match i32::try_from(n) {
        Ok(value) => Ok(Word::Const(value)),
        Err(_) => Err(AllocError),
    }
}

/// Puts the words of arguments, and answers how many operands there are then.
#[cycle(expressions)]
pub(crate) fn put_exprs(
    draft: &mut Drafted,
    es: &[Expr],
    version: &Version<'_>,
    height: u32,
) -> Result<u32, AllocError>
    requires { height ≤ length draft.old.lines }
    ensures words { OnOk result (draft.new ≡ with_lines draft.old (lines.exprs_lines (exprs (map resolved_expr es.now)) version.now height draft.old.lines)) }
    ensures longer { OnOk result (length draft.old.lines ≤ length draft.new.lines) }
    ensures above { IfOk result (λ above. (above ≡ height + length es.now) × (above ≤ length draft.new.lines)) }
{
    let mut above = height;
    for e in es {
        put_expr(draft, e, version, above)?;
        above = draft.above(above);
    }
    Ok(above)
}
