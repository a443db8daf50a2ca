// The words of assignments, and of the clauses of loops.

ghost use Rattle.std.specs.Prelude.{◌≡◌, ◌+◌, ◌≤◌, OnOk, length, map, option_map};
ghost use Rattle.hx_resolved.specs.Views.{resolved_assignment, resolved_expr, resolved_simple};
ghost use Rattle.hx_lowering.specs.Draft.{with_lines};
ghost use Rattle.hx_lowering.specs.Lines as lines;

use crate::draft::{Drafted, Version, array_of};
use crate::expression::{put_expr, put_part};
use hx_code::word::Word;
use hx_resolved::program::{Assignment, Expr, Place, Simple};
use std::alloc::AllocError;

/// Puts the words of an assignment.
pub(crate) fn put_assignment(
    draft: &mut Drafted,
    a: &Assignment,
    version: &Version<'_>,
) -> Result<(), AllocError>
    ensures { OnOk result (draft.new ≡ with_lines draft.old (lines.assignment_lines (resolved_assignment a.now) version.now draft.old.lines)) }
{
    match a {
        Assignment::Set(Place::Private(k), e) => put_set_private(draft, *k, e, version),
        Assignment::Set(Place::Word(address), e) => {
            put_part(draft, e, version, 0, Word::SetGlob(*address))
        }
        Assignment::Set(Place::Element(words, at, index), e) => {
            put_expr(draft, index, version, 0)?;
            put_part(draft, e, version, 1, Word::SetElem(array_of(*words), *at))
        }
        Assignment::Update(Place::Private(k), op, at, e) => {
            put_update_private(draft, *k, e, version, Word::Binary(*op, *at))
        }
        Assignment::Update(Place::Word(address), op, at, e) => {
            draft.put(version, 0, Word::Glob(*address))?;
            put_change(
                draft,
                e,
                version,
                1,
                Word::Binary(*op, *at),
                Word::SetGlob(*address),
            )
        }
        Assignment::Update(Place::Element(words, place, index), op, at, e) => {
            let array = array_of(*words);
            put_part(draft, index, version, 0, Word::Dup)?;
            draft.put(version, 2, Word::Elem(array, *place))?;
            put_change(
                draft,
                e,
                version,
                2,
                Word::Binary(*op, *at),
                Word::SetElem(array, *place),
            )
        }
    }
}

// The words of an expression, and behind them the word that writes its value to a private word.
fn put_set_private(
    draft: &mut Drafted,
    private: u32,
    e: &Expr,
    version: &Version<'_>,
) -> Result<(), AllocError>
    ensures { OnOk result (draft.new ≡ with_lines draft.old (lines.put version.now 1 (lines.set_private version.now private) (lines.expr_lines (resolved_expr e.now) version.now 0 draft.old.lines))) }
{
    put_part(draft, e, version, 0, version.set_private(private)?)
}

// The words of an update of a private word by this operator.
fn put_update_private(
    draft: &mut Drafted,
    private: u32,
    e: &Expr,
    version: &Version<'_>,
    change: Word,
) -> Result<(), AllocError>
    ensures { OnOk result (draft.new ≡ with_lines draft.old (lines.put version.now 1 (lines.set_private version.now private) (lines.put version.now 2 change (lines.expr_lines (resolved_expr e.now) version.now 1 (lines.put version.now 0 (lines.get_private version.now private) draft.old.lines))))) }
{
    draft.put(version, 0, version.get_private(private)?)?;
    put_change(draft, e, version, 1, change, version.set_private(private)?)
}

// What is left of an update where the value to change is on top: the words of the other value, the operator, and the word that
// writes.
fn put_change(
    draft: &mut Drafted,
    e: &Expr,
    version: &Version<'_>,
    height: u32,
    change: Word,
    write: Word,
) -> Result<(), AllocError>
    requires { height ≤ length draft.old.lines }
    ensures { OnOk result (draft.new ≡ with_lines draft.old (lines.put version.now height write (lines.put version.now (height + 1) change (lines.expr_lines (resolved_expr e.now) version.now height draft.old.lines)))) }
{
    put_part(draft, e, version, height, change)?;
    draft.put(version, height, write)
}

/// Puts the words of a declared local or an assignment.
pub(crate) fn put_simple(
    draft: &mut Drafted,
    s: &Simple,
    version: &Version<'_>,
) -> Result<(), AllocError>
    ensures { OnOk result (draft.new ≡ with_lines draft.old (lines.simple_lines (resolved_simple s.now) version.now draft.old.lines)) }
{
    match s {
        Simple::Declare(k, e) => put_set_private(draft, *k, e, version),
        Simple::Assign(a) => put_assignment(draft, a, version),
    }
}

/// Puts the words of what stands before a loop.
pub(crate) fn put_simples(
    draft: &mut Drafted,
    ss: &[Simple],
    version: &Version<'_>,
) -> Result<(), AllocError>
    ensures { OnOk result (draft.new ≡ with_lines draft.old (lines.simples_lines (map resolved_simple ss.now) version.now draft.old.lines)) }
{
    for s in ss {
        put_simple(draft, s, version)?;
    }
    Ok(())
}

/// Puts the words of a test, which jumps to a place where it fails; an absent test has none.
pub(crate) fn put_test(
    draft: &mut Drafted,
    test: &Option<Expr>,
    exit: u32,
    version: &Version<'_>,
) -> Result<(), AllocError>
    ensures { OnOk result (draft.new ≡ with_lines draft.old (lines.test_lines (option_map resolved_expr test.now) exit version.now draft.old.lines)) }
{
    match test {
        None => Ok(()),
        Some(e) => put_part(draft, e, version, 0, Word::JumpFalse(exit)),
    }
}

/// Puts the words of a step; an absent one has none.
pub(crate) fn put_step(
    draft: &mut Drafted,
    step: &Option<Assignment>,
    version: &Version<'_>,
) -> Result<(), AllocError>
    ensures { OnOk result (draft.new ≡ with_lines draft.old (lines.step_lines (option_map resolved_assignment step.now) version.now draft.old.lines)) }
{
    match step {
        None => Ok(()),
        Some(a) => put_assignment(draft, a, version),
    }
}
