// How many words each part of a program has; none where 32 bits don't count them.

ghost use Rattle.std.specs.Prelude.{◌≡◌, ◌+◌, ◌<◌, ◌^◌, SomeIff, map, option_map};
ghost use Rattle.hx_resolved.specs.Resolved.{exprs, stmts};
ghost use Rattle.hx_resolved.specs.Views.{resolved_assignment, resolved_clauses, resolved_expr, resolved_kind, resolved_place, resolved_simple, resolved_stmt};
ghost use Rattle.hx_lowering.specs.Size as size;
ghost use Rattle.hx_lower.specs.Words.{binary_words};

use hx_resolved::program::{Assignment, Clauses, Expr, LoopKind, Place, Simple, Stmt};
use hx_tree::tree::BinaryOp;

fn sum(a: u32, b: u32, more: u32) -> Option<u32>
    ensures { SomeIff result (a + b + more < 2 ^ 32) (a + b + more) }
{
    a.checked_add(b)?.checked_add(more)
}

/// The words of an expression.
#[cycle(expressions)]
pub(crate) fn expr_size(e: &Expr) -> Option<u32>
    ensures { SomeIff result (size.expr_size (resolved_expr e.now) < 2 ^ 32) (size.expr_size (resolved_expr e.now)) }
{
    match e {
        Expr::Number(_) => Some(1),
        Expr::Private(_) => Some(1),
        Expr::Word(_) => Some(1),
        Expr::Element(_, _, index) => part_size(index, 1),
        Expr::Call(_, _, arguments) => call_size(arguments, 1),
        Expr::Unary(_, inner) => part_size(inner, 1),
        Expr::Binary(op, _, left, right) => part_size(left, part_size(right, binary_size(*op))?),
        Expr::Conditional(test, chosen, other) => {
            part_size(test, part_size(chosen, part_size(other, 2)?)?)
        }
    }
}

/// The words of a part, and so many more.
#[cycle(expressions)]
pub(crate) fn part_size(part: &Expr, more: u32) -> Option<u32>
    ensures { SomeIff result (size.expr_size (resolved_expr part.now) + more < 2 ^ 32) (size.expr_size (resolved_expr part.now) + more) }
{
    expr_size(part)?.checked_add(more)
}

/// The words of arguments, and so many more.
#[cycle(expressions)]
pub(crate) fn call_size(arguments: &[Expr], more: u32) -> Option<u32>
    ensures { let words = size.exprs_size (exprs (map resolved_expr arguments.now)) in SomeIff result (words + more < 2 ^ 32) (words + more) }
{
    exprs_size(arguments)?.checked_add(more)
}

// The words of an operator beside its operands: jumps and constants, where the left side may decide.
fn binary_size(op: BinaryOp) -> u32
    ensures { result ≡ binary_words op }
{
    match op {
        BinaryOp::Strict(_) => 1,
        BinaryOp::And => 5,
        BinaryOp::Or => 5,
    }
}

/// The words of arguments.
#[cycle(expressions)]
pub(crate) fn exprs_size(es: &[Expr]) -> Option<u32>
    ensures { SomeIff result (size.exprs_size (exprs (map resolved_expr es.now)) < 2 ^ 32) (size.exprs_size (exprs (map resolved_expr es.now))) }
{
    let mut words = 0u32;
    for e in es {
        words = words.checked_add(expr_size(e)?)?;
    }
    Some(words)
}

/// The words of an assignment.
pub(crate) fn assignment_size(a: &Assignment) -> Option<u32>
    ensures { SomeIff result (size.assignment_size (resolved_assignment a.now) < 2 ^ 32) (size.assignment_size (resolved_assignment a.now)) }
{
    match a {
        Assignment::Set(Place::Private(_), e) => part_size(e, 1),
        Assignment::Set(Place::Word(_), e) => part_size(e, 1),
        Assignment::Set(Place::Element(_, _, index), e) => part_size(e, part_size(index, 1)?),
        Assignment::Update(Place::Private(_), _, _, e) => part_size(e, 3),
        Assignment::Update(Place::Word(_), _, _, e) => part_size(e, 3),
        Assignment::Update(Place::Element(_, _, index), _, _, e) => {
            part_size(e, part_size(index, 4)?)
        }
    }
}

/// The words of a declared local or an assignment.
pub(crate) fn simple_size(s: &Simple) -> Option<u32>
    ensures { SomeIff result (size.simple_size (resolved_simple s.now) < 2 ^ 32) (size.simple_size (resolved_simple s.now)) }
{
    match s {
        Simple::Declare(_, e) => part_size(e, 1),
        Simple::Assign(a) => assignment_size(a),
    }
}

/// The words of what stands before a loop.
pub(crate) fn simples_size(ss: &[Simple]) -> Option<u32>
    ensures { SomeIff result (size.simples_size (map resolved_simple ss.now) < 2 ^ 32) (size.simples_size (map resolved_simple ss.now)) }
{
    let mut words = 0u32;
    for s in ss {
        words = words.checked_add(simple_size(s)?)?;
    }
    Some(words)
}

/// The words of a test with its jump.
pub(crate) fn test_size(test: &Option<Expr>) -> Option<u32>
    ensures { SomeIff result (size.test_size (option_map resolved_expr test.now) < 2 ^ 32) (size.test_size (option_map resolved_expr test.now)) }
{
    match test {
        None => Some(0),
        Some(e) => part_size(e, 1),
    }
}

/// The words of a step.
pub(crate) fn step_size(step: &Option<Assignment>) -> Option<u32>
    ensures { SomeIff result (size.step_size (option_map resolved_assignment step.now) < 2 ^ 32) (size.step_size (option_map resolved_assignment step.now)) }
{
    match step {
        None => Some(0),
        Some(a) => assignment_size(a),
    }
}

/// The words of a turn with a body of so many.
pub(crate) fn turn_size(c: &Clauses, body: u32) -> Option<u32>
    ensures { SomeIff result (size.turn_size (resolved_clauses c.now) body < 2 ^ 32) (size.turn_size (resolved_clauses c.now) body) }
{
    sum(test_size(&c.test)?, body, step_size(&c.step)?)
}

/// The words of a loop with turns of so many.
pub(crate) fn loop_size(kind: &LoopKind, turn: u32) -> Option<u32>
    ensures { SomeIff result (size.loop_size (resolved_kind kind.now) turn < 2 ^ 32) (size.loop_size (resolved_kind kind.now) turn) }
{
    match kind {
        LoopKind::Plain => turn.checked_add(1),
        LoopKind::Region(_) => sum(turn, turn, 4),
    }
}

/// The words of a statement.
#[cycle(statements)]
pub(crate) fn stmt_size(s: &Stmt) -> Option<u32>
    ensures { SomeIff result (size.stmt_size (resolved_stmt s.now) < 2 ^ 32) (size.stmt_size (resolved_stmt s.now)) }
{
    match s {
        Stmt::Block(inner) => stmts_size(inner),
        Stmt::Simple(simple) => simple_size(simple),
        Stmt::CallStatement(_, _, arguments) => call_size(arguments, 2),
        Stmt::Print(_, e) => part_size(e, 1),
        Stmt::Emit(_, e) => part_size(e, 1),
        Stmt::If(test, inner) => guarded_size(inner, test, 1),
        Stmt::IfElse(test, inner, other) => guarded_size(inner, test, behind_size(other, 2)?),
        Stmt::Loop(kind, clauses, body) => loop_with_init_size(body, kind, clauses),
        Stmt::DoWhile(body, test) => guarded_size(body, test, 1),
        Stmt::Break => Some(1),
        Stmt::Continue => Some(1),
        Stmt::Return(e) => part_size(e, 1),
    }
}

// The words of a statement, and so many more.
#[cycle(statements)]
fn behind_size(s: &Stmt, more: u32) -> Option<u32>
    ensures { SomeIff result (size.stmt_size (resolved_stmt s.now) + more < 2 ^ 32) (size.stmt_size (resolved_stmt s.now) + more) }
{
    stmt_size(s)?.checked_add(more)
}

// The words of a statement and of a test, and so many more.
#[cycle(statements)]
fn guarded_size(s: &Stmt, test: &Expr, more: u32) -> Option<u32>
    ensures { let words = size.stmt_size (resolved_stmt s.now) + size.expr_size (resolved_expr test.now) + more in SomeIff result (words < 2 ^ 32) words }
{
    sum(stmt_size(s)?, expr_size(test)?, more)
}

// The words of a loop with this body, and of what stands before it.
#[cycle(statements)]
fn loop_with_init_size(body: &Stmt, kind: &LoopKind, clauses: &Clauses) -> Option<u32>
    ensures { let c = resolved_clauses clauses.now in let words = size.simples_size c.init + size.loop_size (resolved_kind kind.now) (size.turn_size c (size.stmt_size (resolved_stmt body.now))) in SomeIff result (words < 2 ^ 32) words }
{
    let turn = turn_size(clauses, stmt_size(body)?)?;
    simples_size(&clauses.init)?.checked_add(loop_size(kind, turn)?)
}

/// The words of statements.
#[cycle(statements)]
pub(crate) fn stmts_size(ss: &[Stmt]) -> Option<u32>
    ensures { SomeIff result (size.stmts_size (stmts (map resolved_stmt ss.now)) < 2 ^ 32) (size.stmts_size (stmts (map resolved_stmt ss.now))) }
{
    let mut words = 0u32;
    for s in ss {
        words = words.checked_add(stmt_size(s)?)?;
    }
    Some(words)
}
