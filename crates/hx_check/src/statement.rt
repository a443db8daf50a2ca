// Declarations and statements, checked and resolved.

ghost use Rattle.std.specs.Prelude.{◌≡◌, ◌++◌, ◌&&◌, not, [], map, option_map, Ok, OnOk, IfOk};
ghost use Rattle.hx_tree.specs.Tree as tree;
ghost use Rattle.hx_tree.specs.Tree.{exprs, parts};
ghost use Rattle.hx_tree.specs.View.{name_of, expr_of, assignment_of, local_of, init_of, for_clauses_of, part_of, stmt_of};
ghost use Rattle.hx_check.specs.declared.here.Here.{Here};
ghost use Rattle.hx_resolved.specs.Resolve.{kind_if, while_clauses};
ghost use Rattle.hx_resolved.specs.Resolved.{Do};
ghost use Rattle.hx_resolved.specs.Views.{resolved_expr, resolved_clauses, resolved_kind, resolved_stmt, resolved_simples_in, resolved_stmts_in};
ghost use Rattle.hx_check.specs.Views.{symbols_in, scopes_of, known_of};
ghost use Rattle.hx_check.specs.Reading.{IsReading, IsReadingNow, check_locals, check_init, check_clauses, check_return, check_stmt, check_part, check_parts, make_loop};

use crate::counter::step_counts;
use crate::error::CheckError;
use crate::expression::{arguments, assignment, expression, step, test, value_or_zero};
use crate::here::Here;
use crate::locals::{Locals, Scopes};
use crate::make::block;
use crate::names::function_named;
use crate::table::Symbols;
use hx_resolved::carried::region_of;
use hx_resolved::program::{Clauses, Expr, LoopKind, Simple, Stmt};
use hx_tree::token::Pos;
use hx_tree::tree;
use hx_tree::tree::{LocalDecl, Name, Returns};
use std::alloc::{AllocError, Global};

/// The locals of a declaration, each known from after its own initialiser.
fn local_decls(
    alloc: Global,
    ds: &[LocalDecl],
    symbols: &Symbols,
    locals: &mut Locals,
) -> Result<Vec<Simple>, CheckError>
    ensures { IsReadingNow (check_locals (map local_of ds.now) (symbols_in symbols.now) (known_of locals.old) []) resolved_simples_in (known_of locals.new) result }
{
    let mut all = Vec::new(alloc);
    for d in ds {
        locals.check_new(&d.name)?;
        let value = value_or_zero(alloc, &d.init, symbols, &locals.scopes)?;
        let word = locals.declare(alloc, &d.name)?;
        all.push(Simple::Declare(word, value))?;
    }
    Ok(all)
}

/// What a `for` begins with.
fn init(
    alloc: Global,
    i: &tree::Init,
    symbols: &Symbols,
    locals: &mut Locals,
) -> Result<Vec<Simple>, CheckError>
    ensures { IsReadingNow (check_init (init_of i.now) (symbols_in symbols.now) (known_of locals.old)) resolved_simples_in (known_of locals.new) result }
{
    match i {
        tree::Init::Nothing => Ok(Vec::new(alloc)),
        tree::Init::Locals(ds) => local_decls(alloc, ds, symbols, locals),
        tree::Init::Assign(a) => {
            let a = assignment(alloc, a, symbols, &locals.scopes)?;
            let mut all = Vec::new(alloc);
            all.push(Simple::Assign(a))?;
            Ok(all)
        }
    }
}

/// The value of a `return`: exactly an int function gives one.
fn returned(
    alloc: Global,
    e: &Option<tree::Expr>,
    pos: Pos,
    returns: Returns,
    symbols: &Symbols,
    scopes: &Scopes,
) -> Result<Expr, CheckError>
    ensures { IsReading (check_return pos returns (option_map expr_of e.now) (symbols_in symbols.now) (scopes_of scopes.now)) resolved_expr result }
{
    match (returns, e) {
        (Returns::Int, Some(e)) => expression(alloc, e, symbols, scopes),
        (Returns::Void, None) => Ok(Expr::Number(0)),
        (Returns::Int, None) => Err(CheckError::WrongKind(pos)),
        (Returns::Void, Some(_)) => Err(CheckError::WrongKind(pos)),
    }
}

/// How a loop runs: as a region where it is marked and no marked loop is around it.
fn loop_kind(
    alloc: Global,
    marked: bool,
    here: Here,
    clauses: &Clauses,
    body: &Stmt,
) -> Result<LoopKind, AllocError>
    ensures { IfOk result (λ r. resolved_kind r ≡ kind_if (marked && not here.is_marked) here.privates (resolved_clauses clauses.now) (resolved_stmt body.now)) }
{
    if marked && !here.is_marked {
        Ok(LoopKind::Region(region_of(alloc, here.privates, clauses, body)?))
    } else {
        Ok(LoopKind::Plain)
    }
}

/// A loop with its body, and how it runs.
fn make_loop(
    alloc: Global,
    marked: bool,
    here: Here,
    clauses: Clauses,
    body: Box<Stmt>,
) -> Result<Stmt, CheckError>
    ensures { IsReading (Ok (make_loop marked here (resolved_clauses clauses) (resolved_stmt body.value))) resolved_stmt result }
{
    let kind = loop_kind(alloc, marked, here, &clauses, &body)?;
    Ok(Stmt::Loop(kind, clauses, body))
}

/// Adds declarations to the statements of a block.
fn append(out: &mut Vec<Stmt>, simples: Vec<Simple>) -> Result<(), AllocError>
    ensures { OnOk result (resolved_stmts_in out.new ≡ resolved_stmts_in out.old ++ map Do (resolved_simples_in simples)) }
{
    for simple in simples {
        out.push(Stmt::Simple(simple))?;
    }
    Ok(())
}

/// The clauses of a `while`, which has a test only.
fn while_clauses(alloc: Global, condition: Expr) -> Clauses
    ensures { resolved_clauses result ≡ while_clauses (resolved_expr condition) }
{
    Clauses {
        init: Vec::new(alloc),
        test: Some(condition),
        step: None,
        counts: None,
    }
}

/// The clauses of a `for`, in the scope that its first clause declares in.
fn for_clauses(
    alloc: Global,
    head: &tree::ForClauses,
    symbols: &Symbols,
    locals: &mut Locals,
) -> Result<Clauses, CheckError>
    ensures { IsReadingNow (check_clauses (for_clauses_of head.now) (symbols_in symbols.now) (known_of locals.old)) resolved_clauses (known_of locals.new) result }
{
    let init = init(alloc, &head.init, symbols, locals)?;
    let test = test(alloc, &head.test, symbols, &locals.scopes)?;
    let step = step(alloc, &head.step, symbols, &locals.scopes)?;
    let counts = step_counts(&head.step, &locals.scopes);
    Ok(Clauses {
        init,
        test,
        step,
        counts,
    })
}

/// An assignment as a statement, wherever it stands.
fn assign_statement(
    alloc: Global,
    a: &tree::Assignment,
    symbols: &Symbols,
    locals: &Locals,
) -> Result<Stmt, CheckError>
    ensures { (here : Here) → IsReadingNow (check_stmt (tree.Assign (assignment_of a.now)) (symbols_in symbols.now) here (known_of locals.now)) resolved_stmt (known_of locals.now) result }
{
    let a = assignment(alloc, a, symbols, &locals.scopes)?;
    Ok(Stmt::Simple(Simple::Assign(a)))
}

/// A call whose value isn't wanted, wherever it stands.
fn call_statement(
    alloc: Global,
    f: &Name,
    args: &[tree::Expr],
    symbols: &Symbols,
    locals: &Locals,
) -> Result<Stmt, CheckError>
    ensures { (here : Here) → IsReadingNow (check_stmt (tree.CallStatement (name_of f.now) (exprs (map expr_of args.now))) (symbols_in symbols.now) here (known_of locals.now)) resolved_stmt (known_of locals.now) result }
{
    let number = function_named(symbols, &locals.scopes, false, f, args.len())?;
    let args = arguments(alloc, args, symbols, &locals.scopes)?;
    Ok(Stmt::CallStatement(number, f.pos, args))
}

/// A `print`, wherever it stands.
fn print_statement(
    alloc: Global,
    pos: Pos,
    e: &tree::Expr,
    symbols: &Symbols,
    locals: &Locals,
) -> Result<Stmt, CheckError>
    ensures { (here : Here) → IsReadingNow (check_stmt (tree.Print pos (expr_of e.now)) (symbols_in symbols.now) here (known_of locals.now)) resolved_stmt (known_of locals.now) result }
{
    Ok(Stmt::Print(pos, expression(alloc, e, symbols, &locals.scopes)?))
}

/// An `emit`, wherever it stands.
fn emit_statement(
    alloc: Global,
    pos: Pos,
    e: &tree::Expr,
    symbols: &Symbols,
    locals: &Locals,
) -> Result<Stmt, CheckError>
    ensures { (here : Here) → IsReadingNow (check_stmt (tree.Emit pos (expr_of e.now)) (symbols_in symbols.now) here (known_of locals.now)) resolved_stmt (known_of locals.now) result }
{
    Ok(Stmt::Emit(pos, expression(alloc, e, symbols, &locals.scopes)?))
}

/// A statement. The locals that it declares in scopes of its own are forgotten after it, and keep
/// their private words.
#[cycle(statements)]
fn statement(
    alloc: Global,
    s: &tree::Stmt,
    symbols: &Symbols,
    here: Here,
    locals: &mut Locals,
) -> Result<Stmt, CheckError>
    ensures { IsReadingNow (check_stmt (stmt_of s.now) (symbols_in symbols.now) here (known_of locals.old)) resolved_stmt (known_of locals.new) result }
{
    match s {
        tree::Stmt::Block(ps) => block_statement(alloc, ps, symbols, here, locals),
        tree::Stmt::Empty => Ok(block(Vec::new(alloc))),
        tree::Stmt::Assign(a) => assign_statement(alloc, a, symbols, locals),
        tree::Stmt::CallStatement(f, args) => call_statement(alloc, f, args, symbols, locals),
        tree::Stmt::Print(pos, e) => print_statement(alloc, *pos, e, symbols, locals),
        tree::Stmt::Emit(pos, e) => emit_statement(alloc, *pos, e, symbols, locals),
        tree::Stmt::If(condition, body) => {
            if_statement(alloc, body, condition, symbols, here, locals)
        }
        tree::Stmt::IfElse(condition, body, other) => {
            let condition = expression(alloc, condition, symbols, &locals.scopes)?;
            let body = boxed_statement(alloc, body, symbols, here, locals)?;
            let other = boxed_statement(alloc, other, symbols, here, locals)?;
            Ok(Stmt::IfElse(condition, body, other))
        }
        tree::Stmt::While(marked, condition, body) => {
            while_statement(alloc, *marked, body, condition, symbols, here, locals)
        }
        tree::Stmt::DoWhile(body, condition) => {
            do_statement(alloc, body, condition, symbols, here, locals)
        }
        tree::Stmt::For(marked, head, body) => {
            for_statement(alloc, *marked, head, body, symbols, here, locals)
        }
        tree::Stmt::Break(pos) => {
            here.check_loop(*pos)?;
            Ok(Stmt::Break)
        }
        tree::Stmt::Continue(pos) => {
            here.check_loop(*pos)?;
            Ok(Stmt::Continue)
        }
        tree::Stmt::Return(pos, e) => {
            let value = returned(alloc, e, *pos, here.returns, symbols, &locals.scopes)?;
            Ok(Stmt::Return(value))
        }
    }
}

/// A statement that stands in another.
#[cycle(statements)]
fn boxed_statement(
    alloc: Global,
    s: &tree::Stmt,
    symbols: &Symbols,
    here: Here,
    locals: &mut Locals,
) -> Result<Box<Stmt>, CheckError>
    ensures { IsReadingNow (check_stmt (stmt_of s.now) (symbols_in symbols.now) here (known_of locals.old)) (λ b. resolved_stmt b.value) (known_of locals.new) result }
{
    let s = statement(alloc, s, symbols, here, locals)?;
    Ok(Box::new(alloc, s)?)
}

/// A block, which is a scope of its own.
#[cycle(statements)]
fn block_statement(
    alloc: Global,
    ps: &[tree::Part],
    symbols: &Symbols,
    here: Here,
    locals: &mut Locals,
) -> Result<Stmt, CheckError>
    ensures { IsReadingNow (check_stmt (tree.Block (parts (map part_of ps.now))) (symbols_in symbols.now) here (known_of locals.old)) resolved_stmt (known_of locals.new) result }
{
    locals.open(alloc)?;
    let body = statements(alloc, ps, symbols, here, locals)?;
    locals.close();
    Ok(block(body))
}

/// An `if` without an `else`.
#[cycle(statements)]
fn if_statement(
    alloc: Global,
    body: &tree::Stmt,
    condition: &tree::Expr,
    symbols: &Symbols,
    here: Here,
    locals: &mut Locals,
) -> Result<Stmt, CheckError>
    ensures { IsReadingNow (check_stmt (tree.If (expr_of condition.now) (stmt_of body.now)) (symbols_in symbols.now) here (known_of locals.old)) resolved_stmt (known_of locals.new) result }
{
    let condition = expression(alloc, condition, symbols, &locals.scopes)?;
    let body = boxed_statement(alloc, body, symbols, here, locals)?;
    Ok(Stmt::If(condition, body))
}

/// A `while`.
#[cycle(statements)]
fn while_statement(
    alloc: Global,
    marked: bool,
    body: &tree::Stmt,
    condition: &tree::Expr,
    symbols: &Symbols,
    here: Here,
    locals: &mut Locals,
) -> Result<Stmt, CheckError>
    ensures { IsReadingNow (check_stmt (tree.While marked (expr_of condition.now) (stmt_of body.now)) (symbols_in symbols.now) here (known_of locals.old)) resolved_stmt (known_of locals.new) result }
{
    let condition = expression(alloc, condition, symbols, &locals.scopes)?;
    let body = boxed_statement(alloc, body, symbols, here.inside(marked), locals)?;
    make_loop(alloc, marked, here, while_clauses(alloc, condition), body)
}

/// A `do`, whose body stands before its test.
#[cycle(statements)]
fn do_statement(
    alloc: Global,
    body: &tree::Stmt,
    condition: &tree::Expr,
    symbols: &Symbols,
    here: Here,
    locals: &mut Locals,
) -> Result<Stmt, CheckError>
    ensures { IsReadingNow (check_stmt (tree.DoWhile (stmt_of body.now) (expr_of condition.now)) (symbols_in symbols.now) here (known_of locals.old)) resolved_stmt (known_of locals.new) result }
{
    let body = boxed_statement(alloc, body, symbols, here.within_loop(), locals)?;
    let condition = expression(alloc, condition, symbols, &locals.scopes)?;
    Ok(Stmt::DoWhile(body, condition))
}

/// A `for`, whose first clause declares in a scope of its own.
#[cycle(statements)]
fn for_statement(
    alloc: Global,
    marked: bool,
    head: &tree::ForClauses,
    body: &tree::Stmt,
    symbols: &Symbols,
    here: Here,
    locals: &mut Locals,
) -> Result<Stmt, CheckError>
    ensures { IsReadingNow (check_stmt (tree.For marked (for_clauses_of head.now) (stmt_of body.now)) (symbols_in symbols.now) here (known_of locals.old)) resolved_stmt (known_of locals.new) result }
{
    locals.open(alloc)?;
    let clauses = for_clauses(alloc, head, symbols, locals)?;
    let body = boxed_statement(alloc, body, symbols, here.inside(marked), locals)?;
    locals.close();
    make_loop(alloc, marked, here, clauses, body)
}

/// Adds a part of a block to its statements.
#[cycle(statements)]
fn part(
    alloc: Global,
    p: &tree::Part,
    symbols: &Symbols,
    here: Here,
    locals: &mut Locals,
    out: &mut Vec<Stmt>,
) -> Result<(), CheckError>
    ensures { IsReadingNow (check_part (part_of p.now) (symbols_in symbols.now) here (known_of locals.old) (resolved_stmts_in out.old)) (λ _. resolved_stmts_in out.new) (known_of locals.new) result }
{
    match p {
        tree::Part::Locals(ds) => {
            let simples = local_decls(alloc, ds, symbols, locals)?;
            append(out, simples)?;
            Ok(())
        }
        tree::Part::Stmt(s) => {
            let s = statement(alloc, s, symbols, here, locals)?;
            out.push(s)?;
            Ok(())
        }
    }
}

/// The statements of a block, whose declarations stay known.
#[cycle(statements)]
pub(crate) fn statements(
    alloc: Global,
    ps: &[tree::Part],
    symbols: &Symbols,
    here: Here,
    locals: &mut Locals,
) -> Result<Vec<Stmt>, CheckError>
    ensures { IsReadingNow (check_parts (parts (map part_of ps.now)) (symbols_in symbols.now) here (known_of locals.old) []) resolved_stmts_in (known_of locals.new) result }
{
    let mut out = Vec::new(alloc);
    for p in ps {
        part(alloc, p, symbols, here, locals, &mut out)?;
    }
    Ok(out)
}
