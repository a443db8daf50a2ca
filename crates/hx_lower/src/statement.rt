// The words of statements.

ghost use Rattle.std.specs.Prelude.{◌≡◌, ◌+◌, ◌++◌, ◌∷◌, [], OnOk, IfOk, map, option_map, length};
ghost use Rattle.hx_resolved.specs.Resolved.{exprs, stmts};
ghost use Rattle.hx_resolved.specs.Views.{resolved_clauses, resolved_expr, resolved_kind, resolved_region, resolved_stmt};
ghost use Rattle.hx_lowering.specs.Draft.{stmt_draft, stmts_draft, turn_draft, plain_draft, turns_draft, region_draft, loop_draft, do_draft, targets, cells_from, counter_of as counter, put_word, with_lines};
ghost use Rattle.hx_lowering.specs.Lines as lines;
ghost use Rattle.hx_lowering.specs.Size as size;
ghost use Rattle.hx_code.specs.Code.{RegionView};
ghost use Rattle.hx_code.specs.declared.word.Word.TheVariants.{Drop as Dropped, Jump, JumpFalse};

use crate::assignment::{put_simple, put_simples, put_step, put_test};
use crate::draft::{Drafted, Version, cells_of, counter_of};
use crate::expression::{put_call, put_part};
use crate::size::stmt_size;
use crate::target::{Targets, behind_if, counted, places_of_else, places_of_region};
use hx_code::table;
use hx_code::table::Carried;
use hx_code::word::Word;
use hx_resolved::program::{Clauses, Expr, LoopKind, Region, Stmt};
use std::alloc::{AllocError, Global};

/// Puts the words of a statement, whose `break` and `continue` go to these places.
#[cycle(statements)]
pub(crate) fn put_stmt(
    alloc: Global,
    draft: &mut Drafted,
    s: &Stmt,
    version: &Version<'_>,
    to: &Targets,
) -> Result<(), AllocError>
    ensures { OnOk result (draft.new ≡ stmt_draft (resolved_stmt s.now) version.now to.now draft.old) }
{
    match s {
        Stmt::Block(inner) => put_stmts(alloc, draft, inner, version, to),
        Stmt::Simple(simple) => put_simple(draft, simple, version),
        Stmt::CallStatement(function, at, arguments) => {
            put_call_statement(draft, arguments, version, Word::Call(*function, *at))
        }
        Stmt::Print(at, e) => put_part(draft, e, version, 0, Word::Print(*at)),
        Stmt::Emit(at, e) => put_part(draft, e, version, 0, Word::Emit(*at)),
        Stmt::If(test, inner) => {
            let exit = behind_if(draft.place(), test, inner)?;
            put_guarded(alloc, draft, inner, test, exit, version, to)
        }
        Stmt::IfElse(test, inner, other) => {
            let (other_at, exit) = places_of_else(draft.place(), test, inner, other)?;
            put_guarded(alloc, draft, inner, test, other_at, version, to)?;
            put_else(alloc, draft, other, exit, version, to)
        }
        Stmt::Loop(kind, clauses, body) => put_loop(alloc, draft, body, kind, clauses, version),
        Stmt::DoWhile(body, test) => put_do(alloc, draft, body, test, version),
        Stmt::Break => draft.put(version, 0, Word::Jump(to.break_to())),
        Stmt::Continue => draft.put(version, 0, Word::Jump(to.continue_to())),
        Stmt::Return(e) => put_part(draft, e, version, 0, Word::Ret),
    }
}

// A call whose value is dropped.
fn put_call_statement(
    draft: &mut Drafted,
    arguments: &[Expr],
    version: &Version<'_>,
    call: Word,
) -> Result<(), AllocError>
    ensures { OnOk result (draft.new ≡ with_lines draft.old (lines.put version.now 1 Dropped (lines.put version.now (length arguments.now) call (lines.exprs_lines (exprs (map resolved_expr arguments.now)) version.now 0 draft.old.lines)))) }
{
    put_call(draft, arguments, version, 0, call)?;
    draft.put(version, 1, Word::Drop)
}

// A test, which jumps to a place where it is 0, and the statement that it guards.
#[cycle(statements)]
fn put_guarded(
    alloc: Global,
    draft: &mut Drafted,
    inner: &Stmt,
    test: &Expr,
    exit: u32,
    version: &Version<'_>,
    to: &Targets,
) -> Result<(), AllocError>
    ensures { OnOk result (draft.new ≡ stmt_draft (resolved_stmt inner.now) version.now to.now (with_lines draft.old (lines.put version.now 1 (JumpFalse exit) (lines.expr_lines (resolved_expr test.now) version.now 0 draft.old.lines)))) }
{
    put_part(draft, test, version, 0, Word::JumpFalse(exit))?;
    put_stmt(alloc, draft, inner, version, to)
}

// The jump over the other statement of an `if`, and that statement.
#[cycle(statements)]
fn put_else(
    alloc: Global,
    draft: &mut Drafted,
    other: &Stmt,
    exit: u32,
    version: &Version<'_>,
    to: &Targets,
) -> Result<(), AllocError>
    ensures { OnOk result (draft.new ≡ stmt_draft (resolved_stmt other.now) version.now to.now (put_word version.now 0 (Jump exit) draft.old)) }
{
    draft.put(version, 0, Word::Jump(exit))?;
    put_stmt(alloc, draft, other, version, to)
}

/// Puts the words of statements.
#[cycle(statements)]
pub(crate) fn put_stmts(
    alloc: Global,
    draft: &mut Drafted,
    ss: &[Stmt],
    version: &Version<'_>,
    to: &Targets,
) -> Result<(), AllocError>
    ensures { OnOk result (draft.new ≡ stmts_draft (stmts (map resolved_stmt ss.now)) version.now to.now draft.old) }
{
    for s in ss {
        put_stmt(alloc, draft, s, version, to)?;
    }
    Ok(())
}

// A `do`: its body, and behind it the test, which jumps back where it isn't 0.
#[cycle(statements)]
fn put_do(
    alloc: Global,
    draft: &mut Drafted,
    body: &Stmt,
    test: &Expr,
    version: &Version<'_>,
) -> Result<(), AllocError>
    ensures { OnOk result (draft.new ≡ do_draft (resolved_expr test.now) (size.stmt_size (resolved_stmt body.now)) (λ to d. stmt_draft (resolved_stmt body.now) version.now to d) version.now draft.old) }
{
    let start = draft.place();
    let to = Targets::of_do(test, counted(stmt_size(body))?, start)?;
    put_stmt(alloc, draft, body, version, &to)?;
    put_part(draft, test, version, 0, Word::JumpTrue(start))
}

// A loop, and what stands before it.
#[cycle(statements)]
fn put_loop(
    alloc: Global,
    draft: &mut Drafted,
    body: &Stmt,
    kind: &LoopKind,
    clauses: &Clauses,
    version: &Version<'_>,
) -> Result<(), AllocError>
    ensures { let c = resolved_clauses clauses.now in OnOk result (draft.new ≡ loop_draft (resolved_kind kind.now) c (size.stmt_size (resolved_stmt body.now)) (λ v to d. stmt_draft (resolved_stmt body.now) v to d) version.now (with_lines draft.old (lines.simples_lines c.init version.now draft.old.lines))) }
{
    put_simples(draft, &clauses.init, version)?;
    match kind {
        LoopKind::Plain => put_plain(alloc, draft, body, clauses, version),
        LoopKind::Region(region) => put_region(alloc, draft, body, region, clauses, version),
    }
}

// A marked loop that stands in no other: the word that opens the region, the version that its iterations run, and the
// plain loop, which runs where a region is active already.
#[cycle(statements)]
fn put_region(
    alloc: Global,
    draft: &mut Drafted,
    body: &Stmt,
    region: &Region,
    clauses: &Clauses,
    version: &Version<'_>,
) -> Result<(), AllocError>
    ensures { OnOk result (draft.new ≡ region_draft (resolved_region region.now) (resolved_clauses clauses.now) (size.stmt_size (resolved_stmt body.now)) (λ v to d. stmt_draft (resolved_stmt body.now) v to d) version.now draft.old) }
{
    let number = draft.region_count()?;
    let (start, plain, exit) = places_of_region(draft.place(), clauses, body)?;
    draft.put(version, 0, Word::Enter(number, plain))?;
    let cells = cells_of(alloc, &region.carried)?;
    put_turns(
        alloc,
        draft,
        body,
        clauses,
        &version.of_region(number, &cells),
    )?;
    put_plain(alloc, draft, body, clauses, version)?;
    put_row(draft, region, cells, start, exit)
}

// What is told of a region that begins and ends at these places, with the cells of the words that it carries.
fn put_row(
    draft: &mut Drafted,
    region: &Region,
    cells: Vec<Carried>,
    start: u32,
    exit: u32,
) -> Result<(), AllocError>
    ensures { let r = resolved_region region.now in let row : RegionView = record { start = start; exit = exit; carried = cells.items; copied = r.copied; induct = option_map counter r.induct } in OnOk result (draft.new ≡ record draft.old { regions = draft.old.regions ++ row ∷ [] }) }
{
    let copied = region.copied.clone()?;
    draft.put_region(table::Region {
        start,
        exit,
        carried: cells,
        copied,
        induct: counter_of(region.induct),
    })
}

// The version of a loop that its iterations run.
#[cycle(statements)]
fn put_turns(
    alloc: Global,
    draft: &mut Drafted,
    body: &Stmt,
    clauses: &Clauses,
    version: &Version<'_>,
) -> Result<(), AllocError>
    ensures { OnOk result (draft.new ≡ turns_draft (resolved_clauses clauses.now) (size.stmt_size (resolved_stmt body.now)) (λ to d. stmt_draft (resolved_stmt body.now) version.now to d) version.now draft.old) }
{
    put_turn(alloc, draft, body, clauses, version)?;
    draft.put(version, 0, Word::Turn)?;
    draft.put(version, 0, Word::Leave)
}

// A loop that runs one turn after another.
#[cycle(statements)]
fn put_plain(
    alloc: Global,
    draft: &mut Drafted,
    body: &Stmt,
    clauses: &Clauses,
    version: &Version<'_>,
) -> Result<(), AllocError>
    ensures { OnOk result (draft.new ≡ plain_draft (resolved_clauses clauses.now) (size.stmt_size (resolved_stmt body.now)) (λ to d. stmt_draft (resolved_stmt body.now) version.now to d) version.now draft.old) }
{
    let start = draft.place();
    put_turn(alloc, draft, body, clauses, version)?;
    draft.put(version, 0, Word::Jump(start))
}

// A turn: the test, the body and the step.
#[cycle(statements)]
fn put_turn(
    alloc: Global,
    draft: &mut Drafted,
    body: &Stmt,
    clauses: &Clauses,
    version: &Version<'_>,
) -> Result<(), AllocError>
    ensures { let c = resolved_clauses clauses.now in let s = size.stmt_size (resolved_stmt body.now) in let start = length draft.old.lines in OnOk result (draft.new ≡ turn_draft c (start + size.turn_size c s + 1) version.now (λ d. stmt_draft (resolved_stmt body.now) version.now (targets c s start) d) draft.old) }
{
    let to = Targets::of_turn(clauses, counted(stmt_size(body))?, draft.place())?;
    put_test(draft, &clauses.test, to.break_to(), version)?;
    put_stmt(alloc, draft, body, version, &to)?;
    put_step(draft, &clauses.step, version)
}
