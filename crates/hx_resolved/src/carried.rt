// Which private words a region takes along.

ghost use Rattle.std.specs.Prelude.{◌≡◌, IfOk, map};
ghost use Rattle.std.specs.List.{filter, range_with_len};
ghost use Rattle.hx_resolved.specs.Resolved.{exprs, stmts};
ghost use Rattle.hx_resolved.specs.Views.{resolved_expr, resolved_place, resolved_assignment, resolved_simple, resolved_clauses, resolved_stmt, resolved_region, resolved_option, resolved_step};
ghost use Rattle.hx_resolved.specs.Carried as carried;

use crate::program::{Assignment, Clauses, Expr, Induct, Place, Region, Simple, Stmt};
use std::alloc::{AllocError, Global};

// ---- what reads a private word

#[cycle(expression_reads)]
fn expr_reads(e: &Expr, k: u32) -> bool
    ensures { result ≡ carried.expr_reads k (resolved_expr e.now) }
{
    match e {
        Expr::Number(_) => false,
        Expr::Private(word) => *word == k,
        Expr::Word(_) => false,
        Expr::Element(_, _, index) => expr_reads(index, k),
        Expr::Call(_, _, arguments) => exprs_read(arguments, k),
        Expr::Unary(_, operand) => expr_reads(operand, k),
        Expr::Binary(_, _, left, right) => expr_reads(left, k) || expr_reads(right, k),
        Expr::Conditional(test, chosen, other) => {
            expr_reads(test, k) || expr_reads(chosen, k) || expr_reads(other, k)
        }
    }
}

#[cycle(expression_reads)]
fn exprs_read(es: &[Expr], k: u32) -> bool
    ensures { result ≡ carried.exprs_read k (exprs (map resolved_expr es.now)) }
{
    for e in es {
        if expr_reads(e, k) {
            return true;
        }
    }
    false
}

fn index_reads(p: &Place, k: u32) -> bool
    ensures { result ≡ carried.index_reads k (resolved_place p.now) }
{
    match p {
        Place::Element(_, _, index) => expr_reads(index, k),
        Place::Private(_) => false,
        Place::Word(_) => false,
    }
}

fn is_to(p: &Place, k: u32) -> bool
    ensures { result ≡ carried.is_to k (resolved_place p.now) }
{
    match p {
        Place::Private(word) => *word == k,
        Place::Word(_) => false,
        Place::Element(_, _, _) => false,
    }
}

fn assignment_reads(a: &Assignment, k: u32) -> bool
    ensures { result ≡ carried.assignment_reads k (resolved_assignment a.now) }
{
    match a {
        Assignment::Set(p, e) => index_reads(p, k) || expr_reads(e, k),
        Assignment::Update(p, _, _, e) => is_to(p, k) || index_reads(p, k) || expr_reads(e, k),
    }
}

fn simple_reads(s: &Simple, k: u32) -> bool
    ensures { result ≡ carried.simple_reads k (resolved_simple s.now) }
{
    match s {
        Simple::Declare(_, e) => expr_reads(e, k),
        Simple::Assign(a) => assignment_reads(a, k),
    }
}

fn init_reads(init: &[Simple], k: u32) -> bool
    ensures { result ≡ carried.any_of (carried.simple_reads k) (map resolved_simple init.now) }
{
    for s in init {
        if simple_reads(s, k) {
            return true;
        }
    }
    false
}

fn test_reads(test: &Option<Expr>, k: u32) -> bool
    ensures { result ≡ carried.if_any (carried.expr_reads k) (resolved_option test.now) }
{
    match test {
        Some(e) => expr_reads(e, k),
        None => false,
    }
}

fn step_reads(step: &Option<Assignment>, k: u32) -> bool
    ensures { result ≡ carried.if_any (carried.assignment_reads k) (resolved_step step.now) }
{
    match step {
        Some(a) => assignment_reads(a, k),
        None => false,
    }
}

fn clauses_read(c: &Clauses, k: u32) -> bool
    ensures { result ≡ carried.clauses_read k (resolved_clauses c.now) }
{
    init_reads(&c.init, k) || test_reads(&c.test, k) || step_reads(&c.step, k)
}

#[cycle(statement_reads)]
fn stmt_reads(s: &Stmt, k: u32) -> bool
    ensures { result ≡ carried.stmt_reads k (resolved_stmt s.now) }
{
    match s {
        Stmt::Block(body) => stmts_read(body, k),
        Stmt::Simple(simple) => simple_reads(simple, k),
        Stmt::CallStatement(_, _, arguments) => exprs_read(arguments, k),
        Stmt::Print(_, e) => expr_reads(e, k),
        Stmt::Emit(_, e) => expr_reads(e, k),
        Stmt::If(test, body) => expr_reads(test, k) || stmt_reads(body, k),
        Stmt::IfElse(test, body, other) => {
            expr_reads(test, k) || stmt_reads(body, k) || stmt_reads(other, k)
        }
        Stmt::Loop(_, clauses, body) => clauses_read(clauses, k) || stmt_reads(body, k),
        Stmt::DoWhile(body, test) => stmt_reads(body, k) || expr_reads(test, k),
        Stmt::Break => false,
        Stmt::Continue => false,
        Stmt::Return(e) => expr_reads(e, k),
    }
}

#[cycle(statement_reads)]
fn stmts_read(ss: &[Stmt], k: u32) -> bool
    ensures { result ≡ carried.stmts_read k (stmts (map resolved_stmt ss.now)) }
{
    for s in ss {
        if stmt_reads(s, k) {
            return true;
        }
    }
    false
}

// ---- what assigns it

fn assigns(a: &Assignment, k: u32) -> bool
    ensures { result ≡ carried.assigns k (resolved_assignment a.now) }
{
    match a {
        Assignment::Set(p, _) => is_to(p, k),
        Assignment::Update(p, _, _, _) => is_to(p, k),
    }
}

fn simple_assigns(s: &Simple, k: u32) -> bool
    ensures { result ≡ carried.simple_assigns k (resolved_simple s.now) }
{
    match s {
        Simple::Declare(_, _) => false,
        Simple::Assign(a) => assigns(a, k),
    }
}

fn step_assigns(step: &Option<Assignment>, k: u32) -> bool
    ensures { result ≡ carried.if_any (carried.assigns k) (resolved_step step.now) }
{
    match step {
        Some(a) => assigns(a, k),
        None => false,
    }
}

fn init_assigns(init: &[Simple], k: u32) -> bool
    ensures { result ≡ carried.any_of (carried.simple_assigns k) (map resolved_simple init.now) }
{
    for s in init {
        if simple_assigns(s, k) {
            return true;
        }
    }
    false
}

fn clauses_assign(c: &Clauses, k: u32) -> bool
    ensures { result ≡ carried.clauses_assign k (resolved_clauses c.now) }
{
    init_assigns(&c.init, k) || step_assigns(&c.step, k)
}

#[cycle(statement_assigns)]
fn stmt_assigns(s: &Stmt, k: u32) -> bool
    ensures { result ≡ carried.stmt_assigns k (resolved_stmt s.now) }
{
    match s {
        Stmt::Block(body) => stmts_assign(body, k),
        Stmt::Simple(simple) => simple_assigns(simple, k),
        Stmt::If(_, body) => stmt_assigns(body, k),
        Stmt::IfElse(_, body, other) => stmt_assigns(body, k) || stmt_assigns(other, k),
        Stmt::Loop(_, clauses, body) => clauses_assign(clauses, k) || stmt_assigns(body, k),
        Stmt::DoWhile(body, _) => stmt_assigns(body, k),
        Stmt::CallStatement(_, _, _) => false,
        Stmt::Print(_, _) => false,
        Stmt::Emit(_, _) => false,
        Stmt::Break => false,
        Stmt::Continue => false,
        Stmt::Return(_) => false,
    }
}

#[cycle(statement_assigns)]
fn stmts_assign(ss: &[Stmt], k: u32) -> bool
    ensures { result ≡ carried.stmts_assign k (stmts (map resolved_stmt ss.now)) }
{
    for s in ss {
        if stmt_assigns(s, k) {
            return true;
        }
    }
    false
}

// ---- what declares it

fn simple_declares(s: &Simple, k: u32) -> bool
    ensures { result ≡ carried.simple_declares k (resolved_simple s.now) }
{
    match s {
        Simple::Declare(word, _) => *word == k,
        Simple::Assign(_) => false,
    }
}

fn init_declares(init: &[Simple], k: u32) -> bool
    ensures { result ≡ carried.any_of (carried.simple_declares k) (map resolved_simple init.now) }
{
    for s in init {
        if simple_declares(s, k) {
            return true;
        }
    }
    false
}

#[cycle(statement_declares)]
fn stmt_declares(s: &Stmt, k: u32) -> bool
    ensures { result ≡ carried.stmt_declares k (resolved_stmt s.now) }
{
    match s {
        Stmt::Block(body) => stmts_declare(body, k),
        Stmt::Simple(simple) => simple_declares(simple, k),
        Stmt::If(_, body) => stmt_declares(body, k),
        Stmt::IfElse(_, body, other) => stmt_declares(body, k) || stmt_declares(other, k),
        Stmt::Loop(_, clauses, body) => init_declares(&clauses.init, k) || stmt_declares(body, k),
        Stmt::DoWhile(body, _) => stmt_declares(body, k),
        Stmt::CallStatement(_, _, _) => false,
        Stmt::Print(_, _) => false,
        Stmt::Emit(_, _) => false,
        Stmt::Break => false,
        Stmt::Continue => false,
        Stmt::Return(_) => false,
    }
}

#[cycle(statement_declares)]
fn stmts_declare(ss: &[Stmt], k: u32) -> bool
    ensures { result ≡ carried.stmts_declare k (stmts (map resolved_stmt ss.now)) }
{
    for s in ss {
        if stmt_declares(s, k) {
            return true;
        }
    }
    false
}

// ---- the turns of a loop

fn turns_read(c: &Clauses, body: &Stmt, k: u32) -> bool
    ensures { result ≡ carried.turns_read k (resolved_clauses c.now) (resolved_stmt body.now) }
{
    test_reads(&c.test, k) || step_reads(&c.step, k) || stmt_reads(body, k)
}

fn turns_assign(c: &Clauses, body: &Stmt, k: u32) -> bool
    ensures { result ≡ carried.turns_assign k (resolved_clauses c.now) (resolved_stmt body.now) }
{
    step_assigns(&c.step, k) || stmt_assigns(body, k)
}

// ---- the induction local

fn simple_begins(s: &Simple, k: u32) -> bool
    ensures { result ≡ carried.simple_begins k (resolved_simple s.now) }
{
    match s {
        Simple::Declare(word, _) => *word == k,
        Simple::Assign(Assignment::Set(to, _)) => is_to(to, k),
        Simple::Assign(Assignment::Update(_, _, _, _)) => false,
    }
}

fn init_begins(init: &[Simple], k: u32) -> bool
    ensures { result ≡ carried.any_of (carried.simple_begins k) (map resolved_simple init.now) }
{
    for s in init {
        if simple_begins(s, k) {
            return true;
        }
    }
    false
}

/// What the step counts, where it gets its value before the loop and nothing in the body assigns it.
fn induct_of(c: &Clauses, body: &Stmt) -> Option<Induct>
    ensures { result ≡ carried.induct_of (resolved_clauses c.now) (resolved_stmt body.now) }
{
    let counted = c.counts?;
    if init_begins(&c.init, counted.private) && !stmt_assigns(body, counted.private) {
        Some(counted)
    } else {
        None
    }
}

fn is_induct(c: &Clauses, body: &Stmt, k: u32) -> bool
    ensures { result ≡ carried.is_induct (resolved_clauses c.now) (resolved_stmt body.now) k }
{
    match induct_of(c, body) {
        Some(induct) => induct.private == k,
        None => false,
    }
}

// ---- the lists

fn is_carried(c: &Clauses, body: &Stmt, k: u32) -> bool
    ensures { result ≡ carried.is_carried (resolved_clauses c.now) (resolved_stmt body.now) k }
{
    !stmt_declares(body, k) && turns_assign(c, body, k) && !is_induct(c, body, k)
}

fn is_copied(c: &Clauses, body: &Stmt, k: u32) -> bool
    ensures { result ≡ carried.is_copied (resolved_clauses c.now) (resolved_stmt body.now) k }
{
    !stmt_declares(body, k)
        && turns_read(c, body, k)
        && !turns_assign(c, body, k)
        && !is_induct(c, body, k)
}

fn carried_words(
    alloc: Global,
    privates: u32,
    c: &Clauses,
    body: &Stmt,
) -> Result<Vec<u32>, AllocError>
    ensures { IfOk result (λ v. v.items ≡ filter (carried.is_carried (resolved_clauses c.now) (resolved_stmt body.now)) (range_with_len 0 privates)) }
{
    let mut words = Vec::new(alloc);
    for k in 0..privates {
        if is_carried(c, body, k) {
            words.push(k)?;
        }
    }
    Ok(words)
}

fn copied_words(
    alloc: Global,
    privates: u32,
    c: &Clauses,
    body: &Stmt,
) -> Result<Vec<u32>, AllocError>
    ensures { IfOk result (λ v. v.items ≡ filter (carried.is_copied (resolved_clauses c.now) (resolved_stmt body.now)) (range_with_len 0 privates)) }
{
    let mut words = Vec::new(alloc);
    for k in 0..privates {
        if is_copied(c, body, k) {
            words.push(k)?;
        }
    }
    Ok(words)
}

/// The region of a marked loop in a function with so many private words: of these it carries those that the loop's turns
/// assign and don't declare, and copies those that they only read; the induction local, if there is one, is in neither
/// list. `Err` where memory runs out. Loops that carry and copy locals: Hammond, Willey and Olukotun, ASPLOS 1998.
pub fn region_of(
    alloc: Global,
    privates: u32,
    c: &Clauses,
    body: &Stmt,
) -> Result<Region, AllocError>
    ensures { IfOk result (λ r. resolved_region r ≡ carried.region_of privates (resolved_clauses c.now) (resolved_stmt body.now)) }
{
    let carried = carried_words(alloc, privates, c, body)?;
    let copied = copied_words(alloc, privates, c, body)?;
    Ok(Region {
        carried,
        copied,
        induct: induct_of(c, body),
    })
}
