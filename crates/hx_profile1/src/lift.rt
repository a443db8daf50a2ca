// The program of today that a program of profile 1 is, node by node.

ghost use Rattle.std.specs.Prelude.{◌≡◌, ◌∷◌, [], ◌++◌, Ok, IfOk, OnOk, IsOkAnd, map, option_map};
ghost use Rattle.hx_tree.specs.Tree as new;
ghost use Rattle.hx_tree.specs.View as made;
ghost use Rattle.hx_profile1.specs.Tree as old;
ghost use Rattle.hx_profile1.specs.View as given;
ghost use Rattle.hx_profile1.specs.Lifted.{lift_expr, lift_exprs, lift_local, lift_place, lift_assignment, lift_init, lift_clauses, lift_stmt, lift_part, lift_func, lift_item, lifted};
ghost use Rattle.hx_profile1.specs.Promises.{KeepsAcceptance, KeepsInputs, KeepsMeaning, KeepsSources};

use crate::p1;
use hx_tree::make::{block, call};
use hx_tree::tree::{
    Assignment, Expr, ForClauses, Func, Init, Item, LocalDecl, Part, Place, Program, Stmt,
};
use std::alloc::{AllocError, Global};

// Both values, or the error of one that is missing. What came with the other's error is dropped here, so that a caller holds nothing that it
// would have to drop where it leaves early: that is what takes the prover long in a function that leaves early at many places.
fn both<T: Drop, U: Drop>(
    first: Result<T, AllocError>,
    second: Result<U, AllocError>,
) -> Result<(T, U), AllocError>
    ensures { IfOk result (λ both. (first ≡ Ok both.0) × (second ≡ Ok both.1)) }
{
    Ok((first?, second?))
}

// A value in a box, or the error in its place, or that of no memory for the box.
fn boxed<T: Drop>(alloc: Global, value: Result<T, AllocError>) -> Result<Box<T>, AllocError>
    ensures { IfOk result (λ r. value ≡ Ok r.value) }
{
    Ok(Box::new(alloc, value?)?)
}

// Adds a value to a list, or gives the error in its place, or that of no memory for it.
fn add<T: Drop>(all: &mut Vec<T>, value: Result<T, AllocError>) -> Result<(), AllocError>
    ensures { OnOk result (IsOkAnd value (λ v. all.new.items ≡ all.old.items ++ (v ∷ []))) }
{
    all.push(value?)?;
    Ok(())
}

#[cycle(expressions)]
fn expression(alloc: Global, e: p1::Expr) -> Result<Expr, AllocError>
    ensures { IfOk result (λ r. made.expr_of r ≡ lift_expr (given.expr_of e)) }
{
    match e {
        p1::Expr::Number(number) => Ok(Expr::Number(number)),
        p1::Expr::Variable(x) => Ok(Expr::Variable(x)),
        p1::Expr::Element(x, index) => Ok(Expr::Element(x, boxed_expression(alloc, index)?)),
        p1::Expr::Call(f, args) => Ok(call(f, arguments(alloc, args)?)),
        p1::Expr::Paren(inner) => Ok(Expr::Paren(boxed_expression(alloc, inner)?)),
        p1::Expr::Unary(op, operand) => Ok(Expr::Unary(op, boxed_expression(alloc, operand)?)),
        p1::Expr::Binary(op, pos, left, right) => {
            let left = boxed_expression(alloc, left)?;
            let right = boxed_expression(alloc, right)?;
            Ok(Expr::Binary(op, pos, left, right))
        }
    }
}

#[cycle(expressions)]
fn boxed_expression(alloc: Global, e: Box<p1::Expr>) -> Result<Box<Expr>, AllocError>
    ensures { IfOk result (λ r. made.expr_of r.value ≡ lift_expr (given.expr_of e.value)) }
{
    boxed(alloc, expression(alloc, Box::into_inner(e)))
}

#[cycle(expressions)]
fn arguments(alloc: Global, es: Vec<p1::Expr>) -> Result<Vec<Expr>, AllocError>
    ensures { IfOk result (λ r. map made.expr_of r.items ≡ map lift_expr (map given.expr_of es.items)) }
{
    let mut all = Vec::new(alloc);
    for e in es {
        add(&mut all, expression(alloc, e))?;
    }
    Ok(all)
}

// An expression that may be absent.
fn if_there(alloc: Global, e: Option<p1::Expr>) -> Result<Option<Expr>, AllocError>
    ensures { IfOk result (λ r. option_map made.expr_of r ≡ option_map lift_expr (option_map given.expr_of e)) }
{
    match e {
        None => Ok(None),
        Some(e) => Ok(Some(expression(alloc, e)?)),
    }
}

fn place(alloc: Global, p: p1::Place) -> Result<Place, AllocError>
    ensures { IfOk result (λ r. made.place_of r ≡ lift_place (given.place_of p)) }
{
    match p {
        p1::Place::Variable(x) => Ok(Place::Variable(x)),
        p1::Place::Element(x, index) => Ok(Place::Element(x, expression(alloc, index)?)),
    }
}

fn assignment(alloc: Global, a: p1::Assignment) -> Result<Assignment, AllocError>
    ensures { IfOk result (λ r. made.assignment_of r ≡ lift_assignment (given.assignment_of a)) }
{
    match a {
        p1::Assignment::Set(p, e) => {
            let (p, e) = both(place(alloc, p), expression(alloc, e))?;
            Ok(Assignment::Set(p, e))
        }
        p1::Assignment::Update(p, op, pos, e) => {
            let (p, e) = both(place(alloc, p), expression(alloc, e))?;
            Ok(Assignment::Update(p, op, pos, e))
        }
        p1::Assignment::Increment(p) => Ok(Assignment::Increment(place(alloc, p)?)),
        p1::Assignment::Decrement(p) => Ok(Assignment::Decrement(place(alloc, p)?)),
    }
}

fn local(alloc: Global, d: p1::LocalDecl) -> Result<LocalDecl, AllocError>
    ensures { IfOk result (λ r. made.local_of r ≡ lift_local (given.local_of d)) }
{
    let init = if_there(alloc, d.init)?;
    Ok(LocalDecl { name: d.name, init })
}

fn locals(alloc: Global, ds: Vec<p1::LocalDecl>) -> Result<Vec<LocalDecl>, AllocError>
    ensures { IfOk result (λ r. map made.local_of r.items ≡ map lift_local (map given.local_of ds.items)) }
{
    let mut all = Vec::new(alloc);
    for d in ds {
        add(&mut all, local(alloc, d))?;
    }
    Ok(all)
}

fn init(alloc: Global, i: p1::Init) -> Result<Init, AllocError>
    ensures { IfOk result (λ r. made.init_of r ≡ lift_init (given.init_of i)) }
{
    match i {
        p1::Init::Nothing => Ok(Init::Nothing),
        p1::Init::Locals(ds) => Ok(Init::Locals(locals(alloc, ds)?)),
        p1::Init::Assign(a) => Ok(Init::Assign(assignment(alloc, a)?)),
    }
}

// The step of a `for`, which may be absent.
fn step(alloc: Global, a: Option<p1::Assignment>) -> Result<Option<Assignment>, AllocError>
    ensures { IfOk result (λ r. option_map made.assignment_of r ≡ option_map lift_assignment (option_map given.assignment_of a)) }
{
    match a {
        None => Ok(None),
        Some(a) => Ok(Some(assignment(alloc, a)?)),
    }
}

fn clauses(alloc: Global, h: p1::ForClauses) -> Result<ForClauses, AllocError>
    ensures { IfOk result (λ r. made.for_clauses_of r ≡ lift_clauses (given.for_clauses_of h)) }
{
    let test_and_step = both(if_there(alloc, h.test), step(alloc, h.step));
    let (init, (test, step)) = both(init(alloc, h.init), test_and_step)?;
    Ok(ForClauses { init, test, step })
}

// The test of an `if` or a `while` and what stands behind it. This and the next two are `both` at one pair of types each, where `statement`
// calls it: a function with no type parameters takes the prover less time to call.
fn test_and_body(
    test: Result<Expr, AllocError>,
    s: Result<Box<Stmt>, AllocError>,
) -> Result<(Expr, Box<Stmt>), AllocError>
    ensures { IfOk result (λ both. (test ≡ Ok both.0) × (s ≡ Ok both.1)) }
{
    both(test, s)
}

// The same with what stands behind the `else`.
fn with_other(
    test_and_body: Result<(Expr, Box<Stmt>), AllocError>,
    other: Result<Box<Stmt>, AllocError>,
) -> Result<((Expr, Box<Stmt>), Box<Stmt>), AllocError>
    ensures { IfOk result (λ both. (test_and_body ≡ Ok both.0) × (other ≡ Ok both.1)) }
{
    both(test_and_body, other)
}

// The clauses of a `for` and what stands behind them.
fn clauses_and_body(
    head: Result<ForClauses, AllocError>,
    s: Result<Box<Stmt>, AllocError>,
) -> Result<(ForClauses, Box<Stmt>), AllocError>
    ensures { IfOk result (λ both. (head ≡ Ok both.0) × (s ≡ Ok both.1)) }
{
    both(head, s)
}

#[cycle(statements)]
fn statement(alloc: Global, s: p1::Stmt) -> Result<Stmt, AllocError>
    ensures { IfOk result (λ r. made.stmt_of r ≡ lift_stmt (given.stmt_of s)) }
{
    match s {
        p1::Stmt::Block(ps) => Ok(block(parts(alloc, ps)?)),
        p1::Stmt::Empty => Ok(Stmt::Empty),
        p1::Stmt::Assign(a) => Ok(Stmt::Assign(assignment(alloc, a)?)),
        p1::Stmt::CallStatement(f, es) => Ok(Stmt::CallStatement(f, arguments(alloc, es)?)),
        p1::Stmt::Print(pos, e) => Ok(Stmt::Print(pos, expression(alloc, e)?)),
        p1::Stmt::Emit(pos, e) => Ok(Stmt::Emit(pos, expression(alloc, e)?)),
        p1::Stmt::If(test, s) => {
            let (test, s) = test_and_body(expression(alloc, test), boxed_statement(alloc, s))?;
            Ok(Stmt::If(test, s))
        }
        p1::Stmt::IfElse(test, s, other) => {
            let test_and_body = test_and_body(expression(alloc, test), boxed_statement(alloc, s));
            let ((test, s), other) = with_other(test_and_body, boxed_statement(alloc, other))?;
            Ok(Stmt::IfElse(test, s, other))
        }
        p1::Stmt::While(marked, test, s) => {
            let (test, s) = test_and_body(expression(alloc, test), boxed_statement(alloc, s))?;
            Ok(Stmt::While(marked, test, s))
        }
        p1::Stmt::For(marked, head, s) => {
            let (head, s) = clauses_and_body(clauses(alloc, head), boxed_statement(alloc, s))?;
            Ok(Stmt::For(marked, head, s))
        }
        p1::Stmt::Break(pos) => Ok(Stmt::Break(pos)),
        p1::Stmt::Continue(pos) => Ok(Stmt::Continue(pos)),
        p1::Stmt::Return(pos, e) => Ok(Stmt::Return(pos, if_there(alloc, e)?)),
    }
}

#[cycle(statements)]
fn boxed_statement(alloc: Global, s: Box<p1::Stmt>) -> Result<Box<Stmt>, AllocError>
    ensures { IfOk result (λ r. made.stmt_of r.value ≡ lift_stmt (given.stmt_of s.value)) }
{
    boxed(alloc, statement(alloc, Box::into_inner(s)))
}

// The errors are handed on without `?`, whose calls at types as large as these take the prover three times as long.
#[cycle(statements)]
fn part(alloc: Global, p: p1::Part) -> Result<Part, AllocError>
    ensures { IfOk result (λ r. made.part_of r ≡ lift_part (given.part_of p)) }
{
    match p {
        p1::Part::Locals(ds) => match locals(alloc, ds) {
            Ok(ds) => Ok(Part::Locals(ds)),
            Err(error) => Err(error),
        },
        p1::Part::Stmt(s) => match statement(alloc, s) {
            Ok(s) => Ok(Part::Stmt(s)),
            Err(error) => Err(error),
        },
    }
}

#[cycle(statements)]
fn parts(alloc: Global, ps: Vec<p1::Part>) -> Result<Vec<Part>, AllocError>
    ensures { IfOk result (λ r. map made.part_of r.items ≡ map lift_part (map given.part_of ps.items)) }
{
    let mut all = Vec::new(alloc);
    for p in ps {
        add(&mut all, part(alloc, p))?;
    }
    Ok(all)
}

fn function(alloc: Global, f: p1::Func) -> Result<Func, AllocError>
    ensures { IfOk result (λ r. made.func_of r ≡ lift_func (given.func_of f)) }
{
    let body = parts(alloc, f.body)?;
    Ok(Func {
        returns: f.returns,
        name: f.name,
        params: f.params,
        body,
    })
}

fn item(alloc: Global, i: p1::Item) -> Result<Item, AllocError>
    ensures { IfOk result (λ r. made.item_of r ≡ lift_item (given.item_of i)) }
{
    match i {
        p1::Item::Globals(gs) => Ok(Item::Globals(gs)),
        p1::Item::Function(f) => Ok(Item::Function(function(alloc, f)?)),
    }
}

fn items(alloc: Global, is: Vec<p1::Item>) -> Result<Vec<Item>, AllocError>
    ensures { IfOk result (λ r. map made.item_of r.items ≡ map lift_item (map given.item_of is.items)) }
{
    let mut all = Vec::new(alloc);
    for i in is {
        add(&mut all, item(alloc, i))?;
    }
    Ok(all)
}

/// The program of today that a program of profile 1 is: each node is the one of the same name. It is accepted where the old one is, takes
/// the same inputs, and comes to the same with each, in as many turns; and what is a source of the old one without a name `do` is a source
/// of it. An error means that memory was refused.
pub fn from_profile1(alloc: Global, program: p1::Program) -> Result<Program, AllocError>
    ensures same_nodes { IfOk result (λ made_program. made.program_of made_program ≡ lifted (given.program_of program)) }
    ensures accepted { IfOk result (λ made_program. KeepsAcceptance (given.program_of program) (made.program_of made_program)) }
    ensures inputs { IfOk result (λ made_program. KeepsInputs (given.program_of program) (made.program_of made_program)) }
    ensures meaning { IfOk result (λ made_program. KeepsMeaning (given.program_of program) (made.program_of made_program)) }
    ensures sources { IfOk result (λ made_program. KeepsSources (given.program_of program) (made.program_of made_program)) }
{
    let items = items(alloc, program.items)?;
    Ok(Program { items })
}
