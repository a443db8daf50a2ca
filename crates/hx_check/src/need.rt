// How many operands a function holds at once in one call. Every number is told up to `MANY`, which
// stands for that number and all greater ones.

ghost use Rattle.std.specs.Prelude.{◌≡◌, ◌≤◌, ◌+◌, min, max, map, option_map};
ghost use Rattle.hx_tree.specs.Tree.{exprs, parts};
ghost use Rattle.hx_tree.specs.View.{expr_of, place_of, assignment_of, local_of, init_of, for_clauses_of, stmt_of, part_of, func_of};
ghost use Rattle.hx_tree.specs.Height.{if_there};
ghost use Rattle.hx_tree.specs.Need as spec;
ghost use Rattle.hx_check.specs.Reading.{limited};

use crate::error::CheckError;
use hx_tree::limits::OPERAND_LIMIT;
use hx_tree::tree::{
    Assignment, BinaryOp, Expr, ForClauses, Func, Init, LocalDecl, Part, Place, Stmt,
};

/// More operands than a function may hold.
pub const MANY: usize = OPERAND_LIMIT + 1;

#[cycle(expression_need)]
fn need(e: &Expr) -> usize
    ensures { result ≡ min (spec.need (expr_of e.now)) MANY }
{
    match e {
        Expr::Number(_) => 1,
        Expr::Variable(_) => 1,
        Expr::Element(_, index) => need(index),
        Expr::Call(_, arguments) => needs(arguments).max(1),
        Expr::Paren(inner) => need(inner),
        Expr::Unary(_, operand) => need(operand),
        Expr::Binary(BinaryOp::Strict(_), _, left, right) => {
            need(left).max((need(right) + 1).min(MANY))
        }
        Expr::Binary(BinaryOp::And, _, left, right) => need(left).max(need(right)).max(1),
        Expr::Binary(BinaryOp::Or, _, left, right) => need(left).max(need(right)).max(1),
        Expr::Conditional(test, chosen, other) => need(test).max(need(chosen).max(need(other))),
    }
}

/// That of arguments: each stands on those before it.
#[cycle(expression_need)]
fn needs(es: &[Expr]) -> usize
    ensures { result ≡ min (spec.needs (exprs (map expr_of es.now)) 0) MANY }
{
    let mut most: usize = 0;
    let mut before: usize = 0;
    for e in es {
        most = most.max(before.saturating_add(need(e)).min(MANY));
        before += 1;
    }
    most
}

fn value_need(e: &Option<Expr>) -> usize
    ensures { result ≡ min (if_there spec.need (option_map expr_of e.now)) MANY }
{
    match e {
        Some(e) => need(e),
        None => 0,
    }
}

/// That of `p = e`, where e has this need.
fn set_need(p: &Place, right: usize) -> usize
    requires { right ≤ MANY }
    ensures { result ≡ min (spec.set_need (place_of p.now) right) MANY }
{
    match p {
        Place::Variable(_) => right,
        Place::Element(_, index) => need(index).max((right + 1).min(MANY)),
    }
}

/// That of `p += e` and its kin.
fn update_need(p: &Place, right: usize) -> usize
    requires { right ≤ MANY }
    ensures { result ≡ min (spec.update_need (place_of p.now) right) MANY }
{
    match p {
        Place::Variable(_) => (right + 1).min(MANY),
        Place::Element(_, index) => need(index).max((right + 2).min(MANY)),
    }
}

#[tactic(auto, using(crate::proofs::Needs::set_capped, crate::proofs::Needs::update_capped))]
fn assignment_need(a: &Assignment) -> usize
    ensures { result ≡ min (spec.assignment_need (assignment_of a.now)) MANY }
{
    match a {
        Assignment::Set(p, e) => set_need(p, need(e)),
        Assignment::Update(p, _, _, e) => update_need(p, need(e)),
        Assignment::Increment(p) => update_need(p, 1),
        Assignment::Decrement(p) => update_need(p, 1),
    }
}

fn step_need(a: &Option<Assignment>) -> usize
    ensures { result ≡ min (if_there spec.assignment_need (option_map assignment_of a.now)) MANY }
{
    match a {
        Some(a) => assignment_need(a),
        None => 0,
    }
}

fn locals_need(ds: &[LocalDecl]) -> usize
    ensures { result ≡ min (spec.locals_need (map local_of ds.now)) MANY }
{
    let mut most: usize = 0;
    for d in ds {
        most = most.max(value_need(&d.init));
    }
    most
}

fn init_need(i: &Init) -> usize
    ensures { result ≡ min (spec.init_need (init_of i.now)) MANY }
{
    match i {
        Init::Nothing => 0,
        Init::Locals(ds) => locals_need(ds),
        Init::Assign(a) => assignment_need(a),
    }
}

fn clauses_need(head: &ForClauses) -> usize
    ensures { result ≡ min (spec.head_need (for_clauses_of head.now)) MANY }
{
    init_need(&head.init).max(value_need(&head.test).max(step_need(&head.step)))
}

#[cycle(statement_need)]
fn stmt_need(s: &Stmt) -> usize
    ensures { result ≡ min (spec.stmt_need (stmt_of s.now)) MANY }
{
    match s {
        Stmt::Block(ps) => parts_need(ps),
        Stmt::Empty => 0,
        Stmt::Assign(a) => assignment_need(a),
        Stmt::CallStatement(_, arguments) => needs(arguments),
        Stmt::Print(_, e) => need(e),
        Stmt::Emit(_, e) => need(e),
        Stmt::If(test, body) => need(test).max(stmt_need(body)),
        Stmt::IfElse(test, body, other) => need(test).max(stmt_need(body).max(stmt_need(other))),
        Stmt::While(_, test, body) => need(test).max(stmt_need(body)),
        Stmt::DoWhile(body, test) => stmt_need(body).max(need(test)),
        Stmt::For(_, head, body) => clauses_need(head).max(stmt_need(body)),
        Stmt::Break(_) => 0,
        Stmt::Continue(_) => 0,
        Stmt::Return(_, e) => value_need(e),
    }
}

#[cycle(statement_need)]
fn part_need(p: &Part) -> usize
    ensures { result ≡ min (spec.part_need (part_of p.now)) MANY }
{
    match p {
        Part::Locals(ds) => locals_need(ds),
        Part::Stmt(s) => stmt_need(s),
    }
}

#[cycle(statement_need)]
fn parts_need(ps: &[Part]) -> usize
    ensures { result ≡ min (spec.parts_need (parts (map part_of ps.now))) MANY }
{
    let mut most: usize = 0;
    for p in ps {
        most = most.max(part_need(p));
    }
    most
}

/// The operand need of a function: 26 where it passes the limit.
pub(crate) fn function_need(f: &Func) -> Result<u32, CheckError>
    ensures { result ≡ limited (spec.function_need (func_of f.now)) OPERAND_LIMIT (CheckError.LimitPassed f.now.name.pos) }
{
    let need = parts_need(&f.body).max(1);
    if need > OPERAND_LIMIT {
        return Err(CheckError::LimitPassed(f.name.pos));
    }
    Ok(need as u32)
}
