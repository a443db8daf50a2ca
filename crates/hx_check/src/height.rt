// Whether a tree is low enough. No walk goes deeper than the room that it is given.

ghost use Rattle.std.specs.Prelude.{◌≡◌, ◌≤◌, ◌<◌, ◌↔◌, IsTrue, map, option_map};
ghost use Rattle.hx_tree.specs.Tree.{exprs, parts};
ghost use Rattle.hx_tree.specs.View.{expr_of, place_of, assignment_of, local_of, init_of, for_clauses_of, stmt_of, part_of, item_of, program_of};
ghost use Rattle.hx_tree.specs.Height as spec;
ghost use Rattle.hx_check.specs.Measures.{greatest_value};

use hx_tree::tree::{
    Assignment, Expr, ForClauses, Init, Item, LocalDecl, Part, Place, Program, Stmt,
};

#[cycle(expression_height)]
fn expr_fits(e: &Expr, room: u32) -> bool
    ensures { IsTrue result ↔ spec.height (expr_of e.now) ≤ room }
{
    if room == 0 {
        return false;
    }
    let below = room - 1;
    match e {
        Expr::Number(_) => true,
        Expr::Variable(_) => true,
        Expr::Element(_, index) => expr_fits(index, below),
        Expr::Call(_, arguments) => exprs_fit(arguments, below),
        Expr::Paren(inner) => expr_fits(inner, below),
        Expr::Unary(_, operand) => expr_fits(operand, below),
        Expr::Binary(_, _, left, right) => expr_fits(left, below) && expr_fits(right, below),
        Expr::Conditional(test, chosen, other) => {
            expr_fits(test, below) && expr_fits(chosen, below) && expr_fits(other, below)
        }
    }
}

#[cycle(expression_height)]
fn exprs_fit(es: &[Expr], room: u32) -> bool
    ensures { IsTrue result ↔ spec.heights (exprs (map expr_of es.now)) ≤ room }
{
    for e in es {
        if !expr_fits(e, room) {
            return false;
        }
    }
    true
}

fn value_fits(e: &Option<Expr>, room: u32) -> bool
    ensures { IsTrue result ↔ spec.if_there spec.height (option_map expr_of e.now) ≤ room }
{
    match e {
        Some(e) => expr_fits(e, room),
        None => true,
    }
}

fn place_fits(p: &Place, room: u32) -> bool
    ensures { IsTrue result ↔ spec.place_height (place_of p.now) ≤ room }
{
    match p {
        Place::Variable(_) => true,
        Place::Element(_, index) => expr_fits(index, room),
    }
}

fn assignment_fits(a: &Assignment, room: u32) -> bool
    ensures { IsTrue result ↔ spec.assignment_height (assignment_of a.now) ≤ room }
{
    if room == 0 {
        return false;
    }
    let below = room - 1;
    match a {
        Assignment::Set(p, e) => place_fits(p, below) && expr_fits(e, below),
        Assignment::Update(p, _, _, e) => place_fits(p, below) && expr_fits(e, below),
        Assignment::Increment(p) => place_fits(p, below),
        Assignment::Decrement(p) => place_fits(p, below),
    }
}

fn step_fits(a: &Option<Assignment>, room: u32) -> bool
    ensures { IsTrue result ↔ spec.if_there spec.assignment_height (option_map assignment_of a.now) ≤ room }
{
    match a {
        Some(a) => assignment_fits(a, room),
        None => true,
    }
}

fn values_fit(ds: &[LocalDecl], room: u32) -> bool
    ensures { IsTrue result ↔ greatest_value (map local_of ds.now) ≤ room }
{
    for d in ds {
        if !value_fits(&d.init, room) {
            return false;
        }
    }
    true
}

fn locals_fit(ds: &[LocalDecl], room: u32) -> bool
    ensures { IsTrue result ↔ spec.locals_height (map local_of ds.now) ≤ room }
{
    room > 0 && values_fit(ds, room - 1)
}

fn init_fits(i: &Init, room: u32) -> bool
    ensures { IsTrue result ↔ spec.init_height (init_of i.now) ≤ room }
{
    match i {
        Init::Nothing => true,
        Init::Locals(ds) => locals_fit(ds, room),
        Init::Assign(a) => assignment_fits(a, room),
    }
}

fn clauses_fit(head: &ForClauses, room: u32) -> bool
    ensures { IsTrue result ↔ spec.head_height (for_clauses_of head.now) ≤ room }
{
    init_fits(&head.init, room) && value_fits(&head.test, room) && step_fits(&head.step, room)
}

#[cycle(statement_height)]
fn stmt_fits(s: &Stmt, room: u32) -> bool
    ensures { IsTrue result ↔ spec.stmt_height (stmt_of s.now) ≤ room }
{
    if room == 0 {
        return false;
    }
    let below = room - 1;
    match s {
        Stmt::Block(ps) => parts_fit(ps, below),
        Stmt::Empty => true,
        Stmt::Assign(a) => assignment_fits(a, below),
        Stmt::CallStatement(_, arguments) => exprs_fit(arguments, below),
        Stmt::Print(_, e) => expr_fits(e, below),
        Stmt::Emit(_, e) => expr_fits(e, below),
        Stmt::If(test, body) => expr_fits(test, below) && stmt_fits(body, below),
        Stmt::IfElse(test, body, other) => {
            expr_fits(test, below) && stmt_fits(body, below) && stmt_fits(other, below)
        }
        Stmt::While(_, test, body) => expr_fits(test, below) && stmt_fits(body, below),
        Stmt::DoWhile(body, test) => stmt_fits(body, below) && expr_fits(test, below),
        Stmt::For(_, head, body) => clauses_fit(head, below) && stmt_fits(body, below),
        Stmt::Break(_) => true,
        Stmt::Continue(_) => true,
        Stmt::Return(_, e) => value_fits(e, below),
    }
}

#[cycle(statement_height)]
fn part_fits(p: &Part, room: u32) -> bool
    ensures { IsTrue result ↔ spec.part_height (part_of p.now) ≤ room }
{
    match p {
        Part::Locals(ds) => locals_fit(ds, room),
        Part::Stmt(s) => stmt_fits(s, room),
    }
}

#[cycle(statement_height)]
fn parts_fit(ps: &[Part], room: u32) -> bool
    ensures { IsTrue result ↔ spec.parts_height (parts (map part_of ps.now)) ≤ room }
{
    for p in ps {
        if !part_fits(p, room) {
            return false;
        }
    }
    true
}

fn item_fits(item: &Item, room: u32) -> bool
    ensures { IsTrue result ↔ spec.item_height (item_of item.now) ≤ room }
{
    match item {
        Item::Globals(_) => room >= 1,
        Item::Function(f) => room >= 2 && parts_fit(&f.body, room - 2),
    }
}

fn items_fit(items: &[Item], room: u32) -> bool
    ensures { IsTrue result ↔ spec.greatest spec.item_height (map item_of items.now) ≤ room }
{
    for item in items {
        if !item_fits(item, room) {
            return false;
        }
    }
    true
}

/// Whether the tree of a program is no higher than this.
pub(crate) fn program_fits(program: &Program, room: u32) -> bool
    ensures { IsTrue result ↔ spec.program_height (program_of program.now) ≤ room }
{
    room > 0 && items_fit(&program.items, room - 1)
}
