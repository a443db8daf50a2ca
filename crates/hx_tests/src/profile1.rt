// A program of profile 1 that is made into one of today.

use crate::answers::expect;
use crate::building::{boxed, copied, listed};
use hx_profile1::{from_profile1, p1};
use hx_tree::token::Pos;
use hx_tree::tree::{
    Assignment, BinaryOp, Expr, Func, GlobalDecl, Item, Name, Operator, Params, Part, Place,
    Program, Returns, Shape, Stmt,
};
use std::alloc::Global;
use std::process::Abort;

fn at(col: u32) -> Pos {
    Pos { line: 1, col }
}

fn name(rt: &(impl Abort + Alloc<A = Global>), text: &[u8], col: u32) -> Name {
    Name {
        text: copied(rt, text),
        pos: at(col),
    }
}

fn counter(rt: &(impl Abort + Alloc<A = Global>), col: u32) -> p1::Expr {
    p1::Expr::Variable(name(rt, b"i", col))
}

// `i=0`
fn declared(rt: &(impl Abort + Alloc<A = Global>)) -> p1::LocalDecl {
    p1::LocalDecl {
        name: name(rt, b"i", 32),
        init: Some(p1::Expr::Number(0)),
    }
}

// `i<8`
fn below(rt: &(impl Abort + Alloc<A = Global>)) -> p1::Expr {
    p1::Expr::Binary(
        BinaryOp::Strict(Operator::Less),
        at(37),
        boxed(rt, counter(rt, 36)),
        boxed(rt, p1::Expr::Number(8)),
    )
}

// `int i=0;i<8;i++`
fn clauses(rt: &(impl Abort + Alloc<A = Global>)) -> p1::ForClauses {
    let counted = p1::Place::Variable(name(rt, b"i", 40));
    p1::ForClauses {
        init: p1::Init::Locals(listed(rt, [declared(rt)])),
        test: Some(below(rt)),
        step: Some(p1::Assignment::Increment(counted)),
    }
}

// `i*i`
fn square(rt: &(impl Abort + Alloc<A = Global>)) -> p1::Expr {
    p1::Expr::Binary(
        BinaryOp::Strict(Operator::Mul),
        at(51),
        boxed(rt, counter(rt, 50)),
        boxed(rt, counter(rt, 52)),
    )
}

// `a[i]=i*i;`
fn squared(rt: &(impl Abort + Alloc<A = Global>)) -> p1::Stmt {
    let place = p1::Place::Element(name(rt, b"a", 45), counter(rt, 47));
    p1::Stmt::Assign(p1::Assignment::Set(place, square(rt)))
}

// `pfor(int i=0;i<8;i++) a[i]=i*i;`
fn squaring(rt: &(impl Abort + Alloc<A = Global>)) -> p1::Part {
    let body = boxed(rt, squared(rt));
    p1::Part::Stmt(p1::Stmt::For(true, clauses(rt), body))
}

// `print(a[7]);`
fn printing(rt: &(impl Abort + Alloc<A = Global>)) -> p1::Part {
    let last = boxed(rt, p1::Expr::Number(7));
    let printed = p1::Expr::Element(name(rt, b"a", 61), last);
    p1::Part::Stmt(p1::Stmt::Print(at(55), printed))
}

// `int main(){ pfor(int i=0;i<8;i++) a[i]=i*i; print(a[7]); }`
fn main(rt: &(impl Abort + Alloc<A = Global>)) -> p1::Func {
    p1::Func {
        returns: Returns::Int,
        name: name(rt, b"main", 15),
        params: Params::Nothing,
        body: listed(rt, [squaring(rt), printing(rt)]),
    }
}

// `int a[8];`
fn words(rt: &(impl Abort + Alloc<A = Global>)) -> p1::Item {
    let array = GlobalDecl {
        name: name(rt, b"a", 5),
        shape: Shape::Array(8, Vec::new(rt.alloc())),
    };
    p1::Item::Globals(listed(rt, [array]))
}

// `int a[8]; int main(){ pfor(int i=0;i<8;i++) a[i]=i*i; print(a[7]); }`
fn squares(rt: &(impl Abort + Alloc<A = Global>)) -> p1::Program {
    p1::Program {
        items: listed(rt, [words(rt), p1::Item::Function(main(rt))]),
    }
}

// `a[i]=i*i`
fn is_squared(a: &Assignment) -> bool {
    match a {
        Assignment::Set(Place::Element(a, _), Expr::Binary(op, pos, _, _)) => {
            a.text.as_slice() == b"a".as_slice()
                && *op == BinaryOp::Strict(Operator::Mul)
                && *pos == at(51)
        }
        _ => false,
    }
}

// The loop that assigns the squares: whether it is marked.
fn marks(s: &Stmt) -> Option<bool> {
    match s {
        Stmt::For(marked, _, body) => match &**body {
            Stmt::Assign(a) if is_squared(a) => Some(*marked),
            _ => None,
        },
        _ => None,
    }
}

fn marks_in(f: &Func) -> Option<bool> {
    match f.body.first() {
        Some(Part::Stmt(s)) => marks(s),
        _ => None,
    }
}

fn marks_of(program: &Program) -> Option<bool> {
    match program.items.last() {
        Some(Item::Function(f)) => marks_in(f),
        _ => None,
    }
}

fn is_made(program: &Program) -> bool {
    program.items.len() == 2 && marks_of(program) == Some(true)
}

// Whether the program is made into one of today.
fn makes_squares(rt: &(impl Abort + Alloc<A = Global>)) -> bool {
    match from_profile1(rt.alloc(), squares(rt)) {
        Ok(made) => is_made(&made),
        Err(_) => false,
    }
}

#[test]
fn makes_a_program_of_today(rt: HostRuntime) {
    expect(&rt, makes_squares(&rt), b"squares");
}
