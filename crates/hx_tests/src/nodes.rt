// Nodes that hold a list of nodes, faults and places.

use crate::answers::{expect, is_shown};
use crate::building::listed;
use hx_tree::make::{block, call};
use hx_tree::outcome::FaultKind;
use hx_tree::token::Pos;
use hx_tree::tree::{Expr, Name, Part, Stmt};
use std::alloc::Global;
use std::process::Abort;

// A call with two arguments, of a function without a name.
fn call_of_two(rt: &(impl Abort + Alloc<A = Global>)) -> Expr {
    let arguments = listed(rt, [Expr::Number(7), Expr::Number(8)]);
    let name = Name {
        text: Vec::new(rt.alloc()),
        pos: Pos { line: 1, col: 3 },
    };
    call(name, arguments)
}

// How many arguments a call has.
fn argument_count(made: &Expr) -> usize {
    match made {
        Expr::Call(_, children) => children.len(),
        _ => 0,
    }
}

#[test]
fn calls_keep_their_arguments(rt: HostRuntime) {
    let made = call_of_two(&rt);
    expect(&rt, argument_count(&made) == 2, b"a call of two");
}

// A block of one part.
fn block_of_one(rt: &(impl Abort + Alloc<A = Global>)) -> Stmt {
    block(listed(rt, [Part::Stmt(Stmt::Empty)]))
}

// How many parts a block has.
fn part_count(stmt: &Stmt) -> usize {
    match stmt {
        Stmt::Block(children) => children.len(),
        _ => 0,
    }
}

// How many parts the block has that is the only one of some parts.
fn parts_within(parts: &[Part]) -> usize {
    match parts {
        [Part::Stmt(stmt)] => part_count(stmt),
        _ => 0,
    }
}

#[test]
fn blocks_keep_their_parts(rt: HostRuntime) {
    let parts = listed(&rt, [Part::Stmt(block_of_one(&rt))]);
    expect(&rt, parts_within(parts.as_slice()) == 1, b"a block of one");
}

#[test]
fn faults_and_places_are_shown(rt: HostRuntime) {
    expect(&rt, FaultKind::ZeroDivisor.number() == 1, b"1");
    expect(&rt, FaultKind::IndexOutOfRange.number() == 2, b"2");
    expect(&rt, FaultKind::CallTooDeep.number() == 3, b"3");
    expect(&rt, FaultKind::TextFull.number() == 4, b"4");
    let pos = Pos { line: 3, col: 17 };
    expect(&rt, is_shown(rt.alloc(), &pos, b"3:17"), b"3:17");
}
