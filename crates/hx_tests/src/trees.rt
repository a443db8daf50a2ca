// Trees that no source spells, and the texts of the checker's refusals.

use crate::answers::{expect, is_shown};
use crate::building::{boxed, copied, listed};
use hx_check::check::check;
use hx_check::checked::Checked;
use hx_check::error::CheckError;
use hx_tree::token::Pos;
use hx_tree::tree::{Expr, Func, Item, Name, Params, Part, Program, Returns, Stmt};
use std::alloc::Global;
use std::process::Abort;

const POS: Pos = Pos { line: 1, col: 1 };

// 1 in so many pairs of parentheses.
fn in_parentheses(rt: &(impl Abort + Alloc<A = Global>), pairs: usize) -> Expr {
    let mut inner = Expr::Number(1);
    for _ in 0..pairs {
        inner = Expr::Paren(boxed(rt, inner));
    }
    inner
}

// `int main(){ print(E); }` with 1 in so many pairs of parentheses as E.
fn printing_in_parentheses(rt: &(impl Abort + Alloc<A = Global>), pairs: usize) -> Program {
    let printed = Part::Stmt(Stmt::Print(POS, in_parentheses(rt, pairs)));
    let text = copied(rt, b"main");
    let main = Item::Function(Func {
        returns: Returns::Int,
        name: Name { text, pos: POS },
        params: Params::Nothing,
        body: listed(rt, [printed]),
    });
    Program {
        items: listed(rt, [main]),
    }
}

// Whether an accepted program is still one `main`.
fn is_main_alone(checked: &Checked) -> bool {
    checked.program().main == 0 && checked.tree().items.len() == 1
}

// Whether so many pairs are accepted as what they are, or why they are refused.
fn verdict(rt: &(impl Abort + Alloc<A = Global>), pairs: usize) -> Result<bool, CheckError> {
    match check(rt.alloc(), printing_in_parentheses(rt, pairs)) {
        Ok(checked) => Ok(is_main_alone(&checked)),
        Err(e) => Err(e),
    }
}

// A tree of height 200 is accepted, and one of 201 isn't.
#[test]
fn height(rt: HostRuntime) {
    expect(&rt, verdict(&rt, 195) == Ok(true), b"195 pairs");
    let refused = Err(CheckError::TooLarge);
    expect(&rt, verdict(&rt, 196) == refused, b"196 pairs");
}

fn tells(alloc: Global, e: CheckError, text: &[u8], number: u32, place: Option<Pos>) -> bool {
    e.number() == number && e.pos() == place && is_shown(alloc, &e, text)
}

const PLACE: Pos = Pos { line: 3, col: 14 };

static REFUSALS: [(CheckError, &[u8], u32, Option<Pos>); 9] = [
    (
        CheckError::UnknownName(PLACE),
        b"refused 20 at 3:14",
        20,
        Some(PLACE),
    ),
    (
        CheckError::DoubledName(PLACE),
        b"refused 21 at 3:14",
        21,
        Some(PLACE),
    ),
    (
        CheckError::WrongKind(PLACE),
        b"refused 22 at 3:14",
        22,
        Some(PLACE),
    ),
    (
        CheckError::WrongCount(PLACE),
        b"refused 23 at 3:14",
        23,
        Some(PLACE),
    ),
    (
        CheckError::OutsideLoop(PLACE),
        b"refused 24 at 3:14",
        24,
        Some(PLACE),
    ),
    (CheckError::NoMain, b"refused 25", 25, None),
    (
        CheckError::LimitPassed(PLACE),
        b"refused 26 at 3:14",
        26,
        Some(PLACE),
    ),
    (CheckError::TooLarge, b"refused 26", 26, None),
    (CheckError::Memory, b"refused 27", 27, None),
];

#[test]
fn tells_refusals(rt: HostRuntime) {
    for (e, text, number, place) in &REFUSALS {
        expect(&rt, tells(rt.alloc(), *e, text, *number, *place), text);
    }
}
