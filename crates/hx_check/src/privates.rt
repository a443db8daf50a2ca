// How many private words a function has: its parameters and its locals. Every number is told up to
// `MANY`, which stands for that number and all greater ones.

ghost use Rattle.std.specs.Prelude.{◌≡◌, ◌+◌, min, map};
ghost use Rattle.hx_tree.specs.Tree.{parts};
ghost use Rattle.hx_tree.specs.View.{init_of, stmt_of, part_of, func_of};
ghost use Rattle.hx_tree.specs.Accepted as spec;
ghost use Rattle.hx_check.specs.Reading.{limited};

use crate::declare::param_names;
use crate::error::CheckError;
use hx_tree::limits::PRIVATE_LIMIT;
use hx_tree::tree::{Func, Init, Part, Stmt};

/// More private words than a function may have.
const MANY: usize = PRIVATE_LIMIT + 1;

fn init_locals(i: &Init) -> usize
    ensures { result ≡ min (spec.init_locals (init_of i.now)) MANY }
{
    match i {
        Init::Nothing => 0,
        Init::Locals(ds) => ds.len().min(MANY),
        Init::Assign(_) => 0,
    }
}

#[cycle(statement_locals)]
fn stmt_locals(s: &Stmt) -> usize
    ensures { result ≡ min (spec.stmt_locals (stmt_of s.now)) MANY }
{
    match s {
        Stmt::Block(ps) => parts_locals(ps),
        Stmt::If(_, body) => stmt_locals(body),
        Stmt::IfElse(_, body, other) => (stmt_locals(body) + stmt_locals(other)).min(MANY),
        Stmt::While(_, _, body) => stmt_locals(body),
        Stmt::DoWhile(body, _) => stmt_locals(body),
        Stmt::For(_, head, body) => (init_locals(&head.init) + stmt_locals(body)).min(MANY),
        _ => 0,
    }
}

#[cycle(statement_locals)]
fn part_locals(p: &Part) -> usize
    ensures { result ≡ min (spec.part_locals (part_of p.now)) MANY }
{
    match p {
        Part::Locals(ds) => ds.len().min(MANY),
        Part::Stmt(s) => stmt_locals(s),
    }
}

#[cycle(statement_locals)]
fn parts_locals(ps: &[Part]) -> usize
    ensures { result ≡ min (spec.parts_locals (parts (map part_of ps.now))) MANY }
{
    let mut all: usize = 0;
    for p in ps {
        all = (all + part_locals(p)).min(MANY);
    }
    all
}

/// The private words of a function: 26 where they pass the limit.
pub(crate) fn private_words(f: &Func) -> Result<u32, CheckError>
    ensures { result ≡ limited (spec.private_words (func_of f.now)) PRIVATE_LIMIT (CheckError.LimitPassed f.now.name.pos) }
{
    let all = param_names(&f.params).len().min(MANY) + parts_locals(&f.body);
    if all > PRIVATE_LIMIT {
        return Err(CheckError::LimitPassed(f.name.pos));
    }
    Ok(all as u32)
}
