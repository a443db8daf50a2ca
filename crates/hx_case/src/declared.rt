// What a program declares.

ghost use Rattle.std.specs.Prelude.{◌≡◌, flat_map, map, option_map};
ghost use Rattle.hx_tree.specs.View.{global_of, item_of, program_of, shape_of};
ghost use Rattle.hx_case.specs.Known.{known_of};
ghost use Rattle.hx_case.specs.Names.{declares, length_of, named};
ghost use Rattle.hx_case.specs.Names.{Global as GlobalName};

use hx_tree::token::Pos;
use hx_tree::tree::{
    Func, GlobalDecl, Init, Item, LocalDecl, Name, Params, Part, Program, Shape, Stmt,
};

/// A name of a program that stands for something everywhere.
#[derive(Clone, Copy)]
pub(crate) enum Known<'p> {
    Global(&'p GlobalDecl),
    Function(&'p Func),
}

/// Whether a place stands before another.
pub(crate) fn is_before(first: Pos, second: Pos) -> bool {
    first.line < second.line || (first.line == second.line && first.col < second.col)
}

/// The parameters of a function.
pub(crate) fn parameters(f: &Func) -> &[Name] {
    match &f.params {
        Params::Nothing => &[],
        Params::Void => &[],
        Params::Names(names) => names.as_slice(),
    }
}

fn known_among<'p>(globals: &'p [GlobalDecl], name: &[u8]) -> Option<Known<'p>>
    ensures { option_map known_of result ≡ named name.now (map GlobalName (map global_of globals.now)) }
{
    for global in globals {
        if global.name.text.as_slice() == name {
            return Some(Known::Global(global));
        }
    }
    None
}

fn known_in<'p>(item: &'p Item, name: &[u8]) -> Option<Known<'p>>
    ensures { option_map known_of result ≡ named name.now (declares (item_of item.now)) }
{
    match item {
        Item::Globals(globals) => known_among(globals.as_slice(), name),
        Item::Function(f) => {
            if f.name.text.as_slice() == name {
                Some(Known::Function(f))
            } else {
                None
            }
        }
    }
}

/// What is declared first by this name outside functions.
pub(crate) fn declared_as<'p>(program: &'p Program, name: &[u8]) -> Option<Known<'p>>
    ensures { option_map known_of result ≡ named name.now (flat_map declares (program_of program.now).items) }
{
    for item in &program.items {
        let found = known_in(item, name);
        if found.is_some() {
            return found;
        }
    }
    None
}

/// The function that a place stands in.
pub(crate) fn function_at(program: &Program, pos: Pos) -> Option<&Func> {
    let mut found = None;
    for item in &program.items {
        if let Item::Function(f) = item {
            if is_before(f.name.pos, pos) {
                found = Some(f);
            }
        }
    }
    found
}

/// Locals that a part of a function declares: how many there are, and how many have the name that is looked for.
#[derive(Clone, Copy)]
pub(crate) struct Locals {
    pub all: usize,
    pub named: usize,
}

const NO_LOCALS: Locals = Locals { all: 0, named: 0 };

fn both(a: Locals, b: Locals) -> Locals {
    Locals {
        all: a.all.saturating_add(b.all),
        named: a.named.saturating_add(b.named),
    }
}

fn declared(locals: &[LocalDecl], name: &[u8]) -> Locals {
    let named = locals
        .iter()
        .filter(|l| l.name.text.as_slice() == name)
        .count();
    Locals {
        all: locals.len(),
        named,
    }
}

fn of_init(init: &Init, name: &[u8]) -> Locals {
    match init {
        Init::Locals(locals) => declared(locals.as_slice(), name),
        _ => NO_LOCALS,
    }
}

#[cycle(local_counts)]
fn of_stmt(s: &Stmt, name: &[u8]) -> Locals {
    match s {
        Stmt::Block(parts) => of_parts(parts, name),
        Stmt::If(_, body) => of_stmt(body, name),
        Stmt::IfElse(_, body, other) => both(of_stmt(body, name), of_stmt(other, name)),
        Stmt::While(_, _, body) => of_stmt(body, name),
        Stmt::For(_, head, body) => both(of_init(&head.init, name), of_stmt(body, name)),
        _ => NO_LOCALS,
    }
}

#[cycle(local_counts)]
fn of_part(part: &Part, name: &[u8]) -> Locals {
    match part {
        Part::Locals(locals) => declared(locals.as_slice(), name),
        Part::Stmt(s) => of_stmt(s, name),
    }
}

#[cycle(local_counts)]
fn of_parts(parts: &[Part], name: &[u8]) -> Locals {
    let mut all = NO_LOCALS;
    for part in parts {
        all = both(all, of_part(part, name));
    }
    all
}

/// The parameters and locals of a function.
pub(crate) fn locals_of(f: &Func, name: &[u8]) -> Locals {
    let parameters = parameters(f);
    let named = parameters
        .iter()
        .filter(|p| p.text.as_slice() == name)
        .count();
    let own = Locals {
        all: parameters.len(),
        named,
    };
    both(own, of_parts(f.body.as_slice(), name))
}

/// How many words an array has.
pub(crate) fn array_length(shape: &Shape) -> Option<u64>
    ensures { result ≡ length_of (shape_of shape.now) }
{
    match shape {
        Shape::Int(_) => None,
        Shape::Array(length, _) => Some(u64::from(*length)),
    }
}
