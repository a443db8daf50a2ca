// The names of a function's private words.

ghost use Rattle.std.specs.Prelude.{◌≡◌, ◌++◌, IfOk, OnOk, map};
ghost use Rattle.hx_tree.specs.Tree.{parts};
ghost use Rattle.hx_tree.specs.Meaning.{texts_of};
ghost use Rattle.hx_tree.specs.View.{name_of, local_of, init_of, part_of, stmt_of, func_of};
ghost use Rattle.hx_names.specs.Names.{declared_names, init_names, stmt_names, part_names, parts_names, private_names};

use hx_tree::tree::{Func, Init, LocalDecl, Name, Params, Part, Stmt};
use std::alloc::{AllocError, Global};

/// The names of a function's parameters, and then those of its locals in source order.
pub(crate) fn private_names(alloc: Global, function: &Func) -> Result<Vec<&[u8]>, AllocError>
    ensures { IfOk result (λ v. map (λ r. r.now) v.items ≡ private_names (func_of function.now)) }
{
    let mut names = Vec::new(alloc);
    if let Params::Names(params) = &function.params {
        put_params(&mut names, params)?;
    }
    put_parts(&mut names, &function.body)?;
    Ok(names)
}

fn put_params<'f>(names: &mut Vec<&'f [u8]>, params: &'f [Name]) -> Result<(), AllocError>
    ensures { OnOk result (map (λ r. r.now) names.new.items ≡ map (λ r. r.now) names.old.items ++ texts_of (map name_of params.now)) }
{
    for name in params {
        names.push(name.text.as_slice())?;
    }
    Ok(())
}

fn put_declared<'f>(names: &mut Vec<&'f [u8]>, locals: &'f [LocalDecl]) -> Result<(), AllocError>
    ensures { OnOk result (map (λ r. r.now) names.new.items ≡ map (λ r. r.now) names.old.items ++ texts_of (declared_names (map local_of locals.now))) }
{
    for local in locals {
        names.push(local.name.text.as_slice())?;
    }
    Ok(())
}

// What a `for` begins with.
fn put_init<'f>(names: &mut Vec<&'f [u8]>, init: &'f Init) -> Result<(), AllocError>
    ensures { OnOk result (map (λ r. r.now) names.new.items ≡ map (λ r. r.now) names.old.items ++ texts_of (init_names (init_of init.now))) }
{
    match init {
        Init::Nothing => Ok(()),
        Init::Locals(locals) => put_declared(names, locals),
        Init::Assign(_) => Ok(()),
    }
}

#[cycle(statements)]
fn put_parts<'f>(names: &mut Vec<&'f [u8]>, body: &'f [Part]) -> Result<(), AllocError>
    ensures { OnOk result (map (λ r. r.now) names.new.items ≡ map (λ r. r.now) names.old.items ++ texts_of (parts_names (parts (map part_of body.now)))) }
{
    for part in body {
        put_part(names, part)?;
    }
    Ok(())
}

#[cycle(statements)]
fn put_part<'f>(names: &mut Vec<&'f [u8]>, part: &'f Part) -> Result<(), AllocError>
    ensures { OnOk result (map (λ r. r.now) names.new.items ≡ map (λ r. r.now) names.old.items ++ texts_of (part_names (part_of part.now))) }
{
    match part {
        Part::Locals(locals) => put_declared(names, locals),
        Part::Stmt(stmt) => put_stmt(names, stmt),
    }
}

#[cycle(statements)]
fn put_stmt<'f>(names: &mut Vec<&'f [u8]>, stmt: &'f Stmt) -> Result<(), AllocError>
    ensures { OnOk result (map (λ r. r.now) names.new.items ≡ map (λ r. r.now) names.old.items ++ texts_of (stmt_names (stmt_of stmt.now))) }
{
    match stmt {
        Stmt::Block(parts) => put_parts(names, parts),
        Stmt::If(_, body) => put_stmt(names, body),
        Stmt::IfElse(_, body, other) => {
            put_stmt(names, body)?;
            put_stmt(names, other)
        }
        Stmt::While(_, _, body) => put_stmt(names, body),
        Stmt::DoWhile(body, _) => put_stmt(names, body),
        Stmt::For(_, clauses, body) => {
            put_init(names, &clauses.init)?;
            put_stmt(names, body)
        }
        _ => Ok(()),
    }
}
