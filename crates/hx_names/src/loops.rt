// The lines of a program's marked loops.

ghost use Rattle.std.specs.Prelude.{◌≡◌, ◌++◌, ℕ, IfOk, OnOk, List, [], ◌∷◌, map, flat_map, if◌then◌else◌};
ghost use Rattle.std.specs.List.{items_where_true};
ghost use Rattle.hx_tree.specs.Tree.{parts};
ghost use Rattle.hx_tree.specs.View.{part_of, stmt_of, program_of};
ghost use Rattle.hx_lex.specs.View.{token_of, tokens_of};
ghost use Rattle.hx_names.specs.Lines.{token_lines, loop_marks, stmt_marks, part_marks, parts_marks, program_marks, AreLines};

use hx_lex::{Token, tokens};
use hx_tree::token::{Kind, Mark};
use hx_tree::tree::{Item, Part, Program, Stmt};
use std::alloc::{AllocError, Global};

/// The lines where the regions of a source's code begin, in the order of their numbers: those of its marked loops that stand in no
/// other. They are of use where the program is that of the source. An `Err` means that an allocation was refused, or that the source
/// has no tokens.
pub fn lines_of(alloc: Global, source: &[u8], program: &Program) -> Result<Vec<u32>, AllocError>
    ensures lines { IfOk result (λ v. AreLines source.now (program_of program.now) v.items) }
    ensures only { IfOk result (λ v. (lines : List ℕ) → AreLines source.now (program_of program.now) lines → lines ≡ v.items) }
{
    let is_outer = outer_marks(alloc, program)?;
    let Ok(tokens) = tokens(alloc, source) else {
        return Err(AllocError);
    };
    let lines = mark_lines(alloc, &tokens)?;
    chosen(alloc, &lines, &is_outer)
}

// Of each marked loop, in source order, whether it stands in no other.
fn outer_marks(alloc: Global, program: &Program) -> Result<Vec<bool>, AllocError>
    ensures { IfOk result (λ v. v.items ≡ program_marks (program_of program.now)) }
{
    let mut outer = Vec::new(alloc);
    for item in &program.items {
        if let Item::Function(function) = item {
            put_parts(&mut outer, &function.body, false)?;
        }
    }
    Ok(outer)
}

#[cycle(statements)]
fn put_parts(outer: &mut Vec<bool>, body: &[Part], is_inside: bool) -> Result<(), AllocError>
    ensures { OnOk result (outer.new.items ≡ outer.old.items ++ parts_marks (parts (map part_of body.now)) is_inside) }
{
    for part in body {
        put_part(outer, part, is_inside)?;
    }
    Ok(())
}

#[cycle(statements)]
fn put_part(outer: &mut Vec<bool>, part: &Part, is_inside: bool) -> Result<(), AllocError>
    ensures { OnOk result (outer.new.items ≡ outer.old.items ++ part_marks (part_of part.now) is_inside) }
{
    match part {
        Part::Locals(_) => Ok(()),
        Part::Stmt(stmt) => put_stmt(outer, stmt, is_inside),
    }
}

#[cycle(statements)]
fn put_stmt(outer: &mut Vec<bool>, stmt: &Stmt, is_inside: bool) -> Result<(), AllocError>
    ensures { OnOk result (outer.new.items ≡ outer.old.items ++ stmt_marks (stmt_of stmt.now) is_inside) }
{
    match stmt {
        Stmt::Block(parts) => put_parts(outer, parts, is_inside),
        Stmt::If(_, body) => put_stmt(outer, body, is_inside),
        Stmt::IfElse(_, body, other) => {
            put_stmt(outer, body, is_inside)?;
            put_stmt(outer, other, is_inside)
        }
        Stmt::DoWhile(body, _) => put_stmt(outer, body, is_inside),
        Stmt::While(is_marked, _, body) => {
            put_mark(outer, *is_marked, is_inside)?;
            put_stmt(outer, body, is_inside || *is_marked)
        }
        Stmt::For(is_marked, _, body) => {
            put_mark(outer, *is_marked, is_inside)?;
            put_stmt(outer, body, is_inside || *is_marked)
        }
        _ => Ok(()),
    }
}

fn put_mark(outer: &mut Vec<bool>, is_marked: bool, is_inside: bool) -> Result<(), AllocError>
    ensures { OnOk result (outer.new.items ≡ outer.old.items ++ loop_marks is_marked is_inside) }
{
    if is_marked {
        outer.push(!is_inside)?;
    }
    Ok(())
}

// The lines of the words that mark loops.
fn mark_lines(alloc: Global, tokens: &[Token<'_>]) -> Result<Vec<u32>, AllocError>
    ensures { IfOk result (λ v. v.items ≡ flat_map token_lines (tokens_of tokens.now)) }
{
    let mut lines = Vec::new(alloc);
    for token in tokens {
        if is_mark(token) {
            lines.push(token.pos.line)?;
        }
    }
    Ok(lines)
}

fn is_mark(token: &Token<'_>) -> bool
    ensures { token_lines (token_of token.now) ≡ (if result then token.now.pos.line ∷ [] else []) }
{
    matches!(
        token.kind,
        Kind::Mark(Mark::MarkedFor) | Kind::Mark(Mark::MarkedWhile)
    )
}

// The lines at whose places it says so.
fn chosen(alloc: Global, lines: &[u32], is_chosen: &[bool]) -> Result<Vec<u32>, AllocError>
    ensures { IfOk result (λ v. v.items ≡ items_where_true is_chosen.now lines.now) }
{
    let mut chosen = Vec::new(alloc);
    for (line, is_one) in lines.iter().zip(is_chosen) {
        if *is_one {
            chosen.push(*line)?;
        }
    }
    Ok(chosen)
}
