// The resolved nodes that hold a list of nodes, made from it.

ghost use Rattle.std.specs.Prelude.{◌≡◌, map};
ghost use Rattle.hx_resolved.specs.Resolved as resolved;
ghost use Rattle.hx_resolved.specs.Views.{resolved_expr, resolved_stmt};

use hx_resolved::program::{Expr, Stmt};
use hx_tree::token::Pos;

/// A call of a function with these arguments.
pub(crate) fn call(function: u32, pos: Pos, arguments: Vec<Expr>) -> Expr
    ensures { resolved_expr result ≡ resolved.Call function pos (resolved.exprs (map resolved_expr arguments.items)) }
{
    Expr::Call(function, pos, arguments)
}

/// A block of these statements.
pub(crate) fn block(statements: Vec<Stmt>) -> Stmt
    ensures { resolved_stmt result ≡ resolved.Block (resolved.stmts (map resolved_stmt statements.items)) }
{
    Stmt::Block(statements)
}
