// An accepted program, as the checker hands it on.

ghost use Rattle.std.specs.Prelude.{◌≡◌};
ghost use Rattle.hx_tree.specs.View.{program_of};
ghost use Rattle.hx_tree.specs.Accepted.{IsAccepted};
ghost use Rattle.hx_resolved.specs.Views.{resolved_of};
ghost use Rattle.hx_resolved.specs.Resolve.{resolve};

use hx_resolved::program::Program;
use hx_tree::tree;
use std::marker::Model;

/// An accepted program: its tree, and the same program with its names resolved. Contracts see it as
/// the tree.
#[derive(Drop)]
pub struct Checked {
    pub(crate) tree: tree::Program,
    pub(crate) program: Program,
}

impl Model for Checked {
    ghost use Rattle.std.specs.Prelude.{◌≡◌};
    ghost use Rattle.std.specs.Coded.{codes};
    ghost use Rattle.hx_tree.specs.declared.tree.Program.{Program};
    ghost use Rattle.hx_tree.specs.contracts.tree.Expr as expr;
    ghost use Rattle.hx_tree.specs.contracts.tree.Part as part;
    ghost use Rattle.hx_tree.specs.contracts.tree.Stmt as stmt;

    ghost Value = { Program };

    ghost coded = { Prim.hlevel (codes, expr.the_row.coded, part.the_row.coded, stmt.the_row.coded) };

    ghost use Rattle.hx_tree.specs.View.{program_of};
    ghost use Rattle.hx_tree.specs.Accepted.{IsAccepted};
    ghost use Rattle.hx_resolved.specs.Views.{resolved_of};
    ghost use Rattle.hx_resolved.specs.Resolve.{resolve};

    ghost view = { λ c. c.tree };

    ghost invariant = { λ c. IsAccepted (program_of c.tree) × (resolved_of c.program ≡ resolve (program_of c.tree)) };
}

impl Checked {
    /// The tree that was checked. It is accepted.
    pub fn tree(&self) -> &tree::Program
        ensures same { result.now ≡ self.now }
        ensures accepted { IsAccepted (program_of self.now) }
    {
        &self.tree
    }

    /// The program with each name resolved to what it stands for.
    pub fn program(&self) -> &Program
        ensures resolved { resolved_of result.now ≡ resolve (program_of self.now) }
        ensures accepted { IsAccepted (program_of self.now) }
    {
        &self.program
    }
}
