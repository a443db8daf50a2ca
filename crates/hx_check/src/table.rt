// The global names of a program.

ghost use Rattle.std.specs.Prelude.{◌≤◌};
ghost use Rattle.hx_tree.specs.declared.limits.TheConstants.{FUNCTION_LIMIT, GLOBAL_LIMIT};

use hx_resolved::symbol::Symbol;
use indexmap::IndexMap;

/// The global names that are declared so far, and how many store words and functions they have.
#[derive(Drop)]
pub struct Symbols {
    pub table: IndexMap<Vec<u8>, Symbol>,
    pub words: u32,
    pub functions: u32,
    ghost few_words: { words ≤ GLOBAL_LIMIT },
    ghost few_functions: { functions ≤ FUNCTION_LIMIT },
}
