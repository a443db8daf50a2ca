// What holds of names and marks, each the contract of a function that does nothing.

ghost use Rattle.std.specs.Prelude.{◌≡◌, List, ℕ, length, flat_map};
ghost use Rattle.hx_tree.specs.Tree.{Func, Program};
ghost use Rattle.hx_tree.specs.Accepted.{private_words};
ghost use Rattle.hx_tree.specs.Grammar.{Spells};
ghost use Rattle.hx_names.specs.Names.{private_names};
ghost use Rattle.hx_names.specs.Lines.{token_lines, program_marks};

/// Each private word of a function has a name, and there are no more names.
pub fn private_words_are_named()
    ensures { (f : Func) → length (private_names f) ≡ private_words f }
{}

/// A source has as many words `pfor` and `pwhile` as its program has marked loops.
pub fn marked_loops_have_words()
    ensures { (source : List ℕ) (p : Program) → (s : Spells source p) → length (flat_map token_lines s.tokens) ≡ length (program_marks p) }
{}
