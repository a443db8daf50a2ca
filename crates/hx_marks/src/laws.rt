// What makes the entries a map.

ghost use Rattle.std.specs.Prelude.{◌≡◌, ◌≢◌, ℕ, ℤ, Some};
ghost use Rattle.hx_marks.specs.Table.{Table, look, put, IsRising, HaveSameValues};

/// A word has the value that was put for it last, and putting one changes no other word's. Two tables that have the same value
/// for each word are one.
pub fn tables_are_maps()
    ensures own { (t : Table) (a : ℕ) (v : ℤ) → look (put t a v) a ≡ Some v }
    ensures others { (t : Table) (a b : ℕ) (v : ℤ) → b ≢ a → look (put t a v) b ≡ look t b }
    ensures rises { (t : Table) (a : ℕ) (v : ℤ) → IsRising t → IsRising (put t a v) }
    ensures only { (t u : Table) → IsRising t → IsRising u → HaveSameValues t u → t ≡ u }
{}
