// What a board is for.

ghost use Rattle.std.specs.Prelude.{◌≡◌, IsTrue, ◌↔◌};
ghost use Rattle.hx_board.specs.Board.{entry_view};

use hx_exec::executable::Executable;
use hx_word::entry::Entry;

/// A region of a code, by its number in the code's table.
#[derive(Clone, Copy)]
pub struct Job<'c> {
    pub code: &'c Executable,
    pub region: u32,
}

impl Job<'_> {
    /// Whether both are the same region of codes that say the same.
    pub fn is_same(&self, other: &Job<'_>) -> bool
        ensures { IsTrue result ↔ ((self.now.code.now ≡ other.now.code.now) × (self.now.region ≡ other.now.region)) }
    {
        self.region == other.region && self.code.is_same(other.code)
    }
}

/// Whether both entries are the same.
pub(crate) fn is_same_entry(a: &Entry, b: &Entry) -> bool
    ensures { IsTrue result ↔ (entry_view a.now ≡ entry_view b.now) }
{
    if a.depth != b.depth || a.text_len != b.text_len {
        return false;
    }
    if !same_words(&a.locals, &b.locals) {
        return false;
    }
    same_words(&a.store, &b.store)
}

fn same_words(a: &[i32], b: &[i32]) -> bool
    ensures { IsTrue result ↔ (a.now ≡ b.now) }
{
    a == b
}
