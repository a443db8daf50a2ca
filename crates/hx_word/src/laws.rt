// What holds of every region, the contract of functions that do nothing.

ghost use Rattle.hx_word.specs.Laws.{EndsAlike, GoesAlike};

/// A region that ends by itself, from its entry, ends as it does within the machine that opened it: the
/// machine that it is resumed in is the one after as many words.
pub fn regions_end_alike()
    ensures { EndsAlike }
{}

/// A region that goes on by itself, from its entry, is where it is within the machine that opened it,
/// after as many words.
pub fn regions_go_alike()
    ensures { GoesAlike }
{}
