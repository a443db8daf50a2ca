// What a station was made for, by which types name it.

ghost use Rattle.hx_board.specs.Board.{Setup};

use std::marker::Brand;

/// What a station was made for: a code, so many workers, and so many words for their tables. The region and the entry that stand beside
/// them are no part of it. It has no bytes: types that name it know what their boards and frames were made for.
pub trait Run {
    ghost setup: { Setup };
}

impl Run for Brand {
    ghost use Rattle.hx_pool.specs.Setups.{no_setup};

    ghost setup = { no_setup };
}
