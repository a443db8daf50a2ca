// A word with what is told of its place.

use hx_code::table::Spot;
use hx_code::word::Word;

/// A word of the code and its spot.
#[derive(Clone, Copy, PartialEq, Eq, Debug)]
pub struct Line {
    pub word: Word,
    pub spot: Spot,
}
