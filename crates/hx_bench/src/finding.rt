// A word looked for among others, in three ways.

use hx_marks::find_tag;
use std::alloc::{AllocError, Global};

/// In which way.
#[derive(Clone, Copy, PartialEq, Eq, Debug)]
pub(crate) enum Way {
    /// 16 at a time.
    Lanes,
    /// By halves, where the words rise.
    Halves,
    /// One by one.
    Ones,
}

/// The way of a name.
pub(crate) fn way_named(name: &str) -> Option<Way> {
    match name {
        "lanes" => Some(Way::Lanes),
        "halves" => Some(Way::Halves),
        "ones" => Some(Way::Ones),
        _ => None,
    }
}

#[inline(never)]
fn by_lanes(words: &[u32], word: u32) -> Option<usize> {
    find_tag(words, word)
}

#[inline(never)]
fn by_halves(words: &[u32], word: u32) -> Option<usize> {
    words.binary_search(&word).ok()
}

#[inline(never)]
fn by_ones(words: &[u32], word: u32) -> Option<usize> {
    words.iter().position(|w| *w == word)
}

/// How many of so many words, one after another from 0 on and over again, stand among the first `length` even numbers: each second one.
pub(crate) fn count_found(
    alloc: Global,
    way: Way,
    length: u64,
    times: u64,
) -> Result<u64, AllocError> {
    let length = u32::try_from(length).unwrap_or(0);
    let mut words = Vec::new(alloc);
    for k in 0..length {
        words.push(k.wrapping_mul(2))?;
    }
    let mut found = 0u64;
    let mut word = 0;
    for _time in 0..times {
        let place = match way {
            Way::Lanes => by_lanes(words.as_slice(), word),
            Way::Halves => by_halves(words.as_slice(), word),
            Way::Ones => by_ones(words.as_slice(), word),
        };
        if place.is_some() {
            found = found.wrapping_add(1);
        }
        word = if word / 2 >= length {
            0
        } else {
            word.wrapping_add(1)
        };
    }
    Ok(found)
}
