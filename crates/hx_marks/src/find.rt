// The place of a word among others, 16 at a time.

ghost use Rattle.std.specs.Prelude.{◌≡◌, ℕ, ◌+◌, ◌-◌, ◌<◌, ◌≤◌, ◌==◌, not, length, slice_index, IfOk, IfErr};
ghost use Rattle.std.specs.List.{prefix_len};
ghost use Rattle.std.specs.Simd.Lanes.{chunk};
ghost use Rattle.hx_marks.specs.Place.{NoneBelow, IsLeastPlace, Rises, IsBetween};

use std::simd::prelude::*;

// How many words are compared at once.
const LANES: usize = 16;

/// The least place that holds a word, or none where no place does. The words may stand in any order, and be any number: 16 are
/// compared at a time, and those behind the last 16 one by one. It takes no memory.
pub fn find_tag(words: &[u32], word: u32) -> Option<usize>
    ensures { IsLeastPlace words.now word result }
{
    let mut at = 0;
    while words.len() - at >= LANES {
        let run = run_before(words, at, word) as usize;
        if run < LANES {
            return Some(at + run);
        }
        at += LANES;
    }
    while at < words.len() {
        if words[at] == word {
            return Some(at);
        }
        at += 1;
    }
    None
}

// How many of the 16 words from a place on come before the first that is the word.
fn run_before(words: &[u32], at: usize, word: u32) -> u32
    requires { at + 16 ≤ length words.now }
    ensures { result ≡ prefix_len (λ w. not (w == word)) (chunk at 16 words.now) }
{
    let hits = u32x16::from_slice(&words[at..])
        .simd_eq(u32x16::splat(word))
        .to_bitmask();
    if hits == 0 { 16 } else { hits.trailing_zeros() }
}

// The place of a word among words that rise, or else where it is to be put. All but 16 are left out by halves; fewer than 16 are
// looked at one by one, from the end.
pub(crate) fn search(words: &[u32], word: u32) -> Result<usize, usize>
    requires { Rises words.now }
    ensures found { IfOk result (λ k. (k < length words.now) × (slice_index words.now k ≡ word) × NoneBelow words.now word k) }
    ensures missing { IfErr result (λ k. (k ≤ length words.now) × IsBetween words.now word k) }
{
    if words.len() < LANES {
        let place = count_from(words, words.len(), word);
        return if place > 0 && words[place - 1] == word {
            Ok(place - 1)
        } else {
            Err(place)
        };
    }
    let start = near(words, word);
    match find_tag(&words[start..start + LANES], word) {
        Some(place) => Ok(start + place),
        None => Err(count_from(words, start + LANES, word)),
    }
}

// How many of the words, which rise, aren't above a word, where all from a place on are.
fn count_from(words: &[u32], end: usize, word: u32) -> usize
    requires rises { Rises words.now }
    requires room { end ≤ length words.now }
    requires above { (i : ℕ) → end ≤ i → i < length words.now → word < slice_index words.now i }
    ensures within { result ≤ length words.now }
    ensures before { (i : ℕ) → i < result → slice_index words.now i ≤ word }
    ensures behind { (i : ℕ) → result ≤ i → i < length words.now → word < slice_index words.now i }
{
    let mut place = end;
    while place > 0 && words[place - 1] > word {
        place -= 1;
    }
    place
}

// From where on 16 of the words, which rise, have a word among them if any has it. With fewer than 16, these are all.
fn near(words: &[u32], word: u32) -> usize
    requires { Rises words.now }
    ensures room { result ≤ length words.now - 16 }
    ensures before { (i : ℕ) → i < result → slice_index words.now i < word }
    ensures behind { (i : ℕ) → result + 16 ≤ i → i < length words.now → word < slice_index words.now i }
{
    let mut start = 0;
    let mut count = words.len();
    while count > LANES {
        let half = count / 2;
        if words[start + half] <= word {
            start += half;
        }
        count -= half;
    }
    start.min(words.len().saturating_sub(LANES))
}
