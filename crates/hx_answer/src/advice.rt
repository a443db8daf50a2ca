// What was seen of a loop, as text.

ghost use Rattle.std.specs.Prelude.{◌<◌, ◌≤◌, length};

use hx_advise::{Need, Seen};
use hx_trace::{Called, put_name};
use itoa::{Buffer, Integer};
use std::alloc::AllocError;

/// Turns of fewer words than this gain nothing: what a turn costs the board alone is more.
const FEW_WORDS: u64 = 100;

/// Which loop it is: the number of its region, the name of its function, and the line where it begins, where that is known.
#[derive(Clone, Copy, Debug)]
pub(crate) struct Heading<'a> {
    pub region: usize,
    pub function: &'a [u8],
    pub line: Option<u32>,
}

fn put_number<I: Integer>(text: &mut Vec<u8>, n: I) -> Result<(), AllocError> {
    let mut buffer = Buffer::new();
    text.extend_from_slice(buffer.format(n).as_bytes())
}

// A number of things, by their name in the singular.
fn put_count(text: &mut Vec<u8>, n: u64, thing: &[u8]) -> Result<(), AllocError> {
    put_number(text, n)?;
    text.extend_from_slice(b" ")?;
    text.extend_from_slice(thing)?;
    if n == 1 {
        Ok(())
    } else {
        text.extend_from_slice(b"s")
    }
}

// A total for each of so many, to the tenth below.
fn put_average(text: &mut Vec<u8>, total: u64, count: u64) -> Result<(), AllocError> {
    if count == 0 {
        return text.extend_from_slice(b"0");
    }
    put_number(text, total / count)?;
    text.extend_from_slice(b".")?;
    put_number(text, (total % count).saturating_mul(10) / count)
}

fn put_heading(text: &mut Vec<u8>, heading: &Heading<'_>) -> Result<(), AllocError> {
    text.extend_from_slice(b"region ")?;
    put_number(text, heading.region)?;
    text.extend_from_slice(b" in ")?;
    text.extend_from_slice(heading.function)?;
    match heading.line {
        None => Ok(()),
        Some(line) => {
            text.extend_from_slice(b", line ")?;
            put_number(text, line)
        }
    }
}

fn put_turns(text: &mut Vec<u8>, seen: &Seen) -> Result<(), AllocError> {
    text.extend_from_slice(b": opened ")?;
    put_count(text, seen.opened, b"time")?;
    text.extend_from_slice(b", ")?;
    put_count(text, seen.turns, b"turn")?;
    if seen.turns == 0 {
        return text.extend_from_slice(b"\n");
    }
    text.extend_from_slice(b"\n  a turn: ")?;
    put_average(text, seen.words, seen.turns)?;
    text.extend_from_slice(b" words, ")?;
    put_average(text, seen.loads, seen.turns)?;
    text.extend_from_slice(b" loads, ")?;
    put_average(text, seen.stores, seen.turns)?;
    text.extend_from_slice(b" stores\n")
}

// Few words a turn.
fn put_few(text: &mut Vec<u8>, seen: &Seen) -> Result<(), AllocError> {
    if seen.turns == 0 || seen.words / seen.turns >= FEW_WORDS {
        return Ok(());
    }
    text.extend_from_slice(b"  few words a turn: such a loop gains nothing\n")
}

fn put_verdict(text: &mut Vec<u8>, seen: &Seen) -> Result<(), AllocError> {
    if seen.is_independent {
        return text.extend_from_slice(b"  independent: no turn read what an earlier turn wrote\n");
    }
    text.extend_from_slice(b"  not independent: ")?;
    put_count(text, seen.needed.turns, b"turn")?;
    text.extend_from_slice(b" read what an earlier turn wrote\n")
}

// The name that a word has.
fn called(names: &[Called], word: usize) -> Option<&Called> {
    names.iter().find(|c| has_word(c, word))
}

fn has_word(called: &Called, word: usize) -> bool {
    let base = called.base as usize;
    base <= word && word - base < called.length as usize
}

// The word behind the last one that was needed of the array that has the word `from`.
fn range_end(names: &[Called], needs: &[Need], from: usize) -> usize
    requires { from < length needs.now }
    ensures behind { from < result }
    ensures within { result ≤ length needs.now }
{
    let count = needs.len();
    let mut end = from + 1;
    let Some(array) = called(names, from) else {
        return end;
    };
    for word in from + 1..count {
        if needs[word].turns > 0 && has_word(array, word) {
            end = word + 1;
        }
    }
    end
}

fn put_word(text: &mut Vec<u8>, names: &[Called], word: usize) -> Result<(), AllocError> {
    match u32::try_from(word) {
        Ok(word) => put_name(text, names, word),
        Err(_) => Ok(()),
    }
}

// Of the words that were needed: how many they are, the least and the greatest number of turns, and the least distance.
#[derive(Clone, Copy)]
struct Bounds {
    words: u64,
    least: u64,
    greatest: u64,
    distance: u64,
}

fn bounds_of(needs: &[Need]) -> Bounds {
    let mut bounds = Bounds {
        words: 0,
        least: u64::MAX,
        greatest: 0,
        distance: u64::MAX,
    };
    for need in needs {
        if need.turns > 0 {
            bounds = Bounds {
                words: bounds.words.saturating_add(1),
                least: bounds.least.min(need.turns),
                greatest: bounds.greatest.max(need.turns),
                distance: bounds.distance.min(need.distance),
            };
        }
    }
    bounds
}

// The words from `from` on that were needed, which belong to one array where there are more than one.
fn put_range(
    text: &mut Vec<u8>,
    names: &[Called],
    needs: &[Need],
    from: usize,
) -> Result<(), AllocError> {
    let bounds = bounds_of(needs);
    text.extend_from_slice(b"    ")?;
    put_word(text, names, from)?;
    if bounds.words > 1 {
        text.extend_from_slice(b" to ")?;
        put_word(
            text,
            names,
            from.saturating_add(needs.len()).saturating_sub(1),
        )?;
        text.extend_from_slice(b": ")?;
        put_number(text, bounds.words)?;
        text.extend_from_slice(b" elements, each in ")?;
    } else {
        text.extend_from_slice(b": in ")?;
    }
    if bounds.least < bounds.greatest {
        put_number(text, bounds.least)?;
        text.extend_from_slice(b" to ")?;
    }
    put_count(text, bounds.greatest, b"turn")?;
    text.extend_from_slice(b", at least ")?;
    put_count(text, bounds.distance, b"turn")?;
    text.extend_from_slice(b" behind the one that wrote it\n")
}

// The words that were needed: of an array those from the first to the last of them.
fn put_needs(text: &mut Vec<u8>, names: &[Called], needs: &[Need]) -> Result<(), AllocError> {
    let mut at = 0usize;
    while at < needs.len() {
        if needs[at].turns == 0 {
            at += 1;
        } else {
            let end = range_end(names, needs, at);
            put_range(text, names, &needs[at..end], at)?;
            at = end;
        }
    }
    Ok(())
}

/// Puts what was seen of a loop behind a text. An `Err` means that an allocation was refused.
pub(crate) fn put_advice(
    text: &mut Vec<u8>,
    heading: &Heading<'_>,
    names: &[Called],
    seen: &Seen,
) -> Result<(), AllocError> {
    put_heading(text, heading)?;
    if seen.opened == 0 {
        return text.extend_from_slice(b": not opened\n");
    }
    put_turns(text, seen)?;
    put_verdict(text, seen)?;
    put_needs(text, names, &seen.needs)?;
    put_few(text, seen)
}

/// Puts behind a text what there is to be said of a whole run: that there are no loops, or that it wasn't over. An `Err` means that an
/// allocation was refused.
pub(crate) fn put_end(
    text: &mut Vec<u8>,
    loops: usize,
    has_ended: bool,
    steps: u64,
) -> Result<(), AllocError> {
    if loops == 0 {
        text.extend_from_slice(b"no marked loops\n")?;
    }
    if has_ended {
        return Ok(());
    }
    text.extend_from_slice(b"not ended after ")?;
    put_number(text, steps)?;
    text.extend_from_slice(b" steps: all this is of the turns that ran\n")
}
