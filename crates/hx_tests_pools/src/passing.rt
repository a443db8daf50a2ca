// Runs of the plain machine that go through whole regions at once, and such as stop within them.

use crate::machines::{Wanted, code_for, expect, expect_end, machine_for, run_on};
use crate::regions::{behind, words_within};
use hx_exec::executable::Executable;
use hx_tree::outcome::End;
use hx_word::plain::Paused;
use std::alloc::Global;
use std::process::Abort;

// Each of three rounds opens a region of three turns that carries `sum`, one of two turns that print, and one of two turns that call: `sum`
// comes to 3, 4 and 5, and `total` to 3 and 5, to 9 and 11, and to 16 and 18.
const ROUNDS: &[u8] =
    b"int total; int twice(int n){ return n+n; } int main(){ for(int k=0;k<3;k++){ int sum=k; pfor(int i=0;i<3;i++) sum=sum+i; total=total+sum; pfor(int i=0;i<2;i++) print(total+i); pfor(int i=0;i<2;i++) total=total+twice(i); } return total; }";

// More words than a run of it has.
const AMPLE: u64 = 1000;

// What the rounds come to, whatever limits they stop at.
static ROUNDED: Wanted = Wanted {
    end: End::Normal(18),
    globals: &[18],
    text: b"3\n4\n9\n10\n16\n17\n",
    regions: 9,
    turns: 21,
};

// Whether a run of so many words, and then of so many more, ends.
fn ends_in_two(rt: &impl Abort, alloc: Global, code: &Executable, first: u64, then: u64) -> bool {
    match run_on(rt, machine_for(rt, alloc, code), first, &ROUNDED) {
        Some(further) => run_on(rt, further, then, &ROUNDED).is_none(),
        None => true,
    }
}

// How many words a run has, one after another; each region is done by itself.
fn words_by_regions(rt: &impl Abort, alloc: Global, code: &Executable) -> u64 {
    let mut plain = machine_for(rt, alloc, code);
    let mut words = 0u64;
    for _ in 0..AMPLE {
        words = words.saturating_add(1);
        match plain.to_region(1) {
            Paused::More(further) => plain = further,
            Paused::At(at) => {
                words = words.saturating_add(words_within(rt, alloc, code, &at));
                plain = behind(rt, alloc, code, at);
            }
            Paused::Ended(outcome, counts) => {
                expect_end(rt, &outcome, counts, &ROUNDED);
                return words;
            }
        }
    }
    rt.panic("it goes on")
}

// A run of so many words, stopped after each number of them.
fn stops_anywhere(rt: &impl Abort, alloc: Global, code: &Executable, words: u64) {
    for first in 0..words {
        let then = words - first;
        let has_ended = ends_in_two(rt, alloc, code, first, then);
        expect(rt, has_ended, b"it goes on");
        let has_ended = ends_in_two(rt, alloc, code, first, then - 1);
        expect(rt, !has_ended, b"it ends too early");
    }
}

// A run ends with its last word and not before, in one go, by itself within each region, and in two goes wherever the first stops: in
// the middle of a region, of an outer turn, or of a call.
#[test]
fn a_run_that_stops_comes_to_the_same(rt: HostRuntime) {
    let code = code_for(&rt, rt.alloc(), ROUNDS);
    let words = words_by_regions(&rt, rt.alloc(), &code);
    expect(&rt, words > 0, b"no words");
    stops_anywhere(&rt, rt.alloc(), &code, words);
}
