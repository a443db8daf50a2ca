// The plain machine by its own calls: where regions open, a region by itself, and the run behind it.

ghost use Rattle.std.specs.Prelude.{◌≡◌, length};
ghost use Rattle.hx_word.specs.Entry.{EndFits, EndLasts, privates_in};
ghost use Rattle.hx_word.specs.Plain.{one_store};

use crate::machines::{Wanted, code_for, entry_for, expect, machine_for, opened_within, run_on};
use hx_code::word::Exit;
use hx_exec::executable::Executable;
use hx_tree::outcome::End;
use hx_word::entry::{Entry, RegionEnd};
use hx_word::plain::{Open, Paused, Plain, PlainError, Reached};
use hx_word::region_run::RegionRun;
use std::alloc::Global;
use std::process::Abort;

// More words than a region here has.
const AMPLE: u64 = 1000;

// Two turns: the first word opens the region, each turn takes nine and `leave` after the last test five, and then
// `const 0` and `ret` are left.
const TWO_TURNS: &[u8] = b"int c; int main(){ pwhile(c<2){ c=c+1; } }";

// How a search for a region comes out: at it, ended before, or neither; and the entry's words in the store, private words,
// depth and printed bytes.
type Found = (u8, [usize; 4]);

fn found(reached: &Reached) -> Found {
    match reached {
        Reached::At(_, entry) => (0, sizes(entry)),
        Reached::Ended => (1, [0; 4]),
        Reached::More => (2, [0; 4]),
    }
}

fn sizes(entry: &Entry) -> [usize; 4] {
    [
        entry.store.len(),
        entry.locals.len(),
        entry.depth,
        entry.text_len,
    ]
}

// A search for the n-th region, counted from 1, within so many words.
fn search(rt: &impl Abort, alloc: Global, code: &Executable, n: u64, steps: u64) -> Found {
    if n == 0 {
        rt.panic("regions are counted from 1")
    }
    match machine_for(rt, alloc, code).entry_at(alloc, n, steps) {
        Ok(reached) => found(&reached),
        Err(_) => rt.panic("no memory for an entry"),
    }
}

// The number of a region, so many words, and what a search comes to.
static SEARCHES: [(u64, u64, Found); 4] = [
    (2, 26, (1, [0; 4])),
    (2, 25, (2, [0; 4])),
    (1, 0, (2, [0; 4])),
    (1, 1, (0, [65, 0, 1, 0])),
];

#[test]
fn entries_of_two_turns(rt: HostRuntime) {
    let code = code_for(&rt, rt.alloc(), TWO_TURNS);
    for (n, steps, wanted) in &SEARCHES {
        let is_found = search(&rt, rt.alloc(), &code, *n, *steps) == *wanted;
        expect(&rt, is_found, b"another entry");
    }
}

// The region that opened, by itself as its first iteration begins.
fn run_of<'c>(rt: &impl Abort, alloc: Global, code: &'c Executable, at: &Open<'_>) -> RegionRun<'c>
    requires { at.now.code ≡ code.now }
    ensures code { result.code ≡ at.now.code }
    ensures locals { result.locals ≡ privates_in at.now.code at.now.region.opened.region }
    ensures printed { result.state.opened.printed ≡ length at.now.outer.text }
{
    let entry = entry_for(rt, alloc, at);
    match RegionRun::new(alloc, code, at.region(), &entry) {
        Ok(run) => run,
        Err(_) => rt.panic("no memory for a region"),
    }
}

// The region that has ended.
fn ended(rt: &impl Abort, run: RegionRun<'_>) -> RegionEnd
    ensures { EndLasts run.entry.code run.entry.state run.entry.locals result }
{
    match run.end() {
        Ok(end) => end,
        Err(_) => rt.panic("the region goes on"),
    }
}

// The region that goes on.
fn going_on<'c>(rt: &impl Abort, run: RegionRun<'c>) -> RegionRun<'c> {
    match run.end() {
        Ok(_) => rt.panic("the region has an end"),
        Err(run) => run,
    }
}

// Whether a region has left its loop with 65 words, no private ones and nothing printed, after two turns.
fn is_two_turns(end: &RegionEnd) -> bool {
    let sizes = [end.store.len(), end.locals.len(), end.text.len()];
    let counts = [end.counts.regions, end.counts.turns];
    end.exit == Exit::Left && sizes == [65, 0, 0] && counts == [1, 2]
}

// The first region of a code, run by itself: it goes on after so many words, and ends with one more.
fn ends_with_one_more(rt: &impl Abort, alloc: Global, code: &Executable, steps: u64) -> bool {
    let opened = opened_within(rt, alloc, code, 1);
    let mut run = run_of(rt, alloc, code, &opened);
    if run.run(steps) {
        rt.panic("the region has ended")
    }
    let mut run = going_on(rt, run);
    let _ended = run.run(1);
    is_two_turns(&ended(rt, run))
}

#[test]
fn a_region_runs_by_itself(rt: HostRuntime) {
    let code = code_for(&rt, rt.alloc(), TWO_TURNS);
    let is_right = ends_with_one_more(&rt, rt.alloc(), &code, 22);
    expect(&rt, is_right, b"another end of the region");
}

// The region that the machine opens with its first word, asked for in two goes.
fn region_of_the_second_go(plain: Plain<'_>) -> Option<u32> {
    match plain.to_region(0) {
        Paused::More(again) => match again.to_region(1) {
            Paused::At(open) => Some(open.region()),
            _ => None,
        },
        _ => None,
    }
}

#[test]
fn a_region_past_the_words_is_not_reached(rt: HostRuntime) {
    let code = code_for(&rt, rt.alloc(), TWO_TURNS);
    let region = region_of_the_second_go(machine_for(&rt, rt.alloc(), &code));
    expect(&rt, region == Some(0), b"another region");
}

// The input is one word longer than its array, and there is no array.
#[test]
fn input_without_its_array_is_refused(rt: HostRuntime) {
    let code = code_for(&rt, rt.alloc(), TWO_TURNS);
    let refusal = Plain::new(rt.alloc(), &code, &[1]).err();
    expect(
        &rt,
        refusal == Some(PlainError::InputUnfit),
        b"another refusal",
    );
}

/// How many words the region that opened has, one after another.
pub(crate) fn words_within(rt: &impl Abort, alloc: Global, code: &Executable, at: &Open<'_>) -> u64
    requires { at.now.code ≡ code.now }
{
    let mut run = run_of(rt, alloc, code, at);
    for words in 1..AMPLE {
        if run.run(1) {
            return words;
        }
    }
    rt.panic("the region goes on")
}

// The end of the region that opened, run by itself.
fn end_of(rt: &impl Abort, alloc: Global, code: &Executable, at: &Open<'_>) -> RegionEnd
    requires { at.now.code ≡ code.now }
    ensures { EndFits at.now.code at.now.region.opened at.now.outer.text result }
{
    let mut run = run_of(rt, alloc, code, at);
    let _ended = run.run(AMPLE);
    ended(rt, run)
}

/// The machine behind the region that opened, once that has ended by itself.
pub(crate) fn behind<'c>(
    rt: &impl Abort,
    alloc: Global,
    code: &Executable,
    at: Open<'c>,
) -> Plain<'c>
    requires { at.code ≡ code.now }
    ensures code { result.code ≡ code.now }
    ensures one { one_store result.machine ≡ result.machine }
{
    let end = end_of(rt, alloc, code, &at);
    at.resume(&end)
}

// What the two turns come to.
static TWO_COUNTED: Wanted = Wanted {
    end: End::Normal(0),
    globals: &[2],
    text: b"",
    regions: 1,
    turns: 2,
};

// Whether the run behind the first region ends within so many words.
fn ends_behind(rt: &impl Abort, alloc: Global, code: &Executable, steps: u64) -> bool {
    let opened = opened_within(rt, alloc, code, 1);
    let plain = behind(rt, alloc, code, opened);
    run_on(rt, plain, steps, &TWO_COUNTED).is_none()
}

#[test]
fn a_run_goes_on_behind_its_region(rt: HostRuntime) {
    let code = code_for(&rt, rt.alloc(), TWO_TURNS);
    let has_ended = ends_behind(&rt, rt.alloc(), &code, 1);
    expect(&rt, !has_ended, b"it ends too early");
    let has_ended = ends_behind(&rt, rt.alloc(), &code, 2);
    expect(&rt, has_ended, b"it goes on");
}
