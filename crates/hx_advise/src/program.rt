// A whole program, its marked loops watched.

ghost use Rattle.std.specs.Prelude.{◌≡◌, ◌↔◌, ◌<◌, ◌≤◌, ℕ, List, [], ◌∷◌, None, IfOk, IsErrOf, IsSome, IsTrue, OnOk, length};
ghost use Rattle.hx_code.specs.Machine.{InputFits, room_for_input, opening_machine};
ghost use Rattle.hx_word.specs.Plain.{one_store};
ghost use Rattle.hx_advise.specs.Watch.{AreBoth, need_at};
ghost use Rattle.hx_advise.specs.Runs.{Story, IsTold, IsSeen, AreSeen, IsAdvice, Passed};

use crate::region::{WORD_LIMIT, Watched, watch_region};
use crate::watch::Need;
use hx_exec::executable::Executable;
use hx_word::plain::{Open, Paused, Plain, PlainError};
use hx_word::region_run::RegionRun;
use std::alloc::{AllocError, Global};

/// How many words the plain machine runs before it is asked again.
const STEPS_AT_ONCE: u64 = 256;

/// What was seen of a marked loop, each time that it was opened. The counts stay at 2^64-1.
#[derive(Drop)]
pub struct Seen {
    pub opened: u64,
    /// Whole turns.
    pub turns: u64,
    pub words: u64,
    pub loads: u64,
    pub stores: u64,
    /// Whether its turns were independent, each time.
    pub is_independent: bool,
    /// In how many turns any word was needed, and how far back at the least.
    pub needed: Need,
    /// The same of each word of the store; none where no word was needed.
    pub needs: Vec<Need>,
}

/// What was seen of a program's loops, in the order of their numbers, and whether the run was over within its words.
#[derive(Drop)]
pub struct Advice {
    pub loops: Vec<Seen>,
    pub has_ended: bool,
}

impl Seen {
    // Nothing yet.
    fn nothing(alloc: Global) -> Seen
        ensures { (r : ℕ) → IsSeen r [] result }
    {
        Seen {
            opened: 0,
            turns: 0,
            words: 0,
            loads: 0,
            stores: 0,
            is_independent: true,
            needed: Need::NONE,
            needs: Vec::new(alloc),
        }
    }

    // One more time that it was opened.
    fn take_in(&mut self, watched: &Watched) -> Result<(), AllocError>
        ensures { OnOk result ((x : Story) (xs : List Story) → IsTold x watched.now → IsSeen x.region xs self.old → IsSeen x.region (x ∷ xs) self.new) }
    {
        let watch = &watched.watch;
        self.opened = self.opened.saturating_add(1);
        self.turns = self.turns.saturating_add(watch.turns());
        self.words = self.words.saturating_add(watched.words);
        self.loads = self.loads.saturating_add(watch.reads());
        self.stores = self.stores.saturating_add(watch.writes());
        if watch.is_independent() {
            return Ok(());
        }
        self.is_independent = false;
        self.needed = self.needed.and(watch.needed());
        add_needs(&mut self.needs, watch.needs())
    }
}

// More needs beside those of other times, word by word.
fn add_needs(all: &mut Vec<Need>, more: &[Need]) -> Result<(), AllocError>
    ensures both { OnOk result ((a : ℕ) → a < length more.now → AreBoth (need_at all.old.items a) (need_at more.now a) (need_at all.new.items a)) }
    ensures others { OnOk result ((a : ℕ) → length more.now ≤ a → need_at all.new.items a ≡ need_at all.old.items a) }
{
    for (word, need) in more.iter().enumerate() {
        match all.get_mut(word) {
            Some(sum) => *sum = sum.and(*need),
            None => all.push(Need::NONE.and(*need))?,
        }
    }
    Ok(())
}

fn nothing_seen(alloc: Global, code: &Executable) -> Result<Vec<Seen>, AllocError>
    ensures long { IfOk result (λ v. length v.items ≡ length code.now.regions) }
    ensures seen { IfOk result (λ v. AreSeen [] v.items) }
{
    let mut loops = Vec::new(alloc);
    let count = code.regions().len();
    for _k in 0..count {
        loops.push(Seen::nothing(alloc))?;
    }
    Ok(loops)
}

// A loop that has opened, to its end: the machine behind it and how many words it did, or none where it isn't over within so many.
fn pass<'c>(
    alloc: Global,
    code: &'c Executable,
    open: Open<'c>,
    steps: u64,
    loops: &mut [Seen],
) -> Result<Option<(Plain<'c>, u64)>, AllocError>
    requires same { open.code ≡ code.now }
    requires few { steps ≤ WORD_LIMIT }
    requires long { length loops.old ≡ length code.now.regions }
    ensures passed { IfOk result (Passed code.now open.entry steps loops.old loops.new) }
    ensures long { length loops.new ≡ length loops.old }
{
    code.known();
    let region = open.region();
    let entry = open.entry(alloc)?;
    let watched = watch_region(alloc, code, region, &entry, steps)?;
    let seen = &mut loops[region as usize];
    seen.take_in(&watched)?;
    if !watched.has_ended {
        return Ok(None);
    }
    let mut run = RegionRun::new(alloc, code, region, &entry)?;
    run.run(watched.words);
    match run.end() {
        Ok(end) => Ok(Some((open.resume(&end), watched.words))),
        Err(_) => unreachable!(),
    }
}

// Goes on with a run, and watches each loop that it opens.
fn watch_loops<'c>(
    alloc: Global,
    code: &'c Executable,
    plain: Plain<'c>,
    steps: u64,
) -> Result<Advice, AllocError>
    requires same { plain.code ≡ code.now }
    requires outside { plain.machine.within ≡ None }
    requires few { steps ≤ WORD_LIMIT }
    ensures { IfOk result (IsAdvice code.now plain.entry.machine steps) }
{
    let mut loops = nothing_seen(alloc, code)?;
    let mut plain = plain;
    let mut left = steps;
    while left > 0 {
        let some = left.min(STEPS_AT_ONCE);
        left -= some;
        match plain.to_region(some) {
            Paused::Ended(_, _) => return Ok(Advice {
                loops,
                has_ended: true,
            }),
            Paused::More(more) => plain = more,
            Paused::At(open) => match pass(alloc, code, open, left, &mut loops)? {
                None => return Ok(Advice {
                    loops,
                    has_ended: false,
                }),
                Some((behind, words)) => {
                    plain = behind;
                    left -= words;
                }
            },
        }
    }
    let has_ended = has_ended(plain);
    Ok(Advice { loops, has_ended })
}

// Whether a run is over.
fn has_ended(plain: Plain<'_>) -> bool
    requires { one_store plain.machine ≡ plain.machine }
    ensures { IsTrue result ↔ IsSome plain.entry.machine.end }
{
    match plain.to_region(0) {
        Paused::Ended(_, _) => true,
        Paused::More(_) => false,
        Paused::At(_) => false,
    }
}

/// Runs code on an input on one thread, for at most so many words, and watches each marked loop that it opens.
///
/// Of each loop it is told how often it was opened, how many whole turns, words, loads and stores there were, whether its turns were
/// independent each time, and which words were needed: all this is that of the definition, for the words that were done. These are all the
/// run's where it is over within its words, and else as many as may be, but for 255 for each loop that was opened.
///
/// `InputUnfit` exactly where the input is longer than its array; another error is want of memory.
pub fn advise(
    alloc: Global,
    code: &Executable,
    input: &[i32],
    steps: u64,
) -> Result<Advice, PlainError>
    ensures advice { IfOk result (IsAdvice code.now (opening_machine code.now input.now) steps) }
    ensures fits { OnOk result (InputFits code.now input.now) }
    ensures unfit { IsErrOf result PlainError.InputUnfit ↔ (room_for_input code.now < length input.now) }
{
    let plain = Plain::new(alloc, code, input)?;
    match watch_loops(alloc, code, plain, steps.min(WORD_LIMIT)) {
        Ok(advice) => Ok(advice),
        Err(_) => Err(PlainError::OutOfMemory),
    }
}
