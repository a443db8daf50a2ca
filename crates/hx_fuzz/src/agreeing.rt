// One program by all that can run it.

use crate::tally::Trial;
use hx_answer::{NoTrace, Schedule, Shown, replay_of};
use hx_run::{PlainRan, Refusal, Unwatched, run, run_plain};
use hx_trace::Trace;
use hx_tree::outcome::{End, Finish, Settings};
use rand::rngs::SmallRng;
use rand::seq::IndexedRandom;
use rand::{RngExt, SeedableRng};
use std::alloc::{AllocError, Global};
use std::sync::Wait;
use std::thread::Threads;

/// The words of a program that is taken to end.
const STEPS: u64 = 30_000;

/// The input of each program.
const INPUT: [i32; 3] = [5, -7, 2_147_483_647];

/// The most entries of a schedule.
const ENTRIES: usize = 48;

/// How often a program is run on threads.
const RUNS: u32 = 2;

/// What is told of a program that didn't come to one answer.
const REFUSED: Trial = Trial::Disagrees("a program is refused");

const BY_RUN: Trial = Trial::Disagrees("run and run_plain disagree");

const BY_REPLAY: Trial = Trial::Disagrees("a schedule commits what one worker doesn't");

// Workers and tables.
fn settings_by(random: &mut SmallRng) -> Settings {
    let sizes = [1, 2, 3, 8, 64, 4096];
    let mut size = |random: &mut SmallRng| sizes.choose(random).copied().unwrap_or(1);
    Settings {
        workers: random.random_range(1..=8u32),
        marks: size(random),
        buffer: size(random),
    }
}

// Whether both came to the same.
fn is_same(one: &Finish, other: &Finish) -> bool {
    let (a, b) = (&one.outcome, &other.outcome);
    if one.counts.turns != other.counts.turns || one.counts.regions != other.counts.regions {
        return false;
    }
    a.end == b.end
        && a.text.as_slice() == b.text.as_slice()
        && a.globals.as_slice() == b.globals.as_slice()
}

// Whether runs on threads come to a finish.
fn runs_agree<R: Threads + Wait + Sync>(
    rt: &R,
    alloc: Global,
    source: &[u8],
    finish: &Finish,
    random: &mut SmallRng,
) -> Result<bool, AllocError> {
    for _ in 0..RUNS {
        match run(alloc, rt, source, &INPUT, settings_by(random), &Unwatched) {
            Ok(other) => {
                if !is_same(finish, &other) {
                    return Ok(false);
                }
            }
            Err(refusal) => {
                if refusal.is_memory() {
                    return Err(AllocError);
                }
                return Ok(false);
            }
        }
    }
    Ok(true)
}

// A schedule on one of the regions that a run opens.
fn traced(
    alloc: Global,
    source: &[u8],
    nth: u64,
    settings: Settings,
    digits: &[u8],
) -> Result<Option<Trace>, AllocError> {
    let schedule = Schedule {
        nth,
        steps: STEPS,
        settings,
        digits,
        shown: Shown::Trace,
    };
    match replay_of(alloc, source, &INPUT, &schedule) {
        Ok(replayed) => Ok(Some(replayed.told.trace)),
        Err(NoTrace::Refused(Refusal::Memory)) => Err(AllocError),
        Err(_) => Ok(None),
    }
}

fn commits_same(one: &Trace, other: &Trace) -> bool {
    if one.counts.turns != other.counts.turns {
        return false;
    }
    one.text.as_slice() == other.text.as_slice() && one.store.as_slice() == other.store.as_slice()
}

// Whether a random schedule commits what one worker commits on its way, which takes it no more entries.
fn replay_agrees(
    alloc: Global,
    source: &[u8],
    regions: u64,
    random: &mut SmallRng,
) -> Result<bool, AllocError> {
    let nth = random.random_range(1..=regions.max(1));
    let settings = settings_by(random);
    let mut digits = vec![in alloc; b'0'; ENTRIES]?;
    let alone = vec![in alloc; b'0'; ENTRIES]?;
    for digit in digits.as_mut_slice() {
        let worker = random.random_range(0..settings.workers.max(1));
        *digit = b"01234567".get(worker as usize).copied().unwrap_or(b'0');
    }
    let Some(trace) = traced(alloc, source, nth, settings, digits.as_slice())? else {
        return Ok(false);
    };
    for length in 0..=ENTRIES {
        let Some(way) = traced(alloc, source, nth, settings, &alone[..length])? else {
            return Ok(false);
        };
        if commits_same(&trace, &way) {
            return Ok(true);
        }
    }
    Ok(false)
}

// A program that has ended, by threads and by a schedule.
fn trial_of_ended<R: Threads + Wait + Sync>(
    rt: &R,
    alloc: Global,
    source: &[u8],
    finish: &Finish,
    random: &mut SmallRng,
) -> Result<Trial, AllocError> {
    if !runs_agree(rt, alloc, source, finish, random)? {
        return Ok(BY_RUN);
    }
    let regions = finish.counts.regions;
    if regions > 0 && !replay_agrees(alloc, source, regions, random)? {
        return Ok(BY_REPLAY);
    }
    let by_a_fault = match finish.outcome.end {
        End::Normal(_) => false,
        End::Fault(_) => true,
    };
    Ok(Trial::Ended {
        by_a_fault,
        has_regions: regions > 0,
    })
}

/// A program by one thread, by several, and by a schedule. An `Err` is for want of memory.
pub(crate) fn trial_of<R: Threads + Wait + Sync>(
    rt: &R,
    alloc: Global,
    source: &[u8],
    seed: u64,
) -> Result<Trial, AllocError> {
    let mut random = SmallRng::seed_from_u64(seed.wrapping_add(1));
    match run_plain(alloc, source, &INPUT, STEPS) {
        Ok(PlainRan::Ended(finish)) => trial_of_ended(rt, alloc, source, &finish, &mut random),
        Ok(PlainRan::More) => Ok(Trial::NotEnded),
        Err(refusal) if refusal.is_memory() => Err(AllocError),
        Err(_) => Ok(REFUSED),
    }
}
