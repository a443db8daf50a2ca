// Workers that overlap: a gate holds iteration 0 back until iteration 1 has loaded a word.

use crate::answers::{Counted, NORMAL, Row, expect, run_of};
use hx_run::{Call, Gate, Point};
use hx_tree::outcome::Settings;
use std::alloc::Global;
use std::process::Abort;
use std::sync::Wait;
use std::sync::atomic::{AtomicU64, Ordering};
use std::thread;
use std::thread::Threads;

/// How often the gate looks whether iteration 1 has loaded a word.
const LOOKS: u64 = 1_000_000;

/// Holds iteration 0 at the first of these points until iteration 1 has loaded a word.
#[derive(Drop)]
struct Holding {
    point: Point,
    has_loaded: AtomicU64,
    was_held: AtomicU64,
    missed: AtomicU64,
}

impl Holding {
    fn at_first(point: Point) -> Holding {
        Holding {
            point,
            has_loaded: AtomicU64::new(0),
            was_held: AtomicU64::new(0),
            missed: AtomicU64::new(0),
        }
    }

    // Looks until iteration 1 has loaded a word, or no more.
    fn wait(&self) {
        for _ in 0..LOOKS {
            if self.has_loaded.load(Ordering::SeqCst) == 1 {
                return;
            }
            thread::yield_now();
        }
        self.missed.store(1, Ordering::SeqCst);
    }
}

impl Gate for Holding {
    fn at(&self, _worker: u32, iteration: Option<u64>, point: Point) {
        if iteration == Some(1) && point == Point::AfterCall(Call::Load) {
            self.has_loaded.store(1, Ordering::SeqCst);
        }
        if iteration == Some(0) && point == self.point {
            if self.was_held.swap(1, Ordering::SeqCst) == 0 {
                self.wait();
            }
        }
    }
}

// A run on so many workers, where iteration 0 goes on at this point once iteration 1 has loaded a word. None where it has loaded none.
fn held_run_of<R: Threads + Wait + Sync>(
    rt: &R,
    alloc: Global,
    row: &Row<'_>,
    workers: u32,
    point: Point,
) -> Option<Counted> {
    let gate = Holding::at_first(point);
    let settings = Settings {
        workers,
        marks: 512,
        buffer: 64,
    };
    let counted = run_of(rt, alloc, row, settings, &gate);
    if gate.missed.load(Ordering::SeqCst) == 0 && gate.has_loaded.load(Ordering::SeqCst) == 1 {
        Some(counted)
    } else {
        None
    }
}

// That iteration 0, held there, stores what iteration 1 has read, which so begins again.
fn overlaps<R: Abort + Threads + Wait + Sync>(
    rt: &R,
    alloc: Global,
    row: &Row<'_>,
    workers: u32,
    point: Point,
) {
    let is_right = match held_run_of(rt, alloc, row, workers, point) {
        Some(Ok(counts)) => {
            counts.turns == row.turns
                && counts.violations >= 1
                && counts.restarts >= 1
                && counts.repeats >= 1
        }
        _ => false,
    };
    expect(rt, is_right, row.source);
}

static SUM: Row<'static> = Row {
    source: b"int main(){ int s=0; pfor(int i=1;i<=100;i++) s+=i; print(s); }",
    text: b"5050\n",
    regions: 1,
    turns: 100,
    ..NORMAL
};

// Each turn adds to the sum of the one before.
#[test]
fn gate_overlap(rt: HostRuntime) {
    overlaps(&rt, rt.alloc(), &SUM, 2, Point::InStretch);
    overlaps(&rt, rt.alloc(), &SUM, 2, Point::BeforeCall(Call::Load));
}

static WAITING: Row<'static> = Row {
    source: b"int go; int main(){ pfor(int i=0;i<2;i++){ if(i==0) go=1; else while(go==0){} } print(go); }",
    text: b"1\n",
    globals: Some(&[1]),
    regions: 1,
    turns: 2,
    ..NORMAL
};

// Iteration 1 waits in its turn for a word that iteration 0 stores: what it has read is taken back.
#[test]
fn a_turn_waits_for_another(rt: HostRuntime) {
    for workers in [2, 4, 8] {
        overlaps(&rt, rt.alloc(), &WAITING, workers, Point::InStretch);
    }
}

static SPARED: Row<'static> = Row {
    source: b"int go; int x; int main(){ pfor(int i=0;i<2;i++){ if(i==0) go=0; else x=go; } }",
    globals: Some(&[0, 0]),
    regions: 1,
    turns: 2,
    ..NORMAL
};

// Iteration 0 stores the 0 that iteration 1 has read.
#[test]
fn a_store_of_what_was_read_is_spared(rt: HostRuntime) {
    let is_right = match held_run_of(&rt, rt.alloc(), &SPARED, 2, Point::InStretch) {
        Some(Ok(counts)) => {
            counts.spared == 1
                && counts.violations == 0
                && counts.restarts == 0
                && counts.repeats == 0
        }
        _ => false,
    };
    expect(&rt, is_right, SPARED.source);
}

static LEAVING: Row<'static> = Row {
    source: b"int go; int main(){ pfor(int i=0;i<9;i++){ if(i==0) break; go=go+1; } }",
    globals: Some(&[0]),
    regions: 1,
    ..NORMAL
};

// Iteration 0 leaves the loop, while iteration 1 is under way.
#[test]
fn what_runs_behind_the_end_is_dropped(rt: HostRuntime) {
    let is_right = match held_run_of(&rt, rt.alloc(), &LEAVING, 2, Point::InStretch) {
        Some(Ok(counts)) => counts.discarded == 1 && counts.turns == 0,
        _ => false,
    };
    expect(&rt, is_right, LEAVING.source);
}

/// Counts how often a worker has run as many words as it may without a call, and asks whether its iteration is alive.
#[derive(Drop)]
struct Long {
    stretches: AtomicU64,
}

impl Gate for Long {
    fn at(&self, _worker: u32, _iteration: Option<u64>, point: Point) {
        if point == Point::BeforeCall(Call::Alive) {
            self.stretches.fetch_add(1, Ordering::SeqCst);
        }
    }
}

// How many stretches one worker runs to their limit, where the run comes to this row.
fn long_stretches_of<R: Threads + Wait + Sync>(
    rt: &R,
    alloc: Global,
    row: &Row<'_>,
) -> Option<u64> {
    let gate = Long {
        stretches: AtomicU64::new(0),
    };
    let settings = Settings {
        workers: 1,
        marks: 512,
        buffer: 64,
    };
    match run_of(rt, alloc, row, settings, &gate) {
        Ok(_) => Some(gate.stretches.load(Ordering::SeqCst)),
        Err(_) => None,
    }
}

static STRETCHES: [(Row<'static>, u64); 2] = [
    (
        Row {
            source: b"int g; int main(){ pfor(int i=0;i<1;i++){ int k; for(k=0;k<112;k++) ; k=k; g=k; } }",
            globals: Some(&[112]),
            regions: 1,
            turns: 1,
            ..NORMAL
        },
        0,
    ),
    (
        Row {
            source: b"int g; int main(){ pfor(int i=0;i<1;i++){ int k; for(k=0;k<112;k++) ; k=-k; g=k; } }",
            globals: Some(&[-112]),
            regions: 1,
            turns: 1,
            ..NORMAL
        },
        1,
    ),
];

// Before the store of `g` a turn has 4 words for its test, 2 for `k`, 2 for its first value, 9 for each of 112 rounds, 4 for the last test
// and 1 for what is stored: 1,021. With `k=k;` there are 2 more, and with `k=-k;` 3 more.
#[test]
fn a_stretch_has_1024_words(rt: HostRuntime) {
    for (row, count) in &STRETCHES {
        let found = long_stretches_of(&rt, rt.alloc(), row);
        expect(&rt, found == Some(*count), row.source);
    }
}
