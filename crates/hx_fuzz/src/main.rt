//! Random programs, whose text, end and whole turns must be the same by one thread, by several workers and by written schedules. The same
//! programs each time: `hx_fuzz [FIRST [COUNT]]` tries others. It prints one line.
#![tactic(auto)]

mod agreeing;
mod making;
mod tally;

use agreeing::trial_of;
use making::source_of;
use std::alloc::{AllocError, Global};
use std::sync::Wait;
use std::thread::Threads;
use std::{env, io};
use tally::{Tally, Trial};

// The program of a seed, tried.
fn trial_by<R: Threads + Wait + Sync>(
    rt: &R,
    alloc: Global,
    seed: u64,
) -> Result<Trial, AllocError> {
    let source = source_of(alloc, seed)?;
    trial_of(rt, alloc, source.as_slice(), seed)
}

fn main(rt: HostRuntime) -> io::Result<()> {
    let mut numbers = [1, 1000];
    let mut place = 0;
    for word in env::args(&rt)? {
        if let Ok(number) = word.as_str().parse::<u64>() {
            if place < numbers.len() {
                numbers[place] = number;
                place += 1;
            }
        }
    }
    let [first, count] = numbers;
    let mut tally = Tally::new();
    for seed in first..first.saturating_add(count) {
        match trial_by(&rt, rt.alloc(), seed) {
            Ok(Trial::Disagrees(what)) => println!(rt; "seed {seed}: {what}")?,
            Ok(trial) => tally.add(trial),
            Err(_) => println!(rt; "seed {seed}: no memory")?,
        }
    }
    if tally.tries_all(count) {
        println!(rt; "{count} programs: no disagreement")
    } else {
        println!(rt; "{tally}")
    }
}
