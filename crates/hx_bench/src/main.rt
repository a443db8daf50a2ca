//! Measured by the scripts of `bench/`: codes written by hand, each run for so many words by the plain machine, `hx_bench CODE WORDS`,
//! where CODE is `locals`, `arrays`, `calls` or `globals`; and a word looked for among others, `hx_bench WAY LENGTH TIMES`, where WAY is
//! `lanes`, `halves` or `ones`.
#![tactic(auto)]

mod codes;
mod finding;

use codes::{Sketch, code_of, sketch_named};
use finding::{Way, count_found, way_named};
use hx_exec::executable::Executable;
use hx_word::plain::{Plain, Ran};
use std::alloc::Global;
use std::{env, io};

// What came of a run.
#[derive(Clone, Copy)]
enum Came {
    Ended,
    More,
    Refused,
}

fn came_of(alloc: Global, sketch: Sketch, words: u64) -> Came {
    match code_of(alloc, sketch) {
        Ok(Some(code)) => came_of_code(alloc, &code, words),
        _ => Came::Refused,
    }
}

fn came_of_code(alloc: Global, code: &Executable, words: u64) -> Came {
    match Plain::new(alloc, code, &[]) {
        Ok(plain) => match plain.run(words) {
            Ran::Ended(_, _) => Came::Ended,
            Ran::More(_) => Came::More,
        },
        Err(_) => Came::Refused,
    }
}

// What is measured.
#[derive(Clone, Copy)]
enum Task {
    Run(Sketch),
    Find(Way),
}

fn task_named(name: &str) -> Option<Task> {
    if let Some(sketch) = sketch_named(name) {
        return Some(Task::Run(sketch));
    }
    Some(Task::Find(way_named(name)?))
}

fn do_task(rt: &HostRuntime, task: Task, length: u64, times: u64) -> io::Result<()> {
    match task {
        Task::Run(sketch) => match came_of(rt.alloc(), sketch, times) {
            Came::Ended => println!(rt; "ended within {times} words"),
            Came::More => println!(rt; "{times} words"),
            Came::Refused => println!(rt; "refused"),
        },
        Task::Find(way) => match count_found(rt.alloc(), way, length, times) {
            Ok(found) => println!(rt; "{found} found"),
            Err(_) => println!(rt; "no memory"),
        },
    }
}

fn main(rt: HostRuntime) -> io::Result<()> {
    let mut task = Task::Run(Sketch::Locals);
    let mut length = 16;
    let mut times = 100_000;
    for word in env::args(&rt)? {
        if let Some(named) = task_named(word.as_str()) {
            task = named;
        }
        if let Ok(number) = word.as_str().parse::<u64>() {
            length = times;
            times = number;
        }
    }
    do_task(&rt, task, length, times)
}
