// A region by itself on threads.

use crate::machines::{code_for, expect, first_entry};
use hx_board::Job;
use hx_code::word::Exit;
use hx_exec::executable::Executable;
use hx_pool::{Unwatched, run_region};
use hx_tree::outcome::Settings;
use hx_word::entry::RegionEnd;
use std::alloc::Global;
use std::process::Abort;
use std::sync::Wait;
use std::thread::Threads;

const SUM_OF_A_HUNDRED: &[u8] = b"int main(){ int s=0; pfor(int i=1;i<=100;i++) s+=i; print(s); }";

const SETTINGS: Settings = Settings {
    workers: 3,
    marks: 512,
    buffer: 64,
};

// The end of the first region of a code, by itself on three threads.
fn first_ended<W: Abort + Threads + Wait + Sync>(
    rt: &W,
    alloc: Global,
    code: &Executable,
) -> RegionEnd {
    let (region, entry) = first_entry(rt, alloc, code);
    let job = Job { code, region };
    match run_region(rt, alloc, &job, entry, SETTINGS, &Unwatched) {
        Ok(end) => end,
        Err(_) => rt.panic("no end"),
    }
}

// Whether a loop of a hundred turns was left, with nothing printed.
fn is_hundred(end: &RegionEnd) -> bool {
    end.exit == Exit::Left && end.text.is_empty() && end.counts.turns == 100
}

#[test]
fn a_region_ends_on_threads(rt: HostRuntime) {
    let code = code_for(&rt, rt.alloc(), SUM_OF_A_HUNDRED);
    let end = first_ended(&rt, rt.alloc(), &code);
    expect(&rt, is_hundred(&end), b"another end");
}
