// All short schedules of three workers: what each has committed is what one worker alone commits on its way.

ghost use Rattle.std.specs.Prelude.{◌≡◌};
ghost use Rattle.hx_word.specs.Entry.{EntryFits};

use crate::sources::code_for;
use hx_board::State;
use hx_exec::executable::Executable;
use hx_frame::Capacities;
use hx_trace::{Trace, TraceError, replay};
use hx_word::entry::Entry;
use hx_word::plain::{Open, Paused, Plain};
use std::alloc::Global;
use std::process::Abort;

/// The entries of the longest schedules.
const LONGEST: usize = 10;

/// The schedules of three workers of at most so many entries: 3^0 + 3^1 + .. + 3^10.
const SCHEDULES: u32 = 88_573;

/// So many entries end the marked loop of each program here where one worker has them all.
const ENOUGH: usize = 512;

/// How many words a program may run before its loop.
const STEPS: u64 = 1_000_000;

const AMPLE: Capacities = Capacities {
    marks: 512,
    buffer: 64,
};

const SCANT: Capacities = Capacities {
    marks: 1,
    buffer: 1,
};

// A marked loop as it opens.
#[derive(Clone, Copy)]
struct Opening<'a> {
    code: &'a Executable,
    region: u32,
    entry: &'a Entry,
    rooms: Capacities,
}

fn traced(
    alloc: Global,
    at: Opening<'_>,
    workers: u32,
    schedule: &[u8],
) -> Result<Trace, TraceError>
    requires { EntryFits at.code.now at.region at.entry.now }
{
    replay(
        alloc, at.code, at.region, at.entry, workers, at.rooms, schedule,
    )
}

// Whether both have committed the same.
fn is_same(one: &Trace, other: &Trace) -> bool {
    if one.counts.turns != other.counts.turns {
        return false;
    }
    one.text.as_slice() == other.text.as_slice() && one.store.as_slice() == other.store.as_slice()
}

// Whether one of these has committed the same.
fn is_known(way: &[Trace], trace: &Trace) -> bool {
    way.iter().any(|known| is_same(known, trace))
}

// Adds what isn't known yet; whether its loop has ended.
fn added(rt: &impl Abort, way: &mut Vec<Trace>, trace: Trace) -> bool {
    let has_ended = trace.state != State::Running;
    if !is_known(way, &trace) && way.push(trace).is_err() {
        panic!(rt; "no memory");
    }
    has_ended
}

// What one worker commits on its way to the loop's end, each once.
fn way_alone(rt: &impl Abort, alloc: Global, at: Opening<'_>) -> Vec<Trace>
    requires { EntryFits at.code.now at.region at.entry.now }
{
    let schedule = [0; ENOUGH];
    let mut way = Vec::new(alloc);
    for length in 0..ENOUGH {
        match traced(alloc, at, 1, &schedule[..length]) {
            Ok(trace) => {
                if added(rt, &mut way, trace) {
                    return way;
                }
            }
            Err(_) => panic!(rt; "no trace"),
        }
    }
    panic!(rt; "the loop goes on")
}

// The next schedule of its length, in the order of numbers; false behind the last.
fn next(schedule: &mut [u8]) -> bool {
    for digit in schedule.iter_mut() {
        if *digit < 2 {
            *digit += 1;
            return true;
        }
        *digit = 0;
    }
    false
}

// Whether a schedule of three workers leads to a place on that way.
fn is_on(alloc: Global, at: Opening<'_>, way: &[Trace], schedule: &[u8]) -> bool
    requires { EntryFits at.code.now at.region at.entry.now }
{
    match traced(alloc, at, 3, schedule) {
        Ok(trace) => is_known(way, &trace),
        Err(_) => false,
    }
}

// All schedules of three workers of one length, from this first one, and how many there are.
fn all_of_length(
    rt: &impl Abort,
    alloc: Global,
    at: Opening<'_>,
    way: &[Trace],
    schedule: &mut [u8],
) -> u32
    requires { EntryFits at.code.now at.region at.entry.now }
{
    let mut count = 0u32;
    for _ in 0..SCHEDULES {
        assert!(rt; is_on(alloc, at, way, schedule), "{schedule:?}");
        count = count.saturating_add(1);
        if !next(schedule) {
            break;
        }
    }
    count
}

fn all_on(rt: &impl Abort, alloc: Global, at: Opening<'_>, way: &[Trace])
    requires { EntryFits at.code.now at.region at.entry.now }
{
    let mut count = 0u32;
    for length in 0..=LONGEST {
        let mut schedule = [0; LONGEST];
        let of_length = all_of_length(rt, alloc, at, way, &mut schedule[..length]);
        count = count.saturating_add(of_length);
    }
    assert_eq!(rt; count, SCHEDULES);
}

fn all_short(rt: &impl Abort, alloc: Global, at: Opening<'_>)
    requires { EntryFits at.code.now at.region at.entry.now }
{
    let way = way_alone(rt, alloc, at);
    all_on(rt, alloc, at, &way);
}

fn all_short_from(
    rt: &impl Abort,
    alloc: Global,
    code: &Executable,
    opened: &Open<'_>,
    rooms: Capacities,
)
    requires { opened.now.code ≡ code.now }
{
    match opened.entry(alloc) {
        Ok(entry) => {
            let at = Opening {
                code,
                region: opened.region(),
                entry: &entry,
                rooms,
            };
            all_short(rt, alloc, at);
        }
        Err(_) => panic!(rt; "no memory"),
    }
}

// The first marked loop of a code.
fn all_short_of(rt: &impl Abort, alloc: Global, code: &Executable, rooms: Capacities) {
    let Ok(plain) = Plain::new(alloc, code, &[]) else {
        panic!(rt; "no machine");
    };
    match plain.to_region(STEPS) {
        Paused::At(opened) => all_short_from(rt, alloc, code, &opened, rooms),
        _ => panic!(rt; "no region"),
    }
}

fn all_short_in(rt: &impl Abort, alloc: Global, source: &[u8], rooms: Capacities) {
    let code = code_for(rt, alloc, source);
    all_short_of(rt, alloc, &code, rooms);
}

#[test]
fn turns_that_write_words_of_their_own(rt: HostRuntime) {
    let source = b"int a[8]; int main(){ pfor(int i=0;i<8;i++) a[i]=i*i; print(a[7]); }";
    all_short_in(&rt, rt.alloc(), source, AMPLE);
}

#[test]
fn a_list_that_is_walked(rt: HostRuntime) {
    let source = b"int n[4]={2,3,1,-1}; int main(){ int p=0; pwhile(p!=-1){ print(p); p=n[p]; } }";
    all_short_in(&rt, rt.alloc(), source, AMPLE);
}

#[test]
fn a_divisor_that_is_stored_before(rt: HostRuntime) {
    let source = b"int d; int main(){ pfor(int i=0;i<2;i++){ if(i==0) d=2; else print(10/d); } }";
    all_short_in(&rt, rt.alloc(), source, AMPLE);
}

#[test]
fn tables_of_one_word(rt: HostRuntime) {
    let source =
        b"int a; int b; int c; int main(){ pwhile(c<2){ a=a+1; print(a); b=b+a; print(b); c=c+1; } }";
    all_short_in(&rt, rt.alloc(), source, SCANT);
}

#[test]
fn a_loop_that_breaks(rt: HostRuntime) {
    let source = b"int a[8]; int main(){ pfor(int i=0;i<8;i++){ if(i==3) break; a[i]=1; } }";
    all_short_in(&rt, rt.alloc(), source, AMPLE);
}

#[test]
fn a_count_of_two_turns(rt: HostRuntime) {
    let source = b"int c; int main(){ pwhile(c<2){ c=c+1; } }";
    all_short_in(&rt, rt.alloc(), source, AMPLE);
}
