// A frame by its own calls: one iteration of a marked loop, as a worker runs it by itself.

ghost use Rattle.std.specs.Prelude.{◌≡◌};
ghost use Rattle.hx_code.specs.Fits.{FitsLocal};

use crate::sources::code_for;
use hx_exec::executable::Executable;
use hx_exec::local::Local;
use hx_frame::action::{Action, Stop};
use hx_frame::frame::{Capacities, Frame, Tag};
use std::alloc::Global;
use std::process::Abort;

// Counts to two.
const COUNTS: &[u8] = b"int c; int main(){ pwhile(c<2){ c=c+1; } }";

// Where each iteration of the only region begins.
fn start_of(rt: &impl Abort, alloc: Global, code: &Executable) -> Local
    ensures { FitsLocal code.now result }
{
    if code.regions().len() != 1 {
        panic!(rt; "one region is wanted");
    }
    match Local::new(alloc, code) {
        Ok(mut start) => {
            start.begin(code, 0, 0, &[0; 64], 0);
            start
        }
        Err(_) => panic!(rt; "no memory"),
    }
}

// A frame with room for one word that is read, and for one that is written.
fn frame_for<'c>(rt: &impl Abort, alloc: Global, code: &'c Executable) -> Frame<'c>
    ensures { result.code ≡ code.now }
{
    match Frame::new(alloc, code, ROOM) {
        Ok(frame) => frame,
        Err(_) => panic!(rt; "no memory"),
    }
}

fn stops(rt: &impl Abort, frame: &mut Frame<'_>, limit: u64, wanted: Stop) {
    assert_eq!(rt; frame.run(limit), wanted);
}

// What it marked of a word as read, and what it wrote there.
fn has(rt: &impl Abort, frame: &Frame<'_>, word: u32, marked: Option<i32>, written: Option<i32>) {
    assert_eq!(rt; frame.marks().get(word), marked);
    assert_eq!(rt; frame.writes().get(word), written);
}

fn is_tagged(rt: &impl Abort, frame: &Frame<'_>, tag: Tag, room: Capacities) {
    assert_eq!(rt; frame.tagged(), tag);
    assert_eq!(rt; frame.capacities(), room);
}

fn shows(rt: &impl Abort, frame: &Frame<'_>, action: Action, regions: usize, calls: usize) {
    assert_eq!(rt; frame.action(), action);
    assert_eq!(rt; frame.code().regions().len(), regions);
    assert_eq!(rt; frame.start().calls(), calls);
}

// A turn that adds one to the only word.
fn adds_one(rt: &impl Abort, frame: &mut Frame<'_>) {
    stops(rt, frame, 1024, Stop::NeedLoad(0));
    frame.loaded(0);
    stops(rt, frame, 1, Stop::Limit);
    stops(rt, frame, 1024, Stop::NeedStore(0, 1));
    frame.stored();
    stops(rt, frame, 1024, Stop::NeedHead(Action::TurnEnd));
}

// Room for one word that is read, and for one that is written.
const ROOM: Capacities = Capacities {
    marks: 1,
    buffer: 1,
};

const TAG: Tag = Tag {
    worker: 1,
    iteration: 5,
    attempt: 2,
};

// A turn of the only region, which counts.
fn counts_once(rt: &impl Abort, alloc: Global, code: &Executable) {
    let start = start_of(rt, alloc, code);
    let mut frame = frame_for(rt, alloc, code);
    frame.restart(&start);
    frame.tag(1, 5, 2);
    adds_one(rt, &mut frame);
    has(rt, &frame, 0, Some(0), Some(1));
    shows(rt, &frame, Action::TurnEnd, 1, 1);
    is_tagged(rt, &frame, TAG, ROOM);
}

#[test]
fn a_turn_asks_for_one_load_and_one_store(rt: HostRuntime) {
    let code = code_for(&rt, rt.alloc(), COUNTS);
    counts_once(&rt, rt.alloc(), &code);
}

// A turn that waits at each thing that it asks for, and goes on behind it.
fn waits(rt: &impl Abort, frame: &mut Frame<'_>) {
    stops(rt, frame, 1024, Stop::NeedLoad(0));
    frame.hold();
    stops(rt, frame, 1024, Stop::NeedHead(Action::None));
    frame.advance();
    stops(rt, frame, 1024, Stop::NeedLoad(0));
    frame.loaded(0);
    stops(rt, frame, 1024, Stop::NeedHead(Action::Print(0)));
    frame.advance();
    has(rt, frame, 0, None, None);
    stops(rt, frame, 1024, Stop::NeedHead(Action::Emit(65)));
    frame.advance();
    stops(rt, frame, 1024, Stop::NeedStore(0, 5));
    frame.hold();
    stops(rt, frame, 1024, Stop::NeedHead(Action::None));
}

// A turn of the only region, which waits.
fn waits_once(rt: &impl Abort, alloc: Global, code: &Executable) {
    let start = start_of(rt, alloc, code);
    let mut frame = frame_for(rt, alloc, code);
    frame.restart(&start);
    waits(rt, &mut frame);
    shows(rt, &frame, Action::None, 1, 1);
}

#[test]
fn what_waits_goes_on_behind(rt: HostRuntime) {
    let source = b"int c; int main(){ pwhile(c<1){ print(c); emit(65); c=5; } }";
    let code = code_for(&rt, rt.alloc(), source);
    waits_once(&rt, rt.alloc(), &code);
}

// Whether a source has the same code as another.
fn is_code_of(rt: &impl Abort, alloc: Global, source: &[u8], code: &Executable, wanted: bool) {
    let other = code_for(rt, alloc, source);
    assert_eq!(rt; code.is_same(&other), wanted);
}

#[test]
fn codes_are_compared_by_their_parts(rt: HostRuntime) {
    let code = code_for(&rt, rt.alloc(), COUNTS);
    is_code_of(&rt, rt.alloc(), COUNTS, &code, true);
    let other = b"int c; int main(){ pwhile(c<3){ c=c+1; } }";
    is_code_of(&rt, rt.alloc(), other, &code, false);
}

// An iteration of the same code, made anew, begins in this state.
fn begins_so(rt: &impl Abort, alloc: Global, start: &Local) {
    let again = code_for(rt, alloc, COUNTS);
    let same = start_of(rt, alloc, &again);
    assert_eq!(rt; start.is_same(&same), true);
}

// A run begins in another.
fn is_no_run(rt: &impl Abort, alloc: Global, code: &Executable, start: &Local) {
    match Local::new(alloc, code) {
        Ok(main) => assert_eq!(rt; start.is_same(&main), false),
        Err(_) => panic!(rt; "no memory"),
    }
}

// The state in which an iteration of a code begins, beside two others.
fn compares(rt: &impl Abort, alloc: Global, code: &Executable) {
    let start = start_of(rt, alloc, code);
    begins_so(rt, alloc, &start);
    is_no_run(rt, alloc, code, &start);
}

#[test]
fn states_are_compared_by_their_parts(rt: HostRuntime) {
    let code = code_for(&rt, rt.alloc(), COUNTS);
    compares(&rt, rt.alloc(), &code);
}
