// Calls that return at once, and calls that call, within one hop; values worked out by hand.

ghost use Rattle.std.specs.Prelude.{◌≡◌};
ghost use Rattle.hx_code.specs.Fits.{FitsLocal};

use crate::calls::{Within, hop};
use crate::codes::{Function, HERE, Plan, executable};
use hx_code::word::{Ask, Word};
use hx_exec::Answer;
use hx_exec::executable::Executable;
use hx_exec::local::Local;
use hx_tree::tree::Operator;
use std::alloc::Global;
use std::process::Abort;
use std::test::Fail;

const MAIN: Function = Function {
    number: 0,
    entry: 0,
    parameters: 0,
    privates: 0,
};

// Functions of one parameter, by their places.
const FROM_FIVE: Function = Function {
    number: 1,
    entry: 5,
    parameters: 1,
    privates: 1,
};

const FROM_THREE: Function = Function {
    number: 1,
    entry: 3,
    parameters: 1,
    privates: 1,
};

const FROM_SIX: Function = Function {
    number: 2,
    entry: 6,
    parameters: 1,
    privates: 1,
};

const FROM_NINE: Function = Function {
    number: 3,
    entry: 9,
    parameters: 1,
    privates: 1,
};

const FROM_EIGHT: Function = Function {
    number: 2,
    entry: 8,
    parameters: 1,
    privates: 1,
};

// 5 * 2 + 1, where the product is a call's.
static TWICE: Plan<'static> = Plan {
    lines: &[
        (Word::Const(5), 0),
        (Word::Call(1, HERE), 1),
        (Word::Const(1), 1),
        (Word::Binary(Operator::Add, HERE), 2),
        (Word::Ret, 1),
        (Word::Priv(0), 0),
        (Word::Const(2), 1),
        (Word::Binary(Operator::Mul, HERE), 2),
        (Word::Ret, 1),
    ],
    changes: &[],
    functions: &[MAIN, FROM_FIVE],
    main: 0,
    region: None,
    globals: 0,
    opening: &[],
};

// The same, where the sum is a call's too, which calls for the product.
static ABOVE: Plan<'static> = Plan {
    lines: &[
        (Word::Const(5), 0),
        (Word::Call(1, HERE), 1),
        (Word::Ret, 1),
        (Word::Priv(0), 0),
        (Word::Call(2, HERE), 1),
        (Word::Const(1), 1),
        (Word::Binary(Operator::Add, HERE), 2),
        (Word::Ret, 1),
        (Word::Priv(0), 0),
        (Word::Const(2), 1),
        (Word::Binary(Operator::Mul, HERE), 2),
        (Word::Ret, 1),
    ],
    changes: &[],
    functions: &[MAIN, FROM_THREE, FROM_EIGHT],
    main: 0,
    region: None,
    globals: 0,
    opening: &[],
};

// 5 * 2 * 3, where the last product is a call's too, which calls for the first; it isn't done by the instruction that returns.
static BEHIND: Plan<'static> = Plan {
    lines: &[
        (Word::Const(5), 0),
        (Word::Call(1, HERE), 1),
        (Word::Ret, 1),
        (Word::Priv(0), 0),
        (Word::Call(2, HERE), 1),
        (Word::Const(3), 1),
        (Word::Binary(Operator::Mul, HERE), 2),
        (Word::Ret, 1),
        (Word::Priv(0), 0),
        (Word::Const(2), 1),
        (Word::Binary(Operator::Mul, HERE), 2),
        (Word::Ret, 1),
    ],
    changes: &[],
    functions: &[MAIN, FROM_THREE, FROM_EIGHT],
    main: 0,
    region: None,
    globals: 0,
    opening: &[],
};

// 7, which each of three functions has from the next.
static HIGHER: Plan<'static> = Plan {
    lines: &[
        (Word::Const(7), 0),
        (Word::Call(1, HERE), 1),
        (Word::Ret, 1),
        (Word::Priv(0), 0),
        (Word::Call(2, HERE), 1),
        (Word::Ret, 1),
        (Word::Priv(0), 0),
        (Word::Call(3, HERE), 1),
        (Word::Ret, 1),
        (Word::Priv(0), 0),
        (Word::Ret, 1),
    ],
    changes: &[],
    functions: &[MAIN, FROM_THREE, FROM_SIX, FROM_NINE],
    main: 0,
    region: None,
    globals: 0,
    opening: &[],
};

// A number alone.
static NONE: Plan<'static> = Plan {
    lines: &[(Word::Const(5), 0), (Word::Ret, 1)],
    changes: &[],
    functions: &[MAIN],
    main: 0,
    region: None,
    globals: 0,
    opening: &[],
};

// How much of the room of a hop is over, where the innermost call stands then unless it stays at its word, how many calls there are, and what
// a stretch from there asks.
type Hopped = (u64, Option<u32>, usize, Ask);

fn hopped_on(code: &Executable, calls: &mut Local, within: Within) -> Result<Hopped, Fail>
    requires fits { FitsLocal code.now calls.old }
    requires all { calls.old.below ≡ 0 }
{
    let ran = hop(code, calls, within)?;
    let place = match ran.answer {
        Answer::Stays => None,
        _ => Some(ran.place),
    };
    let deep = calls.calls();
    let done = calls.stretch_over(code, &mut [], 1000);
    Ok((ran.over, place, deep, done.ask))
}

fn hopped_in(alloc: Global, code: &Executable, within: Within) -> Result<Hopped, Fail> {
    let mut calls = Local::new(alloc, code)?;
    hopped_on(code, &mut calls, within)
}

fn hopped(alloc: Global, plan: &Plan<'_>, within: Within) -> Result<Hopped, Fail> {
    let code = executable(alloc, plan)?;
    hopped_in(alloc, &code, within)
}

fn hops(
    rt: &impl Abort,
    alloc: Global,
    plan: &Plan<'_>,
    within: Within,
    wanted: Hopped,
) -> Result<(), Fail> {
    let found = hopped(alloc, plan, within)?;
    assert_eq!(rt; found, wanted);
    Ok(())
}

// Eight words: two of `main`, four of the call, its return among them, and two of `main` again, up to its return.
#[test]
fn a_call_returns_within_a_hop(rt: HostRuntime) -> Result<(), Fail> {
    let wanted = (992, None, 1, Ask::Returns(11));
    hops(&rt, rt.alloc(), &TWICE, Within::Calls, wanted)
}

// Seven words, and then the return of the second call to the first, which goes on above `main`.
#[test]
fn a_call_that_calls_goes_on_above(rt: HostRuntime) -> Result<(), Fail> {
    let wanted = (993, Some(5), 2, Ask::Returns(30));
    hops(&rt, rt.alloc(), &BEHIND, Within::Calls, wanted)
}

// Seven words, the return of the second call, the sum in the first, and then its return to `main`.
#[test]
fn a_value_goes_on_through_the_call_below(rt: HostRuntime) -> Result<(), Fail> {
    let wanted = (990, Some(2), 1, Ask::Returns(11));
    hops(&rt, rt.alloc(), &ABOVE, Within::Calls, wanted)
}

// Eleven words: two of `main`, two of the first call, four of the second, its return among them, and three of the first, its return the last.
#[test]
fn a_call_that_calls_returns_within_a_higher_hop(rt: HostRuntime) -> Result<(), Fail> {
    let wanted = (989, None, 1, Ask::Returns(30));
    hops(&rt, rt.alloc(), &BEHIND, Within::CallsThatCall, wanted)
}

// Seven words, three of them calls, and then the returns of the third call, the second and the first.
#[test]
fn a_value_of_a_third_call_goes_on_through_all(rt: HostRuntime) -> Result<(), Fail> {
    let wanted = (991, Some(2), 1, Ask::Returns(7));
    hops(&rt, rt.alloc(), &HIGHER, Within::CallsThatCall, wanted)
}

// Ten words: two of `main`, two of each of the next two calls, two of the third, its return among them, and the returns of the others.
#[test]
fn a_value_of_a_third_call_goes_on_within_the_highest_hop(rt: HostRuntime) -> Result<(), Fail> {
    let wanted = (990, None, 1, Ask::Returns(7));
    hops(&rt, rt.alloc(), &HIGHER, Within::CallsSixDeep, wanted)
}

// A word, and then a call, before which it stays.
#[test]
fn words_of_the_only_call_stop_before_a_call(rt: HostRuntime) -> Result<(), Fail> {
    let wanted = (999, None, 1, Ask::Returns(11));
    hops(&rt, rt.alloc(), &TWICE, Within::Nothing, wanted)
}

fn has_calls(alloc: Global, plan: &Plan<'_>) -> Result<bool, Fail> {
    let code = executable(alloc, plan)?;
    Ok(code.has_calls())
}

fn calls_higher(alloc: Global, plan: &Plan<'_>) -> Result<bool, Fail> {
    let code = executable(alloc, plan)?;
    Ok(code.calls_higher())
}

fn calls_highest(alloc: Global, plan: &Plan<'_>) -> Result<bool, Fail> {
    let code = executable(alloc, plan)?;
    Ok(code.calls_highest())
}

#[test]
fn code_tells_whether_functions_call_callers(rt: HostRuntime) -> Result<(), Fail> {
    let higher = calls_highest(rt.alloc(), &HIGHER)?;
    let behind = calls_highest(rt.alloc(), &BEHIND)?;
    assert_eq!(&rt; (higher, behind), (true, false));
    Ok(())
}

#[test]
fn code_tells_whether_functions_call_others(rt: HostRuntime) -> Result<(), Fail> {
    let behind = calls_higher(rt.alloc(), &BEHIND)?;
    let twice = calls_higher(rt.alloc(), &TWICE)?;
    assert_eq!(&rt; (behind, twice), (true, false));
    Ok(())
}

#[test]
fn code_tells_whether_it_has_calls(rt: HostRuntime) -> Result<(), Fail> {
    let calls = has_calls(rt.alloc(), &TWICE)?;
    let none = has_calls(rt.alloc(), &NONE)?;
    assert_eq!(&rt; (calls, none), (true, false));
    Ok(())
}
