// Simple loops that call, in hand-written code, with values worked out by hand.

ghost use Rattle.std.specs.Prelude.{◌≡◌, ◌∷◌, [], List};
ghost use Rattle.hx_code.specs.Call.{CallView};

use crate::codes::{Function, HERE, Line, Marked, Plan, executable};
use hx_code::table::{Carried, Induct};
use hx_code::word::{Ask, Word};
use hx_exec::executable::Executable;
use hx_exec::local::Local;
use hx_exec::{MANY, OneDeep, Straight, Stride, TwoDeep, WithCalls};
use hx_tree::limits::PRIVATE_LIMIT;
use hx_tree::tree::Operator;
use std::alloc::Global;
use std::process::Abort;
use std::test::Fail;

// Iterations of region 0, which stand at 1 to 15: while private word 0, which counts them, is less than 3, the value of a call with it is added to the first
// cell, which is the third word of the store. What is called stands at 18: its value is the square of its argument.
static SQUARES: [Line; 22] = [
    (Word::Enter(0, 16), 0),
    (Word::Priv(0), 0),
    (Word::Const(3), 1),
    (Word::Binary(Operator::Less, HERE), 2),
    (Word::JumpFalse(15), 1),
    (Word::Glob(2), 0),
    (Word::Priv(0), 1),
    (Word::Call(1, HERE), 2),
    (Word::Binary(Operator::Add, HERE), 2),
    (Word::SetGlob(2), 1),
    (Word::Priv(0), 0),
    (Word::Const(1), 1),
    (Word::Binary(Operator::Add, HERE), 2),
    (Word::SetPriv(0), 1),
    (Word::Turn, 0),
    (Word::Leave, 0),
    (Word::Const(0), 0),
    (Word::Ret, 1),
    (Word::Priv(0), 0),
    (Word::Priv(0), 1),
    (Word::Binary(Operator::Mul, HERE), 2),
    (Word::Ret, 1),
];

// The same loop, but what is called has one of its own, at 18 to 28: its value is the sum of the numbers up to its argument.
static SUMS: [Line; 31] = [
    (Word::Enter(0, 16), 0),
    (Word::Priv(0), 0),
    (Word::Const(3), 1),
    (Word::Binary(Operator::Less, HERE), 2),
    (Word::JumpFalse(15), 1),
    (Word::Glob(2), 0),
    (Word::Priv(0), 1),
    (Word::Call(1, HERE), 2),
    (Word::Binary(Operator::Add, HERE), 2),
    (Word::SetGlob(2), 1),
    (Word::Priv(0), 0),
    (Word::Const(1), 1),
    (Word::Binary(Operator::Add, HERE), 2),
    (Word::SetPriv(0), 1),
    (Word::Turn, 0),
    (Word::Leave, 0),
    (Word::Const(0), 0),
    (Word::Ret, 1),
    (Word::Priv(0), 0),
    (Word::JumpFalse(29), 1),
    (Word::Priv(1), 0),
    (Word::Priv(0), 1),
    (Word::Binary(Operator::Add, HERE), 2),
    (Word::SetPriv(1), 1),
    (Word::Priv(0), 0),
    (Word::Const(1), 1),
    (Word::Binary(Operator::Sub, HERE), 2),
    (Word::SetPriv(0), 1),
    (Word::Jump(18), 0),
    (Word::Priv(1), 0),
    (Word::Ret, 1),
];

// The same loop, but what is called calls another twice, which stands at 22: its value is the fourth power of its argument.
static FOURTHS: [Line; 26] = [
    (Word::Enter(0, 16), 0),
    (Word::Priv(0), 0),
    (Word::Const(3), 1),
    (Word::Binary(Operator::Less, HERE), 2),
    (Word::JumpFalse(15), 1),
    (Word::Glob(2), 0),
    (Word::Priv(0), 1),
    (Word::Call(1, HERE), 2),
    (Word::Binary(Operator::Add, HERE), 2),
    (Word::SetGlob(2), 1),
    (Word::Priv(0), 0),
    (Word::Const(1), 1),
    (Word::Binary(Operator::Add, HERE), 2),
    (Word::SetPriv(0), 1),
    (Word::Turn, 0),
    (Word::Leave, 0),
    (Word::Const(0), 0),
    (Word::Ret, 1),
    (Word::Priv(0), 0),
    (Word::Call(2, HERE), 1),
    (Word::Call(2, HERE), 1),
    (Word::Ret, 1),
    (Word::Priv(0), 0),
    (Word::Priv(0), 1),
    (Word::Binary(Operator::Mul, HERE), 2),
    (Word::Ret, 1),
];

const MAIN: Function = Function {
    number: 0,
    entry: 0,
    parameters: 0,
    privates: 2,
};

const CALLED: Function = Function {
    number: 1,
    entry: 18,
    parameters: 1,
    privates: 2,
};

const CALLED_BY_IT: Function = Function {
    number: 2,
    entry: 22,
    parameters: 1,
    privates: 1,
};

// Private word 1 is carried.
const REGION: Marked<'static> = Marked {
    start: 1,
    exit: 16,
    carried: &[Carried {
        private: 1,
        cell: 0,
    }],
    copied: &[],
    counter: Some(Induct {
        private: 0,
        step: 1,
    }),
};

fn made<'a>(
    alloc: Global,
    lines: &'a [Line],
    functions: &'a [Function],
) -> Result<Box<Executable>, Fail> {
    let plan = Plan {
        lines,
        changes: &[],
        functions,
        main: 0,
        region: Some(REGION),
        globals: 2,
        opening: &[0, 0],
    };
    executable(alloc, &plan)
}

/// The loop over the words of a simple loop.
struct OverLoops;

// What words of the loop came to, and, where these didn't lead to its end, words of its iterations up to that: how many there were in all, the whole turns, whether
// the former led to its end, and the third word of the store.
#[derive(Clone, Copy)]
struct Came {
    words: u64,
    turns: u64,
    at_once: bool,
    sum: i32,
}

// So many words of the loop that the call opens, and then those of its iterations: the call goes on behind it. It isn't tried where the limit is too
// near.
fn gone_round<W: Stride>(
    code: &Executable,
    calls: &mut Local,
    local: &mut Local,
    limit: u64,
) -> Result<Option<Came>, Fail>
    requires empty { (c : CallView) (rest : List CallView) → calls.old.calls ≡ c ∷ rest → c.operands ≡ [] }
{
    code.known();
    if code.regions().is_empty() || code.globals() != 2 || calls.calls() != 1 {
        return Err(Fail::from("another code"));
    }
    if limit > MANY {
        return Err(Fail::from("too many words"));
    }
    let mut store = [0; 66];
    let Some(ready) = code.simple_loop(0, limit) else {
        return Ok(None);
    };
    let listing = code.listing();
    if !listing.is_whole(&store) {
        return Err(Fail::from("words beyond the store"));
    }
    let opened = *calls.private_words();
    let gone = calls.simple_words::<W, OverLoops>(
        code, &listing, &ready, 0, local, &mut store, limit,
    );
    let turns = gone.turns as u64;
    if gone.leaves {
        return Ok(Some(Came {
            words: gone.words,
            turns,
            at_once: true,
            sum: store[2],
        }));
    }
    let done = local.iterate(code, 0, 0, &opened, turns, turns, &mut store, 1000);
    if done.ask != Ask::Leaves {
        return Err(Fail::from("it isn't left"));
    }
    let mut counted = [0; PRIVATE_LIMIT];
    calls.leave(code, 0, done.number, &store, &mut counted);
    Ok(Some(Came {
        words: gone.words + done.words,
        turns: done.turns,
        at_once: false,
        sum: store[2],
    }))
}

// The first two private words, and 0 in the others.
fn private_words(first: i32, second: i32) -> [i32; PRIVATE_LIMIT] {
    let mut words = [0; PRIVATE_LIMIT];
    words[0] = first;
    words[1] = second;
    words
}

// The same from 1 and 5 in the private words, and whether the call stands behind the loop then, with 3 and that word of the store in them, and 0 in
// the others.
fn went<W: Stride>(
    alloc: Global,
    code: &Executable,
    limit: u64,
) -> Result<Option<(Came, bool)>, Fail> {
    let mut calls = Local::new(alloc, code)?;
    calls.leave_to(0, &private_words(1, 5));
    let mut local = Local::new(alloc, code)?;
    let Some(came) = gone_round::<W>(code, &mut calls, &mut local, limit)? else {
        return Ok(None);
    };
    let mut behind = Local::new(alloc, code)?;
    behind.leave_to(16, &private_words(3, came.sum));
    Ok(Some((came, calls.is_same(&behind))))
}

// With words enough, it comes to its end as is wanted.
fn goes_round<W: Stride>(
    rt: &impl Abort,
    alloc: Global,
    code: &Executable,
    wanted: (u64, u64, bool, i32),
) -> Result<(), Fail> {
    let Some((came, is_behind)) = went::<W>(alloc, code, 1000)? else {
        return Err(Fail::from("no simple loop"));
    };
    assert_eq!(rt; (came.words, came.turns, came.at_once, came.sum), wanted);
    assert!(rt; is_behind);
    Ok(())
}

// Wherever the limit stops it, it comes to the same, and with fewer words not at once.
fn goes_on_from_anywhere<W: Stride>(
    rt: &impl Abort,
    alloc: Global,
    code: &Executable,
    wanted: (u64, u64, i32),
) -> Result<(), Fail> {
    let mut tried: u64 = 0;
    for limit in 1..100u64 {
        if let Some((came, is_behind)) = went::<W>(alloc, code, limit)? {
            assert_eq!(rt; (came.words, came.turns, came.sum), wanted);
            assert!(rt; is_behind);
            assert!(rt; !came.at_once || limit > came.words);
            tried = tried.saturating_add(1);
        }
    }
    assert!(rt; tried > 40);
    Ok(())
}

// Two iterations of 18 words, four of them those of a call, and four words up to where the region is left: the cell is 5, then 6 and then 10.
#[test]
fn a_simple_loop_makes_calls(rt: HostRuntime) -> Result<(), Fail> {
    let code = made(rt.alloc(), &SQUARES, &[MAIN, CALLED])?;
    goes_round::<WithCalls<OneDeep>>(&rt, rt.alloc(), &code, (40, 2, true, 10))
}

// Where none are made, it stops before the first one, and goes on as iterations do.
#[test]
fn a_simple_loop_stops_before_calls(rt: HostRuntime) -> Result<(), Fail> {
    let code = made(rt.alloc(), &SQUARES, &[MAIN, CALLED])?;
    goes_round::<Straight>(&rt, rt.alloc(), &code, (40, 2, false, 10))
}

// Two iterations of 14 words besides those of calls, which are 15 and 26, and four words up to where the region is left: the cell is 5, then 6 and
// then 9. Limits are within calls too.
#[test]
fn a_simple_loop_stops_within_a_call(rt: HostRuntime) -> Result<(), Fail> {
    let code = made(rt.alloc(), &SUMS, &[MAIN, CALLED])?;
    goes_round::<WithCalls<OneDeep>>(&rt, rt.alloc(), &code, (73, 2, true, 9))?;
    goes_on_from_anywhere::<WithCalls<OneDeep>>(&rt, rt.alloc(), &code, (73, 2, 9))
}

// Two iterations of 26 words, twelve of them those of calls, and four words up to where the region is left: the cell is 5, then 6 and then 22. Two calls deep
// that goes by the loop alone; one call deep the call stands above the iteration's, where it makes the next one.
#[test]
fn a_simple_loop_makes_calls_that_call(rt: HostRuntime) -> Result<(), Fail> {
    let code = made(rt.alloc(), &FOURTHS, &[MAIN, CALLED, CALLED_BY_IT])?;
    goes_round::<WithCalls<TwoDeep>>(&rt, rt.alloc(), &code, (56, 2, true, 22))?;
    goes_round::<WithCalls<OneDeep>>(&rt, rt.alloc(), &code, (56, 2, false, 22))?;
    goes_on_from_anywhere::<WithCalls<TwoDeep>>(&rt, rt.alloc(), &code, (56, 2, 22))
}
