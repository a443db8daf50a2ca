// Small codes by hand: what the rules refuse, and what the executor does before it asks.

ghost use Rattle.std.specs.Prelude.{◌<◌, length};

use crate::stages::{compile, executable};
use hx_code::code::Code;
use hx_code::table::{Carried, Func, Induct, Region, Spot, Tables};
use hx_code::validate::validate;
use hx_code::word::{Array, Ask, Output, Word};
use hx_exec::executable::Executable;
use hx_exec::local::Local;
use hx_tree::limits::PRIVATE_LIMIT;
use hx_tree::outcome::{Fault, FaultKind};
use hx_tree::token::Pos;
use hx_tree::tree::{Operator, UnaryOp};
use std::alloc::{AllocError, Global};
use std::process::Abort;

fn at(col: u32) -> Pos {
    Pos { line: 1, col }
}

// The spots of words in one function, by their heights; those from `from` up to `to` stand in region 0.
fn spots(alloc: Global, heights: &[u32], from: usize, to: usize) -> Result<Vec<Spot>, AllocError> {
    let mut made = Vec::new(alloc);
    for (place, height) in heights.iter().enumerate() {
        let region = if from <= place && place < to {
            Some(0)
        } else {
            None
        };
        made.push(Spot {
            function: 0,
            region,
            height: *height,
        })?;
    }
    Ok(made)
}

// What is wrong with a code that is valid but for this.
#[derive(Clone, Copy, Debug)]
enum Flaw {
    None,
    // limits
    ParametersAbovePrivates,
    TooManyParameters,
    TooManyPrivates,
    TooHigh,
    OpeningTooShort,
    NoMain,
    MainTakesArguments,
    InputOutside,
    InputLengthOutside,
    // names
    PrivateUnknown,
    StoreWordUnknown,
    ArrayOutside,
    ArrayEmpty,
    FunctionUnknown,
    RegionUnknown,
    // where words lead
    NoNextWord,
    JumpsOutside,
    JumpsIntoRegion,
    // heights
    OperandMissing,
    HeightOneShort,
    // functions and regions
    FunctionBeginsHigh,
    RegionBeginsOutside,
    RegionEndsInside,
    NoEnter,
    TwoEnters,
    // turn, leave and enter
    TurnOutside,
    LeaveHigh,
    EnterInside,
    // carried and copied words
    CellTwice,
    CellTooHigh,
    CarriedTwice,
    CopiedTwice,
    CarriedAndCopied,
    CarriedUnknown,
    CounterCarried,
    CounterCopied,
    CounterUnknown,
    // spots
    SpotMissing,
}

const FLAWS: [Flaw; 38] = [
    Flaw::ParametersAbovePrivates,
    Flaw::TooManyParameters,
    Flaw::TooManyPrivates,
    Flaw::TooHigh,
    Flaw::OpeningTooShort,
    Flaw::NoMain,
    Flaw::MainTakesArguments,
    Flaw::InputOutside,
    Flaw::InputLengthOutside,
    Flaw::PrivateUnknown,
    Flaw::StoreWordUnknown,
    Flaw::ArrayOutside,
    Flaw::ArrayEmpty,
    Flaw::FunctionUnknown,
    Flaw::RegionUnknown,
    Flaw::NoNextWord,
    Flaw::JumpsOutside,
    Flaw::JumpsIntoRegion,
    Flaw::OperandMissing,
    Flaw::HeightOneShort,
    Flaw::FunctionBeginsHigh,
    Flaw::RegionBeginsOutside,
    Flaw::RegionEndsInside,
    Flaw::NoEnter,
    Flaw::TwoEnters,
    Flaw::TurnOutside,
    Flaw::LeaveHigh,
    Flaw::EnterInside,
    Flaw::CellTwice,
    Flaw::CellTooHigh,
    Flaw::CarriedTwice,
    Flaw::CopiedTwice,
    Flaw::CarriedAndCopied,
    Flaw::CarriedUnknown,
    Flaw::CounterCarried,
    Flaw::CounterCopied,
    Flaw::CounterUnknown,
    Flaw::SpotMissing,
];

// `int c; int main(){ pwhile(c<2){ c=c+1; } }`, with words and heights changed by the flaw.
fn words_of(flaw: Flaw) -> ([Word; 22], [u32; 22]) {
    let mut words = [
        Word::Enter(0, 11),
        Word::Glob(0),
        Word::Const(2),
        Word::Binary(Operator::Less, at(31)),
        Word::JumpFalse(10),
        Word::Glob(0),
        Word::Const(1),
        Word::Binary(Operator::Add, at(39)),
        Word::SetGlob(0),
        Word::Turn,
        Word::Leave,
        Word::Glob(0),
        Word::Const(2),
        Word::Binary(Operator::Less, at(31)),
        Word::JumpFalse(20),
        Word::Glob(0),
        Word::Const(1),
        Word::Binary(Operator::Add, at(39)),
        Word::SetGlob(0),
        Word::Jump(11),
        Word::Const(0),
        Word::Ret,
    ];
    let mut heights = [
        0, 0, 1, 2, 1, 0, 1, 2, 1, 0, 0, 0, 1, 2, 1, 0, 1, 2, 1, 0, 0, 1,
    ];
    match flaw {
        Flaw::TooHigh => heights[21] = 257,
        Flaw::PrivateUnknown => words[11] = Word::Priv(4),
        Flaw::StoreWordUnknown => words[11] = Word::Glob(65),
        Flaw::ArrayOutside => words[17] = elem(2),
        Flaw::ArrayEmpty => words[17] = elem(0),
        Flaw::FunctionUnknown => words[20] = Word::Call(1, at(1)),
        Flaw::RegionUnknown => words[0] = Word::Enter(1, 11),
        Flaw::NoNextWord => words[21] = Word::Drop,
        Flaw::JumpsOutside => words[19] = Word::Jump(22),
        Flaw::JumpsIntoRegion => words[19] = Word::Jump(1),
        Flaw::OperandMissing => words[20] = Word::Ret,
        Flaw::HeightOneShort => heights[3] = 1,
        Flaw::FunctionBeginsHigh => heights[0] = 1,
        Flaw::NoEnter => words[0] = Word::Jump(11),
        Flaw::TwoEnters => words[19] = Word::Enter(0, 11),
        Flaw::TurnOutside => words[21] = Word::Turn,
        Flaw::LeaveHigh => heights[10] = 1,
        Flaw::EnterInside => words[9] = Word::Enter(0, 1),
        _ => {}
    }
    (words, heights)
}

fn elem(length: u32) -> Word {
    Word::Elem(Array { base: 0, length }, at(1))
}

fn pair(private: u32, cell: u32) -> Carried {
    Carried { private, cell }
}

fn counter(private: u32) -> Induct {
    Induct { private, step: 1 }
}

fn region_of(alloc: Global, flaw: Flaw) -> Result<Region, AllocError> {
    let start = match flaw {
        Flaw::RegionBeginsOutside => 11,
        _ => 1,
    };
    let exit = match flaw {
        Flaw::RegionEndsInside => 10,
        _ => 20,
    };
    let carried = match flaw {
        Flaw::CellTwice => [pair(0, 0), pair(1, 0)],
        Flaw::CellTooHigh => [pair(0, 0), pair(1, 64)],
        Flaw::CarriedTwice => [pair(0, 0), pair(0, 1)],
        Flaw::CarriedUnknown => [pair(0, 0), pair(4, 1)],
        _ => [pair(0, 0), pair(1, 63)],
    };
    let copied = match flaw {
        Flaw::CopiedTwice => [2, 2],
        Flaw::CarriedAndCopied => [2, 1],
        _ => [2, 3],
    };
    let induct = match flaw {
        Flaw::CounterCarried => Some(counter(0)),
        Flaw::CounterCopied => Some(counter(2)),
        Flaw::CounterUnknown => Some(counter(4)),
        _ => None,
    };
    Ok(Region {
        start,
        exit,
        carried: Vec::from_slice(alloc, &carried)?,
        copied: Vec::from_slice(alloc, &copied)?,
        induct,
    })
}

// A main with so many parameters and private words, alone.
fn main_with(alloc: Global, parameters: u32, privates: u32) -> Result<Vec<Func>, AllocError> {
    let main = Func {
        name: b"main".to_vec(alloc)?,
        entry: 0,
        parameters,
        privates,
    };
    Ok(vec![in alloc; main]?)
}

// How many parameters and private words main has.
fn parameters_and_privates(flaw: Flaw) -> (u32, u32) {
    match flaw {
        Flaw::ParametersAbovePrivates => (5, 4),
        Flaw::TooManyParameters => (9, 9),
        Flaw::TooManyPrivates => (0, 65),
        Flaw::MainTakesArguments => (1, 4),
        _ => (0, 4),
    }
}

// Main and where the input and its length stand.
fn places_of(flaw: Flaw) -> (u32, Array, u32) {
    let input = Array { base: 0, length: 1 };
    match flaw {
        Flaw::NoMain => (1, input, 0),
        Flaw::InputOutside => (0, Array { base: 1, length: 1 }, 0),
        Flaw::InputLengthOutside => (0, input, 1),
        _ => (0, input, 0),
    }
}

fn opening_of(alloc: Global, flaw: Flaw) -> Result<Vec<i32>, AllocError> {
    match flaw {
        Flaw::OpeningTooShort => Ok(Vec::new(alloc)),
        _ => Vec::from_slice(alloc, &[7]),
    }
}

fn tables_of(alloc: Global, flaw: Flaw, heights: &[u32]) -> Result<Tables, AllocError> {
    let (parameters, privates) = parameters_and_privates(flaw);
    let (main, input, input_length) = places_of(flaw);
    let spots = spots(alloc, heights, 1, 11)?;
    let functions = main_with(alloc, parameters, privates)?;
    let regions = vec![in alloc; region_of(alloc, flaw)?]?;
    Ok(Tables {
        spots,
        functions,
        regions,
        globals: 1,
        opening: opening_of(alloc, flaw)?,
        main,
        input: Some(input),
        input_length: Some(input_length),
    })
}

fn code_of(alloc: Global, flaw: Flaw) -> Result<Option<Code>, AllocError> {
    let (words, heights) = words_of(flaw);
    let shown = match flaw {
        Flaw::SpotMissing => 21,
        _ => 22,
    };
    let tables = tables_of(alloc, flaw, &heights[..shown])?;
    Ok(validate(Vec::from_slice(alloc, &words)?, tables))
}

fn is_valid(alloc: Global, flaw: Flaw) -> Result<bool, AllocError> {
    Ok(code_of(alloc, flaw)?.is_some())
}

#[test]
fn the_rules_refuse_each_flaw(rt: HostRuntime) {
    assert!(rt; is_valid(rt.alloc(), Flaw::None) == Ok(true));
    for flaw in &FLAWS {
        assert!(rt; is_valid(rt.alloc(), *flaw) == Ok(false), "{flaw:?}");
    }
}

// How many words, spots, functions, regions and globals a code has.
fn counts_of(code: &Code) -> [usize; 5] {
    [
        code.words().len(),
        code.spots().len(),
        code.functions().len(),
        code.regions().len(),
        code.globals() as usize,
    ]
}

// Entry, parameters and private words of the first function.
fn first_function(code: &Code) -> Option<[u32; 3]> {
    if code.functions().len() == 0 {
        return None;
    }
    let function = code.function_at(0);
    Some([function.entry, function.parameters, function.privates])
}

// Where the first region begins and ends, how many words it carries, and the first that it copies.
fn first_region(code: &Code) -> Option<(u32, u32, usize, Option<u32>)> {
    if code.regions().len() == 0 {
        return None;
    }
    let region = code.region_at(0);
    Some((
        region.start,
        region.exit,
        region.carried.len(),
        region.copied.first().copied(),
    ))
}

fn shows_its_parts(rt: &impl Abort, code: &Code) {
    assert_eq!(rt; counts_of(code), [22, 22, 1, 1, 1]);
    assert_eq!(rt; first_function(code), Some([0, 0, 4]));
    assert_eq!(rt; first_region(code), Some((1, 20, 2, Some(2))));
}

// The code without a flaw.
fn valid_code(rt: &impl Abort, alloc: Global) -> Code {
    match code_of(alloc, Flaw::None) {
        Ok(Some(code)) => code,
        _ => panic!(rt; "refused"),
    }
}

#[test]
fn code_shows_its_parts(rt: HostRuntime) {
    let code = valid_code(&rt, rt.alloc());
    shows_its_parts(&rt, &code);
}

// Whether its first function is called main, and the globals begin as one 7.
fn begins_as_main_with_7(code: &Code) -> bool {
    code.functions().len() > 0
        && code.function_at(0).name.as_slice() == b"main".as_slice()
        && code.opening() == [7].as_slice()
}

fn shows_main_and_the_globals(rt: &impl Abort, code: &Code) {
    assert!(rt; begins_as_main_with_7(code));
    let input = Array { base: 0, length: 1 };
    assert!(rt; code.input() == Some(input) && code.input_length() == Some(0));
}

#[test]
fn code_shows_main_and_the_globals(rt: HostRuntime) {
    let code = valid_code(&rt, rt.alloc());
    shows_main_and_the_globals(&rt, &code);
}

// The tables of a main alone, whose words have these heights.
fn tables_alone(alloc: Global, heights: &[u32]) -> Result<Tables, AllocError> {
    let spots = spots(alloc, heights, 0, 0)?;
    let functions = main_with(alloc, 0, 2)?;
    Ok(Tables {
        spots,
        functions,
        regions: Vec::new(alloc),
        globals: 4,
        opening: Vec::from_slice(alloc, &[0; 4])?,
        main: 0,
        input: None,
        input_length: None,
    })
}

// A program of main alone that returns the value of these words.
fn main_of(alloc: Global, words: &[Word], heights: &[u32]) -> Result<Option<Code>, AllocError> {
    let tables = tables_alone(alloc, heights)?;
    Ok(validate(Vec::from_slice(alloc, words)?, tables))
}

// What a code asks first, after how many words, and in how many calls.
fn first_in(alloc: Global, code: &Executable) -> Result<(Ask, u64, usize), AllocError> {
    let mut local = Local::new(alloc, code)?;
    let done = local.stretch(code, 1000);
    Ok((done.ask, done.words, local.calls()))
}

fn first_by(alloc: Global, code: Code) -> Result<(Ask, u64, usize), AllocError> {
    let code = executable(alloc, code)?;
    first_in(alloc, &code)
}

// What a program asks first.
fn asked(alloc: Global, words: &[Word], heights: &[u32]) -> Result<Option<Ask>, AllocError> {
    match main_of(alloc, words, heights)? {
        None => Ok(None),
        Some(code) => {
            let (ask, _, _) = first_by(alloc, code)?;
            Ok(Some(ask))
        }
    }
}

fn asks(rt: &impl Abort, found: Result<Option<Ask>, AllocError>, wanted: Ask) {
    assert_eq!(rt; found, Ok(Some(wanted)));
}

// What a program asks first that returns the value of an operator, which stands at this place.
fn operated(
    alloc: Global,
    operator: Operator,
    pos: Pos,
    x: i32,
    y: i32,
) -> Result<Option<Ask>, AllocError> {
    let words = [
        Word::Const(x),
        Word::Const(y),
        Word::Binary(operator, pos),
        Word::Ret,
    ];
    asked(alloc, &words, &[0, 1, 2, 1])
}

const OPERATORS: [(Operator, i32, i32, i32); 19] = [
    (Operator::Add, 2147483647, 1, -2147483648),
    (Operator::Sub, 7, 3, 4),
    (Operator::Mul, 65536, 65536, 0),
    (Operator::Div, -7, 2, -3),
    (Operator::Div, -2147483648, -1, -2147483648),
    (Operator::Rem, -7, 2, -1),
    (Operator::Rem, -2147483648, -1, 0),
    (Operator::ShiftLeft, 1, 33, 2),
    (Operator::ShiftLeft, 1, -1, -2147483648),
    (Operator::ShiftRight, -8, 1, -4),
    (Operator::Less, 1, 2, 1),
    (Operator::LessEqual, 2, 2, 1),
    (Operator::Greater, 1, 2, 0),
    (Operator::GreaterEqual, 1, 2, 0),
    (Operator::Equal, 2, 2, 1),
    (Operator::NotEqual, 2, 2, 0),
    (Operator::BitAnd, 12, 10, 8),
    (Operator::BitXor, 12, 10, 6),
    (Operator::BitOr, 12, 10, 14),
];

#[test]
fn operators_give_their_values(rt: HostRuntime) {
    for (operator, x, y, value) in &OPERATORS {
        let answer = operated(rt.alloc(), *operator, at(5), *x, *y);
        assert!(rt; answer == Ok(Some(Ask::Returns(*value))), "{operator:?}");
    }
}

fn operated_alone(alloc: Global, operator: UnaryOp, x: i32) -> Result<Option<Ask>, AllocError> {
    let words = [Word::Const(x), Word::Unary(operator), Word::Ret];
    asked(alloc, &words, &[0, 1, 1])
}

const UNARY_OPERATORS: [(UnaryOp, i32, i32); 4] = [
    (UnaryOp::Negate, -2147483648, -2147483648),
    (UnaryOp::Not, 0, 1),
    (UnaryOp::Not, 5, 0),
    (UnaryOp::Invert, 5, -6),
];

#[test]
fn unary_operators_give_their_values(rt: HostRuntime) {
    for (operator, x, value) in &UNARY_OPERATORS {
        let answer = operated_alone(rt.alloc(), *operator, *x);
        assert!(rt; answer == Ok(Some(Ask::Returns(*value))), "{operator:?}");
    }
}

#[test]
fn a_division_by_zero_is_a_fault(rt: HostRuntime) {
    let fault = Fault {
        kind: FaultKind::ZeroDivisor,
        pos: at(9),
    };
    let answer = operated(rt.alloc(), Operator::Rem, at(9), 1, 0);
    asks(&rt, answer, Ask::Faults(fault));
}

// Words 1 to 3 of the store.
const THREE: Array = Array { base: 1, length: 3 };

// What a program asks first that returns one of them.
fn fetched(alloc: Global, index: i32) -> Result<Option<Ask>, AllocError> {
    let words = [Word::Const(index), Word::Elem(THREE, at(4)), Word::Ret];
    asked(alloc, &words, &[0, 1, 1])
}

// What one asks first that sets the last of them to 9.
fn set(alloc: Global) -> Result<Option<Ask>, AllocError> {
    let words = [
        Word::Const(2),
        Word::Const(9),
        Word::SetElem(THREE, at(4)),
        Word::Const(0),
        Word::Ret,
    ];
    asked(alloc, &words, &[0, 1, 2, 0, 1])
}

// There is none of this index.
const OUTSIDE: Ask = Ask::Faults(Fault {
    kind: FaultKind::IndexOutOfRange,
    pos: Pos { line: 1, col: 4 },
});

#[test]
fn elements_are_in_range(rt: HostRuntime) {
    asks(&rt, fetched(rt.alloc(), 0), Ask::Loads(1));
    asks(&rt, fetched(rt.alloc(), 2), Ask::Loads(3));
    asks(&rt, fetched(rt.alloc(), 3), OUTSIDE);
    asks(&rt, fetched(rt.alloc(), -1), OUTSIDE);
    asks(&rt, set(rt.alloc()), Ask::Stores(3, 9));
}

// `int main(){ int x=5; int y=x; if(!y) emit(1); print(x*x); }`, by hand.
fn squared(alloc: Global) -> Result<Option<Ask>, AllocError> {
    let words = [
        Word::Const(5),
        Word::Dup,
        Word::SetPriv(0),
        Word::SetPriv(1),
        Word::Priv(1),
        Word::JumpTrue(8),
        Word::Const(1),
        Word::Emit(at(20)),
        Word::Priv(0),
        Word::Dup,
        Word::Binary(Operator::Mul, at(30)),
        Word::Print(at(40)),
        Word::Jump(13),
        Word::Const(0),
        Word::Ret,
    ];
    let heights = [0, 1, 2, 1, 0, 1, 0, 1, 0, 1, 2, 1, 0, 0, 1];
    asked(alloc, &words, &heights)
}

fn emitted(alloc: Global, byte: i32) -> Result<Option<Ask>, AllocError> {
    let words = [
        Word::Const(byte),
        Word::Emit(at(3)),
        Word::Const(0),
        Word::Ret,
    ];
    asked(alloc, &words, &[0, 1, 0, 1])
}

#[test]
fn private_words_and_jumps(rt: HostRuntime) {
    let number = Ask::Prints(Output::Number(25), at(40));
    asks(&rt, squared(rt.alloc()), number);
    let byte = Ask::Prints(Output::Byte(255), at(3));
    asks(&rt, emitted(rt.alloc(), -1), byte);
}

// What the program of a source asks first, after how many words, and in how many calls.
fn first_of(alloc: Global, source: &[u8]) -> Option<(Ask, u64, usize)> {
    let code = compile(alloc, source).ok()?;
    first_by(alloc, code).ok()
}

#[test]
fn calls_take_their_arguments(rt: HostRuntime) {
    let source = b"int less(int a, int b){ return a-b; } int main(){ return less(7, 3); }";
    let wanted = (Ask::Returns(4), 7, 1);
    assert!(rt; first_of(rt.alloc(), source) == Some(wanted));
}

#[test]
fn the_sixty_fifth_call_is_a_fault(rt: HostRuntime) {
    let source = b"int f(){ return f(); } int main(){ return f(); }";
    let fault = Fault {
        kind: FaultKind::CallTooDeep,
        pos: at(17),
    };
    let wanted = (Ask::Faults(fault), 63, 64);
    assert!(rt; first_of(rt.alloc(), source) == Some(wanted));
}

fn executable_of(rt: &impl Abort, alloc: Global) -> Box<Executable> {
    match executable(alloc, valid_code(rt, alloc)) {
        Ok(code) => code,
        Err(_) => panic!(rt; "no memory"),
    }
}

// The words 5 and 6 at 2 and 1.
fn words_at_two_and_one() -> [i32; PRIVATE_LIMIT] {
    let mut words = [0; PRIVATE_LIMIT];
    words[2] = 5;
    words[1] = 6;
    words
}

// The private words of the innermost call.
fn private_words_of(local: &Local) -> [i32; PRIVATE_LIMIT]
    requires { 0 < length local.now.calls }
{
    let mut words = [0; PRIVATE_LIMIT];
    local.privates_into(&mut words);
    words
}

// Private word 2 of the innermost call of these, once it has gone on behind the region.
fn behind(alloc: Global, code: &Executable, calls: &Local) -> Result<i32, AllocError>
    requires { 0 < length calls.now.calls }
{
    let mut copy = Local::new(alloc, code)?;
    copy.copy_from(calls);
    copy.leave_to(20, &words_at_two_and_one());
    Ok(private_words_of(&copy)[2])
}

// What main asks first, and that word.
fn opened_and_left(alloc: Global, code: &Executable) -> Result<(Ask, i32), AllocError> {
    let mut local = Local::new(alloc, code)?;
    let ask = local.stretch(code, 1000).ask;
    Ok((ask, behind(alloc, code, &local)?))
}

// Main of `pwhile(c<2) c=c+1;` opens the region, and is left behind it.
#[test]
fn a_region_is_opened_and_left(rt: HostRuntime) {
    let code = executable_of(&rt, rt.alloc());
    let found = opened_and_left(rt.alloc(), &code);
    assert_eq!(rt; found, Ok((Ask::Enters(0, 11), 5)));
}

// What an iteration of it asks first, with its calls, the calls below it and two of its private words.
fn iteration_asks(alloc: Global, code: &Executable) -> Option<(Ask, [usize; 2], [i32; 2])> {
    if code.regions().len() == 0 {
        return None;
    }
    let mut iteration = Local::new(alloc, code).ok()?;
    iteration.begin(code, 0, 0, &words_at_two_and_one(), 0);
    let calls = [iteration.calls(), iteration.below()];
    let words = private_words_of(&iteration);
    let words = [words[1], words[2]];
    Some((iteration.stretch(code, 1000).ask, calls, words))
}

// What it asks once it has the word that it asked for, after two words more.
fn iteration_goes_on(alloc: Global, code: &Executable) -> Option<Ask> {
    if code.regions().len() == 0 {
        return None;
    }
    let mut iteration = Local::new(alloc, code).ok()?;
    iteration.begin(code, 0, 0, &[0; PRIVATE_LIMIT], 0);
    let loads = iteration.stretch(code, 1000);
    match loads.ask {
        Ask::Loads(_) => {
            iteration.load(code, loads.next, 1);
            Some(iteration.stretch(code, 2).ask)
        }
        ask => Some(ask),
    }
}

fn asks_for_its_words(rt: &impl Abort, alloc: Global, code: &Executable) {
    let wanted = (Ask::Loads(0), [1, 0], [0, 5]);
    assert_eq!(rt; iteration_asks(alloc, code), Some(wanted));
    assert_eq!(rt; iteration_goes_on(alloc, code), Some(Ask::Goes));
}

#[test]
fn an_iteration_asks_for_its_words(rt: HostRuntime) {
    let code = executable_of(&rt, rt.alloc());
    asks_for_its_words(&rt, rt.alloc(), &code);
}
