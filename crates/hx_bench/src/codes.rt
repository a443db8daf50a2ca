// Four codes, each of which runs on and on.

use hx_code::code::Code;
use hx_code::table::{Func, Spot, Tables};
use hx_code::validate::validate;
use hx_code::word::{Array, Word};
use hx_exec::executable::Executable;
use hx_tree::token::Pos;
use hx_tree::tree::Operator;
use std::alloc::{AllocError, Global};

/// Which code.
#[derive(Clone, Copy, PartialEq, Eq, Debug)]
pub(crate) enum Sketch {
    /// A sum in private words.
    Locals,
    /// Two loops, one in the other, over an array.
    Arrays,
    /// Fibonacci numbers by two calls each.
    Calls,
    /// A sum in global words.
    Globals,
}

/// The code of a name.
pub(crate) fn sketch_named(name: &str) -> Option<Sketch> {
    match name {
        "locals" => Some(Sketch::Locals),
        "arrays" => Some(Sketch::Arrays),
        "calls" => Some(Sketch::Calls),
        "globals" => Some(Sketch::Globals),
        _ => None,
    }
}

const NOWHERE: Pos = Pos { line: 1, col: 1 };

const ADD: Word = Word::Binary(Operator::Add, NOWHERE);

const SUBTRACT: Word = Word::Binary(Operator::Sub, NOWHERE);

const LESS: Word = Word::Binary(Operator::Less, NOWHERE);

const GLOBALS: u32 = 66;

const WORDS: Array = Array {
    base: 2,
    length: 64,
};

// A word and how many operands stand before it.
type Line = (Word, u32);

const LOCALS: [Line; 16] = [
    (Word::Priv(1), 0),
    (Word::Const(1_000_000), 1),
    (LESS, 2),
    (Word::JumpFalse(13), 1),
    (Word::Priv(0), 0),
    (Word::Priv(1), 1),
    (ADD, 2),
    (Word::SetPriv(0), 1),
    (Word::Priv(1), 0),
    (Word::Const(1), 1),
    (ADD, 2),
    (Word::SetPriv(1), 1),
    (Word::Jump(0), 0),
    (Word::Const(0), 0),
    (Word::SetPriv(1), 1),
    (Word::Jump(0), 0),
];

const ARRAYS: [Line; 24] = [
    (Word::Const(0), 0),
    (Word::SetPriv(0), 1),
    (Word::Priv(0), 0),
    (Word::Const(64), 1),
    (LESS, 2),
    (Word::JumpFalse(0), 1),
    (Word::Priv(0), 0),
    (Word::Dup, 1),
    (Word::Elem(WORDS, NOWHERE), 2),
    (Word::Priv(0), 2),
    (ADD, 3),
    (Word::SetElem(WORDS, NOWHERE), 2),
    (Word::Priv(0), 0),
    (Word::Const(1), 1),
    (ADD, 2),
    (Word::SetPriv(0), 1),
    (Word::Priv(1), 0),
    (Word::Const(1), 1),
    (ADD, 2),
    (Word::SetPriv(1), 1),
    (Word::Priv(1), 0),
    (Word::JumpFalse(0), 1),
    (Word::Jump(2), 0),
    (Word::Jump(0), 0),
];

const MAIN_OF_CALLS: [Line; 4] = [
    (Word::Const(20), 0),
    (Word::Call(1, NOWHERE), 1),
    (Word::Drop, 1),
    (Word::Jump(0), 0),
];

const FIBONACCI: [Line; 16] = [
    (Word::Priv(0), 0),
    (Word::Const(2), 1),
    (LESS, 2),
    (Word::JumpFalse(10), 1),
    (Word::Priv(0), 0),
    (Word::Ret, 1),
    (Word::Priv(0), 0),
    (Word::Const(1), 1),
    (SUBTRACT, 2),
    (Word::Call(1, NOWHERE), 1),
    (Word::Priv(0), 1),
    (Word::Const(2), 2),
    (SUBTRACT, 3),
    (Word::Call(1, NOWHERE), 2),
    (ADD, 2),
    (Word::Ret, 1),
];

const SUM_IN_GLOBALS: [Line; 16] = [
    (Word::Glob(1), 0),
    (Word::Const(1_000_000), 1),
    (LESS, 2),
    (Word::JumpFalse(13), 1),
    (Word::Glob(0), 0),
    (Word::Glob(1), 1),
    (ADD, 2),
    (Word::SetGlob(0), 1),
    (Word::Glob(1), 0),
    (Word::Const(1), 1),
    (ADD, 2),
    (Word::SetGlob(1), 1),
    (Word::Jump(0), 0),
    (Word::Const(0), 0),
    (Word::SetGlob(1), 1),
    (Word::Jump(0), 0),
];

// The lines of a code's functions, main's first.
fn lines_of(sketch: Sketch) -> [&'static [Line]; 2] {
    match sketch {
        Sketch::Locals => [&LOCALS, &[]],
        Sketch::Arrays => [&ARRAYS, &[]],
        Sketch::Calls => [&MAIN_OF_CALLS, &FIBONACCI],
        Sketch::Globals => [&SUM_IN_GLOBALS, &[]],
    }
}

fn words_of(alloc: Global, functions: &[&[Line]]) -> Result<Vec<Word>, AllocError> {
    let mut words = Vec::new(alloc);
    for lines in functions {
        for (word, _) in *lines {
            words.push(*word)?;
        }
    }
    Ok(words)
}

fn put_spots(spots: &mut Vec<Spot>, lines: &[Line], function: u32) -> Result<(), AllocError> {
    for (_, height) in lines {
        spots.push(Spot {
            function,
            region: None,
            height: *height,
        })?;
    }
    Ok(())
}

fn spots_of(alloc: Global, sketch: Sketch) -> Result<Vec<Spot>, AllocError> {
    let [main, other] = lines_of(sketch);
    let mut spots = Vec::new(alloc);
    put_spots(&mut spots, main, 0)?;
    put_spots(&mut spots, other, 1)?;
    Ok(spots)
}

fn function(name: Vec<u8>, entry: u32, parameters: u32, privates: u32) -> Func {
    Func {
        name,
        entry,
        parameters,
        privates,
    }
}

fn functions_of(alloc: Global, sketch: Sketch) -> Result<Vec<Func>, AllocError> {
    let mut functions = Vec::new(alloc);
    functions.push(function(Vec::from_slice(alloc, b"main")?, 0, 0, 2))?;
    if sketch == Sketch::Calls {
        functions.push(function(Vec::from_slice(alloc, b"fib")?, 4, 1, 1))?;
    }
    Ok(functions)
}

fn tables_of(alloc: Global, sketch: Sketch) -> Result<Tables, AllocError> {
    Ok(Tables {
        spots: spots_of(alloc, sketch)?,
        functions: functions_of(alloc, sketch)?,
        regions: Vec::new(alloc),
        globals: GLOBALS,
        opening: Vec::from_slice(alloc, &[0; 66])?,
        main: 0,
        input: None,
        input_length: None,
    })
}

// The code, or none where the validator refuses it, which it doesn't.
fn valid_code(alloc: Global, sketch: Sketch) -> Result<Option<Code>, AllocError> {
    let words = words_of(alloc, &lines_of(sketch))?;
    Ok(validate(words, tables_of(alloc, sketch)?))
}

/// The code with its instructions, where there is one; in a box it is let go by a call.
pub(crate) fn code_of(
    alloc: Global,
    sketch: Sketch,
) -> Result<Option<Box<Executable>>, AllocError> {
    match valid_code(alloc, sketch)? {
        Some(code) => {
            let code = Executable::new(alloc, code)?;
            Ok(Some(Box::new(alloc, code)?))
        }
        None => Ok(None),
    }
}
