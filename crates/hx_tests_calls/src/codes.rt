// Codes that are written by hand, as plain data, and their making.

use hx_code::code::Code;
use hx_code::table::{Carried, Func, Induct, Region, Spot, Tables};
use hx_code::validate::validate;
use hx_code::word::Word;
use hx_exec::executable::Executable;
use hx_tree::token::Pos;
use std::alloc::{AllocError, Global};
use std::test::Fail;

/// Where all words of these codes stand in a source.
pub(crate) const HERE: Pos = Pos { line: 1, col: 1 };

/// A word and its height.
pub(crate) type Line = (Word, u32);

/// The place of a word that is another in a plan than in its lines, that word, and its height.
pub(crate) type Change = (usize, Word, u32);

/// A function: its words are those from its entry on, up to the next function's.
#[derive(Clone, Copy)]
pub(crate) struct Function {
    pub(crate) number: u32,
    pub(crate) entry: u32,
    pub(crate) parameters: u32,
    pub(crate) privates: u32,
}

/// A region, whose words are those from its start up to its exit.
#[derive(Clone, Copy)]
pub(crate) struct Marked<'a> {
    pub(crate) start: u32,
    pub(crate) exit: u32,
    pub(crate) carried: &'a [Carried],
    pub(crate) copied: &'a [u32],
    pub(crate) counter: Option<Induct>,
}

/// A code by hand, with one region at the most.
#[derive(Clone, Copy)]
pub(crate) struct Plan<'a> {
    pub(crate) lines: &'a [Line],
    pub(crate) changes: &'a [Change],
    pub(crate) functions: &'a [Function],
    pub(crate) main: u32,
    pub(crate) region: Option<Marked<'a>>,
    pub(crate) globals: u32,
    pub(crate) opening: &'a [i32],
}

// The line at a place, where this one stands unless it is changed.
fn line_at(changes: &[Change], place: usize, line: Line) -> Line {
    for (changed, word, height) in changes {
        if *changed == place {
            return (*word, *height);
        }
    }
    line
}

fn words_of(alloc: Global, plan: &Plan<'_>) -> Result<Vec<Word>, AllocError> {
    let mut words = Vec::new(alloc);
    for (place, line) in plan.lines.iter().enumerate() {
        let (word, _) = line_at(plan.changes, place, *line);
        words.push(word)?;
    }
    Ok(words)
}

fn function_at(functions: &[Function], place: usize) -> u32 {
    let mut number = 0;
    for function in functions {
        if function.entry as usize <= place {
            number = function.number;
        }
    }
    number
}

fn region_at(region: Option<Marked<'_>>, place: usize) -> Option<u32> {
    match region {
        Some(marked) if marked.start as usize <= place && place < marked.exit as usize => Some(0),
        _ => None,
    }
}

fn spot_at(plan: &Plan<'_>, place: usize, line: Line) -> Spot {
    let (_, height) = line_at(plan.changes, place, line);
    Spot {
        function: function_at(plan.functions, place),
        region: region_at(plan.region, place),
        height,
    }
}

fn spots_of(alloc: Global, plan: &Plan<'_>) -> Result<Vec<Spot>, AllocError> {
    let mut spots = Vec::new(alloc);
    for (place, line) in plan.lines.iter().enumerate() {
        spots.push(spot_at(plan, place, *line))?;
    }
    Ok(spots)
}

fn function_of(alloc: Global, function: Function) -> Func {
    Func {
        name: Vec::new(alloc),
        entry: function.entry,
        parameters: function.parameters,
        privates: function.privates,
    }
}

fn functions_of(alloc: Global, of: &[Function]) -> Result<Vec<Func>, AllocError> {
    let mut functions = Vec::new(alloc);
    for function in of {
        functions.push(function_of(alloc, *function))?;
    }
    Ok(functions)
}

fn region_of(alloc: Global, marked: Marked<'_>) -> Result<Region, AllocError> {
    Ok(Region {
        start: marked.start,
        exit: marked.exit,
        carried: Vec::from_slice(alloc, marked.carried)?,
        copied: Vec::from_slice(alloc, marked.copied)?,
        induct: marked.counter,
    })
}

fn regions_of(alloc: Global, of: Option<Marked<'_>>) -> Result<Vec<Region>, AllocError> {
    let mut regions = Vec::new(alloc);
    if let Some(marked) = of {
        regions.push(region_of(alloc, marked)?)?;
    }
    Ok(regions)
}

fn tables_of(alloc: Global, plan: &Plan<'_>) -> Result<Tables, AllocError> {
    Ok(Tables {
        spots: spots_of(alloc, plan)?,
        functions: functions_of(alloc, plan.functions)?,
        regions: regions_of(alloc, plan.region)?,
        globals: plan.globals,
        opening: Vec::from_slice(alloc, plan.opening)?,
        main: plan.main,
        input: None,
        input_length: None,
    })
}

fn validated(alloc: Global, plan: &Plan<'_>) -> Result<Option<Code>, AllocError> {
    let words = words_of(alloc, plan)?;
    Ok(validate(words, tables_of(alloc, plan)?))
}

/// The code of a plan, in a box, so that it is let go by a call.
pub(crate) fn code_of(alloc: Global, plan: &Plan<'_>) -> Result<Box<Code>, Fail> {
    match validated(alloc, plan)? {
        Some(code) => Ok(Box::new(alloc, code)?),
        None => Err(Fail::from("refused")),
    }
}

fn with_instructions(
    alloc: Global,
    code: Option<Code>,
) -> Result<Option<Box<Executable>>, AllocError> {
    match code {
        Some(code) => {
            let code = Executable::new(alloc, code)?;
            Ok(Some(Box::new(alloc, code)?))
        }
        None => Ok(None),
    }
}

/// The same with its instructions.
pub(crate) fn executable(alloc: Global, plan: &Plan<'_>) -> Result<Box<Executable>, Fail> {
    let code = validated(alloc, plan)?;
    match with_instructions(alloc, code)? {
        Some(code) => Ok(code),
        None => Err(Fail::from("refused")),
    }
}
