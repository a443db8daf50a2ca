// Programs that pass a limit, or have no `int main()`.

ghost use Rattle.std.specs.Prelude.{◌≡◌};
ghost use Rattle.hx_tree.specs.View.{program_of};
ghost use Rattle.hx_case.specs.Names.{input_room};

use crate::bytes::word_at;
use crate::declared::{Known, array_length, declared_as, locals_of, parameters};
use crate::say::{quoted, say};
use hx_tree::limits::{
    ARRAY_LIMIT, FUNCTION_LIMIT, GLOBAL_LIMIT, OPERAND_LIMIT, PARAMETER_LIMIT, PRIVATE_LIMIT,
};
use hx_tree::token::Pos;
use hx_tree::tree::{Func, GlobalDecl, Item, Program, Returns, Shape};
use itoa::Buffer;
use std::alloc::{AllocError, Global};

/// No `int main()` without parameters.
pub(crate) fn no_main(alloc: Global, program: &Program) -> Result<Vec<u8>, AllocError> {
    let why: &[u8] = match declared_as(program, b"main") {
        None => b"There is no function 'main'.",
        Some(Known::Global(_)) => b"'main' is a variable, and has to be a function.",
        Some(Known::Function(f)) => match f.returns {
            Returns::Void => b"'main' is a void function, and has to return an int.",
            Returns::Int => b"'main' has parameters, and may have none.",
        },
    };
    Vec::from_slice(alloc, why)
}

// `'NAME' has N THINGS, and at most M are allowed.`
fn too_many(
    alloc: Global,
    name: &[u8],
    has: u64,
    things: &[u8],
    limit: u64,
) -> Result<Vec<u8>, AllocError> {
    let mut count = Buffer::new();
    let mut most = Buffer::new();
    let count = count.format(has).as_bytes();
    let most = most.format(limit).as_bytes();
    say(
        alloc,
        &[
            b"'",
            name,
            b"' has ",
            count,
            things,
            b", and at most ",
            most,
            b" are allowed.",
        ],
    )
}

fn of_global(alloc: Global, global: &GlobalDecl) -> Result<Vec<u8>, AllocError> {
    let name = global.name.text.as_slice();
    match &global.shape {
        Shape::Array(0, _) => say(
            alloc,
            &[
                b"The array '",
                name,
                b"' has length 0, and has to have at least 1.",
            ],
        ),
        Shape::Array(length, _) if *length > ARRAY_LIMIT => {
            too_many(
                alloc,
                name,
                u64::from(*length),
                b" elements",
                u64::from(ARRAY_LIMIT),
            )
        }
        Shape::Array(length, constants) if constants.len() > *length as usize => {
            let has = constants.len() as u64;
            too_many(alloc, name, has, b" initialisers", u64::from(*length))
        }
        _ => {
            let mut most = Buffer::new();
            let most = most.format(GLOBAL_LIMIT).as_bytes();
            say(
                alloc,
                &[
                    b"With '",
                    name,
                    b"' all globals together pass ",
                    most,
                    b" words.",
                ],
            )
        }
    }
}

// How many functions stand up to the one of this place.
fn functions_to(program: &Program, pos: Pos) -> usize {
    let mut count: usize = 0;
    for item in &program.items {
        if let Item::Function(f) = item {
            count = count.saturating_add(1);
            if f.name.pos == pos {
                break;
            }
        }
    }
    count
}

fn of_function(alloc: Global, program: &Program, f: &Func) -> Result<Vec<u8>, AllocError> {
    let name = f.name.text.as_slice();
    let privates = locals_of(f, b"").all;
    if functions_to(program, f.name.pos) > FUNCTION_LIMIT {
        let mut most = Buffer::new();
        let most = most.format(FUNCTION_LIMIT).as_bytes();
        say(
            alloc,
            &[
                b"With '",
                name,
                b"' there are more than ",
                most,
                b" functions.",
            ],
        )
    } else if parameters(f).len() > PARAMETER_LIMIT {
        let has = parameters(f).len() as u64;
        too_many(alloc, name, has, b" parameters", PARAMETER_LIMIT as u64)
    } else if privates > PRIVATE_LIMIT {
        too_many(
            alloc,
            name,
            privates as u64,
            b" parameters and locals",
            PRIVATE_LIMIT as u64,
        )
    } else {
        let mut most = Buffer::new();
        let most = most.format(OPERAND_LIMIT).as_bytes();
        say(
            alloc,
            &[
                b"An expression of '",
                name,
                b"' holds more than ",
                most,
                b" operands at once.",
            ],
        )
    }
}

/// A limit that is passed at a name.
pub(crate) fn passed(
    alloc: Global,
    source: &[u8],
    program: &Program,
    pos: Pos,
) -> Result<Vec<u8>, AllocError> {
    let name = word_at(source, pos);
    match declared_as(program, name) {
        Some(Known::Global(global)) => of_global(alloc, global),
        Some(Known::Function(f)) => of_function(alloc, program, f),
        None => quoted(alloc, name, b"' passes a limit."),
    }
}

/// How many words the array `in` has, where there is one.
pub(crate) fn input_room(program: &Program) -> Option<u64>
    ensures { result ≡ input_room (program_of program.now) }
{
    match declared_as(program, b"in") {
        Some(Known::Global(global)) => array_length(&global.shape),
        _ => None,
    }
}
