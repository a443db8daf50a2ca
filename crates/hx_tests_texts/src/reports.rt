// Reports as they are printed.

use hx_stats::{put_globals, report};
use hx_tree::outcome::{Counts, End, Fault, FaultKind, Finish, Outcome};
use hx_tree::token::Pos;
use hx_tree::tree::{Func, GlobalDecl, Item, Name, Params, Program, Returns, Shape};
use std::alloc::{AllocError, Global};
use std::test::Fail;

fn report_of_end(alloc: Global, end: End, turns: u64) -> Result<Vec<u8>, AllocError> {
    let counts = Counts {
        regions: 1,
        turns,
        repeats: 0,
        violations: 0,
        restarts: 0,
        holds: 0,
        abandons: 0,
        discarded: 0,
        spared: 0,
    };
    let outcome = Outcome {
        text: Vec::new(alloc),
        globals: Vec::new(alloc),
        end,
    };
    report(alloc, &Finish { outcome, counts })
}

#[test]
fn tells_a_normal_end(rt: HostRuntime) -> Result<(), Fail> {
    let text = report_of_end(rt.alloc(), End::Normal(0), 2)?;
    assert_eq!(rt;
        text.as_slice(),
        b"end normal 0\nregions 1\nturns 2\nrepeats 0\nviolations 0\nrestarts 0\nholds 0\nabandons 0\ndiscarded 0\nspared 0\n".as_slice()
    );
    Ok(())
}

#[test]
fn tells_a_fault_and_its_place(rt: HostRuntime) -> Result<(), Fail> {
    let fault = Fault {
        kind: FaultKind::IndexOutOfRange,
        pos: Pos { line: 1, col: 46 },
    };
    let text = report_of_end(rt.alloc(), End::Fault(fault), 4)?;
    assert_eq!(rt;
        text.as_slice(),
        b"end fault 2 at 1:46\nregions 1\nturns 4\nrepeats 0\nviolations 0\nrestarts 0\nholds 0\nabandons 0\ndiscarded 0\nspared 0\n".as_slice()
    );
    Ok(())
}

fn name(alloc: Global, text: &[u8]) -> Result<Name, AllocError> {
    let text = Vec::from_slice(alloc, text)?;
    let pos = Pos { line: 1, col: 1 };
    Ok(Name { text, pos })
}

fn declared(alloc: Global, text: &[u8], shape: Shape) -> Result<GlobalDecl, AllocError> {
    let name = name(alloc, text)?;
    Ok(GlobalDecl { name, shape })
}

fn main_function(alloc: Global) -> Result<Item, AllocError> {
    Ok(Item::Function(Func {
        returns: Returns::Int,
        name: name(alloc, b"main")?,
        params: Params::Nothing,
        body: Vec::new(alloc),
    }))
}

// int a[3], b; int main(){} int c[1];
fn three_globals(alloc: Global) -> Result<Program, AllocError> {
    let a = declared(alloc, b"a", Shape::Array(3, Vec::new(alloc)))?;
    let b = declared(alloc, b"b", Shape::Int(None))?;
    let c = declared(alloc, b"c", Shape::Array(1, Vec::new(alloc)))?;
    let first = Item::Globals(Vec::from_array(alloc, [a, b])?);
    let last = Item::Globals(Vec::from_array(alloc, [c])?);
    let main = main_function(alloc)?;
    let items = Vec::from_array(alloc, [first, main, last])?;
    Ok(Program { items })
}

#[test]
fn tells_the_globals(rt: HostRuntime) -> Result<(), Fail> {
    let program = three_globals(rt.alloc())?;
    let mut text = Vec::from_slice(rt.alloc(), b"5\n")?;
    put_globals(&mut text, &program, &[1, -2, 3, 40, -2147483648])?;
    assert_eq!(&rt;
        text.as_slice(),
        b"5\na 1 -2 3\nb 40\nc -2147483648\n".as_slice()
    );
    Ok(())
}
