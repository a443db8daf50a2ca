// Whether words outside regions name cells, in codes by hand.

use crate::codes::{Change, Function, HERE, Line, Marked, Plan, code_of};
use hx_code::table::{Carried, Induct};
use hx_code::word::Word;
use hx_outside::outside::names_globals;
use hx_tree::tree::Operator;
use std::alloc::Global;
use std::test::Fail;

// Iterations of region 0, which stand at 1 to 14, add private word 0 to the first cell, which is word 2 of the store, behind two globals. Behind
// the region a global is set to another.
static ADDING: [Line; 19] = [
    (Word::Enter(0, 15), 0),
    (Word::Priv(0), 0),
    (Word::Const(3), 1),
    (Word::Binary(Operator::Less, HERE), 2),
    (Word::JumpFalse(14), 1),
    (Word::Glob(2), 0),
    (Word::Priv(0), 1),
    (Word::Binary(Operator::Add, HERE), 2),
    (Word::SetGlob(2), 1),
    (Word::Priv(0), 0),
    (Word::Const(1), 1),
    (Word::Binary(Operator::Add, HERE), 2),
    (Word::SetPriv(0), 1),
    (Word::Turn, 0),
    (Word::Leave, 0),
    (Word::Glob(0), 0),
    (Word::SetGlob(1), 1),
    (Word::Const(0), 0),
    (Word::Ret, 1),
];

static MAIN: [Function; 1] = [Function {
    number: 0,
    entry: 0,
    parameters: 0,
    privates: 4,
}];

static CARRIED: [Carried; 1] = [Carried {
    private: 1,
    cell: 0,
}];

// Whether the words outside its region name globals alone, with some changed.
fn are_globals(alloc: Global, changes: &[Change]) -> Result<bool, Fail> {
    let region = Marked {
        start: 1,
        exit: 15,
        carried: &CARRIED,
        copied: &[],
        counter: Some(Induct {
            private: 0,
            step: 1,
        }),
    };
    let plan = Plan {
        lines: &ADDING,
        changes,
        functions: &MAIN,
        main: 0,
        region: Some(region),
        globals: 2,
        opening: &[0, 0],
    };
    let code = code_of(alloc, &plan)?;
    Ok(names_globals(&code))
}

// The region's own words name a cell, and the others the first global and the last one.
#[test]
fn cells_are_named_in_regions_alone(rt: HostRuntime) -> Result<(), Fail> {
    let fine = are_globals(rt.alloc(), &[])?;
    assert!(&rt; fine);
    Ok(())
}

#[test]
fn a_word_outside_fetches_a_cell(rt: HostRuntime) -> Result<(), Fail> {
    let fine = are_globals(rt.alloc(), &[(15, Word::Glob(2), 0)])?;
    assert!(&rt; !fine);
    Ok(())
}

#[test]
fn a_word_outside_sets_a_cell(rt: HostRuntime) -> Result<(), Fail> {
    let fine = are_globals(rt.alloc(), &[(16, Word::SetGlob(65), 1)])?;
    assert!(&rt; !fine);
    Ok(())
}
