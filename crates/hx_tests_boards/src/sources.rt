// What tests begin with: the code of a source. What can't be had ends the test.

use hx_exec::executable::Executable;
use hx_run::executable_of;
use std::alloc::{AllocError, Global};
use std::process::Abort;

fn boxed(alloc: Global, code: Executable) -> Result<Box<Executable>, AllocError> {
    Ok(Box::new(alloc, code)?)
}

/// The code of a source; in a box it is let go by a call.
pub(crate) fn code_for(rt: &impl Abort, alloc: Global, source: &[u8]) -> Box<Executable> {
    let Ok(code) = executable_of(alloc, source) else {
        panic!(rt; "refused");
    };
    match boxed(alloc, code) {
        Ok(code) => code,
        Err(_) => panic!(rt; "no memory"),
    }
}
