// The store as a run begins.

ghost use Rattle.std.specs.Prelude.{◌≡◌, IfOk};
ghost use Rattle.hx_code.specs.Machine.{InputFits, room_for_input, opening_store as store_of, filled};

use hx_exec::executable::Executable;
use hx_tree::limits::CELL_LIMIT;
use std::alloc::{AllocError, Global};

/// How many words of the input there is room for.
pub(crate) fn room_for(code: &Executable) -> usize
    ensures { result ≡ room_for_input code.now }
{
    match code.input() {
        None => 0,
        Some(array) => array.length as usize,
    }
}

/// The globals with the input in its array and its length in the word for it, and then the cells.
pub(crate) fn opening_store(
    alloc: Global,
    code: &Executable,
    input: &[i32],
) -> Result<Vec<i32>, AllocError>
    requires { InputFits code.now input.now }
    ensures { IfOk result (λ s. s.items ≡ store_of code.now input.now) }
{
    code.known();
    let mut store = filled_globals(alloc, code, input)?;
    if let Some(word) = code.input_length() {
        store[word as usize] = input.len() as i32;
    }
    store.extend_from_slice(&[0; CELL_LIMIT])?;
    Ok(store)
}

// The globals with the input in its array.
fn filled_globals(alloc: Global, code: &Executable, input: &[i32]) -> Result<Vec<i32>, AllocError>
    requires { InputFits code.now input.now }
    ensures { IfOk result (λ s. s.items ≡ filled code.now.input input.now code.now.opening) }
{
    code.known();
    let opening = code.opening();
    let mut store = Vec::with_capacity(alloc, opening.len() + CELL_LIMIT)?;
    match code.input() {
        None => store.extend_from_slice(opening)?,
        Some(array) => {
            let base = array.base as usize;
            let behind = base + input.len();
            store.extend_from_slice(&opening[..base])?;
            store.extend_from_slice(input)?;
            store.extend_from_slice(&opening[behind..])?;
        }
    }
    Ok(store)
}
