// The code of a checked program.

ghost use Rattle.std.specs.Prelude.{◌≡◌, IfOk};
ghost use Rattle.hx_tree.specs.View.{program_of};
ghost use Rattle.hx_resolved.specs.Resolve.{resolve};
ghost use Rattle.hx_lowering.specs.Correct.{Behaves};
ghost use Rattle.hx_lowering.specs.Draft.{code_of};

use crate::error::LowerError;
use crate::program::words_and_tables;
use hx_check::checked::Checked;
use hx_code::code::Code;
use hx_code::validate::validate;
use hx_lowered::laws::lowered_code_is_valid;
use hx_lowering::laws::code_behaves;
use std::alloc::Global;

/// The code of a checked program: for every input that fits, it ends with an outcome and whole turns exactly where the
/// program does.
///
/// Refusal 30 comes for want of memory, or where 32 bits don't number the words, and says nothing of the program.
pub fn lower(alloc: Global, checked: &Checked) -> Result<Code, LowerError>
    ensures code { IfOk result (λ code. code ≡ code_of (resolve (program_of checked.now))) }
    ensures behaves { IfOk result (λ code. Behaves (program_of checked.now) code) }
{
    let program = checked.program();
    let (words, tables) = words_and_tables(alloc, program)?;
    lowered_code_is_valid();
    code_behaves();
    match validate(words, tables) {
        Some(code) => Ok(code),
        None => unreachable!(),
    }
}
