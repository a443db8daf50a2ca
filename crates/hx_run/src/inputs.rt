// The numbers of an input text.

ghost use Rattle.std.specs.Prelude.{◌≡◌, ◌<◌, IfOk, IfErr, List, length, ℤ};
ghost use Rattle.hx_tree.specs.declared.limits.TheConstants.{INPUT_LIMIT};
ghost use Rattle.hx_input.specs.InputText.{IsInputText};
ghost use Rattle.hx_run.specs.Refusals.{RefusesText};

use crate::refusal::Refusal;
use std::alloc::Global;

/// The numbers that an input text spells: decimals with white space between them.
///
/// An `Ok` is the one list that the text spells. 65 means that it spells none, or is longer than 1,048,576 bytes, in which case it is
/// always answered; 62 that memory was refused.
pub fn parse_input(alloc: Global, text: &[u8]) -> Result<Vec<i32>, Refusal>
    ensures spelled { IfOk result (λ v. IsInputText text.now v.items) }
    ensures only { IfOk result (λ v. (zs : List ℤ) → IsInputText text.now zs → zs ≡ v.items) }
    ensures refused { IfErr result (RefusesText text.now) }
    ensures long { INPUT_LIMIT < length text.now → result ≡ Err Refusal.InputText }
{
    Ok(hx_input::parse_input(alloc, text)?)
}
