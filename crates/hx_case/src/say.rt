// Sentences, put together from parts.

ghost use Rattle.std.specs.Prelude.{◌≡◌, flat_map, IfOk};
ghost use Rattle.hx_case.specs.Input.{plural};

use std::alloc::{AllocError, Global};

/// Some texts, one behind another.
pub(crate) fn say(alloc: Global, parts: &[&[u8]]) -> Result<Vec<u8>, AllocError>
    ensures { IfOk result (λ v. v.items ≡ flat_map (λ p. p.now) parts.now) }
{
    let mut text = Vec::new(alloc);
    for part in parts {
        text.extend_from_slice(part)?;
    }
    Ok(text)
}

/// A name in quotes, and what is said of it, which begins with the closing quote.
pub(crate) fn quoted(alloc: Global, name: &[u8], why: &[u8]) -> Result<Vec<u8>, AllocError> {
    let mut text = Vec::from_slice(alloc, b"'")?;
    text.extend_from_slice(name)?;
    text.extend_from_slice(why)?;
    Ok(text)
}

/// The end of a word that counts so many things.
pub(crate) fn plural(count: usize) -> &'static [u8]
    ensures { result.now ≡ plural count }
{
    if count == 1 { b"" } else { b"s" }
}
