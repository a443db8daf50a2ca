// The final globals as text.

ghost use Rattle.std.specs.Prelude.{◌≡◌, ◌++◌, IfOk, OnOk, flat_map, map, codes};
ghost use Rattle.std.specs.Fmt.{signed_decimal};
ghost use Rattle.hx_tree.specs.View.{global_of, item_of, program_of, shape_of};
ghost use Rattle.hx_tree.specs.Meaning.{item_globals};
ghost use Rattle.hx_tree.specs.Accepted.{shape_words};
ghost use Rattle.hx_stats.specs.Globals.{global_line, global_lines, globals_text, words_behind};

use crate::text::put_number;
use hx_tree::tree::{GlobalDecl, Item, Program, Shape};
use std::alloc::AllocError;

/// Puts a line for each global of a program behind the text, in source order: its name, and its words in decimal. `words` are
/// the words of all globals, one after another. An `Err` means that an allocation was refused, and says nothing of the text.
pub fn put_globals(text: &mut Vec<u8>, program: &Program, words: &[i32]) -> Result<(), AllocError>
    ensures { OnOk result (text.new.items ≡ text.old.items ++ globals_text (program_of program.now) words.now) }
{
    let mut rest = words;
    for item in &program.items {
        rest = put_item(text, item, rest)?;
    }
    Ok(())
}

// Puts the lines of the globals that an item declares, and answers the words behind theirs.
fn put_item<'w>(text: &mut Vec<u8>, item: &Item, words: &'w [i32]) -> Result<&'w [i32], AllocError>
    ensures lines { OnOk result (text.new.items ≡ text.old.items ++ global_lines (item_globals (item_of item.now)) words.now) }
    ensures rest { IfOk result (λ r. r.now ≡ words_behind (item_globals (item_of item.now)) words.now) }
{
    match item {
        Item::Globals(globals) => put_lines(text, globals.as_slice(), words),
        Item::Function(_) => Ok(words),
    }
}

// Puts the lines of globals, and answers the words behind theirs.
fn put_lines<'w>(
    text: &mut Vec<u8>,
    globals: &[GlobalDecl],
    words: &'w [i32],
) -> Result<&'w [i32], AllocError>
    ensures lines { OnOk result (text.new.items ≡ text.old.items ++ global_lines (map global_of globals.now) words.now) }
    ensures rest { IfOk result (λ r. r.now ≡ words_behind (map global_of globals.now) words.now) }
{
    let mut rest = words;
    for global in globals {
        let count = shape_words(&global.shape).min(rest.len());
        let (here, behind) = rest.split_at(count);
        put_line(text, global.name.text.as_slice(), here)?;
        rest = behind;
    }
    Ok(rest)
}

fn put_line(text: &mut Vec<u8>, name: &[u8], words: &[i32]) -> Result<(), AllocError>
    ensures { OnOk result (text.new.items ≡ text.old.items ++ global_line name.now words.now) }
{
    text.extend_from_slice(name)?;
    for word in words {
        text.extend_from_slice(b" ")?;
        put_number(text, *word)?;
    }
    text.extend_from_slice(b"\n")
}

// How many words a global has.
fn shape_words(shape: &Shape) -> usize
    ensures { result ≡ shape_words (shape_of shape.now) }
{
    match shape {
        Shape::Int(_) => 1,
        Shape::Array(length, _) => *length as usize,
    }
}
