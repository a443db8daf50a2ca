// A region's entry and its end.

ghost use Rattle.std.specs.Prelude.{◌≡◌, ◌+◌, ◌<◌, ◌≤◌, ◌++◌, length, drop, slice_get, Some, IfOk};
ghost use Rattle.hx_word.specs.Opening.{opened_of};
ghost use Rattle.hx_word.specs.Entry.{privates_in, EntryFits, IsEntryOf, opened_from};
ghost use Rattle.hx_word.specs.Running.{IsOpened};

use crate::opened::Opened;
use hx_code::table::Spot;
use hx_code::word::Exit;
use hx_exec::executable::Executable;
use hx_tree::limits::PRIVATE_LIMIT;
use hx_tree::outcome::Counts;
use std::alloc::{AllocError, Global};

/// A region as it opens: the store, with the carried words in their cells already, the private words
/// of the call that opens it, that call's depth, and how many bytes were printed before.
#[derive(Drop)]
pub struct Entry {
    pub store: Vec<i32>,
    pub locals: Vec<i32>,
    pub depth: usize,
    pub text_len: usize,
}

/// A region that has ended: how, the store, the private words of the call that opened it, with the
/// cells copied back where the region was left, the region's own text and its counts.
#[derive(Drop)]
pub struct RegionEnd {
    pub exit: Exit,
    pub store: Vec<i32>,
    pub locals: Vec<i32>,
    pub text: Vec<u8>,
    pub counts: Counts,
}

/// How many private words the function of a region has.
pub fn privates_of(code: &Executable, region: u32) -> usize
    requires { region < length code.now.regions }
    ensures same { result ≡ privates_in code.now region }
    ensures few { result ≤ 64 }
{
    code.known();
    let spot = spot_at(code, code.region_at(region).start);
    code.function_at(spot.function).privates as usize
}

// What is told of a place.
fn spot_at(code: &Executable, place: u32) -> Spot
    requires { place < length code.now.spots }
    ensures { slice_get code.now.spots place ≡ Some result }
{
    code.spots()[place as usize]
}

/// The entry of a region that has opened over a store.
pub fn entry_of(
    alloc: Global,
    code: &Executable,
    opened: &Opened,
    store: &[i32],
) -> Result<Entry, AllocError>
    requires region { opened.now.region < length code.now.regions }
    requires below { opened.now.below < 64 }
    ensures { IfOk result (λ e. IsEntryOf code.now (opened_of opened.now) store.now e) }
{
    let count = privates_of(code, opened.region);
    Ok(Entry {
        store: Vec::from_slice(alloc, store)?,
        locals: Vec::from_slice(alloc, &opened.words[..count])?,
        depth: opened.below + 1,
        text_len: opened.printed,
    })
}

/// Private words from their beginning, in place of others.
pub fn put_words(locals: &[i32], words: &mut [i32; PRIVATE_LIMIT])
    requires { length locals.now ≤ 64 }
    ensures { words.new ≡ locals.now ++ drop (length locals.now) words.old }
{
    words[..locals.len()].copy_from_slice(locals);
}

/// How a region was opened that has this entry.
pub fn opened_by(code: &Executable, region: u32, entry: &Entry) -> Opened
    requires { EntryFits code.now region entry.now }
    ensures opened { opened_of result ≡ opened_from region entry.now }
    ensures fits { IsOpened code.now (opened_of result) }
{
    code.known();
    let mut words = [0; PRIVATE_LIMIT];
    put_words(&entry.locals, &mut words);
    Opened {
        region,
        below: entry.depth - 1,
        words,
        printed: entry.text_len,
    }
}
