// Entries and ends that are filled again and again.

ghost use Rattle.std.specs.Prelude.{◌≡◌, ◌<◌, ◌≤◌, length, vec_capacity, IfOk};
ghost use Rattle.hx_code.specs.Code.{store_words};
ghost use Rattle.hx_word.specs.Entry.{EntryFits, IsEntryOf, region_counts};
ghost use Rattle.hx_word.specs.Opening.{opened_of};
ghost use Rattle.hx_word.specs.Rooms.{IsBlank, HasEntryRoom, HasEndRoom};

use crate::entry::{Entry, RegionEnd, privates_of};
use crate::opened::Opened;
use hx_code::word::Exit;
use hx_exec::executable::Executable;
use hx_tree::limits::{PRIVATE_LIMIT, TEXT_LIMIT};
use hx_tree::outcome::Counts;
use std::alloc::{AllocError, Global};

impl Entry {
    /// An entry of a region of the code, with words 0, depth 1 and no text before it. It has room for an entry of each region of the
    /// code.
    pub fn with_room(alloc: Global, code: &Executable, region: u32) -> Result<Entry, AllocError>
        requires { region < length code.now.regions }
        ensures fits { IfOk result (EntryFits code.now region) }
        ensures blank { IfOk result (IsBlank code.now region) }
        ensures room { IfOk result (HasEntryRoom code.now) }
    {
        code.known();
        let words = code.globals() as usize + 64;
        let mut store = Vec::with_capacity(alloc, words)?;
        store.resize(words, 0)?;
        let count = privates_of(code, region);
        let mut locals = Vec::with_capacity(alloc, PRIVATE_LIMIT)?;
        locals.resize(count, 0)?;
        Ok(Entry {
            store,
            locals,
            depth: 1,
            text_len: 0,
        })
    }
}

impl RegionEnd {
    /// An end without words and text, which has room for an end of each region of the code.
    pub fn with_room(alloc: Global, code: &Executable) -> Result<RegionEnd, AllocError>
        ensures { IfOk result (HasEndRoom code.now) }
    {
        Ok(RegionEnd {
            exit: Exit::Left,
            store: Vec::with_capacity(alloc, code.globals() as usize + 64)?,
            locals: Vec::with_capacity(alloc, PRIVATE_LIMIT)?,
            text: Vec::with_capacity(alloc, TEXT_LIMIT)?,
            counts: plain_counts(0),
        })
    }
}

/// What a region counts that was run on one thread: itself, and so many whole turns.
pub(crate) fn plain_counts(turns: u64) -> Counts
    ensures { result ≡ region_counts turns }
{
    Counts::plain(1, turns)
}

/// Words in place of others, where there is room for them.
pub fn refill_words(kept: &mut Vec<i32>, words: &[i32])
    requires { length words.now ≤ vec_capacity kept.old }
    ensures items { kept.new.items ≡ words.now }
    ensures room { vec_capacity kept.old ≤ vec_capacity kept.new }
{
    kept.clear();
    let Ok(()) = kept.extend_from_slice(words) else {
        unreachable!()
    };
}

/// A text in place of another, where there is room for it.
pub fn refill_text(kept: &mut Vec<u8>, text: &[u8])
    requires { length text.now ≤ vec_capacity kept.old }
    ensures items { kept.new.items ≡ text.now }
    ensures room { vec_capacity kept.old ≤ vec_capacity kept.new }
{
    kept.clear();
    let Ok(()) = kept.extend_from_slice(text) else {
        unreachable!()
    };
}

/// The entry of a region that has opened over a store, in place of another.
pub(crate) fn refill_entry(code: &Executable, opened: &Opened, store: &[i32], entry: &mut Entry)
    requires region { opened.now.region < length code.now.regions }
    requires below { opened.now.below < 64 }
    requires words { length opened.now.words ≡ 64 }
    requires store { length store.now ≡ store_words code.now }
    requires room { HasEntryRoom code.now entry.old }
    ensures entry { IsEntryOf code.now (opened_of opened.now) store.now entry.new }
    ensures room { HasEntryRoom code.now entry.new }
{
    let count = privates_of(code, opened.region);
    refill_words(&mut entry.store, store);
    refill_words(&mut entry.locals, &opened.words[..count]);
    entry.depth = opened.below + 1;
    entry.text_len = opened.printed;
}
