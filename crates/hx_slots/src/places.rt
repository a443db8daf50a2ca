// Where iterations stand, and what those behind are to do.

ghost use Rattle.std.specs.Prelude.{◌≡◌, ◌≤◌, ◌<◌, ◌+◌, ◌++◌, ◌==◌, true, false, is_some, drop, take, length, map};
ghost use Rattle.hx_marks.specs.Table.{look};
ghost use Rattle.hx_speculation.specs.Slots.{is_at, is_marked as any_marked, may_restart as may_all_restart, restarted, is_violated as violates};
ghost use Rattle.hx_slots.specs.Slot.{slots_of, rooms_of};
ghost use Rattle.hx_slots.specs.Slots.{place_of as place_where, seen_behind, before_violated};
ghost use Rattle.hx_slots.specs.Index.{IsReader, AreReaders, HaveNot};

use crate::index::Readers;
use crate::slot::Slot;

/// How many stand before this attempt of a worker.
pub(crate) fn place_at(active: &[Slot], worker: u32, attempt: u64) -> usize
    ensures { result ≡ place_where (λ x. is_at x worker attempt) (slots_of active.now) }
{
    let mut place = 0;
    while place < active.len() && !active[place].is_at(worker, attempt) {
        place += 1;
    }
    place
}

/// How many stand before a worker's iteration.
pub(crate) fn place_of(active: &[Slot], worker: u32) -> usize
    ensures { result ≡ place_where (λ x. x.worker == worker) (slots_of active.now) }
{
    let mut place = 0;
    while place < active.len() && active[place].worker() != worker {
        place += 1;
    }
    place
}

/// A word as the iteration at a place sees it, where the first sees this.
pub(crate) fn seen(active: &[Slot], place: usize, word: u32, committed: i32) -> i32
    requires { place ≤ length active.now }
    ensures { result ≡ seen_behind word committed (slots_of (take place active.now)) }
{
    let mut seen = committed;
    for k in 0..place {
        seen = active[k].seen_past(word, seen);
    }
    seen
}

// Whether any from a place on may have marked a word, by its readers.
fn may_violate(active: &[Slot], readers: Readers, from: usize, word: u32) -> bool
    requires from { from ≤ length active.now }
    requires readers { AreReaders readers.bits word (slots_of active.now) }
    ensures { result ≡ false → HaveNot word (slots_of (drop from active.now)) }
{
    let mut k = active.len();
    while k > from {
        k -= 1;
        if readers.may_have(active[k].worker()) {
            return true;
        }
    }
    false
}

// Whether a write of a word restarts an iteration, which sees this there now; by the word's readers first.
fn is_violated(slot: &Slot, readers: Readers, word: u32, seen: i32) -> bool
    requires { IsReader readers.bits word slot.now.slot }
    ensures { result ≡ violates word seen slot.now.slot }
{
    if !readers.may_have(slot.worker()) {
        return false;
    }
    slot.is_violated(word, seen)
}

/// Where the first stands, from a place on, that a write of this value violates; behind all of them, where it violates none. Only the
/// word's readers are asked.
pub(crate) fn first_violated(
    active: &[Slot],
    readers: Readers,
    from: usize,
    word: u32,
    value: i32,
) -> usize
    requires from { from ≤ length active.now }
    requires readers { AreReaders readers.bits word (slots_of active.now) }
    ensures { result ≡ from + before_violated word value (slots_of (drop from active.now)) }
{
    if !may_violate(active, readers, from, word) {
        return active.len();
    }
    let mut seen = value;
    let mut place = from;
    while place < active.len() && !is_violated(&active[place], readers, word, seen) {
        seen = active[place].seen_past(word, seen);
        place += 1;
    }
    place
}

// Whether an iteration has marked a word; by the word's readers first.
fn has_marked(slot: &Slot, readers: Readers, word: u32) -> bool
    requires { IsReader readers.bits word slot.now.slot }
    ensures { result ≡ is_some (look slot.now.slot.marks word) }
{
    if !readers.may_have(slot.worker()) {
        return false;
    }
    slot.marks().get(word).is_some()
}

/// Whether any from a place on has marked a word. Only the word's readers are asked.
pub(crate) fn is_marked(active: &[Slot], readers: Readers, from: usize, word: u32) -> bool
    requires from { from ≤ length active.now }
    requires readers { AreReaders readers.bits word (slots_of active.now) }
    ensures { result ≡ any_marked word (slots_of (drop from active.now)) }
{
    for k in from..active.len() {
        if has_marked(&active[k], readers, word) {
            return true;
        }
    }
    false
}

/// Whether all from a place on may begin again.
pub(crate) fn may_restart(active: &[Slot], from: usize) -> bool
    requires { from ≤ length active.now }
    ensures { result ≡ may_all_restart (slots_of (drop from active.now)) }
{
    for k in from..active.len() {
        if !active[k].may_restart() {
            return false;
        }
    }
    true
}

/// All from a place on begin again.
pub(crate) fn restart(active: &mut [Slot], from: usize)
    requires from { from ≤ length active.old }
    requires may { may_all_restart (slots_of (drop from active.old)) ≡ true }
    ensures slots { slots_of active.new ≡ slots_of (take from active.old) ++ map restarted (slots_of (drop from active.old)) }
    ensures rooms { rooms_of active.new ≡ rooms_of active.old }
{
    let all = active.len();
    for k in from..all {
        active[k].restart();
    }
}
