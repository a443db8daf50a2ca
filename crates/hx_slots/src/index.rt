// Which iterations have marked a word.

ghost use Rattle.std.specs.Prelude.{◌≡◌, ◌<◌, ◌≤◌, List, false, length, take, replicate, IfOk};
ghost use Rattle.std.specs.Int.{bit_at};
ghost use Rattle.hx_code.specs.Local.{LocalView};
ghost use Rattle.hx_speculation.specs.Slots.{Slot as SlotOf};
ghost use Rattle.hx_slots.specs.Slot.{found_of, slots_of};
ghost use Rattle.hx_slots.specs.Slots.{workers_of, AreApart};
ghost use Rattle.hx_slots.specs.Index.{IsIndexOf, AreReaders, IsWithBit, IsWithout, IsNoted};

use crate::slot::{Found, Slot};
use hx_marks::Marks;
use std::alloc::{AllocError, Global};

// How many workers have a bit.
const WORKERS: u32 = 16;

/// The workers whose iterations may have marked a word: a bit each for the first 16.
#[derive(Clone, Copy)]
pub(crate) struct Readers {
    bits: u16,
}

impl Readers {
    /// Whether a worker's iteration may have marked the word. One of a worker without a bit always may.
    pub(crate) fn may_have(self, worker: u32) -> bool
        ensures { result ≡ false → (worker < 16) × (bit_at self.bits worker ≡ 0) }
    {
        worker >= WORKERS || (self.bits >> worker) & 1 == 1
    }
}

/// For each store word, which iterations have marked it: a bit a worker, for the first 16. It is set exactly where the worker's active
/// iteration has marked the word.
#[derive(Drop)]
pub(crate) struct MarkIndex {
    rows: Vec<u16>,
}

impl MarkIndex {
    /// Of so many words, none of which is marked.
    pub(crate) fn new(alloc: Global, words: usize) -> Result<MarkIndex, AllocError>
        ensures { IfOk result (λ i. i.rows.items ≡ replicate words 0) }
    {
        Ok(MarkIndex {
            rows: vec![in alloc; 0u16; words]?,
        })
    }

    /// Whose iterations may have marked a word. All may where the index hasn't the word.
    pub(crate) fn readers(&self, word: u32) -> Readers
        ensures { (xs : List (SlotOf LocalView)) → AreApart (workers_of xs) → IsIndexOf self.now.rows.items xs → AreReaders result.bits word xs }
    {
        let rows = self.rows.as_slice();
        let place = word as usize;
        if place >= rows.len() {
            return Readers { bits: u16::MAX };
        }
        Readers { bits: rows[place] }
    }

    /// What a load of a worker's attempt came to: where it marked the word, so does the index.
    pub(crate) fn note(&mut self, found: Found, word: u32, worker: u32)
        ensures { IsNoted (found_of found) word worker self.old.rows.items self.new.rows.items }
    {
        if let Found::New(_) = found {
            set(self.rows.as_mut_slice(), word, worker);
        }
    }

    /// Forgets what a worker's iteration has marked.
    pub(crate) fn forget(&mut self, marks: &Marks, worker: u32)
        ensures { IsWithout marks.now.entries worker self.old.rows.items self.new.rows.items }
    {
        if worker < WORKERS {
            clear_all(self.rows.as_mut_slice(), marks, worker);
        }
    }

    /// Forgets what the iterations from a place on have marked.
    pub(crate) fn forget_from(&mut self, active: &[Slot], from: usize)
        requires from { from ≤ length active.now }
        requires apart { AreApart (workers_of (slots_of active.now)) }
        requires index { IsIndexOf self.old.rows.items (slots_of active.now) }
        ensures { IsIndexOf self.new.rows.items (slots_of (take from active.now)) }
    {
        let mut k = active.len();
        while k > from {
            k -= 1;
            let slot = &active[k];
            self.forget(slot.marks(), slot.worker());
        }
    }
}

// Sets the bit of a worker for a word, where there is one.
fn set(rows: &mut [u16], word: u32, worker: u32)
    ensures { IsWithBit 1 word worker rows.old rows.new }
{
    let place = word as usize;
    if place < rows.len() && worker < WORKERS {
        rows[place] |= 1u16 << worker;
    }
}

// Clears the bit of a worker for a word, where there is one.
fn clear(rows: &mut [u16], word: u32, worker: u32)
    requires { worker < 16 }
    ensures { IsWithBit 0 word worker rows.old rows.new }
{
    let place = word as usize;
    if place < rows.len() {
        rows[place] &= !(1u16 << worker);
    }
}

// Clears the bits of a worker for all its marked words.
fn clear_all(rows: &mut [u16], marks: &Marks, worker: u32)
    requires { worker < 16 }
    ensures { IsWithout marks.now.entries worker rows.old rows.new }
{
    for k in 0..marks.len() {
        let mark = marks.at(k);
        clear(rows, mark.word, worker);
    }
}
