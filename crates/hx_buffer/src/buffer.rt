// A bounded map of written words.

ghost use Rattle.std.specs.Prelude.{◌≡◌, ◌↔◌, ◌≤◌, ◌<◌, [], length, slice_get, Some, None, IfOk, OnOk, OnErr, IsErr, IsTrue};
ghost use Rattle.hx_marks.specs.Table.{look, put, IsRising};
ghost use Rattle.hx_buffer.specs.Overlay.{overlay};

use hx_marks::marks::{Entry, Full, Marks};
use std::alloc::{AllocError, Global};
use std::marker::Model;

/// The write buffer of one iteration: the store words that it has written, each with the value that it wrote last (Hammond, Willey
/// and Olukotun, ASPLOS 1998). Contracts see the entries, in rising order of their words, and how many there may be.
#[derive(Drop)]
pub struct WriteBuffer {
    words: Marks,
}

impl Model for WriteBuffer {
    ghost use Rattle.hx_marks.specs.Table.{MapView};

    ghost Value = { MapView };

    ghost view = { λ b. b.words };
}

impl WriteBuffer {
    /// No words, with room for so many. All the room that there will be is made here.
    pub fn with_capacity(alloc: Global, capacity: usize) -> Result<WriteBuffer, AllocError>
        ensures { IfOk result (λ b. b ≡ record { entries = []; capacity = capacity }) }
    {
        Ok(WriteBuffer {
            words: Marks::with_capacity(alloc, capacity)?,
        })
    }

    /// The value that was written to a word, if it was written.
    pub fn get(&self, word: u32) -> Option<i32>
        ensures { result ≡ look self.now.entries word }
    {
        self.words.get(word)
    }

    /// Writes a word; one that was written already gets this value. It takes no memory.
    ///
    /// Refused exactly where there are as many words as there may be and this one isn't among them; nothing changes then.
    pub fn put(&mut self, word: u32, value: i32) -> Result<(), Full>
        ensures written { OnOk result (self.new ≡ record self.old { entries = put self.old.entries word value }) }
        ensures full { IsErr result ↔ ((look self.old.entries word ≡ None) × (self.old.capacity ≤ length self.old.entries)) }
        ensures kept { OnErr result (self.new ≡ self.old) }
    {
        self.words.mark(word, value)
    }

    /// How many words are written.
    pub fn len(&self) -> usize
        ensures { result ≡ length self.now.entries }
    {
        self.words.len()
    }

    /// The written word at a place, in their rising order.
    pub fn at(&self, place: usize) -> Entry
        requires { place < length self.now.entries }
        ensures { slice_get self.now.entries place ≡ Some result }
    {
        self.words.at(place)
    }

    /// What every buffer keeps: the words rise, and there are no more than there may be. It does nothing.
    pub fn known(&self)
        ensures rising { IsRising self.now.entries }
        ensures few { length self.now.entries ≤ self.now.capacity }
    {
        self.words.known();
    }

    /// Whether both have written the same words, each with the same value; how many they may have doesn't count.
    pub fn is_same(&self, other: &WriteBuffer) -> bool
        ensures { IsTrue result ↔ (self.now.entries ≡ other.now.entries) }
    {
        self.words.is_same(&other.words)
    }

    /// Forgets all words, and keeps the room for them.
    pub fn clear(&mut self)
        ensures { self.new ≡ record self.old { entries = [] } }
    {
        self.words.clear();
    }

    /// Lays the written words over a store, and forgets them; the room stays. What was written beyond the store is dropped.
    pub fn drain_into(&mut self, store: &mut [i32])
        ensures store { store.new ≡ overlay self.old.entries store.old }
        ensures empty { self.new ≡ record self.old { entries = [] } }
    {
        lay_over(&self.words, store);
        self.clear();
    }
}

// Writes words into a store, one after another.
fn lay_over(words: &Marks, store: &mut [i32])
    ensures { store.new ≡ overlay words.now.entries store.old }
{
    words.known();
    for k in 0..words.len() {
        let entry = words.at(k);
        let place = entry.word as usize;
        if place < store.len() {
            store[place] = entry.value;
        }
    }
}
