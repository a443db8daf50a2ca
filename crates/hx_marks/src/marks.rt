// A bounded map from store words to values.

ghost use Rattle.std.specs.Prelude.{◌≡◌, ◌↔◌, ◌≤◌, ◌<◌, [], length, slice_get, Some, None, IfOk, OnOk, OnErr, IsErr, IsTrue, vec_len, vec_capacity};
ghost use Rattle.std.specs.List.{insert};
ghost use Rattle.hx_marks.specs.Table.{look, put, IsRising};

use crate::find::search;
use std::alloc::{AllocError, Global};
use std::marker::Model;
use thiserror::Error;

/// A store word and the value that was read of it.
#[derive(Clone, Copy, PartialEq, Eq, Debug)]
pub struct Entry {
    pub word: u32,
    pub value: i32,
}

/// There is no room for another word: whoever asked goes on once it is the head.
#[derive(Clone, Copy, PartialEq, Eq, Debug, Error)]
#[error("full")]
pub struct Full;

/// The read marks of one iteration: the words that it has read and not written before, each with the value that it saw
/// (Hammond, Willey and Olukotun, ASPLOS 1998). Contracts see the entries, in rising order of their words, and how many there
/// may be.
///
/// Words and values stand apart, so that a search goes over words alone.
#[derive(Drop)]
pub struct Marks {
    words: Vec<u32>,
    values: Vec<i32>,
    capacity: usize,
}

impl Model for Marks {
    ghost use Rattle.std.specs.Prelude.{◌≡◌, ◌≤◌, length, vec_capacity};
    ghost use Rattle.hx_marks.specs.Table.{MapView, IsRising, tabled};

    ghost Value = { MapView };

    ghost view = { λ m. record { entries = tabled m.words.items m.values.items; capacity = m.capacity } };

    ghost invariant = { λ m. IsRising (tabled m.words.items m.values.items) × (length m.words.items ≡ length m.values.items) × (length m.words.items ≤ m.capacity) × (m.capacity ≤ vec_capacity m.words) × (m.capacity ≤ vec_capacity m.values) };
}

impl Marks {
    /// No marks, with room for so many words. All the room that there will be is made here.
    pub fn with_capacity(alloc: Global, capacity: usize) -> Result<Marks, AllocError>
        ensures { IfOk result (λ m. m ≡ record { entries = []; capacity = capacity }) }
    {
        Ok(Marks {
            words: Vec::with_capacity(alloc, capacity)?,
            values: Vec::with_capacity(alloc, capacity)?,
            capacity,
        })
    }

    /// The value that was read of a word, if it is marked.
    pub fn get(&self, word: u32) -> Option<i32>
        ensures { result ≡ look self.now.entries word }
    {
        match search(self.words.as_slice(), word) {
            Ok(place) => Some(self.values[place]),
            Err(_) => None,
        }
    }

    /// Marks a word with the value that was read of it; a word that is marked already gets this value. It takes no memory.
    ///
    /// Refused exactly where there are as many marks as there may be and the word isn't among them; nothing changes then.
    pub fn mark(&mut self, word: u32, value: i32) -> Result<(), Full>
        ensures marked { OnOk result (self.new ≡ record self.old { entries = put self.old.entries word value }) }
        ensures full { IsErr result ↔ ((look self.old.entries word ≡ None) × (self.old.capacity ≤ length self.old.entries)) }
        ensures kept { OnErr result (self.new ≡ self.old) }
    {
        match search(self.words.as_slice(), word) {
            Ok(place) => {
                self.values[place] = value;
                Ok(())
            }
            Err(_) if self.words.len() >= self.capacity => Err(Full),
            Err(place) => {
                put_in(&mut self.words, place, word);
                put_in(&mut self.values, place, value);
                Ok(())
            }
        }
    }

    /// How many words are marked.
    pub fn len(&self) -> usize
        ensures { result ≡ length self.now.entries }
    {
        self.words.as_slice().len()
    }

    /// The mark at a place, in rising order of the words.
    pub fn at(&self, place: usize) -> Entry
        requires { place < length self.now.entries }
        ensures { slice_get self.now.entries place ≡ Some result }
    {
        Entry {
            word: self.words[place],
            value: self.values[place],
        }
    }

    /// What every table of marks keeps: the words rise, and there are no more than there may be. It does nothing.
    pub fn known(&self)
        ensures rising { IsRising self.now.entries }
        ensures few { length self.now.entries ≤ self.now.capacity }
    {
        let _words = &self.words;
    }

    /// Whether both have the same words, each with the same value; how many they may have doesn't count.
    pub fn is_same(&self, other: &Marks) -> bool
        ensures { IsTrue result ↔ (self.now.entries ≡ other.now.entries) }
    {
        same_columns(&self.words, &self.values, &other.words, &other.values)
    }

    /// Forgets all marks, and keeps the room for them.
    pub fn clear(&mut self)
        ensures { self.new ≡ record self.old { entries = [] } }
    {
        self.words.clear();
        self.values.clear();
    }
}

// Whether both columns are the same. Entries are few, and comparing them in groups would cost more than one by one.
fn same_columns(words: &[u32], values: &[i32], other_words: &[u32], other_values: &[i32]) -> bool
    requires own { length words.now ≡ length values.now }
    requires other { length other_words.now ≡ length other_values.now }
    ensures { IsTrue result ↔ ((words.now ≡ other_words.now) × (values.now ≡ other_values.now)) }
{
    if words.len() != other_words.len() {
        return false;
    }
    for k in 0..words.len() {
        if words[k] != other_words[k] || values[k] != other_values[k] {
            return false;
        }
    }
    true
}

// Puts an item at a place of a vector that has room for it.
fn put_in<T: Copy>(items: &mut Vec<T>, place: usize, item: T)
    requires within { place ≤ length items.old.items }
    requires room { vec_len items.old < vec_capacity items.old }
    ensures items { items.new.items ≡ insert items.old.items place item }
    ensures capacity { vec_capacity items.old ≤ vec_capacity items.new }
{
    match items.push(item) {
        Ok(()) => {}
        Err(_) => unreachable!(),
    }
    let items = items.as_mut_slice();
    let mut at = items.len() - 1;
    while at > place {
        items[at] = items[at - 1];
        at -= 1;
    }
    items[place] = item;
}
