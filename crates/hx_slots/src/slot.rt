// One active iteration.

ghost use Rattle.std.specs.Prelude.{◌≡◌, ◌<◌, ◌^◌, suc, nat_lt, [], IfOk, length};
ghost use Rattle.hx_marks.specs.Table.{look, put};
ghost use Rattle.hx_buffer.specs.Overlay.{or_else, overlay};
ghost use Rattle.hx_speculation.specs.Frame.{is_full};
ghost use Rattle.hx_speculation.specs.Slots.{is_at, restarted, finds_own, is_violated, first_attempt};
ghost use Rattle.hx_slots.specs.Slot.{found_of, marked_by, rooms_for, HasRoomFor};

use hx_buffer::WriteBuffer;
use hx_exec::executable::Executable;
use hx_exec::local::Local;
use hx_marks::Marks;
use std::alloc::{AllocError, Global};
use std::marker::Model;

/// An active iteration: its worker, its attempt, where that begins, and what it has read and written since. Contracts see that, and how
/// many words its tables may have.
///
/// Inside, a slot is no more than a pointer, so that it is moved at no cost.
#[derive(Drop)]
pub struct Slot {
    kept: Box<Kept>,
}

// Whose iteration it is, which attempt, where that begins, and what it has read and written since.
#[derive(Drop)]
struct Kept {
    worker: u32,
    attempt: u64,
    start: Local,
    marks: Marks,
    buffer: WriteBuffer,
}

impl Model for Slot {
    ghost use Rattle.hx_slots.specs.Slot.{SlotView};

    ghost Value = { SlotView };

    ghost view = { λ s. record { slot = record { worker = s.kept.value.worker; attempt = s.kept.value.attempt; start = s.kept.value.start; marks = s.kept.value.marks.entries; buffer = s.kept.value.buffer.entries }; rooms = record { marks = s.kept.value.marks.capacity; buffer = s.kept.value.buffer.capacity } } };
}

/// What a load comes to.
#[derive(Clone, Copy, PartialEq, Eq, Debug)]
pub enum Found {
    /// The value of a word that the iteration had written or marked.
    Known(i32),
    /// The value of a word that it sees, and that is marked now.
    New(i32),
    /// There is no room for the mark.
    Full,
    /// There is no such attempt.
    Lost,
}

impl Slot {
    /// Room for an iteration.
    pub(crate) fn new(
        alloc: Global,
        code: &Executable,
        marks: u32,
        buffer: u32,
    ) -> Result<Slot, AllocError>
        ensures { IfOk result (λ s. s.rooms ≡ rooms_for marks buffer) }
    {
        let kept = Kept {
            worker: 0,
            attempt: 0,
            start: Local::new(alloc, code)?,
            marks: Marks::with_capacity(alloc, marks as usize)?,
            buffer: WriteBuffer::with_capacity(alloc, buffer as usize)?,
        };
        Ok(Slot {
            kept: Box::new(alloc, kept)?,
        })
    }

    /// Becomes the first attempt of a worker, which begins there.
    pub(crate) fn begin(&mut self, worker: u32, start: &Local)
        ensures { self.new ≡ record self.old { slot = first_attempt worker start.now } }
    {
        self.kept.worker = worker;
        self.kept.attempt = 1;
        self.renew(start);
    }

    /// Begins there, with nothing read or written.
    pub(crate) fn renew(&mut self, start: &Local)
        ensures { self.new ≡ record self.old { slot = record self.old.slot { start = start.now; marks = []; buffer = [] } } }
    {
        self.kept.start.copy_from(start);
        self.forget();
    }

    // Nothing is read or written.
    fn forget(&mut self)
        ensures { self.new ≡ record self.old { slot = record self.old.slot { marks = []; buffer = [] } } }
    {
        self.kept.marks.clear();
        self.kept.buffer.clear();
    }

    /// Its worker.
    pub fn worker(&self) -> u32
        ensures { result ≡ self.now.slot.worker }
    {
        self.kept.worker
    }

    /// Which attempt it is, from 1.
    pub fn attempt(&self) -> u64
        ensures { result ≡ self.now.slot.attempt }
    {
        self.kept.attempt
    }

    /// Where the attempt begins.
    pub fn start(&self) -> &Local
        ensures { result.now ≡ self.now.slot.start }
    {
        &self.kept.start
    }

    /// What it has read.
    pub fn marks(&self) -> &Marks
        ensures { result.now.entries ≡ self.now.slot.marks }
    {
        &self.kept.marks
    }

    /// What it has written.
    pub fn buffer(&self) -> &WriteBuffer
        ensures { result.now.entries ≡ self.now.slot.buffer }
    {
        &self.kept.buffer
    }

    /// Whether it is this attempt of the worker.
    pub(crate) fn is_at(&self, worker: u32, attempt: u64) -> bool
        ensures { result ≡ is_at self.now.slot worker attempt }
    {
        self.kept.worker == worker && self.kept.attempt == attempt
    }

    /// A word as the iteration behind it sees it, where it sees this itself.
    pub(crate) fn seen_past(&self, word: u32, seen: i32) -> i32
        ensures { result ≡ or_else (look self.now.slot.buffer word) seen }
    {
        match self.kept.buffer.get(word) {
            Some(value) => value,
            None => seen,
        }
    }

    /// A word for it, which it marks unless it has written or marked it before.
    pub(crate) fn load(&mut self, word: u32, seen: i32) -> Found
        ensures found { found_of result ≡ finds_own self.old.rooms.marks word seen self.old.slot (look self.old.slot.buffer word) }
        ensures marked { self.new ≡ marked_by word result self.old }
    {
        if let Some(value) = self.kept.buffer.get(word) {
            return Found::Known(value);
        }
        if let Some(value) = self.kept.marks.get(word) {
            return Found::Known(value);
        }
        match self.kept.marks.mark(word, seen) {
            Ok(()) => Found::New(seen),
            Err(_) => Found::Full,
        }
    }

    /// Whether a write of the word finds no room among so many words.
    pub(crate) fn is_full(&self, capacity: u32, word: u32) -> bool
        ensures { result ≡ is_full capacity self.now.slot.buffer word }
    {
        !self.kept.buffer.get(word).is_some() && capacity as usize <= self.kept.buffer.len()
    }

    /// Writes a word that there is room for.
    pub(crate) fn write(&mut self, word: u32, value: i32)
        requires { HasRoomFor word self.old }
        ensures { self.new ≡ record self.old { slot = record self.old.slot { buffer = put self.old.slot.buffer word value } } }
    {
        match self.kept.buffer.put(word, value) {
            Ok(()) => {}
            Err(_) => unreachable!(),
        }
    }

    /// Whether a write of the word restarts it, which sees this there now.
    pub(crate) fn is_violated(&self, word: u32, seen: i32) -> bool
        ensures { result ≡ is_violated word seen self.now.slot }
    {
        match self.kept.marks.get(word) {
            Some(value) => value != seen,
            None => false,
        }
    }

    /// Whether the next attempt has a number of 64 bits.
    pub(crate) fn may_restart(&self) -> bool
        ensures { result ≡ nat_lt (suc self.now.slot.attempt) (2 ^ 64) }
    {
        self.kept.attempt < u64::MAX
    }

    /// Begins again.
    pub(crate) fn restart(&mut self)
        requires { suc self.old.slot.attempt < 2 ^ 64 }
        ensures { self.new ≡ record self.old { slot = restarted self.old.slot } }
    {
        self.kept.attempt += 1;
        self.forget();
    }

    /// Lays what it has written over the store, and forgets it.
    pub(crate) fn drain_into(&mut self, store: &mut [i32])
        ensures store { store.new ≡ overlay self.old.slot.buffer store.old }
        ensures empty { self.new ≡ record self.old { slot = record self.old.slot { buffer = [] } } }
    {
        self.kept.buffer.drain_into(store);
    }
}
