// The active iterations of a board.

ghost use Rattle.std.specs.Prelude.{◌≡◌, ◌<◌, ◌≤◌, ◌+◌, ◌++◌, ◌∷◌, ◌==◌, [], ℕ, true, false, drop, length, map, Some, IfOk, slice_get};
ghost use Rattle.hx_code.specs.Local.{LocalView};
ghost use Rattle.hx_buffer.specs.Overlay.{overlay};
ghost use Rattle.hx_speculation.specs.Slots.{Slot as SlotOf, found, written, first_attempt, of_worker, may_restart, from_worker, restarted_from};
ghost use Rattle.hx_slots.specs.Slot.{found_of, rooms_for};
ghost use Rattle.hx_slots.specs.Slots.{SlotsView, after_load, after_store, written_of, place_of as place_where, numbered_at, workers_of, IsFree, AreWorkers};

use crate::index::MarkIndex;
use crate::places::{first_violated, is_marked, may_restart, place_at, place_of, restart, seen};
use crate::slot::{Found, Slot};
use hx_exec::executable::Executable;
use hx_exec::local::Local;
use hx_tree::limits::CELL_LIMIT;
use std::alloc::{AllocError, Global};
use std::marker::Model;

/// The active iterations, in order from the head, each of another worker. Contracts see them, how many there may be, and how many words
/// their tables may have. Inside, an index tells for each store word whose iteration has marked it, so that a store asks no others.
#[derive(Drop)]
pub struct Slots {
    active: Vec<Slot>,
    free: Vec<Slot>,
    index: MarkIndex,
    marks: u32,
    buffer: u32,
}

impl Model for Slots {
    ghost use Rattle.std.specs.Prelude.{◌+◌, length, vec_capacity};
    ghost use Rattle.hx_slots.specs.Slot.{slots_of, rooms_for};
    ghost use Rattle.hx_slots.specs.Slots.{SlotsView, KeepsSlots};

    ghost Value = { SlotsView };

    ghost view = { λ s. record { active = slots_of s.active.items; slots = length s.active.items + length s.free.items; rooms = rooms_for s.marks s.buffer } };

    ghost invariant = { λ s. KeepsSlots (rooms_for s.marks s.buffer) s.active.items (vec_capacity s.active) s.free.items (vec_capacity s.free) s.index.rows.items };
}

/// What a store comes to.
#[derive(Clone, Copy, PartialEq, Eq, Debug)]
pub enum Written {
    /// It is done, and so many iterations begin again, perhaps none; a later one had marked the word, or none had.
    Restarts { count: usize, had_readers: bool },
    /// There is no room for the word.
    Full,
    /// An iteration that would begin again has the last number of 64 bits for its attempt.
    NumbersEnd,
    /// There is no such attempt.
    Lost,
}

impl Slots {
    /// None is active; there is room for so many, with tables of so many words. All the room that there will be is made here.
    pub fn new(
        alloc: Global,
        code: &Executable,
        slots: u32,
        marks: u32,
        buffer: u32,
    ) -> Result<Slots, AllocError>
        ensures { IfOk result (λ s. s ≡ record { active = []; slots = slots; rooms = rooms_for marks buffer }) }
    {
        let mut free = Vec::with_capacity(alloc, slots as usize)?;
        for _k in 0..slots {
            free.push(Slot::new(alloc, code, marks, buffer)?)?;
        }
        Ok(Slots {
            active: Vec::with_capacity(alloc, slots as usize)?,
            free,
            index: MarkIndex::new(alloc, code.globals() as usize + CELL_LIMIT)?,
            marks,
            buffer,
        })
    }

    /// What is kept of all iterations: each is of another worker, of so many, and so no more are active than there may be. It does
    /// nothing.
    pub fn known(&self)
        ensures workers { AreWorkers self.now.slots (workers_of self.now.active) }
        ensures few { length self.now.active ≤ self.now.slots }
    {
        let _active = &self.active;
    }

    /// How many are active.
    pub fn len(&self) -> usize
        ensures { result ≡ length self.now.active }
    {
        self.active.as_slice().len()
    }

    /// The one at a place, counted from the head.
    pub fn at(&self, place: usize) -> &Slot
        requires { place < length self.now.active }
        ensures { slice_get self.now.active place ≡ Some result.now.slot }
    {
        &self.active[place]
    }

    /// Where a worker's iteration stands, counted from the head; how many are active, where it has none.
    pub fn place_of(&self, worker: u32) -> usize
        ensures place { result ≡ place_where (λ x. x.worker == worker) self.now.active }
        ensures number { (j : ℕ) → of_worker worker j self.now.active ≡ numbered_at j self.now.active result }
    {
        let active = &self.active;
        place_of(active, worker)
    }

    /// A free worker gets the next iteration, which begins there, in its first attempt.
    pub fn begin(&mut self, worker: u32, start: &Local)
        requires worker { worker < self.old.slots }
        requires free { IsFree worker (workers_of self.old.active) }
        ensures { self.new ≡ record self.old { active = self.old.active ++ first_attempt worker start.now ∷ [] } }
    {
        let Some(mut slot) = self.free.pop() else {
            unreachable!()
        };
        slot.begin(worker, start);
        let Ok(()) = self.active.push(slot) else {
            unreachable!()
        };
    }

    /// A load of a word, which has this value in the store: what it comes to, and the mark of a word that is new to the iteration.
    pub fn load(&mut self, worker: u32, attempt: u64, word: u32, committed: i32) -> Found
        ensures found { found_of result ≡ found self.old.rooms.marks worker attempt word committed self.old.active }
        ensures after { self.new ≡ record self.old { active = after_load worker attempt word (found_of result) self.old.active } }
    {
        let place = place_at(&self.active, worker, attempt);
        if place >= self.active.len() {
            return Found::Lost;
        }
        let seen = seen(&self.active, place, word, committed);
        let found = self.active[place].load(word, seen);
        self.index.note(found, word, worker);
        found
    }

    /// A store of a value in a word: what it comes to. Where it is done, the first iteration behind whose mark of the word isn't what it
    /// sees there now begins again, and all after that one.
    pub fn store(&mut self, worker: u32, attempt: u64, word: u32, value: i32) -> Written
        ensures written { written_of result ≡ written self.old.rooms.buffer worker attempt word value self.old.active }
        ensures after { self.new ≡ record self.old { active = after_store worker attempt word value (written_of result) self.old.active } }
    {
        let place = place_at(&self.active, worker, attempt);
        if place >= self.active.len() {
            return Written::Lost;
        }
        if self.active[place].is_full(self.buffer, word) {
            return Written::Full;
        }
        let readers = self.index.readers(word);
        let first = first_violated(&self.active, readers, place + 1, word, value);
        if !may_restart(&self.active, first) {
            return Written::NumbersEnd;
        }
        let had_readers = is_marked(&self.active, readers, place + 1, word);
        self.index.forget_from(&self.active, first);
        self.active[place].write(word, value);
        restart(&mut self.active, first);
        Written::Restarts {
            count: self.active.len() - first,
            had_readers,
        }
    }

    /// A worker's iteration begins again, and all after it. Nothing changes where one of them has the last number of 64 bits for its
    /// attempt.
    pub fn restart_from(&mut self, worker: u32) -> bool
        ensures told { result ≡ may_restart (from_worker worker self.old.active) }
        ensures done { result ≡ true → self.new ≡ record self.old { active = restarted_from worker self.old.active } }
        ensures kept { result ≡ false → self.new ≡ self.old }
    {
        let first = place_of(&self.active, worker);
        if !may_restart(&self.active, first) {
            return false;
        }
        self.index.forget_from(&self.active, first);
        restart(&mut self.active, first);
        true
    }

    /// What the head has written is laid over the store, and forgotten.
    pub fn drain_first(&mut self, store: &mut [i32])
        requires { 0 < length self.old.active }
        ensures { (x : SlotOf LocalView) (later : _) → self.old.active ≡ x ∷ later → (store.new ≡ overlay x.buffer store.old) × (self.new ≡ record self.old { active = record x { buffer = [] } ∷ later }) }
    {
        self.active[0].drain_into(store);
    }

    /// The head begins there, in the same attempt, with nothing read or written.
    pub fn renew_first(&mut self, start: &Local)
        requires { 0 < length self.old.active }
        ensures { (x : SlotOf LocalView) (later : _) → self.old.active ≡ x ∷ later → self.new ≡ record self.old { active = record x { start = start.now; marks = []; buffer = [] } ∷ later } }
    {
        let head = &self.active[0];
        self.index.forget(head.marks(), head.worker());
        self.active[0].renew(start);
    }

    /// The head is over, and the next iteration is the first.
    pub fn pass_first(&mut self)
        requires { 0 < length self.old.active }
        ensures { self.new ≡ record self.old { active = drop 1 self.old.active } }
    {
        let first = self.active.remove(0);
        self.index.forget(first.marks(), first.worker());
        let Ok(()) = self.free.push(first) else {
            unreachable!()
        };
    }

    /// None is active any more.
    pub fn drop_all(&mut self)
        ensures { self.new ≡ record self.old { active = [] } }
    {
        self.index.forget_from(&self.active, 0);
        while let Some(slot) = self.active.pop() {
            let Ok(()) = self.free.push(slot) else {
                unreachable!()
            };
        }
    }
}
