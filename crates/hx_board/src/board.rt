// The board of a region.

ghost use Rattle.std.specs.Prelude.{◌≡◌, ◌≢◌, ◌<◌, length, true, false, None, IfOk, IsOk, IfErr, IsTrue, ◌↔◌};
ghost use Rattle.hx_speculation.specs.Slots.{of_worker};
ghost use Rattle.hx_speculation.specs.Board.{Start, Load, Write, Head as AskHead, Alive as AskAlive, Settle, Abandon};
ghost use Rattle.hx_word.specs.Entry.{EntryFits};
ghost use Rattle.hx_board.specs.Board.{BoardView, rooms_of, is_over, opening_board};
ghost use Rattle.hx_board.specs.Effect.{has_attempt, IsDue};
ghost use Rattle.hx_board.specs.Calls.{Does, Becomes, IsOwnCode, IsOwnFrame, started_answer, StartsFrame, loaded_answer, stored_answer, headed_answer, alive_answer, settled_answer, SettlesFrame};
ghost use Rattle.hx_board.specs.Known.{IsKept};
ghost use Rattle.hx_board.specs.Ends.{IsFor, state_of, EndsAs, EndsPlainly};

mod again;

use crate::answers::{Alive, Headed, Loaded, Settled, Started, State, Stored};
use crate::effect::{Effect, count_store, first_counts, takes_effect};
use crate::head::Head;
use crate::job::{Job, is_same_entry};
use hx_code::word::Exit;
use hx_exec::local::Local;
use hx_frame::{Capacities, Frame, Tag};
use hx_slots::slot::Found;
use hx_slots::slots::{Slots, Written};
use hx_tree::limits::{PRIVATE_LIMIT, TEXT_LIMIT};
use hx_tree::outcome::Counts;
use hx_word::entry::{Entry, RegionEnd, opened_by};
use hx_word::opened::{Opened, words_behind};
use hx_word::room::refill_words;
use std::alloc::{AllocError, Global};
use std::marker::Model;

/// The iterations of a region that are active, in order from the head, what is committed of the region, and who may settle (Hammond,
/// Willey and Olukotun, ASPLOS 1998). Contracts see what it was made for, and the board of hx_speculation's definition with its store as
/// a list.
#[derive(Drop)]
pub struct Board<'c> {
    job: Job<'c>,
    entry: Entry,
    capacities: Capacities,
    opened: Opened,
    opening: Local,
    slots: Slots,
    head: u64,
    store: Vec<i32>,
    text: Vec<u8>,
    exit: Option<Exit>,
    is_out: bool,
    is_spent: bool,
    counts: Counts,
}

impl<'c> Model for Board<'c> {
    ghost use Rattle.hx_board.specs.Board.{BoardView};
    ghost use Rattle.hx_board.specs.Keeps.{view_of, Kept};

    ghost Value = { BoardView };

    ghost view = { view_of };

    ghost invariant = { Kept };
}

impl<'c> Board<'c> {
    /// A board on which nothing has run, for so many workers. All the room that it will need is made here.
    pub fn new(
        alloc: Global,
        job: Job<'c>,
        entry: &Entry,
        slots: u32,
        capacities: Capacities,
    ) -> Result<Board<'c>, AllocError>
        requires { EntryFits job.code.now job.region entry.now }
        ensures { IfOk result (λ b. b ≡ opening_board job.entry.code.now job.entry.region entry.now slots capacities) }
    {
        let code = job.code;
        code.known();
        let opened = opened_by(code, job.region, entry);
        let mut locals = Vec::with_capacity(alloc, PRIVATE_LIMIT)?;
        refill_words(&mut locals, &entry.locals);
        let kept = Entry {
            store: Vec::from_slice(alloc, &entry.store)?,
            locals,
            depth: entry.depth,
            text_len: entry.text_len,
        };
        Ok(Board {
            job,
            entry: kept,
            capacities,
            opened,
            opening: Local::new(alloc, code)?,
            slots: Slots::new(alloc, code, slots, capacities.marks, capacities.buffer)?,
            head: 0,
            store: Vec::from_slice(alloc, &entry.store)?,
            text: Vec::with_capacity(alloc, TEXT_LIMIT)?,
            exit: None,
            is_out: false,
            is_spent: false,
            counts: first_counts(),
        })
    }

    /// The law of every board: what is committed is a state that the plain region comes to from the board's own entry, or its end, and
    /// each mark is what its iteration sees. It does nothing.
    pub fn known(&self)
        ensures { IsKept self.now }
    {
        let _store = &self.store;
    }

    // Whether no call does anything any more.
    fn is_over(&self) -> bool
        ensures { result ≡ is_over self.now }
    {
        self.exit.is_some() || self.is_spent
    }

    // Whether a frame has this board's code.
    fn has_code_of(&self, frame: &Frame<'_>) -> bool
        ensures { IsTrue result ↔ IsOwnCode self.now.setup frame.now }
    {
        let code = self.job.code;
        code.is_same(frame.code())
    }

    // Whether a frame has this board's capacities.
    fn has_capacities_of(&self, frame: &Frame<'_>) -> bool
        ensures { IsTrue result ↔ (rooms_of frame.now.capacities ≡ self.now.setup.capacities) }
    {
        frame.capacities() == self.capacities
    }

    /// Gives a frame the worker's iteration: the one that it has, or for a free worker the next one. The frame stands at its start then.
    ///
    /// `NotThisFrame` exactly where the frame has another code or other capacities and the region hasn't ended; nothing changes then.
    /// `Ended` where it has, or where the iteration's number would pass 64 bits. The frame stays as it was.
    pub fn start(&mut self, worker: u32, frame: &mut Frame<'_>) -> Started
        requires { worker < self.old.setup.slots }
        ensures own { IsOwnFrame self.old.setup frame.old → Does self.old (Start worker true) (started_answer result frame.new.frame) self.new }
        ensures foreign { (IsOwnFrame self.old.setup frame.old → ⊥) → Does self.old (Start worker false) (started_answer result frame.new.frame) self.new }
        ensures frame { StartsFrame result frame.old frame.new }
    {
        if self.is_over() {
            return Started::Ended;
        }
        if !self.has_capacities_of(frame) || !self.has_code_of(frame) {
            return Started::NotThisFrame;
        }
        self.start_own(worker, frame)
    }

    /// What `start` does with a frame of this board's code and capacities, which it doesn't compare.
    pub fn start_own(&mut self, worker: u32, frame: &mut Frame<'_>) -> Started
        requires worker { worker < self.old.setup.slots }
        requires own { IsOwnFrame self.old.setup frame.old }
        ensures does { Does self.old (Start worker true) (started_answer result frame.new.frame) self.new }
        ensures frame { StartsFrame result frame.old frame.new }
    {
        if self.is_over() {
            return Started::Ended;
        }
        let code = self.job.code;
        code.known();
        let place = self.slots.place_of(worker);
        if place < self.slots.len() {
            let slot = self.slots.at(place);
            let iteration = self.head + place as u64;
            let attempt = slot.attempt();
            frame.restart(slot.start());
            frame.tag(worker, iteration, attempt);
            return Started::Go { iteration, attempt };
        }
        let active = self.slots.len() as u64;
        if u64::MAX - self.head < active {
            self.is_spent = true;
            return Started::Ended;
        }
        let iteration = self.head + active;
        let opened = &self.opened;
        self.opening.begin(code, opened.region, opened.below, &opened.words, iteration);
        self.slots.begin(worker, &self.opening);
        frame.restart(&self.opening);
        frame.tag(worker, iteration, 1);
        Started::Go {
            iteration,
            attempt: 1,
        }
    }

    /// The value of a word, as the worker's attempt sees it: its own write, its own mark, the write of the nearest earlier iteration, or
    /// the committed word; the last two it marks.
    pub fn load(&mut self, worker: u32, attempt: u64, word: u32) -> Loaded
        requires { word < length self.old.store }
        ensures { Does self.old (Load worker attempt word) (loaded_answer result) self.new }
    {
        if self.is_over() {
            return Loaded::Ended;
        }
        let committed = self.store[word as usize];
        match self.slots.load(worker, attempt, word, committed) {
            Found::Known(value) | Found::New(value) => Loaded::Value(value),
            Found::Full => {
                self.counts.holds = self.counts.holds.saturating_add(1);
                Loaded::Full
            }
            Found::Lost => Loaded::Squashed,
        }
    }

    /// A write of the worker's attempt, into its write buffer. The first later iteration whose mark of the word isn't what it sees there
    /// now begins again, and all behind that one.
    pub fn store(&mut self, worker: u32, attempt: u64, word: u32, value: i32) -> Stored
        requires { word < length self.old.store }
        ensures { Does self.old (Write worker attempt word value) (stored_answer result) self.new }
    {
        if self.is_over() {
            return Stored::Ended;
        }
        match self.slots.store(worker, attempt, word, value) {
            Written::Restarts { count, had_readers } => {
                count_store(&mut self.counts, count, had_readers);
                Stored::Done
            }
            Written::Full => {
                self.counts.holds = self.counts.holds.saturating_add(1);
                Stored::Full
            }
            Written::NumbersEnd => {
                self.is_spent = true;
                Stored::Ended
            }
            Written::Lost => Stored::Squashed,
        }
    }

    /// The right to settle, where the worker's attempt is that of the head's iteration and no such right is out.
    pub fn head(&mut self, worker: u32, attempt: u64) -> Headed
        ensures { Does self.old (AskHead worker attempt) (headed_answer result) self.new }
    {
        if self.is_over() {
            return Headed::Ended;
        }
        if !self.has(worker, attempt) {
            return Headed::Squashed;
        }
        if self.is_out {
            return Headed::NotYet;
        }
        if self.slots.place_of(worker) > 0 {
            return Headed::NotYet;
        }
        self.is_out = true;
        Headed::Yours(Head {
            tag: Tag {
                worker,
                iteration: self.head,
                attempt,
            },
        })
    }

    /// Whether the worker still has this attempt.
    pub fn alive(&self, worker: u32, attempt: u64) -> Alive
        ensures { Does self.now (AskAlive worker attempt) (alive_answer result) self.now }
    {
        if self.is_over() {
            Alive::Ended
        } else if self.has(worker, attempt) {
            Alive::Live
        } else {
            Alive::Squashed
        }
    }

    /// Commits what the frame has done since its start, and then does what it waits with.
    ///
    /// `NotThisFrame` exactly where the region hasn't ended and no worker has the head's iteration, or the token's or the frame's worker,
    /// iteration or attempt, or the frame's start, code, marks or written words differ from those of the head's; store and text are then
    /// as they were, and no token is out. After `Again` the frame has nothing read or written and goes on from its new start; after any
    /// other answer it is as it was.
    pub fn settle(&mut self, head: Head, frame: &mut Frame<'_>) -> Settled
        ensures own { IsOwnCode self.old.setup frame.old → Does self.old (Settle head frame.old.frame true) (settled_answer result frame.new.frame) self.new }
        ensures foreign { (IsOwnCode self.old.setup frame.old → ⊥) → Does self.old (Settle head frame.old.frame false) (settled_answer result frame.new.frame) self.new }
        ensures frame { SettlesFrame result frame.old frame.new }
    {
        if self.is_over() {
            let Head { tag: _ } = head;
            return Settled::Ended;
        }
        if !self.has_code_of(frame) {
            let Head { tag: _ } = head;
            self.is_out = false;
            return Settled::NotThisFrame;
        }
        self.settle_own(head, frame)
    }

    /// What `settle` does with a frame of this board's code, which it doesn't compare.
    pub fn settle_own(&mut self, head: Head, frame: &mut Frame<'_>) -> Settled
        requires { IsOwnCode self.old.setup frame.old }
        ensures does { Does self.old (Settle head frame.old.frame true) (settled_answer result frame.new.frame) self.new }
        ensures frame { SettlesFrame result frame.old frame.new }
    {
        let Head { tag } = head;
        if self.is_over() {
            return Settled::Ended;
        }
        if !self.is_due(tag, frame) {
            self.is_out = false;
            return Settled::NotThisFrame;
        }
        self.job.code.known();
        frame.known();
        let ask = frame.waits_with();
        match takes_effect(ask, &mut self.text, self.opened.printed) {
            Effect::GoesOn => {
                self.slots.drain_first(&mut self.store);
                frame.advance();
                self.slots.renew_first(frame.start());
                self.is_out = true;
                Settled::Again(Head { tag })
            }
            Effect::Passes => {
                self.is_out = false;
                if self.head == u64::MAX {
                    self.is_spent = true;
                    return Settled::Ended;
                }
                self.slots.drain_first(&mut self.store);
                self.slots.pass_first();
                self.head += 1;
                self.counts.turns = self.counts.turns.saturating_add(1);
                self.counts.repeats = self
                    .counts
                    .repeats
                    .saturating_add(tag.attempt.saturating_sub(1));
                Settled::Passed
            }
            Effect::Ends(exit) => {
                self.slots.drain_first(&mut self.store);
                let dropped = (self.slots.len() as u64).saturating_sub(1);
                self.slots.drop_all();
                self.exit = Some(exit);
                self.is_out = false;
                self.counts.discarded = self.counts.discarded.saturating_add(dropped);
                Settled::Ended
            }
        }
    }

    /// The worker's iteration begins again from where it was settled last, and all behind it; nothing happens where it has none.
    pub fn abandon(&mut self, worker: u32)
        ensures { Becomes self.old (Abandon worker) self.new }
    {
        if self.is_over() {
            return;
        }
        if self.slots.place_of(worker) >= self.slots.len() {
            return;
        }
        if self.slots.restart_from(worker) {
            self.counts.abandons = self.counts.abandons.saturating_add(1);
        } else {
            self.is_spent = true;
        }
    }

    /// What was counted so far; each count stays at 2^64-1 once it is there.
    pub fn counts(&self) -> Counts
        ensures { result ≡ self.now.counts }
    {
        self.counts
    }

    /// The head's iteration, and the active iterations in order from it.
    pub fn active(&self) -> (u64, &Slots)
        ensures head { result.0 ≡ self.now.head }
        ensures active { result.1.now.active ≡ self.now.active }
    {
        (self.head, &self.slots)
    }

    /// The committed store, the region's own text, and how far the region is.
    pub fn settled(&self) -> (&[i32], &[u8], State)
        ensures store { result.0.now ≡ self.now.store }
        ensures text { result.1.now ≡ self.now.text }
        ensures state { result.2 ≡ state_of self.now.exit }
    {
        let state = match self.exit {
            None => State::Running,
            Some(Exit::Left) => State::Left,
            Some(Exit::Returned(value)) => State::Returned(value),
            Some(Exit::Faulted(fault)) => State::Faulted(fault),
        };
        (&self.store, &self.text, state)
    }

    /// The region's end, exactly where the board was made for this job and this entry and the region has ended: how, the committed store,
    /// the private words of the call that opened it, the region's text and what was counted. Beside what speculation counts this is the
    /// end of the plain region of this job from this entry. Else the board as it is.
    pub fn finish(self, job: &Job<'_>, entry: &Entry) -> Result<RegionEnd, Board<'c>>
        ensures exact { IsOk result ↔ (IsFor self.entry.setup job.now.code.now job.now.region entry.now × (self.entry.exit ≢ None)) }
        ensures end { IfOk result (λ e. EndsAs self.entry e) }
        ensures plain { IfOk result (λ e. EndsPlainly job.now.code.now job.now.region entry.now e) }
        ensures back { IfErr result (λ b. b ≡ self.entry) }
    {
        let Some(exit) = self.exit else {
            return Err(self);
        };
        if !self.is_for(job, entry) {
            return Err(self);
        }
        let code = self.job.code;
        code.known();
        let words = words_behind(code, &self.opened, exit, self.head, &self.store);
        let Board {
            job: _,
            entry: kept,
            capacities: _,
            opened: _,
            opening: _,
            slots: _,
            head: _,
            store,
            text,
            exit: _,
            is_out: _,
            is_spent: _,
            counts,
        } = self;
        let Entry {
            store: _,
            mut locals,
            depth: _,
            text_len: _,
        } = kept;
        let count = locals.len();
        locals.copy_from_slice(&words[..count]);
        Ok(RegionEnd {
            exit,
            store,
            locals,
            text,
            counts,
        })
    }

    // Whether it was made for this job and this entry.
    fn is_for(&self, job: &Job<'_>, entry: &Entry) -> bool
        ensures { IsTrue result ↔ IsFor self.now.setup job.now.code.now job.now.region entry.now }
    {
        if !is_same_entry(&self.entry, entry) {
            return false;
        }
        self.job.is_same(job)
    }

    // Whether the worker has this attempt.
    fn has(&self, worker: u32, attempt: u64) -> bool
        ensures { result ≡ has_attempt attempt (of_worker worker self.now.head self.now.active) }
    {
        let place = self.slots.place_of(worker);
        place < self.slots.len() && self.slots.at(place).attempt() == attempt
    }

    // Whether the token and the frame are those of the head's iteration; the frame's code isn't looked at.
    fn is_due(&self, tag: Tag, frame: &Frame<'_>) -> bool
        ensures { IsTrue result ↔ IsDue self.now.head tag frame.now.frame self.now.active }
    {
        if self.slots.len() == 0 {
            return false;
        }
        let slot = self.slots.at(0);
        tag.worker == slot.worker()
            && tag.iteration == self.head
            && tag.attempt == slot.attempt()
            && frame.tagged() == tag
            && frame.start().is_same(slot.start())
            && frame.marks().is_same(slot.marks())
            && frame.writes().is_same(slot.buffer())
    }
}
