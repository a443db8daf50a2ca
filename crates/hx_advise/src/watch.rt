// What the turns of a loop read and write, one event after another.

ghost use Rattle.std.specs.Prelude.{◌≡◌, ◌+◌, ◌<◌, ◌^◌, ◌∷◌, ◌↔◌, [], ℕ, List, Some, IfOk, IsTrue, length, slice_get, slice_set};
ghost use Rattle.hx_advise.specs.Events.{Event, Read, Write, TurnEnd, IsIndependent};
ghost use Rattle.hx_advise.specs.Watch.{AnyWord, AreBoth, IsAgain, IsNeed, need_at, Tells};

use std::alloc::{AllocError, Global};
use std::marker::Model;

/// How a word was needed that turns read before they wrote it, and that earlier turns had written.
#[derive(Clone, Copy, PartialEq, Eq, Debug)]
pub struct Need {
    /// In how many turns.
    pub turns: u64,
    /// How many turns before the nearest of those that wrote it, where there is one.
    pub distance: u64,
    // One more than the number of the last such turn.
    latest: u64,
}

impl Need {
    /// No turn has needed the word.
    pub const NONE: Need = Need {
        turns: 0,
        distance: 0,
        latest: 0,
    };

    // It is needed in this turn, counted from 1, so many turns behind the one that wrote it.
    fn again(self, turn: u64, distance: u64) -> Need
        ensures { IsAgain turn distance self result }
    {
        Need {
            turns: if self.latest == turn {
                self.turns
            } else {
                self.turns.saturating_add(1)
            },
            distance: if self.turns == 0 {
                distance
            } else {
                self.distance.min(distance)
            },
            latest: turn,
        }
    }

    /// Both together, of different times that a loop was opened.
    pub fn and(self, other: Need) -> Need
        ensures { AreBoth self other result }
    {
        Need {
            turns: self.turns.saturating_add(other.turns),
            distance: match (self.turns, other.turns) {
                (_, 0) => self.distance,
                (0, _) => other.distance,
                (_, _) => self.distance.min(other.distance),
            },
            latest: 0,
        }
    }
}

/// What is kept of the events of a loop: which turn is on, for each word the last turn that wrote it, how many reads and writes there
/// were, whether the turns are independent so far, and how words were needed.
#[derive(Drop)]
pub struct Watch {
    turn: u64,
    // For each word one more than the number of the last turn that wrote it, or 0.
    writers: Vec<u64>,
    reads: u64,
    writes: u64,
    is_independent: bool,
    needs: Vec<Need>,
    needed: Need,
}

impl Model for Watch {
    ghost use Rattle.std.specs.Prelude.{◌≡◌, ◌+◌, ◌<◌, ◌^◌, vec_len};
    ghost use Rattle.hx_advise.specs.Watch.{WatchView};

    ghost Value = { WatchView };

    ghost view = { λ w. record { turn = w.turn; writers = w.writers.items; reads = w.reads; writes = w.writes; is_independent = w.is_independent; needs = w.needs.items; needed = w.needed } };

    ghost invariant = { λ w. (w.turn + 1 < 2 ^ 64) × (vec_len w.needs ≡ vec_len w.writers) };
}

impl Watch {
    /// Nothing has happened, over a store of so many words.
    pub fn new(alloc: Global, words: usize) -> Result<Watch, AllocError>
        ensures tells { IfOk result (λ w. Tells w []) }
        ensures words { IfOk result (λ w. length w.writers ≡ words) }
        ensures turn { IfOk result (λ w. w.turn ≡ 0) }
    {
        Ok(Watch {
            turn: 0,
            writers: vec![in alloc; 0; words]?,
            reads: 0,
            writes: 0,
            is_independent: true,
            needs: vec![in alloc; Need::NONE; words]?,
            needed: Need::NONE,
        })
    }

    // The word is needed by the turn that is on, so many turns behind the one that wrote it.
    fn need(&mut self, word: u32, distance: u64)
        requires { word < length self.old.writers }
        ensures needs { (n : Need) → slice_get self.old.needs word ≡ Some n → (m : Need) × IsAgain (self.old.turn + 1) distance n m × (self.new.needs ≡ slice_set self.old.needs word m) }
        ensures needed { IsAgain (self.old.turn + 1) distance self.old.needed self.new.needed }
        ensures rest { self.new ≡ record self.old { needs = self.new.needs; needed = self.new.needed } }
    {
        let turn = self.turn + 1;
        let need = self.needs[word as usize];
        self.needs[word as usize] = need.again(turn, distance);
        self.needed = self.needed.again(turn, distance);
    }

    /// The turn reads a word.
    pub fn read(&mut self, word: u32)
        requires { word < length self.old.writers }
        ensures tells { (events : List Event) → Tells self.old events → Tells self.new (Read word ∷ events) }
        ensures words { length self.new.writers ≡ length self.old.writers }
        ensures turn { self.new.turn ≡ self.old.turn }
    {
        self.reads = self.reads.saturating_add(1);
        let writer = self.writers[word as usize];
        if writer != 0 && writer <= self.turn {
            self.is_independent = false;
            self.need(word, self.turn - writer + 1);
        }
    }

    /// The turn writes a word.
    pub fn write(&mut self, word: u32)
        requires { word < length self.old.writers }
        ensures tells { (events : List Event) → Tells self.old events → Tells self.new (Write word ∷ events) }
        ensures words { length self.new.writers ≡ length self.old.writers }
        ensures turn { self.new.turn ≡ self.old.turn }
    {
        self.writes = self.writes.saturating_add(1);
        self.writers[word as usize] = self.turn + 1;
    }

    /// The turn is whole, and the next one begins.
    pub fn end_turn(&mut self)
        requires { self.old.turn + 2 < 2 ^ 64 }
        ensures tells { (events : List Event) → Tells self.old events → Tells self.new (TurnEnd ∷ events) }
        ensures words { length self.new.writers ≡ length self.old.writers }
        ensures turn { self.new.turn ≡ self.old.turn + 1 }
    {
        self.turn += 1;
    }

    /// Whether no turn has read, before it wrote it, a word that an earlier turn wrote.
    pub fn is_independent(&self) -> bool
        ensures told { (events : List Event) → Tells self.now events → (IsTrue result ↔ IsIndependent events) }
        ensures shown { result ≡ self.now.is_independent }
    {
        self.is_independent
    }

    /// How many whole turns there were.
    pub fn turns(&self) -> u64
        ensures { result ≡ self.now.turn }
    {
        self.turn
    }

    /// How often a word was read, up to 2^64-1.
    pub fn reads(&self) -> u64
        ensures { result ≡ self.now.reads }
    {
        self.reads
    }

    /// How often one was written, up to 2^64-1.
    pub fn writes(&self) -> u64
        ensures { result ≡ self.now.writes }
    {
        self.writes
    }

    /// How each word was needed: in how many turns, which read it before they wrote it where an earlier turn wrote it, and how many turns
    /// behind the nearest of those that wrote it.
    pub fn needs(&self) -> &[Need]
        ensures told { (events : List Event) → Tells self.now events → (a : ℕ) → IsNeed events (λ b. b ≡ a) (need_at result.now a) }
        ensures shown { result.now ≡ self.now.needs }
        ensures words { length result.now ≡ length self.now.writers }
    {
        &self.needs
    }

    /// How any of them was: in how many turns one was needed, and how many turns at the least behind one that wrote it.
    pub fn needed(&self) -> Need
        ensures told { (events : List Event) → Tells self.now events → IsNeed events AnyWord result }
        ensures shown { result ≡ self.now.needed }
    {
        self.needed
    }
}
