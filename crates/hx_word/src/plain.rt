// The plain machine of a code.

ghost use Rattle.std.specs.Prelude.{◌≡◌, ◌↔◌, ◌<◌, length, IfOk, IsErrOf, OnOk, true, None};
ghost use Rattle.hx_code.specs.Machine.{Machine, InputFits, room_for_input, opening_machine, resumed};
ghost use Rattle.hx_word.specs.Plain.{PlainView, OpenView, StandsWell, machine_of, one_store, whole};
ghost use Rattle.hx_word.specs.Opening.{opened_of};
ghost use Rattle.hx_word.specs.Entry.{EntryFits, EndFits, IsEntryOf, result_from};
ghost use Rattle.hx_word.specs.Rooms.{HasEntryRoom};
ghost use Rattle.hx_word.specs.Ran.{RanFrom, PausedFrom, ReachedFrom};

use crate::entry::{Entry, RegionEnd, entry_of};
use crate::iterations::Iterations;
use crate::opening::{opening_store, room_for};
use crate::room::refill_entry;
use crate::seen::Seen;
use crate::state::State;
use hx_exec::executable::Executable;
use hx_exec::local::Local;
use hx_tree::limits::TEXT_LIMIT;
use hx_tree::outcome::{Counts, Outcome};
use std::alloc::{AllocError, Global};
use std::marker::Model;

/// A plain machine: a program's run over one store, word after word, the iterations of its regions one
/// after another. Contracts see its code and its machine.
#[derive(Drop)]
pub struct Plain<'c> {
    code: &'c Executable,
    state: State,
}

impl<'c> Model for Plain<'c> {
    ghost use Rattle.std.specs.Prelude.{◌≡◌};
    ghost use Rattle.hx_word.specs.Plain.{PlainView, StandsWell, HasRoom, machine_of};

    ghost Value = { PlainView };

    ghost view = { λ p. record { code = p.code.now; machine = machine_of p.state } };

    ghost invariant = { λ p. StandsWell p.code.now (machine_of p.state) × HasRoom p.state };
}

/// Why there is no plain machine.
#[derive(Clone, Copy, PartialEq, Eq, Debug)]
pub enum PlainError {
    /// 61: the input is longer than the array that it fills, or there is no such array.
    InputUnfit,
    /// 62: memory was refused.
    OutOfMemory,
}

impl From<AllocError> for PlainError {
    ghost use Rattle.std.specs.Prelude.{◌≡◌};
    ghost use Rattle.hx_word.specs.declared.plain.PlainError.TheVariants.{OutOfMemory};

    ghost from_gives = { λ _ e. e ≡ OutOfMemory };

    fn from(_error: AllocError) -> PlainError {
        PlainError::OutOfMemory
    }
}

/// What a run of so many words comes to: its outcome and its counts, or more to be done.
#[derive(Drop)]
pub enum Ran<'c> {
    Ended(Outcome, Counts),
    More(Plain<'c>),
}

/// Where a run stops that stops as a region opens: there, at its end, or after its words.
#[derive(Drop)]
pub enum Paused<'c> {
    At(Open<'c>),
    Ended(Outcome, Counts),
    More(Plain<'c>),
}

/// Where a run comes to that looks for a region's entry: the region's number and its entry, or the
/// run ends before, or neither is within its words.
#[derive(Drop)]
pub enum Reached {
    At(u32, Entry),
    Ended,
    More,
}

/// A plain machine whose last word opened a region. Contracts see its code, the program as it waits,
/// and the region.
#[derive(Drop)]
pub struct Open<'c> {
    code: &'c Executable,
    state: State,
}

impl<'c> Model for Open<'c> {
    ghost use Rattle.std.specs.Prelude.{◌≡◌, true, None};
    ghost use Rattle.hx_word.specs.Running.{running};
    ghost use Rattle.hx_word.specs.Plain.{OpenView, StandsWell, HasRoom, machine_of, outer_of};

    ghost Value = { OpenView };

    ghost view = { λ o. record { code = o.code.now; outer = outer_of o.state; region = running o.state.iterations o.state.store.items None } };

    ghost invariant = { λ o. StandsWell o.code.now (machine_of o.state) × HasRoom o.state × (o.state.is_inside ≡ true) × (o.state.end ≡ None) };
}

impl<'c> Open<'c> {
    /// The region's number.
    pub fn region(&self) -> u32
        ensures { result ≡ self.now.region.opened.region }
    {
        self.state.iterations.opened.region
    }

    /// The region's entry.
    pub fn entry(&self, alloc: Global) -> Result<Entry, AllocError>
        ensures entry { IfOk result (λ e. IsEntryOf self.now.code self.now.region.opened self.now.region.store e) }
        ensures fits { IfOk result (λ e. EntryFits self.now.code self.now.region.opened.region e) }
        ensures printed { IfOk result (λ e. e.text_len ≡ length self.now.outer.text) }
    {
        region_entry(alloc, self.code, &self.state)
    }

    /// The region's entry, as `entry` gives it, in place of another. It takes no memory: the other has room for each entry of the code.
    pub fn entry_into(&self, entry: &mut Entry)
        requires { HasEntryRoom self.now.code entry.old }
        ensures entry { IsEntryOf self.now.code self.now.region.opened self.now.region.store entry.new }
        ensures fits { EntryFits self.now.code self.now.region.opened.region entry.new }
        ensures printed { entry.new.text_len ≡ length self.now.outer.text }
        ensures room { HasEntryRoom self.now.code entry.new }
    {
        region_entry_into(self.code, &self.state, entry);
    }

    /// The machine behind the region, which ended so. It takes no memory.
    pub fn resume(self, end: &RegionEnd) -> Plain<'c>
        requires { EndFits self.code self.region.opened self.outer.text end.now }
        ensures { result ≡ record { code = self.entry.code; machine = resumed self.entry.code self.entry.region.opened.region (result_from self.entry.region.opened end.now) (whole self.entry) } }
    {
        let Open { code, mut state } = self;
        code.known();
        state.resume(code, end);
        Plain { code, state }
    }
}

impl<'c> Plain<'c> {
    /// The machine before its first word. It makes the room for all that comes.
    /// Refusals: 61 exactly where the input is longer than its array, and 62 memory.
    pub fn new(alloc: Global, code: &'c Executable, input: &[i32]) -> Result<Plain<'c>, PlainError>
        ensures opening { IfOk result (λ p. p ≡ record { code = code.now; machine = opening_machine code.now input.now }) }
        ensures fits { OnOk result (InputFits code.now input.now) }
        ensures unfit { IsErrOf result PlainError.InputUnfit ↔ (room_for_input code.now < length input.now) }
    {
        code.known();
        if room_for(code) < input.len() {
            return Err(PlainError::InputUnfit);
        }
        let store = opening_store(alloc, code, input)?;
        let iterations = Iterations::new(alloc, code)?;
        let state = State {
            calls: Local::new(alloc, code)?,
            store,
            text: Vec::with_capacity(alloc, TEXT_LIMIT)?,
            turns: 0,
            regions: 0,
            is_inside: false,
            iterations,
            end: None,
            seen: Seen::new(code),
        };
        Ok(Plain { code, state })
    }

    /// Does so many words, or fewer to the end: the outcome and the counts where the run ends within
    /// them, and else the machine after them. It takes no memory.
    pub fn run(self, steps: u64) -> Ran<'c>
        ensures { (m : Machine) → one_store m ≡ self.entry.machine → RanFrom self.entry.code m steps result }
    {
        let Plain { code, mut state } = self;
        let mut left = steps;
        while left > 0 && state.end.is_none() {
            left -= state.sweep(code, left);
        }
        match state.end {
            None => Ran::More(Plain { code, state }),
            Some(end) => {
                let (outcome, counts) = state.outcome(code, end);
                Ran::Ended(outcome, counts)
            }
        }
    }

    /// Does so many words, or fewer to the end, or until a region opens: it stops as `run` does, and
    /// before that where a region opens. It takes no memory.
    pub fn to_region(self, steps: u64) -> Paused<'c>
        ensures { (m : Machine) → one_store m ≡ self.entry.machine → PausedFrom self.entry.code m steps result }
    {
        let Plain { code, mut state } = self;
        let done = state.advance(code, steps);
        if done.opened {
            return Paused::At(Open { code, state });
        }
        match state.end {
            None => Paused::More(Plain { code, state }),
            Some(end) => {
                let (outcome, counts) = state.outcome(code, end);
                Paused::Ended(outcome, counts)
            }
        }
    }

    /// Looks for the n-th region that opens from here on, counted from 1, within so many words: its
    /// number and its entry, or whether the run ends before.
    pub fn entry_at(self, alloc: Global, n: u64, steps: u64) -> Result<Reached, AllocError>
        requires { 0 < n }
        ensures { IfOk result (λ r. (m : Machine) → one_store m ≡ self.entry.machine → ReachedFrom self.entry.code m n steps r) }
    {
        let Plain { code, mut state } = self;
        code.known();
        let mut left = steps;
        let mut before = n - 1;
        while left > 0 && state.end.is_none() {
            let done = state.advance(code, left);
            left -= done.words;
            if done.opened {
                if before == 0 {
                    let region = state.iterations.opened.region;
                    let entry = region_entry(alloc, code, &state)?;
                    return Ok(Reached::At(region, entry));
                }
                before -= 1;
            }
        }
        match state.end {
            None => Ok(Reached::More),
            Some(_) => Ok(Reached::Ended),
        }
    }
}

// The entry of the region that runs.
fn region_entry(alloc: Global, code: &Executable, state: &State) -> Result<Entry, AllocError>
    requires inside { state.now.is_inside ≡ true }
    requires goes { state.now.end ≡ None }
    requires well { StandsWell code.now (machine_of state.now) }
    ensures entry { IfOk result (λ e. IsEntryOf code.now (opened_of state.now.iterations.opened) state.now.store.items e) }
    ensures fits { IfOk result (λ e. EntryFits code.now state.now.iterations.opened.region e) }
    ensures printed { IfOk result (λ e. e.text_len ≡ length state.now.text.items) }
{
    code.known();
    entry_of(alloc, code, &state.iterations.opened, &state.store)
}

// The entry of the region that runs, in place of another.
fn region_entry_into(code: &Executable, state: &State, entry: &mut Entry)
    requires inside { state.now.is_inside ≡ true }
    requires goes { state.now.end ≡ None }
    requires well { StandsWell code.now (machine_of state.now) }
    requires room { HasEntryRoom code.now entry.old }
    ensures entry { IsEntryOf code.now (opened_of state.now.iterations.opened) state.now.store.items entry.new }
    ensures fits { EntryFits code.now state.now.iterations.opened.region entry.new }
    ensures printed { entry.new.text_len ≡ length state.now.text.items }
    ensures room { HasEntryRoom code.now entry.new }
{
    code.known();
    refill_entry(code, &state.iterations.opened, &state.store, entry);
}
