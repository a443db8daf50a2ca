// A region by itself, from an entry.

ghost use Rattle.std.specs.Prelude.{◌≡◌, IfOk, MatchResult, MatchBool, None, is_some, length, true};
ghost use Rattle.hx_code.specs.Region.{region_opening, region_after};
ghost use Rattle.hx_word.specs.Entry.{EntryFits, IsEndOf, EndLasts, opened_from};
ghost use Rattle.hx_word.specs.Rooms.{HasEndRoom};
ghost use Rattle.hx_word.specs.Running.{RunView};

use crate::entry::{Entry, RegionEnd, opened_by};
use crate::iterations::Iterations;
use crate::opened::words_behind;
use crate::room::{plain_counts, refill_text, refill_words};
use hx_code::word::Exit;
use hx_exec::executable::Executable;
use hx_tree::limits::PRIVATE_LIMIT;
use std::alloc::{AllocError, Global};
use std::marker::Model;

/// The plain region from an entry: its iterations one after another. Contracts see its code, how far
/// the region is, and how many private words the entry had.
#[derive(Drop)]
pub struct RegionRun<'c> {
    code: &'c Executable,
    iterations: Iterations,
    store: Vec<i32>,
    locals: Vec<i32>,
    exit: Option<Exit>,
}

impl<'c> Model for RegionRun<'c> {
    ghost use Rattle.std.specs.Prelude.{length, vec_capacity};
    ghost use Rattle.hx_word.specs.Running.{RunView, KeepsRegion, running};

    ghost Value = { RunView };

    ghost view = { λ r. record { code = r.code.now; state = running r.iterations r.store.items r.exit; locals = length r.locals.items } };

    ghost invariant = { λ r. KeepsRegion r.code.now (running r.iterations r.store.items r.exit) (vec_capacity r.iterations.text) (length r.locals.items) (vec_capacity r.locals) };
}

impl<'c> RegionRun<'c> {
    /// The region as its first iteration begins. It makes the room for all that comes.
    pub fn new(
        alloc: Global,
        code: &'c Executable,
        region: u32,
        entry: &Entry,
    ) -> Result<RegionRun<'c>, AllocError>
        requires { EntryFits code.now region entry.now }
        ensures { IfOk result (λ run. run ≡ record { code = code.now; state = region_opening code.now (opened_from region entry.now) entry.now.store.items; locals = length entry.now.locals.items }) }
    {
        code.known();
        let store = Vec::from_slice(alloc, &entry.store)?;
        let mut locals = Vec::with_capacity(alloc, PRIVATE_LIMIT)?;
        refill_words(&mut locals, &entry.locals);
        let mut iterations = Iterations::new(alloc, code)?;
        iterations.opened = opened_by(code, region, entry);
        iterations.open(code);
        Ok(RegionRun {
            code,
            iterations,
            store,
            locals,
            exit: None,
        })
    }

    /// Another region as its first iteration begins, or the same from another entry, as `new` gives it. It takes no memory.
    pub fn again(&mut self, region: u32, entry: &Entry)
        requires { EntryFits self.old.code region entry.now }
        ensures { self.new ≡ record { code = self.old.code; state = region_opening self.old.code (opened_from region entry.now) entry.now.store.items; locals = length entry.now.locals.items } }
    {
        let code = self.code;
        code.known();
        self.store.copy_from_slice(&entry.store);
        refill_words(&mut self.locals, &entry.locals);
        self.iterations.opened = opened_by(code, region, entry);
        self.iterations.open(code);
        self.exit = None;
    }

    /// Does so many words, or fewer to the region's end. True exactly where the region has ended. It
    /// takes no memory.
    pub fn run(&mut self, steps: u64) -> bool
        ensures ran { self.new ≡ record self.old { state = region_after self.old.code steps self.old.state } }
        ensures opened { self.new.state.opened ≡ self.old.state.opened }
        ensures told { result ≡ is_some self.new.state.exit }
    {
        if self.exit.is_some() {
            return true;
        }
        let code = self.code;
        let done = self.iterations.run(code, &mut self.store, steps);
        self.exit = done.exit;
        self.exit.is_some()
    }

    /// The region's end, or exactly where it hasn't ended the region as it is. It takes no memory.
    pub fn end(self) -> Result<RegionEnd, RegionRun<'c>>
        ensures fits { IfOk result (λ e. EndLasts self.entry.code self.entry.state self.entry.locals e) }
        ensures end { MatchResult result (λ e. IsEndOf self.entry.code self.entry.state self.entry.locals e) (λ run. (run ≡ self.entry) × (self.entry.state.exit ≡ None)) }
    {
        let RegionRun {
            code,
            iterations,
            store,
            mut locals,
            exit,
        } = self;
        match exit {
            None => Err(RegionRun {
                code,
                iterations,
                store,
                locals,
                exit: None,
            }),
            Some(exit) => {
                let words = words_behind(code, &iterations.opened, exit, iterations.number, &store);
                let count = locals.len();
                locals.copy_from_slice(&words[..count]);
                let (text, turns) = iterations.told();
                Ok(RegionEnd {
                    exit,
                    store,
                    locals,
                    text,
                    counts: plain_counts(turns),
                })
            }
        }
    }

    /// The region's end, as `end` gives it, in place of another. False exactly where it hasn't ended; the other end stays then. It takes
    /// no memory: the other has room for each end of the code.
    pub fn end_into(&self, end: &mut RegionEnd) -> bool
        requires { HasEndRoom self.now.code end.old }
        ensures end { MatchBool result (IsEndOf self.now.code self.now.state self.now.locals end.new) ((end.new ≡ end.old) × (self.now.state.exit ≡ None)) }
        ensures fits { result ≡ true → EndLasts self.now.code self.now.state self.now.locals end.new }
        ensures room { HasEndRoom self.now.code end.new }
    {
        let Some(exit) = self.exit else {
            return false;
        };
        let iterations = &self.iterations;
        let number = iterations.number;
        let words = words_behind(self.code, &iterations.opened, exit, number, &self.store);
        let count = self.locals.len();
        refill_words(&mut end.store, &self.store);
        refill_words(&mut end.locals, &words[..count]);
        refill_text(&mut end.text, &iterations.text);
        end.exit = exit;
        end.counts = plain_counts(iterations.turns);
        true
    }
}
