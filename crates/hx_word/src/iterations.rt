// The iterations of a region, one after another.

ghost use Rattle.std.specs.Prelude.{◌≡◌, ◌≢◌, ◌+◌, ◌≤◌, ℤ, List, Some, None, IfOk, length, vec_len, vec_capacity};
ghost use Rattle.hx_code.specs.Region.{region_after, region_opening, opening};
ghost use Rattle.hx_word.specs.Opening.{opened_of};
ghost use Rattle.hx_word.specs.Running.{running, IsOpened, RunsWell, BeforeLast};

use crate::opened::Opened;
use crate::text::print;
use hx_code::word::{Ask, Exit};
use hx_exec::executable::Executable;
use hx_exec::local::Local;
use hx_tree::limits::{PRIVATE_LIMIT, TEXT_LIMIT};
use hx_tree::outcome::{Fault, FaultKind};
use std::alloc::{AllocError, Global};

/// A region as it runs, but for its store: how it was opened, the number of its iteration and where
/// that stands, the region's own text, and its whole turns.
#[derive(Drop)]
pub struct Iterations {
    pub opened: Opened,
    pub number: u64,
    pub local: Local,
    pub text: Vec<u8>,
    pub turns: u64,
}

/// How many words were done, and how the region ended, where it has.
#[derive(Clone, Copy)]
pub struct Iterated {
    pub words: u64,
    pub exit: Option<Exit>,
}

impl Iterations {
    /// Room for a region that is still to open.
    pub(crate) fn new(alloc: Global, code: &Executable) -> Result<Iterations, AllocError>
        ensures { IfOk result (λ i. TEXT_LIMIT ≤ vec_capacity i.text) }
    {
        Ok(Iterations {
            opened: Opened {
                region: 0,
                below: 0,
                words: [0; PRIVATE_LIMIT],
                printed: 0,
            },
            number: 0,
            local: Local::new(alloc, code)?,
            text: Vec::with_capacity(alloc, TEXT_LIMIT)?,
            turns: 0,
        })
    }

    // Iteration j begins.
    fn begin(&mut self, code: &Executable, j: u64)
        requires { IsOpened code.now (opened_of self.old.opened) }
        ensures { self.new ≡ record self.old { number = j; local = opening code.now (opened_of self.old.opened) j } }
    {
        let opened = &self.opened;
        self.local
            .begin(code, opened.region, opened.below, &opened.words, j);
        self.number = j;
    }

    /// The region opens that `opened` tells of: its first iteration begins, without text of its own.
    pub(crate) fn open(&mut self, code: &Executable)
        requires { IsOpened code.now (opened_of self.old.opened) }
        ensures same { (store : List ℤ) → running self.new store None ≡ region_opening code.now (opened_of self.old.opened) store }
        ensures room { vec_capacity self.new.text ≡ vec_capacity self.old.text }
    {
        self.text.clear();
        self.turns = 0;
        self.begin(code, 0);
    }

    /// The region's text and its whole turns.
    pub(crate) fn told(self) -> (Vec<u8>, u64)
        ensures text { result.0.items ≡ self.text.items }
        ensures turns { result.1 ≡ self.turns }
    {
        let Iterations {
            opened: _,
            number: _,
            local: _,
            text,
            turns,
        } = self;
        (text, turns)
    }

    /// Does words of the region, up to so many or to its end.
    pub(crate) fn run(&mut self, code: &Executable, store: &mut [i32], steps: u64) -> Iterated
        requires well { RunsWell code.now (running self.old store.old None) }
        requires room { TEXT_LIMIT ≤ vec_capacity self.old.text }
        ensures ran { region_after code.now result.words (running self.old store.old None) ≡ running self.new store.new result.exit }
        ensures before { result.exit ≢ None → BeforeLast code.now result.words (running self.old store.old None) }
        ensures words { result.words ≤ steps }
        ensures all { result.exit ≡ None → result.words ≡ steps }
        ensures well { result.exit ≡ None → RunsWell code.now (running self.new store.new None) }
        ensures long { length store.new ≡ length store.old }
        ensures opened { self.new.opened ≡ self.old.opened }
        ensures text { self.new.opened.printed + vec_len self.new.text ≤ TEXT_LIMIT }
        ensures room { TEXT_LIMIT ≤ vec_capacity self.new.text }
    {
        code.known();
        let mut words = 0;
        while words < steps {
            let done = self.local.iterate(
                code,
                self.opened.region,
                self.opened.below,
                &self.opened.words,
                self.number,
                self.turns,
                store,
                steps - words,
            );
            words += done.words;
            self.number = done.number;
            self.turns = done.turns;
            match done.ask {
                Ask::Goes => {}
                Ask::Prints(output, at) => {
                    self.local.go_on(done.next);
                    words += 1;
                    let printed = self.opened.printed;
                    if !print(&mut self.text, printed, output) {
                        let fault = Fault {
                            kind: FaultKind::TextFull,
                            pos: at,
                        };
                        return ended(words, Exit::Faulted(fault));
                    }
                }
                Ask::Leaves => {
                    self.local.go_on(done.next);
                    return ended(words + 1, Exit::Left);
                }
                Ask::Returns(v) => {
                    self.local.go_on(done.next);
                    return ended(words + 1, Exit::Returned(v));
                }
                Ask::Faults(fault) => {
                    self.local.go_on(done.next);
                    return ended(words + 1, Exit::Faulted(fault));
                }
                Ask::Turns => unreachable!(),
                Ask::Loads(_) => unreachable!(),
                Ask::Stores(_, _) => unreachable!(),
                Ask::Calls(_, _) => unreachable!(),
                Ask::Enters(_, _) => unreachable!(),
            }
        }
        Iterated { words, exit: None }
    }
}

fn ended(words: u64, exit: Exit) -> Iterated
    ensures { result ≡ record { words = words; exit = Some exit } }
{
    Iterated {
        words,
        exit: Some(exit),
    }
}
