// An iteration in the hands of a worker.

ghost use Rattle.std.specs.Prelude.{◌≡◌, IfOk};
ghost use Rattle.hx_code.specs.Machine.{first_local};
ghost use Rattle.hx_code.specs.Fits.{FitsLocal};
ghost use Rattle.hx_speculation.specs.Frame.{IsTrue, begins, stretch, loaded, stored, holds, advanced, restarts, tagged};
ghost use Rattle.hx_frame.specs.Automaton.{ask_in};
ghost use Rattle.hx_frame.specs.Frame.{FrameView, stop_of, action_of, waiting_ask};

use crate::action::{Action, Need, Stop, waits_with};
use crate::words::run_words;
use hx_buffer::WriteBuffer;
use hx_code::word::Ask;
use hx_exec::executable::Executable;
use hx_exec::local::Local;
use hx_marks::Marks;
use std::alloc::{AllocError, Global};
use std::marker::Model;

/// How many words read marks and write buffer may have, each from 1 to 4,096.
#[derive(Clone, Copy, PartialEq, Eq, Debug)]
pub struct Capacities {
    pub marks: u32,
    pub buffer: u32,
}

/// Whose iteration it is, which, and which attempt at it.
#[derive(Clone, Copy, PartialEq, Eq, Debug)]
pub struct Tag {
    pub worker: u32,
    pub iteration: u64,
    pub attempt: u64,
}

/// One attempt at an iteration. Contracts see its code, its capacities, and the frame of the definition; whatever is called, what
/// it has read and written tells truly how it came from its start to where it is.
#[derive(Drop)]
pub struct Frame<'c> {
    code: &'c Executable,
    capacities: Capacities,
    tag: Tag,
    start: Local,
    here: Local,
    marks: Marks,
    writes: WriteBuffer,
    need: Need,
}

impl<'c> Model for Frame<'c> {
    ghost use Rattle.std.specs.Prelude.{◌≡◌};
    ghost use Rattle.hx_frame.specs.Frame.{FrameView, frame_of, Keeps};

    ghost Value = { FrameView };

    ghost view = { λ f. record { code = f.code.now; capacities = f.capacities; frame = frame_of f.tag f.start f.here f.marks.entries f.writes.entries f.need } };

    ghost invariant = { λ f. Keeps f.code.now f.tag f.start f.here f.marks.entries f.writes.entries f.need × (f.marks.capacity ≡ f.capacities.marks) × (f.writes.capacity ≡ f.capacities.buffer) };
}

impl<'c> Frame<'c> {
    /// A frame of a code, which stands nowhere yet: at the beginning of main, with tag 0, 0, 0. All the room that it will need is
    /// made here.
    pub fn new(
        alloc: Global,
        code: &'c Executable,
        capacities: Capacities,
    ) -> Result<Frame<'c>, AllocError>
        ensures { IfOk result (λ f. f ≡ record { code = code.now; capacities = capacities; frame = begins 0 0 0 (first_local code.now) }) }
    {
        Ok(Frame {
            code,
            capacities,
            tag: Tag {
                worker: 0,
                iteration: 0,
                attempt: 0,
            },
            start: Local::new(alloc, code)?,
            here: Local::new(alloc, code)?,
            marks: Marks::with_capacity(alloc, capacities.marks as usize)?,
            writes: WriteBuffer::with_capacity(alloc, capacities.buffer as usize)?,
            need: Need::Nothing,
        })
    }

    /// Stands at the start of another iteration or attempt, with nothing read or written; the tag stays. It takes no memory.
    pub fn restart(&mut self, start: &Local)
        requires { FitsLocal self.old.code start.now }
        ensures { self.new ≡ record self.old { frame = restarts start.now self.old.frame } }
    {
        self.start.copy_from(start);
        self.here.copy_from(start);
        self.marks.clear();
        self.writes.clear();
        self.need = Need::Nothing;
    }

    /// Says whose iteration it is, which, and which attempt at it; nothing else changes.
    pub fn tag(&mut self, worker: u32, iteration: u64, attempt: u64)
        ensures { self.new ≡ record self.old { frame = tagged worker iteration attempt self.old.frame } }
    {
        self.tag = Tag {
            worker,
            iteration,
            attempt,
        };
    }

    /// Does words, up to a limit, that need nothing but what was read and written already. After `hold` it does none, until the
    /// frame begins again. It takes no memory.
    pub fn run(&mut self, limit: u64) -> Stop
        ensures ran { self.new ≡ record self.old { frame = stretch (ask_in self.old.code) limit self.old.frame } }
        ensures stop { result ≡ stop_of self.new }
    {
        if let Need::Held = self.need {
            return Stop::NeedHead(Action::None);
        }
        let code = self.code;
        let need = run_words(code, &mut self.here, &self.marks, &self.writes, limit);
        self.need = need;
        need.stop()
    }

    /// The word that `run` stopped for has this value, which is marked. Nothing changes where it didn't stop for a load, or
    /// where the marks are full.
    pub fn loaded(&mut self, value: i32)
        ensures { self.new ≡ record self.old { frame = loaded (ask_in self.old.code) self.old.capacities.marks value self.old.frame } }
    {
        if let Need::ForLoad(word, next) = self.need {
            if self.marks.mark(word, value).is_ok() {
                let code = self.code;
                self.here.load(code, next, value);
                self.need = Need::Nothing;
            }
        }
    }

    /// The store that `run` stopped for was done. Nothing changes where it didn't stop for a store, or where the write buffer is
    /// full.
    pub fn stored(&mut self)
        ensures { self.new ≡ record self.old { frame = stored (ask_in self.old.code) self.old.capacities.buffer self.old.frame } }
    {
        if let Need::ForStore(word, value, next) = self.need {
            if self.writes.put(word, value).is_ok() {
                self.here.go_on(next);
                self.need = Need::Nothing;
            }
        }
    }

    /// The board's table was full for what `run` stopped for: the iteration waits until it is the head, and asks again after
    /// that. Nothing changes where it stopped for no word.
    pub fn hold(&mut self)
        ensures { self.new ≡ record self.old { frame = holds self.old.frame } }
    {
        match self.need {
            Need::ForLoad(_, _) | Need::ForStore(_, _, _) => self.need = Need::Held,
            _ => {}
        }
    }

    /// What it waited with is done: the state behind a print that it waited with, and else the present one, is where it begins
    /// again, with nothing read or written; the tag stays.
    pub fn advance(&mut self)
        ensures { self.new ≡ record self.old { frame = advanced (ask_in self.old.code) self.old.frame } }
    {
        if let Need::ForHead(Ask::Prints(_, _), next) = self.need {
            self.here.go_on(next);
        }
        self.start.copy_from(&self.here);
        self.marks.clear();
        self.writes.clear();
        self.need = Need::Nothing;
    }

    /// Its code.
    pub fn code(&self) -> &'c Executable
        ensures { result.now ≡ self.now.code }
    {
        self.code
    }

    /// How much room its tables have.
    pub fn capacities(&self) -> Capacities
        ensures { result ≡ self.now.capacities }
    {
        self.capacities
    }

    /// Whose iteration it is, which, and which attempt at it.
    pub fn tagged(&self) -> Tag
        ensures { result ≡ record { worker = self.now.frame.worker; iteration = self.now.frame.iteration; attempt = self.now.frame.attempt } }
    {
        self.tag
    }

    /// Where it began.
    pub fn start(&self) -> &Local
        ensures start { result.now ≡ self.now.frame.start }
        ensures fits { FitsLocal self.now.code result.now }
    {
        &self.start
    }

    /// What it has read.
    pub fn marks(&self) -> &Marks
        ensures { result.now.entries ≡ self.now.frame.marks }
    {
        &self.marks
    }

    /// What it has written.
    pub fn writes(&self) -> &WriteBuffer
        ensures { result.now.entries ≡ self.now.frame.writes }
    {
        &self.writes
    }

    /// What is kept of every frame: what it has read and written tells truly how it came from its start to where it is, and both fit
    /// its code. It does nothing.
    pub fn known(&self)
        ensures truth { IsTrue (ask_in self.now.code) self.now.frame }
        ensures start { FitsLocal self.now.code self.now.frame.start }
        ensures here { FitsLocal self.now.code self.now.frame.here }
    {
        let _marks = &self.marks;
    }

    /// What the word asks that it waits with: of a print also its place, which `action` doesn't tell. `Goes` where it waits with nothing.
    pub fn waits_with(&self) -> Ask
        ensures { result ≡ waiting_ask self.now }
    {
        match self.need {
            Need::ForHead(ask, _) => ask,
            _ => Ask::Goes,
        }
    }

    /// What it waits with, as a stop tells it.
    pub fn action(&self) -> Action
        ensures { result ≡ action_of self.now }
    {
        match self.need {
            Need::ForHead(ask, _) => waits_with(ask),
            _ => Action::None,
        }
    }
}
