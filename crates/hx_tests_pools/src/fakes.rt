// Workers on one thread, over a board that answers what it shouldn't.

ghost use Rattle.std.specs.Prelude.{◌≡◌, ◌<◌};
ghost use Rattle.hx_board.specs.Board.{Setup};
ghost use Rattle.hx_word.specs.Entry.{EntryFits};
ghost use Rattle.hx_pool.specs.Setups.{setup_by};

use crate::machines::{ROOMS, code_for, expect, first_entry, frame_for};
use hx_board::{Alive, Board, Head, Headed, Job, Loaded, Settled, Started, State, Stored};
use hx_exec::executable::Executable;
use hx_frame::Frame;
use hx_pool::{Shared, Unwatched, work};
use hx_word::entry::Entry;
use std::alloc::Global;
use std::marker::{Brand, PhantomData};
use std::process::Abort;
use std::sync::atomic::{AtomicU64, Ordering};
use std::sync::{Mutex, Wait};

/// What a fake's board was made for.
pub(crate) trait Made {
    ghost setup: { Setup };
}

impl Made for Brand {
    ghost use Rattle.hx_pool.specs.Setups.{no_setup};

    ghost setup = { no_setup };
}

/// A board that was made for that.
#[derive(Drop)]
pub(crate) struct Kept<'c, M: Made> {
    pub(crate) board: Board<'c>,
    pub(crate) made: PhantomData<M>,
    ghost is_own: { board.setup ≡ M.setup },
}

/// What is answered in the board's place.
#[derive(Clone, Copy)]
enum Lie {
    Squashed,
    Full,
    NotYet,
    Ended,
}

/// A board that answers truly, but for one call.
#[derive(Drop)]
pub(crate) struct Fake<'c, M: Made> {
    board: Mutex<Kept<'c, M>>,
    calls: AtomicU64,
    at: u64,
    lie: Lie,
}

impl<'c, M: Made> Fake<'c, M> {
    // A board that answers so at the call of this number, counted from 0.
    fn lying_at(kept: Kept<'c, M>, at: u64, lie: Lie) -> Fake<'c, M> {
        Fake {
            board: Mutex::new(kept),
            calls: AtomicU64::new(0),
            at,
            lie,
        }
    }

    /// The board.
    pub(crate) fn into_board(self) -> Kept<'c, M> {
        let Fake { board, .. } = self;
        board.into_inner()
    }

    // What this call answers, where that isn't the board's answer.
    fn lie(&self) -> Option<Lie> {
        if self.calls.fetch_add(1, Ordering::SeqCst) == self.at {
            Some(self.lie)
        } else {
            None
        }
    }
}

impl<M: Made> Shared for Fake<'_, M> {
    ghost setup = { M.setup };

    fn start(&self, rt: &impl Wait, worker: u32, frame: &mut Frame<'_>) -> Started {
        match self.lie() {
            Some(Lie::Ended) => return Started::Ended,
            Some(Lie::Squashed) => return Started::NotThisFrame,
            _ => {}
        }
        let mut guard = self.board.lock(rt);
        let kept: &mut Kept<'_, M> = &mut guard;
        kept.board.start_own(worker, frame)
    }

    fn load(&self, rt: &impl Wait, worker: u32, attempt: u64, word: u32) -> Loaded {
        match self.lie() {
            Some(Lie::Ended) => return Loaded::Ended,
            Some(Lie::Squashed) => return Loaded::Squashed,
            Some(Lie::Full) => return Loaded::Full,
            _ => {}
        }
        let mut guard = self.board.lock(rt);
        let kept: &mut Kept<'_, M> = &mut guard;
        kept.board.known();
        kept.board.load(worker, attempt, word)
    }

    fn store(&self, rt: &impl Wait, worker: u32, attempt: u64, word: u32, value: i32) -> Stored {
        match self.lie() {
            Some(Lie::Ended) => return Stored::Ended,
            Some(Lie::Squashed) => return Stored::Squashed,
            Some(Lie::Full) => return Stored::Full,
            _ => {}
        }
        let mut guard = self.board.lock(rt);
        let kept: &mut Kept<'_, M> = &mut guard;
        kept.board.known();
        kept.board.store(worker, attempt, word, value)
    }

    fn head(&self, rt: &impl Wait, worker: u32, attempt: u64) -> Headed {
        match self.lie() {
            Some(Lie::Ended) => return Headed::Ended,
            Some(Lie::Squashed) => return Headed::Squashed,
            Some(Lie::NotYet) => return Headed::NotYet,
            _ => {}
        }
        let mut guard = self.board.lock(rt);
        let kept: &mut Kept<'_, M> = &mut guard;
        kept.board.head(worker, attempt)
    }

    fn alive(&self, rt: &impl Wait, worker: u32, attempt: u64) -> Alive {
        match self.lie() {
            Some(Lie::Ended) => return Alive::Ended,
            Some(Lie::Squashed) => return Alive::Squashed,
            _ => {}
        }
        let guard = self.board.lock(rt);
        let kept: &Kept<'_, M> = &guard;
        kept.board.alive(worker, attempt)
    }

    fn settle(&self, rt: &impl Wait, head: Head, frame: &mut Frame<'_>) -> Settled {
        let lie = self.lie();
        let mut guard = self.board.lock(rt);
        let kept: &mut Kept<'_, M> = &mut guard;
        match (kept.board.settle_own(head, frame), lie) {
            (Settled::Passed, Some(Lie::Ended)) => Settled::Ended,
            (Settled::Passed, Some(Lie::Squashed)) => Settled::NotThisFrame,
            (settled, _) => settled,
        }
    }

    fn abandon(&self, rt: &impl Wait, worker: u32) {
        let mut guard = self.board.lock(rt);
        let kept: &mut Kept<'_, M> = &mut guard;
        kept.board.abandon(worker);
    }
}

// What is committed of the first word, and whether the region is left.
type Shown = (i32, bool);

fn shown_of(rt: &impl Abort, board: &Board<'_>) -> Shown {
    let (store, _text, state) = board.settled();
    match store.first() {
        Some(word) => (*word, state == State::Left),
        None => rt.panic("a store is wanted"),
    }
}

// A board for one worker.
fn kept_for<'c, M: Made>(rt: &impl Abort, alloc: Global, job: Job<'c>, entry: &Entry) -> Kept<'c, M>
    requires fits { EntryFits job.code.now job.region entry.now }
    requires own { setup_by job.code.now job.region entry.now 1 ROOMS ≡ M.setup }
{
    match Board::new(alloc, job, entry, 1, ROOMS) {
        Ok(board) => Kept {
            board,
            made: PhantomData,
        },
        Err(_) => rt.panic("no memory for a board"),
    }
}

// A worker by itself, over a board that lies at one call.
fn works_over<M: Made + Send + Sync, W: Abort + Wait>(
    rt: &W,
    alloc: Global,
    job: Job<'_>,
    entry: &Entry,
    at: u64,
    lie: Lie,
) -> Shown
    requires fits { EntryFits job.code.now job.region entry.now }
    requires own { setup_by job.code.now job.region entry.now 1 ROOMS ≡ M.setup }
{
    let mut frame = frame_for(rt, alloc, job.code);
    let kept = kept_for::<M>(rt, alloc, job, entry);
    let fake = Fake::lying_at(kept, at, lie);
    work(rt, 0, &fake, &mut frame, &Unwatched);
    shown_of(rt, &fake.into_board().board)
}

// The same at the first region of a code.
fn works<W: Abort + Wait>(rt: &W, alloc: Global, code: &Executable, at: u64, lie: Lie) -> Shown {
    let (region, entry) = first_entry(rt, alloc, code);
    let job = Job { code, region };
    works_over::<Brand, W>(rt, alloc, job, &entry, at, lie)
}

// Each leaves 2 in the first word: two turns that are stored, two that print before they store, and two that are longer than a stretch.
static PROGRAMS: [&[u8]; 3] = [
    b"int c; int main(){ pwhile(c<2){ c=c+1; } }",
    b"int c; int main(){ pwhile(c<2){ print(c); c=c+1; } }",
    b"int c; int main(){ pwhile(c<2){ for(int i=0;i<500;i++) ; c=c+1; } }",
];

/// More calls than a worker makes over any of them.
const CALLS: u64 = 60;

// Whether that is what a worker leaves that was told so once: one that stops leaves some whole turns of one thread, and any
// other all of them.
fn is_right(lie: Lie, shown: Shown) -> bool {
    let (word, is_left) = shown;
    match lie {
        Lie::Full | Lie::NotYet => word == 2 && is_left,
        Lie::Squashed | Lie::Ended => word == 2 || word < 2 && !is_left,
    }
}

// A worker over each program, lied to at each of its calls in turn.
fn lied_to<W: Abort + Wait>(rt: &W, alloc: Global, lie: Lie) {
    for source in &PROGRAMS {
        let code = code_for(rt, alloc, source);
        for at in 0..CALLS {
            let shown = works(rt, alloc, &code, at, lie);
            expect(rt, is_right(lie, shown), source);
        }
    }
}

// There are fewer calls than a thousand.
#[test]
fn a_true_board_is_worked_to_its_end(rt: HostRuntime) {
    for source in &PROGRAMS {
        let code = code_for(&rt, rt.alloc(), source);
        let (word, is_left) = works(&rt, rt.alloc(), &code, 1000, Lie::Ended);
        expect(&rt, word == 2 && is_left, source);
    }
}

// A worker that is told once that a table is full, or is to wait, comes to the same end.
#[test]
fn a_lie_loses_no_turn(rt: HostRuntime) {
    lied_to(&rt, rt.alloc(), Lie::Full);
    lied_to(&rt, rt.alloc(), Lie::NotYet);
}

// Told that the region has ended, a worker stops, and what is committed by then is some whole turns of one thread.
#[test]
fn a_worker_that_stops_leaves_whole_turns(rt: HostRuntime) {
    lied_to(&rt, rt.alloc(), Lie::Squashed);
    lied_to(&rt, rt.alloc(), Lie::Ended);
}
