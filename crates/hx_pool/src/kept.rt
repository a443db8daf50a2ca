// What a station keeps from region to region.

ghost use Rattle.std.specs.Prelude.{◌≡◌, ℕ, ◌<◌, length, IfOk, is_some, true};
ghost use Rattle.hx_code.specs.Code.{store_words};
ghost use Rattle.hx_code.specs.Region.{region_after};
ghost use Rattle.hx_word.specs.Entry.{EntryFits};
ghost use Rattle.hx_word.specs.Rooms.{HasEndRoom};
ghost use Rattle.hx_board.specs.Calls.{IsOwnCode, IsOwnFrame, StartsFrame, SettlesFrame};
ghost use Rattle.hx_board.specs.Ends.{EndsPlainly};
ghost use Rattle.hx_pool.specs.Setups.{crew_setup};

use crate::run::Run;
use hx_board::{Alive, Board, Head, Headed, Job, Loaded, Settled, Started, Stored};
use hx_exec::executable::Executable;
use hx_frame::{Capacities, Frame};
use hx_tree::outcome::Settings;
use hx_word::entry::{Entry, RegionEnd};
use hx_word::region_run::RegionRun;
use std::alloc::{AllocError, Global};
use std::marker::PhantomData;
use std::sync::Wait;

/// How many words a region runs on one thread before it is asked again.
const STEPS_AT_ONCE: u64 = 1024;

/// The board, and the plain region for where that board can't end. By their type alone both are known to be of the run's code, and the
/// board of its workers and their tables.
#[derive(Drop)]
pub(crate) struct Kept<'c, R: Run> {
    board: Board<'c>,
    plain: RegionRun<'c>,
    run: PhantomData<R>,
    ghost own_code: { board.setup.code ≡ R.setup.code },
    ghost own_workers: { board.setup.slots ≡ R.setup.slots },
    ghost own_rooms: { board.setup.capacities ≡ R.setup.capacities },
    ghost own_plain: { plain.code ≡ R.setup.code },
}

impl<'c, R: Run> Kept<'c, R> {
    /// Both as region 0 opens with words 0. All room that any region needs is made here.
    pub(crate) fn new(
        alloc: Global,
        code: &'c Executable,
        settings: Settings,
    ) -> Result<Kept<'c, R>, AllocError>
        requires own { crew_setup code.now settings ≡ R.setup }
        requires regions { 0 < length code.now.regions }
    {
        let entry = Entry::with_room(alloc, code, 0)?;
        let job = Job { code, region: 0 };
        let rooms = Capacities {
            marks: settings.marks,
            buffer: settings.buffer,
        };
        let board = Board::new(alloc, job, &entry, settings.workers, rooms)?;
        let plain = RegionRun::new(alloc, code, 0, &entry)?;
        Ok(Kept {
            board,
            plain,
            run: PhantomData,
        })
    }

    /// The board is made for another region and its entry; nothing has run on it.
    pub(crate) fn open(&mut self, region: u32, entry: &Entry)
        requires { EntryFits R.setup.code region entry.now }
    {
        self.board.reuse_own(region, entry);
    }

    /// The board's `start`.
    pub(crate) fn start(&mut self, worker: u32, frame: &mut Frame<'_>) -> Started
        requires worker { worker < R.setup.slots }
        requires own { IsOwnFrame R.setup frame.old }
        ensures { StartsFrame result frame.old frame.new }
    {
        self.board.start_own(worker, frame)
    }

    /// The board's `load`.
    pub(crate) fn load(&mut self, worker: u32, attempt: u64, word: u32) -> Loaded
        requires { word < store_words R.setup.code }
    {
        self.board.known();
        self.board.load(worker, attempt, word)
    }

    /// The board's `store`.
    pub(crate) fn store(&mut self, worker: u32, attempt: u64, word: u32, value: i32) -> Stored
        requires { word < store_words R.setup.code }
    {
        self.board.known();
        self.board.store(worker, attempt, word, value)
    }

    /// The board's `head`.
    pub(crate) fn head(&mut self, worker: u32, attempt: u64) -> Headed {
        self.board.head(worker, attempt)
    }

    /// The board's `alive`.
    pub(crate) fn alive(&self, worker: u32, attempt: u64) -> Alive {
        self.board.alive(worker, attempt)
    }

    /// The board's `settle`.
    pub(crate) fn settle(&mut self, head: Head, frame: &mut Frame<'_>) -> Settled
        requires { IsOwnCode R.setup frame.old }
        ensures { SettlesFrame result frame.old frame.new }
    {
        self.board.settle_own(head, frame)
    }

    /// The board's `abandon`.
    pub(crate) fn abandon(&mut self, worker: u32) {
        self.board.abandon(worker);
    }

    /// Fills the end with the region's: the board's where it has one for this job and entry, and else that of the plain region, which is
    /// run from the entry.
    pub(crate) fn end_into(
        &mut self,
        rt: &impl Wait,
        job: &Job<'_>,
        entry: &Entry,
        end: &mut RegionEnd,
    )
        requires code { job.now.code.now ≡ R.setup.code }
        requires fits { EntryFits job.now.code.now job.now.region entry.now }
        requires room { HasEndRoom job.now.code.now end.old }
        ensures end { EndsPlainly job.now.code.now job.now.region entry.now end.new }
        ensures room { HasEndRoom job.now.code.now end.new }
    {
        if self.board.end_into(job, entry, end) {
            return;
        }
        self.plain_end_into(rt, job.region, entry, end);
    }

    // The same on this thread alone.
    fn plain_end_into(&mut self, rt: &impl Wait, region: u32, entry: &Entry, end: &mut RegionEnd)
        requires fits { EntryFits R.setup.code region entry.now }
        requires room { HasEndRoom R.setup.code end.old }
        ensures end { EndsPlainly R.setup.code region entry.now end.new }
        ensures room { HasEndRoom R.setup.code end.new }
    {
        self.plain.again(region, entry);
        run_to_end(rt, &mut self.plain);
        if !self.plain.end_into(end) {
            unreachable!()
        }
    }
}

// Goes on with a region to its end.
fn run_to_end(rt: &impl Wait, run: &mut RegionRun<'_>)
    ensures code { run.new.code ≡ run.old.code }
    ensures locals { run.new.locals ≡ run.old.locals }
    ensures words { (n : ℕ) × (run.new.state ≡ region_after run.old.code n run.old.state) }
    ensures over { is_some run.new.state.exit ≡ true }
{
    for _ in rt.forever() {
        if run.run(STEPS_AT_ONCE) {
            return;
        }
    }
    unreachable!()
}
