// Where workers wait for regions.

ghost use Rattle.std.specs.Prelude.{◌≡◌, ◌<◌, ◌≤◌, length, IfOk};
ghost use Rattle.hx_word.specs.Entry.{EntryFits};
ghost use Rattle.hx_word.specs.Rooms.{HasEndRoom};
ghost use Rattle.hx_board.specs.Board.{rooms_of};
ghost use Rattle.hx_board.specs.Calls.{IsOwnFrame};
ghost use Rattle.hx_board.specs.Ends.{EndsPlainly};
ghost use Rattle.hx_pool.specs.Setups.{crew_setup, StaysOwn};

use crate::gate::Gate;
use crate::kept::Kept;
use crate::run::Run;
use crate::shared::Shared;
use crate::worker::work;
use crossbeam_utils::CachePadded;
use hx_board::{Alive, Head, Headed, Job, Loaded, Settled, Started, Stored};
use hx_exec::executable::Executable;
use hx_frame::{Capacities, Frame};
use hx_tree::outcome::Settings;
use hx_word::entry::{Entry, RegionEnd};
use std::alloc::{AllocError, Global};
use std::marker::PhantomData;
use std::sync::{Condvar, Mutex, Wait};
use thiserror::Error;

/// Why there is no station, or why a region wasn't run.
#[derive(Debug, Error, Drop)]
pub enum PoolError {
    /// 50: no memory for the board, its lock, the plain region in its place, a frame, or the end.
    #[error("no memory for the region")]
    Memory(#[from] AllocError),
}

/// What is kept for the regions of a code, if it has any.
#[derive(Drop)]
enum Storage<'c, R: Run> {
    Kept(Kept<'c, R>),
    Nothing(Regionless<R>),
}

/// That the code of the run has no region.
#[derive(Drop)]
struct Regionless<R: Run> {
    run: PhantomData<R>,
    ghost none: { length R.setup.code.regions ≡ 0 },
}

impl<R: Run> Regionless<R> {
    // What the type says.
    fn known(&self)
        ensures { length R.setup.code.regions ≡ 0 }
    {
        let _run = &self.run;
    }
}

/// What lies under the lock.
#[derive(Drop)]
struct Room<'c, R: Run> {
    storage: Storage<'c, R>,
    is_running: bool,
    is_closed: bool,
    opened: u64,
}

/// A board under one lock whose storage serves region after region, and the workers that wait there for the next one. The lock is in a
/// place of its own in the caches, so that nothing beside it is slowed where workers take it in turn; no claim rests on that.
#[derive(Drop)]
pub struct Station<'c, R: Run> {
    room: CachePadded<Mutex<Room<'c, R>>>,
    changed: Condvar,
    code: &'c Executable,
    workers: u32,
    rooms: Capacities,
    ghost own_code: { code.now ≡ R.setup.code },
    ghost own_workers: { workers ≡ R.setup.slots },
    ghost own_rooms: { rooms_of rooms ≡ R.setup.capacities },
    ghost some_worker: { 1 ≤ workers },
}

impl<'c, R: Run> Station<'c, R> {
    /// A station for the regions of a code, at which none runs yet. All memory that its regions need is taken here; a code without
    /// regions needs none. 50 for want of memory alone.
    pub fn new(
        alloc: Global,
        code: &'c Executable,
        settings: Settings,
    ) -> Result<Station<'c, R>, PoolError>
        requires own { crew_setup code.now settings ≡ R.setup }
        requires workers { 1 ≤ settings.workers }
    {
        let storage = storage_for(alloc, code, settings)?;
        Ok(Station {
            room: CachePadded::new(Mutex::new(Room {
                storage,
                is_running: false,
                is_closed: false,
                opened: 0,
            })),
            changed: Condvar::new(),
            code,
            workers: settings.workers,
            rooms: Capacities {
                marks: settings.marks,
                buffer: settings.buffer,
            },
        })
    }

    /// How many workers it was made for.
    pub fn workers(&self) -> u32
        ensures { result ≡ R.setup.slots }
    {
        self.workers
    }

    /// A frame for one of them.
    pub fn frame(&self, alloc: Global) -> Result<Frame<'c>, AllocError>
        ensures { IfOk result (λ f. IsOwnFrame R.setup f) }
    {
        Frame::new(alloc, self.code, self.rooms)
    }

    /// Runs a region of the station's code from its entry to its end, with the workers that serve; the caller is worker 0. Where they stop
    /// before the region has ended, which a board whose numbers are used up makes them do, the region is run from its entry once more, on
    /// this thread alone.
    ///
    /// The end is that of the plain region of the job from this entry: its iterations one after another, on one thread. Only what
    /// speculation counts, all but regions and whole turns, depends on the order in which threads called. It refuses nothing and takes no
    /// memory. Whether it returns isn't promised.
    pub fn region<W: Wait, G: Gate>(
        &self,
        rt: &W,
        job: &Job<'_>,
        entry: &Entry,
        frame: &mut Frame<'_>,
        end: &mut RegionEnd,
        gate: &G,
    )
        requires code { job.now.code.now ≡ R.setup.code }
        requires fits { EntryFits job.now.code.now job.now.region entry.now }
        requires frame { IsOwnFrame R.setup frame.old }
        requires room { HasEndRoom job.now.code.now end.old }
        ensures end { EndsPlainly job.now.code.now job.now.region entry.now end.new }
        ensures frame { StaysOwn frame.old frame.new }
        ensures room { HasEndRoom job.now.code.now end.new }
    {
        self.open(rt, job.region, entry);
        self.known();
        work(rt, 0, self, frame, gate);
        self.end_into(rt, job, entry, end);
    }

    /// No region comes any more: whoever serves returns once it has no region to work on.
    pub fn close(&self, rt: &impl Wait) {
        let mut guard = self.room.lock(rt);
        let room: &mut Room<'c, R> = &mut guard;
        room.is_closed = true;
        self.changed.notify_all();
    }

    // It has a worker.
    fn known(&self)
        ensures { 1 ≤ R.setup.slots }
    {
        let _workers = self.workers;
    }

    /// Opens a region for the workers that serve, and for those that are called to `work`.
    pub(crate) fn open(&self, rt: &impl Wait, region: u32, entry: &Entry)
        requires { EntryFits R.setup.code region entry.now }
    {
        let mut guard = self.room.lock(rt);
        let room: &mut Room<'c, R> = &mut guard;
        room.open(region, entry);
        self.changed.notify_all();
    }

    /// Closes the region, and fills the end with its end.
    pub(crate) fn end_into(&self, rt: &impl Wait, job: &Job<'_>, entry: &Entry, end: &mut RegionEnd)
        requires code { job.now.code.now ≡ R.setup.code }
        requires fits { EntryFits job.now.code.now job.now.region entry.now }
        requires room { HasEndRoom job.now.code.now end.old }
        ensures end { EndsPlainly job.now.code.now job.now.region entry.now end.new }
        ensures room { HasEndRoom job.now.code.now end.new }
    {
        let mut guard = self.room.lock(rt);
        let room: &mut Room<'c, R> = &mut guard;
        room.end_into(rt, job, entry, end);
    }

    // Waits for another region than the one that was opened as so many'th, and tells its number; None once the station is closed.
    fn next(&self, rt: &impl Wait, seen: u64) -> Option<u64> {
        let guard = self.changed.wait_while(
            rt,
            self.room.lock(rt),
            |room| !room.is_closed && (!room.is_running || room.opened == seen),
        );
        if guard.is_closed {
            None
        } else {
            Some(guard.opened)
        }
    }
}

// The storage for the regions of a code.
fn storage_for<'c, R: Run>(
    alloc: Global,
    code: &'c Executable,
    settings: Settings,
) -> Result<Storage<'c, R>, AllocError>
    requires { crew_setup code.now settings ≡ R.setup }
{
    if code.regions().is_empty() {
        return Ok(Storage::Nothing(Regionless { run: PhantomData }));
    }
    Ok(Storage::Kept(Kept::new(alloc, code, settings)?))
}

impl<R: Run> Room<'_, R> {
    // A region of the code runs from now on.
    fn open(&mut self, region: u32, entry: &Entry)
        requires { EntryFits R.setup.code region entry.now }
    {
        if let Storage::Kept(kept) = &mut self.storage {
            kept.open(region, entry);
        }
        self.is_running = true;
        self.opened = self.opened.wrapping_add(1);
    }

    // It runs no more; the end is filled with its end.
    fn end_into(&mut self, rt: &impl Wait, job: &Job<'_>, entry: &Entry, end: &mut RegionEnd)
        requires code { job.now.code.now ≡ R.setup.code }
        requires fits { EntryFits job.now.code.now job.now.region entry.now }
        requires room { HasEndRoom job.now.code.now end.old }
        ensures end { EndsPlainly job.now.code.now job.now.region entry.now end.new }
        ensures room { HasEndRoom job.now.code.now end.new }
    {
        self.is_running = false;
        match &mut self.storage {
            Storage::Kept(kept) => kept.end_into(rt, job, entry, end),
            Storage::Nothing(nothing) => {
                nothing.known();
                unreachable!()
            }
        }
    }
}

/// Works on each region that the station opens, and waits for the next one between them, until the station is closed. A worker that
/// comes when a region has ended waits for the next. It takes no memory.
pub fn serve<R: Run, W: Wait, G: Gate>(
    rt: &W,
    worker: u32,
    station: &Station<'_, R>,
    frame: &mut Frame<'_>,
    gate: &G,
)
    requires worker { worker < R.setup.slots }
    requires own { IsOwnFrame R.setup frame.old }
{
    let mut seen = 0;
    for _ in rt.forever() {
        match station.next(rt, seen) {
            Some(opened) => seen = opened,
            None => return,
        }
        work(rt, worker, station, frame, gate);
    }
    unreachable!()
}

impl<R: Run> Shared for Station<'_, R> {
    ghost setup = { R.setup };

    fn start(&self, rt: &impl Wait, worker: u32, frame: &mut Frame<'_>) -> Started {
        let mut guard = self.room.lock(rt);
        let room: &mut Room<'_, R> = &mut guard;
        match &mut room.storage {
            Storage::Kept(kept) if room.is_running => kept.start(worker, frame),
            _ => Started::Ended,
        }
    }

    fn load(&self, rt: &impl Wait, worker: u32, attempt: u64, word: u32) -> Loaded {
        let mut guard = self.room.lock(rt);
        let room: &mut Room<'_, R> = &mut guard;
        match &mut room.storage {
            Storage::Kept(kept) => kept.load(worker, attempt, word),
            Storage::Nothing(_) => Loaded::Ended,
        }
    }

    fn store(&self, rt: &impl Wait, worker: u32, attempt: u64, word: u32, value: i32) -> Stored {
        let mut guard = self.room.lock(rt);
        let room: &mut Room<'_, R> = &mut guard;
        match &mut room.storage {
            Storage::Kept(kept) => kept.store(worker, attempt, word, value),
            Storage::Nothing(_) => Stored::Ended,
        }
    }

    fn head(&self, rt: &impl Wait, worker: u32, attempt: u64) -> Headed {
        let mut guard = self.room.lock(rt);
        let room: &mut Room<'_, R> = &mut guard;
        match &mut room.storage {
            Storage::Kept(kept) => kept.head(worker, attempt),
            Storage::Nothing(_) => Headed::Ended,
        }
    }

    fn alive(&self, rt: &impl Wait, worker: u32, attempt: u64) -> Alive {
        let guard = self.room.lock(rt);
        let room: &Room<'_, R> = &guard;
        match &room.storage {
            Storage::Kept(kept) => kept.alive(worker, attempt),
            Storage::Nothing(_) => Alive::Ended,
        }
    }

    fn settle(&self, rt: &impl Wait, head: Head, frame: &mut Frame<'_>) -> Settled {
        let mut guard = self.room.lock(rt);
        let room: &mut Room<'_, R> = &mut guard;
        match &mut room.storage {
            Storage::Kept(kept) => kept.settle(head, frame),
            Storage::Nothing(_) => Settled::Again(head),
        }
    }

    fn abandon(&self, rt: &impl Wait, worker: u32) {
        let mut guard = self.room.lock(rt);
        let room: &mut Room<'_, R> = &mut guard;
        if let Storage::Kept(kept) = &mut room.storage {
            kept.abandon(worker);
        }
    }
}
