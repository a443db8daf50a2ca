// One region on threads, from its entry to its end.

ghost use Rattle.std.specs.Prelude.{◌≡◌, ◌≤◌, IfOk};
ghost use Rattle.hx_word.specs.Entry.{EntryFits};
ghost use Rattle.hx_board.specs.Calls.{IsOwnFrame};
ghost use Rattle.hx_board.specs.Ends.{EndsPlainly};
ghost use Rattle.hx_pool.specs.Setups.{crew_setup};

use crate::gate::Gate;
use crate::run::Run;
use crate::shared::Shared;
use crate::station::{PoolError, Station};
use crate::worker::work;
use hx_board::Job;
use hx_frame::Frame;
use hx_tree::outcome::Settings;
use hx_word::entry::{Entry, RegionEnd};
use std::alloc::{AllocError, Global};
use std::marker::Brand;
use std::sync::Wait;
use std::thread;
use std::thread::Threads;

/// Runs a region from its entry to its end, on as many threads as there are workers (at least one), the caller's among them, at a station
/// of its own. A thread that can't be started leaves fewer workers. Where the workers stop before the region has ended, which a board
/// whose numbers are used up makes them do, the region is run from its entry once more, on this thread alone.
///
/// The end is that of the plain region of the job from this entry: its iterations one after another, on one thread. Only what
/// speculation counts, all but regions and whole turns, depends on the order in which threads called. Whether it answers isn't promised.
/// 50 for want of memory alone.
pub fn run_region<W: Threads + Wait + Sync, G: Gate>(
    rt: &W,
    alloc: Global,
    job: &Job<'_>,
    entry: Entry,
    settings: Settings,
    gate: &G,
) -> Result<RegionEnd, PoolError>
    requires { EntryFits job.now.code.now job.now.region entry }
    ensures { IfOk result (λ e. EndsPlainly job.now.code.now job.now.region entry e) }
{
    run_region_on(rt, alloc, job, entry, settings, None, gate)
}

/// `run_region` with stacks of so many bytes for the threads that it starts. No thread has a stack that is too large, so then the
/// caller alone runs the region.
pub fn run_region_on<W: Threads + Wait + Sync, G: Gate>(
    rt: &W,
    alloc: Global,
    job: &Job<'_>,
    entry: Entry,
    settings: Settings,
    stack: Option<usize>,
    gate: &G,
) -> Result<RegionEnd, PoolError>
    requires { EntryFits job.now.code.now job.now.region entry }
    ensures { IfOk result (λ e. EndsPlainly job.now.code.now job.now.region entry e) }
{
    let crew = Settings {
        workers: settings.workers.max(1),
        marks: settings.marks,
        buffer: settings.buffer,
    };
    run_branded::<Brand, W, G>(rt, alloc, job, &entry, crew, stack, gate)
}

// The region of one run, by which the types of its station and frames are known.
fn run_branded<R: Run + Send + Sync, W: Threads + Wait + Sync, G: Gate>(
    rt: &W,
    alloc: Global,
    job: &Job<'_>,
    entry: &Entry,
    crew: Settings,
    stack: Option<usize>,
    gate: &G,
) -> Result<RegionEnd, PoolError>
    requires fits { EntryFits job.now.code.now job.now.region entry.now }
    requires own { crew_setup job.now.code.now crew ≡ R.setup }
    requires workers { 1 ≤ crew.workers }
    ensures { IfOk result (λ e. EndsPlainly job.now.code.now job.now.region entry.now e) }
{
    let mut end = RegionEnd::with_room(alloc, job.code)?;
    let station: Station<'_, R> = Station::new(alloc, job.code, crew)?;
    station.open(rt, job.region, entry);
    run_crew(rt, alloc, &station, stack, gate);
    station.end_into(rt, job, entry, &mut end);
    Ok(end)
}

// A board that makes frames of its own for those who share it.
trait Crew: Shared + Sync {
    // How many workers it was made for.
    fn workers(&self) -> u32
        ensures { result ≡ Self.setup.slots };

    // A frame for one of them.
    fn frame(&self, alloc: Global) -> Result<Frame<'_>, AllocError>
        ensures { IfOk result (λ f. IsOwnFrame Self.setup f) };
}

impl<R: Run + Send> Crew for Station<'_, R> {
    fn workers(&self) -> u32 {
        self.workers()
    }

    fn frame(&self, alloc: Global) -> Result<Frame<'_>, AllocError> {
        self.frame(alloc)
    }
}

// The crew's workers on threads, the caller as the first of them. A thread that can't be started leaves fewer.
fn run_crew<S: Crew, W: Threads + Wait + Sync, G: Gate>(
    rt: &W,
    alloc: Global,
    shared: &S,
    stack: Option<usize>,
    gate: &G,
) {
    thread::scope(thread::scope_env(), rt, |scope| {
        for worker in 1..shared.workers() {
            let builder = match stack {
                Some(size) => thread::Builder::new().stack_size(size),
                None => thread::Builder::new(),
            };
            let started = builder.spawn_scoped(
                scope,
                move || work_with_frame(rt, alloc, worker, shared, gate),
            );
            if started.is_err() {
                break;
            }
        }
        work_with_frame(rt, alloc, 0, shared, gate);
    });
}

// A worker of the crew with a frame of its own; without memory for one there is a worker less.
fn work_with_frame<S: Crew, W: Wait, G: Gate>(
    rt: &W,
    alloc: Global,
    worker: u32,
    shared: &S,
    gate: &G,
) {
    if worker < shared.workers() {
        if let Ok(mut frame) = shared.frame(alloc) {
            work(rt, worker, shared, &mut frame, gate);
        }
    }
}
