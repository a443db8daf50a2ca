// A replay of a schedule.

ghost use Rattle.std.specs.Prelude.{◌≡◌, ◌<◌, ◌≤◌, [], length, vec_capacity, All, IfOk, IsTrue, ◌↔◌, Err, None};
ghost use Rattle.hx_word.specs.Entry.{EntryFits};
ghost use Rattle.hx_speculation.specs.Replay.{entry_of, replayed};
ghost use Rattle.hx_board.specs.Board.{board_of};
ghost use Rattle.hx_trace.specs.Turns.{course_of, held_at, world_of, Keeps};
ghost use Rattle.hx_trace.specs.declared.trace.TraceError.TheVariants.{NoSuchWorker};
ghost use Rattle.hx_trace.specs.Refused.{number_of};
ghost use Rattle.hx_trace.specs.Events.{event_of, events_of};
ghost use Rattle.hx_trace.specs.Trace.{board_after, events_from, IsTraceOf, IsIndependentFrom, IsQuietFrom, ShowsPlain, IsTold, IsNew};

use crate::answers::{enter, spend};
use crate::event::Event;
use crate::worker::{Held, Worker};
use hx_board::{Board, Head, Job, State};
use hx_exec::executable::Executable;
use hx_frame::{Capacities, Frame};
use hx_tree::outcome::Counts;
use hx_word::entry::Entry;
use std::alloc::{AllocError, Global};
use thiserror::Error;

/// A trace, and what each entry of its schedule came to.
#[derive(Drop)]
pub struct Told {
    pub trace: Trace,
    pub events: Vec<Event>,
}

/// What a schedule has led to: the committed store, the region's own text, how far the region is, and what was counted.
#[derive(Drop)]
pub struct Trace {
    pub store: Vec<i32>,
    pub text: Vec<u8>,
    pub state: State,
    pub counts: Counts,
}

/// Why there is no trace.
#[derive(Clone, Copy, PartialEq, Eq, Error, Debug)]
pub enum TraceError {
    /// Refusal 40: an entry of the schedule names no worker.
    #[error("an entry of the schedule names no worker")]
    NoSuchWorker,
    /// Refusal 41: an allocation was refused.
    #[error("out of memory")]
    Memory,
}

impl TraceError {
    /// The number of the refusal: 40 or 41.
    pub fn number(self) -> u32
        ensures { result ≡ number_of self }
    {
        match self {
            TraceError::NoSuchWorker => 40,
            TraceError::Memory => 41,
        }
    }
}

/// Replays a schedule on a region from an entry, on one thread. Each entry of the schedule is a worker's number: a worker without a
/// running frame asks the board for an iteration, and another runs a stretch of its frame and hands on what that stopped for.
///
/// Where what earlier turns of the loop write in a word that a turn reads before it writes it is what the entry has there, no whole turn
/// takes more than one attempt, unless a worker gave one up; so too where earlier turns write no such word.
///
/// `NoSuchWorker` exactly where an entry of the schedule is not below `slots`, however far the others would have come; `Memory` where an
/// allocation was refused.
pub fn replay(
    alloc: Global,
    code: &Executable,
    region: u32,
    entry: &Entry,
    slots: u32,
    capacities: Capacities,
    schedule: &[u8],
) -> Result<Trace, TraceError>
    requires { EntryFits code.now region entry.now }
    ensures told { IfOk result (λ t. IsTraceOf (board_after code.now region entry.now slots capacities schedule.now) t) }
    ensures plain { IfOk result (λ t. ShowsPlain code.now region entry.now t) }
    ensures once { IfOk result (λ t. IsQuietFrom code.now region entry.now → t.counts.abandons ≡ 0 → t.counts.repeats ≡ 0) }
    ensures alone { IfOk result (λ t. IsIndependentFrom code.now region entry.now → t.counts.abandons ≡ 0 → t.counts.repeats ≡ 0) }
    ensures workers { (result ≡ Err NoSuchWorker) ↔ (All (λ w. w < slots) schedule.now → ⊥) }
{
    match replay_told(alloc, code, region, entry, slots, capacities, schedule) {
        Ok(told) => Ok(told.trace),
        Err(why) => Err(why),
    }
}

/// Replays a schedule as `replay` does, and tells what each of its entries came to.
///
/// Refusals are those of `replay`.
pub fn replay_told(
    alloc: Global,
    code: &Executable,
    region: u32,
    entry: &Entry,
    slots: u32,
    capacities: Capacities,
    schedule: &[u8],
) -> Result<Told, TraceError>
    requires { EntryFits code.now region entry.now }
    ensures events { IfOk result (λ t. t.events.items ≡ events_from code.now region entry.now slots capacities schedule.now) }
    ensures told { IfOk result (λ t. IsTraceOf (board_after code.now region entry.now slots capacities schedule.now) t.trace) }
    ensures plain { IfOk result (λ t. ShowsPlain code.now region entry.now t.trace) }
    ensures workers { (result ≡ Err NoSuchWorker) ↔ (All (λ w. w < slots) schedule.now → ⊥) }
{
    if !are_workers(schedule, slots) {
        return Err(TraceError::NoSuchWorker);
    }
    let job = Job { code, region };
    match run(alloc, job, entry, slots, capacities, schedule) {
        Ok(told) => Ok(told),
        Err(_) => Err(TraceError::Memory),
    }
}

// Whether each entry of a schedule names one of so many workers.
fn are_workers(schedule: &[u8], slots: u32) -> bool
    ensures { IsTrue result ↔ All (λ w. w < slots) schedule.now }
{
    schedule.iter().all(|worker| u32::from(*worker) < slots)
}

fn run(
    alloc: Global,
    job: Job<'_>,
    entry: &Entry,
    slots: u32,
    capacities: Capacities,
    schedule: &[u8],
) -> Result<Told, AllocError>
    requires fits { EntryFits job.code.now job.region entry.now }
    requires workers { All (λ w. w < slots) schedule.now }
    ensures events { IfOk result (λ t. t.events.items ≡ events_from job.entry.code.now job.entry.region entry.now slots capacities schedule.now) }
    ensures told { IfOk result (λ t. IsTraceOf (board_after job.entry.code.now job.entry.region entry.now slots capacities schedule.now) t.trace) }
    ensures plain { IfOk result (λ t. ShowsPlain job.entry.code.now job.entry.region entry.now t.trace) }
{
    let mut workers = new_workers(alloc, job.code, slots, capacities)?;
    let mut events = Vec::with_capacity(alloc, schedule.len())?;
    let mut board = Board::new(alloc, job, entry, slots, capacities)?;
    let crew = workers.as_mut_slice();
    let held = follow(&mut board, crew, schedule, &mut events);
    job.code.known();
    board.known();
    let trace = trace_of(alloc, &board);
    give_back(&mut board, crew, held);
    match trace {
        Ok(trace) => Ok(Told { trace, events }),
        Err(why) => Err(why),
    }
}

// The entries of a schedule, one after another, each with its event.
fn follow<'c>(
    board: &mut Board<'c>,
    workers: &mut [Worker<'c>],
    schedule: &[u8],
    events: &mut Vec<Event>,
) -> Option<Held>
    requires keeps { Keeps board.old workers.old None }
    requires workers { All (λ w. w < board.old.setup.slots) schedule.now }
    requires none { events.old.items ≡ [] }
    requires room { length schedule.now ≤ vec_capacity events.old }
    ensures board { (replayed (course_of board.old.setup) schedule.now (world_of board.old workers.old None)).board ≡ board_of board.new }
    ensures events { events.new.items ≡ events_of (course_of board.old.setup) schedule.now (world_of board.old workers.old None) }
    ensures setup { board.new.setup ≡ board.old.setup }
    ensures keeps { Keeps board.new workers.new result }
{
    let mut held = None;
    for number in schedule {
        let (next, event) = turn(board, workers, u32::from(*number), held);
        held = next;
        let Ok(()) = events.push(event) else {
            unreachable!()
        };
    }
    held
}

// As many workers, none of which runs.
fn new_workers<'c>(
    alloc: Global,
    code: &'c Executable,
    slots: u32,
    capacities: Capacities,
) -> Result<Vec<Worker<'c>>, AllocError>
    ensures many { IfOk result (λ xs. length xs.items ≡ slots) }
    ensures new { IfOk result (λ xs. All (λ x. IsNew code.now capacities x) xs.items) }
{
    let mut workers = Vec::with_capacity(alloc, slots as usize)?;
    for _number in 0..slots {
        workers.push(Worker {
            frame: Frame::new(alloc, code, capacities)?,
            is_running: false,
        })?;
    }
    Ok(workers)
}

// One entry of the schedule.
fn turn<'c>(
    board: &mut Board<'c>,
    workers: &mut [Worker<'c>],
    number: u32,
    held: Option<Held>,
) -> (Option<Held>, Event)
    requires keeps { Keeps board.old workers.old held }
    requires worker { number < board.old.setup.slots }
    ensures step { entry_of (course_of board.old.setup) number (world_of board.old workers.old held) ((world_of board.old workers.old held).running number) ≡ world_of board.new workers.new result.0 }
    ensures told { result.1 ≡ event_of (course_of board.old.setup) number (board_of board.old) ((world_of board.old workers.old held).running number) }
    ensures keeps { Keeps board.new workers.new result.0 }
    ensures setup { board.new.setup ≡ board.old.setup }
{
    let worker = &mut workers[number as usize];
    match held {
        None => {
            let (token, event) = enter(board, worker, number, None);
            (held_by(number, token), event)
        }
        Some(
            Held {
                worker: holder,
                head,
            },
        ) => {
            if holder == number {
                let (token, event) = enter(board, worker, number, Some(head));
                (held_by(number, token), event)
            } else {
                let (token, event) = enter(board, worker, number, None);
                match token {
                    Some(_head) => unreachable!(),
                    None => {
                        let held = Held {
                            worker: holder,
                            head,
                        };
                        (Some(held), event)
                    }
                }
            }
        }
    }
}

// A token in a worker's hand.
fn held_by(worker: u32, token: Option<Head>) -> Option<Held>
    ensures { result ≡ held_at worker token }
{
    match token {
        Some(head) => Some(Held { worker, head }),
        None => None,
    }
}

// A token that is still out is spent.
fn give_back<'c>(board: &mut Board<'c>, workers: &mut [Worker<'c>], held: Option<Held>)
    requires { Keeps board.old workers.old held }
{
    match held {
        None => {}
        Some(Held { worker, head }) => spend(board, &mut workers[worker as usize], worker, head),
    }
}

// What is settled so far.
fn trace_of(alloc: Global, board: &Board<'_>) -> Result<Trace, AllocError>
    ensures { IfOk result (λ t. IsTold board.now t) }
{
    let (store, text, state) = board.settled();
    Ok(Trace {
        store: Vec::from_slice(alloc, store)?,
        text: Vec::from_slice(alloc, text)?,
        state,
        counts: board.counts(),
    })
}
