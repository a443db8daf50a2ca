// What is drawn of events.

ghost use Rattle.std.specs.Prelude.{◌≡◌, ◌++◌, take, map, filter, None, IfOk, OnOk};
ghost use Rattle.hx_timeline.specs.Chart.{more_lanes, runs, is_among, fate_among, fate_of_worker, fate_by, behind, started, attempts_behind, line_to, violations_at, is_store_of, last_store, arrow, forwards_at, IsChartOf};

use hx_trace::{Deed, Event, Source};
use std::alloc::{AllocError, Global};

/// What became of an attempt.
#[derive(Clone, Copy, PartialEq, Eq, Debug)]
pub(crate) enum Fate {
    /// It runs still, behind the last event.
    Runs,
    Committed,
    Squashed,
    Dropped,
}

/// An attempt at an iteration, from the event that starts it to the one that ends it.
#[derive(Clone, Copy, PartialEq, Eq, Debug)]
pub(crate) struct Attempt {
    pub(crate) worker: u32,
    pub(crate) iteration: u64,
    pub(crate) attempt: u64,
    pub(crate) first: usize,
    pub(crate) last: usize,
    pub(crate) fate: Fate,
}

/// A line between the lanes of two workers, each end at the row of an event.
#[derive(Clone, Copy, PartialEq, Eq, Debug)]
pub(crate) struct Link {
    pub(crate) from: u32,
    pub(crate) from_row: usize,
    pub(crate) to: u32,
    pub(crate) to_row: usize,
}

/// Attempts; arrows from the store of a value to the load that it is forwarded to; and lines from a store that violates to the attempts
/// that it ends.
#[derive(Drop)]
pub(crate) struct Chart {
    pub(crate) lanes: u32,
    pub(crate) rows: usize,
    pub(crate) attempts: Vec<Attempt>,
    pub(crate) forwards: Vec<Link>,
    pub(crate) violations: Vec<Link>,
}

/// The chart of events, in their order.
pub(crate) fn chart_of(alloc: Global, events: &[Event]) -> Result<Chart, AllocError>
    ensures { IfOk result (IsChartOf events.now) }
{
    let mut chart = Chart {
        lanes: 0,
        rows: events.len(),
        attempts: Vec::new(alloc),
        forwards: Vec::new(alloc),
        violations: Vec::new(alloc),
    };
    for (row, event) in events.iter().enumerate() {
        see(&mut chart, events, row, *event)?;
    }
    Ok(chart)
}

// What the event of a row adds to the chart of those before.
fn see(chart: &mut Chart, events: &[Event], row: usize, event: Event) -> Result<(), AllocError>
    ensures lanes { OnOk result (chart.new.lanes ≡ more_lanes chart.old.lanes event) }
    ensures rows { OnOk result (chart.new.rows ≡ chart.old.rows) }
    ensures attempts { OnOk result (chart.new.attempts.items ≡ attempts_behind row event chart.old.attempts.items) }
    ensures forwards { OnOk result (chart.new.forwards.items ≡ chart.old.forwards.items ++ forwards_at row event.worker (take row events.now) event.deed) }
    ensures violations { OnOk result (chart.new.violations.items ≡ chart.old.violations.items ++ violations_at row event.worker chart.old.attempts.items event.deed) }
{
    chart.lanes = chart.lanes.max(event.worker.saturating_add(1));
    put_forwards(&mut chart.forwards, first_of(events, row), row, event)?;
    put_violations(&mut chart.violations, &chart.attempts, row, event)?;
    put_behind(&mut chart.attempts, row, event);
    put_started(&mut chart.attempts, row, event)
}

// Whether an attempt with this fate goes on.
fn runs(fate: Fate) -> bool
    ensures { result ≡ runs fate }
{
    match fate {
        Fate::Runs => true,
        Fate::Committed | Fate::Squashed | Fate::Dropped => false,
    }
}

// Whether an attempt runs, and is at one of the last iterations, so many, up to this.
fn is_among(attempt: Attempt, count: u64, last: u64) -> bool
    ensures { result ≡ is_among attempt count last }
{
    attempt.fate == Fate::Runs && attempt.iteration <= last && last - attempt.iteration < count
}

// What becomes of an attempt where those at the last iterations, so many, up to this end.
fn fate_among(attempt: Attempt, count: u64, last: u64, fate: Fate) -> Fate
    ensures { result ≡ fate_among attempt count last fate }
{
    if is_among(attempt, count, last) {
        fate
    } else {
        attempt.fate
    }
}

// What becomes of an attempt where that of a worker ends.
fn fate_of_worker(attempt: Attempt, worker: u32, fate: Fate) -> Fate
    ensures { result ≡ fate_of_worker attempt worker fate }
{
    if attempt.worker == worker {
        fate
    } else {
        attempt.fate
    }
}

// What becomes of an attempt that runs.
fn fate_by(attempt: Attempt, event: Event) -> Fate
    ensures { result ≡ fate_by attempt event.worker event.deed }
{
    match event.deed {
        Deed::Stores {
            word: _,
            value: _,
            restarts,
            last,
        } => fate_among(attempt, restarts, last, Fate::Squashed),
        Deed::Passes => fate_of_worker(attempt, event.worker, Fate::Committed),
        Deed::Ends {
            state: _,
            dropped,
            last,
        } => {
            if attempt.worker == event.worker {
                Fate::Committed
            } else {
                fate_among(attempt, dropped, last, Fate::Dropped)
            }
        }
        Deed::IsSquashed => fate_of_worker(attempt, event.worker, Fate::Squashed),
        Deed::IsRefused => fate_of_worker(attempt, event.worker, Fate::Squashed),
        Deed::FindsEnd => fate_of_worker(attempt, event.worker, Fate::Dropped),
        _ => attempt.fate,
    }
}

// An attempt behind the event of a row: one that runs lasts to that row.
fn behind(attempt: Attempt, row: usize, event: Event) -> Attempt
    ensures { result ≡ behind row event attempt }
{
    if !runs(attempt.fate) {
        return attempt;
    }
    Attempt {
        worker: attempt.worker,
        iteration: attempt.iteration,
        attempt: attempt.attempt,
        first: attempt.first,
        last: row,
        fate: fate_by(attempt, event),
    }
}

fn put_behind(attempts: &mut [Attempt], row: usize, event: Event)
    ensures { attempts.new ≡ map (behind row event) attempts.old }
{
    for attempt in attempts.iter_mut() {
        *attempt = behind(*attempt, row, event);
    }
}

// The attempt that the event of a row starts.
fn put_started(attempts: &mut Vec<Attempt>, row: usize, event: Event) -> Result<(), AllocError>
    ensures { OnOk result (attempts.new.items ≡ attempts.old.items ++ started row event event.deed) }
{
    match event.deed {
        Deed::Starts => {
            attempts.push(Attempt {
                worker: event.worker,
                iteration: event.iteration,
                attempt: event.attempt,
                first: row,
                last: row,
                fate: Fate::Runs,
            })?;
            Ok(())
        }
        _ => Ok(()),
    }
}

// A store has a line to each attempt that it ends.
fn put_violations(
    violations: &mut Vec<Link>,
    attempts: &[Attempt],
    row: usize,
    event: Event,
) -> Result<(), AllocError>
    ensures { OnOk result (violations.new.items ≡ violations.old.items ++ violations_at row event.worker attempts.now event.deed) }
{
    match event.deed {
        Deed::Stores {
            word: _,
            value: _,
            restarts,
            last,
        } => put_lines(violations, attempts, row, event.worker, restarts, last),
        _ => Ok(()),
    }
}

// Lines to the attempts at the last iterations, so many, up to this.
fn put_lines(
    violations: &mut Vec<Link>,
    attempts: &[Attempt],
    row: usize,
    worker: u32,
    count: u64,
    last: u64,
) -> Result<(), AllocError>
    ensures { OnOk result (violations.new.items ≡ violations.old.items ++ map (line_to row worker) (filter (λ x. is_among x count last) attempts.now)) }
{
    for attempt in attempts {
        if is_among(*attempt, count, last) {
            violations.push(Link {
                from: worker,
                from_row: row,
                to: attempt.worker,
                to_row: row,
            })?;
        }
    }
    Ok(())
}

// The value of a word that a worker loads at a row comes from an iteration's last store of it before.
fn put_forwards(
    forwards: &mut Vec<Link>,
    before: &[Event],
    row: usize,
    event: Event,
) -> Result<(), AllocError>
    ensures { OnOk result (forwards.new.items ≡ forwards.old.items ++ forwards_at row event.worker before.now event.deed) }
{
    match event.deed {
        Deed::Loads {
            word,
            value: _,
            source: Source::Iteration(iteration),
        } => put_arrow(
            forwards,
            row,
            event.worker,
            last_store(before, word, iteration),
        ),
        _ => Ok(()),
    }
}

fn put_arrow(
    forwards: &mut Vec<Link>,
    row: usize,
    worker: u32,
    found: Option<(usize, u32)>,
) -> Result<(), AllocError>
    ensures { OnOk result (forwards.new.items ≡ forwards.old.items ++ arrow row worker found) }
{
    match found {
        Some((before, writer)) => {
            forwards.push(Link {
                from: writer,
                from_row: before,
                to: worker,
                to_row: row,
            })?;
            Ok(())
        }
        None => Ok(()),
    }
}

// The row and the worker of an iteration's last store of a word.
fn last_store(events: &[Event], word: u32, iteration: u64) -> Option<(usize, u32)>
    ensures { result ≡ last_store word iteration 0 events.now None }
{
    let mut found = None;
    for (row, event) in events.iter().enumerate() {
        if event.iteration == iteration && is_store_of(event.deed, word) {
            found = Some((row, event.worker));
        }
    }
    found
}

fn is_store_of(deed: Deed, word: u32) -> bool
    ensures { result ≡ is_store_of word deed }
{
    match deed {
        Deed::Stores {
            word: stored,
            value: _,
            restarts: _,
            last: _,
        } => stored == word,
        _ => false,
    }
}

// The first events, so many, or all.
fn first_of(events: &[Event], count: usize) -> &[Event]
    ensures { result.now ≡ take count events.now }
{
    &events[..count.min(events.len())]
}
