// A timeline as text.

ghost use Rattle.std.specs.Prelude.{◌≡◌, ◌++◌, ◌+◌, ◌-◌, ◌^◌, ◌<◌, replicate, IfOk, OnOk};
ghost use Rattle.hx_timeline.specs.Columns.{head_words, head_line, lane_words, source_label, origin_label, mark_at, mark_of, is_on, is_over, row_line, row_lines, timeline_table, PutsCell};

use crate::chart::{Attempt, Chart, Fate, chart_of};
use crate::labels::{put_label, put_number};
use hx_trace::{Called, Deed, Event, Source, Told};
use std::alloc::{AllocError, Global};

// How many characters the number of a row has, and how many a lane.
const NUMBER: usize = 6;

const LANE: usize = 28;

/// A timeline as text: a line for each event, numbered from 1, and a column for each worker. What a worker does stands in its column. A
/// bar stands in those of the others whose attempt goes on, and a cross where that ends by what was done. Behind a load whose value was
/// forwarded stands the iteration that it came from. An `Err` means that an allocation was refused.
pub fn table(alloc: Global, names: &[Called], told: &Told) -> Result<Vec<u8>, AllocError>
    ensures { IfOk result (λ text. text.items ≡ timeline_table names.now told.now) }
{
    let chart = chart_of(alloc, &told.events)?;
    let mut text = Vec::new(alloc);
    put_heads(alloc, &mut text, chart.lanes)?;
    put_rows(alloc, &mut text, &chart, names, told)?;
    Ok(text)
}

fn put_rows(
    alloc: Global,
    text: &mut Vec<u8>,
    chart: &Chart,
    names: &[Called],
    told: &Told,
) -> Result<(), AllocError>
    ensures { OnOk result (text.new.items ≡ text.old.items ++ row_lines names.now told.now.trace.text.items chart.now.lanes chart.now.attempts.items 0 told.now.events.items) }
{
    for (row, event) in told.events.iter().enumerate() {
        put_row(alloc, text, chart, names, &told.trace.text, row, *event)?;
    }
    Ok(())
}

// Puts a cell of this width behind the text and so many blanks, and answers how many blanks belong behind it. An empty cell puts nothing.
fn put_cell(
    text: &mut Vec<u8>,
    blanks: usize,
    cell: &[u8],
    width: usize,
) -> Result<usize, AllocError>
    ensures { blanks + width < 2 ^ 64 - 1 → IfOk result (PutsCell text.old.items blanks width cell.now text.new.items) }
{
    let left = width.saturating_sub(cell.len()).max(1);
    if cell.is_empty() {
        return Ok(blanks.saturating_add(left));
    }
    put_blanks(text, blanks)?;
    text.extend_from_slice(cell)?;
    Ok(left)
}

fn put_blanks(text: &mut Vec<u8>, count: usize) -> Result<(), AllocError>
    ensures { OnOk result (text.new.items ≡ text.old.items ++ replicate count 32) }
{
    for _blank in 0..count {
        text.extend_from_slice(b" ")?;
    }
    Ok(())
}

fn put_heads(alloc: Global, text: &mut Vec<u8>, lanes: u32) -> Result<(), AllocError>
    ensures { OnOk result (text.new.items ≡ text.old.items ++ head_line lanes) }
{
    let mut blanks = NUMBER;
    for worker in 0..lanes {
        let mut cell = Vec::new(alloc);
        put_head(&mut cell, worker)?;
        blanks = put_cell(text, blanks, &cell, LANE)?;
    }
    text.extend_from_slice(b"\n")
}

fn put_head(cell: &mut Vec<u8>, worker: u32) -> Result<(), AllocError>
    ensures { OnOk result (cell.new.items ≡ cell.old.items ++ head_words worker) }
{
    cell.extend_from_slice(b"worker ")?;
    put_number(cell, worker)
}

fn put_row(
    alloc: Global,
    text: &mut Vec<u8>,
    chart: &Chart,
    names: &[Called],
    printed: &[u8],
    row: usize,
    event: Event,
) -> Result<(), AllocError>
    ensures { row < 2 ^ 64 - 1 → OnOk result (text.new.items ≡ text.old.items ++ row_line names.now printed.now chart.now.lanes chart.now.attempts.items row event) }
{
    let mut number = Vec::new(alloc);
    put_number(&mut number, row.saturating_add(1) as u64)?;
    let mut blanks = put_cell(text, 0, &number, NUMBER)?;
    for worker in 0..chart.lanes {
        let mut cell = Vec::new(alloc);
        put_words(&mut cell, chart, names, printed, row, event, worker)?;
        blanks = put_cell(text, blanks, &cell, LANE)?;
    }
    text.extend_from_slice(b"\n")
}

// What stands in the lane of a worker.
fn put_words(
    cell: &mut Vec<u8>,
    chart: &Chart,
    names: &[Called],
    printed: &[u8],
    row: usize,
    event: Event,
    worker: u32,
) -> Result<(), AllocError>
    ensures { OnOk result (cell.new.items ≡ cell.old.items ++ lane_words names.now printed.now chart.now.attempts.items row event worker) }
{
    if worker == event.worker {
        put_label(cell, names, printed, event)?;
        put_origin(cell, event.deed)
    } else {
        cell.extend_from_slice(mark_at(&chart.attempts, row, worker))
    }
}

// Where a value that is loaded comes from, if it was forwarded.
fn put_origin(text: &mut Vec<u8>, deed: Deed) -> Result<(), AllocError>
    ensures { OnOk result (text.new.items ≡ text.old.items ++ origin_label deed) }
{
    match deed {
        Deed::Loads {
            word: _,
            value: _,
            source,
        } => put_source(text, source),
        _ => Ok(()),
    }
}

fn put_source(text: &mut Vec<u8>, source: Source) -> Result<(), AllocError>
    ensures { OnOk result (text.new.items ≡ text.old.items ++ source_label source) }
{
    match source {
        Source::Iteration(iteration) => {
            text.extend_from_slice(b" < iteration ")?;
            put_number(text, iteration)
        }
        Source::Store | Source::Buffer | Source::Marks => Ok(()),
    }
}

// What stands in the lane of a worker while another does something.
fn mark_at(attempts: &[Attempt], row: usize, worker: u32) -> &'static [u8]
    ensures { result.now ≡ mark_at row worker attempts.now }
{
    for attempt in attempts {
        if is_on(*attempt, row, worker) {
            return mark_of(*attempt, row);
        }
    }
    b""
}

fn mark_of(attempt: Attempt, row: usize) -> &'static [u8]
    ensures { result.now ≡ mark_of attempt row }
{
    if is_over(attempt, row) { b"x" } else { b"|" }
}

// Whether an attempt of this worker runs in a row, or ends there.
fn is_on(attempt: Attempt, row: usize, worker: u32) -> bool
    ensures { result ≡ is_on attempt row worker }
{
    attempt.worker == worker && attempt.first <= row && row <= attempt.last
}

// Whether it ends there.
fn is_over(attempt: Attempt, row: usize) -> bool
    ensures { result ≡ is_over attempt row }
{
    attempt.last == row && attempt.fate != Fate::Runs
}
