// A timeline as SVG.

ghost use Rattle.std.specs.Prelude.{◌≡◌, ◌++◌, ◌-◌, ◌^◌, ◌<◌, flat_map, IfOk, OnOk};
ghost use Rattle.std.specs.List.{range_with_len};
ghost use Rattle.hx_timeline.specs.Drawing.{left_of, middle_of, size_of, head_of, style_of, rectangle, box_of, side_from, side_to, line_of, arrow_of, violation_of, number_of, words_of, event_of, events_from, IsPicture};
ghost use Rattle.hx_timeline.specs.Columns.{label_of};

use crate::chart::{Attempt, Chart, Fate, Link, chart_of};
use crate::labels::{put_label, put_number};
use hx_trace::{Called, Event, Told};
use std::alloc::{AllocError, Global};

// Sizes, in pixels: what stands left of the lanes and above them, a lane, a row, and the box of an attempt within its lane.
const LEFT: u64 = 48;

const TOP: u64 = 40;

const LANE: u64 = 212;

const ROW: u64 = 26;

const BOX: u64 = 188;

const INSET: u64 = 12;

/// A timeline as a picture, in the form SVG (W3C, Scalable Vector Graphics 1.1): a line for each event, numbered from 1, and a lane for
/// each worker. Each attempt at an iteration is a box from its start to its end: plain where it was committed, hatched and with a broken
/// edge where it was squashed, dotted where it was dropped, and with a thin edge where it runs still. An arrow leads from the store of a
/// value to the load that it was forwarded to; a diamond stands at a store that violates, with a line to each attempt that it ends. An
/// `Err` means that an allocation was refused.
pub fn picture(alloc: Global, names: &[Called], told: &Told) -> Result<Vec<u8>, AllocError>
    ensures { IfOk result (λ svg. IsPicture names.now told.now svg.items) }
{
    let chart = chart_of(alloc, &told.events)?;
    let sheet = sheet_of(alloc, &chart)?;
    let mut svg = Vec::new(alloc);
    svg.extend_from_slice(b"<svg xmlns=\"http://www.w3.org/2000/svg\"")?;
    svg.extend_from_slice(&sheet)?;
    put_heads(&mut svg, chart.lanes)?;
    put_boxes(&mut svg, &chart.attempts)?;
    put_violations(&mut svg, &chart.violations)?;
    put_forwards(&mut svg, &chart.forwards)?;
    put_events(&mut svg, names, &told.trace.text, &told.events)?;
    svg.extend_from_slice(b"</svg>\n")?;
    Ok(svg)
}

// The rest of the opening, the patterns, and a white sheet.
fn sheet_of(alloc: Global, chart: &Chart) -> Result<Vec<u8>, AllocError> {
    let mut svg = Vec::new(alloc);
    let width = left_of(chart.lanes).saturating_add(INSET);
    let height = middle_of(chart.rows).saturating_add(INSET);
    put_size(&mut svg, b"width", width)?;
    put_size(&mut svg, b"height", height)?;
    svg.extend_from_slice(b" font-family=\"sans-serif\" font-size=\"13\">\n")?;
    svg.extend_from_slice(
        b"<defs>\n\
<pattern id=\"squashed\" width=\"7\" height=\"7\" patternUnits=\"userSpaceOnUse\">\
<path d=\"M0 7L7 0\" stroke=\"#999\" stroke-width=\"1\"/></pattern>\n\
<pattern id=\"dropped\" width=\"6\" height=\"6\" patternUnits=\"userSpaceOnUse\">\
<circle cx=\"3\" cy=\"3\" r=\"1\" fill=\"#999\"/></pattern>\n\
<marker id=\"tip\" markerWidth=\"9\" markerHeight=\"8\" refX=\"8\" refY=\"4\" orient=\"auto\">\
<path d=\"M0 0L9 4L0 8z\"/></marker>\n\
</defs>\n",
    )?;
    svg.extend_from_slice(b"<rect fill=\"white\"")?;
    put_size(&mut svg, b"width", width)?;
    put_size(&mut svg, b"height", height)?;
    svg.extend_from_slice(b"/>\n")?;
    Ok(svg)
}

fn put_heads(svg: &mut Vec<u8>, lanes: u32) -> Result<(), AllocError>
    ensures { OnOk result (svg.new.items ≡ svg.old.items ++ flat_map head_of (range_with_len 0 lanes)) }
{
    for worker in 0..lanes {
        put_head(svg, worker)?;
    }
    Ok(())
}

fn put_boxes(svg: &mut Vec<u8>, attempts: &[Attempt]) -> Result<(), AllocError>
    ensures { OnOk result (svg.new.items ≡ svg.old.items ++ flat_map box_of attempts.now) }
{
    for attempt in attempts {
        put_box(svg, *attempt)?;
    }
    Ok(())
}

fn put_violations(svg: &mut Vec<u8>, violations: &[Link]) -> Result<(), AllocError>
    ensures { OnOk result (svg.new.items ≡ svg.old.items ++ flat_map violation_of violations.now) }
{
    for link in violations {
        put_violation(svg, *link)?;
    }
    Ok(())
}

fn put_forwards(svg: &mut Vec<u8>, forwards: &[Link]) -> Result<(), AllocError>
    ensures { OnOk result (svg.new.items ≡ svg.old.items ++ flat_map arrow_of forwards.now) }
{
    for link in forwards {
        put_forward(svg, *link)?;
    }
    Ok(())
}

fn put_events(
    svg: &mut Vec<u8>,
    names: &[Called],
    printed: &[u8],
    events: &[Event],
) -> Result<(), AllocError>
    ensures { OnOk result (svg.new.items ≡ svg.old.items ++ events_from names.now printed.now 0 events.now) }
{
    for (row, event) in events.iter().enumerate() {
        put_event(svg, names, printed, row, *event)?;
    }
    Ok(())
}

// Where a lane begins, from the left.
fn left_of(worker: u32) -> u64
    ensures { result ≡ left_of worker }
{
    LEFT.saturating_add(LANE.saturating_mul(u64::from(worker)))
}

// Where the middle of a row is, from the top.
fn middle_of(row: usize) -> u64
    ensures { result ≡ middle_of row }
{
    TOP.saturating_add(ROW.saturating_mul(row as u64))
        .saturating_add(ROW / 2)
}

// ` name="value"`
fn put_size(svg: &mut Vec<u8>, name: &[u8], value: u64) -> Result<(), AllocError>
    ensures { OnOk result (svg.new.items ≡ svg.old.items ++ size_of name.now value) }
{
    svg.extend_from_slice(b" ")?;
    svg.extend_from_slice(name)?;
    svg.extend_from_slice(b"=\"")?;
    put_number(svg, value)?;
    svg.extend_from_slice(b"\"")
}

fn put_head(svg: &mut Vec<u8>, worker: u32) -> Result<(), AllocError>
    ensures { OnOk result (svg.new.items ≡ svg.old.items ++ head_of worker) }
{
    svg.extend_from_slice(b"<text font-weight=\"bold\" text-anchor=\"middle\"")?;
    put_size(svg, b"x", left_of(worker).saturating_add(INSET + BOX / 2))?;
    put_size(svg, b"y", TOP - 16)?;
    svg.extend_from_slice(b">worker ")?;
    put_number(svg, worker)?;
    svg.extend_from_slice(b"</text>\n")
}

// How the box of an attempt is drawn.
fn style_of(fate: Fate) -> &'static [u8]
    ensures { result.now ≡ style_of fate }
{
    match fate {
        Fate::Runs => b" fill=\"white\" stroke=\"black\" stroke-width=\"0.7\"",
        Fate::Committed => b" fill=\"white\" stroke=\"black\" stroke-width=\"2\"",
        Fate::Squashed => {
            b" fill=\"url(#squashed)\" stroke=\"black\" stroke-width=\"1.5\" stroke-dasharray=\"6 4\""
        }
        Fate::Dropped => {
            b" fill=\"url(#dropped)\" stroke=\"black\" stroke-width=\"1.5\" stroke-dasharray=\"1.5 4\""
        }
    }
}

fn put_box(svg: &mut Vec<u8>, attempt: Attempt) -> Result<(), AllocError>
    ensures { OnOk result (svg.new.items ≡ svg.old.items ++ box_of attempt) }
{
    let top = middle_of(attempt.first).saturating_sub(ROW / 2 - 2);
    let bottom = middle_of(attempt.last).saturating_add(ROW / 2 - 2);
    put_rectangle(svg, attempt.worker, top, bottom, style_of(attempt.fate))
}

fn put_rectangle(
    svg: &mut Vec<u8>,
    worker: u32,
    top: u64,
    bottom: u64,
    style: &[u8],
) -> Result<(), AllocError>
    ensures { OnOk result (svg.new.items ≡ svg.old.items ++ rectangle worker top bottom style.now) }
{
    svg.extend_from_slice(b"<rect rx=\"3\"")?;
    put_size(svg, b"x", left_of(worker).saturating_add(INSET))?;
    put_size(svg, b"y", top)?;
    put_size(svg, b"width", BOX)?;
    put_size(svg, b"height", bottom.saturating_sub(top))?;
    svg.extend_from_slice(style)?;
    svg.extend_from_slice(b"/>\n")
}

// The sides of two boxes that face each other, from the left.
fn sides(link: Link) -> (u64, u64)
    ensures from { result.0 ≡ side_from link }
    ensures to { result.1 ≡ side_to link }
{
    let (from, to) = (left_of(link.from), left_of(link.to));
    if link.from < link.to {
        (from.saturating_add(INSET + BOX), to.saturating_add(INSET))
    } else {
        (from.saturating_add(INSET), to.saturating_add(INSET + BOX))
    }
}

fn put_line(svg: &mut Vec<u8>, link: Link) -> Result<(), AllocError>
    ensures { OnOk result (svg.new.items ≡ svg.old.items ++ line_of link) }
{
    let (from, to) = sides(link);
    svg.extend_from_slice(b"<line stroke=\"black\"")?;
    put_size(svg, b"x1", from)?;
    put_size(svg, b"y1", middle_of(link.from_row))?;
    put_size(svg, b"x2", to)?;
    put_size(svg, b"y2", middle_of(link.to_row))
}

fn put_forward(svg: &mut Vec<u8>, link: Link) -> Result<(), AllocError>
    ensures { OnOk result (svg.new.items ≡ svg.old.items ++ arrow_of link) }
{
    put_line(svg, link)?;
    svg.extend_from_slice(b" stroke-width=\"1.5\" marker-end=\"url(#tip)\"/>\n")
}

// A thick line, and a diamond at the store.
fn put_violation(svg: &mut Vec<u8>, link: Link) -> Result<(), AllocError>
    ensures { OnOk result (svg.new.items ≡ svg.old.items ++ violation_of link) }
{
    let (from, _) = sides(link);
    put_line(svg, link)?;
    svg.extend_from_slice(b" stroke-width=\"3\"/>\n<path d=\"M")?;
    put_number(svg, from.saturating_sub(7))?;
    svg.extend_from_slice(b" ")?;
    put_number(svg, middle_of(link.from_row))?;
    svg.extend_from_slice(b"l7 -7l7 7l-7 7z\"/>\n")
}

fn put_event(
    svg: &mut Vec<u8>,
    names: &[Called],
    printed: &[u8],
    row: usize,
    event: Event,
) -> Result<(), AllocError>
    ensures { row < 2 ^ 64 - 1 → OnOk result (svg.new.items ≡ svg.old.items ++ event_of names.now printed.now row event) }
{
    let y = middle_of(row).saturating_add(4);
    put_row_number(svg, row, y)?;
    put_words(svg, names, printed, event, y)
}

// The number of a row, at this height.
fn put_row_number(svg: &mut Vec<u8>, row: usize, y: u64) -> Result<(), AllocError>
    ensures { row < 2 ^ 64 - 1 → OnOk result (svg.new.items ≡ svg.old.items ++ number_of row y) }
{
    svg.extend_from_slice(b"<text fill=\"#555\" text-anchor=\"end\"")?;
    put_size(svg, b"x", LEFT - 8)?;
    put_size(svg, b"y", y)?;
    svg.extend_from_slice(b">")?;
    put_number(svg, row.saturating_add(1) as u64)?;
    svg.extend_from_slice(b"</text>\n")
}

// What was done, at this height.
fn put_words(
    svg: &mut Vec<u8>,
    names: &[Called],
    printed: &[u8],
    event: Event,
    y: u64,
) -> Result<(), AllocError>
    ensures { OnOk result (svg.new.items ≡ svg.old.items ++ words_of event.worker y (label_of names.now printed.now event event.deed)) }
{
    let x = left_of(event.worker).saturating_add(INSET + BOX / 2);
    svg.extend_from_slice(
        b"<text text-anchor=\"middle\" paint-order=\"stroke\" stroke=\"white\" stroke-width=\"3\"",
    )?;
    put_size(svg, b"x", x)?;
    put_size(svg, b"y", y)?;
    svg.extend_from_slice(b">")?;
    put_label(svg, names, printed, event)?;
    svg.extend_from_slice(b"</text>\n")
}
