// A finish as text.

ghost use Rattle.std.specs.Prelude.{◌≡◌, ◌++◌, IfOk, OnOk};
ghost use Rattle.hx_stats.specs.Report.{count_line, count_lines, end_line, fault_text, report_of};

use hx_tree::outcome::{Counts, End, Fault, Finish};
use itoa::{Buffer, Integer};
use std::alloc::{AllocError, Global};

/// The report of a finish: its end, and its nine counts, each on a line of its own. Numbers are in decimal. An `Err` means
/// that an allocation was refused.
pub fn report(alloc: Global, finish: &Finish) -> Result<Vec<u8>, AllocError>
    ensures { IfOk result (λ text. text.items ≡ report_of finish.now) }
{
    let mut text = Vec::new(alloc);
    put_end(&mut text, finish.outcome.end)?;
    put_count(&mut text, b"regions ", finish.counts.regions)?;
    put_counts(&mut text, &finish.counts)?;
    Ok(text)
}

/// Puts the lines of the counts from `turns` to `spared` behind the text. An `Err` means that an allocation was refused,
/// and says nothing of the text.
pub fn put_counts(text: &mut Vec<u8>, counts: &Counts) -> Result<(), AllocError>
    ensures { OnOk result (text.new.items ≡ text.old.items ++ count_lines counts.now) }
{
    put_count(text, b"turns ", counts.turns)?;
    put_count(text, b"repeats ", counts.repeats)?;
    put_count(text, b"violations ", counts.violations)?;
    put_count(text, b"restarts ", counts.restarts)?;
    put_count(text, b"holds ", counts.holds)?;
    put_count(text, b"abandons ", counts.abandons)?;
    put_count(text, b"discarded ", counts.discarded)?;
    put_count(text, b"spared ", counts.spared)
}

/// Puts `fault K at L:C` behind the text: the fault's number, its line and its column. An `Err` means that an allocation was
/// refused, and says nothing of the text.
pub fn put_fault(text: &mut Vec<u8>, fault: Fault) -> Result<(), AllocError>
    ensures { OnOk result (text.new.items ≡ text.old.items ++ fault_text fault) }
{
    text.extend_from_slice(b"fault ")?;
    put_number(text, fault.kind.number())?;
    text.extend_from_slice(b" at ")?;
    put_number(text, fault.pos.line)?;
    text.extend_from_slice(b":")?;
    put_number(text, fault.pos.col)
}

fn put_end(text: &mut Vec<u8>, end: End) -> Result<(), AllocError>
    ensures { OnOk result (text.new.items ≡ text.old.items ++ end_line end) }
{
    text.extend_from_slice(b"end ")?;
    match end {
        End::Normal(value) => {
            text.extend_from_slice(b"normal ")?;
            put_number(text, value)?;
        }
        End::Fault(fault) => put_fault(text, fault)?,
    }
    text.extend_from_slice(b"\n")
}

fn put_count(text: &mut Vec<u8>, word: &[u8], n: u64) -> Result<(), AllocError>
    ensures { OnOk result (text.new.items ≡ text.old.items ++ count_line word.now n) }
{
    text.extend_from_slice(word)?;
    put_number(text, n)?;
    text.extend_from_slice(b"\n")
}

// A number in decimal.
pub(crate) fn put_number<I: Integer>(text: &mut Vec<u8>, n: I) -> Result<(), AllocError>
    ensures { OnOk result (text.new.items ≡ text.old.items ++ I.text n) }
{
    let mut buffer = Buffer::new();
    text.extend_from_slice(buffer.format(n).as_bytes())
}
