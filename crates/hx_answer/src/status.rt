// How a command ends, and what is told of it on the error stream.

ghost use Rattle.std.specs.Prelude.{◌≡◌};
ghost use Rattle.hx_answer.specs.Statuses.{exit_status, status_of_end, status_of_execution, status_of_no_trace, status_of_refusal};
ghost use Rattle.hx_answer.specs.declared.status.Status.TheVariants as status;

use crate::replaying::NoTrace;
use hx_run::{Done, Refusal};
use hx_trace::TraceError;
use hx_tree::outcome::End;
use std::io::Write;

/// How a command ends.
#[derive(Clone, Copy, PartialEq, Eq, Debug)]
pub enum Status {
    /// A normal end, whatever main returned, or what was asked for was printed.
    Done,
    /// The program ended by a fault.
    Fault,
    /// The source, its input, the settings, the schedule or the command line were refused, or the run isn't over.
    Refused,
    /// Memory was refused.
    Memory,
    /// A file or a stream failed.
    Device,
}

impl Status {
    /// The exit status: 0 to 4, in the order of the variants.
    pub fn code(self) -> u8
        ensures { result ≡ exit_status self }
    {
        match self {
            Status::Done => 0,
            Status::Fault => 1,
            Status::Refused => 2,
            Status::Memory => 3,
            Status::Device => 4,
        }
    }
}

/// A text for a person, which is lost where the stream takes none.
pub(crate) fn tell<E: Write>(err: &mut E, line: &[u8]) {
    let _ = err.write_all(line);
}

/// A file that doesn't open or can't be read.
pub fn tell_read_failed<E: Write>(err: &mut E) -> Status
    ensures { result ≡ status.Device }
{
    tell(err, b"hydra: read failed\n");
    Status::Device
}

/// An output that takes no more.
pub fn tell_write_failed<E: Write>(err: &mut E) -> Status
    ensures { result ≡ status.Device }
{
    tell(err, b"hydra: write failed\n");
    Status::Device
}

/// Want of memory.
pub fn tell_memory<E: Write>(err: &mut E) -> Status
    ensures { result ≡ status.Memory }
{
    tell(err, b"hydra: memory\n");
    Status::Memory
}

/// A number that no refusal and no fault has.
pub fn tell_no_number<E: Write>(err: &mut E) -> Status
    ensures { result ≡ status.Refused }
{
    tell(err, b"hydra: no such number\n");
    Status::Refused
}

// A run that isn't over.
fn tell_not_ended<E: Write>(err: &mut E, steps: u64) -> Status
    ensures { result ≡ status.Refused }
{
    let _ = writeln!(err, "hydra: not ended after {steps} steps");
    Status::Refused
}

// A number, and where it has one, its place.
fn tell_number<E: Write>(err: &mut E, refusal: &Refusal) -> Status
    ensures { result ≡ status.Refused }
{
    let number = refusal.number();
    let _ = match refusal.pos() {
        Some(pos) => writeln!(err, "hydra: refused {number} at {pos}"),
        None => writeln!(err, "hydra: refused {number}"),
    };
    Status::Refused
}

fn tell_device<E: Write>(err: &mut E, refusal: &Refusal) -> Status
    ensures { result ≡ status.Device }
{
    match refusal {
        Refusal::ReadFailed => tell_read_failed(err),
        _ => tell_write_failed(err),
    }
}

/// A refusal, with its number and, where it has one, its place; want of memory and failed devices have lines of their own.
pub fn tell_refusal<E: Write>(err: &mut E, refusal: &Refusal) -> Status
    ensures { result ≡ status_of_refusal refusal.now }
{
    if refusal.is_memory() {
        tell_memory(err)
    } else if refusal.is_of_device() {
        tell_device(err, refusal)
    } else {
        tell_number(err, refusal)
    }
}

// The end of a run, which is told where it is a fault.
fn tell_end<E: Write>(err: &mut E, end: End) -> Status
    ensures { result ≡ status_of_end end }
{
    match end {
        End::Normal(_) => Status::Done,
        End::Fault(fault) => {
            let kind = fault.kind.number();
            let pos = fault.pos;
            let _ = writeln!(err, "hydra: fault {kind} at {pos}");
            Status::Fault
        }
    }
}

// What an execution has come to. `steps` are those that it was given.
pub(crate) fn tell_execution<E: Write>(
    err: &mut E,
    executed: &Result<Done, Refusal>,
    steps: u64,
) -> Status
    ensures { result ≡ status_of_execution executed.now }
{
    match executed {
        Ok(Done::Finished(end)) => tell_end(err, *end),
        Ok(Done::NotEnded) => tell_not_ended(err, steps),
        Err(refusal) => tell_refusal(err, refusal),
    }
}

// Why there is no trace. `steps` are those that the run to the region's entry was given.
pub(crate) fn tell_no_trace<E: Write>(err: &mut E, why: NoTrace, steps: u64) -> Status
    ensures { result ≡ status_of_no_trace why }
{
    match why {
        NoTrace::Refused(refusal) => tell_refusal(err, &refusal),
        NoTrace::NoEntry => {
            tell(err, b"hydra: no such region entry\n");
            Status::Refused
        }
        NoTrace::NotEnded => tell_not_ended(err, steps),
        NoTrace::Schedule(TraceError::NoSuchWorker) => {
            tell(err, b"hydra: refused 40\n");
            Status::Refused
        }
        NoTrace::Schedule(TraceError::Memory) => tell_memory(err),
    }
}
