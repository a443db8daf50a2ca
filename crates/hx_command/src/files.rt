// What a command reads: sources and input texts.

ghost use Rattle.std.specs.Prelude.{◌≡◌, ◌+◌, ◌-◌, ◌^◌, ◌<◌, ◌≤◌, ◌↔◌, ◌⊎◌, length, IfOk, IfErr, IsErrOf};
ghost use Rattle.std.specs.Io.KnownBytes.{IsAtEnd};
ghost use Rattle.hx_tree.specs.declared.limits.TheConstants.{INPUT_LIMIT};
ghost use Rattle.hx_answer.specs.declared.status.Status.TheVariants as status;

use crate::request::Paths;
use hx_answer::{Status, tell_memory, tell_read_failed, tell_refusal};
use hx_case::case_of_input_text;
use hx_device::{ByteSource, ReadError, Reading, read_all};
use hx_run::parse_input;
use hx_tree::limits::INPUT_LIMIT;
use std::alloc::{AllocError, Global};
use std::fs::File;
use std::io::Write;
use std::rt::Files;

// Tells more of what was told, where that is asked for.
fn tell_more<E: Write>(explains: bool, more: Result<Vec<u8>, AllocError>, err: &mut E) {
    if explains {
        if let Ok(text) = more {
            let _ = err.write_all(text.as_slice());
        }
    }
}

// `'PATH'`, and what is said of it.
fn said_of(alloc: Global, path: &str, what: &[u8]) -> Result<Vec<u8>, AllocError> {
    let mut text = Vec::from_slice(alloc, b"'")?;
    text.extend_from_slice(path.as_bytes())?;
    text.extend_from_slice(what)?;
    Ok(text)
}

/// The source in a file that opens, of which no read has failed yet.
pub(crate) fn open_source<R: Files + AllocGlobal, E: Write>(
    rt: &R,
    path: &str,
    explains: bool,
    err: &mut E,
) -> Result<Reading<R::File>, Status>
    ensures { IfOk result (λ s. s.failures ≡ 0) }
{
    match File::open(rt, path) {
        Ok(file) => Ok(Reading::new(file)),
        Err(_) => {
            let status = tell_read_failed(err);
            tell_more(
                explains,
                said_of(rt.alloc(), path, b"' can't be opened.\n"),
                err,
            );
            Err(status)
        }
    }
}

// The bytes of a source of input, or its first 1,048,577: the device status comes exactly where the source has failed.
fn bytes_of_input<S: ByteSource, E: Write>(
    alloc: Global,
    source: &mut S,
    path: &str,
    explains: bool,
    err: &mut E,
) -> Result<Vec<u8>, Status>
    requires { S.failures source.old < 2 ^ 64 - 1 }
    ensures device { IsErrOf result status.Device ↔ (S.failures source.new ≡ S.failures source.old + 1) }
    ensures refused { IfErr result (λ s. (s ≡ status.Device) ⊎ (s ≡ status.Memory)) }
    ensures whole { IfOk result (λ v. length v.items ≤ INPUT_LIMIT → IsAtEnd (S.rest source.new)) }
{
    match read_all(alloc, source, INPUT_LIMIT + 1) {
        Ok(text) => Ok(text),
        Err(ReadError::Failed) => {
            let status = tell_read_failed(err);
            tell_more(explains, said_of(alloc, path, b"' can't be read.\n"), err);
            Err(status)
        }
        Err(ReadError::Memory) => Err(tell_memory(err)),
    }
}

// The bytes of an input text, or its first 1,048,577.
fn read_input<R: Files + AllocGlobal, E: Write>(
    rt: &R,
    path: &str,
    explains: bool,
    err: &mut E,
) -> Result<Vec<u8>, Status> {
    let mut source = open_source(rt, path, explains, err)?;
    bytes_of_input(rt.alloc(), &mut source, path, explains, err)
}

/// The numbers of the input file, or none where none is named.
pub(crate) fn input_of<R: Files + AllocGlobal, E: Write>(
    rt: &R,
    paths: &Paths<'_>,
    err: &mut E,
) -> Result<Vec<i32>, Status> {
    let Some(path) = paths.input else {
        return Ok(Vec::new(rt.alloc()));
    };
    let text = read_input(rt, path, paths.explains, err)?;
    match parse_input(rt.alloc(), text.as_slice()) {
        Ok(numbers) => Ok(numbers),
        Err(refusal) => {
            let status = tell_refusal(err, &refusal);
            if status == Status::Refused {
                let more = case_of_input_text(rt.alloc(), text.as_slice());
                tell_more(paths.explains, more, err);
            }
            Err(status)
        }
    }
}
