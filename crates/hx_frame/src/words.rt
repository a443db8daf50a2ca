// The words of an iteration, as far as it can go by itself.

ghost use Rattle.std.specs.Prelude.{◌≡◌};
ghost use Rattle.hx_code.specs.Fits.{FitsLocal};
ghost use Rattle.hx_marks.specs.Table.{look};
ghost use Rattle.hx_speculation.specs.View.{or_first};
ghost use Rattle.hx_frame.specs.Words.{RanTo};

use crate::action::Need;
use hx_buffer::WriteBuffer;
use hx_code::word::Ask;
use hx_exec::executable::Executable;
use hx_exec::local::Local;
use hx_marks::Marks;

// A word of the store, if the iteration has written it, or else if it has read it.
fn known(marks: &Marks, writes: &WriteBuffer, word: u32) -> Option<i32>
    ensures { result ≡ or_first (look writes.now.entries word) (look marks.now.entries word) }
{
    match writes.get(word) {
        Some(value) => Some(value),
        None => marks.get(word),
    }
}

/// Does words up to a limit, and stops before one that needs more than what was read and written.
pub(crate) fn run_words(
    code: &Executable,
    here: &mut Local,
    marks: &Marks,
    writes: &WriteBuffer,
    limit: u64,
) -> Need
    requires { FitsLocal code.now here.old }
    ensures { RanTo code.now marks.now.entries writes.now.entries limit here.old here.new result }
{
    let mut words = 0;
    while words < limit {
        let done = here.stretch(code, limit - words);
        words += done.words;
        match done.ask {
            Ask::Goes => {}
            Ask::Loads(word) => match known(marks, writes, word) {
                None => return Need::ForLoad(word, done.next),
                Some(value) => {
                    here.load(code, done.next, value);
                    words += 1;
                }
            },
            Ask::Stores(word, value) => return Need::ForStore(word, value, done.next),
            ask => return Need::ForHead(ask, done.next),
        }
    }
    Need::Nothing
}
