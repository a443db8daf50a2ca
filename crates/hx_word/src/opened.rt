// A region that was opened.

ghost use Rattle.std.specs.Prelude.{◌≡◌, ◌<◌, length};
ghost use Rattle.hx_code.specs.Code.{store_words};
ghost use Rattle.hx_code.specs.Region.{Opened as Was, words_after};
ghost use Rattle.hx_word.specs.Opening.{WordsAfter};

use hx_code::word::Exit;
use hx_exec::carry::settle;
use hx_exec::executable::Executable;
use hx_tree::limits::PRIVATE_LIMIT;

/// A region that was opened: its number, how many calls are below the one that opened it, the private
/// words of that call, and how many bytes were printed before.
#[derive(Clone, Copy)]
pub struct Opened {
    pub region: u32,
    pub below: usize,
    pub words: [i32; PRIVATE_LIMIT],
    pub printed: usize,
}

/// The private words of the call that opened the region, once it has ended: only one that is left
/// gives its cells back, and its counter as it was in the iteration that left it.
pub fn words_behind(
    code: &Executable,
    opened: &Opened,
    exit: Exit,
    iteration: u64,
    store: &[i32],
) -> [i32; PRIVATE_LIMIT]
    requires region { opened.now.region < length code.now.regions }
    requires store { length store.now ≡ store_words code.now }
    ensures { WordsAfter code.now exit opened.now iteration store.now result }
{
    let mut words = opened.words;
    settle_words(code, opened.region, exit, iteration, store, &mut words);
    words
}

/// The private words of the call that opened a region become those behind it, once it has ended: only
/// one that is left gives its cells back, and its counter as it was in the iteration that left it.
#[inline(always)]
pub(crate) fn settle_words(
    code: &Executable,
    region: u32,
    exit: Exit,
    iteration: u64,
    store: &[i32],
    words: &mut [i32; PRIVATE_LIMIT],
)
    requires region { region < length code.now.regions }
    requires store { length store.now ≡ store_words code.now }
    ensures { (o : Was) → o.region ≡ region → o.words ≡ words.old → words.new ≡ words_after code.now exit o iteration store.now }
{
    match exit {
        Exit::Left => {
            let mut counted = [0; PRIVATE_LIMIT];
            settle(code, region, iteration, store, words, &mut counted);
        }
        Exit::Returned(_) => {}
        Exit::Faulted(_) => {}
    }
}
