// A region by itself, from an entry, watched.

ghost use Rattle.std.specs.Prelude.{◌≡◌, ◌≤◌, IfOk, false, min};
ghost use Rattle.hx_code.specs.Region.{opening};
ghost use Rattle.hx_word.specs.Entry.{EntryFits};
ghost use Rattle.hx_word.specs.Opening.{opened_of};
ghost use Rattle.hx_word.specs.Running.{IsOpened};
ghost use Rattle.hx_advise.specs.Course.{Keeps, Followed};
ghost use Rattle.hx_advise.specs.Regions.{IsWatched, IsVerdict};

use crate::watch::Watch;
use hx_code::word::Ask;
use hx_exec::executable::Executable;
use hx_exec::local::Local;
use hx_tree::limits::TEXT_LIMIT;
use hx_word::entry::{Entry, opened_by};
use hx_word::opened::Opened;
use hx_word::text::print;
use std::alloc::{AllocError, Global};

// The most words that are watched, so that the number of each turn is one of 64 bits.
pub(crate) const WORD_LIMIT: u64 = 0xffff_ffff_ffff_fff0;

/// What was watched of a region: how many words it did, whether it ended within them, and what its turns read and wrote.
#[derive(Drop)]
pub struct Watched {
    pub words: u64,
    pub has_ended: bool,
    pub watch: Watch,
}

/// A region as it is watched: where its iteration stands, over which store and behind which text.
#[derive(Drop)]
pub struct Course {
    pub local: Local,
    pub store: Vec<i32>,
    pub text: Vec<u8>,
    pub watch: Watch,
}

/// Runs a region from its entry on one thread, for at most so many words, and watches what its turns read and write. More than
/// 2^64-16 words are as many.
///
/// What it tells are the events of as many words of the plain region, and whether that is over behind them and not sooner; where it isn't,
/// they are all. Where it is, the verdict is the definition's: the turns are independent exactly where none reads, before it writes it, a
/// word that an earlier one wrote.
pub fn watch_region(
    alloc: Global,
    code: &Executable,
    region: u32,
    entry: &Entry,
    steps: u64,
) -> Result<Watched, AllocError>
    requires { EntryFits code.now region entry.now }
    ensures watched { IfOk result (λ w. IsWatched code.now region entry.now w) }
    ensures verdict { IfOk result (λ w. IsVerdict code.now region entry.now w) }
    ensures words { IfOk result (λ w. w.words ≤ min steps WORD_LIMIT) }
    ensures all { IfOk result (λ w. w.has_ended ≡ false → w.words ≡ min steps WORD_LIMIT) }
{
    code.known();
    let opened = opened_by(code, region, entry);
    let mut course = Course {
        local: Local::new(alloc, code)?,
        store: Vec::from_slice(alloc, &entry.store)?,
        text: Vec::with_capacity(alloc, TEXT_LIMIT)?,
        watch: Watch::new(alloc, entry.store.len())?,
    };
    begin(code, &opened, &mut course, 0);
    let (words, has_ended) = follow(code, &opened, &mut course, steps.min(WORD_LIMIT));
    Ok(Watched {
        words,
        has_ended,
        watch: course.watch,
    })
}

// Iteration j begins.
fn begin(code: &Executable, opened: &Opened, course: &mut Course, j: u64)
    requires { IsOpened code.now (opened_of opened.now) }
    ensures { course.new ≡ record course.old { local = opening code.now (opened_of opened.now) j } }
{
    course
        .local
        .begin(code, opened.region, opened.below, &opened.words, j);
}

// Does words of a region from its beginning, up to so many or to its end: how many, and whether it has ended.
fn follow(code: &Executable, opened: &Opened, course: &mut Course, steps: u64) -> (u64, bool)
    requires opened { IsOpened code.now (opened_of opened.now) }
    requires keeps { Keeps code.now (opened_of opened.now) course.old.store.items 0 course.old }
    requires few { steps ≤ WORD_LIMIT }
    ensures followed { Followed code.now (opened_of opened.now) course.old.store.items result.0 result.1 course.new }
    ensures words { result.0 ≤ steps }
    ensures all { result.1 ≡ false → result.0 ≡ steps }
{
    code.known();
    let mut words = 0;
    while words < steps {
        let done = course.local.stretch(code, steps - words);
        words += done.words;
        match done.ask {
            Ask::Goes => {}
            Ask::Loads(word) => {
                words += 1;
                course.watch.read(word);
                let value = course.store[word as usize];
                course.local.load(code, done.next, value);
            }
            Ask::Stores(word, value) => {
                words += 1;
                course.watch.write(word);
                course.store[word as usize] = value;
                course.local.go_on(done.next);
            }
            Ask::Prints(output, _) => {
                words += 1;
                if !print(&mut course.text, opened.printed, output) {
                    return (words, true);
                }
                course.local.go_on(done.next);
            }
            Ask::Turns => {
                words += 1;
                course.watch.end_turn();
                let j = course.watch.turns();
                begin(code, opened, course, j);
            }
            Ask::Leaves => return (words + 1, true),
            Ask::Returns(_) => return (words + 1, true),
            Ask::Faults(_) => return (words + 1, true),
            Ask::Calls(_, _) => unreachable!(),
            Ask::Enters(_, _) => unreachable!(),
        }
    }
    (words, false)
}
