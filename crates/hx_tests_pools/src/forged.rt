// Boards that are handed what isn't theirs: another board's token, another worker's, a frame of an attempt that was squashed, a frame
// of another code, another job and another entry. Each is refused, nothing is committed, and each board still comes to its end.

ghost use Rattle.std.specs.Prelude.{◌≡◌, ◌<◌, length, IsTrue};
ghost use Rattle.hx_word.specs.Entry.{EntryFits};

use crate::machines::{ROOMS, boxed, code_for, expect, first_entry, frame_for, listed};
use hx_board::{Board, Head, Headed, Job, Loaded, Settled, Started, State, Stored};
use hx_exec::executable::Executable;
use hx_frame::{Frame, Stop};
use hx_word::entry::{Entry, RegionEnd};
use std::alloc::Global;
use std::process::Abort;

/// Two loops, each turn of which prints what was counted so far. The first one comes to 3 and has printed 0, 1 and 2.
const COUNTED: &[u8] =
    b"int c; int main(){ pwhile(c<3){ print(c); c=c+1; } pwhile(c<5){ print(c); c=c+1; } }";

/// What the first one prints.
const PRINTED: &[u8] = b"0\n1\n2\n";

/// The same loop over another number.
const COUNTED_ON: &[u8] = b"int c; int main(){ pwhile(c<4){ print(c); c=c+1; } }";

/// A turn that stores what the next one has read.
const SQUASHING: &[u8] = b"int c; int main(){ pwhile(c<3){ c=c+1; } }";

/// More calls than a turn makes here, and more turns than a loop has.
const MANY: u32 = 100;

/// A board of two workers.
#[derive(Drop)]
struct Pair<'c> {
    board: Board<'c>,
    ghost two: { board.setup.slots ≡ 2 },
}

// ---- what is committed

/// The committed store and text.
#[derive(Drop)]
struct Committed {
    store: Vec<i32>,
    text: Vec<u8>,
}

fn committed_by(rt: &impl Abort, alloc: Global, board: &Board<'_>) -> Box<Committed> {
    let (store, text, _) = board.settled();
    let store = listed(rt, alloc, store);
    let text = listed(rt, alloc, text);
    boxed(rt, alloc, Committed { store, text })
}

// Whether a running board has committed just this.
fn shows(board: &Board<'_>, committed: &Committed) -> bool {
    let (store, text, state) = board.settled();
    if state != State::Running {
        return false;
    }
    store == committed.store.as_slice() && text == committed.text.as_slice()
}

// Whether the loop was left with this number in its first word, and this text.
fn is_left(board: &Board<'_>, word: i32, wanted: &[u8]) -> bool {
    let (store, text, state) = board.settled();
    if state != State::Left || text != wanted {
        return false;
    }
    match store.first() {
        Some(first) => *first == word,
        None => false,
    }
}

// ---- one call each

// Whether the store has this word.
fn has_word(board: &Board<'_>, word: u32) -> bool
    ensures { IsTrue result → word < length board.now.store }
{
    let (store, _, _) = board.settled();
    (word as usize) < store.len()
}

fn load(rt: &impl Abort, pair: &mut Pair<'_>, frame: &mut Frame<'_>, word: u32) {
    let tag = frame.tagged();
    if !has_word(&pair.board, word) {
        rt.panic("no such word");
    }
    match pair.board.load(tag.worker, tag.attempt, word) {
        Loaded::Value(value) => frame.loaded(value),
        _ => rt.panic("a load is lost"),
    }
}

fn store(rt: &impl Abort, pair: &mut Pair<'_>, frame: &mut Frame<'_>, word: u32, value: i32) {
    let tag = frame.tagged();
    if !has_word(&pair.board, word) {
        rt.panic("no such word");
    }
    match pair.board.store(tag.worker, tag.attempt, word, value) {
        Stored::Done => frame.stored(),
        _ => rt.panic("a store is lost"),
    }
}

// One stretch, and the call that it stopped for; whether it waits to be the head.
fn step(rt: &impl Abort, pair: &mut Pair<'_>, frame: &mut Frame<'_>) -> bool {
    match frame.run(1024) {
        Stop::NeedLoad(word) => load(rt, pair, frame, word),
        Stop::NeedStore(word, value) => store(rt, pair, frame, word, value),
        Stop::NeedHead(_) => return true,
        Stop::Limit => {}
    }
    false
}

// Runs a frame until it waits to be the head.
fn waits(rt: &impl Abort, pair: &mut Pair<'_>, frame: &mut Frame<'_>) {
    for _ in 0..MANY {
        if step(rt, pair, frame) {
            return;
        }
    }
    rt.panic("it never waits")
}

// Gives a frame the worker's iteration.
fn starts(rt: &impl Abort, pair: &mut Pair<'_>, worker: u32, frame: &mut Frame<'_>)
    requires { worker < 2 }
{
    match pair.board.start(worker, frame) {
        Started::Go { .. } => {}
        _ => rt.panic("no iteration"),
    }
}

// Gives it, and runs the frame until it waits to be the head.
fn begins(rt: &impl Abort, pair: &mut Pair<'_>, worker: u32, frame: &mut Frame<'_>)
    requires { worker < 2 }
{
    starts(rt, pair, worker, frame);
    waits(rt, pair, frame);
}

// The right to settle.
fn head_of(rt: &impl Abort, pair: &mut Pair<'_>, frame: &Frame<'_>) -> Head {
    let tag = frame.tagged();
    match pair.board.head(tag.worker, tag.attempt) {
        Headed::Yours(head) => head,
        _ => rt.panic("no token"),
    }
}

// Settles what a frame waits with; the right to settle again, where it goes on.
fn settles(
    rt: &impl Abort,
    pair: &mut Pair<'_>,
    head: Head,
    frame: &mut Frame<'_>,
) -> Option<Head> {
    match pair.board.settle(head, frame) {
        Settled::Again(again) => Some(again),
        Settled::Passed | Settled::Ended => None,
        Settled::NotThisFrame => rt.panic("its own frame is refused"),
    }
}

// Settles the rest of the turn of the head's iteration, which waits.
fn passes(rt: &impl Abort, pair: &mut Pair<'_>, frame: &mut Frame<'_>) {
    let mut head = head_of(rt, pair, frame);
    for _ in 0..MANY {
        match settles(rt, pair, head, frame) {
            Some(again) => head = again,
            None => return,
        }
        waits(rt, pair, frame);
    }
    rt.panic("a turn goes on")
}

// Worker 0 goes on until the loop has ended.
fn ends(rt: &impl Abort, pair: &mut Pair<'_>, frame: &mut Frame<'_>) {
    for _ in 0..MANY {
        match pair.board.start(0, frame) {
            Started::Go { .. } => {}
            Started::Ended => return,
            Started::NotThisFrame => rt.panic("its own frame is refused"),
        }
        waits(rt, pair, frame);
        passes(rt, pair, frame);
    }
    rt.panic("a loop goes on")
}

// ---- what must not be taken

// A token and a frame are refused, and nothing is committed.
fn refuses(rt: &impl Abort, alloc: Global, pair: &mut Pair<'_>, head: Head, frame: &mut Frame<'_>) {
    let before = committed_by(rt, alloc, &pair.board);
    match pair.board.settle(head, frame) {
        Settled::NotThisFrame => {}
        Settled::Again(_head) => rt.panic("it goes on"),
        Settled::Passed | Settled::Ended => rt.panic("it is taken"),
    }
    expect(rt, shows(&pair.board, &before), b"it is committed");
}

// A frame gets no iteration, and nothing is committed.
fn gets_no_iteration(rt: &impl Abort, alloc: Global, pair: &mut Pair<'_>, frame: &mut Frame<'_>) {
    let before = committed_by(rt, alloc, &pair.board);
    match pair.board.start(0, frame) {
        Started::NotThisFrame => {}
        _ => rt.panic("it is taken"),
    }
    expect(rt, shows(&pair.board, &before), b"it is committed");
}

// No end is handed out, and the board is given back.
fn has_no_end<'c>(rt: &impl Abort, pair: Pair<'c>, job: &Job<'_>, entry: &Entry) -> Pair<'c> {
    match pair.board.finish(job, entry) {
        Ok(_end) => rt.panic("an end"),
        Err(board) => Pair { board },
    }
}

// ---- the boards and frames of a trial

fn pair_for<'c>(rt: &impl Abort, alloc: Global, job: Job<'c>, entry: &Entry) -> Pair<'c>
    requires { EntryFits job.code.now job.region entry.now }
{
    match Board::new(alloc, job, entry, 2, ROOMS) {
        Ok(board) => Pair { board },
        Err(_) => rt.panic("no memory"),
    }
}

// The same in a box, where it is let go by a call.
fn board_for<'c>(rt: &impl Abort, alloc: Global, job: Job<'c>, entry: &Entry) -> Box<Pair<'c>>
    requires { EntryFits job.code.now job.region entry.now }
{
    boxed(rt, alloc, pair_for(rt, alloc, job, entry))
}

fn frame_of<'c>(rt: &impl Abort, alloc: Global, code: &'c Executable) -> Box<Frame<'c>> {
    boxed(rt, alloc, frame_for(rt, alloc, code))
}

// A board that goes on by `abandon` and `start`, and comes to the end of the printed loop.
fn still_ends(rt: &impl Abort, pair: &mut Pair<'_>, frame: &mut Frame<'_>) {
    pair.board.abandon(0);
    ends(rt, pair, frame);
    expect(rt, is_left(&pair.board, 3, PRINTED), b"another end");
}

// One of two boards over the same code is at iteration 0 and the other at 1, and each is handed the other's token. Both
// come to their end.
fn exchanged(
    rt: &impl Abort,
    alloc: Global,
    one: &mut Pair<'_>,
    frame: &mut Frame<'_>,
    other: &mut Pair<'_>,
    ahead: &mut Frame<'_>,
) {
    begins(rt, one, 0, frame);
    begins(rt, other, 0, ahead);
    passes(rt, other, ahead);
    begins(rt, other, 0, ahead);
    let first = head_of(rt, one, frame);
    let second = head_of(rt, other, ahead);
    refuses(rt, alloc, one, second, frame);
    refuses(rt, alloc, other, first, ahead);
    still_ends(rt, one, frame);
    still_ends(rt, other, ahead);
}

fn two_boards(rt: &impl Abort, alloc: Global, job: Job<'_>, entry: &Entry)
    requires { EntryFits job.code.now job.region entry.now }
{
    let mut one = board_for(rt, alloc, job, entry);
    let mut other = board_for(rt, alloc, job, entry);
    let mut frame = frame_of(rt, alloc, job.code);
    let mut ahead = frame_of(rt, alloc, job.code);
    exchanged(rt, alloc, &mut one, &mut frame, &mut other, &mut ahead);
}

// Worker 1 has the head's iteration, and its token goes with worker 0's frame.
fn lent(
    rt: &impl Abort,
    alloc: Global,
    pair: &mut Pair<'_>,
    heads: &mut Frame<'_>,
    frame: &mut Frame<'_>,
) {
    begins(rt, pair, 1, heads);
    begins(rt, pair, 0, frame);
    let head = head_of(rt, pair, heads);
    refuses(rt, alloc, pair, head, frame);
    pair.board.abandon(1);
    begins(rt, pair, 1, heads);
    passes(rt, pair, heads);
    still_ends(rt, pair, frame);
}

fn another_worker(rt: &impl Abort, alloc: Global, job: Job<'_>, entry: &Entry)
    requires { EntryFits job.code.now job.region entry.now }
{
    let mut pair = board_for(rt, alloc, job, entry);
    let mut heads = frame_of(rt, alloc, job.code);
    let mut frame = frame_of(rt, alloc, job.code);
    lent(rt, alloc, &mut pair, &mut heads, &mut frame);
}

// What iteration 1 has read is stored by iteration 0, so it begins again.
fn squashed(rt: &impl Abort, pair: &mut Pair<'_>, frame: &mut Frame<'_>, old: &mut Frame<'_>) {
    starts(rt, pair, 0, frame);
    begins(rt, pair, 1, old);
    waits(rt, pair, frame);
    passes(rt, pair, frame);
}

// It begins again in another frame, and the token of that attempt goes with the frame of the one before.
fn mixed(
    rt: &impl Abort,
    alloc: Global,
    pair: &mut Pair<'_>,
    old: &mut Frame<'_>,
    new: &mut Frame<'_>,
) {
    begins(rt, pair, 1, new);
    expect(rt, old.tagged().attempt == 1, b"another old attempt");
    expect(rt, new.tagged().attempt == 2, b"another new attempt");
    let head = head_of(rt, pair, new);
    refuses(rt, alloc, pair, head, old);
    pair.board.abandon(1);
    begins(rt, pair, 1, new);
    passes(rt, pair, new);
}

// An attempt is squashed and begins again in another frame, and the loop comes to its end.
fn replaced(
    rt: &impl Abort,
    alloc: Global,
    pair: &mut Pair<'_>,
    frame: &mut Frame<'_>,
    old: &mut Frame<'_>,
    new: &mut Frame<'_>,
) {
    squashed(rt, pair, frame, old);
    mixed(rt, alloc, pair, old, new);
    ends(rt, pair, frame);
    expect(rt, is_left(&pair.board, 3, b""), b"another end");
}

fn squashed_attempt(rt: &impl Abort, alloc: Global, job: Job<'_>, entry: &Entry)
    requires { EntryFits job.code.now job.region entry.now }
{
    let mut pair = board_for(rt, alloc, job, entry);
    let mut frame = frame_of(rt, alloc, job.code);
    let mut old = frame_of(rt, alloc, job.code);
    let mut new = frame_of(rt, alloc, job.code);
    replaced(rt, alloc, &mut pair, &mut frame, &mut old, &mut new);
}

// A frame of another code gets no iteration, and one of its own goes on.
fn foreign_first(
    rt: &impl Abort,
    alloc: Global,
    pair: &mut Pair<'_>,
    foreign: &mut Frame<'_>,
    frame: &mut Frame<'_>,
) {
    gets_no_iteration(rt, alloc, pair, foreign);
    still_ends(rt, pair, frame);
}

fn another_code(rt: &impl Abort, alloc: Global, job: Job<'_>, entry: &Entry)
    requires { EntryFits job.code.now job.region entry.now }
{
    let code = code_for(rt, alloc, COUNTED_ON);
    let mut foreign = frame_of(rt, alloc, &code);
    let mut frame = frame_of(rt, alloc, job.code);
    let mut pair = board_for(rt, alloc, job, entry);
    foreign_first(rt, alloc, &mut pair, &mut foreign, &mut frame);
}

// The same entry but for its first word.
fn another_entry(rt: &impl Abort, alloc: Global, entry: &Entry) -> Entry {
    let mut store = listed(rt, alloc, &entry.store);
    if let Some(word) = store.first_mut() {
        *word = 1;
    }
    Entry {
        store,
        locals: listed(rt, alloc, &entry.locals),
        depth: entry.depth,
        text_len: entry.text_len,
    }
}

fn is_whole(end: &RegionEnd) -> bool {
    end.text.as_slice() == PRINTED && end.counts.turns == 3
}

fn is_finished(rt: &impl Abort, pair: Pair<'_>, job: &Job<'_>, entry: &Entry) {
    match pair.board.finish(job, entry) {
        Ok(end) => expect(rt, is_whole(&end), b"another end"),
        Err(_) => rt.panic("no end"),
    }
}

// An end is handed out for no other job, for no other entry, and not before there is one.
fn wrong_finish(rt: &impl Abort, alloc: Global, job: Job<'_>, entry: &Entry)
    requires { EntryFits job.code.now job.region entry.now }
{
    let another = another_entry(rt, alloc, entry);
    let second = Job {
        code: job.code,
        region: 1,
    };
    let mut frame = frame_of(rt, alloc, job.code);
    let mut pair = has_no_end(rt, pair_for(rt, alloc, job, entry), &job, entry);
    ends(rt, &mut pair, &mut frame);
    let pair = has_no_end(rt, pair, &second, entry);
    let pair = has_no_end(rt, pair, &job, &another);
    expect(rt, is_left(&pair.board, 3, PRINTED), b"another end");
    is_finished(rt, pair, &job, entry);
}

/// What is tried.
#[derive(Clone, Copy)]
enum Trial {
    TwoBoards,
    AnotherWorker,
    SquashedAttempt,
    AnotherCode,
    WrongFinish,
}

fn tries_over(rt: &impl Abort, alloc: Global, job: Job<'_>, entry: &Entry, trial: Trial)
    requires { EntryFits job.code.now job.region entry.now }
{
    match trial {
        Trial::TwoBoards => two_boards(rt, alloc, job, entry),
        Trial::AnotherWorker => another_worker(rt, alloc, job, entry),
        Trial::SquashedAttempt => squashed_attempt(rt, alloc, job, entry),
        Trial::AnotherCode => another_code(rt, alloc, job, entry),
        Trial::WrongFinish => wrong_finish(rt, alloc, job, entry),
    }
}

// The same at the first region of a source.
fn tries(rt: &impl Abort, alloc: Global, source: &[u8], trial: Trial) {
    let code = code_for(rt, alloc, source);
    let (region, entry) = first_entry(rt, alloc, &code);
    let job = Job {
        code: &code,
        region,
    };
    tries_over(rt, alloc, job, &entry, trial);
}

#[test]
fn boards_refuse_each_others_tokens(rt: HostRuntime) {
    tries(&rt, rt.alloc(), COUNTED, Trial::TwoBoards);
}

#[test]
fn a_token_goes_with_no_frame_of_another_worker(rt: HostRuntime) {
    tries(&rt, rt.alloc(), COUNTED, Trial::AnotherWorker);
}

#[test]
fn a_squashed_attempt_is_not_settled(rt: HostRuntime) {
    tries(&rt, rt.alloc(), SQUASHING, Trial::SquashedAttempt);
}

#[test]
fn a_frame_of_another_code_gets_no_iteration(rt: HostRuntime) {
    tries(&rt, rt.alloc(), COUNTED, Trial::AnotherCode);
}

#[test]
fn an_end_is_for_its_own_job_and_entry(rt: HostRuntime) {
    tries(&rt, rt.alloc(), COUNTED, Trial::WrongFinish);
}
