// One entry of a schedule.

ghost use Rattle.std.specs.Prelude.{◌≡◌, ◌<◌, ℕ, ℤ, length, Some, None, true, false};
ghost use Rattle.hx_speculation.specs.Board.{Load, Write, Head as AskHead, Alive as AskAlive, Settle};
ghost use Rattle.hx_speculation.specs.Frame.{Nothing, ForLoad, ForStore};
ghost use Rattle.hx_speculation.specs.Replay.{at_stop, at_head, entry_of, stops, spends_token};
ghost use Rattle.hx_board.specs.Board.{board_of};
ghost use Rattle.hx_board.specs.Calls.{IsOwnFrame};
ghost use Rattle.hx_board.specs.Ends.{state_of};
ghost use Rattle.hx_trace.specs.Events.{deed_by, end_deed, event_of};
ghost use Rattle.hx_trace.specs.Tokens.{IsOutOf};
ghost use Rattle.hx_trace.specs.Turns.{course_of, running_of, IsInHand, Moves};

use crate::event::{Deed, Event};
use crate::sources::{last_of, source_on};
use crate::worker::{Entered, Worker};
use hx_board::{Alive, Board, Head, Headed, Loaded, Settled, Started, State, Stored};
use hx_frame::{Frame, Stop, Tag};

/// How many words a stretch has at most.
pub(crate) const STRETCH: u64 = 1024;

/// A worker without a running frame asks for an iteration; another runs a stretch of its frame and hands on what that stopped for. It has
/// this token in hand, and then that one. The event tells what it did.
pub(crate) fn enter(
    board: &mut Board<'_>,
    worker: &mut Worker<'_>,
    number: u32,
    token: Option<Head>,
) -> (Option<Head>, Event)
    requires worker { number < board.old.setup.slots }
    requires own { IsOwnFrame board.old.setup worker.old.frame }
    requires token { IsInHand number board.old worker.old token }
    ensures moves { Moves (λ d. entry_of (course_of board.old.setup) number d (running_of worker.old token)) number board.old token board.new worker.new result.0 }
    ensures told { result.1 ≡ event_of (course_of board.old.setup) number (board_of board.old) (running_of worker.old token) }
{
    if !worker.is_running {
        let event = start(board, worker, number);
        return (token, event);
    }
    let stop = worker.frame.run(STRETCH);
    let tag = worker.frame.tagged();
    match stop {
        Stop::NeedLoad(word) => told(tag, number, load(board, worker, number, word, token)),
        Stop::NeedStore(word, value) => {
            told(
                tag,
                number,
                store(board, worker, number, word, value, token),
            )
        }
        Stop::NeedHead(_) => match token {
            Some(head) => told(tag, number, settle(board, worker, number, head)),
            None => told(tag, number, ask_head(board, worker, number)),
        },
        Stop::Limit => told(tag, number, look(board, worker, number, token)),
    }
}

// What a worker did in an attempt.
fn told(tag: Tag, number: u32, entered: Entered) -> (Option<Head>, Event)
    ensures token { result.0 ≡ entered.token }
    ensures event { result.1 ≡ record { worker = number; iteration = tag.iteration; attempt = tag.attempt; deed = entered.deed } }
{
    let Entered { token, deed } = entered;
    let event = Event {
        worker: number,
        iteration: tag.iteration,
        attempt: tag.attempt,
        deed,
    };
    (token, event)
}

fn start(board: &mut Board<'_>, worker: &mut Worker<'_>, number: u32) -> Event
    requires worker { number < board.old.setup.slots }
    requires own { IsOwnFrame board.old.setup worker.old.frame }
    requires stands { worker.old.is_running ≡ false }
    ensures moves { Moves (λ d. entry_of (course_of board.old.setup) number d None) number board.old None board.new worker.new None }
    ensures told { result ≡ event_of (course_of board.old.setup) number (board_of board.old) None }
{
    match board.start_own(number, &mut worker.frame) {
        Started::Go { iteration, attempt } => {
            worker.is_running = true;
            Event {
                worker: number,
                iteration,
                attempt,
                deed: Deed::Starts,
            }
        }
        Started::NotThisFrame | Started::Ended => Event {
            worker: number,
            iteration: 0,
            attempt: 0,
            deed: Deed::FindsEnd,
        },
    }
}

fn load(
    board: &mut Board<'_>,
    worker: &mut Worker<'_>,
    number: u32,
    word: u32,
    token: Option<Head>,
) -> Entered
    requires own { IsOwnFrame board.old.setup worker.old.frame }
    requires runs { worker.old.is_running ≡ true }
    requires needs { worker.old.frame.frame.need ≡ ForLoad word }
    requires token { IsInHand number board.old worker.old token }
    ensures moves { Moves (λ d. at_stop (course_of board.old.setup) number d worker.old.frame.frame token (ForLoad word)) number board.old token board.new worker.new result.token }
    ensures told { result.deed ≡ deed_by (course_of board.old.setup) (board_of board.old) (Load number worker.old.frame.frame.attempt word) }
{
    words_fit(board, &worker.frame);
    let attempt = worker.frame.tagged().attempt;
    let source = source_on(board, number, attempt, word);
    match board.load(number, attempt, word) {
        Loaded::Value(value) => {
            worker.frame.loaded(value);
            let deed = Deed::Loads {
                word,
                value,
                source,
            };
            Entered { token, deed }
        }
        Loaded::Full => {
            worker.frame.hold();
            let deed = Deed::FindsMarksFull { word };
            Entered { token, deed }
        }
        Loaded::Squashed => {
            stop(board, worker, number, token);
            let deed = Deed::IsSquashed;
            Entered { token: None, deed }
        }
        Loaded::Ended => {
            stop(board, worker, number, token);
            let deed = Deed::FindsEnd;
            Entered { token: None, deed }
        }
    }
}

fn store(
    board: &mut Board<'_>,
    worker: &mut Worker<'_>,
    number: u32,
    word: u32,
    value: i32,
    token: Option<Head>,
) -> Entered
    requires own { IsOwnFrame board.old.setup worker.old.frame }
    requires runs { worker.old.is_running ≡ true }
    requires needs { worker.old.frame.frame.need ≡ ForStore word value }
    requires token { IsInHand number board.old worker.old token }
    ensures moves { Moves (λ d. at_stop (course_of board.old.setup) number d worker.old.frame.frame token (ForStore word value)) number board.old token board.new worker.new result.token }
    ensures told { result.deed ≡ deed_by (course_of board.old.setup) (board_of board.old) (Write number worker.old.frame.frame.attempt word value) }
{
    words_fit(board, &worker.frame);
    let attempt = worker.frame.tagged().attempt;
    let before = board.counts().restarts;
    let last = last_of(board);
    match board.store(number, attempt, word, value) {
        Stored::Done => {
            worker.frame.stored();
            let restarts = board.counts().restarts.saturating_sub(before);
            let deed = Deed::Stores {
                word,
                value,
                restarts,
                last,
            };
            Entered { token, deed }
        }
        Stored::Full => {
            worker.frame.hold();
            let deed = Deed::FindsBufferFull { word, value };
            Entered { token, deed }
        }
        Stored::Squashed => {
            stop(board, worker, number, token);
            let deed = Deed::IsSquashed;
            Entered { token: None, deed }
        }
        Stored::Ended => {
            stop(board, worker, number, token);
            let deed = Deed::FindsEnd;
            Entered { token: None, deed }
        }
    }
}

// After as many words as a stretch may have.
fn look(board: &mut Board<'_>, worker: &mut Worker<'_>, number: u32, token: Option<Head>) -> Entered
    requires own { IsOwnFrame board.old.setup worker.old.frame }
    requires runs { worker.old.is_running ≡ true }
    requires token { IsInHand number board.old worker.old token }
    ensures moves { Moves (λ d. at_stop (course_of board.old.setup) number d worker.old.frame.frame token Nothing) number board.old token board.new worker.new result.token }
    ensures told { result.deed ≡ deed_by (course_of board.old.setup) (board_of board.old) (AskAlive number worker.old.frame.frame.attempt) }
{
    let attempt = worker.frame.tagged().attempt;
    match board.alive(number, attempt) {
        Alive::Live => {
            let deed = Deed::ComputesOn;
            Entered { token, deed }
        }
        Alive::Squashed => {
            stop(board, worker, number, token);
            let deed = Deed::IsSquashed;
            Entered { token: None, deed }
        }
        Alive::Ended => {
            stop(board, worker, number, token);
            let deed = Deed::FindsEnd;
            Entered { token: None, deed }
        }
    }
}

fn ask_head(board: &mut Board<'_>, worker: &mut Worker<'_>, number: u32) -> Entered
    requires own { IsOwnFrame board.old.setup worker.old.frame }
    requires runs { worker.old.is_running ≡ true }
    ensures moves { Moves (λ d. at_head (course_of board.old.setup) number d worker.old.frame.frame None) number board.old None board.new worker.new result.token }
    ensures told { result.deed ≡ deed_by (course_of board.old.setup) (board_of board.old) (AskHead number worker.old.frame.frame.attempt) }
{
    let attempt = worker.frame.tagged().attempt;
    match board.head(number, attempt) {
        Headed::Yours(head) => {
            let deed = Deed::GetsHead;
            let token = Some(head);
            Entered { token, deed }
        }
        Headed::NotYet => {
            let deed = Deed::Waits;
            Entered { token: None, deed }
        }
        Headed::Squashed => {
            worker.is_running = false;
            let deed = Deed::IsSquashed;
            Entered { token: None, deed }
        }
        Headed::Ended => {
            worker.is_running = false;
            let deed = Deed::FindsEnd;
            Entered { token: None, deed }
        }
    }
}

fn settle(board: &mut Board<'_>, worker: &mut Worker<'_>, number: u32, head: Head) -> Entered
    requires own { IsOwnFrame board.old.setup worker.old.frame }
    requires runs { worker.old.is_running ≡ true }
    requires holder { head.worker ≡ number }
    ensures moves { Moves (λ d. at_head (course_of board.old.setup) number d worker.old.frame.frame (Some head)) number board.old (Some head) board.new worker.new result.token }
    ensures told { result.deed ≡ deed_by (course_of board.old.setup) (board_of board.old) (Settle head worker.old.frame.frame true) }
{
    let (from, state) = settled_so_far(board);
    let before = board.counts().discarded;
    let last = last_of(board);
    match board.settle_own(head, &mut worker.frame) {
        Settled::Again(head) => {
            let (to, _) = settled_so_far(board);
            let deed = Deed::GoesOn { from, to };
            let token = Some(head);
            Entered { token, deed }
        }
        Settled::NotThisFrame => {
            board.abandon(number);
            worker.is_running = false;
            let deed = Deed::IsRefused;
            Entered { token: None, deed }
        }
        Settled::Passed => {
            worker.is_running = false;
            let deed = Deed::Passes;
            Entered { token: None, deed }
        }
        Settled::Ended => {
            worker.is_running = false;
            let (_, now) = settled_so_far(board);
            let dropped = board.counts().discarded.saturating_sub(before);
            let deed = end_deed(state, now, dropped, last);
            Entered { token: None, deed }
        }
    }
}

// How many bytes the region has printed, and how far it is.
fn settled_so_far(board: &Board<'_>) -> (usize, State)
    ensures text { result.0 ≡ length board.now.text }
    ensures state { result.1 ≡ state_of board.now.exit }
{
    let (_, text, state) = board.settled();
    (text.len(), state)
}

// What comes of settling where the region has ended.
fn end_deed(before: State, state: State, dropped: u64, last: u64) -> Deed
    ensures { result ≡ end_deed before state dropped last }
{
    match before {
        State::Running => Deed::Ends {
            state,
            dropped,
            last,
        },
        State::Left | State::Returned(_) | State::Faulted(_) => Deed::FindsEnd,
    }
}

// The worker's frame runs no more, and a token in its hand is spent.
fn stop(board: &mut Board<'_>, worker: &mut Worker<'_>, number: u32, token: Option<Head>)
    requires own { IsOwnFrame board.old.setup worker.old.frame }
    requires token { IsInHand number board.old worker.old token }
    ensures { Moves (λ d. stops number d (spends_token (course_of board.old.setup) number worker.old.frame.frame token d.board)) number board.old token board.new worker.new None }
{
    worker.is_running = false;
    match token {
        Some(head) => spend(board, worker, number, head),
        None => {}
    }
}

/// A token is spent: what the iteration did since it was settled last is given up, so the board takes the token back.
pub(crate) fn spend(board: &mut Board<'_>, worker: &mut Worker<'_>, number: u32, head: Head)
    requires own { IsOwnFrame board.old.setup worker.old.frame }
    requires holder { head.worker ≡ number }
    requires out { IsOutOf (board_of board.old) head }
    ensures board { board_of board.new ≡ spends_token (course_of board.old.setup) number worker.old.frame.frame (Some head) (board_of board.old) }
    ensures setup { board.new.setup ≡ board.old.setup }
    ensures own { IsOwnFrame board.old.setup worker.new.frame }
    ensures runs { worker.new.is_running ≡ worker.old.is_running }
{
    board.abandon(number);
    match board.settle_own(head, &mut worker.frame) {
        Settled::Again(_head) => unreachable!(),
        Settled::Passed | Settled::Ended | Settled::NotThisFrame => {}
    }
}

// The word that a frame of the board's own code stopped for is one of the board's store. It does nothing.
fn words_fit(board: &Board<'_>, frame: &Frame<'_>)
    requires { frame.now.code ≡ board.now.setup.code }
    ensures load { (a : ℕ) → frame.now.frame.need ≡ ForLoad a → a < length board.now.store }
    ensures store { (a : ℕ) (v : ℤ) → frame.now.frame.need ≡ ForStore a v → a < length board.now.store }
{
    board.known();
    frame.known();
    frame.code().known();
}
