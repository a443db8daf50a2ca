// Where a load finds its value.

ghost use Rattle.std.specs.Prelude.{◌≡◌};
ghost use Rattle.hx_speculation.specs.Slots.{is_at};
ghost use Rattle.hx_board.specs.Board.{board_of};
ghost use Rattle.hx_trace.specs.Events.{last_of, own_source, source_behind, source_on};

use crate::event::Source;
use hx_board::Board;
use hx_slots::slot::Slot;

/// Where a worker's attempt finds a word.
pub(crate) fn source_on(board: &Board<'_>, worker: u32, attempt: u64, word: u32) -> Source
    ensures { result ≡ source_on worker attempt word (board_of board.now) }
{
    board.known();
    let (head, slots) = board.active();
    let mut source = Source::Store;
    for place in 0..slots.len() {
        let slot = slots.at(place);
        if is_at(slot, worker, attempt) {
            return own_source(slot, word, source);
        }
        source = source_behind(slot, head + place as u64, word, source);
    }
    source
}

// Whether an iteration is at this attempt of a worker.
fn is_at(slot: &Slot, worker: u32, attempt: u64) -> bool
    ensures { result ≡ is_at slot.now.slot worker attempt }
{
    slot.worker() == worker && slot.attempt() == attempt
}

// Where this iteration finds a word that it would find there, were it not for what it has written and read.
fn own_source(slot: &Slot, word: u32, other: Source) -> Source
    ensures { result ≡ own_source word other slot.now.slot }
{
    if slot.buffer().get(word).is_some() {
        Source::Buffer
    } else if slot.marks().get(word).is_some() {
        Source::Marks
    } else {
        other
    }
}

// Where the iteration behind this one finds a word that this one would find there.
fn source_behind(slot: &Slot, iteration: u64, word: u32, other: Source) -> Source
    ensures { result ≡ source_behind word iteration other slot.now.slot }
{
    if slot.buffer().get(word).is_some() {
        Source::Iteration(iteration)
    } else {
        other
    }
}

/// The last active iteration.
pub(crate) fn last_of(board: &Board<'_>) -> u64
    ensures { result ≡ last_of (board_of board.now) }
{
    board.known();
    let (head, slots) = board.active();
    head + (slots.len() as u64).saturating_sub(1)
}
