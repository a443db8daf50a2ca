// What a board answers.

use crate::head::Head;
use hx_tree::outcome::Fault;

/// What comes of asking for an iteration.
#[derive(Clone, Copy, PartialEq, Eq, Debug)]
pub enum Started {
    /// The frame stands at the start of this attempt at this iteration.
    Go { iteration: u64, attempt: u64 },
    /// The frame has another code, or other capacities; nothing changed.
    NotThisFrame,
    /// The region has ended.
    Ended,
}

/// What comes of a load.
#[derive(Clone, Copy, PartialEq, Eq, Debug)]
pub enum Loaded {
    /// The word's value.
    Value(i32),
    /// The worker has no iteration, or another attempt.
    Squashed,
    /// There is no room for the mark; the iteration waits until it is the head.
    Full,
    /// The region has ended.
    Ended,
}

/// What comes of a store.
#[derive(Clone, Copy, PartialEq, Eq, Debug)]
pub enum Stored {
    /// The word is in the iteration's write buffer, and those that don't see there what they had read begin again.
    Done,
    /// The worker has no iteration, or another attempt.
    Squashed,
    /// There is no room for the word; the iteration waits until it is the head.
    Full,
    /// The region has ended.
    Ended,
}

/// What comes of asking for the head.
pub enum Headed {
    /// The worker has the head's iteration, and may settle it.
    Yours(Head),
    /// Another iteration is the head, or its token is out.
    NotYet,
    /// The worker has no iteration, or another attempt.
    Squashed,
    /// The region has ended.
    Ended,
}

/// Whether an attempt goes on.
#[derive(Clone, Copy, PartialEq, Eq, Debug)]
pub enum Alive {
    /// It does.
    Live,
    /// The worker has no iteration, or another attempt.
    Squashed,
    /// The region has ended.
    Ended,
}

/// What comes of settling.
pub enum Settled {
    /// What the iteration did is committed, and it goes on from there, still the head.
    Again(Head),
    /// Its turn is whole, and the next iteration is the head.
    Passed,
    /// The region has ended.
    Ended,
    /// The token or the frame isn't that of the head's iteration; store and text are as they were, and no token is out.
    NotThisFrame,
}

/// How far a region is.
#[derive(Clone, Copy, PartialEq, Eq, Debug)]
pub enum State {
    Running,
    Left,
    Returned(i32),
    Faulted(Fault),
}
