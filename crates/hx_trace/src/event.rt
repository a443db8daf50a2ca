// What an entry of a schedule comes to.

use hx_board::State;

/// Where a load finds its value.
#[derive(Clone, Copy, PartialEq, Eq, Debug)]
pub enum Source {
    /// In the iteration's own write buffer.
    Buffer,
    /// In its own read marks.
    Marks,
    /// In the write buffer of this iteration, the nearest earlier one that has the word: the value is forwarded.
    Iteration(u64),
    /// In the committed store.
    Store,
}

/// What a worker does, and what comes of it.
#[derive(Clone, Copy, PartialEq, Eq, Debug)]
pub enum Deed {
    /// It starts an attempt at an iteration.
    Starts,
    /// It loads a word, which has this value, found there.
    Loads {
        word: u32,
        value: i32,
        source: Source,
    },
    /// It stores a value in a word of its write buffer. So many iterations had read the word too early, or stand behind such a one, and
    /// begin again: the last ones, up to this.
    Stores {
        word: u32,
        value: i32,
        restarts: u64,
        last: u64,
    },
    /// It finds no room for the mark of a word, and holds.
    FindsMarksFull {
        word: u32,
    },
    /// It finds no room for a word that it writes, and holds.
    FindsBufferFull {
        word: u32,
        value: i32,
    },
    /// It has computed as many words as a stretch may have, and goes on with its next entry.
    ComputesOn,
    /// It gets the head.
    GetsHead,
    /// It asks for the head, and doesn't get it yet.
    Waits,
    /// It commits what it has done so far, and goes on behind that. What it has printed are the bytes `from` to `to` of the region's text.
    GoesOn {
        from: usize,
        to: usize,
    },
    /// It commits its turn, which is whole.
    Passes,
    /// It commits what it has done, and the region ends like this. So many iterations are dropped: the last ones, up to this.
    Ends {
        state: State,
        dropped: u64,
        last: u64,
    },
    /// It is told that its attempt is over.
    IsSquashed,
    /// It settles what isn't the head's, and gives its iteration up.
    IsRefused,
    /// It finds that the region is over.
    FindsEnd,
}

/// One entry of a schedule: whose it was, the iteration and the attempt at it, from 1, and what was done. A worker that finds the
/// region over before it has an iteration is told with iteration and attempt 0.
#[derive(Clone, Copy, PartialEq, Eq, Debug)]
pub struct Event {
    pub worker: u32,
    pub iteration: u64,
    pub attempt: u64,
    pub deed: Deed,
}
