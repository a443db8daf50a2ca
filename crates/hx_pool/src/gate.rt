// Where a worker stands, told to whoever wants to know.

/// The calls on a board.
#[derive(Clone, Copy, PartialEq, Eq, Debug)]
pub enum Call {
    Start,
    Load,
    Store,
    Head,
    Alive,
    Settle,
    Abandon,
}

/// A point that a worker comes to.
#[derive(Clone, Copy, PartialEq, Eq, Debug)]
pub enum Point {
    /// A stretch of words begins, which no other worker can see.
    InStretch,
    /// A call comes next.
    BeforeCall(Call),
    /// A call was answered.
    AfterCall(Call),
}

/// Who is told where workers stand. A worker that is told of a point holds no lock, and goes on when `at` has returned: a gate can hold
/// it back, and so force an order of calls.
pub trait Gate: Sync {
    /// The worker has come to this point, with this iteration; with none before it has one, and once it has given it up.
    fn at(&self, worker: u32, iteration: Option<u64>, point: Point);
}

/// Nobody wants to know.
pub struct Unwatched;

impl Gate for Unwatched {
    fn at(&self, worker: u32, iteration: Option<u64>, point: Point) {
        let _ = (worker, iteration, point);
    }
}
