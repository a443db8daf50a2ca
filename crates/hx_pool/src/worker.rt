// What a worker does.

ghost use Rattle.std.specs.Prelude.{◌≡◌, ◌<◌};
ghost use Rattle.hx_code.specs.Code.{store_words};
ghost use Rattle.hx_board.specs.Calls.{IsOwnCode, IsOwnFrame, StartsFrame};
ghost use Rattle.hx_pool.specs.Setups.{StaysOwn, StopFits};

use crate::gate::{Call, Gate, Point};
use crate::shared::Shared;
use hx_board::{Alive, Head, Headed, Loaded, Settled, Started, Stored};
use hx_frame::{Frame, Stop};
use hx_tree::limits::STRETCH_LIMIT;
use std::sync::Wait;
use std::{hint, thread};

/// What a worker does next.
#[derive(Clone, Copy, PartialEq, Eq, Debug)]
enum Next {
    /// It goes on with its iteration.
    Goes,
    /// It waits with its iteration until it is the head.
    Waits,
    /// It has no iteration any more.
    Idle,
    /// The region has ended.
    Over,
}

/// A worker: its number, the board that it shares, and who is told where it stands.
#[derive(Drop)]
struct Hand<'a, S: Shared, G: Gate, W: Wait> {
    rt: &'a W,
    worker: u32,
    shared: &'a S,
    gate: &'a G,
}

/// Runs iterations until the region has ended, by one rule: without an iteration it asks for one, and with one it runs a stretch of
/// words by itself and hands on what that stopped for. What only the head may do it settles, once it has the right to; an iteration
/// that is squashed it gives up.
pub fn work<S: Shared, G: Gate, W: Wait>(
    rt: &W,
    worker: u32,
    shared: &S,
    frame: &mut Frame<'_>,
    gate: &G,
)
    requires worker { worker < S.setup.slots }
    requires own { IsOwnFrame S.setup frame.old }
    ensures { StaysOwn frame.old frame.new }
{
    let hand = Hand {
        rt,
        worker,
        shared,
        gate,
    };
    for _ in rt.forever() {
        match hand.start(frame) {
            Started::Go { .. } => {
                if let Next::Over = hand.iterate(frame) {
                    return;
                }
            }
            Started::NotThisFrame | Started::Ended => return,
        }
    }
    unreachable!()
}

/// So many times in a row a worker that waits for the head makes its pause longer.
const LONGEST_PAUSE: u32 = 8;

/// Lets others run before the head is asked for again, the longer the more often that was in vain: who asks takes the lock, which those
/// want who have work to do.
fn pause(waits: u32) {
    for _ in 0..16 * LONGEST_PAUSE.min(waits) {
        hint::spin_loop();
    }
    thread::yield_now();
}

/// As many words as one stretch has, but for those that ask for more than the frame has.
fn run_stretch(frame: &mut Frame<'_>) -> Stop
    ensures stays { StaysOwn frame.old frame.new }
    ensures fits { StopFits frame.old.code result }
{
    frame.code().known();
    let stop = frame.run(STRETCH_LIMIT as u64);
    frame.known();
    stop
}

impl<S: Shared, G: Gate, W: Wait> Hand<'_, S, G, W> {
    // Goes on with an iteration until it has none.
    fn iterate(&self, frame: &mut Frame<'_>) -> Next
        requires { IsOwnCode S.setup frame.old }
        ensures { StaysOwn frame.old frame.new }
    {
        let mut head: Option<Head> = None;
        let mut waits = 0;
        for _ in self.rt.forever() {
            let (next, kept) = self.step(frame, head);
            match next {
                Next::Goes => waits = 0,
                Next::Waits => {
                    pause(waits);
                    waits = LONGEST_PAUSE.min(waits) + 1;
                }
                Next::Idle | Next::Over => {
                    if let Some(held) = kept {
                        self.spend(frame, held);
                    }
                    return next;
                }
            }
            head = kept;
        }
        unreachable!()
    }

    // Runs one stretch and hands on what it stopped for.
    fn step(&self, frame: &mut Frame<'_>, head: Option<Head>) -> (Next, Option<Head>)
        requires { IsOwnCode S.setup frame.old }
        ensures { StaysOwn frame.old frame.new }
    {
        self.tells(frame, Point::InStretch);
        match (run_stretch(frame), head) {
            (Stop::NeedLoad(word), head) => (self.load(frame, word), head),
            (Stop::NeedStore(word, value), head) => (self.store(frame, word, value), head),
            (Stop::Limit, head) => (self.alive(frame), head),
            (Stop::NeedHead(_), Some(held)) => self.settle(frame, held),
            (Stop::NeedHead(_), None) => self.ask(frame),
        }
    }

    // Tells where it stands with its frame's iteration.
    fn tells(&self, frame: &Frame<'_>, point: Point) {
        self.gate
            .at(self.worker, Some(frame.tagged().iteration), point);
    }

    // Asks for an iteration.
    fn start(&self, frame: &mut Frame<'_>) -> Started
        requires worker { self.now.worker < S.setup.slots }
        requires own { IsOwnFrame S.setup frame.old }
        ensures { StartsFrame result frame.old frame.new }
    {
        self.gate
            .at(self.worker, None, Point::BeforeCall(Call::Start));
        let started = self.shared.start(self.rt, self.worker, frame);
        self.gate
            .at(self.worker, None, Point::AfterCall(Call::Start));
        started
    }

    // Loads the word that its frame stopped for.
    fn load(&self, frame: &mut Frame<'_>, word: u32) -> Next
        requires { word < store_words S.setup.code }
        ensures { StaysOwn frame.old frame.new }
    {
        self.tells(frame, Point::BeforeCall(Call::Load));
        let attempt = frame.tagged().attempt;
        let loaded = self.shared.load(self.rt, self.worker, attempt, word);
        self.tells(frame, Point::AfterCall(Call::Load));
        match loaded {
            Loaded::Value(value) => frame.loaded(value),
            Loaded::Full => frame.hold(),
            Loaded::Squashed => return Next::Idle,
            Loaded::Ended => return Next::Over,
        }
        Next::Goes
    }

    // Does the write that its frame stopped for.
    fn store(&self, frame: &mut Frame<'_>, word: u32, value: i32) -> Next
        requires { word < store_words S.setup.code }
        ensures { StaysOwn frame.old frame.new }
    {
        self.tells(frame, Point::BeforeCall(Call::Store));
        let attempt = frame.tagged().attempt;
        let stored = self
            .shared
            .store(self.rt, self.worker, attempt, word, value);
        self.tells(frame, Point::AfterCall(Call::Store));
        match stored {
            Stored::Done => frame.stored(),
            Stored::Full => frame.hold(),
            Stored::Squashed => return Next::Idle,
            Stored::Ended => return Next::Over,
        }
        Next::Goes
    }

    // Asks whether its attempt goes on, after a stretch that came to its limit.
    fn alive(&self, frame: &Frame<'_>) -> Next {
        self.tells(frame, Point::BeforeCall(Call::Alive));
        let attempt = frame.tagged().attempt;
        let alive = self.shared.alive(self.rt, self.worker, attempt);
        self.tells(frame, Point::AfterCall(Call::Alive));
        match alive {
            Alive::Live => Next::Goes,
            Alive::Squashed => Next::Idle,
            Alive::Ended => Next::Over,
        }
    }

    // Asks for the right to settle.
    fn ask(&self, frame: &Frame<'_>) -> (Next, Option<Head>) {
        self.tells(frame, Point::BeforeCall(Call::Head));
        let attempt = frame.tagged().attempt;
        let headed = self.shared.head(self.rt, self.worker, attempt);
        self.tells(frame, Point::AfterCall(Call::Head));
        match headed {
            Headed::Yours(head) => (Next::Goes, Some(head)),
            Headed::NotYet => (Next::Waits, None),
            Headed::Squashed => (Next::Idle, None),
            Headed::Ended => (Next::Over, None),
        }
    }

    // Settles what its frame has done and waits with.
    fn settle(&self, frame: &mut Frame<'_>, head: Head) -> (Next, Option<Head>)
        requires { IsOwnCode S.setup frame.old }
        ensures { StaysOwn frame.old frame.new }
    {
        self.tells(frame, Point::BeforeCall(Call::Settle));
        let settled = self.shared.settle(self.rt, head, frame);
        self.tells(frame, Point::AfterCall(Call::Settle));
        match settled {
            Settled::Again(head) => (Next::Goes, Some(head)),
            Settled::Passed => (Next::Idle, None),
            Settled::Ended => (Next::Over, None),
            Settled::NotThisFrame => {
                self.abandon();
                (Next::Idle, None)
            }
        }
    }

    // Gives its iteration up.
    fn abandon(&self) {
        self.gate
            .at(self.worker, None, Point::BeforeCall(Call::Abandon));
        self.shared.abandon(self.rt, self.worker);
        self.gate
            .at(self.worker, None, Point::AfterCall(Call::Abandon));
    }

    // Hands a right to settle back that it has no use for: behind `abandon` a settled frame is none of the head's.
    fn spend(&self, frame: &mut Frame<'_>, head: Head)
        requires { IsOwnCode S.setup frame.old }
        ensures { StaysOwn frame.old frame.new }
    {
        let mut held = head;
        for _ in self.rt.forever() {
            self.abandon();
            match self.shared.settle(self.rt, held, frame) {
                Settled::Again(again) => held = again,
                Settled::Passed | Settled::Ended | Settled::NotThisFrame => return,
            }
        }
        unreachable!()
    }
}
