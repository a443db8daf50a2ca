// A board that workers share.

ghost use Rattle.std.specs.Prelude.{◌<◌};
ghost use Rattle.hx_code.specs.Code.{store_words};
ghost use Rattle.hx_board.specs.Board.{Setup};
ghost use Rattle.hx_board.specs.Calls.{IsOwnCode, IsOwnFrame, StartsFrame, SettlesFrame};

use hx_board::{Alive, Head, Headed, Loaded, Settled, Started, Stored};
use hx_frame::Frame;
use std::sync::Wait;

/// The calls on a board, through a shared reference; any answer may come, since other workers call too. What it was made for is known by
/// the type, so that frames of its own code and capacities can be handed in, which it needn't compare.
pub trait Shared {
    /// What the board was made for.
    ghost setup: { Setup };

    /// Gives a frame the worker's iteration, as `Board::start`.
    fn start(&self, rt: &impl Wait, worker: u32, frame: &mut Frame<'_>) -> Started
        requires worker { worker < Self.setup.slots }
        requires own { IsOwnFrame Self.setup frame.old }
        ensures { StartsFrame result frame.old frame.new };

    /// The value of a word, as `Board::load`.
    fn load(&self, rt: &impl Wait, worker: u32, attempt: u64, word: u32) -> Loaded
        requires { word < store_words Self.setup.code };

    /// A write, as `Board::store`.
    fn store(&self, rt: &impl Wait, worker: u32, attempt: u64, word: u32, value: i32) -> Stored
        requires { word < store_words Self.setup.code };

    /// The right to settle, as `Board::head`.
    fn head(&self, rt: &impl Wait, worker: u32, attempt: u64) -> Headed;

    /// Whether an attempt goes on, as `Board::alive`.
    fn alive(&self, rt: &impl Wait, worker: u32, attempt: u64) -> Alive;

    /// Commits what the frame has done, as `Board::settle`.
    fn settle(&self, rt: &impl Wait, head: Head, frame: &mut Frame<'_>) -> Settled
        requires { IsOwnCode Self.setup frame.old }
        ensures { SettlesFrame result frame.old frame.new };

    /// The worker's iteration begins again, as `Board::abandon`.
    fn abandon(&self, rt: &impl Wait, worker: u32);
}
