// A worker of a replay.

use crate::event::Deed;
use hx_board::Head;
use hx_frame::Frame;

/// A worker's frame, and whether an iteration runs in it.
#[derive(Drop)]
pub(crate) struct Worker<'c> {
    pub(crate) frame: Frame<'c>,
    pub(crate) is_running: bool,
}

/// The right to settle, in a worker's hand.
pub(crate) struct Held {
    pub(crate) worker: u32,
    pub(crate) head: Head,
}

/// The token in a worker's hand after its entry, and what it did.
pub(crate) struct Entered {
    pub(crate) token: Option<Head>,
    pub(crate) deed: Deed,
}
