//! The board of a region: the active iterations, one committed store and one text, and who may settle. Each call is one step of the
//! board that hx_speculation defines, and whatever calls come, what is committed is a state of the plain region from the board's own
//! entry, or its end. `specs/Board.antt` says what contracts see.
#![tactic(auto)]

pub mod answers;
pub mod board;
mod effect;
pub mod head;
pub mod job;

pub use answers::{Alive, Headed, Loaded, Settled, Started, State, Stored};
pub use board::Board;
pub use head::Head;
pub use job::Job;
