//! One iteration as a worker runs it by itself: where it is, what it has read and what it has written. It stops to ask a board for
//! what it can't tell, and for the head's right to do what can't be undone. `specs/Frame.antt` says what is kept of it.
#![tactic(auto)]

pub mod action;
pub mod frame;
mod words;

pub use action::{Action, Stop};
pub use frame::{Capacities, Frame, Tag};
