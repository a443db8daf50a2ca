//! The active iterations of a board, in order from the head: whose each is, which attempt at it, where that begins, and what it has read
//! and written since. What a load finds among them, whom a store violates and who begins again is that of `hx_speculation`'s `specs/Slots`.
#![tactic(auto)]

mod index;
mod places;
pub mod slot;
pub mod slots;

pub use slot::{Found, Slot};
pub use slots::{Slots, Written};
