//! Write buffers: what an iteration has written and not settled yet. A map of so many words at most, which can be laid over a store;
//! `specs/Overlay.antt` says what that makes of the store.
#![tactic(auto)]

pub mod buffer;

pub use buffer::WriteBuffer;
