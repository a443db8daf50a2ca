//! What a written schedule does: worker numbers, one after another, drive the frames of a region and their board on one thread.
//! `specs/Trace.antt` says what is told of that, by the definition of hx_speculation.
#![tactic(auto)]

mod answers;
pub mod event;
mod sources;
mod telling;
mod text;
mod trace;
mod worker;

pub use event::{Deed, Event, Source};
pub use telling::{Called, put_name, put_printed, told_listing};
pub use text::listing;
pub use trace::{Told, Trace, TraceError, replay, replay_told};
