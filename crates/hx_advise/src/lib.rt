//! What holds a marked loop back: a program is run on one thread, and of each of its marked loops it is told which turns read what an
//! earlier turn wrote. `specs/Events.antt` says when turns are independent, and `specs/Regions.antt` what the turns of a region read and write.
#![tactic(auto)]

pub mod laws;
mod program;
mod region;
mod watch;

pub use program::{Advice, Seen, advise};
pub use region::{Watched, watch_region};
pub use watch::{Need, Watch};
