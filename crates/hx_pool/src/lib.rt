//! Regions on threads: workers take a region's iterations from one board under one lock and run them ahead of one another, and stay from
//! region to region. Whatever the threads do, the end is that of the plain region from its own entry: what lies under the lock is a
//! board, each call on it is one step of its definition, and `Board::end_into` hands out no other end.
#![tactic(auto)]

mod crew;
pub mod gate;
mod kept;
mod region;
mod run;
pub mod shared;
mod station;
mod worker;

pub use crew::Seat;
pub use gate::{Call, Gate, Point, Unwatched};
pub use region::{run_region, run_region_on};
pub use run::Run;
pub use shared::Shared;
pub use station::{PoolError, Station, serve};
pub use worker::work;
