//! A picture of a schedule: time goes down, a line for each event; each worker has a lane, and each attempt at an iteration a box in it.
//! `picture` draws it as SVG, and `table` as text. Both know the events of a replay and nothing else; `specs/Chart.antt` says what is drawn
//! of them.
#![tactic(auto)]

mod chart;
mod columns;
mod drawing;
mod labels;

pub use columns::table;
pub use drawing::picture;
