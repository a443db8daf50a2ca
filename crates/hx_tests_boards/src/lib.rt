//! The tests of boards and what stands around one: tables, frames, boards and schedules, by public calls.
#![tactic(auto)]

#[cfg(test)]
mod boards;
#[cfg(test)]
mod frames;
#[cfg(test)]
mod refined;
#[cfg(test)]
mod schedules;
#[cfg(test)]
mod slots;
#[cfg(test)]
mod sources;
#[cfg(test)]
mod tables;
#[cfg(test)]
mod texts;
