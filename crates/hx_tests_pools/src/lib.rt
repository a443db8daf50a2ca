//! The tests of marked loops as the plain machine and as workers run them, and of boards that are used wrongly, by public calls.
#![tactic(auto)]

#[cfg(test)]
mod fakes;
#[cfg(test)]
mod forged;
#[cfg(test)]
mod machines;
#[cfg(test)]
mod passing;
#[cfg(test)]
mod pools;
#[cfg(test)]
mod regions;
