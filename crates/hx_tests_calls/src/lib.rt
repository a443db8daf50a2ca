//! The tests of codes with cells as private words or with jumps for turns, and of the calls that do words, by public calls.
#![tactic(auto)]

#[cfg(test)]
mod at_once;
#[cfg(test)]
mod calls;
#[cfg(test)]
mod cells;
#[cfg(test)]
mod codes;
#[cfg(test)]
mod loops;
#[cfg(test)]
mod outside;
#[cfg(test)]
mod regions;
#[cfg(test)]
mod rounds;
