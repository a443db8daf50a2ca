//! The tests of the stages from source to tree: each file is named like the stage that it tests. `answers` and `building` have
//! what several of them need.
#![tactic(auto)]

#[cfg(test)]
mod answers;
#[cfg(test)]
mod building;
#[cfg(test)]
mod lexing;
#[cfg(test)]
mod nodes;
#[cfg(test)]
mod parsing;
#[cfg(test)]
mod profile1;
#[cfg(test)]
mod trees;
