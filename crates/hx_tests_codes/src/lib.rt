//! The tests of the stages from trees to codes: each file is named like what it tests.
#![tactic(auto)]

#[cfg(test)]
mod checking;
#[cfg(test)]
mod codes;
#[cfg(test)]
mod listings;
#[cfg(test)]
mod stages;
#[cfg(test)]
mod tables;
