//! The tests of the command line: whole commands, by the call that the program makes.
#![tactic(auto)]

#[cfg(test)]
mod advising;
#[cfg(test)]
mod drawing;
#[cfg(test)]
mod edges;
#[cfg(test)]
mod explaining;
#[cfg(test)]
mod helping;
#[cfg(test)]
mod listed;
#[cfg(test)]
mod replaying;
#[cfg(test)]
mod reporting;
#[cfg(test)]
mod telling;
#[cfg(test)]
mod whole;
