//! The tests of whole runs: worked programs, programs whose answers a C compiler gave, and machines and sources that are hostile.
#![tactic(auto)]

#[cfg(test)]
mod alone;
#[cfg(test)]
mod answers;
#[cfg(test)]
mod building;
#[cfg(test)]
mod executing;
#[cfg(test)]
mod failing;
#[cfg(test)]
mod forms;
#[cfg(test)]
mod hostile;
#[cfg(test)]
mod inputs;
#[cfg(test)]
mod overlap;
#[cfg(test)]
mod paths;
#[cfg(test)]
mod programs;
#[cfg(test)]
mod refusals;
#[cfg(test)]
mod rows;
#[cfg(test)]
mod scale;
#[cfg(test)]
mod stations;
#[cfg(test)]
mod workers;
