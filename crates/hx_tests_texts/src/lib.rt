//! The tests of what is read and written around a run: devices, reports and cases, by public calls.
#![tactic(auto)]

#[cfg(test)]
mod cases;
#[cfg(test)]
mod devices;
#[cfg(test)]
mod reports;
