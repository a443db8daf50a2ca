//! What a program is once each of its names is what it stands for, and which private words its regions take
//! along.
#![tactic(auto)]

pub mod carried;
pub mod program;
pub mod symbol;
