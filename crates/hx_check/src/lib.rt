//! Whether a tree is accepted: names, kinds, counts and limits. An accepted tree is handed on with
//! each name resolved to what it stands for.
#![tactic(auto)]

pub mod check;
pub mod checked;
mod counter;
mod declare;
pub mod error;
mod expression;
mod function;
mod height;
mod here;
mod locals;
mod make;
mod names;
mod need;
mod opening;
mod privates;
mod statement;
mod table;
