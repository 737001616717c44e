//! The checked table: a circuit that is what it should be, or the first reason why it is not.
#![tactic(auto)]

pub mod check;
pub mod fault;
mod node;
pub mod sets;
pub mod table;
