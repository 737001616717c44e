//! Branching orders, select, and the calls of a study.
#![tactic(auto)]

pub mod asking;
pub mod call;
pub mod cases;
pub mod choice;
pub mod day;
pub mod fault;
pub mod found;
pub mod guard;
pub mod number_order;
pub mod order;
mod plan;
mod requirements;
pub mod strongest_lean;
pub mod study;
mod trail;
pub mod trial;
pub mod weights;
