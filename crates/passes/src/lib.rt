//! The passes: a value for every node, for a selection or for holds.
#![tactic(auto)]

mod bounds;
mod counting;
mod figure;
pub mod holds;
mod pair;
pub mod places;
mod plain;
pub mod query;
mod rule;
pub mod sheet;
mod values;
