//! The parts of a table on the heap, for programs and tests.
#![tactic(auto)]

pub mod stores;
