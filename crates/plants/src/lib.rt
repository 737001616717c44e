//! Small plants for the tests of several layers.
#![tactic(auto)]

pub mod files;
pub mod reading;
