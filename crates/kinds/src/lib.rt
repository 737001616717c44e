//! Kinds of figure: what a total may be, how figures are added, multiplied and ranked, and how
//! they are written.
#![tactic(auto)]

pub mod figure;
pub mod line;
pub mod peak;
pub mod tally;
pub mod written;
