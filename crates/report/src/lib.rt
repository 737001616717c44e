//! What a program prints for a plant: the bound and the best selection, or the answers to a list of
//! calls, or the refusal.
#![tactic(auto)]

pub mod answer;
pub mod day;
pub mod plant;
pub mod stop;
