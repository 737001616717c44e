//! The tests of the passes.
#![tactic(auto)]

#[cfg(test)]
mod asking;
#[cfg(test)]
mod figures;
#[cfg(test)]
mod worlds;
