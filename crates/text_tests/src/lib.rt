//! The tests of the table file's reader and of the kinds of figure.
#![tactic(auto)]

#[cfg(test)]
mod accepted;
#[cfg(test)]
mod figures;
#[cfg(test)]
mod large;
#[cfg(test)]
mod numbers;
#[cfg(test)]
mod plant;
#[cfg(test)]
mod refused;
#[cfg(test)]
mod stores;
