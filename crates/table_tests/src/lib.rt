//! The tests of the table's check.
#![tactic(auto)]

#[cfg(test)]
mod asked;
#[cfg(test)]
mod checking;
#[cfg(test)]
mod circuits;
#[cfg(test)]
mod large;
#[cfg(test)]
mod records;
