//! The tests of the study.
#![tactic(auto)]

#[cfg(test)]
mod calls;
#[cfg(test)]
mod days;
#[cfg(test)]
mod left;
#[cfg(test)]
mod refusals;
#[cfg(test)]
mod selections;
#[cfg(test)]
mod shown;
#[cfg(test)]
mod spoken;
#[cfg(test)]
mod steps;
#[cfg(test)]
mod texts;
