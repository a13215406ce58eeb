//! Tests of analyses: pairs of small programs with the answers that were worked out by hand. The
//! crate has no function of its own.
#![tactic(auto)]

#[cfg(test)]
mod answers;
#[cfg(test)]
mod loads;
#[cfg(test)]
mod rows;
#[cfg(test)]
mod whole;
