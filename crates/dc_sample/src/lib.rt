//! Pairs of sources that are made from a number: something to try an analysis on.
//!
//! Both sources of a pair are a row of loops over the same parameter; what a turn of a loop costs
//! is drawn anew for each loop of each version.
#![tactic(auto)]

mod pair;
#[cfg(test)]
mod tests;

pub use pair::{Pair, sample_pair};
