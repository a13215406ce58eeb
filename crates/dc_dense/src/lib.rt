//! A tableau in one vector of fractions, row after row.
#![tactic(auto)]

mod dense;
mod pivot;
mod start;

pub use crate::dense::Dense;
