//! Candidate atoms of a program's invariants: rows, which are linear forms, and bounds.
#![tactic(auto)]

mod bounds;
mod kinds;
pub mod laws;
mod listing;
mod row_set;
mod rows;

pub use kinds::{Candidates, RowFault};
pub use listing::candidates;
