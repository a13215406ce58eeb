//! The main problem's part of a certificate: the first of its clauses that doesn't hold, and what
//! they show. It stands on no solver.
#![tactic(auto)]

mod body;
pub mod laws;
mod steps;
mod sums;

pub use body::main_failure;
