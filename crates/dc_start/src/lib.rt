//! What each tableau computes, whatever holds its table: the numbers that it starts with, the
//! comparison of quotients of the ratio test, and the arithmetic of a pivot on one entry.
#![tactic(auto)]

mod change;
mod ratio;
mod start;

pub use crate::change::{quotient, step};
pub use crate::ratio::{Candidate, better};
pub use crate::start::{first_value, start_basis};
