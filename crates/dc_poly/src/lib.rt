//! Polynomials with whole coefficients, in graded order.
#![tactic(auto)]

mod composition;
pub mod laws;
mod lists;
mod monomial;
mod polynomial;

pub use monomial::{Mono, Term};
pub use polynomial::Poly;

#[cfg(test)]
mod tests;
