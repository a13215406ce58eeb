//! Polynomials whose coefficients are compared.
use dc_poly::{Mono, Poly};

/// Polynomials side by side, and the monomials that have a coefficient in any of them.
#[derive(Drop)]
pub struct Block {
    pub monos: Vec<Mono>,
    /// One for each unknown.
    pub parts: Vec<Poly>,
    /// What stands without an unknown.
    pub rest: Poly,
    /// One for each multiplier.
    pub products: Vec<Poly>,
}
