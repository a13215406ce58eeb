//! Normal forms of expressions, affine atoms, and conditions as conjunctions of atoms.
#![tactic(auto)]

mod atom;
mod condition;
mod form;
pub mod laws;

pub use atom::{Atom, at_least, coefficients, constant};
pub use condition::dnf;
pub use form::{FormFault, MOST_COEFFICIENT, MOST_CONSTANT, affine, in_range, normal};
